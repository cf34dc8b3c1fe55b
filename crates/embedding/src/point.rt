//! A record of your own.

ghost use Rattle.embedding.specs.Point.{IsPoint, PointRefused, point_excludes};

use std::alloc::Global;
use std::collections::BTreeMap;
use tantivy_schema::common::ByteSource;
use tantivy_schema::schema::document::{
    BinaryValueDeserializer, DeserializeError, ValueDeserialize,
};

/// A point of which a coordinate may be missing. In a store it is an object of numbers from 0 to 2^64 - 1: the last one with the key
/// `x` is one coordinate, the last one with the key `y` the other, and all others are left out.
#[derive(Clone, Copy, Debug, PartialEq, Eq)]
pub struct Point {
    /// The coordinate `x`.
    pub x: Option<u64>,
    /// The coordinate `y`.
    pub y: Option<u64>,
}

impl ValueDeserialize for Point {
    ghost is = { IsPoint };

    ghost refused = { PointRefused };

    fn deserialize<S: ByteSource>(
        alloc: Global,
        deserializer: BinaryValueDeserializer<'_, S>,
    ) -> Result<Point, DeserializeError> {
        let numbers = BTreeMap::<String, u64>::deserialize(alloc, deserializer)?;
        let x = numbers.get("x").copied();
        let y = numbers.get("y").copied();
        Ok(Point { x, y })
    }

    ghost excludes = { point_excludes };
}
