//! A number of your own.

ghost use Rattle.tantivy_schema.specs.CodeTypes.ValueType.TheVariants as types;
ghost use Rattle.tantivy_schema.specs.Excluding.{leaf_excludes};
ghost use Rattle.tantivy_schema.specs.Tree.{unsigned};
ghost use Rattle.tantivy_schema.specs.Values.{IsLeafOf, LeafRefused};
ghost use Rattle.std.specs.Prelude.{refl};

use std::alloc::Global;
use tantivy_schema::common::ByteSource;
use tantivy_schema::schema::document::{
    BinaryValueDeserializer, DeserializeError, ValueDeserialize,
};

/// How well a document fits a query. In a store it is a number from 0 to 2^64 - 1, and is read and refused as one.
#[derive(Clone, Copy, Debug, PartialEq, Eq)]
pub struct Score(pub u64);

impl ValueDeserialize for Score {
    ghost is = { IsLeafOf (λ score. unsigned score.0) };

    ghost refused = { LeafRefused types.U64 };

    fn deserialize<S: ByteSource>(
        _alloc: Global,
        deserializer: BinaryValueDeserializer<'_, S>,
    ) -> Result<Score, DeserializeError> {
        let number = deserializer.deserialize_u64()?;
        Ok(Score(number))
    }

    ghost excludes = { leaf_excludes types.U64 (λ score. unsigned score.0) (λ _. refl) };
}
