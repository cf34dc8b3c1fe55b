//! Writing values in their shortest encoding, and arrays and objects value by value.
#![tactic(auto)]

pub mod deep;
pub mod encoding;
pub mod leaf_writer;
pub mod serializers;
pub mod value_writer;

pub use serializers::{
    BinaryArraySerializer, BinaryObjectSerializer, BinaryValueSerializer, SerializeError,
};
