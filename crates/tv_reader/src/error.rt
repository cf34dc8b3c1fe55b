//! Why a value or a document can't be read.

ghost use Rattle.std.specs.Prelude.{◌≡◌};
ghost use Rattle.tv_reader.specs.declared.error.DeserializeError.{DeserializeError};
ghost use Rattle.tv_reader.specs.Error.{read_error};

pub use crate::value_type::ValueType;
use std::alloc::{AllocError, AllocFailed};
use std::io;
use thiserror::Error;
use tv_base::{Cause, ReadError};

/// Why bytes of a store couldn't be read. The first error in reading order is answered.
#[derive(Debug, PartialEq, Drop, Error)]
pub enum DeserializeError {
    /// A value of this type can't be read where it stands.
    #[error("a value of type {0:?} cannot be read here")]
    UnsupportedType(ValueType),
    /// A value of another type stands where one was expected.
    #[error("expected a value of type {expected:?}, and found {actual:?}")]
    TypeMismatch {
        /// The type that was expected.
        expected: ValueType,
        /// The type that stands there.
        actual: ValueType,
    },
    /// The bytes encode no value.
    #[error("{0}")]
    CorruptedValue(Cause),
    /// An error of a reader that a user wrote.
    #[error("{0}")]
    Custom(String),
    /// No store of this version can be read, but those up to the second number.
    #[error("version {0} is not supported, but those up to {1}")]
    UnsupportedVersion(u32, u32),
    /// What was read and announced so far needs more room than a document's heap has, 4294967295 bytes.
    #[error("the values need more room than 4294967295 bytes")]
    HeapFull,
    /// Memory was refused.
    #[error("memory was refused")]
    Memory,
    /// The source failed.
    #[error("the source failed: {0}")]
    Io(io::ErrorKind),
    /// An earlier read through the same reader was refused.
    #[error("an earlier read was refused")]
    AlreadyFailed,
    /// More lists would be open at once than the reader allows. (Not in tantivy.)
    #[error("more lists would be open at once than the reader allows")]
    TooDeep,
}

impl DeserializeError {
    /// An error of a reader that a user wrote, with this message.
    pub fn custom(message: String) -> DeserializeError
        ensures { result ≡ DeserializeError.Custom message }
    {
        DeserializeError::Custom(message)
    }
}

impl From<ReadError> for DeserializeError {
    ghost from_gives = { λ error told. told ≡ read_error error };

    fn from(error: ReadError) -> DeserializeError {
        match error {
            ReadError::Corrupted(cause) => DeserializeError::CorruptedValue(cause),
            ReadError::Io(kind) => DeserializeError::Io(kind),
            ReadError::Memory => DeserializeError::Memory,
        }
    }
}

impl From<AllocError> for DeserializeError {
    ghost from_gives = { λ _ told. told ≡ DeserializeError.Memory };

    fn from(_error: AllocError) -> DeserializeError {
        DeserializeError::Memory
    }
}

impl<T: Drop> From<AllocFailed<T>> for DeserializeError {
    ghost from_gives = { λ _ told. told ≡ DeserializeError.Memory };

    fn from(_error: AllocFailed<T>) -> DeserializeError {
        DeserializeError::Memory
    }
}
