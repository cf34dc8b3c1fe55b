//! Why an addition to a document, or a call on a tree builder, is refused.

ghost use Rattle.std.specs.Prelude.{◌≡◌};

use std::alloc::{AllocError, AllocFailed};
use thiserror::Error;

/// Why a document refuses an addition. After each refusal its pairs and its heap are unchanged.
#[derive(Clone, Copy, Debug, PartialEq, Eq, Error)]
pub enum AddError {
    /// The length of the heap and the room of the value together are above 4294967295 bytes.
    #[error("the values need more room than 4294967295 bytes")]
    HeapFull,
    /// The memory for the value was refused.
    #[error("memory was refused")]
    Memory,
}

impl From<AllocError> for AddError {
    ghost use Rattle.tv_builder.specs.declared.errors.AddError.TheVariants.{Memory};

    ghost from_gives = { λ _ e. e ≡ Memory };

    fn from(_error: AllocError) -> AddError {
        AddError::Memory
    }
}

/// Why a tree builder refuses a call. (Not in tantivy.) After any refusal it refuses every later call as `AlreadyFailed`.
#[derive(Clone, Copy, Debug, PartialEq, Eq, Error)]
pub enum BuildError {
    /// An earlier call was refused.
    #[error("an earlier call was refused")]
    AlreadyFailed,
    /// Another call is awaited.
    #[error("another call is awaited")]
    OutOfPlace,
    /// The bytes of a text, a facet or a key aren't UTF-8.
    #[error("the bytes of a text are not UTF-8")]
    NotUtf8,
    /// The heap would be longer than 4294967295 bytes.
    #[error("the values need more room than 4294967295 bytes")]
    HeapFull,
    /// The memory for the value was refused.
    #[error("memory was refused")]
    Memory,
}

impl From<AllocError> for BuildError {
    ghost use Rattle.tv_builder.specs.declared.errors.BuildError.TheVariants.{Memory};

    ghost from_gives = { λ _ e. e ≡ Memory };

    fn from(_error: AllocError) -> BuildError {
        BuildError::Memory
    }
}

impl<T: Drop> From<AllocFailed<T>> for BuildError {
    ghost use Rattle.tv_builder.specs.declared.errors.BuildError.TheVariants.{Memory};

    ghost from_gives = { λ _ e. e ≡ Memory };

    fn from(_error: AllocFailed<T>) -> BuildError {
        BuildError::Memory
    }
}

impl From<AddError> for BuildError {
    ghost use Rattle.tv_builder.specs.Whole.{as_refused};

    ghost from_gives = { λ error e. e ≡ as_refused error };

    fn from(error: AddError) -> BuildError {
        match error {
            AddError::HeapFull => BuildError::HeapFull,
            AddError::Memory => BuildError::Memory,
        }
    }
}
