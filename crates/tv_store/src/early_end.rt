//! Whether there was something to read, or the bytes were at their end or cut off.

ghost use Rattle.std.specs.Prelude.{◌≡◌, ◌↔◌, IsTrue};
ghost use Rattle.tv_store.specs.Blocks.{NextOf};

use crate::limits::LimitedReadError;
use tv_base::{Cause, ReadError};
use tv_reader::DeserializeError;

/// An error of reading, which may say that the bytes end too early. (Not in tantivy.)
pub trait EarlyEnd {
    /// The error that says so.
    ghost early_end: { Self };

    /// Whether it says so.
    fn is_early_end(&self) -> bool
        ensures { IsTrue result ↔ (self.now ≡ early_end) };
}

impl EarlyEnd for ReadError {
    ghost use Rattle.tv_base.specs.declared.cause.Cause.TheVariants.{UnexpectedEnd};
    ghost use Rattle.tv_base.specs.declared.cause.ReadError.TheVariants.{Corrupted};

    ghost early_end = { Corrupted UnexpectedEnd };

    fn is_early_end(&self) -> bool {
        matches!(self, ReadError::Corrupted(Cause::UnexpectedEnd))
    }
}

impl EarlyEnd for DeserializeError {
    ghost use Rattle.tv_base.specs.declared.cause.Cause.TheVariants.{UnexpectedEnd};
    ghost use Rattle.tv_reader.specs.declared.error.DeserializeError.TheVariants.{CorruptedValue};

    ghost early_end = { CorruptedValue UnexpectedEnd };

    fn is_early_end(&self) -> bool {
        matches!(self, DeserializeError::CorruptedValue(Cause::UnexpectedEnd))
    }
}

impl EarlyEnd for LimitedReadError {
    ghost use Rattle.tv_base.specs.declared.cause.Cause.TheVariants.{UnexpectedEnd};
    ghost use Rattle.tv_reader.specs.declared.error.DeserializeError.TheVariants.{CorruptedValue};
    ghost use Rattle.tv_store.specs.declared.limits.LimitedReadError.TheVariants.{Read};

    ghost early_end = { Read (CorruptedValue UnexpectedEnd) };

    fn is_early_end(&self) -> bool {
        matches!(
            self,
            LimitedReadError::Read(DeserializeError::CorruptedValue(Cause::UnexpectedEnd))
        )
    }
}

/// What was read, or `None` if nothing was left, by what reading it returned and how many bytes that took: nothing was left where the bytes end
/// early and `taken` is 0. (Not in tantivy.)
///
/// Errors: any other error of `read`. So an early end after at least one byte stays an error.
pub fn next_of<T, E: EarlyEnd + Drop>(read: Result<T, E>, taken: u64) -> Result<Option<T>, E>
    ensures { NextOf E.early_end read taken result }
{
    match read {
        Ok(next) => Ok(Some(next)),
        Err(error) => {
            if taken == 0 && error.is_early_end() {
                Ok(None)
            } else {
                Err(error)
            }
        }
    }
}
