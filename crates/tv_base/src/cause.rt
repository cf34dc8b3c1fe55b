//! Why bytes are refused, and why something could not be read or written.

ghost use Rattle.std.specs.Prelude.{◌≡◌, IfOk, string_bytes};
ghost use Rattle.tv_base.specs.declared.cause.ReadError.TheVariants.{Memory};
ghost use Rattle.std.specs.Fmt.{take_chars};

use std::alloc::{AllocError, AllocFailed, Global};
use std::fmt::{Display, Formatter, Write};
use std::{error, fmt, io};
use thiserror::Error;

/// What is wrong with bytes that encode no value: the first error, from left to right.
#[derive(Clone, Copy, Debug, PartialEq, Eq)]
pub enum Cause {
    /// The input ends inside a part.
    UnexpectedEnd,
    /// No type of value has this code.
    UnknownTypeCode(u8),
    /// No extension has this code.
    UnknownExtCode(u8),
    /// The code of a floating-point number, which this library doesn't read.
    FloatCode,
    /// A number of variable length that is 2^64 or more, or has more than ten bytes.
    BadNumber,
    /// A truth value that is neither 0 nor 1.
    BadBool,
    /// The bytes of a text are no UTF-8.
    NotUtf8,
    /// An object whose number of keys and values is odd.
    OddObject,
    /// A date whose nanoseconds don't fit 64 bits.
    DateRange,
    /// A legacy object that isn't JSON.
    LegacyJson,
    /// A legacy object that has a number which isn't a whole 64-bit number.
    LegacyFloat,
    /// More than 2^64 - 1 bytes were taken of one source.
    TooLong,
}

impl Cause {
    // What is wrong, up to the code that it is reported with, if any.
    fn words(&self) -> &'static str {
        match self {
            Cause::UnexpectedEnd => "the bytes end inside a value",
            Cause::UnknownTypeCode(_) => "no type of value has the code",
            Cause::UnknownExtCode(_) => "no extension has the code",
            Cause::FloatCode => "floating-point numbers are not read",
            Cause::BadNumber => "a number has more than ten bytes or is 2^64 or more",
            Cause::BadBool => "a truth value is neither 0 nor 1",
            Cause::NotUtf8 => "a text is not UTF-8",
            Cause::OddObject => "an object has an odd number of keys and values",
            Cause::DateRange => "a date does not fit 64 bits of nanoseconds",
            Cause::LegacyJson => "a legacy object is not JSON",
            Cause::LegacyFloat => "a legacy object has a number that is not a whole 64-bit number",
            Cause::TooLong => "more than 2^64 - 1 bytes were taken",
        }
    }

    // The code that shows what is wrong.
    fn code(&self) -> Option<u8> {
        match *self {
            Cause::UnknownTypeCode(code) | Cause::UnknownExtCode(code) => Some(code),
            _ => None,
        }
    }
}

impl Display for Cause {
    fn fmt<W: Write>(&self, f: &mut Formatter<W>) -> fmt::Result {
        f.write_str(self.words())?;
        match self.code() {
            Some(code) => write!(f, " {code}"),
            None => Ok(()),
        }
    }
}

impl error::Error for Cause {}

/// Why a value could not be read from a source.
#[derive(Debug, PartialEq, Drop, Error)]
pub enum ReadError {
    /// The bytes of the source encode no value. The cause is the first error in them, from left to right.
    #[error("{0}")]
    Corrupted(Cause),
    /// A read of the source failed, with this kind of error.
    #[error("the source failed: {0}")]
    Io(io::ErrorKind),
    /// Memory was refused.
    #[error("memory was refused")]
    Memory,
}

impl From<AllocError> for ReadError {
    ghost from_gives = { λ _ error. error ≡ Memory };

    fn from(_error: AllocError) -> ReadError {
        ReadError::Memory
    }
}

impl<T: Drop> From<AllocFailed<T>> for ReadError {
    ghost from_gives = { λ _ error. error ≡ Memory };

    fn from(_error: AllocFailed<T>) -> ReadError {
        ReadError::Memory
    }
}

/// A write to a sink failed, with this kind of error. (Not in tantivy, which returns `io::Error`.) As an error type it goes through `?` into
/// `anyhow::Error`, which a bare `io::ErrorKind` doesn't.
#[derive(Clone, Copy, Debug, PartialEq, Eq, Drop, Error)]
#[error("the sink failed: {0}")]
pub struct WriteError(pub io::ErrorKind);

impl From<io::ErrorKind> for WriteError {
    ghost use Rattle.std.specs.Prelude.{◌≡◌};

    ghost from_gives = { λ kind error. error.0 ≡ kind };

    fn from(kind: io::ErrorKind) -> WriteError {
        WriteError(kind)
    }
}

/// The first `most` characters of a text, or all where it has no more: what an error keeps of a text that it refuses. (Not in tantivy.)
pub fn text_start(alloc: Global, text: &str, most: u8) -> Result<String, AllocError>
    ensures { IfOk result (λ start. string_bytes start ≡ take_chars most text.now) }
{
    let most = most as usize;
    format!(in alloc; "{text:.most$}")
}
