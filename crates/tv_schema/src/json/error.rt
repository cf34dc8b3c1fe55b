//! Why a JSON value describes no schema.

ghost use Rattle.std.specs.Prelude.{◌≡◌};
ghost use Rattle.tv_schema.specs.SchemaJsonReading.{at_entry, plain_error, refused_at};
ghost use Rattle.tv_schema.specs.declared.json.error.EntryFault.TheVariants.{Key, Memory};
ghost use Rattle.tv_schema.specs.declared.json.error.SchemaJsonError.TheVariants.{Other};
ghost use Rattle.tv_field.specs.declared.field_entry.SchemaError.TheVariants as schemas;

use crate::json::key::SchemaKey;
use std::alloc::AllocError;
use std::error::Error;
use std::fmt;
use std::fmt::{Display, Formatter, Write};
use tv_field::SchemaError;

/// Why a JSON value describes no schema, with the key that is at fault. (Not in tantivy.)
#[derive(Clone, Copy, Debug, PartialEq, Eq)]
pub enum SchemaJsonError {
    /// In the entry of this place, from 0, a key's value is not as it has to be, or is missing: what is `BadJson` with this entry
    /// where the key isn't named.
    BadKey {
        /// The place of the entry.
        entry: usize,
        /// The first such key, in the order in which the keys are read.
        key: SchemaKey,
    },
    /// The entry of this place, from 0, is refused as a field: `InvalidName`, `DuplicateName` or `TooManyFields`.
    Refused {
        /// The place of the entry.
        entry: usize,
        /// Why it is refused, as `SchemaBuilder::add_field` has it.
        error: SchemaError,
    },
    /// Anything else: `BadJson` is then a whole that is no array, or an entry that is no object.
    Other(SchemaError),
}

impl Display for SchemaJsonError {
    fn fmt<W: Write>(&self, f: &mut Formatter<W>) -> fmt::Result {
        match self {
            SchemaJsonError::BadKey { entry, key } => write!(f, "at entry {entry}: {key}"),
            SchemaJsonError::Refused { entry, error } => write!(f, "at entry {entry}: {error}"),
            SchemaJsonError::Other(error) => write!(f, "{error}"),
        }
    }
}

impl Error for SchemaJsonError {}

impl From<SchemaError> for SchemaJsonError {
    ghost from_gives = { λ error told. told ≡ Other error };

    fn from(error: SchemaError) -> SchemaJsonError {
        SchemaJsonError::Other(error)
    }
}

impl From<AllocError> for SchemaJsonError {
    ghost from_gives = { λ _ told. told ≡ Other schemas.Memory };

    fn from(_error: AllocError) -> SchemaJsonError {
        SchemaJsonError::Other(SchemaError::Memory)
    }
}

// Why a schema doesn't take the entry of this place.
pub(super) fn refused_at(entry: usize, error: SchemaError) -> SchemaJsonError
    ensures { result ≡ refused_at entry error }
{
    match error {
        SchemaError::Memory => SchemaJsonError::Other(SchemaError::Memory),
        error => SchemaJsonError::Refused { entry, error },
    }
}

/// The same, without the key.
impl From<SchemaJsonError> for SchemaError {
    ghost from_gives = { λ error told. told ≡ plain_error error };

    fn from(error: SchemaJsonError) -> SchemaError {
        match error {
            SchemaJsonError::BadKey { entry, .. } => SchemaError::BadJson { entry: Some(entry) },
            SchemaJsonError::Refused { error, .. } | SchemaJsonError::Other(error) => error,
        }
    }
}

// Why an entry isn't read, whatever its place.
#[derive(Clone, Copy, Debug, PartialEq, Eq)]
pub(crate) enum EntryFault {
    // It is no object.
    NoObject,
    // This key is the first at fault.
    Key(SchemaKey),
    // Its type is `f64`.
    FloatField,
    // Memory was refused.
    Memory,
}

impl EntryFault {
    // The error, at the entry of this place.
    pub(super) fn at_entry(self, place: usize) -> SchemaJsonError
        ensures { result ≡ at_entry place self }
    {
        match self {
            EntryFault::NoObject => {
                SchemaJsonError::Other(SchemaError::BadJson { entry: Some(place) })
            }
            EntryFault::Key(key) => SchemaJsonError::BadKey { entry: place, key },
            EntryFault::FloatField => {
                SchemaJsonError::Other(SchemaError::FloatField { entry: place })
            }
            EntryFault::Memory => SchemaJsonError::Other(SchemaError::Memory),
        }
    }
}

impl From<SchemaKey> for EntryFault {
    ghost from_gives = { λ key fault. fault ≡ Key key };

    fn from(key: SchemaKey) -> EntryFault {
        EntryFault::Key(key)
    }
}

impl From<AllocError> for EntryFault {
    ghost from_gives = { λ _ fault. fault ≡ Memory };

    fn from(_error: AllocError) -> EntryFault {
        EntryFault::Memory
    }
}
