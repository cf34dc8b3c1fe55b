//! The number of a field.

ghost use Rattle.std.specs.Prelude.{◌≡◌, ◌++◌, ℕ, Some, codes, decimal};
ghost use Rattle.tv_base.specs.Number.{Fixed, four_bytes};
ghost use Rattle.tv_base.specs.ErrorInPart.{ErrorInBytes};
ghost use Rattle.tv_base.specs.ReadsAs.{ReadsLean};

use std::alloc::Global;
use std::fmt;
use tv_base::{BinarySerializable, ByteSink, ByteSource, ReadError, WriteError};

/// A field of a schema, by its number. Any 32-bit number names one; which of them a schema has is the schema's matter.
#[derive(Clone, Copy, PartialEq, Eq, PartialOrd, Ord, Hash)]
pub struct Field {
    id: u32,
}

impl Field {
    /// The field of this number.
    pub const fn from_field_id(field_id: u32) -> Field
        ensures { result.id ≡ field_id }
    {
        Field { id: field_id }
    }

    /// The field's number.
    pub const fn field_id(self) -> u32
        ensures { result ≡ self.id }
    {
        self.id
    }
}

/// Prints `Field(` and the number, and `)`.
impl fmt::Debug for Field {
    ghost debug_output = { λ field. Some (codes "Field(" ++ decimal field.id ++ codes ")") };

    fn fmt<W: fmt::Write>(&self, f: &mut fmt::Formatter<W>) -> fmt::Result {
        write!(f, "Field({})", self.id)
    }
}

/// The number in four bytes, the lowest first. Each 32-bit number is read: a schema says which fields it has.
impl BinarySerializable for Field {
    ghost Seen = { ℕ };

    ghost view = { λ field. field.id };

    ghost shortest = { four_bytes };

    ghost encodes = { Fixed 4 };

    ghost has_error = { ErrorInBytes 4 };

    fn serialize<K: ByteSink>(&self, sink: &mut K) -> Result<(), WriteError> {
        self.id.serialize(sink)
    }

    fn deserialize<S: ByteSource>(alloc: Global, source: &mut S) -> Result<Field, ReadError>
        ensures reads { ReadsLean S.ByteSource source.old source.new
            (λ field. field.id) result (Fixed 4) (ErrorInBytes 4) }
    {
        match u32::deserialize(alloc, source) {
            Ok(id) => Ok(Field { id }),
            Err(error) => Err(error),
        }
    }
}
