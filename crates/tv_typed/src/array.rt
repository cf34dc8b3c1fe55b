//! Arrays in a store.

ghost use Rattle.std.specs.Prelude.{◌≡◌, false};
ghost use Rattle.tv_reader.specs.declared.value_type.ValueType.TheVariants as types;
ghost use Rattle.tv_typed.specs.Items.{ReadsAllElements, ReadsElement, ReadsList};
ghost use Rattle.tv_typed.specs.Typed.{RefusesItems, items_reader};

use crate::de::ValueDeserialize;
use crate::store_reader::StoreReader;
use std::alloc::Global;
use tv_base::ByteSource;
use tv_reader::{DeserializeError, ValueType};

// Reads this many values. Nothing is reserved from their number. That memory was refused isn't marked yet.
pub(crate) fn read_elements<T: ValueDeserialize, S: ByteSource>(
    alloc: Global,
    reader: &mut StoreReader<S>,
    announced: u64,
) -> Result<Vec<T>, DeserializeError>
    requires { reader.old.has_failed ≡ false }
    ensures { ReadsList S.ByteSource T.ValueDeserialize announced reader.old reader.new result }
{
    let mut items = Vec::new(alloc);
    for _ in 0..announced {
        let item = reader.read::<T>(alloc)?;
        items.push(item)?;
    }
    Ok(items)
}

/// The values of an array, which are read one after the other.
#[derive(Drop)]
pub struct BinaryArrayDeserializer<'de, S: ByteSource> {
    pub(crate) announced: u64,
    pub(crate) position: u64,
    pub(crate) reader: &'de mut StoreReader<S>,
}

impl<'de, S: ByteSource> BinaryArrayDeserializer<'de, S> {
    /// How many values the array announces, however many were read.
    pub fn size_hint(&self) -> usize
        ensures { result ≡ self.now.announced }
    {
        self.announced as usize
    }

    /// Refuses the array: reads nothing, and returns `UnsupportedType(Array)`. (Not in tantivy.)
    pub fn unsupported<T>(self) -> Result<T, DeserializeError>
        requires { self.reader.now.has_failed ≡ false }
        ensures { RefusesItems S.ByteSource types.Array self.entry.reader.now
            (items_reader self.exit) result }
    {
        Err(DeserializeError::UnsupportedType(ValueType::Array))
    }

    /// Reads all values that are left, in order. Nothing is reserved from their number. (Not in tantivy.)
    ///
    /// Errors: those of `next_element`, and `Memory` where the list can't grow. Each is marked in the reader.
    pub fn read_all<V: ValueDeserialize>(self, alloc: Global) -> Result<Vec<V>, DeserializeError>
        requires { self.reader.now.has_failed ≡ false }
        ensures { ReadsAllElements S.ByteSource V.ValueDeserialize self.entry self.exit result }
    {
        let BinaryArrayDeserializer {
            announced,
            position,
            reader,
        } = self;
        let rest = announced.saturating_sub(position);
        let answer = read_elements(alloc, reader, rest);
        reader.has_failed = answer.is_err();
        answer
    }

    /// Reads the next value. None where as many were read as are announced.
    ///
    /// Errors: those of `StoreReader::read`. Each is marked in the reader, and the place in the array stays.
    pub fn next_element<V: ValueDeserialize>(
        &mut self,
        alloc: Global,
    ) -> Result<Option<V>, DeserializeError>
        ensures same_reader { self.new.reader.ghost_name ≡ self.old.reader.ghost_name }
        ensures reads { ReadsElement S.ByteSource V.ValueDeserialize self.old self.new result }
    {
        self.reader.go_on()?;
        if self.position >= self.announced {
            return Ok(None);
        }
        let value = self.reader.read::<V>(alloc)?;
        self.position += 1;
        Ok(Some(value))
    }
}
