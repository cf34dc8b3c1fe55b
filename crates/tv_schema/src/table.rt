//! The entries of a schema, and their numbers by name.

ghost use Rattle.std.specs.Prelude.{◌≡◌, ◌<◌, ◌+◌, ◌^◌, ◌++◌, ◌∷◌, [], length, None, Some, IfOk, ℕ, List, IfSome, OnOk, OnErr, slice_get, vec_len};
ghost use Rattle.tv_field.specs.Entry.{IsValidName};
ghost use Rattle.tv_schema.specs.Path.{field_of_prefix};
ghost use Rattle.tv_schema.specs.Schema.{IsSchema, field_named};

use std::alloc::{AllocError, Global};
use std::collections::HashMap;
use std::marker::Model;
use tv_field::FieldEntry;

// The entries, and the number of each name.
#[derive(Debug)]
pub(crate) struct FieldTable {
    entries: Vec<FieldEntry>,
    numbers: HashMap<String, u32>,
    // The length of the longest name.
    longest: usize,
}

// By hand, so that a table is dropped by one call.
impl Drop for FieldTable {
    fn drop(self) {
        let FieldTable {
            entries: _,
            numbers: _,
            longest: _,
        } = self;
    }
}

impl Model for FieldTable {
    ghost use Rattle.std.specs.Prelude.{List};
    ghost use Rattle.tv_field.specs.Entry.{Entry};

    ghost Value = { List Entry };

    ghost use Rattle.tv_schema.specs.Table.{IsTable};

    ghost view = { λ table. table.entries.items };

    ghost invariant = { λ table. IsTable table.entries.items table.numbers table.longest };
}

impl FieldTable {
    pub(crate) fn new(alloc: Global) -> FieldTable
        ensures { result ≡ [] }
    {
        FieldTable {
            entries: Vec::new(alloc),
            numbers: HashMap::new(alloc),
            longest: 0,
        }
    }

    pub(crate) fn len(&self) -> usize
        ensures len { result ≡ length self.now }
        ensures schema { IsSchema self.now }
    {
        self.entries.len()
    }

    pub(crate) fn entries(&self) -> &[FieldEntry]
        ensures entries { result.now ≡ self.now }
        ensures schema { IsSchema self.now }
    {
        self.entries.as_slice()
    }

    // The allocator from which its memory is taken.
    pub(crate) fn allocator(&self) -> Global {
        *self.entries.allocator()
    }

    pub(crate) fn entry(&self, number: usize) -> &FieldEntry
        requires { number < length self.now }
        ensures { slice_get self.now number ≡ Some result.now }
    {
        &self.entries[number]
    }

    pub(crate) fn field_named(&self, name: &str) -> Option<u32>
        ensures number { result ≡ field_named self.now name.now }
        ensures within { IfSome result (λ number. number < length self.now) }
    {
        self.numbers.get(name).copied()
    }

    // A longer prefix of a path names no field, since its escapes are half of it at most.
    pub(crate) fn longest_prefix(&self) -> usize
        ensures { (prefix : List ℕ) → result < length prefix
            → field_of_prefix self.now prefix ≡ None }
    {
        2 * self.longest + 1
    }

    // Adds an entry, or leaves the table as it is where there is no memory.
    pub(crate) fn push(&mut self, entry: FieldEntry) -> Result<u32, AllocError>
        requires valid { IsValidName entry.name }
        requires is_new { field_named self.old entry.name ≡ None }
        requires in_32_bits { length self.old + 1 < 2 ^ 32 }
        ensures ok { OnOk result (self.new ≡ self.old ++ entry ∷ []) }
        ensures number { IfOk result (λ number. number ≡ length self.old) }
        ensures err { OnErr result (self.new ≡ self.old) }
    {
        let number = self.entries.len() as u32;
        let longest = self.longest.max(entry.name().len());
        let name = String::from_str(self.allocator(), entry.name())?;
        self.entries.push(entry)?;
        if self.numbers.insert(name, number).is_err() {
            let _ = self.entries.pop();
            return Err(AllocError);
        }
        self.longest = longest;
        Ok(number)
    }
}
