//! Schemas behind a pointer that C holds.

ghost use Rattle.std.specs.Coded.{coded_option};
ghost use Rattle.std.specs.Option.{option_map};
ghost use Rattle.std.specs.Prelude.{◌≡◌, None, Option, Some, OnErr, OnOk};
ghost use Rattle.tv_blocks.specs.Kept.{keeps};
ghost use Rattle.tv_blocks.specs.contracts.schema_handle.SchemaMemory.{the_row as schema_row};
ghost use Rattle.tv_blocks.specs.declared.schema_handle.SchemaMemory.{SchemaMemory};

use crate::kept::Kept;
use std::alloc::{AllocError, Global};
use std::marker::Model;
use std::mem::replace;
use tv_doc::parse_buffers::ParseBuffers;
use tv_schema::Schema;

/// A schema that stays where it is between two calls, with the memory that reading its documents' JSON needs, or none. A handle of zeros holds
/// none. (Not in tantivy.)
#[repr(C)]
pub struct SchemaHandle {
    at: *mut u8,
    pub ghost memory: { Option SchemaMemory } by { coded_option schema_row.coded },
}

impl Model for SchemaHandle {
    ghost also_owns = { λ handle. keeps schema_row handle.at handle.memory };
}

impl SchemaHandle {
    ghost use Rattle.tv_blocks.specs.Held.{entries_of};

    // The handle of what is kept.
    fn of(kept: Kept<SchemaMemory>) -> SchemaHandle
        ensures { result.memory ≡ kept.value }
    {
        let Kept { at } = kept;
        SchemaHandle { at: at as *mut u8 }
    }

    // What the handle keeps. It is given up.
    fn into_kept(self) -> Kept<SchemaMemory>
        ensures { result.value ≡ self.memory }
    {
        let SchemaHandle { at } = self;
        Kept {
            at: at as *mut SchemaMemory,
        }
    }

    /// A handle that holds no schema.
    pub fn closed() -> SchemaHandle
        ensures { result.memory ≡ None }
    {
        SchemaHandle::of(Kept::none())
    }

    /// The schema that the handle held, with its memory, in its box. The handle is given up.
    pub fn into_box(self, alloc: Global) -> Option<Box<SchemaMemory>>
        ensures { option_map (λ boxed. boxed.value) result ≡ self.memory }
    {
        self.into_kept().into_box(alloc)
    }

    /// Takes the schema out of the handle, which then holds none. Nothing of the schema moves.
    pub fn take(&mut self, alloc: Global) -> Option<Box<SchemaMemory>>
        ensures taken { option_map (λ boxed. boxed.value) result ≡ self.old.memory }
        ensures closed { self.new.memory ≡ None }
    {
        replace(self, SchemaHandle::closed()).into_box(alloc)
    }

    /// Gives the handle this schema, in the place of what it held. Nothing of the schema moves.
    pub fn keep(&mut self, alloc: Global, boxed: Box<SchemaMemory>)
        ensures { self.new.memory ≡ Some boxed.value }
    {
        let _ = replace(self, SchemaHandle::of(Kept::of(boxed))).into_box(alloc);
    }

    /// Gives up what the handle held, so that it holds no schema.
    pub fn close(&mut self, alloc: Global)
        ensures { self.new.memory ≡ None }
    {
        let _ = self.take(alloc);
    }

    /// Gives the handle a schema, in the place of what it held. Where memory is refused, the handle holds no schema.
    pub fn open(&mut self, alloc: Global, schema: Schema) -> Result<(), AllocError>
        ensures ok { OnOk result (entries_of self.new ≡ Some schema) }
        ensures err { OnErr result (self.new.memory ≡ None) }
    {
        self.close(alloc);
        let buffers = ParseBuffers::new(alloc);
        let boxed = Box::new(alloc, SchemaMemory { schema, buffers })?;
        self.keep(alloc, boxed);
        Ok(())
    }
}

/// A schema, and memory that reading its documents' JSON needs, which serves one after the other. (Not in tantivy.)
#[derive(Drop)]
pub struct SchemaMemory {
    /// The schema.
    pub schema: Schema,
    /// The memory.
    pub buffers: ParseBuffers,
}
