//! Writing values as they stand in the heap of a document, in either version of the store that is written.
//!
//! Each function hands on the error of a failed write, and of memory that was refused. The sink then holds what it held before,
//! and a beginning of what was to be written.

ghost use Rattle.std.specs.Prelude.{◌∷◌, Ok, IfErr};
ghost use Rattle.tv_base.specs.Writing.{Writes};
ghost use Rattle.tv_format.specs.Short.{short_elements, short_entries};
ghost use Rattle.tv_format.specs.Tree.{array, object, elements, entries};
ghost use Rattle.tv_format.specs.Version.{Version};
ghost use Rattle.tv_format.specs.WriteVersion.{written_version};
ghost use Rattle.tv_heap.specs.Encoded.{encoded_bytes, HasFewEntries};
ghost use Rattle.tv_store.specs.Nested.{HeldNestsWithin, HoldsNoList};
ghost use Rattle.tv_writer.specs.Error as store;
ghost use Rattle.tv_writer.specs.Error.{IsIo, IsIoOrMemory};
ghost use Rattle.tv_value.specs.Nesting.{NestsWithin};

use std::alloc::Global;
use tv_base::write::write_all;
use tv_base::{ByteSink, WriteError};
use tv_format::WriteVersion;
use tv_format::type_codes::{ARRAY_CODE, BOOL_CODE, EXT_CODE, NULL_CODE, TOK_STR_EXT_CODE};
use tv_heap::value::{CompactDocArrayIter, CompactDocObjectIter, CompactDocValue, Encoded};
use tv_value::children::Children;
use tv_writer::SerializeError;
use tv_writer::deep::write_children_deep;
use tv_writer::leaf_writer::{write_code, write_coded_bool, write_coded_count, write_coded_u64};
use tv_writer::value_writer::{write_key, write_object_head};

// A code, and the bytes after it.
#[inline]
#[tactic(auto, using(tv_writer::proofs::Coded::Coded_then))]
fn write_behind<K: ByteSink>(sink: &mut K, code: u8, content: &[u8]) -> Result<(), WriteError>
    ensures { Writes K.ByteSink sink.old sink.new result (code ∷ content.now) }
{
    write_code(sink, code)?;
    write_all(sink, content)
}

// A text and its tokens, as they are encoded after their two codes.
#[tactic(auto, using(tv_base::proofs::Written::Writes_then, tv_base::proofs::Written::Writes_prefix))]
fn write_encoded_tokens<K: ByteSink>(sink: &mut K, content: &[u8]) -> Result<(), WriteError>
    ensures { Writes K.ByteSink sink.old sink.new result (7 ∷ 0 ∷ content.now) }
{
    write_all(sink, &[EXT_CODE, TOK_STR_EXT_CODE])?;
    write_all(sink, content)
}

// A value without children.
#[inline(always)]
fn write_single<K: ByteSink>(sink: &mut K, encoded: Encoded<'_>) -> Result<(), WriteError>
    requires { HoldsNoList encoded }
    ensures { (v : Version) → Writes K.ByteSink sink.old sink.new result
        (encoded_bytes v encoded.entry) }
{
    match encoded {
        Encoded::Null => write_code(sink, NULL_CODE),
        Encoded::Bool(truth) => write_coded_bool(sink, BOOL_CODE, truth),
        Encoded::Number(code, number) => write_coded_u64(sink, code, number),
        Encoded::Bytes(code, content) => write_behind(sink, code, content),
        Encoded::Tokenized(content) => write_encoded_tokens(sink, content),
        Encoded::Array(_, _) => unreachable!(),
        Encoded::Object(_, _) => unreachable!(),
    }
}

// Writes what a version of the store has for a value of a document. `levels` is how deep its lists may nest for no memory to be taken.
//
// Errors: `Io` where a write failed, and `Memory` where memory was refused for a value that nests deeper. The sink then holds what it
// held before, and a beginning of the value.
#[inline(always)]
#[cycle(encoded)]
pub(crate) fn write_encoded<K: ByteSink>(
    sink: &mut K,
    alloc: Global,
    version: WriteVersion,
    encoded: Encoded<'_>,
    levels: u32,
) -> Result<(), SerializeError>
    requires { HasFewEntries encoded }
    ensures writes { store.WritesStore K.ByteSink sink.old sink.new result
        (Ok (encoded_bytes (written_version version) encoded.entry)) }
    ensures errors { IfErr result IsIoOrMemory }
    ensures only_io { HeldNestsWithin levels encoded.entry → IfErr result IsIo }
{
    match encoded {
        Encoded::Array(count, items) => {
            write_coded_count(sink, ARRAY_CODE, count)?;
            write_encoded_items(sink, alloc, version, items, levels)
        }
        Encoded::Object(count, members) => {
            write_object_head(sink, version, count)?;
            write_encoded_members(sink, alloc, version, members, levels)
        }
        single => {
            write_single(sink, single)?;
            Ok(())
        }
    }
}

// The values that are left of an array, in order.
#[inline(never)]
#[cycle(encoded)]
fn write_encoded_items<K: ByteSink>(
    sink: &mut K,
    alloc: Global,
    version: WriteVersion,
    items: CompactDocArrayIter<'_>,
    levels: u32,
) -> Result<(), SerializeError>
    ensures writes { store.WritesStore K.ByteSink sink.old sink.new result
        (Ok (short_elements (written_version version) (elements items.entry.held.0))) }
    ensures errors { IfErr result IsIoOrMemory }
    ensures only_io { NestsWithin levels (array (elements items.entry.held.0)) → IfErr result IsIo }
{
    if levels == 0 {
        return write_children_deep(
            sink,
            alloc,
            version,
            Children::<CompactDocValue<'_>>::Array(items),
        );
    }
    for item in items {
        write_encoded(sink, alloc, version, item.encoded(), levels - 1)?;
    }
    Ok(())
}

// The keys and values that are left of an object, in order.
#[inline(never)]
#[cycle(encoded)]
fn write_encoded_members<K: ByteSink>(
    sink: &mut K,
    alloc: Global,
    version: WriteVersion,
    members: CompactDocObjectIter<'_>,
    levels: u32,
) -> Result<(), SerializeError>
    ensures writes { store.WritesStore K.ByteSink sink.old sink.new result
        (Ok (short_entries (written_version version) (entries members.entry.held.0))) }
    ensures errors { IfErr result IsIoOrMemory }
    ensures only_io { NestsWithin levels (object (entries members.entry.held.0)) → IfErr result IsIo }
{
    if levels == 0 {
        return write_children_deep(
            sink,
            alloc,
            version,
            Children::<CompactDocValue<'_>>::Object(members),
        );
    }
    for (key, item) in members {
        write_key(sink, version, key)?;
        write_encoded(sink, alloc, version, item.encoded(), levels - 1)?;
    }
    Ok(())
}
