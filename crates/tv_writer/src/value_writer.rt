//! Writing values of any kind, each in its shortest encoding, in either version of the store that is written.
//!
//! Each function hands on the error of a failed write. The sink then holds what it held before, and a beginning of what was
//! to be written.

ghost use Rattle.std.specs.Prelude.{◌≡◌, ◌<◌, ◌^◌, ◌∷◌, IfOk, MatchOption, option_map};
ghost use Rattle.tv_base.specs.Number.{vnum};
ghost use Rattle.tv_base.specs.Writing.{Writes};
ghost use Rattle.tv_format.specs.Short.{short, short_key, IsValue};
ghost use Rattle.tv_format.specs.Version.{entry_total};
ghost use Rattle.tv_format.specs.WriteVersion.{written_version};
ghost use Rattle.tv_value.specs.Children.{IsListOf, children_left};
ghost use Rattle.tv_value.specs.Lent.{nested_tree};
ghost use Rattle.tv_writer.specs.Children.{AreValues, IsSingle, child_count, short_children, short_head, short_key_of};

use crate::leaf_writer::{write_coded_count, write_coded_text, write_leaf};
use std::convert::AsStr;
use tv_base::write::write_text;
use tv_base::{ByteSink, WriteError};
use tv_format::WriteVersion;
use tv_format::type_codes::{ARRAY_CODE, OBJECT_CODE, TEXT_CODE};
use tv_value::children::Children;
use tv_value::nested::{Nested, NestedValue, lend};
use tv_value::value::Value;

/// Writes a key of an object: its length and its text, in version 2 after the code of a text. It takes no memory.
///
/// The only error is the kind with which a write failed. The sink then holds what it held before, and a beginning of the key.
/// (Not in tantivy.)
#[inline(always)]
pub fn write_key<K: ByteSink>(
    sink: &mut K,
    version: WriteVersion,
    key: &str,
) -> Result<(), WriteError>
    ensures { Writes K.ByteSink sink.old sink.new result
        (short_key (written_version version) key.now) }
{
    match version {
        WriteVersion::V2 => write_coded_text(sink, TEXT_CODE, key),
        WriteVersion::V3 => write_text(sink, key),
    }
}

/// Writes the code of an object, and the number that an object of this many entries announces in the version. It takes no memory.
///
/// The only error is the kind with which a write failed. The sink then holds what it held before, and a beginning of these bytes.
/// (Not in tantivy.)
#[inline]
pub fn write_object_head<K: ByteSink>(
    sink: &mut K,
    version: WriteVersion,
    entries: u64,
) -> Result<(), WriteError>
    requires { entries < 2 ^ 63 }
    ensures { Writes K.ByteSink sink.old sink.new result
        (13 ∷ vnum (entry_total (written_version version) entries)) }
{
    match version.object_total(entries) {
        Some(total) => write_coded_count(sink, OBJECT_CODE, total),
        None => unreachable!(),
    }
}

// How many children a value has.
#[tactic(auto, using(crate::proofs::WriterSteps::list_counted, crate::proofs::WriterSteps::list_fits))]
pub(crate) fn child_count<N: Nested>(value: NestedValue<'_, N>) -> u64
    requires { IsValue (nested_tree N.array_rest N.object_rest value) }
    ensures { result ≡ child_count (nested_tree N.array_rest N.object_rest value.entry) }
{
    let mut count = 0;
    if let Ok(children) = value.into_children() {
        for _child in children {
            count += 1;
        }
    }
    count
}

/// Writes the key of a child, if it has one, as `write_key` does. A child of an array has none, and then nothing is written. It takes no
/// memory of its own.
///
/// The only error is the kind with which a write failed. The sink then holds what it held before, and a beginning of the key.
/// (Not in tantivy.)
#[inline(always)]
pub fn write_child_key<K: ByteSink, T: AsStr + Drop>(
    sink: &mut K,
    version: WriteVersion,
    key: Option<T>,
) -> Result<(), WriteError>
    ensures { Writes K.ByteSink sink.old sink.new result
        (short_key_of (written_version version) (option_map T.text key)) }
{
    match key {
        None => Ok(()),
        Some(key) => write_key(sink, version, key.as_str()),
    }
}

// A value of this many children, of a list its head alone: its code, and the number that it announces. Gives the children of the list.
#[inline(always)]
#[tactic(auto, using(tv_value::proofs::ListChildren::list_of_items, tv_value::proofs::ListChildren::list_of_members))]
pub(crate) fn write_head<K: ByteSink, N: Nested>(
    sink: &mut K,
    value: NestedValue<'_, N>,
    count: u64,
    version: WriteVersion,
) -> Result<Option<Children<N>>, WriteError>
    requires valid { IsValue (nested_tree N.array_rest N.object_rest value) }
    requires counted { count ≡ child_count (nested_tree N.array_rest N.object_rest value) }
    ensures writes { Writes K.ByteSink sink.old sink.new result
        (short_head (written_version version) (nested_tree N.array_rest N.object_rest value.entry)) }
    ensures inner { IfOk result (λ met. MatchOption met
        (IsSingle (nested_tree N.array_rest N.object_rest value.entry))
        (λ children. IsListOf (children_left N.array_rest N.object_rest children)
        (nested_tree N.array_rest N.object_rest value.entry))) }
{
    match value {
        NestedValue::Leaf(leaf) => {
            write_leaf(sink, &leaf)?;
            Ok(None)
        }
        NestedValue::Array(items) => {
            write_coded_count(sink, ARRAY_CODE, count)?;
            Ok(Some(Children::Array(items)))
        }
        NestedValue::Object(members) => {
            write_object_head(sink, version, count)?;
            Ok(Some(Children::Object(members)))
        }
    }
}

// A value of this many children: its code, and what it holds.
#[cycle(values)]
#[tactic(auto, using(crate::proofs::WriterSteps::list_parts, tv_value::proofs::ListChildren::list_size))]
fn write_nested<K: ByteSink, N: Nested>(
    sink: &mut K,
    value: NestedValue<'_, N>,
    count: u64,
    version: WriteVersion,
) -> Result<(), WriteError>
    requires valid { IsValue (nested_tree N.array_rest N.object_rest value) }
    requires counted { count ≡ child_count (nested_tree N.array_rest N.object_rest value) }
    ensures { Writes K.ByteSink sink.old sink.new result
        (short (written_version version) (nested_tree N.array_rest N.object_rest value.entry)) }
{
    match write_head(sink, value, count, version)? {
        None => Ok(()),
        Some(children) => write_children(sink, children, version),
    }
}

// The children that are left of a list, in order, each after its key, if it has one. Those of a list among them are counted first, on a
// walk of their own.
#[cycle(values)]
fn write_children<K: ByteSink, N: Nested>(
    sink: &mut K,
    children: Children<N>,
    version: WriteVersion,
) -> Result<(), WriteError>
    requires { AreValues (children_left N.array_rest N.object_rest children) }
    ensures { Writes K.ByteSink sink.old sink.new result
        (short_children (written_version version)
        (children_left N.array_rest N.object_rest children)) }
{
    for (key, item) in children {
        write_child_key(sink, version, key)?;
        let count = child_count(item.as_nested());
        write_nested(sink, item.as_nested(), count, version)?;
    }
    Ok(())
}

/// Writes a value of any kind: its code, and what it holds. It takes no memory of its own.
///
/// The only error is the kind with which a write failed. The sink then holds what it held before, and a beginning of the value.
/// (Not in tantivy.)
pub fn write_value<'a, K: ByteSink, V: Value<'a>>(
    sink: &mut K,
    value: &V,
    version: WriteVersion,
) -> Result<(), WriteError>
    requires { IsValue (V.tree value.now) }
    ensures { Writes K.ByteSink sink.old sink.new result
        (short (written_version version) (V.tree value.now)) }
{
    let count = child_count(lend(value));
    write_nested(sink, lend(value), count, version)
}
