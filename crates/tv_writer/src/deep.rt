//! Values of any depth: the lists that are open stand on a stack in memory, so that no value exhausts the machine's stack.

ghost use Rattle.std.specs.Bool.{MatchBool};
ghost use Rattle.std.specs.Prelude.{Ok, IfErr, IfOk};
ghost use Rattle.tv_format.specs.Short.{short, IsValue};
ghost use Rattle.tv_format.specs.WriteVersion.{written_version};
ghost use Rattle.tv_value.specs.Children.{children_left};
ghost use Rattle.tv_writer.specs.Children.{AreValues, short_children};
ghost use Rattle.tv_writer.specs.Error as store;
ghost use Rattle.tv_writer.specs.Error.{IsIoOrMemory};

use crate::encoding::has_head;
use crate::serializers::SerializeError;
use crate::value_writer::{child_count, write_child_key, write_head};
use std::alloc::{AllocError, Global};
use tv_base::ByteSink;
use tv_format::WriteVersion;
use tv_value::children::Children;
use tv_value::nested::{Nested, lend};
use tv_value::value::Value;

// Whether each child that is left of a list has an encoding. The lists around the one that is gone through stand on the stack, the
// innermost last. The only error is that memory was refused.
fn are_encoded<N: Nested>(alloc: Global, first: Children<N>) -> Result<bool, AllocError>
    ensures { IfOk result (λ all. MatchBool all
        (AreValues (children_left N.array_rest N.object_rest first))
        (¬ AreValues (children_left N.array_rest N.object_rest first))) }
{
    let mut around = Vec::new(alloc);
    let mut list = first;
    'children: loop {
        let Some((_, child)) = list.next() else {
            let Some(outer) = around.pop() else {
                return Ok(true);
            };
            list = outer;
            continue 'children;
        };
        if !has_head(child.as_nested()) {
            return Ok(false);
        }
        match child.as_nested().into_children() {
            Ok(inner) => {
                around.push(list)?;
                list = inner;
            }
            Err(_) => continue 'children,
        }
    }
}

/// Whether a value has an encoding, as `has_encoding` says, however deep it nests: the lists that are open stand in memory of this
/// allocator.
///
/// The only error is that memory was refused. (Not in tantivy.)
pub fn has_encoding_deep<'a, V: Value<'a>>(alloc: Global, value: &V) -> Result<bool, AllocError>
    ensures { IfOk result (λ is. MatchBool is (IsValue (V.tree value.now))
        (¬ IsValue (V.tree value.now))) }
{
    if !has_head(lend(value)) {
        return Ok(false);
    }
    match lend(value).into_children() {
        Ok(children) => are_encoded(alloc, children),
        Err(_) => Ok(true),
    }
}

/// Writes the children that are left of a list, in order, however deep they nest: each after its key, if it has one. The lists that are
/// open stand in memory of this allocator, and the children of each that is met are counted on a walk of their own.
///
/// Errors: `Io` where a write failed, and `Memory` where memory was refused, which it is only where a child is a list. The sink then
/// holds what it held before, and a beginning of what was to be written. (Not in tantivy.)
#[inline(never)]
pub fn write_children_deep<K: ByteSink, N: Nested>(
    sink: &mut K,
    alloc: Global,
    version: WriteVersion,
    first: Children<N>,
) -> Result<(), SerializeError>
    requires { AreValues (children_left N.array_rest N.object_rest first) }
    ensures writes { store.WritesStore K.ByteSink sink.old sink.new result
        (Ok (short_children (written_version version)
        (children_left N.array_rest N.object_rest first))) }
    ensures errors { IfErr result IsIoOrMemory }
{
    let mut around = Vec::new(alloc);
    let mut list = first;
    'children: loop {
        let Some((key, child)) = list.next() else {
            let Some(outer) = around.pop() else {
                return Ok(());
            };
            list = outer;
            continue 'children;
        };
        write_child_key(sink, version, key)?;
        let count = child_count(child.as_nested());
        match write_head(sink, child.as_nested(), count, version)? {
            None => continue 'children,
            Some(inner) => {
                around.push(list)?;
                list = inner;
            }
        }
    }
}

/// Writes a value of any kind and of any depth: its code, and what it holds. The lists that are open in it stand in memory of this
/// allocator.
///
/// Errors: `Io` where a write failed, and `Memory` where memory was refused, which it is only where the value is a list with a list in it.
/// The sink then holds what it held before, and a beginning of the value. (Not in tantivy.)
pub fn write_value_deep<'a, K: ByteSink, V: Value<'a>>(
    sink: &mut K,
    alloc: Global,
    version: WriteVersion,
    value: &V,
) -> Result<(), SerializeError>
    requires { IsValue (V.tree value.now) }
    ensures writes { store.WritesStore K.ByteSink sink.old sink.new result
        (Ok (short (written_version version) (V.tree value.now))) }
    ensures errors { IfErr result IsIoOrMemory }
{
    let count = child_count(lend(value));
    match write_head(sink, lend(value), count, version)? {
        None => Ok(()),
        Some(children) => write_children_deep(sink, alloc, version, children),
    }
}
