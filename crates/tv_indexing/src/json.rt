//! Terms of values of fields of JSON objects, however deep these nest.

ghost use Rattle.std.specs.Prelude.{◌≡◌, ◌≢◌, ◌++◌, ◌∷◌, Err, IfErr, IfOk, length, option_map, OnErr, OnOk, [], false, take, true};
ghost use Rattle.tv_heap.specs.Value.{held_children, tree_of};
ghost use Rattle.tv_indexing.specs.DocumentTerms.{has_zero, json_terms};
ghost use Rattle.tv_format.specs.Tree.{Tree};
ghost use Rattle.tv_indexing.specs.JsonWalk.{IsBegun, child_terms, children_terms, separated, terms_at};
ghost use Rattle.tv_indexing.specs.Visits.{TakesTerms, TakesAll, TakesSome};
ghost use Rattle.tv_indexing.specs.declared.document.TermValuesError.TheVariants.{Memory, NulInPath};

use crate::document::{TermValuesError, TermVisitor};
use crate::json_leaf::visit_json_leaf;
use crate::term_buffer::TermBuffer;
use std::alloc::AllocError;
use tv_heap::value::CompactDocValue;
use tv_value::Field;
use tv_value::children::Children;
use tv_value::nested::Nested;

// A field of JSON objects, and whether dots part the keys of these.
#[derive(Clone, Copy)]
pub(crate) struct JsonField {
    pub(crate) field: Field,
    pub(crate) expand_dots: bool,
}

// A list that is gone through.
#[derive(Drop)]
pub(crate) struct OpenList<'a> {
    children: Children<CompactDocValue<'a>>,
    // How many bytes the keys have above the one in which it stands.
    path_len: usize,
}

// Appends a key to the keys above its object. Each key stands after U+0001, the outermost too. Errors: `NulInPath` where the key has U+0000,
// and `Memory`.
fn push_key(buffer: &mut TermBuffer, at: JsonField, key: &str) -> Result<(), TermValuesError>
    ensures made { OnOk result (buffer.new ≡ buffer.old ++ separated at.expand_dots key.now) }
    ensures plain { OnOk result (has_zero key.now ≡ false) }
    ensures refused { IfErr result
        (λ e. e ≢ Memory → (has_zero key.now ≡ true) × (e ≡ NulInPath at.field)) }
{
    if key.as_bytes().contains(&0) {
        return Err(TermValuesError::NulInPath(at.field));
    }
    buffer.push_key(key, at.expand_dots)?;
    Ok(())
}

// Goes below the key of a value, if it has one.
fn enter(buffer: &mut TermBuffer, at: JsonField, key: Option<&str>) -> Result<(), TermValuesError>
    ensures made { OnOk result
        ((tree : Tree) → child_terms at.field at.expand_dots buffer.old
        (option_map (λ k. k.now) key.entry) tree
        ≡ terms_at at.field at.expand_dots buffer.new tree) }
    ensures begins { OnOk result (take (length buffer.old) buffer.new ≡ buffer.old) }
    ensures refused { IfErr result
        (λ e. e ≢ Memory → (tree : Tree) → child_terms at.field at.expand_dots buffer.old
        (option_map (λ k. k.now) key.entry) tree ≡ Err e) }
{
    match key {
        None => Ok(()),
        Some(key) => push_key(buffer, at, key),
    }
}

// Goes below the key of a value, if it has one. Gives the visitor the term of a value without children, if it has one, or returns the
// children of a list.
fn begin<'a, V: TermVisitor>(
    visitor: &mut V,
    at: JsonField,
    buffer: &mut TermBuffer,
    key: Option<&str>,
    value: CompactDocValue<'a>,
) -> Result<Option<Children<CompactDocValue<'a>>>, TermValuesError>
    ensures begun { IfOk result (IsBegun V.has_taken visitor.old visitor.new
        at.field at.expand_dots buffer.old buffer.new
        (option_map (λ k. k.now) key.entry) (tree_of value.entry)) }
    ensures begins { OnOk result (take (length buffer.old) buffer.new ≡ buffer.old) }
    ensures refused { IfErr result
        (λ e. e ≢ Memory → child_terms at.field at.expand_dots buffer.old
        (option_map (λ k. k.now) key.entry) (tree_of value.entry) ≡ Err e) }
    ensures untaken { OnErr result (TakesTerms V.has_taken visitor.old visitor.new []) }
{
    enter(buffer, at, key)?;
    match value.as_nested().into_children() {
        Ok(children) => Ok(Some(children)),
        Err(leaf) => {
            visit_json_leaf(visitor, buffer, at.field, leaf)?;
            Ok(None)
        }
    }
}

// Puts the list that is gone through after those in which it stands.
fn leave_open<'a>(around: &mut Vec<OpenList<'a>>, list: OpenList<'a>) -> Result<(), AllocError>
    ensures { OnOk result (around.new.items ≡ around.old.items ++ list.entry ∷ []) }
{
    around.push(list)?;
    Ok(())
}

// Gives the visitor the terms of the children of the outermost list. The lists around the one that is gone through stand on a stack in
// memory, so that no value exhausts the machine's stack. After an error a beginning of the terms may be taken.
fn visit_children<'a, V: TermVisitor>(
    visitor: &mut V,
    at: JsonField,
    buffer: &mut TermBuffer,
    around: &mut Vec<OpenList<'a>>,
    outermost: Children<CompactDocValue<'a>>,
) -> Result<(), TermValuesError>
    ensures made { OnOk result (TakesAll V.has_taken visitor.old visitor.new
        (children_terms at.field at.expand_dots buffer.old (held_children outermost.entry))) }
    ensures refused { IfErr result
        (λ e. e ≢ Memory
        → children_terms at.field at.expand_dots buffer.old (held_children outermost.entry)
        ≡ Err e) }
    ensures kept { OnErr result (TakesSome V.has_taken visitor.old visitor.new) }
{
    around.clear();
    let mut list = OpenList {
        children: outermost,
        path_len: 0,
    };
    'children: loop {
        let Some((key, value)) = list.children.next() else {
            buffer.truncate(list.path_len);
            let Some(outer) = around.pop() else {
                return Ok(());
            };
            list = outer;
            continue 'children;
        };
        let path_len = buffer.len();
        match begin(visitor, at, buffer, key, value)? {
            None => buffer.truncate(path_len),
            Some(children) => {
                leave_open(around, list)?;
                list = OpenList { children, path_len };
            }
        }
    }
}

// Gives the visitor the terms of a value. After an error a beginning of them may be taken.
pub(crate) fn visit_json<'a, V: TermVisitor>(
    visitor: &mut V,
    at: JsonField,
    buffer: &mut TermBuffer,
    around: &mut Vec<OpenList<'a>>,
    value: CompactDocValue<'a>,
) -> Result<(), TermValuesError>
    ensures made { OnOk result (TakesAll V.has_taken visitor.old visitor.new
        (json_terms at.field at.expand_dots [] (tree_of value.entry))) }
    ensures refused { IfErr result
        (λ e. e ≢ Memory → json_terms at.field at.expand_dots [] (tree_of value.entry) ≡ Err e) }
    ensures kept { OnErr result (TakesSome V.has_taken visitor.old visitor.new) }
{
    buffer.clear();
    match begin(visitor, at, buffer, None, value)? {
        None => Ok(()),
        Some(children) => visit_children(visitor, at, buffer, around, children),
    }
}
