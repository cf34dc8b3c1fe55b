//! Reading of JSON values that borrow their texts: what a token begins, and then the whole value.

ghost use Rattle.std.specs.Prelude.{◌≡◌, ◌<◌, length, Some, IfSome, OnSome};
ghost use Rattle.json.specs.Json.{value, items, members};
ghost use Rattle.serde_json.specs.Data.{no_members};
ghost use Rattle.serde_json.specs.Read.{of_json, of_items, of_members, converted, read as read_text};
ghost use Rattle.serde_json.specs.Written.{has_float, items_have_float, members_have_float};
ghost use Rattle.tv_json.specs.BorrowedData.{data_of, items_data, members_data};
ghost use Rattle.tv_json.specs.Notes.{Notes};
ghost use Rattle.tv_json.specs.Begun.{BeginsJson, begun_floats};

use crate::members::{FoundMembers, Members};
use crate::number::read_number;
use crate::value::BorrowedJson;
use json::{Reader, Scratch, Token};
use std::alloc::Global;

// What a token begins.
#[derive(Drop)]
pub(crate) enum Begun<'a> {
    // A value without children, which it is.
    Leaf(BorrowedJson<'a>),
    // An array, whose items follow.
    Array,
    // An object, whose members follow.
    Object,
}

// What the next token begins, and a note where it is a float. `None` where it begins no value, and where it is a number too large for a float.
// It isn't inlined, so that a level of a nested value takes little stack.
#[inline(never)]
pub(crate) fn begin<'a>(reader: &mut Reader<'a>, met_float: &mut bool) -> Option<Begun<'a>>
    ensures begins { IfSome result (λ begun. BeginsJson begun reader.old reader.new) }
    ensures shorter { OnSome result (length reader.new < length reader.old) }
    ensures floats { IfSome result
        (λ begun. Notes met_float.old met_float.new (begun_floats begun)) }
{
    match reader.next()? {
        Token::String(text) => Some(Begun::Leaf(BorrowedJson::String(text))),
        Token::Number(text) => Some(Begun::Leaf(read_number(text, met_float)?)),
        Token::Bool(truth) => Some(Begun::Leaf(BorrowedJson::Bool(truth))),
        Token::Null => Some(Begun::Leaf(BorrowedJson::Null)),
        Token::BeginArray => Some(Begun::Array),
        Token::BeginObject => Some(Begun::Object),
        _ => None,
    }
}

// How deep arrays and objects nest at most, as in the JSON library's values.
const MAX_DEPTH: usize = 127;

/// Reads the JSON value that the text is, without copying its texts. (Not in tantivy.) The scratch is used for texts with escapes.
///
/// `None` where the text is no JSON, and where a number in it is too large for a float, arrays and objects nest deeper than 127, or memory is
/// refused: what isn't read here may still be JSON.
pub fn read_borrowed<'a>(
    alloc: Global,
    text: &'a str,
    scratch: &'a mut Scratch,
) -> Option<BorrowedJson<'a>>
    ensures { IfSome result (λ json. read_text text.now ≡ Some (data_of json)) }
{
    read_noting_floats(alloc, text, scratch, &mut false)
}

/// Reads the JSON value that the text is as `read_borrowed` does, and sets `met_float` where a float is met. (Not in tantivy.) So where it
/// is still `false`, the value has no float.
pub fn read_noting_floats<'a>(
    alloc: Global,
    text: &'a str,
    scratch: &'a mut Scratch,
    met_float: &mut bool,
) -> Option<BorrowedJson<'a>>
    ensures value { IfSome result (λ json. read_text text.now ≡ Some (data_of json)) }
    ensures floats { IfSome result
        (λ json. Notes met_float.old met_float.new (has_float (data_of json))) }
{
    let Ok(mut reader) = Reader::new(text, scratch) else {
        return None;
    };
    let json = read(alloc, &mut reader, MAX_DEPTH, met_float)?;
    match reader.next() {
        Some(_) => None,
        None => Some(json),
    }
}

// The next value of the reader, and a note where a float is met.
#[cycle(read)]
#[inline(always)]
fn read<'a>(
    alloc: Global,
    reader: &mut Reader<'a>,
    depth: usize,
    met_float: &mut bool,
) -> Option<BorrowedJson<'a>>
    ensures found { IfSome result
        (λ json. converted of_json (value depth reader.old) ≡ Some (data_of json, reader.new)) }
    ensures shorter { OnSome result (length reader.new < length reader.old) }
    ensures floats { IfSome result
        (λ json. Notes met_float.old met_float.new (has_float (data_of json))) }
{
    match begin(reader, met_float)? {
        Begun::Leaf(json) => Some(json),
        Begun::Array if depth > 0 => Some(BorrowedJson::Array(read_items(
            alloc,
            reader,
            depth - 1,
            met_float,
        )?)),
        Begun::Object if depth > 0 => Some(BorrowedJson::Object(read_members(
            alloc,
            reader,
            depth - 1,
            met_float,
        )?)),
        _ => None,
    }
}

// The items up to the end of an array.
#[cycle(read)]
#[inline(never)]
fn read_items<'a>(
    alloc: Global,
    reader: &mut Reader<'a>,
    depth: usize,
    met_float: &mut bool,
) -> Option<Vec<BorrowedJson<'a>>>
    ensures found { IfSome result
        (λ v. converted of_items (items (value depth) (length reader.old) reader.old)
        ≡ Some (items_data v.items, reader.new)) }
    ensures shorter { OnSome result (length reader.new < length reader.old) }
    ensures floats { IfSome result
        (λ v. Notes met_float.old met_float.new (items_have_float (items_data v.items))) }
{
    let mut found = Vec::new(alloc);
    'items: while !reader.take_end_array() {
        let item = read(alloc, reader, depth, met_float)?;
        found.push(item).ok()?;
    }
    Some(found)
}

// The members up to the end of an object.
#[cycle(read)]
#[inline(never)]
fn read_members<'a>(
    alloc: Global,
    reader: &mut Reader<'a>,
    depth: usize,
    met_float: &mut bool,
) -> Option<Members<'a>>
    ensures found { IfSome result
        (λ v. converted (λ ms. of_members ms no_members)
        (members (value depth) (length reader.old) reader.old)
        ≡ Some (members_data v.items, reader.new)) }
    ensures shorter { OnSome result (length reader.new < length reader.old) }
    ensures floats { IfSome result
        (λ v. Notes met_float.old met_float.new (members_have_float (members_data v.items))) }
{
    let mut found = FoundMembers::begin(alloc, depth == MAX_DEPTH - 1)?;
    'members: while let Some(key) = reader.next_key().ok()? {
        let member = read(alloc, reader, depth, met_float)?;
        found.put(alloc, key, member)?;
    }
    found.into_list(alloc)
}
