//! Values under names, as texts of JSON.

ghost use Rattle.std.specs.Prelude.{◌≡◌, ◌++◌, ◌∷◌, [], OnErr, OnOk, string_bytes, map};
ghost use Rattle.json.specs.Token as Token;
ghost use Rattle.serde_json.specs.Data.{object};
ghost use Rattle.serde_json.specs.Written.{compact_text};
ghost use Rattle.tv_value.specs.JsonOf.{json_of};
ghost use Rattle.tv_json.specs.Named.{list_json, named_json, named_trees};
ghost use Rattle.tv_json.specs.Rising.{data_tokens, rest_of_object};

use crate::compact::write_lent;
use crate::write::{JsonWriter, begin_list};
use std::alloc::{AllocError, Global};
use std::convert::AsStr;
use std::mem::replace;
use tv_value::{Field, Value};

// Writes a name and the array of the values.
fn write_list<'a, V: Value<'a>>(
    json: &mut JsonWriter,
    name: &str,
    pairs: &[(Field, V)],
) -> Result<(), AllocError>
    ensures ok { OnOk result
        (json.new.out.tokens ≡ json.old.out.tokens ++ Token.key name.now
        ∷ data_tokens (list_json (map (λ pair. V.tree pair.1) pairs.now))) }
    ensures before { json.new.out.before ≡ json.old.out.before }
{
    begin_list(&mut json.out, name)?;
    for (_, value) in pairs {
        write_lent(json, value)?;
    }
    json.out.end_array()
}

// Writes names and the arrays of their values, and the end of the object in which they stand.
fn write_lists<'a, V: Value<'a>>(
    json: &mut JsonWriter,
    named: &[(&str, &[(Field, V)])],
) -> Result<(), AllocError>
    ensures ok { OnOk result
        (json.new.out.tokens
        ≡ json.old.out.tokens
        ++ rest_of_object (named_json (map (named_trees V.tree) named.now))) }
    ensures before { json.new.out.before ≡ json.old.out.before }
{
    for (name, pairs) in named {
        write_list(json, name, pairs)?;
    }
    json.out.end_object()
}

// Writes names and the arrays of their values, as an object.
fn write_named<'a, V: Value<'a>>(
    json: &mut JsonWriter,
    named: &[(&str, &[(Field, V)])],
) -> Result<(), AllocError>
    ensures ok { OnOk result
        (json.new.out.tokens
        ≡ json.old.out.tokens
        ++ data_tokens (object (named_json (map (named_trees V.tree) named.now)))) }
    ensures before { json.new.out.before ≡ json.old.out.before }
{
    json.out.begin_object()?;
    write_lists(json, named)
}

/// Adds the JSON of an object to a text, without spaces: for each name, in the order in which they stand, the array of the values that
/// stand under it, beside whatever fields. (Not in tantivy.) The only error is that memory was refused, and then the text is as it was.
pub fn push_named_json<'a, V: Value<'a>>(
    alloc: Global,
    text: &mut String,
    named: &[(&str, &[(Field, V)])],
) -> Result<(), AllocError>
    ensures ok { OnOk result
        (string_bytes text.new
        ≡ string_bytes text.old
        ++ compact_text (object (named_json (map (named_trees V.tree) named.now)))) }
    ensures err { OnErr result (string_bytes text.new ≡ string_bytes text.old) }
{
    let len = text.as_str().len();
    let bytes = replace(text, String::new(alloc)).into_bytes();
    let mut json = JsonWriter::new(alloc, bytes);
    match write_named(&mut json, named) {
        Ok(()) => {
            *text = json.into_text();
            Ok(())
        }
        Err(refused) => {
            *text = json.into_start(len);
            Err(refused)
        }
    }
}
