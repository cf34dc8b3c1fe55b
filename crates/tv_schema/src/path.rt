//! The fields that paths name: a name, a dot and a rest, as `title.first`. A backslash takes the character after it, so that
//! a name may have dots.

ghost use Rattle.std.specs.Prelude.{◌≡◌, ◌<◌, length, IfSome};
ghost use Rattle.std.specs.Option.{option_map};
ghost use Rattle.tv_base.specs.Escapes.{without_escapes};
ghost use Rattle.tv_schema.specs.Path.{field_of_prefix, parted_at, find};
ghost use Rattle.tv_schema.specs.Schema.{field_named};

use crate::table::FieldTable;
use tv_base::json_path::{is_unescaped_at, unescapes_to};
use tv_base::laws::texts_without_backslashes_have_no_escapes;

// The field that the path names, and the rest of the path.
pub(crate) fn find<'a>(table: &FieldTable, path: &'a str) -> Option<(u32, &'a str)>
    ensures found { option_map (λ found. (found.0, found.1.now)) result ≡ find table.now path.now }
    ensures within { IfSome result (λ found. found.0 < length table.now) }
{
    if let Some(field) = table.field_named(path) {
        return Some((field, ""));
    }
    // after these places stands no dot whose prefix names a field
    let places = path.len().min(table.longest_prefix().saturating_add(1));
    for place in (0..places).rev() {
        if let Some(found) = parted_at(table, path, place) {
            return Some(found);
        }
    }
    None
}

// The field that the prefix before the place names, and the text after the place, where an unescaped dot stands there.
fn parted_at<'a>(table: &FieldTable, path: &'a str, place: usize) -> Option<(u32, &'a str)>
    requires { place < length path.now }
    ensures found { option_map (λ found. (found.0, found.1.now)) result
        ≡ parted_at table.now path.now place }
    ensures within { IfSome result (λ found. found.0 < length table.now) }
{
    let bytes = path.as_bytes();
    if bytes[place] == b'.' && is_unescaped_at(bytes, place) {
        let field = field_of_prefix(table, &path[..place])?;
        Some((field, &path[place + 1..]))
    } else {
        None
    }
}

// The field whose name is the prefix, or else the prefix without its escapes.
fn field_of_prefix(table: &FieldTable, prefix: &str) -> Option<u32>
    ensures number { result ≡ field_of_prefix table.now prefix.now }
    ensures within { IfSome result (λ number. number < length table.now) }
{
    match table.field_named(prefix) {
        Some(field) => Some(field),
        None if prefix.as_bytes().contains(&b'\\') => field_unescaped(table, prefix),
        None => {
            texts_without_backslashes_have_no_escapes();
            None
        }
    }
}

// The field whose name is the prefix without its escapes. It compares the prefix with each name, so that it takes no memory.
fn field_unescaped(table: &FieldTable, prefix: &str) -> Option<u32>
    ensures number { result ≡ field_named table.now (without_escapes prefix.now) }
    ensures within { IfSome result (λ number. number < length table.now) }
{
    for (number, entry) in table.entries().iter().enumerate() {
        if unescapes_to(prefix, entry.name()) {
            return Some(number as u32);
        }
    }
    None
}
