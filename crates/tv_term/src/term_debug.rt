//! Terms as `Debug` prints them.

ghost use Rattle.std.specs.Prelude.{◌++◌, Some, codes, slice_index};
ghost use Rattle.std.specs.Fmt.{◌++?◌, DisplaysOnOk};
ghost use Rattle.std.specs.Net.Addr.{ipv6_segments};
ghost use Rattle.std.specs.Net.Text.{ipv6_text};
ghost use Rattle.std.specs.Option.{option_and_then, option_copied};
ghost use Rattle.tv_base.specs.Facet.{debug_printed};
ghost use Rattle.tv_term.specs.Printed.{content_printed, path_printed, printed_or_nothing, term_printed, text_if_utf8, type_printed, typed_printed};
ghost use Rattle.tv_term.specs.Printed.{value_printed};
ghost use Rattle.tv_term.specs.Reading.{json_parts, json_path, type_at, value_behind};

use crate::term::Term;
use crate::value_bytes::ValueBytes;
use std::fmt;
use std::net::Ipv6Addr;
use tv_base::Facet;
use tv_options::Type;

/// Prints the field, the type and the value, as tantivy does: `Term(field=1, type=U64, 12)`, and of a value in a JSON object the path too,
/// with a dot between each two segments: `Term(field=1, type=Json, path=a.b, type=Str, "c")`. Where the bytes after a type's code are
/// no value of the type, nothing stands after the type. Where no type has the code, the code's number stands for the type. The contract says all
/// of this but for how a text is escaped that isn't ASCII, which is as std's `Debug` of texts has it.
impl fmt::Debug for Term {
    ghost debug_output = { λ term. term_printed term };

    fn fmt<W: fmt::Write>(&self, f: &mut fmt::Formatter<W>) -> fmt::Result {
        write!(f, "Term(field={}, ", self.field().field_id())?;
        let value = self.value();
        print_type(value, f)?;
        print_content(value, f)?;
        f.write_str(")")
    }
}

// Prints the type of a value.
fn print_type<W: fmt::Write>(value: ValueBytes<'_>, f: &mut fmt::Formatter<W>) -> fmt::Result
    ensures { let bytes = value.entry.serialized.now in
        DisplaysOnOk W.write_str_gives f.old result
        (Some (type_printed (type_at bytes) (slice_index bytes 0))) f.new }
{
    match value.typ() {
        Some(value_type) => write!(f, "type={}, ", value_type.name()),
        None => write!(f, "type={}", value.code()),
    }
}

// Prints what stands after a type: of a value in a JSON object the path and the value there, else the value.
fn print_content<W: fmt::Write>(value: ValueBytes<'_>, f: &mut fmt::Formatter<W>) -> fmt::Result
    ensures { let bytes = value.entry.serialized.now in
        DisplaysOnOk W.write_str_gives f.old result
        (content_printed (option_and_then text_if_utf8 (json_path bytes)) bytes) f.new }
{
    match value.json_path() {
        Some(path) => print_value_at(path, value, f),
        None => print_value(value, f),
    }
}

// Prints a path with dots between its segments.
fn print_path<W: fmt::Write>(path: &str, f: &mut fmt::Formatter<W>) -> fmt::Result
    ensures { DisplaysOnOk W.write_str_gives f.old result (Some (path_printed path.now)) f.new }
{
    let bytes = path.as_bytes();
    let mut start = 0;
    for place in 0..bytes.len() {
        if bytes[place] == 1 {
            f.write_str(&path[start..place])?;
            f.write_str(".")?;
            start = place + 1;
        }
    }
    f.write_str(&path[start..])
}

// Prints a path into JSON objects, and the value there, if there is one.
fn print_value_at<W: fmt::Write>(
    path: &str,
    whole: ValueBytes<'_>,
    f: &mut fmt::Formatter<W>,
) -> fmt::Result
    ensures { DisplaysOnOk W.write_str_gives f.old result
        (Some (codes "path=" ++ path_printed path.now ++ codes ", ")
        ++? printed_or_nothing typed_printed (value_behind (json_parts whole.entry.serialized.now)))
        f.new }
{
    f.write_str("path=")?;
    print_path(path, f)?;
    f.write_str(", ")?;
    match whole.json_value() {
        Some(value) => print_typed(value, f),
        None => Ok(()),
    }
}

// Prints the type of a value, and the value.
fn print_typed<W: fmt::Write>(value: ValueBytes<'_>, f: &mut fmt::Formatter<W>) -> fmt::Result
    ensures { DisplaysOnOk W.write_str_gives f.old result (typed_printed value.entry.serialized.now) f.new }
{
    print_type(value, f)?;
    print_value(value, f)
}

// Prints a value that isn't a JSON object's.
fn print_value<W: fmt::Write>(value: ValueBytes<'_>, f: &mut fmt::Formatter<W>) -> fmt::Result
    ensures { let bytes = value.entry.serialized.now in
        DisplaysOnOk W.write_str_gives f.old result (value_printed (type_at bytes) bytes) f.new }
{
    match value.typ() {
        Some(Type::Str) => print_found(value.as_str(), f),
        Some(Type::U64) => print_found(value.as_u64(), f),
        Some(Type::I64) => print_found(value.as_i64(), f),
        Some(Type::Bool) => print_found(value.as_bool(), f),
        Some(Type::Date) => print_found(value.as_date(), f),
        Some(Type::Facet) => print_facet(value.text(Type::Facet), f),
        Some(Type::Bytes) => print_found(value.as_bytes(), f),
        Some(Type::IpAddr) => print_address(value.as_ip_addr(), f),
        Some(Type::Json) | None => Ok(()),
    }
}

// Prints what was found, if anything was.
fn print_found<T: fmt::Debug + Drop, W: fmt::Write>(
    found: Option<T>,
    f: &mut fmt::Formatter<W>,
) -> fmt::Result
    ensures { DisplaysOnOk W.write_str_gives f.old result
        (printed_or_nothing T.debug_output found) f.new }
{
    match found {
        Some(value) => write!(f, "{value:?}"),
        None => Ok(()),
    }
}

// Prints an address, if there is one.
fn print_address<W: fmt::Write>(found: Option<Ipv6Addr>, f: &mut fmt::Formatter<W>) -> fmt::Result
    ensures { DisplaysOnOk W.write_str_gives f.old result
        (printed_or_nothing (λ address. Some (ipv6_text (ipv6_segments address))) found) f.new }
{
    match found {
        Some(address) => write!(f, "{address}"),
        None => Ok(()),
    }
}

// Prints the facet of an encoded text, as `Debug` of a facet does.
fn print_facet<W: fmt::Write>(encoded: Option<&str>, f: &mut fmt::Formatter<W>) -> fmt::Result
    ensures { DisplaysOnOk W.write_str_gives f.old result
        (printed_or_nothing (λ text. Some (debug_printed text)) (option_copied encoded.entry))
        f.new }
{
    let Some(encoded) = encoded else {
        return Ok(());
    };
    f.write_str("Facet(")?;
    Facet::format_encoded(encoded, f)?;
    f.write_str(")")
}
