//! Texts that are rewritten byte by byte, where a backslash keeps the character after it.

ghost use Rattle.std.specs.Prelude.{◌≡◌, ◌<◌, ◌+◌, ◌∷◌, ◌++◌, [], length, OnErr, OnOk, MatchOption};
ghost use Rattle.std.specs.String.{string_bytes, string_capacity, string_len};
ghost use Rattle.tv_base.specs.Escapes.{rewritten};
ghost use Rattle.tv_base.specs.Facet.{printed, printed_or_slash};
ghost use Rattle.tv_base.specs.Rewriting.{stands_for};
ghost use Rattle.tv_base.specs.Sink.{AppendsPrefix};

use std::alloc::AllocError;

// Which bytes of a text are replaced, and by what.
#[derive(Clone, Copy)]
pub(crate) enum Rule {
    // The text that names a facet, into its encoded text.
    Facet,
    // A path into JSON objects, into its segments with U+0001 between them; where dots are expanded, for escaped dots too.
    Path { expand_dots: bool },
    // A segment of such a path, with U+0001 for its dots where they are expanded.
    Segment { expand_dots: bool },
}

// What stands for a byte of a text, where that isn't the byte itself.
fn replacement(rule: Rule, is_unescaped: bool, byte: u8) -> Option<&'static str>
    ensures { MatchOption result (stands_for rule is_unescaped byte ≡ byte ∷ [])
        (λ text. (text.now ≡ stands_for rule is_unescaped byte) × (byte < 128)) }
{
    match (rule, byte) {
        (Rule::Facet | Rule::Path { .. }, b'\\') if is_unescaped => Some(""),
        (Rule::Facet, b'/') if is_unescaped => Some("\0"),
        (Rule::Path { expand_dots }, b'.') if is_unescaped || expand_dots => Some("\u{1}"),
        (Rule::Segment { expand_dots: true }, b'.') => Some("\u{1}"),
        _ => None,
    }
}

// Writes the rewritten text, which is never longer than the text, after what is there. Errors: memory was refused, which comes only
// where there is no room for as many bytes as the text has. Then nothing is written.
pub(crate) fn rewrite(rule: Rule, text: &str, out: &mut String) -> Result<(), AllocError>
    ensures written { OnOk result
        (string_bytes out.new ≡ string_bytes out.old ++ rewritten (stands_for rule) text.now) }
    ensures unchanged { OnErr result (string_bytes out.new ≡ string_bytes out.old) }
    ensures no_room { OnErr result (string_capacity out.old < string_len out.old + length text.now) }
{
    out.reserve(text.len())?;
    let bytes = text.as_bytes();
    let mut start = 0;
    let mut is_unescaped = true;
    for place in 0..bytes.len() {
        let other = replacement(rule, is_unescaped, bytes[place]);
        is_unescaped = !(bytes[place] == b'\\' && is_unescaped);
        if let Some(other) = other {
            out.push_str(&text[start..place])?;
            out.push_str(other)?;
            start = place + 1;
        }
    }
    out.push_str(&text[start..])
}

// What is printed for a byte of an encoded facet, where that isn't the byte itself.
pub(crate) fn printed_text(byte: u8) -> Option<&'static str>
    ensures { MatchOption result (printed_or_slash byte ≡ byte ∷ [])
        (λ text. (text.now ≡ printed_or_slash byte) × (byte < 128)) }
{
    match byte {
        0 => Some("/"),
        b'/' => Some("\\/"),
        b'\\' => Some("\\\\"),
        _ => None,
    }
}

// Writes the text that names the facet with an encoded text, after what is there. Errors: memory was refused, and then a beginning of
// it may be written.
pub(crate) fn push_printed(encoded: &str, out: &mut String) -> Result<(), AllocError>
    ensures ok { OnOk result (string_bytes out.new ≡ string_bytes out.old ++ printed encoded.now) }
    ensures err { OnErr result
        (AppendsPrefix (string_bytes out.old) (string_bytes out.new) (printed encoded.now)) }
{
    let bytes = encoded.as_bytes();
    out.push_str("/")?;
    let mut start = 0;
    for place in 0..bytes.len() {
        if let Some(other) = printed_text(bytes[place]) {
            out.push_str(&encoded[start..place])?;
            out.push_str(other)?;
            start = place + 1;
        }
    }
    out.push_str(&encoded[start..])
}
