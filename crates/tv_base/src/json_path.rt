//! Paths into JSON objects: the keys on the way, as segments; and escapes in texts. A backslash takes the character after it, whatever that
//! is. So a byte is unescaped where the run of backslashes right before it has an even length.

ghost use Rattle.std.specs.Prelude.{◌≡◌, ◌++◌, map, IfOk, OnErr, OnOk, ◌≤◌, length, bytes_eq};
ghost use Rattle.std.specs.String.{string_bytes};
ghost use Rattle.tv_base.specs.JsonPath.{split, joined, joined_path};
ghost use Rattle.tv_base.specs.Escapes.{is_unescaped, without_escapes};

use crate::text_rules::{Rule, rewrite};
use std::alloc::{AllocError, Global};

/// The segments of a path: the texts between its unescaped dots, of which `n` make `n + 1` segments. A backslash goes and
/// keeps the character after it; one at the end just goes. (tantivy's rule.) Errors: memory was refused.
pub fn split_json_path(alloc: Global, path: &str) -> Result<Vec<String>, AllocError>
    ensures { IfOk result (λ segments. map string_bytes segments.items ≡ split path.now) }
{
    let mut segments = Vec::new(alloc);
    let mut segment = String::new(alloc);
    let mut start = 0;
    let mut is_unescaped = true;
    let bytes = path.as_bytes();
    for place in 0..bytes.len() {
        match bytes[place] {
            b'\\' if is_unescaped => {
                segment.push_str(&path[start..place])?;
                start = place + 1;
                is_unescaped = false;
            }
            b'.' if is_unescaped => {
                segment.push_str(&path[start..place])?;
                segments.push(segment)?;
                segment = String::new(alloc);
                start = place + 1;
            }
            _ => is_unescaped = true,
        }
    }
    segment.push_str(&path[start..])?;
    segments.push(segment)?;
    Ok(segments)
}

/// The segments with U+0001 between each two of them; where dots are expanded, with U+0001 for each dot of a segment too.
/// (tantivy's rule.) Errors: memory was refused.
pub fn join_json_path(
    alloc: Global,
    segments: &[String],
    expand_dots: bool,
) -> Result<String, AllocError>
    ensures { IfOk result
        (λ text. string_bytes text ≡ joined expand_dots (map string_bytes segments.now)) }
{
    let rule = Rule::Segment { expand_dots };
    let mut text = String::new(alloc);
    let Some((first, others)) = segments.split_first() else {
        return Ok(text);
    };
    rewrite(rule, first.as_str(), &mut text)?;
    for segment in others {
        text.push('\u{1}')?;
        rewrite(rule, segment.as_str(), &mut text)?;
    }
    Ok(text)
}

/// The segments of a path joined again, as the terms of its values have them: what `join_json_path` makes of what
/// `split_json_path` gives, without a list of segments. Errors: memory was refused.
pub fn joined_json_path(alloc: Global, path: &str, expand_dots: bool) -> Result<String, AllocError>
    ensures { IfOk result (λ text. string_bytes text ≡ joined_path expand_dots path.now) }
{
    let mut text = String::new(alloc);
    push_joined_json_path(path, expand_dots, &mut text)?;
    Ok(text)
}

/// Adds what `joined_json_path` makes of a path to a text. (Not in tantivy.) Errors: memory was refused. Then the text is as it was.
pub fn push_joined_json_path(
    path: &str,
    expand_dots: bool,
    text: &mut String,
) -> Result<(), AllocError>
    ensures added { OnOk result
        (string_bytes text.new ≡ string_bytes text.old ++ joined_path expand_dots path.now) }
    ensures unchanged { OnErr result (string_bytes text.new ≡ string_bytes text.old) }
{
    rewrite(Rule::Path { expand_dots }, path, text)
}

/// Whether no backslash takes what stands at the place. The place is at most the length; at the length this is asked of what
/// would follow. It reads the run of backslashes right before the place and no more.
pub fn is_unescaped_at(bytes: &[u8], place: usize) -> bool
    requires { place ≤ length bytes.now }
    ensures { result ≡ is_unescaped bytes.now place }
{
    let mut start = place;
    while start > 0 && bytes[start - 1] == b'\\' {
        start -= 1;
    }
    (place - start) % 2 == 0
}

/// Whether the prefix without its escapes is the name. An escape is a backslash that no backslash before it takes. It takes no
/// memory and stops at the first byte that differs.
pub fn unescapes_to(prefix: &str, name: &str) -> bool
    ensures { result ≡ bytes_eq name.now (without_escapes prefix.now) }
{
    let mut rest = name.as_bytes();
    let mut is_escape = false;
    for byte in prefix.as_bytes() {
        is_escape = *byte == b'\\' && !is_escape;
        if !is_escape {
            match rest.split_first() {
                Some((first, others)) if *first == *byte => rest = others,
                _ => return false,
            }
        }
    }
    rest.is_empty()
}
