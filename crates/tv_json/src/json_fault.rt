//! Where and why a text is no JSON object.

use crate::json_expected::JsonExpected;
use std::fmt;

/// Why a text is no JSON object. (Not in tantivy.)
#[derive(Clone, Copy, Debug, PartialEq, Eq, Drop)]
pub enum JsonFaultKind {
    /// The text ends where this was expected.
    EndsEarly(JsonExpected),
    /// What stands there can't come there. This was expected.
    Unexpected(JsonExpected),
    /// The list that begins there lies within 127 others.
    TooDeep,
    /// The text is JSON by its syntax, and it isn't read: a number in it is too large for a float.
    NumberTooLarge,
    /// The text is JSON, and no object.
    NoObject,
}

/// Where and why a text is no JSON object. (Not in tantivy.)
#[derive(Clone, Copy, Debug, PartialEq, Eq, Drop)]
pub struct JsonFault {
    /// How many bytes of the text come before the place where it is refused. Where it goes wrong, that is the first byte that can't come after
    /// those before it, or the bracket of the list that nests too deep. Where a number is too large, it is the first byte of the first such
    /// number. It is the text's length where the text ends early, and 0 where the text is no object.
    pub offset: usize,
    /// Why it is refused there.
    pub kind: JsonFaultKind,
}

/// As `it ends early, at byte 7: expected a colon`, `it goes wrong at byte 7: expected a value`, `the list at byte 127 nests too deep`,
/// `the number at byte 5 is too large`, or `it is JSON, but no object`.
impl fmt::Display for JsonFault {
    fn fmt<W: fmt::Write>(&self, f: &mut fmt::Formatter<W>) -> fmt::Result {
        match self.kind {
            JsonFaultKind::EndsEarly(expected) => {
                write!(
                    f,
                    "it ends early, at byte {}: expected {expected}",
                    self.offset
                )
            }
            JsonFaultKind::Unexpected(expected) => {
                write!(
                    f,
                    "it goes wrong at byte {}: expected {expected}",
                    self.offset
                )
            }
            JsonFaultKind::TooDeep => {
                write!(f, "the list at byte {} nests too deep", self.offset)
            }
            JsonFaultKind::NumberTooLarge => {
                write!(f, "the number at byte {} is too large", self.offset)
            }
            JsonFaultKind::NoObject => f.write_str("it is JSON, but no object"),
        }
    }
}
