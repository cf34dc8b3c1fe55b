//! Why a text of a query has no terms, or no range of them.

ghost use Rattle.std.specs.Prelude.{◌≡◌, ◌≢◌};
ghost use Rattle.tv_field.specs.declared.json_value.JsonRefusal.TheVariants.{Memory as NoMemory};
ghost use Rattle.tv_indexing.specs.IndexedField.{IsUnknownPath};
ghost use Rattle.tv_indexing.specs.TextTerms.{IsWrongRange, IsWrongText};
ghost use Rattle.tv_indexing.specs.declared.text_terms_error.TextTermsError.TheVariants.{Memory};

use std::alloc::{AllocError, Global};
use std::fmt;
use tv_base::cause::text_start;
use tv_field::json_value::JsonRefusal;
use tv_options::Type;
use tv_value::Field;

/// Why a text of a query has no terms, or no range of them. (Not in tantivy.)
#[derive(Debug, PartialEq, Drop)]
pub enum TextTermsError {
    /// The path names no field, or something below a field that isn't of JSON objects. These are its first 40 characters.
    UnknownPath(String),
    /// The field isn't indexed, so it has no terms.
    NotIndexed(Field),
    /// The path names a field of JSON objects, and nothing below it.
    PathEnds(Field),
    /// The path into JSON objects has U+0000, which ends the path in a term.
    NulInPath(Field),
    /// The text is no value of the field's type, which is given, and why. The last are its first 40 characters.
    WrongText(Field, Type, JsonRefusal, String),
    /// The text bounds no range: it is neither `*` nor two bounds with ` TO ` between them, in brackets. These are its first 40 characters.
    WrongRange(String),
    /// The bounds of the range run backwards.
    Backwards(Field),
    /// The field is of JSON objects, whose values have terms of several types, so no one range has those between two bounds, but several:
    /// `ranges_of_text`.
    NoRange(Field),
    /// Memory was refused.
    Memory,
}

/// As `the field isn't indexed`, or `the path "a" names no field`.
impl fmt::Display for TextTermsError {
    fn fmt<W: fmt::Write>(&self, f: &mut fmt::Formatter<W>) -> fmt::Result {
        let text = match self {
            TextTermsError::UnknownPath(path) => {
                return write!(f, "the path {path:?} names no field");
            }
            TextTermsError::NotIndexed(_) => "the field isn't indexed",
            TextTermsError::PathEnds(_) => "the path ends at a field of JSON objects",
            TextTermsError::NulInPath(_) => "the path has U+0000",
            TextTermsError::WrongText(_, wanted, _, text) => {
                return write!(
                    f,
                    "the text {text:?} is no value of its field's type, {wanted:?}"
                );
            }
            TextTermsError::WrongRange(text) => return write!(f, "the text {text:?} is no range"),
            TextTermsError::Backwards(_) => "the bounds of the range run backwards",
            TextTermsError::NoRange(_) => "a field of JSON objects has no single range",
            TextTermsError::Memory => "memory was refused",
        };
        f.write_str(text)
    }
}

impl std::error::Error for TextTermsError {}

impl From<AllocError> for TextTermsError {
    ghost use Rattle.tv_indexing.specs.declared.text_terms_error.TextTermsError.TheVariants.{Memory};

    ghost from_gives = { λ _ error. error ≡ Memory };

    fn from(_: AllocError) -> TextTermsError {
        TextTermsError::Memory
    }
}

// The error for a path that names no field.
pub(crate) fn unknown_path(alloc: Global, path: &str) -> TextTermsError
    ensures { result ≢ Memory → IsUnknownPath path.now result }
{
    match text_start(alloc, path, 40) {
        Ok(start) => TextTermsError::UnknownPath(start),
        Err(_) => TextTermsError::Memory,
    }
}

// The error for a text that is refused as a value of a field, and not because memory was refused.
pub(crate) fn wrong_text(
    alloc: Global,
    field: Field,
    value_type: Type,
    refusal: JsonRefusal,
    text: &str,
) -> TextTermsError
    requires { refusal ≢ NoMemory }
    ensures { result ≢ Memory → IsWrongText field value_type refusal text.now result }
{
    match text_start(alloc, text, 40) {
        Ok(start) => TextTermsError::WrongText(field, value_type, refusal, start),
        Err(_) => TextTermsError::Memory,
    }
}

// The error for a text that is no range.
pub(crate) fn wrong_range(alloc: Global, text: &str) -> TextTermsError
    ensures { result ≢ Memory → IsWrongRange text.now result }
{
    match text_start(alloc, text, 40) {
        Ok(start) => TextTermsError::WrongRange(start),
        Err(_) => TextTermsError::Memory,
    }
}
