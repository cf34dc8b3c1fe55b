//! Why a JSON value is no value of a field.

use serde_json::Value;
use std::error::Error;
use std::fmt;
use std::fmt::InlineText;
use tv_value::json::has_float;

/// What a text isn't, or why it is none.
#[derive(Clone, Copy, Debug, PartialEq, Eq, Drop)]
pub enum ParseCause {
    /// No IP address.
    Ip,
    /// No facet: it doesn't begin with `/`.
    Facet,
    /// A date whose nanoseconds since 1970 don't fit 64 bits.
    DateOutOfRange,
}

impl ParseCause {
    // What is said of a text that is refused for this.
    fn words(self) -> &'static str {
        match self {
            ParseCause::Ip => "is no IP address",
            ParseCause::Facet => "is no facet, which begins with a slash",
            ParseCause::DateOutOfRange => "is out of the range of dates",
        }
    }
}

/// Why a JSON value is no value of a field. Its text has at most 40 characters of the value.
#[derive(Debug, PartialEq, Drop)]
pub enum ValueParsingError {
    /// A number doesn't fit the field's type.
    OverflowError {
        /// What is wanted.
        expected: &'static str,
        /// The value that was refused.
        json: Value,
    },
    /// The value is of another kind.
    TypeError {
        /// What is wanted.
        expected: &'static str,
        /// The value that was refused.
        json: Value,
    },
    /// The text can't be read.
    ParseError {
        /// What it isn't.
        cause: ParseCause,
        /// The value that was refused.
        json: Value,
    },
    /// The text isn't the standard base64 of any bytes.
    InvalidBase64 {
        /// The text.
        base64: String,
    },
    /// A number isn't whole, or doesn't fit 64 bits.
    FloatNumber,
    /// Memory was refused.
    Memory,
}

// The kind of a JSON value, in words.
fn kind_of(json: &Value) -> &'static str {
    match json {
        Value::Null => "the value",
        Value::Bool(_) => "the truth value",
        Value::Number(_) => "the number",
        Value::String(_) => "the string",
        Value::Array(_) => "the array",
        Value::Object(_) => "the object",
    }
}

// The length of the longest 40 characters in UTF-8.
const LONGEST: usize = 160;

// The first 40 characters of the JSON text of a value.
#[derive(Drop)]
struct Start<'a>(&'a Value);

impl fmt::Display for Start<'_> {
    fn fmt<W: fmt::Write>(&self, f: &mut fmt::Formatter<W>) -> fmt::Result {
        let text = InlineText::<LONGEST>::of(self.0);
        write!(f, "{:.40}", text.as_str())
    }
}

// The first 40 characters of a text, which `Debug` would print whole.
#[derive(Drop)]
struct TextStart<'a>(&'a str);

impl fmt::Display for TextStart<'_> {
    fn fmt<W: fmt::Write>(&self, f: &mut fmt::Formatter<W>) -> fmt::Result {
        write!(f, "{:.40}", self.0)
    }
}

/// What is said of a float, or of an object in which one stands, with at most 40 characters of it: `12.5 is not a whole number of 64 bits`.
/// (Not in tantivy.)
#[derive(Drop)]
pub struct NotWhole<'a>(pub &'a Value);

impl fmt::Display for NotWhole<'_> {
    fn fmt<W: fmt::Write>(&self, f: &mut fmt::Formatter<W>) -> fmt::Result {
        let has = match self.0 {
            Value::Number(_) => "",
            _ => " has a number that",
        };
        write!(f, "{}{has} is not a whole number of 64 bits", Start(self.0))
    }
}

/// `-5 is out of range, u64 is expected`, `12.5 is not a whole number of 64 bits`, `the string "abc" is given, where a u64 or a u64 as string is
/// expected`, `"1.2.3" is no IP address`, `a number is not a whole number of 64 bits`.
impl fmt::Display for ValueParsingError {
    fn fmt<W: fmt::Write>(&self, f: &mut fmt::Formatter<W>) -> fmt::Result {
        match self {
            ValueParsingError::OverflowError { json, .. } if has_float(json) => {
                write!(f, "{}", NotWhole(json))
            }
            ValueParsingError::OverflowError { expected, json } => {
                write!(f, "{} is out of range, {expected} is expected", Start(json))
            }
            ValueParsingError::TypeError { expected, json } => {
                let start = Start(json);
                write!(
                    f,
                    "{} {start} is given, where {expected} is expected",
                    kind_of(json)
                )
            }
            ValueParsingError::ParseError { cause, json } => {
                write!(f, "{} {}", Start(json), cause.words())
            }
            ValueParsingError::InvalidBase64 { base64 } => {
                let text = InlineText::<LONGEST>::of(TextStart(base64.as_str()));
                write!(f, "{:?} is not in base64", text.as_str())
            }
            ValueParsingError::FloatNumber => {
                f.write_str("a number is not a whole number of 64 bits")
            }
            ValueParsingError::Memory => f.write_str("memory was refused"),
        }
    }
}

impl Error for ValueParsingError {}
