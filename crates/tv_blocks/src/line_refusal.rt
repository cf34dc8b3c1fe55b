//! Why there is no document of a line.

ghost use Rattle.std.specs.Prelude.{◌≡◌, unwrap_or};
ghost use Rattle.tv_blocks.specs.LineRefusals.{IsLenient, expected_number, fault_number, line_byte, line_field, line_number, refusal_of, value_number, value_refusal};
ghost use Rattle.tv_schema.specs.Schema.{field_named};

use std::fmt;
use thiserror::Error;
use tv_doc::{DocParsingError, StrictParsingError};
use tv_field::ValueParsingError;
use tv_json::json_expected::JsonExpected;
use tv_json::json_fault::{JsonFault, JsonFaultKind};
use tv_lines::line_document::LineError;
use tv_schema::Schema;

/// Why a field's type refuses a value of a line. (Not in tantivy.)
#[derive(Clone, Copy, Debug, PartialEq, Eq, Drop)]
pub enum ValueRefusal {
    /// A number doesn't fit the field's type.
    Overflow,
    /// The value is of another kind than the field's.
    WrongType,
    /// The text can't be read as the field's type wants it.
    BadText,
    /// The text isn't the standard base64 of any bytes.
    BadBase64,
    /// The number isn't whole, or doesn't fit 64 bits.
    FloatNumber,
}

/// As `the number doesn't fit`.
impl fmt::Display for ValueRefusal {
    fn fmt<W: fmt::Write>(&self, f: &mut fmt::Formatter<W>) -> fmt::Result {
        f.write_str(match self {
            ValueRefusal::Overflow => "the number doesn't fit",
            ValueRefusal::WrongType => "the value is of another kind",
            ValueRefusal::BadText => "the text can't be read",
            ValueRefusal::BadBase64 => "the text isn't base64",
            ValueRefusal::FloatNumber => "the number isn't whole",
        })
    }
}

impl std::error::Error for ValueRefusal {}

impl ValueRefusal {
    /// Its number, from 2, in the order of the variants.
    pub fn number(self) -> u32
        ensures { result ≡ value_number self }
    {
        match self {
            ValueRefusal::Overflow => 2,
            ValueRefusal::WrongType => 3,
            ValueRefusal::BadText => 4,
            ValueRefusal::BadBase64 => 5,
            ValueRefusal::FloatNumber => 6,
        }
    }
}

/// Why there is no document of a line. (Not in tantivy.)
#[derive(Clone, Copy, Debug, PartialEq, Eq, Drop, Error)]
pub enum LineRefusal {
    /// It is not UTF-8.
    #[error("the line is not UTF-8")]
    NotUtf8,
    /// It is no JSON object: where and why.
    #[error("the line is no JSON object: {0}")]
    InvalidJson(JsonFault),
    /// The type of a field refuses a value.
    #[error("a value of field {field}: {refusal}")]
    BadValue {
        /// The field's number.
        field: u32,
        /// Why its type refuses the value.
        refusal: ValueRefusal,
    },
    /// The values need more room than 4294967295 bytes.
    #[error("the values need more room than 4294967295 bytes")]
    HeapFull,
}

// Why the type of a field refuses a value.
fn value_refusal(error: &ValueParsingError) -> ValueRefusal
    ensures { result ≡ value_refusal error.now }
{
    match error {
        ValueParsingError::OverflowError { .. } => ValueRefusal::Overflow,
        ValueParsingError::TypeError { .. } => ValueRefusal::WrongType,
        ValueParsingError::ParseError { .. } => ValueRefusal::BadText,
        ValueParsingError::InvalidBase64 { .. } => ValueRefusal::BadBase64,
        ValueParsingError::FloatNumber => ValueRefusal::FloatNumber,
        ValueParsingError::Memory => ValueRefusal::WrongType,
    }
}

// The number of the field with this name, and 0 where there is none.
fn field_number(schema: &Schema, name: &str) -> u32
    ensures { result ≡ unwrap_or (field_named schema.now name.now) 0 }
{
    match schema.get_field(name) {
        Ok(field) => field.field_id(),
        Err(_) => 0,
    }
}

// The number of what was expected, from 4, in the order of the variants.
fn expected_number(expected: JsonExpected) -> u32
    ensures { result ≡ expected_number expected }
{
    match expected {
        JsonExpected::Value => 4,
        JsonExpected::ValueOrArrayEnd => 5,
        JsonExpected::Key => 6,
        JsonExpected::KeyOrObjectEnd => 7,
        JsonExpected::Colon => 8,
        JsonExpected::CommaOrArrayEnd => 9,
        JsonExpected::CommaOrObjectEnd => 10,
        JsonExpected::TextEnd => 11,
        JsonExpected::StringCharacter => 12,
        JsonExpected::Escape => 13,
        JsonExpected::HexadecimalDigit => 14,
        JsonExpected::HexadecimalDigitBelowC => 15,
        JsonExpected::LowSurrogate(_) => 16,
        JsonExpected::Digit => 17,
        JsonExpected::DigitOrSign => 18,
        JsonExpected::Word(_) => 19,
    }
}

// The number of what is wrong with a text that is no JSON object.
fn fault_number(kind: JsonFaultKind) -> u32
    ensures { result ≡ fault_number kind }
{
    match kind {
        JsonFaultKind::TooDeep => 1,
        JsonFaultKind::NumberTooLarge => 2,
        JsonFaultKind::NoObject => 3,
        JsonFaultKind::EndsEarly(expected) | JsonFaultKind::Unexpected(expected) => {
            expected_number(expected)
        }
    }
}

impl LineRefusal {
    // What is said of a line that makes no document, where keys may name no field.
    pub(crate) fn of(schema: &Schema, error: &LineError) -> LineRefusal
        requires { IsLenient error.now }
        ensures { result ≡ refusal_of schema.now error.now }
    {
        match error {
            LineError::NotUtf8 => LineRefusal::NotUtf8,
            LineError::NoObject(_, fault) => LineRefusal::InvalidJson(*fault),
            LineError::Float(name, _) => LineRefusal::BadValue {
                field: field_number(schema, name.as_str()),
                refusal: ValueRefusal::FloatNumber,
            },
            LineError::Refused(
                StrictParsingError::Parsing(DocParsingError::ValueError(name, error)),
            ) => LineRefusal::BadValue {
                field: field_number(schema, name.as_str()),
                refusal: value_refusal(error),
            },
            LineError::Refused(StrictParsingError::Parsing(DocParsingError::Add(_))) => {
                LineRefusal::HeapFull
            }
            _ => unreachable!(),
        }
    }

    /// Its number: 1 where the line is no JSON object or not UTF-8, 2 to 6 for the refusals of a value in the order of `ValueRefusal`, 7 where the values
    /// have no room.
    pub fn number(self) -> u32
        ensures { result ≡ line_number self }
    {
        match self {
            LineRefusal::NotUtf8 | LineRefusal::InvalidJson(_) => 1,
            LineRefusal::BadValue { refusal, .. } => refusal.number(),
            LineRefusal::HeapFull => 7,
        }
    }

    /// The number of the field whose value is refused; of a line that is no JSON object the number of what is wrong with it: 1 where a list nests too
    /// deep, 2 where a number is too large, 3 where it is JSON and no object, and 4 to 19 for what was expected, in the order of
    /// `JsonExpected`; else 0.
    pub fn field(self) -> u32
        ensures { result ≡ line_field self }
    {
        match self {
            LineRefusal::BadValue { field, .. } => field,
            LineRefusal::InvalidJson(fault) => fault_number(fault.kind),
            LineRefusal::NotUtf8 | LineRefusal::HeapFull => 0,
        }
    }

    /// How many bytes of a line that is no JSON object come before the place where it is refused; else 0.
    pub fn byte(self) -> u64
        ensures { result ≡ line_byte self }
    {
        match self {
            LineRefusal::InvalidJson(fault) => fault.offset as u64,
            _ => 0,
        }
    }
}
