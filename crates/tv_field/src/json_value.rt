//! JSON values as values of a field, by the field's type: lent without copies, or owned.

ghost use Rattle.std.specs.Prelude.{◌≡◌, true, codes, string_bytes, IfSome, IfErr, IsErrOf, OnOk, OnErr};
ghost use Rattle.serde_json.specs.View.{view as data_of, number_view};
ghost use Rattle.serde_json.specs.Data.{string, number};
ghost use Rattle.tv_field.specs.JsonTable.{Table, str_row, decimal_text, U64Row, I64Row, SignedText, UnsignedText, signed_number, bool_row, boolean_text};
ghost use Rattle.tv_field.specs.JsonTable.{date_row, date_text, facet_row, bytes_row, json_row, IpRow, IpText, leaf_or, mismatch, TextRow};
ghost use Rattle.tv_field.specs.JsonTokens.{tokenized_in};
ghost use Rattle.tv_field.specs.JsonAnswer.{Lends, LendsLeaf, AnswersOwned, TakesMemory, IsJsonString, IsNumberOrObject};

use crate::field_type::FieldType;
use crate::json_tokens::encode_tokenized;
use crate::value_parsing_error::{ParseCause, ValueParsingError};
use base64::DecodeAllocError;
use base64::engine::general_purpose::STANDARD;
use itoa::{Buffer, Integer};
use serde_json::{Number, Value};
use std::alloc::{AllocError, Global};
use std::net::IpAddr;
use tv_base::{ByteBuffer, Facet};
use tv_date::{DateError, DateTime};
use tv_options::Type;
use tv_value::copy::copy_of;
use tv_value::json::{LentJson, has_float};
use tv_value::{IntoIpv6Addr, OwnedValue, PreTokenizedStr, ReferenceValueLeaf};

/// Where texts and bytes are written that a field's value has and its JSON value hasn't. (Not in tantivy.) One serves any number of values,
/// one after the other.
#[derive(Drop)]
pub struct JsonScratch {
    text: String,
    bytes: Vec<u8>,
    tokens: ByteBuffer,
}

impl JsonScratch {
    /// Takes no memory.
    pub fn new(alloc: Global) -> JsonScratch {
        JsonScratch {
            text: String::new(alloc),
            bytes: Vec::new(alloc),
            tokens: ByteBuffer::new(alloc),
        }
    }
}

/// What a JSON value is to a field, lent. (Not in tantivy.)
pub enum LentFieldValue<'a> {
    /// A value without children.
    Leaf(ReferenceValueLeaf<'a>),
    /// A JSON object, in which each number is whole.
    Object(LentJson<'a>),
}

/// Why a JSON value is no value of a field, without the value. (Not in tantivy.)
#[derive(Clone, Copy, Debug, PartialEq, Eq, Drop)]
pub enum JsonRefusal {
    /// A number doesn't fit the field's type, which wants this.
    Overflow(&'static str),
    /// The value is of another kind than this.
    Mismatch(&'static str),
    /// The text can't be read.
    Parse(ParseCause),
    /// The text isn't the standard base64 of any bytes.
    InvalidBase64,
    /// A number isn't whole, or doesn't fit 64 bits.
    FloatNumber,
    /// Memory was refused.
    Memory,
}

impl From<AllocError> for JsonRefusal {
    ghost use Rattle.tv_field.specs.declared.json_value.JsonRefusal.TheVariants.{Memory};

    ghost from_gives = { λ _ refusal. refusal ≡ Memory };

    fn from(_error: AllocError) -> JsonRefusal {
        JsonRefusal::Memory
    }
}

// The digits of a number, in place of what is there.
fn print_number<N: Integer>(number: N, text: &mut String) -> Result<(), AllocError>
    ensures { OnOk result (string_bytes text.new ≡ N.text number) }
{
    text.clear();
    text.push_str(Buffer::new().format(number))
}

// A number in decimal.
fn lend_decimal<'a>(
    json: &Number,
    text: &'a mut String,
) -> Result<ReferenceValueLeaf<'a>, JsonRefusal>
    ensures { LendsLeaf (number (number_view json.now))
        (λ o. o ≡ decimal_text (number_view json.now)) result }
{
    if let Some(unsigned) = json.as_u64() {
        print_number(unsigned, text)?;
        return Ok(ReferenceValueLeaf::Str(text.as_str()));
    }
    match json.as_i64() {
        Some(signed) => {
            print_number(signed, text)?;
            Ok(ReferenceValueLeaf::Str(text.as_str()))
        }
        None => Err(JsonRefusal::FloatNumber),
    }
}

// A number as a signed one.
fn lend_signed(json: &Number) -> Result<ReferenceValueLeaf<'static>, JsonRefusal>
    ensures row { LendsLeaf (number (number_view json.now))
        (λ o. o ≡ signed_number (number_view json.now)) result }
    ensures no_memory { ¬ IsErrOf result JsonRefusal.Memory }
{
    match json.as_i64() {
        Some(signed) => Ok(ReferenceValueLeaf::I64(signed)),
        None => Err(JsonRefusal::Overflow("an i64 int")),
    }
}

/// The number from 0 to 2^64 - 1 that a text of JSON is to a field of such numbers that coerces: its digits, perhaps after a plus. (Not in
/// tantivy.) Errors: those of `lend_json`.
#[inline(always)]
pub fn lend_u64_text(text: &str) -> Result<ReferenceValueLeaf<'static>, JsonRefusal>
    ensures row { LendsLeaf (string text.now) (UnsignedText true text.now) result }
    ensures no_memory { ¬ IsErrOf result JsonRefusal.Memory }
{
    match text.parse::<u64>() {
        Ok(unsigned) => Ok(ReferenceValueLeaf::U64(unsigned)),
        Err(_) => Err(JsonRefusal::Mismatch("a u64 or a u64 as string")),
    }
}

// A value of a field of numbers from 0 to 2^64 - 1.
fn lend_u64(coerce: bool, json: &Value) -> Result<ReferenceValueLeaf<'static>, JsonRefusal>
    ensures row { LendsLeaf (data_of json.now) (U64Row coerce (data_of json.now)) result }
    ensures no_memory { ¬ IsErrOf result JsonRefusal.Memory }
{
    match json {
        Value::String(_) if !coerce => Err(JsonRefusal::Mismatch("a u64")),
        Value::String(text) => lend_u64_text(text.as_str()),
        Value::Number(number) => match number.as_u64() {
            Some(unsigned) => Ok(ReferenceValueLeaf::U64(unsigned)),
            None => Err(JsonRefusal::Overflow("u64")),
        },
        _ => Err(JsonRefusal::Mismatch(Type::U64.name())),
    }
}

/// The number from -2^63 to 2^63 - 1 that a text of JSON is to a field of such numbers that coerces: its digits, perhaps after a sign. (Not in
/// tantivy.) Errors: those of `lend_json`.
#[inline(always)]
pub fn lend_i64_text(text: &str) -> Result<ReferenceValueLeaf<'static>, JsonRefusal>
    ensures row { LendsLeaf (string text.now) (SignedText true text.now) result }
    ensures no_memory { ¬ IsErrOf result JsonRefusal.Memory }
{
    match text.parse::<i64>() {
        Ok(signed) => Ok(ReferenceValueLeaf::I64(signed)),
        Err(_) => Err(JsonRefusal::Mismatch("a i64 or a i64 as string")),
    }
}

// A value of a field of numbers from -2^63 to 2^63 - 1.
fn lend_i64(coerce: bool, json: &Value) -> Result<ReferenceValueLeaf<'static>, JsonRefusal>
    ensures row { LendsLeaf (data_of json.now) (I64Row coerce (data_of json.now)) result }
    ensures no_memory { ¬ IsErrOf result JsonRefusal.Memory }
{
    match json {
        Value::String(_) if !coerce => Err(JsonRefusal::Mismatch("a i64")),
        Value::String(text) => lend_i64_text(text.as_str()),
        Value::Number(number) => lend_signed(number),
        _ => Err(JsonRefusal::Mismatch(Type::I64.name())),
    }
}

/// The truth value that a text of JSON is to a field of truth values that coerces: `true` or `false`. (Not in tantivy.) Errors: those of
/// `lend_json`.
#[inline(always)]
pub fn lend_bool_text(text: &str) -> Result<ReferenceValueLeaf<'static>, JsonRefusal>
    ensures row { LendsLeaf (string text.now) (λ o. o ≡ boolean_text true text.now) result }
    ensures no_memory { ¬ IsErrOf result JsonRefusal.Memory }
{
    match text.parse::<bool>() {
        Ok(truth) => Ok(ReferenceValueLeaf::Bool(truth)),
        Err(_) => Err(JsonRefusal::Mismatch("a i64 or a bool as string")),
    }
}

// A value of a field of truth values.
fn lend_bool(coerce: bool, json: &Value) -> Result<ReferenceValueLeaf<'static>, JsonRefusal>
    ensures row { LendsLeaf (data_of json.now)
        (λ o. o ≡ bool_row coerce (data_of json.now)) result }
    ensures no_memory { ¬ IsErrOf result JsonRefusal.Memory }
{
    match json {
        Value::Bool(truth) => Ok(ReferenceValueLeaf::Bool(*truth)),
        Value::String(text) if coerce => lend_bool_text(text.as_str()),
        Value::String(_) | Value::Number(_) => Err(JsonRefusal::Mismatch("a boolean")),
        _ => Err(JsonRefusal::Mismatch(Type::Bool.name())),
    }
}

/// The date that a text of JSON is to a field of dates. (Not in tantivy.) Errors: those of `lend_json`.
#[inline(always)]
pub fn lend_date_text(text: &str) -> Result<ReferenceValueLeaf<'static>, JsonRefusal>
    ensures row { LendsLeaf (string text.now) (λ o. o ≡ date_row (string text.now)) result }
    ensures no_memory { ¬ IsErrOf result JsonRefusal.Memory }
{
    match DateTime::from_rfc3339(text) {
        Ok(date) => Ok(ReferenceValueLeaf::Date(date)),
        Err(DateError::Shape | DateError::Field) => Err(JsonRefusal::Mismatch("rfc3339 format")),
        Err(DateError::OutOfRange) => Err(JsonRefusal::Parse(ParseCause::DateOutOfRange)),
    }
}

// A value of a field of dates: a whole number is a signed number, and no date.
fn lend_date(json: &Value) -> Result<ReferenceValueLeaf<'static>, JsonRefusal>
    ensures row { LendsLeaf (data_of json.now) (λ o. o ≡ date_row (data_of json.now)) result }
    ensures no_memory { ¬ IsErrOf result JsonRefusal.Memory }
{
    match json {
        Value::String(text) => lend_date_text(text.as_str()),
        Value::Number(number) => lend_signed(number),
        _ => Err(JsonRefusal::Mismatch(Type::Date.name())),
    }
}

/// The facet that a text of JSON is to a field of facets, lent from the scratch. (Not in tantivy.) Errors: those of `lend_json`.
#[inline(always)]
pub fn lend_facet_text<'a>(
    path: &str,
    scratch: &'a mut JsonScratch,
) -> Result<ReferenceValueLeaf<'a>, JsonRefusal>
    ensures { LendsLeaf (string path.now) (λ o. o ≡ facet_row (string path.now)) result }
{
    if !Facet::encode_text(path, &mut scratch.text)? {
        return Err(JsonRefusal::Parse(ParseCause::Facet));
    }
    Ok(ReferenceValueLeaf::Facet(scratch.text.as_str()))
}

// A value of a field of facets.
fn lend_facet<'a>(
    json: &Value,
    scratch: &'a mut JsonScratch,
) -> Result<ReferenceValueLeaf<'a>, JsonRefusal>
    ensures row { LendsLeaf (data_of json.now) (λ o. o ≡ facet_row (data_of json.now)) result }
    ensures memory { IsErrOf result JsonRefusal.Memory → IsJsonString (data_of json.now) }
{
    match json {
        Value::String(path) => lend_facet_text(path.as_str(), scratch),
        Value::Number(_) => Err(JsonRefusal::Mismatch("a string")),
        _ => Err(JsonRefusal::Mismatch(Type::Facet.name())),
    }
}

/// The bytes that a text of JSON is to a field of bytes, lent from the scratch. (Not in tantivy.) Errors: those of `lend_json`.
#[inline(always)]
pub fn lend_bytes_text<'a>(
    text: &str,
    scratch: &'a mut JsonScratch,
) -> Result<ReferenceValueLeaf<'a>, JsonRefusal>
    ensures { LendsLeaf (string text.now) (λ o. o ≡ bytes_row (string text.now)) result }
{
    scratch.bytes.clear();
    match STANDARD.decode_vec(text.as_bytes(), &mut scratch.bytes) {
        Ok(()) => Ok(ReferenceValueLeaf::Bytes(scratch.bytes.as_slice())),
        Err(DecodeAllocError::DecodeError(_)) => Err(JsonRefusal::InvalidBase64),
        Err(DecodeAllocError::OutOfMemory) => Err(JsonRefusal::Memory),
    }
}

// A value of a field of bytes.
fn lend_bytes<'a>(
    json: &Value,
    scratch: &'a mut JsonScratch,
) -> Result<ReferenceValueLeaf<'a>, JsonRefusal>
    ensures row { LendsLeaf (data_of json.now) (λ o. o ≡ bytes_row (data_of json.now)) result }
    ensures memory { IsErrOf result JsonRefusal.Memory → IsJsonString (data_of json.now) }
{
    match json {
        Value::String(text) => lend_bytes_text(text.as_str(), scratch),
        Value::Number(_) => Err(JsonRefusal::Mismatch("a string")),
        _ => Err(JsonRefusal::Mismatch(Type::Bytes.name())),
    }
}

/// The address that a text of JSON is to a field of IP addresses. (Not in tantivy.) Errors: those of `lend_json`.
#[inline(always)]
pub fn lend_ip_addr_text(text: &str) -> Result<ReferenceValueLeaf<'static>, JsonRefusal>
    ensures row { LendsLeaf (string text.now) (IpRow (string text.now)) result }
    ensures no_memory { ¬ IsErrOf result JsonRefusal.Memory }
{
    match text.parse::<IpAddr>() {
        Ok(address) => Ok(ReferenceValueLeaf::IpAddr(address.into_ipv6_addr())),
        Err(_) => Err(JsonRefusal::Parse(ParseCause::Ip)),
    }
}

// A value of a field of IP addresses.
fn lend_ip_addr(json: &Value) -> Result<ReferenceValueLeaf<'static>, JsonRefusal>
    ensures row { LendsLeaf (data_of json.now) (IpRow (data_of json.now)) result }
    ensures no_memory { ¬ IsErrOf result JsonRefusal.Memory }
{
    match json {
        Value::String(text) => lend_ip_addr_text(text.as_str()),
        Value::Number(_) => Err(JsonRefusal::Mismatch("a string with an ip addr")),
        _ => Err(JsonRefusal::Mismatch(Type::IpAddr.name())),
    }
}

/// What a text is to a field, as a query writes it, lent from the text or from the scratch: what the same text in JSON is to a field of this
/// type that coerces. (Not in tantivy.) A field of JSON objects takes none. Errors: those of `lend_json`.
#[inline(always)]
pub fn lend_text<'a>(
    field_type: &FieldType,
    text: &'a str,
    scratch: &'a mut JsonScratch,
) -> Result<ReferenceValueLeaf<'a>, JsonRefusal>
    ensures { LendsLeaf (string text.now) (TextRow field_type.now text.now) result }
{
    match field_type {
        FieldType::Str(_) => Ok(ReferenceValueLeaf::Str(text)),
        FieldType::U64(_) => lend_u64_text(text),
        FieldType::I64(_) => lend_i64_text(text),
        FieldType::Bool(_) => lend_bool_text(text),
        FieldType::Date(_) => lend_date_text(text),
        FieldType::Facet(_) => lend_facet_text(text, scratch),
        FieldType::Bytes(_) => lend_bytes_text(text, scratch),
        FieldType::JsonObject(_) => Err(JsonRefusal::Mismatch("a json object")),
        FieldType::IpAddr(_) => lend_ip_addr_text(text),
    }
}

// A value of a field of JSON objects.
fn lend_object(json: &Value) -> Result<LentFieldValue<'_>, JsonRefusal>
    ensures row { Lends (data_of json.now) (λ o. o ≡ json_row (data_of json.now)) result }
    ensures no_memory { ¬ IsErrOf result JsonRefusal.Memory }
{
    match json {
        Value::Object(_) if has_float(json) => Err(JsonRefusal::FloatNumber),
        Value::Object(_) => Ok(LentFieldValue::Object(LentJson::new(json))),
        Value::String(_) | Value::Number(_) => Err(JsonRefusal::Mismatch("a json object")),
        _ => Err(JsonRefusal::Mismatch(Type::Json.name())),
    }
}

// A text with its tokens, lent from its encoding.
fn lend_tokenized<'a>(
    json: &Value,
    bytes: &'a mut ByteBuffer,
) -> Result<ReferenceValueLeaf<'a>, JsonRefusal>
    ensures { LendsLeaf (data_of json.now)
        (λ o. o
        ≡ leaf_or (tokenized_in (data_of json.now))
        (mismatch (codes "a string or an pretokenized string") (data_of json.now)))
        result }
{
    let is_tokenized = encode_tokenized(json, bytes)?;
    if !is_tokenized {
        return Err(JsonRefusal::Mismatch("a string or an pretokenized string"));
    }
    match PreTokenizedStr::from_payload(bytes.as_slice()) {
        Some((text, _)) => Ok(ReferenceValueLeaf::PreTokStr(text)),
        None => unreachable!(),
    }
}

// A value of a field of texts.
fn lend_str<'a>(
    coerce: bool,
    json: &'a Value,
    scratch: &'a mut JsonScratch,
) -> Result<ReferenceValueLeaf<'a>, JsonRefusal>
    ensures row { LendsLeaf (data_of json.now) (λ o. o ≡ str_row coerce (data_of json.now)) result }
    ensures memory { IsErrOf result JsonRefusal.Memory → IsNumberOrObject (data_of json.now) }
{
    match json {
        Value::String(text) => Ok(ReferenceValueLeaf::Str(text.as_str())),
        Value::Object(_) => lend_tokenized(json, &mut scratch.tokens),
        Value::Number(number) if coerce => lend_decimal(number, &mut scratch.text),
        Value::Bool(true) if coerce => Ok(ReferenceValueLeaf::Str("true")),
        Value::Bool(false) if coerce => Ok(ReferenceValueLeaf::Str("false")),
        Value::Null if coerce => Ok(ReferenceValueLeaf::Str("null")),
        Value::Number(_) | Value::Bool(_) | Value::Null => Err(JsonRefusal::Mismatch("a string")),
        Value::Array(_) => Err(JsonRefusal::Mismatch(Type::Str.name())),
    }
}

impl JsonRefusal {
    ghost use Rattle.tv_field.specs.JsonAnswer.{RefusesJson};

    /// The same as an error, which holds the value that was refused, but for `FloatNumber` and `Memory`. (Not in tantivy.)
    pub fn with_json(self, alloc: Global, json: Value) -> ValueParsingError
        ensures { RefusesJson (data_of json) self result }
    {
        match self {
            JsonRefusal::Overflow(expected) => ValueParsingError::OverflowError { expected, json },
            JsonRefusal::Mismatch(expected) => ValueParsingError::TypeError { expected, json },
            JsonRefusal::Parse(cause) => ValueParsingError::ParseError { cause, json },
            JsonRefusal::InvalidBase64 => match json {
                Value::String(base64) => ValueParsingError::InvalidBase64 { base64 },
                _ => ValueParsingError::InvalidBase64 {
                    base64: String::new(alloc),
                },
            },
            JsonRefusal::FloatNumber => ValueParsingError::FloatNumber,
            JsonRefusal::Memory => ValueParsingError::Memory,
        }
    }
}

impl FieldType {
    /// What a JSON value is to a field of this type, by the table of JSON values, lent from the value or from what is written into
    /// the scratch. (Not in tantivy.) Errors: what `value_from_json` returns, without the value. `Memory` comes only for a number or an object
    /// of a field of texts, and for a text of a field of facets or of bytes.
    pub fn lend_json<'a>(
        &self,
        json: &'a Value,
        scratch: &'a mut JsonScratch,
    ) -> Result<LentFieldValue<'a>, JsonRefusal>
        ensures row { Lends (data_of json.now) (Table self.now (data_of json.now)) result }
        ensures memory { IsErrOf result JsonRefusal.Memory
            → TakesMemory self.now (data_of json.now) }
    {
        let leaf = match self {
            FieldType::Str(options) => lend_str(options.should_coerce(), json, scratch)?,
            FieldType::U64(options) => lend_u64(options.should_coerce(), json)?,
            FieldType::I64(options) => lend_i64(options.should_coerce(), json)?,
            FieldType::Bool(options) => lend_bool(options.should_coerce(), json)?,
            FieldType::Date(_) => lend_date(json)?,
            FieldType::Facet(_) => lend_facet(json, scratch)?,
            FieldType::Bytes(_) => lend_bytes(json, scratch)?,
            FieldType::JsonObject(_) => return lend_object(json),
            FieldType::IpAddr(_) => lend_ip_addr(json)?,
        };
        Ok(LentFieldValue::Leaf(leaf))
    }

    /// The value of a field of this type that a JSON value is. Errors, all but the last two with the value that was refused:
    /// - `TypeError`: it is of another kind than the type wants, or a text of no such value,
    /// - `OverflowError`: a number doesn't fit the type,
    /// - `ParseError`: the text is no IP address or no facet, or its date's nanoseconds don't fit 64 bits,
    /// - `InvalidBase64`: the text isn't the standard base64 of any bytes,
    /// - `FloatNumber`: a number, or one in an object, isn't whole or doesn't fit 64 bits,
    /// - `Memory`: memory was refused, and the value handed in is given up.
    pub fn value_from_json(
        &self,
        alloc: Global,
        json: Value,
    ) -> Result<OwnedValue, ValueParsingError>
        ensures { AnswersOwned (Table self.now (data_of json)) result }
    {
        let mut scratch = JsonScratch::new(alloc);
        let made = match self.lend_json(&json, &mut scratch) {
            Ok(LentFieldValue::Leaf(leaf)) => OwnedValue::from_leaf(alloc, leaf),
            Ok(LentFieldValue::Object(object)) => copy_of(alloc, &object),
            Err(refusal) => return Err(refusal.with_json(alloc, json)),
        };
        made.map_err(|_| ValueParsingError::Memory)
    }
}
