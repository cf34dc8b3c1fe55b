//! The words of a line of a conformance suite, and how answers are written. A text is a JSON string with its quotes, bytes are
//! hexadecimal digits, and a number is decimal.
//!
//! A call is best told by its name alone, and its other words are best taken by the function that makes it: a `match` whose arms have both
//! takes several times as long to prove.
//!
//! A value of many parts, as an `OwnedValue` or a `FieldType`, is best dropped by a call that takes it, as `drop`: that is one step of the
//! caller, where each place at which it goes out of scope has a step for each part.
#![tactic(auto)]

pub mod leaves;
pub mod parts;
pub mod schemas;
pub mod states;
pub mod suite;

use anyhow::{Context, Result, anyhow, ensure};
use std::alloc::Global;
use std::cmp::Ordering;
use std::convert::AsStr;
use std::fmt::{Debug, Display};
use std::hash::{DefaultHasher, Hash, Hasher};
use std::str::FromStr;
use tv_options::Type;
use tv_value::field::Field;

/// The text of a JSON string.
pub fn text(alloc: Global, word: &str) -> Result<String> {
    let json = serde_json::Value::from_str(alloc, word)?;
    let text = text_of(alloc, &json);
    drop(json);
    text
}

// The text that a JSON value is.
fn text_of(alloc: Global, json: &serde_json::Value) -> Result<String> {
    match json.as_str() {
        Some(content) => Ok(String::from_str(alloc, content)?),
        None => Err(anyhow!("a text in quotes")),
    }
}

/// The bytes of hexadecimal digits.
pub fn bytes(alloc: Global, word: &str) -> Result<Vec<u8>> {
    Ok(hex::decode(alloc, word)?)
}

/// The number of decimal digits, with a sign where it is negative.
pub fn number<T: FromStr + Drop>(word: &str) -> Result<T>
where
    T::Err: Drop,
{
    word.parse().ok().context("a number")
}

/// The field of a number.
pub fn field(word: &str) -> Result<Field> {
    Ok(Field::from_field_id(number(word)?))
}

/// The first word of a call, as its name, and the words after it.
pub fn first<'a>(call: &'a [&'a str]) -> Result<(&'a str, &'a [&'a str])> {
    match call {
        [first, others @ ..] => Ok((*first, others)),
        [] => Err(anyhow!("a call without words")),
    }
}

/// The only word of a call.
pub fn one<'a>(call: &[&'a str]) -> Result<&'a str> {
    match call {
        [one] => Ok(*one),
        _ => Err(anyhow!("a call of one word")),
    }
}

/// The two words of a call.
pub fn two<'a>(call: &[&'a str]) -> Result<(&'a str, &'a str)> {
    match call {
        [first, second] => Ok((*first, *second)),
        _ => Err(anyhow!("a call of two words")),
    }
}

/// The three words of a call.
pub fn three<'a>(call: &[&'a str]) -> Result<(&'a str, &'a str, &'a str)> {
    match call {
        [first, second, third] => Ok((*first, *second, *third)),
        _ => Err(anyhow!("a call of three words")),
    }
}

/// The four words of a call.
pub fn four<'a>(call: &[&'a str]) -> Result<(&'a str, &'a str, &'a str, &'a str)> {
    match call {
        [first, second, third, fourth] => Ok((*first, *second, *third, *fourth)),
        _ => Err(anyhow!("a call of four words")),
    }
}

/// The texts of words, each in quotes.
pub fn all_texts(alloc: Global, words: &[&str]) -> Result<Vec<String>> {
    let mut texts = Vec::new(alloc);
    for word in words {
        texts.push(text(alloc, word)?)?;
    }
    Ok(texts)
}

/// Texts, lent.
pub fn lent<'a>(alloc: Global, texts: &'a [String]) -> Result<Vec<&'a str>> {
    let mut lent = Vec::new(alloc);
    for text in texts {
        lent.push(text.as_str())?;
    }
    Ok(lent)
}

/// The texts of a JSON array.
pub fn texts(alloc: Global, word: &str) -> Result<Vec<String>> {
    let json = serde_json::Value::from_str(alloc, word)?;
    let texts = texts_of(alloc, &json);
    drop(json);
    texts
}

// The texts of a JSON value.
fn texts_of(alloc: Global, json: &serde_json::Value) -> Result<Vec<String>> {
    let mut texts = Vec::new(alloc);
    for item in json.as_array().context("an array of texts")? {
        texts.push(text_of(alloc, item)?)?;
    }
    Ok(texts)
}

/// The text of a JSON value, which is dropped.
pub fn json_text(alloc: Global, json: serde_json::Value) -> Result<String> {
    Ok(json.to_string(alloc)?)
}

/// A text as a JSON string.
pub fn quoted(alloc: Global, content: &str) -> Result<String> {
    json_text(
        alloc,
        serde_json::Value::String(String::from_str(alloc, content)?),
    )
}

/// Texts as a JSON array.
pub fn quoted_all<T: AsStr>(alloc: Global, texts: &[T]) -> Result<String> {
    let mut items = Vec::new(alloc);
    for content in texts {
        let text = String::from_str(alloc, content.as_str())?;
        items.push(serde_json::Value::String(text))?;
    }
    json_text(alloc, serde_json::Value::Array(items))
}

/// The hexadecimal digits of bytes, or `nothing` where there is no byte.
pub fn digits(alloc: Global, bytes: &[u8]) -> Result<String> {
    if bytes.is_empty() {
        return Ok(String::from_str(alloc, "nothing")?);
    }
    Ok(hex::encode(alloc, bytes)?)
}

/// Where a range of bytes begins and ends, as digits, or `none` for no end.
pub fn ends(alloc: Global, start: &[u8], end: Option<&[u8]>) -> Result<String> {
    let start = digits(alloc, start)?;
    match end {
        Some(end) => Ok(format!(in alloc; "{start} {}", digits(alloc, end)?)?),
        None => Ok(format!(in alloc; "{start} none")?),
    }
}

/// Texts with a blank between each two, or `none` where there is none.
pub fn joined(alloc: Global, texts: &[String]) -> Result<String> {
    if texts.is_empty() {
        return none(alloc);
    }
    Ok(texts.join(alloc, " ")?)
}

/// A value as it is displayed.
pub fn plain(alloc: Global, value: &impl Display) -> Result<String> {
    Ok(format!(in alloc; "{value}")?)
}

/// The word `none`.
pub fn none(alloc: Global) -> Result<String> {
    Ok(String::from_str(alloc, "none")?)
}

/// The answer of a call that failed. The error is dropped.
pub fn error<E: Debug + Drop>(alloc: Global, error: E) -> Result<String> {
    Ok(format!(in alloc; "error {error:?}")?)
}

/// A value as Rust prints it. The value is dropped.
pub fn debug<T: Debug + Drop>(alloc: Global, value: T) -> Result<String> {
    Ok(format!(in alloc; "{value:?}")?)
}

/// Whether a value is equal to another one, which is dropped.
pub fn is_equal<T: PartialEq + Drop>(value: &T, other: T) -> bool {
    *value == other
}

/// Whether two values are equal. Both are dropped.
pub fn are_equal<T: PartialEq + Drop>(one: T, other: T) -> bool {
    one == other
}

/// The type of a code, which is a letter.
pub fn type_of(code: &str) -> Result<Type> {
    let code = code.bytes().next().context("a code")?;
    Type::from_code(code).context("a type")
}

/// How two values compare. All comparisons of them agree.
pub fn compared<T: Ord>(alloc: Global, one: &T, other: &T) -> Result<String> {
    let order = one.cmp(other);
    let (is_equal, is_less) = (order == Ordering::Equal, order == Ordering::Less);
    ensure!(
        (one == other) == is_equal && (one < other) == is_less,
        "compared otherwise"
    );
    Ok(format!(in alloc; "{order:?}")?)
}

/// The hash of a value.
pub fn hash(value: &impl Hash) -> u64 {
    let mut state = DefaultHasher::new();
    value.hash(&mut state);
    state.finish()
}

/// The first word of a word, and what stands after the blank that parts them.
pub fn parted(word: &str) -> (&str, &str) {
    word.split_once(' ').unwrap_or((word, ""))
}

/// The value of a result as it is displayed, or its error after the word `error`.
pub fn told<T: Display + Drop, E: Debug + Drop>(
    alloc: Global,
    answer: Result<T, E>,
) -> Result<String> {
    match answer {
        Ok(value) => plain(alloc, &value),
        Err(failure) => error(alloc, failure),
    }
}

/// The value of a result, as Rust prints it, or its error after the word `error`.
pub fn shown<T: Debug + Drop, E: Debug + Drop>(
    alloc: Global,
    answer: Result<T, E>,
) -> Result<String> {
    match answer {
        Ok(value) => debug(alloc, value),
        Err(failure) => error(alloc, failure),
    }
}
