//! What calls return of a value, each after its name.

use anyhow::Result;
use std::alloc::Global;
use std::fmt::Write;
use std::net::Ipv6Addr;
use tv_date::DateTime;

/// What a call returns of a value.
#[derive(Clone, Copy)]
pub enum Part<'a> {
    /// Nothing, which isn't told.
    Nothing,
    /// That something holds. Only its name is printed.
    Flag,
    /// A number.
    Number(i128),
    /// A truth value.
    Truth(bool),
    /// A text, told in quotes.
    Text(&'a str),
    /// A name, told as it is.
    Name(&'a str),
    /// Bytes, written by their digits.
    Bytes(&'a [u8]),
    /// An address, written by its digits.
    Address(Ipv6Addr),
}

impl<'a> From<bool> for Part<'a> {
    fn from(holds: bool) -> Part<'a> {
        if holds { Part::Flag } else { Part::Nothing }
    }
}

impl<'a> From<Option<u64>> for Part<'a> {
    fn from(number: Option<u64>) -> Part<'a> {
        match number {
            Some(number) => Part::Number(i128::from(number)),
            None => Part::Nothing,
        }
    }
}

impl<'a> From<Option<i64>> for Part<'a> {
    fn from(number: Option<i64>) -> Part<'a> {
        match number {
            Some(number) => Part::Number(i128::from(number)),
            None => Part::Nothing,
        }
    }
}

impl<'a> From<Option<DateTime>> for Part<'a> {
    fn from(date: Option<DateTime>) -> Part<'a> {
        match date {
            Some(date) => Part::Number(i128::from(date.into_timestamp_nanos())),
            None => Part::Nothing,
        }
    }
}

impl<'a> From<Option<bool>> for Part<'a> {
    fn from(truth: Option<bool>) -> Part<'a> {
        match truth {
            Some(truth) => Part::Truth(truth),
            None => Part::Nothing,
        }
    }
}

impl<'a> From<Option<&'a str>> for Part<'a> {
    fn from(text: Option<&'a str>) -> Part<'a> {
        match text {
            Some(text) => Part::Text(text),
            None => Part::Nothing,
        }
    }
}

impl<'a> From<Option<&'a [u8]>> for Part<'a> {
    fn from(bytes: Option<&'a [u8]>) -> Part<'a> {
        match bytes {
            Some(bytes) => Part::Bytes(bytes),
            None => Part::Nothing,
        }
    }
}

impl<'a> From<Option<Ipv6Addr>> for Part<'a> {
    fn from(address: Option<Ipv6Addr>) -> Part<'a> {
        match address {
            Some(address) => Part::Address(address),
            None => Part::Nothing,
        }
    }
}

/// Appends the name and the content of each part that there is.
pub fn push_parts(alloc: Global, answer: &mut String, parts: &[(&str, Part<'_>)]) -> Result<()> {
    for (name, part) in parts {
        push_part(alloc, answer, name, *part)?;
    }
    Ok(())
}

// Appends the name and the content of a part, if there is one.
fn push_part(alloc: Global, answer: &mut String, name: &str, part: Part<'_>) -> Result<()> {
    match part {
        Part::Nothing => Ok(()),
        Part::Flag => Ok(write!(answer, " {name}")?),
        part => {
            let content = content(alloc, part)?;
            Ok(write!(answer, " {name} {content}")?)
        }
    }
}

// What is said of a part, after its name.
fn content(alloc: Global, part: Part<'_>) -> Result<String> {
    match part {
        Part::Nothing | Part::Flag => Ok(String::new(alloc)),
        Part::Number(number) => crate::plain(alloc, &number),
        Part::Truth(truth) => crate::plain(alloc, &truth),
        Part::Text(text) => crate::quoted(alloc, text),
        Part::Name(name) => crate::plain(alloc, &name),
        Part::Bytes(bytes) => crate::digits(alloc, bytes),
        Part::Address(address) => Ok(format!(in alloc; "{:032x}", address.to_bits())?),
    }
}
