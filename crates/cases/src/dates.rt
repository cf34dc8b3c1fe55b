//! Dates, by their nanoseconds since 1970 and by their texts.

use crate::shared;
use anyhow::{Result, anyhow, ensure};
use case_words as words;
use case_words::leaves;
use std::alloc::Global;
use tv_date::{DATE_TIME_PRECISION_INDEXED, DateTime, DateTimePrecision};

/// What a call about dates returns.
pub fn answer(alloc: Global, call: &[&str]) -> Result<String> {
    let (name, call) = words::first(call)?;
    match name {
        "read" => read(alloc, call),
        "print" => printed(alloc, call),
        "truncate" => truncated(alloc, call),
        "micros" => of_microseconds(alloc, call),
        "indexed precision" => words::debug(alloc, DATE_TIME_PRECISION_INDEXED),
        _ => Err(anyhow!("an unknown call about dates")),
    }
}

// The date of a text.
fn read(alloc: Global, call: &[&str]) -> Result<String> {
    let text = shared::text(alloc, call)?;
    match DateTime::from_rfc3339(text.as_str()) {
        Ok(date) => words::plain(alloc, &date.into_timestamp_nanos()),
        Err(error) => words::error(alloc, error),
    }
}

// The date this many microseconds after 1970.
fn of_microseconds(alloc: Global, call: &[&str]) -> Result<String> {
    let microseconds = words::number(words::one(call)?)?;
    match DateTime::from_timestamp_micros(microseconds) {
        Some(date) => words::plain(alloc, &date.into_timestamp_nanos()),
        None => words::none(alloc),
    }
}

// A date that is cut to a precision, and how the date compares with it.
fn truncated(alloc: Global, call: &[&str]) -> Result<String> {
    let (precision, nanoseconds) = words::two(call)?;
    let date = leaves::date(nanoseconds)?;
    let cut = date.truncate(precision_named(precision)?);
    let order = words::compared(alloc, &date, &cut)?;
    let cut = cut.into_timestamp_nanos();
    shared::answered(format!(in alloc; "{cut} {order}"))
}

// The text of a date. It is the same after another text.
fn printed(alloc: Global, call: &[&str]) -> Result<String> {
    let date = leaves::date(words::one(call)?)?;
    let text = date.write_rfc3339(alloc)?;
    check_pushed(alloc, date, text.as_str())?;
    words::quoted(alloc, text.as_str())
}

// Checks that a date has this text after another text.
fn check_pushed(alloc: Global, date: DateTime, text: &str) -> Result<()> {
    let mut behind = String::from_str(alloc, "on ")?;
    date.push_rfc3339(&mut behind)?;
    let pushed = behind.as_str().strip_prefix("on ");
    ensure!(pushed == Some(text), "two texts");
    Ok(())
}

// The precision of a name.
fn precision_named(name: &str) -> Result<DateTimePrecision> {
    match name {
        "seconds" => Ok(DateTimePrecision::Seconds),
        "milliseconds" => Ok(DateTimePrecision::Milliseconds),
        "microseconds" => Ok(DateTimePrecision::Microseconds),
        "nanoseconds" => Ok(DateTimePrecision::Nanoseconds),
        _ => Err(anyhow!("an unknown precision")),
    }
}
