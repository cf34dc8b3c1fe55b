//! Values without children, by their kind.

use anyhow::{Context, Result, anyhow};
use std::alloc::Global;
use std::net::Ipv6Addr;
use tv_base::Facet;
use tv_date::DateTime;
use tv_value::owned_value::OwnedValue;
use tv_value::pre_tokenized::PreTokenizedStr;
use tv_value::tokenizer::PreTokenizedString;

/// The value of this kind.
pub fn leaf(alloc: Global, kind: &str, value: &str) -> Result<OwnedValue> {
    Ok(match kind {
        "null" => OwnedValue::Null,
        "str" => OwnedValue::Str(crate::text(alloc, value)?),
        "tokens" => OwnedValue::PreTokStr(tokenized(alloc, value)?),
        "u64" => OwnedValue::U64(crate::number(value)?),
        "i64" => OwnedValue::I64(crate::number(value)?),
        "bool" => OwnedValue::Bool(value == "true"),
        "date" => OwnedValue::Date(date(value)?),
        "facet" => OwnedValue::Facet(facet(alloc, value)?),
        "bytes" => OwnedValue::Bytes(crate::bytes(alloc, value)?),
        "ip" => OwnedValue::IpAddr(address(value)?),
        _ => return Err(anyhow!("an unknown kind of value")),
    })
}

// The address of 32 hexadecimal digits.
fn address(digits: &str) -> Result<Ipv6Addr> {
    let bits = u128::from_str_radix(digits, 16);
    Ok(Ipv6Addr::from_bits(bits.ok().context("an address")?))
}

/// The date this many nanoseconds after 1970.
pub fn date(nanoseconds: &str) -> Result<DateTime> {
    Ok(DateTime::from_timestamp_nanos(crate::number(nanoseconds)?))
}

/// The facet of a text in quotes.
pub fn facet(alloc: Global, word: &str) -> Result<Facet> {
    Ok(Facet::from_text(alloc, crate::text(alloc, word)?.as_str())?)
}

/// The text and the tokens that the bytes encode.
pub fn tokenized(alloc: Global, digits: &str) -> Result<PreTokenizedString> {
    let bytes = crate::bytes(alloc, digits)?;
    match PreTokenizedStr::from_payload(&bytes) {
        Some((text, _)) => Ok(text.to_owned_string(alloc)?),
        None => Err(anyhow!("a payload")),
    }
}
