//! Taking values that hold no others, after their code.

ghost use Rattle.std.specs.Prelude.{◌≡◌, ◌*ℤ◌, ◌≤ℤ◌, pos, negsuc, string_bytes, ◌≤◌, ◌+◌, map};
ghost use Rattle.std.specs.Net.Addr.{ipv6_bits};
ghost use Rattle.tv_base.specs.Reading.{u128_at};
ghost use Rattle.tv_base.specs.Take.{TakesBy, TakesLean};
ghost use Rattle.tv_reader.specs.Leaves.{date_at, tokenized_at};
ghost use Rattle.tv_reader.specs.Version.{version_of};
ghost use Rattle.tv_value.specs.HeldTokens.{token_of};

use crate::encoded_tokens::gather_tokenized;
use crate::version::DocStoreVersion;
use std::alloc::Global;
use std::net::Ipv6Addr;
use tv_base::take::{take_i64, take_u128};
use tv_base::{ByteSource, Cause, ReadError};
use tv_date::date_time::DateTime;
use tv_value::leaf::address_of;
use tv_value::tokenizer::{PreTokenizedString, Token};

// The least and the largest number of microseconds whose nanoseconds fit 64 bits.
const LEAST_MICROSECONDS: i64 = -9223372036854775;

const MOST_MICROSECONDS: i64 = 9223372036854775;

// Microseconds as nanoseconds, where these fit.
fn nanoseconds(microseconds: i64) -> i64
    requires from { negsuc 9223372036854774 ≤ℤ microseconds }
    requires to { microseconds ≤ℤ pos 9223372036854775 }
    ensures { result ≡ microseconds *ℤ pos 1000 }
{
    microseconds * 1000
}

/// Takes a date: microseconds in version 1, and nanoseconds in the others.
///
/// Errors: those of `take_i64`, and in version 1 `Corrupted(DateRange)` where the nanoseconds don't fit 64 bits.
#[tactic(auto, using(tv_base::proofs::TakeSteps::Taken_then), unfolding(crate::specs::Leaves::date_at))]
pub fn take_date<S: ByteSource>(
    source: &mut S,
    count: &mut u64,
    version: DocStoreVersion,
) -> Result<DateTime, ReadError>
    ensures takes { TakesLean S.ByteSource source.old count.old source.new count.new
        (λ d. d.nanoseconds) result (date_at (version_of version)) }
    ensures at_most { count.new ≤ count.old + 8 }
{
    let number = take_i64(source, count)?;
    match version {
        DocStoreVersion::V1 => {
            if number < LEAST_MICROSECONDS {
                return Err(ReadError::Corrupted(Cause::DateRange));
            }
            if number > MOST_MICROSECONDS {
                return Err(ReadError::Corrupted(Cause::DateRange));
            }
            Ok(DateTime::from_timestamp_nanos(nanoseconds(number)))
        }
        DocStoreVersion::V2 | DocStoreVersion::V3 => Ok(DateTime::from_timestamp_nanos(number)),
    }
}

/// Takes an IP address in sixteen bytes, the lowest first. Errors: those of `take_u128`.
pub fn take_ip_address<S: ByteSource>(
    source: &mut S,
    count: &mut u64,
) -> Result<Ipv6Addr, ReadError>
    ensures takes { TakesLean S.ByteSource source.old count.old source.new count.new
        (λ a. ipv6_bits a) result u128_at }
    ensures at_most { count.new ≤ count.old + 16 }
{
    let bits = take_u128(source, count)?;
    Ok(address_of(bits))
}

/// Takes a text and its tokens. Nothing is reserved from the number of the tokens.
///
/// Errors: those of `take_string`.
#[tactic(auto, using(tv_base::proofs::TakeSteps::Taken_then), unfolding(crate::specs::Leaves::tokenized_at))]
pub fn take_tokenized<S: ByteSource>(
    alloc: Global,
    source: &mut S,
    count: &mut u64,
) -> Result<PreTokenizedString, ReadError>
    ensures takes { TakesBy S.ByteSource source.old count.old source.new count.new
        (λ s. (string_bytes s.text, map token_of s.tokens.items)) result tokenized_at }
{
    let (text, tokens) = gather_tokenized::<Vec<Token>, S>(alloc, source, count)?;
    Ok(PreTokenizedString { text, tokens })
}
