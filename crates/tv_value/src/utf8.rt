//! Whether bytes are UTF-8, where others stand after them.

ghost use Rattle.std.specs.Prelude.{◌≡◌, ℕ, ◌-◌, ◌<◌, ◌≤◌, ◌↔◌, ◌++◌, length, take, replicate, slice_index, IsTrue};
ghost use Rattle.std.specs.Int.Bits.{bit_and};
ghost use Rattle.std.specs.Str.{IsAscii, IsUtf8};

use simdutf8::Checker;
use std::simd::prelude::*;

// From place 64 - n on, n bytes with every bit and then bytes with none.
const PREFIXES: [u8; 128] = [
    255, 255, 255, 255, 255, 255, 255, 255, 255, 255, 255, 255, 255, 255, 255, 255, 255, 255, 255,
    255, 255, 255, 255, 255, 255, 255, 255, 255, 255, 255, 255, 255, 255, 255, 255, 255, 255, 255,
    255, 255, 255, 255, 255, 255, 255, 255, 255, 255, 255, 255, 255, 255, 255, 255, 255, 255, 255,
    255, 255, 255, 255, 255, 255, 255, 0, 0, 0, 0, 0, 0, 0, 0, 0, 0, 0, 0, 0, 0, 0, 0, 0, 0, 0, 0,
    0, 0, 0, 0, 0, 0, 0, 0, 0, 0, 0, 0, 0, 0, 0, 0, 0, 0, 0, 0, 0, 0, 0, 0, 0, 0, 0, 0, 0, 0, 0, 0,
    0, 0, 0, 0, 0, 0, 0, 0, 0, 0, 0, 0,
];

// This many bytes with every bit, and the others with none.
#[inline(always)]
fn mask_of(len: usize) -> u8x64
    requires { len ≤ 64 }
    ensures { result ≡ replicate len 255 ++ replicate (64 - len) 0 }
{
    let prefixes: &[u8] = &PREFIXES;
    u8x64::from_slice(&prefixes[64 - len..])
}

// The bits that both have.
#[inline(always)]
fn common(a: u8x64, b: u8x64) -> u8x64
    ensures len { length result ≡ 64 }
    ensures lanes { (i : ℕ) → i < 64
        → slice_index result i ≡ bit_and (slice_index a i) (slice_index b i) }
{
    a & b
}

// The first bytes of the block, and zeros after them.
#[inline(always)]
fn prefix_of(block: u8x64, len: usize) -> u8x64
    requires { len ≤ 64 }
    ensures { result ≡ take len block ++ replicate (64 - len) 0 }
{
    common(block, mask_of(len))
}

// Whether the first `len` of sixteen bytes are ASCII.
#[inline(always)]
fn is_ascii_prefix(bytes: &[u8], len: usize) -> bool
    requires at_least_16 { 16 ≤ length bytes.now }
    requires at_most_16 { len ≤ 16 }
    ensures { IsTrue result → IsAscii (take len bytes.now) }
{
    let high = u8x16::from_slice(bytes).simd_ge(u8x16::splat(128));
    len <= high.to_bitmask().trailing_zeros() as usize
}

// Whether the first `len` bytes are UTF-8. (Not in tantivy.) Keys, and many texts, are sixteen bytes of ASCII or fewer.
#[inline(always)]
pub(crate) fn is_utf8_prefix(bytes: &[u8], len: usize) -> bool
    requires { len ≤ length bytes.now }
    ensures { IsTrue result ↔ IsUtf8 (take len bytes.now) }
{
    if len <= 16 && bytes.len() >= 16 && is_ascii_prefix(bytes, len) {
        return true;
    }
    is_utf8_in_blocks(bytes, len)
}

// The same of any bytes. Their last block is read where it stands, without a copy, if with what stands after them it has 64 bytes.
#[inline(never)]
fn is_utf8_in_blocks(bytes: &[u8], len: usize) -> bool
    requires { len ≤ length bytes.now }
    ensures { IsTrue result ↔ IsUtf8 (take len bytes.now) }
{
    // most texts are short, and are one block in a straight line
    if len <= 64 && bytes.len() >= 64 {
        let block = prefix_of(u8x64::from_slice(bytes), len);
        return Checker::new().step(block).finish();
    }
    let whole = len / 64 * 64;
    if bytes.len() - whole < 64 {
        return simdutf8::is_utf8(&bytes[..len]);
    }
    let mut checker = Checker::new();
    let mut at = 0;
    while at < whole {
        checker = checker.step(u8x64::from_slice(&bytes[at..]));
        at += 64;
    }
    let last = prefix_of(u8x64::from_slice(&bytes[at..]), len - at);
    checker.step(last).finish()
}
