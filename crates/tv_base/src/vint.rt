//! Numbers of variable length, in place, and what a source has buffered, taken without a read.

ghost use Rattle.std.specs.Prelude.{◌≡◌, ℕ, ◌≤◌, List, ◌++◌, length, take, Some, IfSome, IfNone, drop, Ok};
ghost use Rattle.tv_base.specs.declared.cause.Cause.{Cause};
ghost use Rattle.tv_base.specs.Number.{VNum, vnum};
ghost use Rattle.tv_base.specs.ErrorInPart.{ErrorInNumber};
ghost use Rattle.tv_base.specs.Lend.{TakesContent, PassesNumber};
ghost use Rattle.tv_base.specs.Reading.{vint_at};

use crate::slice_source::SliceSource;
use crate::source::ByteSource;
use crate::take::take_vint;

/// A number that is encoded in base 128, in one to ten bytes: the lowest seven bits first, the high bit of the last byte set.
#[derive(Clone, Copy, Debug, PartialEq, Eq)]
pub struct VInt(pub u64);

impl VInt {
    /// The shortest encoding: this many bytes at the start of the array. What stands after them is unspecified. (Not in tantivy.)
    pub fn spelling(self) -> ([u8; 10], usize)
        ensures len { result.1 ≤ 10 }
        ensures bytes { take result.1 result.0 ≡ vnum self.0 }
    {
        let mut bytes = [0; 10];
        let mut rest = self.0;
        for i in 0..9 {
            if rest < 128 {
                bytes[i] = rest as u8 + 128;
                return (bytes, i + 1);
            }
            bytes[i] = (rest % 128) as u8;
            rest /= 128;
        }
        bytes[9] = rest as u8 + 128;
        (bytes, 10)
    }

    /// The number that is encoded at the start of the bytes, padded or not, and the length of its encoding in bytes. `None`
    /// where the bytes end inside a number, or where the number is 2^64 or more or has more than ten bytes.
    pub fn from_slice(bytes: &[u8]) -> Option<(u64, usize)>
        ensures found { IfSome result
            (λ x. (x.1 ≤ length bytes.now) × VNum (take x.1 bytes.now) x.0) }
        ensures only { (n : ℕ) (prefix rest : List ℕ) → bytes.now ≡ prefix ++ rest → VNum prefix n
            → result ≡ Some (n, length prefix) }
        ensures none { IfNone result ((cause : Cause) × ErrorInNumber bytes.now cause) }
    {
        let mut source = SliceSource::new(bytes);
        let mut count = 0;
        match take_vint(&mut source, &mut count) {
            Ok(number) => Some((number, count as usize)),
            Err(_) => None,
        }
    }
}

// Fills `buf` with the next bytes where as many are buffered, and says whether it did. If it didn't, none was taken, and what
// `buf` holds is unspecified.
#[inline]
pub(crate) fn fill<S: ByteSource>(source: &mut S, buf: &mut [u8]) -> bool
    ensures bytes { S.is_known source.old
        → TakesContent (S.left source.old) (S.left source.new) buf.new result }
    ensures is_known { S.is_known source.old → S.is_known source.new }
    ensures failures { S.failures source.new ≡ S.failures source.old }
    ensures length { length buf.new ≡ length buf.old }
{
    let lent = source.buffered();
    if lent.len() < buf.len() {
        return false;
    }
    buf.copy_from_slice(&lent[..buf.len()]);
    source.pass(buf.len())
}

// Takes the number of variable length that is buffered, and gives it with the length of its encoding. `None` where none of at most
// nine bytes is, and nothing has changed then.
#[inline]
pub(crate) fn pass_number<S: ByteSource>(source: &mut S) -> Option<(u64, usize)>
    ensures bytes { S.is_known source.old
        → PassesNumber (S.left source.old) (S.left source.new) result }
    ensures is_known { S.is_known source.old → S.is_known source.new }
    ensures failures { S.failures source.new ≡ S.failures source.old }
    ensures at_most { IfSome result (λ x. x.1 ≤ 9) }
{
    let (number, len) = number_at(source.buffered())?;
    if source.pass(len) {
        Some((number, len))
    } else {
        None
    }
}

// The number at the start of the bytes, and the length of its encoding, where that has at most nine bytes.
#[inline]
fn number_at(bytes: &[u8]) -> Option<(u64, usize)>
    ensures found { IfSome result (λ x. vint_at bytes.now ≡ Ok (x.0, drop x.1 bytes.now)) }
    ensures within { IfSome result (λ x. x.1 ≤ length bytes.now) }
    ensures at_most { IfSome result (λ x. x.1 ≤ 9) }
{
    let first = *bytes.first()?;
    if first >= 128 {
        return Some((u64::from(first % 128), 1));
    }
    long_number_at(bytes)
}

// Nine groups of seven bits fit 64.
const GROUPS: usize = 9;

// The same, group by group.
fn long_number_at(bytes: &[u8]) -> Option<(u64, usize)>
    ensures found { IfSome result (λ x. vint_at bytes.now ≡ Ok (x.0, drop x.1 bytes.now)) }
    ensures within { IfSome result (λ x. x.1 ≤ length bytes.now) }
    ensures at_most { IfSome result (λ x. x.1 ≤ 9) }
{
    let mut value = 0u64;
    let mut weight = 1u64;
    for i in 0..bytes.len().min(GROUPS) {
        let byte = bytes[i];
        value += u64::from(byte % 128) * weight;
        if byte >= 128 {
            return Some((value, i + 1));
        }
        weight *= 128;
    }
    None
}
