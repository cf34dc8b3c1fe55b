//! Copies of short parts into a slice that has room for them: two copies of a fixed size, which may overlap.

ghost use Rattle.std.specs.Prelude.{◌≡◌, ◌+◌, ◌≤◌, length, take};
ghost use Rattle.tv_base.specs.Buffer.{Stored};

use std::simd::Simd;

// Copies the first `N` bytes of `part` to the place `at`, by one load and one store, and returns where they end.
#[inline(always)]
pub(crate) fn copy_first<const N: usize>(to: &mut [u8], at: usize, part: &[u8]) -> usize
    requires { (N ≤ length part.now) × (at + N ≤ length to.old) }
    ensures { Stored to.old to.new at (take N part.now) result }
{
    Simd::<u8, N>::from_slice(part).copy_to_slice(&mut to[at..]);
    at + N
}

// Copies `part`, of `N` to twice `N` bytes, to the place `at`, and returns where it ends.
#[inline(always)]
fn copy_both_ends<const N: usize>(to: &mut [u8], at: usize, part: &[u8]) -> usize
    requires room { at + length part.now ≤ length to.old }
    requires len { (N ≤ length part.now) × (length part.now ≤ N + N) }
    ensures { Stored to.old to.new at part.now result }
{
    let last = part.len() - N;
    copy_first::<N>(to, at, part);
    copy_first::<N>(to, at + last, &part[last..])
}

/// Copies `part` to the place `at`, and returns where it ends.
#[inline(always)]
pub(crate) fn copy_part(to: &mut [u8], at: usize, part: &[u8]) -> usize
    requires { at + length part.now ≤ length to.old }
    ensures { Stored to.old to.new at part.now result }
{
    let len = part.len();
    if len > 32 {
        let end = at + len;
        to[at..end].copy_from_slice(part);
        end
    } else if len >= 16 {
        copy_both_ends::<16>(to, at, part)
    } else if len >= 8 {
        copy_both_ends::<8>(to, at, part)
    } else if len >= 4 {
        copy_both_ends::<4>(to, at, part)
    } else if len >= 2 {
        copy_both_ends::<2>(to, at, part)
    } else if len == 1 {
        copy_first::<1>(to, at, part)
    } else {
        at
    }
}
