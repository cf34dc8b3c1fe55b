//! Numbers of variable length.

ghost use Rattle.std.specs.Prelude.{◌≡◌, ◌≤◌, ◌++◌, List, ℕ, Some, length, take};
ghost use Rattle.tantivy_schema.specs.Number.{VNum, vnum};

use tantivy_schema::common::VInt;

/// A number is written in its shortest encoding.
pub fn numbers_are_written_short(number: u64) -> ([u8; 10], usize)
    ensures len { result.1 ≤ 10 }
    ensures bytes { take result.1 result.0 ≡ vnum number }
{
    let (bytes, len) = VInt(number).spelling();
    match number {
        0 => (bytes, len),
        _ => (bytes, len),
    }
}

/// A number is read from each of its encodings, padded ones too.
pub fn numbers_are_read(bytes: &[u8]) -> Option<(u64, usize)>
    ensures { (n : ℕ) (prefix rest : List ℕ) →
        bytes.now ≡ prefix ++ rest → VNum prefix n → result ≡ Some (n, length prefix) }
{
    match VInt::from_slice(bytes) {
        Some((number, len)) if 1 < len && number < 128 => Some((number, len)),
        other => other,
    }
}
