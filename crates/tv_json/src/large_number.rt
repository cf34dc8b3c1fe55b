//! Where a text of JSON has a number that is too large for a float.

ghost use Rattle.std.specs.Prelude.{◌≡◌, ◌↔◌, length, take_while, IsTrue, MatchOption};
ghost use Rattle.serde_json.specs.Read.{number_of};
ghost use Rattle.tv_json.specs.Faults.{IsSyntax};
ghost use Rattle.tv_json.specs.LargeNumber.{is_number_byte, IsFirstLargeNumber, NoLargeNumber};

use crate::json_scan::Scan;
use crate::number::read_numeral;

fn is_number_byte(byte: u8) -> bool
    ensures { result ≡ is_number_byte byte }
{
    byte.is_ascii_digit()
        || byte == b'-'
        || byte == b'+'
        || byte == b'.'
        || byte == b'e'
        || byte == b'E'
}

// How many bytes of a number are at the front.
fn number_len(bytes: &[u8]) -> usize
    ensures { result ≡ length (take_while is_number_byte bytes.now) }
{
    bytes
        .iter()
        .take_while(|byte| is_number_byte(**byte))
        .count()
}

// Whether the number at the front is too large.
fn begins_large(bytes: &[u8]) -> bool
    ensures { IsTrue result ↔ (number_of (take_while is_number_byte bytes.now) ≡ None) }
{
    let number = &bytes[..number_len(bytes)];
    read_numeral(number, &mut false).is_none()
}

/// At which byte of `text` the first number begins that is too large for a float, where what comes before it is JSON by its syntax. `None`
/// of a text that is JSON by its syntax says that no number in it is too large; of another text it says nothing. It takes no memory.
/// (Not in tantivy.)
pub fn large_number(text: &str) -> Option<usize>
    ensures { MatchOption result (IsSyntax text.now → NoLargeNumber text.now)
        (λ offset. IsFirstLargeNumber text.now offset) }
{
    let bytes = text.as_bytes();
    let mut scan = Scan::new();
    for (offset, byte) in bytes.iter().enumerate() {
        if scan.value_comes() && begins_large(&bytes[offset..]) {
            return Some(offset);
        }
        let Ok(()) = scan.pass(*byte) else {
            return None;
        };
    }
    None
}
