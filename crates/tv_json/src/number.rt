//! Numbers of JSON.

ghost use Rattle.std.specs.Prelude.{◌≡◌, ◌==◌, ◌<◌, true, false, length, slice_index, IsTrue, IfSome, option_map};
ghost use Rattle.serde_json.specs.Read.{number_of, number_from, float_of};
ghost use Rattle.serde_json.specs.Data.{number};
ghost use Rattle.serde_json.specs.Written.{has_float};
ghost use Rattle.tv_json.specs.BorrowedData.{data_of};
ghost use Rattle.tv_json.specs.Notes.{Notes};

use crate::value::BorrowedJson;
use fast_float::Numeral;

// The number that a token of JSON writes, and a note where it is a float. `None` where it is too large for a float.
#[inline(always)]
pub(crate) fn read_number<'a>(text: &str, met_float: &mut bool) -> Option<BorrowedJson<'a>>
    ensures found { option_map data_of result ≡ option_map number (number_of text.now) }
    ensures floats { IfSome result
        (λ v. Notes met_float.old met_float.new (has_float (data_of v))) }
{
    read_numeral(text.as_bytes(), met_float)
}

// The same of its bytes.
#[inline(always)]
pub(crate) fn read_numeral<'a>(bytes: &[u8], met_float: &mut bool) -> Option<BorrowedJson<'a>>
    ensures found { option_map data_of result ≡ option_map number (number_of bytes.now) }
    ensures floats { IfSome result
        (λ v. Notes met_float.old met_float.new (has_float (data_of v))) }
{
    if has_minus(bytes) {
        negative_number(&Numeral::scan(&bytes[1..]), met_float)
    } else {
        unsigned_number(&Numeral::scan(bytes), met_float)
    }
}

// Whether the first byte is a minus.
#[inline(always)]
fn has_minus(bytes: &[u8]) -> bool
    ensures value { result ≡ (slice_index bytes.now 0 == 45) }
    ensures len { IsTrue result → 0 < length bytes.now }
{
    !bytes.is_empty() && bytes[0] == b'-'
}

// The number of a numeral with no sign.
#[inline(always)]
fn unsigned_number<'a>(numeral: &Numeral<'_>, met_float: &mut bool) -> Option<BorrowedJson<'a>>
    ensures found { option_map data_of result ≡ option_map number (number_from false numeral.now) }
    ensures floats { IfSome result
        (λ v. Notes met_float.old met_float.new (has_float (data_of v))) }
{
    match numeral.to_u64() {
        Some(whole) => Some(BorrowedJson::Unsigned(whole)),
        None => nearest_float(false, numeral, met_float),
    }
}

// The number of a numeral after a minus.
#[inline(always)]
fn negative_number<'a>(numeral: &Numeral<'_>, met_float: &mut bool) -> Option<BorrowedJson<'a>>
    ensures found { option_map data_of result ≡ option_map number (number_from true numeral.now) }
    ensures floats { IfSome result
        (λ v. Notes met_float.old met_float.new (has_float (data_of v))) }
{
    if let Some(below) = numeral.to_i64(true) {
        if below < 0 {
            return Some(BorrowedJson::Negative(below));
        }
    }
    nearest_float(true, numeral, met_float)
}

// The float nearest to a numeral, and a note of it. `None` where it is too large for one.
#[inline(never)]
fn nearest_float<'a>(
    negative: bool,
    numeral: &Numeral<'_>,
    met_float: &mut bool,
) -> Option<BorrowedJson<'a>>
    ensures found { option_map data_of result ≡ option_map number (float_of negative numeral.now) }
    ensures floats { IfSome result
        (λ v. Notes met_float.old met_float.new (has_float (data_of v))) }
{
    let nearest = numeral.to_float::<f64>(negative);
    if !nearest.is_finite() {
        return None;
    }
    *met_float = true;
    Some(BorrowedJson::Float(nearest))
}
