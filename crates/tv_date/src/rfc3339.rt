//! Texts of dates by RFC 3339, read step by step: the numbers that a text writes, whether each is in its range, and the moment that
//! they make.

ghost use Rattle.std.specs.Prelude.{◌≡◌, ◌<◌, ◌≤◌, ◌+◌, ◌*◌, ◌+ℤ◌, ◌-ℤ◌, ◌*ℤ◌, ℕ, slice_index, pos, true, option_map, option_copied, length, IfSome};
ghost use Rattle.std.specs.List.{prefix_len};
ghost use Rattle.std.specs.Char.{is_ascii_digit, IsAsciiDigit};
ghost use Rattle.jiff_core.specs.Calendar.{IsWithin};
ghost use Rattle.tv_date.specs.Rfc3339.{two_digits as two_digits_of, four_digits as four_digits_of, after as after_byte, after_t as after_t_of};
ghost use Rattle.tv_date.specs.Rfc3339.{fraction as fraction_of, nanoseconds as nanoseconds_of, hours_and_minutes as hours_and_minutes_of, offset as offset_of};
ghost use Rattle.tv_date.specs.Rfc3339.{date as date_of, time as time_of, fields as fields_of};

use jiff_core::civil::Date;
use thiserror::Error;

/// The numbers that a text of a date writes, whatever they are.
#[derive(Clone, Copy)]
pub struct DateFields {
    year: u16,
    month: u8,
    day: u8,
    hour: u8,
    minute: u8,
    second: u8,
    // In nanoseconds.
    fraction: u32,
    // Whether the clock is behind UTC.
    west: bool,
    offset_hour: u8,
    offset_minute: u8,
}

// Two digits at the start, and what follows them.
#[tactic(auto, unfolding(crate::specs::Rfc3339::two_digits))]
fn two_digits(text: &[u8]) -> Option<(u8, &[u8])>
    ensures value { option_map (λ p. (p.0, p.1.now)) result ≡ two_digits_of text.now }
    ensures small { IfSome result (λ p. p.0 < 100) }
{
    match text {
        [high, low, rest @ ..] if high.is_ascii_digit() && low.is_ascii_digit() => Some((
            (*high - b'0') * 10 + (*low - b'0'),
            rest,
        )),
        _ => None,
    }
}

// Four digits at the start, and what follows them.
#[tactic(auto, unfolding(crate::specs::Rfc3339::four_digits))]
fn four_digits(text: &[u8]) -> Option<(u16, &[u8])>
    ensures value { option_map (λ p. (p.0, p.1.now)) result ≡ four_digits_of text.now }
    ensures small { IfSome result (λ p. p.0 < 10000) }
{
    let (high, rest) = two_digits(text)?;
    let (low, rest) = two_digits(rest)?;
    Some((high as u16 * 100 + low as u16, rest))
}

// What follows the byte at the start.
fn after(byte: u8, text: &[u8]) -> Option<&[u8]>
    ensures { option_copied result ≡ after_byte byte text.now }
{
    match text {
        [first, rest @ ..] if *first == byte => Some(rest),
        _ => None,
    }
}

// What follows a `T` or a `t` at the start.
fn after_t(text: &[u8]) -> Option<&[u8]>
    ensures { option_copied result ≡ after_t_of text.now }
{
    match text {
        [first, rest @ ..] if *first == b'T' || *first == b't' => Some(rest),
        _ => None,
    }
}

// Year, month and day, and what follows them.
#[tactic(auto, unfolding(crate::specs::Rfc3339::date))]
fn date(text: &[u8]) -> Option<((u16, u8, u8), &[u8])>
    ensures value { option_map (λ p. (p.0, p.1.now)) result ≡ date_of text.now }
    ensures year { IfSome result (λ p. p.0.0 < 10000) }
{
    let (year, rest) = four_digits(text)?;
    let (month, rest) = two_digits(after(b'-', rest)?)?;
    let (day, rest) = two_digits(after(b'-', rest)?)?;
    Some(((year, month, day), rest))
}

// Hour, minute and second, and what follows them.
#[tactic(auto, unfolding(crate::specs::Rfc3339::time))]
fn time(text: &[u8]) -> Option<((u8, u8, u8), &[u8])>
    ensures { option_map (λ p. (p.0, p.1.now)) result ≡ time_of text.now }
{
    let (hour, rest) = two_digits(text)?;
    let (minute, rest) = two_digits(after(b':', rest)?)?;
    let (second, rest) = two_digits(after(b':', rest)?)?;
    Some(((hour, minute, second), rest))
}

// The hours and minutes of an offset, and nothing after them.
#[tactic(auto, unfolding(crate::specs::Rfc3339::hours_and_minutes))]
fn hours_and_minutes(text: &[u8]) -> Option<(u8, u8)>
    ensures { result ≡ hours_and_minutes_of text.now }
{
    let (hour, rest) = two_digits(text)?;
    let (minute, rest) = two_digits(after(b':', rest)?)?;
    if rest.is_empty() {
        Some((hour, minute))
    } else {
        None
    }
}

// Whether the offset is west of UTC, with its hours and minutes, and nothing after them.
#[tactic(auto, unfolding(crate::specs::Rfc3339::offset))]
fn offset(text: &[u8]) -> Option<(bool, u8, u8)>
    ensures { result ≡ offset_of text.now }
{
    let (first, rest) = text.split_first()?;
    match *first {
        b'Z' | b'z' => if rest.is_empty() {
            Some((false, 0, 0))
        } else {
            None
        },
        b'+' => {
            let (hour, minute) = hours_and_minutes(rest)?;
            Some((false, hour, minute))
        }
        b'-' => {
            let (hour, minute) = hours_and_minutes(rest)?;
            Some((true, hour, minute))
        }
        _ => None,
    }
}

impl DateFields {
    ghost use Rattle.jiff_core.specs.Calendar.{days_from_civil, IsEpochDay, IsWithin};
    ghost use Rattle.tv_date.specs.Rfc3339.{offset_seconds as offset_seconds_of, is_date as is_date_of, is_time as is_time_of, is_offset as is_offset_of};
    ghost use Rattle.tv_date.specs.Rfc3339.{is_valid as is_valid_of, instant as instant_of};

    // Whether the month has the day.
    fn is_date(&self) -> bool
        requires { self.now.year < 10000 }
        ensures { result ≡ is_date_of self.now }
    {
        self.month >= 1
            && self.month <= 12
            && self.day >= 1
            && self.day <= jiff_core::civil::days_in_month(self.year as i16, self.month)
    }

    // Whether a clock shows the hour, the minute and the second.
    fn is_time(&self) -> bool
        ensures { result ≡ is_time_of self.now }
    {
        self.hour <= 23 && self.minute <= 59 && self.second <= 59
    }

    // Whether the offset is below a day.
    fn is_offset(&self) -> bool
        ensures { result ≡ is_offset_of self.now }
    {
        self.offset_hour <= 23 && self.offset_minute <= 59
    }

    /// Whether each number is in its range. The year is one of four digits.
    pub fn is_valid(&self) -> bool
        requires { self.now.year < 10000 }
        ensures { result ≡ is_valid_of self.now }
    {
        self.is_date() && self.is_time() && self.is_offset()
    }

    // The days since 1970-01-01.
    fn day_number(&self) -> i32
        requires year { self.now.year < 10000 }
        requires date { is_date_of self.now ≡ true }
        ensures value { result ≡ days_from_civil (pos self.now.year) self.now.month self.now.day }
        ensures bound { IsEpochDay result }
    {
        let Ok(date) = Date::new(self.year as i16, self.month as i8, self.day as i8) else {
            unreachable!();
        };
        date.to_unix_epoch_day()
    }

    // The seconds since midnight.
    fn second_of_day(&self) -> u32
        ensures value { result ≡ self.now.hour * 3600 + self.now.minute * 60 + self.now.second }
        ensures bound { result < 1_000_000 }
    {
        self.hour as u32 * 3600 + self.minute as u32 * 60 + self.second as u32
    }

    // How many seconds the clock is ahead of UTC.
    fn offset_seconds(&self) -> i32
        ensures value { result ≡ offset_seconds_of self.now }
        ensures bound { IsWithin 1_000_000 result }
    {
        let seconds = self.offset_hour as i32 * 3600 + self.offset_minute as i32 * 60;
        if self.west { -seconds } else { seconds }
    }

    /// The nanoseconds since 1970-01-01T00:00:00Z. The year is one of four digits that has the month and day, and the fraction is below
    /// a second.
    pub fn instant(&self) -> i128
        requires year { self.now.year < 10000 }
        requires date { is_date_of self.now ≡ true }
        requires fraction { self.now.fraction < 1_000_000_000 }
        ensures { result ≡ instant_of self.now }
    {
        let second = seconds_at(
            self.day_number(),
            self.second_of_day(),
            self.offset_seconds(),
        );
        nanoseconds_at(second, self.fraction)
    }
}

// The seconds since 1970-01-01T00:00:00Z.
fn seconds_at(day: i32, second: u32, offset: i32) -> i64
    requires day { IsWithin 10_000_000 day }
    requires second { second < 1_000_000 }
    requires offset { IsWithin 1_000_000 offset }
    ensures value { result ≡ day *ℤ pos 86_400 +ℤ pos second -ℤ offset }
    ensures bound { IsWithin 1_000_000_000_000 result }
{
    let seconds = day as i64 * 86_400 + second as i64;
    seconds - offset as i64
}

// The nanoseconds since 1970-01-01T00:00:00Z.
fn nanoseconds_at(second: i64, fraction: u32) -> i128
    requires second { IsWithin 1_000_000_000_000 second }
    ensures { result ≡ second *ℤ pos 1_000_000_000 +ℤ pos fraction }
{
    second as i128 * 1_000_000_000 + fraction as i128
}

// How many digits stand at the start.
fn digits_len(text: &[u8]) -> usize
    ensures len { result ≡ prefix_len is_ascii_digit text.now }
    ensures within { result ≤ length text.now }
    ensures digits { (k : ℕ) → k < result → IsAsciiDigit (slice_index text.now k) }
{
    text.iter().take_while(|b| b.is_ascii_digit()).count()
}

// One digit or more at the start, as the nanoseconds that they write after a dot, and what follows them.
fn nanoseconds(text: &[u8]) -> Option<(u32, &[u8])>
    ensures value { option_map (λ p. (p.0, p.1.now)) result ≡ nanoseconds_of text.now }
    ensures small { IfSome result (λ p. p.0 < 1_000_000_000) }
{
    let len = digits_len(text);
    if len == 0 {
        return None;
    }
    let digits = &text[..len.min(9)];
    let mut nanosecond = 0;
    let mut place = 1_000_000_000;
    'digits: for digit in digits {
        place /= 10;
        nanosecond += (digit - b'0') as u32 * place;
    }
    Some((nanosecond, &text[len..]))
}

// The fraction of a second in nanoseconds, if there is one, and what follows it.
#[tactic(auto, unfolding(crate::specs::Rfc3339::fraction))]
fn fraction(text: &[u8]) -> Option<(u32, &[u8])>
    ensures value { option_map (λ p. (p.0, p.1.now)) result ≡ fraction_of text.now }
    ensures small { IfSome result (λ p. p.0 < 1_000_000_000) }
{
    match text {
        [b'.', rest @ ..] => nanoseconds(rest),
        _ => Some((0, text)),
    }
}

/// The numbers that the text writes, or `None` exactly where it hasn't the shape of a date.
#[tactic(auto, unfolding(crate::specs::Rfc3339::fields))]
pub fn read_fields(text: &[u8]) -> Option<DateFields>
    ensures value { result ≡ fields_of text.now }
    ensures year { IfSome result (λ s. s.year < 10000) }
    ensures fraction { IfSome result (λ s. s.fraction < 1_000_000_000) }
{
    let ((year, month, day), rest) = date(text)?;
    let ((hour, minute, second), rest) = time(after_t(rest)?)?;
    let (fraction, rest) = fraction(rest)?;
    let (west, offset_hour, offset_minute) = offset(rest)?;
    Some(DateFields {
        year,
        month,
        day,
        hour,
        minute,
        second,
        fraction,
        west,
        offset_hour,
        offset_minute,
    })
}

/// Why a text is no date.
#[derive(Clone, Copy, Debug, PartialEq, Eq, Drop, Error)]
pub enum DateError {
    /// It isn't of the shape of a date and time by RFC 3339.
    #[error("not of the shape of a date and time")]
    Shape,
    /// A number in it is out of its range.
    #[error("a number is out of its range")]
    Field,
    /// The nanoseconds since 1970-01-01T00:00:00Z don't fit 64 bits.
    #[error("the date is out of range")]
    OutOfRange,
}
