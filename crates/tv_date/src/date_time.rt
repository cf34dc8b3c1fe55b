//! Dates, and to which part of a second they are kept.

ghost use Rattle.std.specs.Prelude.{◌≡◌, ◌++◌, pos, ◌*ℤ◌, FitsSigned, IsSome, MatchOption, IfOk, Some, OnErr, OnOk, string_bytes};
ghost use Rattle.std.specs.Int.{w64};
ghost use Rattle.std.specs.Result.{result_map_both};
ghost use Rattle.tv_date.specs.DateTime.{unit_of, truncated};
ghost use Rattle.tv_date.specs.Rfc3339.{rfc};
ghost use Rattle.tv_date.specs.Printed.{IsPrinted, moment_text};

use crate::rfc3339::{DateError, read_fields};
use jiff_core::Timestamp;
use jiff_fmt::temporal::DateTimePrinter;
use std::alloc::{AllocError, Global};
use std::fmt;

/// To which part of a second dates are kept in a fast field, from the coarsest to the finest. By default to the second.
#[derive(Clone, Copy, Debug, Default, PartialEq, Eq, PartialOrd, Ord, Hash)]
pub enum DateTimePrecision {
    /// Whole seconds.
    #[default]
    Seconds,
    /// Thousandths of a second.
    Milliseconds,
    /// Millionths of a second.
    Microseconds,
    /// Billionths of a second.
    Nanoseconds,
}

impl DateTimePrecision {
    // How many nanoseconds there are to one of these.
    const fn unit(self) -> i64
        ensures { result ≡ pos (unit_of self) }
    {
        match self {
            DateTimePrecision::Seconds => 1_000_000_000,
            DateTimePrecision::Milliseconds => 1_000_000,
            DateTimePrecision::Microseconds => 1_000,
            DateTimePrecision::Nanoseconds => 1,
        }
    }
}

/// To which part of a second dates are indexed.
pub const DATE_TIME_PRECISION_INDEXED: DateTimePrecision = DateTimePrecision::Seconds;

/// A moment, as the nanoseconds since 1970-01-01T00:00:00Z in 64 bits: from 1677-09-21 to 2262-04-11. Moments are ordered in
/// time.
#[derive(Clone, Copy, PartialEq, Eq, PartialOrd, Ord, Hash)]
pub struct DateTime {
    nanoseconds: i64,
}

impl DateTime {
    /// The moment this many nanoseconds after 1970-01-01T00:00:00Z.
    pub const fn from_timestamp_nanos(nanoseconds: i64) -> DateTime
        ensures { result.nanoseconds ≡ nanoseconds }
    {
        DateTime { nanoseconds }
    }

    /// The moment this many microseconds after 1970-01-01T00:00:00Z, or `None` exactly where its nanoseconds don't fit 64 bits.
    pub const fn from_timestamp_micros(microseconds: i64) -> Option<DateTime>
        ensures { MatchOption result (¬ FitsSigned w64 (microseconds *ℤ pos 1000))
            (λ date. date.nanoseconds ≡ microseconds *ℤ pos 1000) }
    {
        match microseconds.checked_mul(1000) {
            Some(nanoseconds) => Some(DateTime { nanoseconds }),
            None => None,
        }
    }

    /// The nanoseconds since 1970-01-01T00:00:00Z.
    pub const fn into_timestamp_nanos(self) -> i64
        ensures { result ≡ self.nanoseconds }
    {
        self.nanoseconds
    }

    /// The moment cut to whole units of the precision, towards 1970-01-01T00:00:00Z: -1500000000 nanoseconds become
    /// -1000000000 where the unit is the second.
    pub const fn truncate(self, precision: DateTimePrecision) -> DateTime
        ensures { result.nanoseconds ≡ truncated precision self.nanoseconds }
    {
        let unit = precision.unit();
        DateTime {
            nanoseconds: self.nanoseconds / unit * unit,
        }
    }

    /// The moment that a text writes by RFC 3339: a date, `T` or `t`, hour, minute and second, perhaps a fraction of any length,
    /// of which nine digits count, and `Z`, `z` or an offset, as in `1985-04-12T23:20:50.52+02:00`. Errors, the first that holds:
    /// - `Shape`: the text isn't of this shape, as with a space for the `T`,
    /// - `Field`: a number is out of its range, as month 13, 30 February, or second 60,
    /// - `OutOfRange`: the moment's nanoseconds don't fit 64 bits.
    pub fn from_rfc3339(text: &str) -> Result<DateTime, DateError>
        ensures { result_map_both (λ d. d.nanoseconds) (λ e. e) result ≡ rfc text.now }
    {
        let Some(fields) = read_fields(text.as_bytes()) else {
            return Err(DateError::Shape);
        };
        if !fields.is_valid() {
            return Err(DateError::Field);
        }
        match i64::try_from(fields.instant()) {
            Ok(nanoseconds) => Ok(DateTime { nanoseconds }),
            Err(_) => Err(DateError::OutOfRange),
        }
    }

    /// The moment's text by RFC 3339, in UTC, with a `T`, a `Z` and the fewest digits of a fraction that tell it, as in
    /// `1985-04-12T21:20:50.52Z`. Errors: memory was refused.
    pub fn write_rfc3339(self, alloc: Global) -> Result<String, AllocError>
        ensures shown { IfOk result (λ text. IsPrinted self.nanoseconds (string_bytes text)) }
        ensures text { IfOk result (λ text. string_bytes text ≡ moment_text self.nanoseconds) }
    {
        let mut text = String::new(alloc);
        self.push_rfc3339(&mut text)?;
        Ok(text)
    }

    /// Adds the text of `write_rfc3339` to a text (not in tantivy). The only error is that memory was refused, and then the text is as it was.
    pub fn push_rfc3339(self, text: &mut String) -> Result<(), AllocError>
        ensures shown { IsPrinted self.nanoseconds (moment_text self.nanoseconds) }
        ensures ok { OnOk result
            (string_bytes text.new ≡ string_bytes text.old ++ moment_text self.nanoseconds) }
        ensures err { OnErr result (string_bytes text.new ≡ string_bytes text.old) }
    {
        let printed = DateTimePrinter::new().timestamp_text(self.moment());
        text.push_str(printed.as_str())
    }

    // The same moment, as the library of dates has it.
    fn moment(self) -> Timestamp
        ensures { result.nanosecond ≡ self.nanoseconds }
    {
        match Timestamp::from_nanosecond(self.nanoseconds as i128) {
            Ok(moment) => moment,
            Err(_) => unreachable!(),
        }
    }
}

/// Prints the text of `write_rfc3339`.
impl fmt::Debug for DateTime {
    ghost debug_output = { λ date. Some (moment_text date.nanoseconds) };

    fn fmt<W: fmt::Write>(&self, f: &mut fmt::Formatter<W>) -> fmt::Result {
        let printed = DateTimePrinter::new().timestamp_text(self.moment());
        f.write_str(printed.as_str())
    }
}
