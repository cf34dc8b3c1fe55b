//! Options of a field of dates.

ghost use Rattle.std.specs.Prelude.{◌≡◌, ◌&&◌, true};

pub use crate::flag_options::DateOptions;
use crate::flag_options::FlagOptions;
use tv_date::DateTimePrecision;

impl DateOptions {
    /// Options of these parts (not in tantivy).
    pub fn from_parts(
        indexed: bool,
        fieldnorms: bool,
        fast: bool,
        stored: bool,
        precision: DateTimePrecision,
    ) -> DateOptions
        ensures { result ≡ record {
          indexed = indexed;
          fieldnorms = fieldnorms;
          fast = fast;
          stored = stored;
          part = precision;
        } }
    {
        FlagOptions {
            indexed,
            fieldnorms,
            fast,
            stored,
            part: precision,
        }
    }

    /// Whether field norms are kept: they were asked for, and the values are searchable.
    pub fn fieldnorms(&self) -> bool
        ensures { result ≡ (self.now.fieldnorms && self.now.indexed) }
    {
        self.fieldnorms && self.indexed
    }

    /// To which part of a second dates are kept in the fast field.
    pub fn get_precision(&self) -> DateTimePrecision
        ensures { result ≡ self.now.part }
    {
        self.part
    }

    /// The same options, with field norms.
    #[must_use]
    pub fn set_fieldnorm(self) -> DateOptions
        ensures { result ≡ record self { fieldnorms = true } }
    {
        self.with_fieldnorms()
    }

    /// The same options, with this precision.
    #[must_use]
    pub fn set_precision(mut self, precision: DateTimePrecision) -> DateOptions
        ensures { result ≡ record self { part = precision } }
    {
        self.part = precision;
        self
    }
}
