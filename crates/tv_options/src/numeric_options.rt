//! Options of a field of numbers of 64 bits or booleans.

ghost use Rattle.std.specs.Prelude.{◌≡◌, ◌&&◌, true};
ghost use Rattle.tv_options.specs.NumericOptions.{only_coerce};

use crate::flag_options::FlagOptions;
pub use crate::flag_options::NumericOptions;
use crate::flags::CoerceFlag;
use crate::own_part::Coercion;

impl NumericOptions {
    /// Options of these parts (not in tantivy).
    pub fn from_parts(
        indexed: bool,
        fieldnorms: bool,
        fast: bool,
        stored: bool,
        coerce: bool,
    ) -> NumericOptions
        ensures { result ≡ record {
          indexed = indexed;
          fieldnorms = fieldnorms;
          fast = fast;
          stored = stored;
          part = record { coerce = coerce };
        } }
    {
        FlagOptions {
            indexed,
            fieldnorms,
            fast,
            stored,
            part: Coercion { coerce },
        }
    }

    /// Whether field norms are kept: they were asked for, and the values are searchable.
    pub fn fieldnorms(&self) -> bool
        ensures { result ≡ (self.now.fieldnorms && self.now.indexed) }
    {
        self.fieldnorms && self.indexed
    }

    /// Whether a JSON text that encodes a value is taken for it.
    pub fn should_coerce(&self) -> bool
        ensures { result ≡ self.now.part.coerce }
    {
        self.part.coerce
    }

    /// The same options, with field norms.
    #[must_use]
    pub fn set_fieldnorm(self) -> NumericOptions
        ensures { result ≡ record self { fieldnorms = true } }
    {
        self.with_fieldnorms()
    }

    /// The same options, with JSON texts taken for the values that they encode.
    #[must_use]
    pub fn set_coerce(mut self) -> NumericOptions
        ensures { result ≡ record self { part = record { coerce = true } } }
    {
        self.part.coerce = true;
        self
    }
}

impl From<CoerceFlag> for NumericOptions {
    ghost from_gives = { λ _ options. options ≡ only_coerce };

    /// Coercion alone.
    fn from(_: CoerceFlag) -> NumericOptions {
        NumericOptions::default().set_coerce()
    }
}
