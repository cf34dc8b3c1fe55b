//! Options of a field of JSON objects.

ghost use Rattle.std.specs.Prelude.{◌≡◌, true, is_some};
ghost use Rattle.std.specs.Option.{option_copied};
ghost use Rattle.tv_options.specs.JsonObjectOptions.{of_text};

use crate::own_part::DotExpansion;
use crate::text_options::{FastFieldTextOptions, TextFieldIndexing, TextOptions};
pub use crate::textual_options::JsonObjectOptions;
use crate::textual_options::TextualOptions;

impl JsonObjectOptions {
    /// Options of these parts (not in tantivy).
    pub fn from_parts(
        stored: bool,
        indexing: Option<TextFieldIndexing>,
        fast: FastFieldTextOptions,
        expand_dots_enabled: bool,
    ) -> JsonObjectOptions
        ensures { result ≡ record {
          indexing = indexing;
          stored = stored;
          fast = fast;
          part = record { expand_dots_enabled = expand_dots_enabled };
        } }
    {
        TextualOptions {
            indexing,
            stored,
            fast,
            part: DotExpansion {
                expand_dots_enabled,
            },
        }
    }

    /// Whether the values inside the objects can be searched for.
    pub fn is_indexed(&self) -> bool
        ensures { result ≡ is_some self.now.indexing }
    {
        self.indexing.is_some()
    }

    /// How the texts inside the objects are indexed, or `None` where nothing is indexed.
    pub fn get_text_indexing_options(&self) -> Option<&TextFieldIndexing>
        ensures { option_copied result ≡ self.now.indexing }
    {
        self.indexing.as_ref()
    }

    /// Whether a dot in a key parts it, as if objects stood in one another: `{"a.b": 5}` as `{"a": {"b": 5}}`.
    pub fn is_expand_dots_enabled(&self) -> bool
        ensures { result ≡ self.now.part.expand_dots_enabled }
    {
        self.part.expand_dots_enabled
    }

    /// The same options, with dots parting keys.
    #[must_use]
    pub fn set_expand_dots_enabled(mut self) -> JsonObjectOptions
        ensures { result ≡ record self { part = record { expand_dots_enabled = true } } }
    {
        self.part.expand_dots_enabled = true;
        self
    }
}

impl From<TextOptions> for JsonObjectOptions {
    ghost from_gives = { λ text options. options ≡ of_text text };

    /// Stored, indexed and fast as the texts are, with dots in keys as they stand.
    fn from(text: TextOptions) -> JsonObjectOptions {
        JsonObjectOptions::from_parts(text.stored, text.indexing, text.fast, false)
    }
}
