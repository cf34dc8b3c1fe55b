//! Options of a field of texts, and how much an index keeps of a term's occurrences.

ghost use Rattle.std.specs.Prelude.{◌≡◌, true, IfOk, IsOk, None, nat_le, min};
ghost use Rattle.std.specs.Option.{option_copied};
ghost use Rattle.tv_options.specs.declared.text_options.FastFieldTextOptions.TheVariants as fast_field;
ghost use Rattle.tv_options.specs.FastFieldTextOptions.{join_fast, is_fast_field, tokenizer_of, fast_by};
ghost use Rattle.tv_options.specs.TextFieldIndexing.{default_indexing};
ghost use Rattle.tv_options.specs.TextOptions.{only_coerce};
ghost use Rattle.tv_options.specs.IndexRecordOption.{rank};

use crate::flags::CoerceFlag;
use crate::own_part::Coercion;
pub use crate::textual_options::TextOptions;
use crate::textual_options::TextualOptions;
use crate::tokenizer_name::TokenizerName;
use std::alloc::{AllocError, Global};
use std::borrow::CowStr;
use std::ops::BitOr;

/// What an index keeps of each term, from the least to the most.
#[derive(Clone, Copy, Debug, Default, PartialEq, Eq, PartialOrd, Ord, Hash)]
pub enum IndexRecordOption {
    /// The documents alone.
    #[default]
    Basic,
    /// The documents, and how often the term stands in each.
    WithFreqs,
    /// The documents, and how often and where the term stands in each.
    WithFreqsAndPositions,
}

impl IndexRecordOption {
    /// Whether it is kept how often the term stands in a document.
    pub fn has_freq(self) -> bool
        ensures { result ≡ nat_le 1 (rank self) }
    {
        match self {
            IndexRecordOption::Basic => false,
            IndexRecordOption::WithFreqs | IndexRecordOption::WithFreqsAndPositions => true,
        }
    }

    /// Whether it is kept where the term stands in a document.
    pub fn has_positions(self) -> bool
        ensures { result ≡ nat_le 2 (rank self) }
    {
        match self {
            IndexRecordOption::Basic | IndexRecordOption::WithFreqs => false,
            IndexRecordOption::WithFreqsAndPositions => true,
        }
    }

    /// The lesser of the two.
    #[must_use]
    pub fn downgrade(&self, other: IndexRecordOption) -> IndexRecordOption
        ensures { rank result ≡ min (rank self.now) (rank other) }
    {
        match (*self, other) {
            (IndexRecordOption::WithFreqsAndPositions, other) => other,
            (own, IndexRecordOption::WithFreqsAndPositions) => own,
            (IndexRecordOption::WithFreqs, IndexRecordOption::WithFreqs) => {
                IndexRecordOption::WithFreqs
            }
            _ => IndexRecordOption::Basic,
        }
    }
}

/// Whether texts have a fast field, and by which tokenizer. By default they have none.
#[derive(Debug, Drop, PartialEq, Eq)]
pub enum FastFieldTextOptions {
    /// Whether there is one, of whole texts.
    IsEnabled(bool),
    /// There is one, of the tokens of a tokenizer.
    EnabledWithTokenizer {
        /// The tokenizer.
        with_tokenizer: TokenizerName,
    },
}

impl Default for FastFieldTextOptions {
    ghost use Rattle.std.specs.Prelude.{false};

    ghost is_default = { λ fast. fast ≡ fast_field.IsEnabled false };

    /// None.
    fn default() -> FastFieldTextOptions {
        FastFieldTextOptions::IsEnabled(false)
    }
}

impl FastFieldTextOptions {
    /// A copy. The only error is that memory is refused.
    pub fn try_clone(&self, alloc: Global) -> Result<FastFieldTextOptions, AllocError>
        ensures { IfOk result (λ copy. copy ≡ self.now) }
    {
        match self {
            FastFieldTextOptions::IsEnabled(enabled) => {
                Ok(FastFieldTextOptions::IsEnabled(*enabled))
            }
            FastFieldTextOptions::EnabledWithTokenizer { with_tokenizer } => {
                Ok(FastFieldTextOptions::EnabledWithTokenizer {
                    with_tokenizer: with_tokenizer.try_clone(alloc)?,
                })
            }
        }
    }

    // Whether there is a fast field.
    pub(crate) fn is_fast(&self) -> bool
        ensures { result ≡ is_fast_field self.now }
    {
        match self {
            FastFieldTextOptions::IsEnabled(enabled) => *enabled,
            FastFieldTextOptions::EnabledWithTokenizer { .. } => true,
        }
    }

    // The tokenizer's name, where there is one.
    pub(crate) fn tokenizer_name(&self) -> Option<&str>
        ensures { option_copied result ≡ tokenizer_of self.now }
    {
        match self {
            FastFieldTextOptions::IsEnabled(_) => None,
            FastFieldTextOptions::EnabledWithTokenizer { with_tokenizer } => {
                Some(with_tokenizer.name())
            }
        }
    }

    // A fast field by this tokenizer, or of whole texts. The only error is that memory is refused for the name.
    pub(crate) fn enabled(
        alloc: Global,
        tokenizer_name: Option<&str>,
    ) -> Result<FastFieldTextOptions, AllocError>
        ensures fast { IfOk result (λ fast. fast ≡ fast_by (option_copied tokenizer_name.entry)) }
        ensures plain { option_copied tokenizer_name.entry ≡ None → IsOk result }
    {
        match tokenizer_name {
            Some(name) => Ok(FastFieldTextOptions::EnabledWithTokenizer {
                with_tokenizer: TokenizerName::from_name(alloc, name)?,
            }),
            None => Ok(FastFieldTextOptions::IsEnabled(true)),
        }
    }
}

impl BitOr for FastFieldTextOptions {
    type Output = FastFieldTextOptions;

    ghost bitor_gives = { λ left right joined. joined ≡ join_fast left right };

    /// The left tokenizer, else the right one, else whether either has a fast field.
    fn bitor(self, right: FastFieldTextOptions) -> FastFieldTextOptions {
        match (self, right) {
            (FastFieldTextOptions::EnabledWithTokenizer { with_tokenizer }, _)
            | (_, FastFieldTextOptions::EnabledWithTokenizer { with_tokenizer }) => {
                FastFieldTextOptions::EnabledWithTokenizer { with_tokenizer }
            }
            (FastFieldTextOptions::IsEnabled(left), FastFieldTextOptions::IsEnabled(right)) => {
                FastFieldTextOptions::IsEnabled(left | right)
            }
        }
    }
}

/// How texts are indexed. By default the tokenizer is `default`, the documents alone are kept, and field norms are.
#[derive(Debug, PartialEq, Eq)]
pub struct TextFieldIndexing {
    record: IndexRecordOption,
    fieldnorms: bool,
    tokenizer: TokenizerName,
}

// By hand, so that it is dropped by one call.
impl Drop for TextFieldIndexing {
    fn drop(self) {
        let TextFieldIndexing {
            record: _,
            fieldnorms: _,
            tokenizer: _,
        } = self;
    }
}

impl Default for TextFieldIndexing {
    ghost is_default = { λ indexing. indexing ≡ default_indexing };

    /// The tokenizer `default`, the documents alone, with field norms.
    fn default() -> TextFieldIndexing {
        TextFieldIndexing {
            record: IndexRecordOption::Basic,
            fieldnorms: true,
            tokenizer: TokenizerName::default(),
        }
    }
}

impl TextFieldIndexing {
    /// The name of the tokenizer.
    pub fn tokenizer(&self) -> &str
        ensures { result.now ≡ self.now.tokenizer }
    {
        self.tokenizer.name()
    }

    /// Whether field norms are kept.
    pub fn fieldnorms(&self) -> bool
        ensures { result ≡ self.now.fieldnorms }
    {
        self.fieldnorms
    }

    /// What is kept of each token.
    pub fn index_option(&self) -> IndexRecordOption
        ensures { result ≡ self.now.record }
    {
        self.record
    }

    /// The same indexing, with or without field norms.
    #[must_use]
    pub fn set_fieldnorms(mut self, fieldnorms: bool) -> TextFieldIndexing
        ensures { result ≡ record self { fieldnorms = fieldnorms } }
    {
        self.fieldnorms = fieldnorms;
        self
    }

    /// The same indexing, where this is kept of each token.
    #[must_use]
    pub fn set_index_option(mut self, index_option: IndexRecordOption) -> TextFieldIndexing
        ensures { result ≡ record self { «record» = index_option } }
    {
        self.record = index_option;
        self
    }

    /// The same indexing, by the tokenizer of this name. The only error is that memory is refused, and then the
    /// indexing is given up.
    pub fn set_tokenizer(
        mut self,
        alloc: Global,
        tokenizer_name: &str,
    ) -> Result<TextFieldIndexing, AllocError>
        ensures { IfOk result
            (λ indexing. indexing ≡ record self { tokenizer = tokenizer_name.now }) }
    {
        self.tokenizer = TokenizerName::from_name(alloc, tokenizer_name)?;
        Ok(self)
    }

    /// A copy. The only error is that memory is refused.
    pub fn try_clone(&self, alloc: Global) -> Result<TextFieldIndexing, AllocError>
        ensures { IfOk result (λ copy. copy ≡ self.now) }
    {
        Ok(TextFieldIndexing {
            record: self.record,
            fieldnorms: self.fieldnorms,
            tokenizer: self.tokenizer.try_clone(alloc)?,
        })
    }
}

impl TextOptions {
    /// Options of these parts (not in tantivy).
    pub fn from_parts(
        indexing: Option<TextFieldIndexing>,
        stored: bool,
        fast: FastFieldTextOptions,
        coerce: bool,
    ) -> TextOptions
        ensures { result ≡ record {
          indexing = indexing;
          stored = stored;
          fast = fast;
          part = record { coerce = coerce };
        } }
    {
        TextualOptions {
            indexing,
            stored,
            fast,
            part: Coercion { coerce },
        }
    }

    /// How texts are indexed, or `None` where they aren't.
    pub fn get_indexing_options(&self) -> Option<&TextFieldIndexing>
        ensures { option_copied result ≡ self.now.indexing }
    {
        self.indexing.as_ref()
    }

    /// Whether JSON values of another kind are taken as texts.
    pub fn should_coerce(&self) -> bool
        ensures { result ≡ self.now.part.coerce }
    {
        self.part.coerce
    }

    /// The same options, with JSON values of another kind taken as texts.
    #[must_use]
    pub fn set_coerce(mut self) -> TextOptions
        ensures { result ≡ record self { part = record { coerce = true } } }
    {
        self.part.coerce = true;
        self
    }
}

/// A text is indexed as one token (the tokenizer `raw`), of which the documents alone are kept, with field norms.
pub const STRING: TextOptions = TextualOptions {
    indexing: Some(TextFieldIndexing {
        record: IndexRecordOption::Basic,
        fieldnorms: true,
        tokenizer: TokenizerName {
            text: CowStr::Borrowed("raw"),
        },
    }),
    stored: false,
    fast: FastFieldTextOptions::IsEnabled(false),
    part: Coercion { coerce: false },
};

/// A text is indexed word by word (the tokenizer `default`), with frequencies, positions and field norms.
pub const TEXT: TextOptions = TextualOptions {
    indexing: Some(TextFieldIndexing {
        record: IndexRecordOption::WithFreqsAndPositions,
        fieldnorms: true,
        tokenizer: TokenizerName {
            text: CowStr::Borrowed("default"),
        },
    }),
    stored: false,
    fast: FastFieldTextOptions::IsEnabled(false),
    part: Coercion { coerce: false },
};

impl From<CoerceFlag> for TextOptions {
    ghost from_gives = { λ _ options. options ≡ only_coerce };

    /// Coercion alone.
    fn from(_: CoerceFlag) -> TextOptions {
        TextOptions::default().set_coerce()
    }
}
