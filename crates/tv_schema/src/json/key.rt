//! The keys of an entry's description.

ghost use Rattle.std.specs.Prelude.{◌≡◌};
ghost use Rattle.tv_schema.specs.SchemaJsonOptions.{key_name};

use std::fmt;
use std::fmt::{Display, Formatter, Write};

/// A key of an entry's description whose value is not as it has to be, or that is missing. (Not in tantivy.)
#[derive(Clone, Copy, Debug, PartialEq, Eq)]
pub enum SchemaKey {
    /// `name`: a text.
    Name,
    /// `type`: one of the words `text`, `u64`, `i64`, `bool`, `date`, `facet`, `bytes`, `json_object` and `ip_addr`.
    Type,
    /// `options`: an object.
    Options,
    /// `indexed` of the options: true or false.
    Indexed,
    /// `stored` of the options: true or false.
    Stored,
    /// `fieldnorms` of the options: true or false; of a number, a truth value or bytes also null.
    Fieldnorms,
    /// `fast` of the options of a field that has no text: true or false.
    Fast,
    /// `fast` of the options of a text or a JSON object: true, false, or an object.
    FastOfText,
    /// `coerce` of the options: true or false.
    Coerce,
    /// `precision` of a date's options: one of the words `seconds`, `milliseconds`, `microseconds` and `nanoseconds`.
    Precision,
    /// `indexing` of the options: an object or null.
    Indexing,
    /// `record` of `indexing`: one of the words `basic`, `freq` and `position`.
    Record,
    /// `fieldnorms` of `indexing`: true or false.
    IndexingFieldnorms,
    /// `tokenizer` of `indexing`: a text.
    Tokenizer,
    /// `with_tokenizer` of `fast`: a text.
    WithTokenizer,
    /// `expand_dots_enabled` of a JSON object's options: true or false.
    ExpandDots,
}

impl SchemaKey {
    /// The key as it is written, without those that it stands under.
    pub fn name(self) -> &'static str
        ensures { result.now ≡ key_name self }
    {
        match self {
            SchemaKey::Name => "name",
            SchemaKey::Type => "type",
            SchemaKey::Options => "options",
            SchemaKey::Indexed => "indexed",
            SchemaKey::Stored => "stored",
            SchemaKey::Fieldnorms | SchemaKey::IndexingFieldnorms => "fieldnorms",
            SchemaKey::Fast | SchemaKey::FastOfText => "fast",
            SchemaKey::Coerce => "coerce",
            SchemaKey::Precision => "precision",
            SchemaKey::Indexing => "indexing",
            SchemaKey::Record => "record",
            SchemaKey::Tokenizer => "tokenizer",
            SchemaKey::WithTokenizer => "with_tokenizer",
            SchemaKey::ExpandDots => "expand_dots_enabled",
        }
    }

    // What the key stands under, with a dot after each.
    fn parents(self) -> &'static str {
        match self {
            SchemaKey::Name | SchemaKey::Type | SchemaKey::Options => "",
            SchemaKey::Record | SchemaKey::IndexingFieldnorms | SchemaKey::Tokenizer => {
                "options.indexing."
            }
            SchemaKey::WithTokenizer => "options.fast.",
            _ => "options.",
        }
    }

    // What has to stand at the key.
    fn wanted(self) -> &'static str {
        match self {
            SchemaKey::Name | SchemaKey::Tokenizer | SchemaKey::WithTokenizer => "a text",
            SchemaKey::Type => {
                "text, u64, i64, bool, date, facet, bytes, json_object or ip_addr, as a text"
            }
            SchemaKey::Options => "an object",
            SchemaKey::FastOfText => "true, false or an object",
            SchemaKey::Precision => {
                "seconds, milliseconds, microseconds or nanoseconds, as a text"
            }
            SchemaKey::Indexing => "an object or null",
            SchemaKey::Record => "basic, freq or position, as a text",
            _ => "true or false",
        }
    }
}

impl Display for SchemaKey {
    fn fmt<W: Write>(&self, f: &mut Formatter<W>) -> fmt::Result {
        let key = *self;
        write!(
            f,
            "`{}{}` has to be {}",
            key.parents(),
            key.name(),
            key.wanted()
        )
    }
}
