//! What the options of a field of texts and those of a field of JSON objects share.

ghost use Rattle.std.specs.Prelude.{◌≡◌, true, IfOk, IsOk, None, Some};
ghost use Rattle.std.specs.Option.{option_copied};
ghost use Rattle.tv_options.specs.declared.textual_options.TextualOptions.{TextualOptions};
ghost use Rattle.tv_options.specs.FastFieldTextOptions.{is_fast_field, tokenizer_of, fast_by};
ghost use Rattle.tv_options.specs.TextualOptions.{none, only_stored, only_fast, join};

use crate::flags::{FastFlag, SchemaFlagList, StoredFlag};
use crate::own_part::{Coercion, DotExpansion, OwnPart};
use crate::text_options::{FastFieldTextOptions, TextFieldIndexing};
use std::alloc::{AllocError, Global};
use std::ops::BitOr;

/// How a field of texts, or of JSON objects with texts in them, is kept: how the texts are indexed, two flags, and the part
/// that is the type's own. By default nothing is indexed, no flag is set and there is no fast field.
///
/// Options are joined by `|` with whatever converts into them: other options of the type, flags that it admits, or a list of
/// flags.
#[derive(Debug, Drop, PartialEq, Eq)]
pub struct TextualOptions<Part> {
    pub(crate) indexing: Option<TextFieldIndexing>,
    pub(crate) stored: bool,
    pub(crate) fast: FastFieldTextOptions,
    pub(crate) part: Part,
}

impl<Part: OwnPart> Default for TextualOptions<Part> {
    ghost is_default = { λ options. options ≡ none Part.unset };

    /// Not indexed, not stored and without a fast field.
    fn default() -> TextualOptions<Part> {
        TextualOptions {
            indexing: None,
            stored: false,
            fast: FastFieldTextOptions::default(),
            part: Part::unset(),
        }
    }
}

/// How a field of texts is kept. By default texts aren't indexed, no flag is set and there is no fast field.
pub type TextOptions = TextualOptions<Coercion>;

/// How a field of JSON objects is kept. By default nothing of them is indexed, no flag is set and there is no fast field.
pub type JsonObjectOptions = TextualOptions<DotExpansion>;

impl<Part: OwnPart> TextualOptions<Part> {
    /// Whether the values are kept in the document store.
    pub fn is_stored(&self) -> bool
        ensures { result ≡ self.now.stored }
    {
        self.stored
    }

    /// Whether there is a fast field, with or without a tokenizer for texts.
    pub fn is_fast(&self) -> bool
        ensures { result ≡ is_fast_field self.now.fast }
    {
        self.fast.is_fast()
    }

    /// The name of the fast field's tokenizer, or `None` where there is no fast field or it has whole texts.
    pub fn get_fast_field_tokenizer_name(&self) -> Option<&str>
        ensures { option_copied result ≡ tokenizer_of self.now.fast }
    {
        self.fast.tokenizer_name()
    }

    /// The same options, with the values kept in the document store.
    #[must_use]
    pub fn set_stored(mut self) -> TextualOptions<Part>
        ensures { result ≡ record self { stored = true } }
    {
        self.stored = true;
        self
    }

    /// The same options, with texts indexed so.
    #[must_use]
    pub fn set_indexing_options(mut self, indexing: TextFieldIndexing) -> TextualOptions<Part>
        ensures { result ≡ record self { indexing = Some indexing } }
    {
        self.indexing = Some(indexing);
        self
    }

    /// The same options, with a fast field: texts by the tokenizer of this name, or whole where no name is given. The only
    /// error is that memory is refused for a name, and then the options are given up.
    pub fn set_fast(
        mut self,
        alloc: Global,
        tokenizer_name: Option<&str>,
    ) -> Result<TextualOptions<Part>, AllocError>
        ensures fast { IfOk result
            (λ options. options
            ≡ record self { fast = fast_by (option_copied tokenizer_name.entry) }) }
        ensures plain { option_copied tokenizer_name.entry ≡ None → IsOk result }
    {
        self.fast = FastFieldTextOptions::enabled(alloc, tokenizer_name)?;
        Ok(self)
    }

    /// A copy. The only error is that memory is refused.
    pub fn try_clone(&self, alloc: Global) -> Result<TextualOptions<Part>, AllocError>
        ensures { IfOk result (λ copy. copy ≡ self.now) }
    {
        let indexing = match &self.indexing {
            Some(indexing) => Some(indexing.try_clone(alloc)?),
            None => None,
        };
        Ok(TextualOptions {
            indexing,
            stored: self.stored,
            fast: self.fast.try_clone(alloc)?,
            part: self.part,
        })
    }
}

impl<Part: OwnPart> From<()> for TextualOptions<Part> {
    ghost from_gives = { λ _ options. options ≡ none Part.unset };

    /// The default.
    fn from(_: ()) -> TextualOptions<Part> {
        TextualOptions::default()
    }
}

impl<Part: OwnPart> From<StoredFlag> for TextualOptions<Part> {
    ghost from_gives = { λ _ options. options ≡ only_stored Part.unset };

    /// Stored alone.
    fn from(_: StoredFlag) -> TextualOptions<Part> {
        TextualOptions::default().set_stored()
    }
}

impl<Part: OwnPart> From<FastFlag> for TextualOptions<Part> {
    ghost from_gives = { λ _ options. options ≡ only_fast Part.unset };

    /// A fast field of whole texts alone.
    fn from(_: FastFlag) -> TextualOptions<Part> {
        let mut options = TextualOptions::default();
        options.fast = FastFieldTextOptions::IsEnabled(true);
        options
    }
}

impl<Part: OwnPart, Head: Into<TextualOptions<Part>>, Tail: Into<TextualOptions<Part>>> From<
    SchemaFlagList<Head, Tail>,
> for TextualOptions<Part> {
    ghost from_gives = { λ list options. (head : TextualOptions Part) × (tail : TextualOptions Part)
        × Head.converts list.head head × Tail.converts list.tail tail
        × (options ≡ join Part.join head tail) };

    /// The options of the first flag, joined with those of the others.
    fn from(list: SchemaFlagList<Head, Tail>) -> TextualOptions<Part> {
        let head: TextualOptions<Part> = list.head.into();
        let tail: TextualOptions<Part> = list.tail.into();
        head | tail
    }
}

impl<Part: OwnPart, T: Into<TextualOptions<Part>>> BitOr<T> for TextualOptions<Part> {
    type Output = TextualOptions<Part>;

    ghost bitor_gives = { λ left right joined. (other : TextualOptions Part)
        × T.converts right other × (joined ≡ join Part.join left other) };

    /// The left indexing, else the right one; the left tokenizer of the fast field, else the right one; and what is set
    /// on the left or on the right.
    fn bitor(self, right: T) -> TextualOptions<Part> {
        let other: TextualOptions<Part> = right.into();
        TextualOptions {
            indexing: self.indexing.or(other.indexing),
            stored: self.stored | other.stored,
            fast: self.fast | other.fast,
            part: self.part.join(other.part),
        }
    }
}

impl<Part: OwnPart, T: Into<TextualOptions<Part>>> BitOr<TextualOptions<Part>>
    for SchemaFlagList<T, ()> {
    type Output = TextualOptions<Part>;

    ghost bitor_gives = { λ flag right joined. (left : TextualOptions Part)
        × T.converts flag.head left × (joined ≡ join Part.join left right) };

    /// The options of the flag, joined with those on the right.
    fn bitor(self, right: TextualOptions<Part>) -> TextualOptions<Part> {
        let left: TextualOptions<Part> = self.head.into();
        left | right
    }
}
