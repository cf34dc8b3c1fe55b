//! Options made of four flags and a part that is the type's own.

ghost use Rattle.std.specs.Prelude.{◌≡◌, true};
ghost use Rattle.tv_options.specs.declared.flag_options.FlagOptions.{FlagOptions};
ghost use Rattle.tv_options.specs.FlagOptions.{join, none, only_stored, only_indexed, only_fast};

use crate::flags::{FastFlag, IndexedFlag, SchemaFlagList, StoredFlag};
use crate::own_part::{Coercion, OfBytes, OfIpAddrs, OwnPart, PlainPart};
use std::ops::BitOr;
use tv_date::DateTimePrecision;

/// How the values of a field are kept: four flags, and the part that is the type's own. By default no flag is set.
///
/// Options are joined by `|` with whatever converts into them: other options of the type, flags that it admits, or a list of
/// flags.
#[derive(Clone, Copy, Debug, PartialEq, Eq)]
pub struct FlagOptions<Part> {
    pub(crate) indexed: bool,
    pub(crate) fieldnorms: bool,
    pub(crate) fast: bool,
    pub(crate) stored: bool,
    pub(crate) part: Part,
}

/// How a field of numbers of 64 bits or booleans is kept. By default no flag is set.
pub type NumericOptions = FlagOptions<Coercion>;

/// How a field of dates is kept. By default no flag is set and the precision is seconds.
///
/// Options that are joined have the precision of the left ones; that of a flag is seconds.
pub type DateOptions = FlagOptions<DateTimePrecision>;

/// How a field of bytes is kept. By default no flag is set.
pub type BytesOptions = FlagOptions<OfBytes>;

/// How a field of IP addresses is kept. By default no flag is set.
pub type IpAddrOptions = FlagOptions<OfIpAddrs>;

impl<Part: OwnPart> FlagOptions<Part> {
    /// Whether the values are kept in the document store.
    pub fn is_stored(&self) -> bool
        ensures { result ≡ self.now.stored }
    {
        self.stored
    }

    /// Whether the values can be searched for.
    pub fn is_indexed(&self) -> bool
        ensures { result ≡ self.now.indexed }
    {
        self.indexed
    }

    /// Whether there is a fast field: the values in a column, for access by document.
    pub fn is_fast(&self) -> bool
        ensures { result ≡ self.now.fast }
    {
        self.fast
    }

    /// Whether field norms were asked for, also where the values aren't searchable (not in tantivy).
    pub fn asks_for_fieldnorms(&self) -> bool
        ensures { result ≡ self.now.fieldnorms }
    {
        self.fieldnorms
    }

    /// The same options, with the values kept in the document store.
    #[must_use]
    pub fn set_stored(mut self) -> FlagOptions<Part>
        ensures { result ≡ record self { stored = true } }
    {
        self.stored = true;
        self
    }

    /// The same options, with the values searchable.
    #[must_use]
    pub fn set_indexed(mut self) -> FlagOptions<Part>
        ensures { result ≡ record self { indexed = true } }
    {
        self.indexed = true;
        self
    }

    /// The same options, with a fast field.
    #[must_use]
    pub fn set_fast(mut self) -> FlagOptions<Part>
        ensures { result ≡ record self { fast = true } }
    {
        self.fast = true;
        self
    }

    // The same options, with field norms.
    #[must_use]
    pub(crate) fn with_fieldnorms(mut self) -> FlagOptions<Part>
        ensures { result ≡ record self { fieldnorms = true } }
    {
        self.fieldnorms = true;
        self
    }
}

// Options of bytes and of IP addresses.
impl<Part: PlainPart> FlagOptions<Part> {
    /// Options of these parts (not in tantivy).
    pub fn from_parts(
        indexed: bool,
        fieldnorms: bool,
        fast: bool,
        stored: bool,
    ) -> FlagOptions<Part>
        ensures { result ≡ record {
          indexed = indexed;
          fieldnorms = fieldnorms;
          fast = fast;
          stored = stored;
          part = Part.unset;
        } }
    {
        FlagOptions {
            indexed,
            fieldnorms,
            fast,
            stored,
            part: Part::unset(),
        }
    }

    /// Whether field norms were asked for, also where the values aren't searchable.
    pub fn fieldnorms(&self) -> bool
        ensures { result ≡ self.now.fieldnorms }
    {
        self.asks_for_fieldnorms()
    }

    /// The same options, with field norms.
    #[must_use]
    pub fn set_fieldnorms(self) -> FlagOptions<Part>
        ensures { result ≡ record self { fieldnorms = true } }
    {
        self.with_fieldnorms()
    }
}

impl<Part: OwnPart> Default for FlagOptions<Part> {
    ghost is_default = { λ options. options ≡ none Part.unset };

    /// No flag is set.
    fn default() -> FlagOptions<Part> {
        FlagOptions {
            indexed: false,
            fieldnorms: false,
            fast: false,
            stored: false,
            part: Part::unset(),
        }
    }
}

impl<Part: OwnPart> From<()> for FlagOptions<Part> {
    ghost from_gives = { λ _ options. options ≡ none Part.unset };

    /// The default.
    fn from(_: ()) -> FlagOptions<Part> {
        FlagOptions::default()
    }
}

impl<Part: OwnPart> From<StoredFlag> for FlagOptions<Part> {
    ghost from_gives = { λ _ options. options ≡ only_stored Part.unset };

    /// Stored alone.
    fn from(_: StoredFlag) -> FlagOptions<Part> {
        FlagOptions::default().set_stored()
    }
}

impl<Part: OwnPart> From<IndexedFlag> for FlagOptions<Part> {
    ghost from_gives = { λ _ options. options ≡ only_indexed Part.unset };

    /// Searchable, with field norms.
    fn from(_: IndexedFlag) -> FlagOptions<Part> {
        FlagOptions::default().set_indexed().with_fieldnorms()
    }
}

impl<Part: OwnPart> From<FastFlag> for FlagOptions<Part> {
    ghost from_gives = { λ _ options. options ≡ only_fast Part.unset };

    /// A fast field alone.
    fn from(_: FastFlag) -> FlagOptions<Part> {
        FlagOptions::default().set_fast()
    }
}

impl<Part: OwnPart, Head: Into<FlagOptions<Part>>, Tail: Into<FlagOptions<Part>>> From<
    SchemaFlagList<Head, Tail>,
> for FlagOptions<Part> {
    ghost from_gives = { λ list options. (head : FlagOptions Part) × (tail : FlagOptions Part)
        × Head.converts list.head head × Tail.converts list.tail tail
        × (options ≡ join Part.join head tail) };

    /// The options of the first flag, joined with those of the others.
    fn from(list: SchemaFlagList<Head, Tail>) -> FlagOptions<Part> {
        let head: FlagOptions<Part> = list.head.into();
        let tail: FlagOptions<Part> = list.tail.into();
        head | tail
    }
}

impl<Part: OwnPart, T: Into<FlagOptions<Part>>> BitOr<T> for FlagOptions<Part> {
    type Output = FlagOptions<Part>;

    ghost bitor_gives = { λ left right joined. (other : FlagOptions Part) × T.converts right other
        × (joined ≡ join Part.join left other) };

    /// What is set on the left or on the right, and the own parts joined.
    fn bitor(self, right: T) -> FlagOptions<Part> {
        let other: FlagOptions<Part> = right.into();
        FlagOptions {
            indexed: self.indexed | other.indexed,
            fieldnorms: self.fieldnorms | other.fieldnorms,
            fast: self.fast | other.fast,
            stored: self.stored | other.stored,
            part: self.part.join(other.part),
        }
    }
}

impl<Part: OwnPart, T: Into<FlagOptions<Part>>> BitOr<FlagOptions<Part>> for SchemaFlagList<T, ()> {
    type Output = FlagOptions<Part>;

    ghost bitor_gives = { λ flag right joined. (left : FlagOptions Part) × T.converts flag.head left
        × (joined ≡ join Part.join left right) };

    /// The options of the flag, joined with those on the right.
    fn bitor(self, right: FlagOptions<Part>) -> FlagOptions<Part> {
        let left: FlagOptions<Part> = self.head.into();
        left | right
    }
}
