//! Options of a field of facets.

ghost use Rattle.std.specs.Prelude.{◌≡◌, true};
ghost use Rattle.tv_options.specs.declared.facet_options.FacetOptions.{FacetOptions};
ghost use Rattle.tv_options.specs.FacetOptions.{join, none, only_stored};

use crate::flags::{IndexedFlag, SchemaFlagList, StoredFlag};
use std::ops::BitOr;

/// How a field of facets is kept. By default no flag is set.
///
/// Facets are always searchable and always have a fast field.
#[derive(Clone, Copy, Debug, Default, PartialEq, Eq)]
pub struct FacetOptions {
    stored: bool,
}

impl FacetOptions {
    /// Options of this part (not in tantivy).
    pub fn from_parts(stored: bool) -> FacetOptions
        ensures { result ≡ record { stored = stored } }
    {
        FacetOptions { stored }
    }

    /// Whether the values are kept in the document store.
    pub fn is_stored(&self) -> bool
        ensures { result ≡ self.now.stored }
    {
        self.stored
    }

    /// The same options, with the values kept in the document store.
    #[must_use]
    pub fn set_stored(mut self) -> FacetOptions
        ensures { result ≡ record self { stored = true } }
    {
        self.stored = true;
        self
    }
}

impl From<()> for FacetOptions {
    ghost from_gives = { λ _ options. options ≡ none };

    /// The default.
    fn from(_: ()) -> FacetOptions {
        FacetOptions::default()
    }
}

impl From<StoredFlag> for FacetOptions {
    ghost from_gives = { λ _ options. options ≡ only_stored };

    /// Stored alone.
    fn from(_: StoredFlag) -> FacetOptions {
        FacetOptions::default().set_stored()
    }
}

impl From<IndexedFlag> for FacetOptions {
    ghost from_gives = { λ _ options. options ≡ none };

    /// The default: facets are searchable without it.
    fn from(_: IndexedFlag) -> FacetOptions {
        FacetOptions { stored: false }
    }
}

impl<Head: Into<FacetOptions>, Tail: Into<FacetOptions>> From<SchemaFlagList<Head, Tail>>
    for FacetOptions {
    ghost from_gives = { λ list options. (head : FacetOptions) × (tail : FacetOptions)
        × Head.converts list.head head × Tail.converts list.tail tail
        × (options ≡ join head tail) };

    /// The options of the first flag, joined with those of the others.
    fn from(list: SchemaFlagList<Head, Tail>) -> FacetOptions {
        let head: FacetOptions = list.head.into();
        let tail: FacetOptions = list.tail.into();
        head | tail
    }
}

impl<T: Into<FacetOptions>> BitOr<T> for FacetOptions {
    type Output = FacetOptions;

    ghost bitor_gives = { λ left right joined. (other : FacetOptions) × T.converts right other
        × (joined ≡ join left other) };

    /// What is set on the left or on the right.
    fn bitor(self, right: T) -> FacetOptions {
        let other: FacetOptions = right.into();
        FacetOptions {
            stored: self.stored | other.stored,
        }
    }
}
