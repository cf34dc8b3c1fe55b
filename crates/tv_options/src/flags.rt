//! Flags, and lists of flags, from which the options of a field are made.

ghost use Rattle.std.specs.Prelude.{◌≡◌};

use std::ops::BitOr;

/// Keeps a field's values in the document store.
#[derive(Clone, Copy, Debug, PartialEq, Eq)]
pub struct StoredFlag;

/// Makes a field's values searchable.
#[derive(Clone, Copy, Debug, PartialEq, Eq)]
pub struct IndexedFlag;

/// Takes JSON values of another kind for values of the field's type, where they encode one.
#[derive(Clone, Copy, Debug, PartialEq, Eq)]
pub struct CoerceFlag;

/// Keeps a field's values in a column too, for access by document.
#[derive(Clone, Copy, Debug, PartialEq, Eq)]
pub struct FastFlag;

/// A list of flags: the last one that was added, and the others. `()` is the list of none.
#[derive(Clone, Copy, Debug, PartialEq, Eq)]
pub struct SchemaFlagList<Head, Tail> {
    /// The flag that was added last.
    pub head: Head,
    /// The flags that were there before.
    pub tail: Tail,
}

/// The flag that keeps a field's values in the document store.
pub const STORED: SchemaFlagList<StoredFlag, ()> = SchemaFlagList {
    head: StoredFlag,
    tail: (),
};

/// The flag that makes a field's values searchable.
pub const INDEXED: SchemaFlagList<IndexedFlag, ()> = SchemaFlagList {
    head: IndexedFlag,
    tail: (),
};

/// The flag that takes JSON values of another kind for values of the field's type.
pub const COERCE: SchemaFlagList<CoerceFlag, ()> = SchemaFlagList {
    head: CoerceFlag,
    tail: (),
};

/// The flag that keeps a field's values in a column too.
pub const FAST: SchemaFlagList<FastFlag, ()> = SchemaFlagList {
    head: FastFlag,
    tail: (),
};

impl<Head: Clone, OldHead: Clone, OldTail: Clone> BitOr<SchemaFlagList<Head, ()>>
    for SchemaFlagList<OldHead, OldTail> {
    type Output = SchemaFlagList<Head, SchemaFlagList<OldHead, OldTail>>;

    ghost bitor_gives = { λ list flag joined. joined ≡ record { head = flag.head; tail = list } };

    /// The list with the flag before it.
    fn bitor(self, flag: SchemaFlagList<Head, ()>) -> Self::Output {
        SchemaFlagList {
            head: flag.head,
            tail: self,
        }
    }
}
