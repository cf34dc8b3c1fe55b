//! Reports of the lines of an import, and of the documents of a search.

ghost use Rattle.std.specs.Prelude.{◌≡◌, ◌∷◌, ◌++◌, [], List, OnErr, OnOk};

use crate::find::DocumentOutcome;
use crate::import::LineOutcome;

/// What became of a line of an input.
#[derive(Drop)]
pub struct LineReport {
    /// The number of the line, counted from 1.
    pub line: u64,
    /// What became of it.
    pub outcome: LineOutcome,
}

/// What became of a document of a block that is searched.
#[derive(Clone, Copy)]
pub struct DocumentReport {
    /// The number of the document, counted from 0.
    pub document: u64,
    /// The byte of the block at which it begins.
    pub start: u64,
    /// What became of it.
    pub outcome: DocumentOutcome,
}

/// A report of each line of an import, or of each document of a search, in order: a list of those that are refused, say, or of where each document begins.
/// (Not in tantivy.)
pub trait Report<T> {
    /// Why something can't be reported.
    type Error: Drop;

    /// That the content of the report is known.
    ghost is_known: { Self → Type 0 };

    /// Where it is known, all that was reported so far.
    ghost told: { Self → List T };

    /// Reports what became of the next line or document. After an `Err` the report is as before.
    fn tell(&mut self, next: T) -> Result<(), Self::Error>
        ensures told { is_known self.old
            → OnOk result (told self.new ≡ told self.old ++ next ∷ []) }
        ensures untold { is_known self.old → OnErr result (told self.new ≡ told self.old) }
        ensures is_known { is_known self.old → is_known self.new };
}
