//! The next document of a block, by what is kept of it.

ghost use Rattle.std.specs.Prelude.{◌≡◌, ◌↔◌, IsTrue, false};
ghost use Rattle.tv_doc.specs.Document.{document_of};
ghost use Rattle.tv_reader.specs.declared.error.DeserializeError.TheVariants.{AlreadyFailed};
ghost use Rattle.tv_store.specs.BlockSteps.{LeavesNone, StepsBlock, refusal_of};
ghost use Rattle.tv_store.specs.Blocks.{SaysNothingWithin};
ghost use Rattle.tv_store.specs.Projections.{ReadsNextOf, ReadsProjected, kept, no_limits, with_error};
ghost use Rattle.tv_store.specs.declared.limits.LimitedReadError.TheVariants.{Read};

use crate::block::{BlockReader, RefusedDocument};
use crate::limits::{LimitedReadError, ReadLimits};
use tv_base::ByteSource;
use tv_reader::DeserializeError;
use tv_value::field::Field;

/// What is kept of each document of a block. (Not in tantivy.)
#[derive(Drop)]
pub enum Projection {
    /// All of it. A document that passes one of these limits is refused.
    All(ReadLimits),
    /// The values of these fields alone, in the order of the document.
    Fields(Vec<Field>),
}

// Whether no limit is set.
fn is_unlimited(limits: ReadLimits) -> bool
    ensures { IsTrue result ↔ (limits ≡ no_limits) }
{
    match limits {
        ReadLimits {
            bytes: None,
            heap_bytes: None,
            depth: None,
        } => true,
        _ => false,
    }
}

// The same, said as reading within limits says it.
fn tell(read: Result<bool, DeserializeError>) -> Result<bool, LimitedReadError>
    ensures { result ≡ with_error Read read }
{
    match read {
        Ok(more) => Ok(more),
        Err(error) => Err(LimitedReadError::Read(error)),
    }
}

impl BlockReader {
    // Reads the next document, and keeps of it what the projection says.
    fn read_next<S: ByteSource>(
        &mut self,
        source: &mut S,
        projection: &Projection,
    ) -> Result<bool, LimitedReadError>
        ensures steps { StepsBlock SaysNothingWithin (Read AlreadyFailed) S.ByteSource source.old
            source.new self.old self.new result }
        ensures reads { self.old.failed ≡ false
            → ReadsNextOf projection.now (λ d. document_of self.new.document ≡ kept projection.now d)
            S.ByteSource source.old source.new self.old result }
        ensures none { LeavesNone self.old self.new result }
    {
        match projection {
            Projection::Fields(fields) => tell(self.advance_fields(source, fields.as_slice())),
            Projection::All(limits) => {
                if is_unlimited(*limits) {
                    tell(self.advance(source))
                } else {
                    self.advance_within(source, *limits)
                }
            }
        }
    }

    // Passes over the next document. It is read where limits are set, and else nothing of it is kept.
    fn pass_next<S: ByteSource>(
        &mut self,
        source: &mut S,
        projection: &Projection,
    ) -> Result<bool, LimitedReadError>
        ensures steps { StepsBlock SaysNothingWithin (Read AlreadyFailed) S.ByteSource source.old
            source.new self.old self.new result }
        ensures reads { self.old.failed ≡ false
            → ReadsNextOf projection.now (λ d. Unit {0}) S.ByteSource source.old source.new self.old
            result }
    {
        match projection {
            Projection::Fields(_) => tell(self.skip(source)),
            Projection::All(limits) => {
                if is_unlimited(*limits) {
                    tell(self.skip(source))
                } else {
                    self.advance_within(source, *limits)
                }
            }
        }
    }

    // The same, with the number and the places of a document that is refused.
    fn place_refusal(&self, read: Result<bool, LimitedReadError>) -> Result<bool, RefusedDocument>
        ensures { result ≡ with_error (refusal_of self.now) read }
    {
        match read {
            Ok(more) => Ok(more),
            Err(error) => Err(self.refusal(error)),
        }
    }

    /// Reads the next document, keeps of it what `projection` says, and says whether there was one: `false` where the source has nothing left. Then, and
    /// after an error, there is no document. (Not in tantivy.)
    ///
    /// Errors: `RefusedDocument` for a document that can't be read or passes a limit, with its number and its places and with the error that `advance`,
    /// `advance_within` or `advance_fields` returns. After it, and after an error of another call, each call returns it with `AlreadyFailed`, and
    /// reads nothing.
    pub fn advance_by<S: ByteSource>(
        &mut self,
        source: &mut S,
        projection: &Projection,
    ) -> Result<bool, RefusedDocument>
        ensures steps { StepsBlock (λ e. SaysNothingWithin e.error)
            (refusal_of self.old (Read AlreadyFailed)) S.ByteSource source.old source.new self.old
            self.new result }
        ensures reads { self.old.failed ≡ false
            → ReadsProjected projection.now
            (λ d. document_of self.new.document ≡ kept projection.now d)
            S.ByteSource source.old source.new self.old self.new result }
        ensures none { LeavesNone self.old self.new result }
    {
        let read = self.read_next(source, projection);
        self.place_refusal(read)
    }

    /// Passes over the next document, and says whether there was one. Where `projection` sets limits the document is read, and refused as `advance_by`
    /// refuses it; else nothing of it is kept, and no room in a heap is needed. What `document` returns after it isn't specified. (Not in tantivy.)
    ///
    /// Errors: those of `advance_by`.
    pub fn pass_by<S: ByteSource>(
        &mut self,
        source: &mut S,
        projection: &Projection,
    ) -> Result<bool, RefusedDocument>
        ensures steps { StepsBlock (λ e. SaysNothingWithin e.error)
            (refusal_of self.old (Read AlreadyFailed)) S.ByteSource source.old source.new self.old
            self.new result }
        ensures reads { self.old.failed ≡ false
            → ReadsProjected projection.now (λ d. Unit {0}) S.ByteSource source.old source.new
            self.old self.new result }
    {
        let read = self.pass_next(source, projection);
        self.place_refusal(read)
    }
}
