//! Documents read step by step.

ghost use Rattle.std.specs.Prelude.{◌≡◌, ◌↔◌, Err, IfOk, OnErr, true, false};
ghost use Rattle.tantivy_schema.specs.CodeTypes.DeserializeError.TheVariants.{AlreadyFailed};
ghost use Rattle.tantivy_schema.specs.Decoder.{SaysDone, Rests};
ghost use Rattle.tantivy_schema.specs.DecoderPrefix.{IsDone, IsMalformedNext};
ghost use Rattle.tantivy_schema.specs.Finds.{Finds};
ghost use Rattle.tantivy_schema.specs.DecoderKept.{KeepsPairs};
ghost use Rattle.tantivy_schema.specs.Steps.{Stepped, IsFew};
ghost use Rattle.tantivy_schema.specs.StoreVersion.{version_of};

use tantivy_schema::common::ByteSource;
use tantivy_schema::schema::document::DeserializeError;
use tantivy_schema::store::{DirectDecoder, Step};

/// A step returns `Done` exactly where all announced pairs are finished.
pub fn done_is_told_exactly<S: ByteSource>(
    decoder: &mut DirectDecoder,
    source: &mut S,
) -> Result<Step, DeserializeError>
    ensures { IfOk result (λ step. SaysDone step ↔ IsDone decoder.new.reading) }
{
    match decoder.step(source) {
        Ok(step) => Ok(step),
        Err(error) => Err(error),
    }
}

/// A step takes at least a byte where it isn't refused, and no more than 4096 unless it takes a value whole, also where it is refused.
pub fn steps_take_few_bytes<S: ByteSource>(
    decoder: &mut DirectDecoder,
    source: &mut S,
) -> Result<Step, DeserializeError>
    ensures finds { decoder.old.failed ≡ false → ¬ IsDone decoder.old.reading →
        Finds S.ByteSource source.old decoder.old.count source.new decoder.new.count result
        (λ b _. Stepped (version_of decoder.old.version) decoder.new.legacy_seen
        decoder.old.reading decoder.new.reading b)
        (IsMalformedNext (version_of decoder.old.version) decoder.old.reading) }
    ensures at_most { S.is_known source.old →
        IsFew decoder.old.reading (S.left source.old) decoder.old.count decoder.new.count }
{
    match decoder.step(source) {
        Ok(Step::More) => Ok(Step::More),
        taken => taken,
    }
}

/// A step that is refused keeps the finished pairs, and nothing stands after them in the heap.
pub fn refused_steps_keep_pairs<S: ByteSource>(
    decoder: &mut DirectDecoder,
    source: &mut S,
) -> Result<Step, DeserializeError>
    ensures { OnErr result (KeepsPairs decoder.old.reading decoder.new.reading) }
{
    match decoder.step(source) {
        Ok(Step::Done) => Ok(Step::Done),
        other => other,
    }
}

/// After a refusal a step is refused too, and neither decoder nor source changes.
pub fn refused_decoders_rest<S: ByteSource>(
    decoder: &mut DirectDecoder,
    source: &mut S,
) -> Result<Step, DeserializeError>
    ensures { decoder.old.failed ≡ true →
        Rests decoder.old decoder.new source.old source.new result (Err AlreadyFailed) }
{
    match decoder.step(source) {
        Err(DeserializeError::AlreadyFailed) => Err(DeserializeError::AlreadyFailed),
        other => other,
    }
}
