//! Laws of the pairs that are written, each the contract of a function that does nothing; and what decoders take that are stepped,
//! however often.

ghost use Rattle.std.specs.Prelude.{◌≡◌, ◌≤◌, ℕ, List, false};
ghost use Rattle.tv_base.specs.Stop.{Taken};
ghost use Rattle.tv_heap.specs.Room.{document_room};
ghost use Rattle.tv_field.specs.Entry.{Entry};
ghost use Rattle.tv_reading.specs.Paid.{PaidBy};
ghost use Rattle.tv_doc.specs.Document.{document_of};
ghost use Rattle.tv_reader.specs.Trees.{NoValue};
ghost use Rattle.tv_reading.specs.Skip.{IsDocumentEncoding, IsValueEncoding};
ghost use Rattle.tv_store.specs.Alike.{Decides, DecidesBlocks, DecidesKept, DecidesMigrations, DecidesNext, DecidesNextWithin, DecidesPassed, DecidesWithin};
ghost use Rattle.tv_store.specs.BlockMigration.{EncodesBlock};
ghost use Rattle.tv_store.specs.Decoder.{IsStepped};
ghost use Rattle.tv_store.specs.Documents.{NoDocument};
ghost use Rattle.tv_store.specs.Reading.{chosen_pairs, documents, passed};
ghost use Rattle.tv_store.specs.RoundTrip.{AcceptsAll, AreTripsAlike, IsRoundTrip};
ghost use Rattle.tv_store.specs.Stored.{stored};
ghost use Rattle.tv_store.specs.declared.limits.ReadLimits.{ReadLimits};
ghost use Rattle.tv_store.specs.declared.projection.Projection.{Projection};
ghost use Rattle.tv_store.specs.declared.round_trip.RoundTrip.{RoundTrip};
ghost use Rattle.tv_value.specs.declared.field.Field.{Field};
ghost use Rattle.tv_value.specs.declared.owned_value.OwnedValue.{OwnedValue};
ghost use Rattle.tv_format.specs.InputError.{Refusal};
ghost use Rattle.tv_format.specs.Short.{IsDocument};
ghost use Rattle.tv_format.specs.Version.{Version};
ghost use Rattle.tv_format.specs.Tree.{Document};

use crate::direct_decoder::DirectDecoder;
use std::alloc::Global;
use tv_base::{ByteSink, ByteSource};
use tv_reader::DocStoreVersion;

/// The stored pairs of a document that has an encoding have one.
pub fn stored_pairs_are_valid()
    ensures { (schema : List Entry) (d : Document) → IsDocument d → IsDocument (stored schema d) }
{}

/// The stored pairs need no more room than all pairs.
pub fn stored_pairs_need_no_more_room()
    ensures { (schema : List Entry) (d : Document)
        → document_room (stored schema d) ≤ document_room d }
{}

/// A block encodes one list of documents.
pub fn blocks_have_one_reading()
    ensures { (version : Version) (block : List ℕ) (documents others : List Document)
        → EncodesBlock version block documents → EncodesBlock version block others
        → documents ≡ others }
{}

/// Bytes of a store are refused in one way only.
pub fn refusals_are_unique()
    ensures { (v : Version) (bytes : List ℕ) (r s : Refusal) → NoDocument v bytes r
        → NoDocument v bytes s → r ≡ s }
{}

/// The bytes decide what reading them returns. Of two calls that read the same ones, of which neither says that the source failed, that memory was
/// refused or that there is no room, both return the same document, or both return the same error, and both leave the same bytes: where a document
/// is read, or its pairs of chosen fields, and where a document or a value is passed over.
pub fn readings_are_alike<S: ByteSource>()
    ensures documents { (version : Version) → Decides (documents version) S.ByteSource document_of }
    ensures fields { (version : Version) (fields : List Field)
        → Decides (chosen_pairs version fields) S.ByteSource document_of }
    ensures passed_documents { (version : Version) → Decides
        (passed (IsDocumentEncoding version) (NoDocument version)) S.ByteSource (λ x. x) }
    ensures passed_values { (version : Version) → Decides
        (passed (IsValueEncoding version) (NoValue version)) S.ByteSource (λ x. x) }
{}

/// The same of the next document of a block: whether there is one, which it is or which error it has, and what is left and counted after it.
pub fn next_readings_are_alike<S: ByteSource>()
    ensures documents { DecidesNext documents S.ByteSource document_of }
    ensures fields { (fields : List Field)
        → DecidesNext (λ version. chosen_pairs version fields) S.ByteSource document_of }
    ensures passed { DecidesNext
        (λ version. passed (IsDocumentEncoding version) (NoDocument version)) S.ByteSource (λ x. x) }
{}

/// The same of a document that is read within limits, where neither says that the limit of the heap or of the open lists is passed: these are tested
/// after each part, and where a part ends isn't decided. Where the bytes end just where no more may be taken and the document needs more, one call may
/// say that they end and the other that their limit is passed.
pub fn limited_readings_are_alike<S: ByteSource>()
    ensures { (version : Version) (limits : ReadLimits) → DecidesWithin version limits S.ByteSource }
{}

/// The same of the next document of a block, where a byte of it at least may be taken.
pub fn limited_next_readings_are_alike<S: ByteSource>()
    ensures { (limits : ReadLimits) → DecidesNextWithin limits S.ByteSource }
{}

/// The same of the next document by what is kept of it, with the number and the places of one that is refused.
pub fn projected_readings_are_alike<S: ByteSource>()
    ensures kept { (projection : Projection) → DecidesKept projection S.ByteSource }
    ensures passed { (projection : Projection) → DecidesPassed projection S.ByteSource }
{}

/// The same of a document that is migrated: what is returned, left and written, where the sink doesn't fail either.
pub fn migrations_are_alike<S: ByteSource, K: ByteSink>()
    ensures { (from to : Version) → DecidesMigrations from to S.ByteSource K.ByteSink }
{}

/// And of a block that is migrated: how many documents it has, or which of them isn't migrated, where it begins, where reading stopped and why.
pub fn block_migrations_are_alike<S: ByteSource, K: ByteSink>()
    ensures { (from to : Version) → DecidesBlocks from to S.ByteSource K.ByteSink }
{}

/// Two round trips of the same values of one schema, with the same bytes behind, come to the same where each value was accepted: a value is
/// refused only where memory is, or where there is no room.
pub fn trips_are_alike()
    ensures { (schema : List Entry) (values : List (Field × OwnedValue)) (behind : List ℕ)
        (trip twin : RoundTrip) → AcceptsAll values trip → AcceptsAll values twin
        → IsRoundTrip schema values behind trip → IsRoundTrip schema values behind twin
        → AreTripsAlike trip twin }
{}

/// A decoder of a document of this version, after this many steps over one source, whatever each of them returned.
///
/// What it holds is paid for by the bytes that it read: its heap takes at most 7 bytes for each, two of them or more stand for each list that
/// is open, and one for each finished child of an open list. So announced numbers alone take nothing. Of objects as older stores hold them,
/// whose JSON takes more room in a heap than in the store, nothing is said.
pub fn stepped_decoders_are_paid_for<S: ByteSource>(
    alloc: Global,
    source: &mut S,
    version: DocStoreVersion,
    steps: u64,
) -> DirectDecoder
    ensures stepped { IsStepped S.ByteSource version steps source.old source.new result }
    ensures paid { S.is_known source.old → result.legacy_seen ≡ false
        → PaidBy result.reading.builder result.count }
    ensures taken { S.is_known source.old
        → Taken (S.left source.old) (S.left source.new) 0 result.count }
{
    let mut decoder = DirectDecoder::new(alloc, version);
    for _ in 0..steps {
        let _ = decoder.step(source);
    }
    decoder
}
