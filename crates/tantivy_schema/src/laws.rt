//! What is proved above single calls: laws of the definitions, and of what calls leave.

ghost use Rattle.std.specs.Prelude.{◌≡◌, ◌≤◌, ◌⊎◌, ◌++◌, List, ℕ, IfOk, IfErr};
ghost use Rattle.std.specs.declared.io.ErrorKind.TheVariants.{OutOfMemory};
ghost use Rattle.tv_base.specs.ReadsAs.{Known};
ghost use Rattle.tv_base.specs.Stop.{Counts};
ghost use Rattle.tv_doc.specs.Belongs.{Belongs};
ghost use Rattle.tv_doc.specs.Document.{document_of};
ghost use Rattle.tv_heap.specs.Room.{document_room};
ghost use Rattle.tv_reader.specs.Error.{store_stop};
ghost use Rattle.tv_store.specs.Documents.{ReturnsDocument};
ghost use Rattle.tv_store.specs.Stored.{stored};
ghost use Rattle.tv_writer.specs.declared.serializers.SerializeError.TheVariants.{Io, Memory};
ghost use Rattle.tv_format.specs.Short.{short_document};
ghost use Rattle.tv_format.specs.Version.{V2};

use std::alloc::Global;
pub use tv_base::laws::{
    all_facets_descend_from_the_root, comparisons_of_facets_agree, descendants_are_a_range,
    facets_have_one_count, numbers_have_one_reading, printed_facets_are_read,
    short_numbers_are_shortest, short_numbers_encode,
};
use tv_base::{ByteSource, VecSink};
pub use tv_builder::laws::{
    calls_trade, heaps_hold_what_came, lists_are_paid, open_lists_are_paid, parts_are_traded,
    parts_make_values, what_is_written_is_paid,
};
use tv_doc::document::CompactDoc;
pub use tv_doc::laws::{
    additions_are_kept, builders_hold_their_state, built_values_are_as_added,
    documents_are_listed_in_one_way, documents_are_valid, heaps_are_within_room,
    heaps_are_written_in_order, named_documents_are_converted_back,
    named_values_make_the_same_pairs, objects_make_one_document, strict_texts_make_one_document,
    texts_have_one_fault, texts_make_one_document, values_by_name_make_one_document,
};
pub use tv_field::laws::values_have_one_outcome;
pub use tv_format::laws::{
    documents_have_one_reading, errors_of_documents_are_unique, errors_of_values_are_unique,
    malformed_documents_derive_none, malformed_values_encode_none, short_documents_are_shortest,
    short_documents_encode, short_values_are_shortest, short_values_encode,
    values_have_one_reading,
};
pub use tv_heap::laws::places_read_as_one_tree;
pub use tv_indexing::laws::{
    fields_of_paths_are_determined, leaves_have_one_term, ranges_between_texts_are_determined,
    ranges_of_texts_are_determined, single_ranges_are_determined, terms_have_one_text,
    terms_of_texts_are_determined, terms_of_texts_are_of_no_other_value,
    texts_of_values_are_read_back,
};
pub use tv_json::laws::{
    no_text_goes_on_from_a_fault, syntax_faults_are_unique, texts_that_are_read_have_the_syntax,
    texts_with_the_syntax_are_read, the_syntax_is_the_grammar,
};
pub use tv_options::laws::{
    comparisons_of_facet_options_agree, comparisons_of_flag_lists_agree,
    comparisons_of_flag_options_agree, comparisons_of_flags_agree,
    comparisons_of_text_indexing_agree, comparisons_of_textual_options_agree,
    comparisons_of_types_agree, dates_are_indexed_by_seconds, defaults_are_least,
    facet_options_join_associatively, facet_options_join_idempotently,
    fast_text_options_join_associatively, fast_text_options_join_idempotently,
    flag_options_join_associatively, flag_options_join_idempotently, record_options_are_ordered,
    string_is_one_token, text_is_indexed_by_words, textual_options_join_associatively,
    textual_options_join_idempotently, types_and_codes_agree, types_are_listed_once,
};
/// The laws of legacy objects, and of values and documents that have them.
pub use tv_reader::laws as legacy;
pub use tv_reader::laws::{
    nested_values_are_encoded_within, too_deep_bytes_encode_no_nested_value,
    too_deep_bytes_encode_none_within, values_within_a_depth_are_encoded,
    values_within_a_depth_nest,
};
use tv_schema::Schema;
pub use tv_schema::laws::{
    comparisons_of_schemas_agree, names_are_of_one_field, printed_schema_is_read_back,
    record_options_agree, the_last_dot_counts, whole_paths_come_first,
    written_schemas_are_read_back, written_schemas_tell_all,
};
pub use tv_store::laws::{
    block_migrations_are_alike, blocks_have_one_reading, limited_next_readings_are_alike,
    limited_readings_are_alike, migrations_are_alike, next_readings_are_alike,
    projected_readings_are_alike, readings_are_alike, refusals_are_unique,
    stepped_decoders_are_paid_for, stored_pairs_are_valid, stored_pairs_need_no_more_room,
    trips_are_alike,
};
pub use tv_store::migration_trip::{MigrationTrip, migrations_are_read_back};
pub use tv_store::round_trip::{RoundTrip, RoundTripError, additions_are_stored_and_read_back};
use tv_store::{
    BinaryDocumentSerializer, DeserializeError, DocStoreVersion, SerializeError, read_document,
};
pub use tv_term::laws::{
    appended_fast_values_compare_as_values, appended_fast_values_make_terms,
    appended_numbers_are_read_back, appended_texts_are_read_back, appended_texts_make_terms,
    appended_values_complete_json_terms, comparisons_of_terms_agree, equal_terms_have_equal_keys,
    fast_types_are_of_eight_bytes, fast_values_are_ordered_as_numbers, fast_values_are_read_back,
    joined_paths_have_no_zero, json_paths_are_read_back, signed_terms_compare_as_numbers,
    terms_are_ordered, terms_compare_as_fields_and_values, written_values_are_read,
};
pub use tv_typed::laws::{
    codes_are_determined, entries_agree, fields_agree, lists_agree, objects_agree,
    pair_counts_are_determined, values_agree,
};
pub use tv_value::laws::comparisons_of_fields_agree;

/// What `serialize_doc` writes of a document is its stored pairs in the shortest encoding: here, in memory.
///
/// The fields are those of the schema, as `fits` tests. Errors: `Io` of the kind `OutOfMemory`, with which the sink in memory says that
/// memory was refused, and `Memory` where it was refused for a value that nests deeper than `MAX_DEPTH` levels.
pub fn written_documents_are_shortest(
    alloc: Global,
    schema: &Schema,
    document: &CompactDoc,
) -> Result<Vec<u8>, SerializeError>
    requires { Belongs schema.now (document_of document.now) }
    ensures bytes { IfOk result
        (λ bytes. bytes.items ≡ short_document V2 (stored schema.now (document_of document.now))) }
    ensures memory { IfErr result (λ error. (error ≡ Io OutOfMemory) ⊎ (error ≡ Memory)) }
{
    let mut sink = VecSink::new(alloc);
    BinaryDocumentSerializer::new(&mut sink, schema).serialize_doc(document)?;
    Ok(sink.into_vec())
}

/// What `serialize_doc` writes of a document is read back as its stored pairs, whatever follows it and however the source
/// cuts it, where the source's bytes are known and the document's values have room.
///
/// The only errors are then `Memory`, and `Io` where the source failed: `Answers` excludes all others, and by `failures` the source's count
/// of failures rose where `Io` is returned, with its kind, and else not.
pub fn stored_pairs_are_read_back<S: ByteSource>(
    alloc: Global,
    source: &mut S,
    schema: &Schema,
    document: &CompactDoc,
) -> Result<CompactDoc, DeserializeError>
    ensures read { Known S.ByteSource source.old
        → document_room (document_of document.now) ≤ 4294967295 → (rest : List ℕ)
        → S.left source.old
        ≡ short_document V2 (stored schema.now (document_of document.now)) ++ rest
        → ReturnsDocument result (stored schema.now (document_of document.now)) rest (S.left source.new) }
    ensures failures { Counts store_stop result (S.failures source.old) (S.failures source.new) }
{
    let _ = schema;
    let _ = document;
    documents_are_valid();
    stored_pairs_are_valid();
    stored_pairs_need_no_more_room();
    legacy::short_documents_encode();
    read_document(alloc, source, DocStoreVersion::V2)
}
