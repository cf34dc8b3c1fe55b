//! Reading chosen fields of documents out of the store.

ghost use Rattle.std.specs.Prelude.{◌≡◌, [], IsErrOf, OnErr};
ghost use Rattle.tv_reading.specs.ChosenFields.{HasNoRoomChosen};
ghost use Rattle.tv_doc.specs.Document.{document_of};
ghost use Rattle.tv_reader.specs.Finds.{Finds};
ghost use Rattle.tv_reader.specs.Version.{version_of};
ghost use Rattle.tv_reader.specs.declared.error.DeserializeError.TheVariants.{HeapFull};
ghost use Rattle.tv_store.specs.Documents.{NoDocument};
ghost use Rattle.tv_store.specs.Reading.{EncodesChosenPairs, ReadsFields};

use crate::de::put_read;
use std::alloc::Global;
use std::mem::replace;
use tv_base::ByteSource;
use tv_builder::heap_pairs::HeapPairs;
use tv_doc::document::CompactDoc;
use tv_reader::{DeserializeError, DocStoreVersion};
use tv_reading::chosen::take_chosen_into;
use tv_value::field::Field;

// Takes the chosen fields in place of a document that is there and in its memory, with the count of the bytes that were taken. After an
// error the document has no pairs.
pub(crate) fn take_fields_in_place<S: ByteSource>(
    alloc: Global,
    document: &mut CompactDoc,
    source: &mut S,
    count: &mut u64,
    version: DocStoreVersion,
    fields: &[Field],
) -> Result<(), DeserializeError>
    ensures finds { Finds S.ByteSource source.old count.old source.new count.new result
        (λ b _. EncodesChosenPairs (version_of version) fields.now b (document_of document.new))
        (NoDocument (version_of version)) }
    ensures no_room { S.is_known source.old → IsErrOf result HeapFull
        → HasNoRoomChosen (version_of version) fields.now (S.left source.old) }
    ensures none { OnErr result (document_of document.new ≡ []) }
{
    let mut empty = replace(document, CompactDoc::new(alloc)).into_pairs();
    empty.clear();
    let read = take_chosen_into(alloc, empty, source, count, version, fields);
    put_read(document, read)
}

/// Reads a document as `read_document` does, and keeps the values of these fields alone, in the order of the document. All others are tested as
/// if they were read, and passed over as `skip_document` does: nothing of them is kept, and they need no room in a heap. (Not in tantivy.)
///
/// Fields with numbers below 64 are looked up in a table, so that it makes no difference how many they are; others are looked through for each
/// value of the document. Their order makes no difference, and a field may be named twice, or be in no document. Without any, nothing is kept.
///
/// Errors: those of `read_document`, each at the same byte, whether or not it is in a value that is kept. But `HeapFull` comes only where what
/// has come of the kept values needs more room than 4294967295 bytes.
///
/// ```
/// pub fn name_and_age(
///     alloc: Global,
///     bytes: &[u8],
///     name: Field,
///     age: Field,
/// ) -> Result<TantivyDocument> {
///     let mut source = SliceSource::new(bytes);
///     let fields = [name, age];
///     Ok(read_fields(alloc, &mut source, DocStoreVersion::V2, &fields)?)
/// }
/// ```
pub fn read_fields<S: ByteSource>(
    alloc: Global,
    source: &mut S,
    version: DocStoreVersion,
    fields: &[Field],
) -> Result<CompactDoc, DeserializeError>
    ensures { ReadsFields (version_of version) fields.now S.ByteSource source.old source.new
        document_of result }
{
    let mut count = 0;
    let empty = HeapPairs::new(alloc);
    match take_chosen_into(alloc, empty, source, &mut count, version, fields) {
        Ok(pairs) => Ok(CompactDoc::from_pairs(pairs)),
        Err(error) => Err(error),
    }
}

/// Reads chosen fields as `read_fields` does, in place of a document that is there and in its memory, so that a loop over many documents
/// takes memory once. (Not in tantivy.)
///
/// Errors: those of `read_fields`. The document then has no pairs, and its memory was given back.
pub fn read_fields_into<S: ByteSource>(
    alloc: Global,
    document: &mut CompactDoc,
    source: &mut S,
    version: DocStoreVersion,
    fields: &[Field],
) -> Result<(), DeserializeError>
    // what is read stands in the document
    ensures reads { ReadsFields (version_of version) fields.now S.ByteSource source.old source.new
        (λ _. document_of document.new) result }
    ensures none { OnErr result (document_of document.new ≡ []) }
{
    let mut count = 0;
    take_fields_in_place(alloc, document, source, &mut count, version, fields)
}
