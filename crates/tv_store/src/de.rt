//! Reading documents out of the store.

ghost use Rattle.std.specs.Prelude.{◌≡◌, [], IsErrOf, OnErr};
ghost use Rattle.tv_doc.specs.Document.{document_of};
ghost use Rattle.tv_reading.specs.Prefix.{HasNoRoom};
ghost use Rattle.tv_reader.specs.Finds.{Finds};
ghost use Rattle.tv_reader.specs.Version.{version_of};
ghost use Rattle.tv_reader.specs.declared.error.DeserializeError.TheVariants.{HeapFull};
ghost use Rattle.tv_store.specs.Documents.{NoDocument, EncodesReadPairs, in_place};
ghost use Rattle.tv_store.specs.Reading.{ReadsDocument, PassesDocument, PassesValue};

use std::alloc::Global;
use std::mem::replace;
use tv_base::ByteSource;
use tv_builder::heap_pairs::HeapPairs;
use tv_doc::document::CompactDoc;
use tv_reader::{DeserializeError, DocStoreVersion};
use tv_reading::document::{take_document, take_document_into};
use tv_reading::items::{pass_document, pass_value};

// Puts what was read in the document's place. After an error the document stays.
pub(crate) fn put_read(
    document: &mut CompactDoc,
    read: Result<HeapPairs, DeserializeError>,
) -> Result<(), DeserializeError>
    ensures put { in_place result document.new.values ≡ read }
    ensures stays { OnErr result (document.new ≡ document.old) }
{
    *document = CompactDoc::from_pairs(read?);
    Ok(())
}

// Takes a document in place of one that is there and in its memory, with the count of the bytes that were taken. After an error the document
// has no pairs.
#[inline(always)]
pub(crate) fn take_in_place<S: ByteSource>(
    alloc: Global,
    document: &mut CompactDoc,
    source: &mut S,
    count: &mut u64,
    version: DocStoreVersion,
) -> Result<(), DeserializeError>
    ensures finds { Finds S.ByteSource source.old count.old source.new count.new result
        (λ b _. EncodesReadPairs (version_of version) b document.new) (NoDocument (version_of version)) }
    ensures no_room { S.is_known source.old → IsErrOf result HeapFull
        → HasNoRoom (version_of version) (S.left source.old) }
    ensures none { OnErr result (document_of document.new ≡ []) }
{
    let mut empty = replace(document, CompactDoc::new(alloc)).into_pairs();
    empty.clear();
    let read = take_document_into(alloc, empty, source, count, version);
    put_read(document, read)
}

/// Reads a document, however the source cuts its bytes, and takes no byte after it. Values of every type are read, to any
/// depth, straight into the document's heap, by a recursion of `MAX_DEPTH` levels at most; and objects as older stores hold them.
///
/// Errors, the first error in reading order: `CorruptedValue` where the bytes encode no document, `TypeMismatch` where in a key's
/// place stands a value that isn't a text, `HeapFull` where what has come so far needs more room than 4294967295 bytes, `Io` where
/// the source failed, `Memory`. After `CorruptedValue` and `TypeMismatch` just the bytes that show the error were taken.
///
/// ```
/// pub fn documents_of(alloc: Global, bytes: &[u8], count: usize) -> Result<Vec<TantivyDocument>> {
///     let mut source = SliceSource::new(bytes);
///     let mut documents = Vec::new(alloc);
///     for _ in 0..count {
///         documents.push(read_document(alloc, &mut source, DocStoreVersion::V2)?)?;
///     }
///     Ok(documents)
/// }
/// ```
#[inline(always)]
pub fn read_document<S: ByteSource>(
    alloc: Global,
    source: &mut S,
    version: DocStoreVersion,
) -> Result<CompactDoc, DeserializeError>
    ensures { ReadsDocument (version_of version) S.ByteSource source.old source.new document_of
        result }
{
    let mut count = 0;
    match take_document(alloc, source, &mut count, version) {
        Ok(pairs) => Ok(CompactDoc::from_pairs(pairs)),
        Err(error) => Err(error),
    }
}

/// Reads a document as `read_document` does, in place of one that is there and in its memory, so that a loop over many documents takes
/// memory once. (Not in tantivy.)
///
/// Errors: those of `read_document`. The document then has no pairs, and its memory was given back.
///
/// ```
/// pub fn values_in(alloc: Global, bytes: &[u8], count: usize) -> Result<usize> {
///     let mut source = SliceSource::new(bytes);
///     let mut document = TantivyDocument::new(alloc);
///     let mut values: usize = 0;
///     for _ in 0..count {
///         read_document_into(alloc, &mut document, &mut source, DocStoreVersion::V2)?;
///         values = values.saturating_add(document.len());
///     }
///     Ok(values)
/// }
/// ```
#[inline(always)]
pub fn read_document_into<S: ByteSource>(
    alloc: Global,
    document: &mut CompactDoc,
    source: &mut S,
    version: DocStoreVersion,
) -> Result<(), DeserializeError>
    // what is read stands in the document
    ensures reads { ReadsDocument (version_of version) S.ByteSource source.old source.new
        (λ _. document_of document.new) result }
    ensures none { OnErr result (document_of document.new ≡ []) }
{
    let mut count = 0;
    take_in_place(alloc, document, source, &mut count, version)
}

/// Passes over a document: takes all of its bytes and no byte after it, tests them as `read_document` does, and keeps nothing, whatever it holds
/// and however deep that nests. There is no heap that could be full. (Not in tantivy.)
///
/// Pairs that the source has buffered whole are tested where they lie, by a recursion of `MAX_DEPTH` levels at most. The others are taken part by part, by no
/// recursion: a text in one buffer that is used again, an object as older stores hold it is built for the test and given back, and each list
/// within another, as an array in a document is, takes some bytes while it is open. Nothing else takes memory.
///
/// Errors: those of `read_document` but `HeapFull`, each at the same byte.
///
/// ```
/// pub fn second_document(alloc: Global, bytes: &[u8]) -> Result<TantivyDocument> {
///     let mut source = SliceSource::new(bytes);
///     skip_document(alloc, &mut source, DocStoreVersion::V2)?;
///     Ok(read_document(alloc, &mut source, DocStoreVersion::V2)?)
/// }
/// ```
pub fn skip_document<S: ByteSource>(
    alloc: Global,
    source: &mut S,
    version: DocStoreVersion,
) -> Result<(), DeserializeError>
    ensures reads { PassesDocument (version_of version) S.ByteSource source.old source.new result }
    ensures no_heap { ¬ IsErrOf result HeapFull }
{
    let mut count = 0;
    pass_document(alloc, source, &mut count, version)
}

/// Passes over a value as `skip_document` passes over documents. (Not in tantivy.)
///
/// Errors: the first error in reading order. `CorruptedValue` where the bytes encode no value, `TypeMismatch` where in a key's place stands a value
/// that isn't a text, `Io` where the source failed, `Memory`. After `CorruptedValue` and `TypeMismatch` just the bytes that show the error were
/// taken.
pub fn skip_value<S: ByteSource>(
    alloc: Global,
    source: &mut S,
    version: DocStoreVersion,
) -> Result<(), DeserializeError>
    ensures reads { PassesValue (version_of version) S.ByteSource source.old source.new result }
    ensures no_heap { ¬ IsErrOf result HeapFull }
{
    let mut count = 0;
    pass_value(alloc, source, &mut count, version)
}
