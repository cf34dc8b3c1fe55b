//! Documents that stand one after the other, read in the memory of one.

use std::alloc::Global;
use std::test::Fail;
use tantivy_schema::common::{BufferedSource, ByteSource, Cause, SliceSource};
use tantivy_schema::schema::{Field, TantivyDocument, Value};
use tantivy_schema::store::{
    BlockReader, DocStoreVersion, LimitedReadError, Projection, ReadLimit, ReadLimits,
    RefusedDocument, read_document,
};
use tv_store::DeserializeError;

// Three documents: the number 20 in field 1 and the text `ChillFish8` in field 0; no pair; null in field 0.
const BLOCK: &[u8] =
    b"\x82\x01\0\0\0\x01\x14\0\0\0\0\0\0\0\0\0\0\0\0\x8aChillFish8\x80\x81\0\0\0\0\x0b";

// How many pairs they have.
const LENS: [usize; 3] = [2, 0, 1];

// Whether the reader gives these documents and then the end, twice.
fn reads_block<S: ByteSource>(
    alloc: Global,
    source: &mut S,
    documents: &[TantivyDocument],
) -> Result<bool, DeserializeError> {
    let mut reader = BlockReader::new(alloc, DocStoreVersion::V2);
    for document in documents {
        if !reader.advance(source)? || !reader.document().same_as(document)? {
            return Ok(false);
        }
        if reader.document().node_data() != document.node_data() {
            return Ok(false);
        }
    }
    let more = reader.advance(source)? || reader.advance(source)?;
    Ok(!more && reader.document().is_empty() && reader.into_document().is_empty())
}

// The documents of the block, each read by itself.
fn documents_of(alloc: Global) -> Result<Vec<TantivyDocument>, DeserializeError> {
    let mut documents = Vec::new(alloc);
    let mut source = SliceSource::new(BLOCK);
    for _ in LENS {
        documents.push(read_document(alloc, &mut source, DocStoreVersion::V2)?)?;
    }
    Ok(documents)
}

#[test]
fn a_block_is_read_to_its_end(rt: HostRuntime) -> Result<(), Fail> {
    let alloc = rt.alloc();
    let documents = documents_of(alloc)?;
    for (document, len) in documents.iter().zip(LENS) {
        assert!(rt; document.len() == len);
    }
    let mut slice = SliceSource::new(BLOCK);
    assert!(rt; reads_block(alloc, &mut slice, &documents) == Ok(true));
    for capacity in [0, 1, 3, 8, 64] {
        let mut source = BufferedSource::with_capacity(alloc, capacity, BLOCK)?;
        assert!(rt; reads_block(alloc, &mut source, &documents) == Ok(true));
    }
    let mut empty = SliceSource::new(b"");
    assert!(rt; reads_block(alloc, &mut empty, &[]) == Ok(true));
    let mut none = BufferedSource::with_capacity(alloc, 4, b"".as_slice())?;
    assert!(rt; reads_block(alloc, &mut none, &[]) == Ok(true));
    Ok(())
}

// Reads a block that is cut off after this many bytes, in which this many documents are whole.
fn ends_early<S: ByteSource>(alloc: Global, source: &mut S, whole: usize) -> bool {
    let mut reader = BlockReader::new(alloc, DocStoreVersion::V2);
    for _ in 0..whole {
        if reader.advance(source) != Ok(true) {
            return false;
        }
    }
    let cut = Err(DeserializeError::CorruptedValue(Cause::UnexpectedEnd));
    let is_cut = reader.advance(source) == cut && reader.document().is_empty();
    is_cut && reader.advance(source) == Err(DeserializeError::AlreadyFailed)
}

#[test]
fn a_block_that_is_cut_off_is_refused(rt: HostRuntime) -> Result<(), Fail> {
    let alloc = rt.alloc();
    for (len, whole) in [(1, 0), (20, 0), (29, 0), (32, 2), (35, 2)] {
        assert!(rt; ends_early(alloc, &mut SliceSource::new(&BLOCK[..len]), whole));
        let mut source = BufferedSource::with_capacity(alloc, 8, &BLOCK[..len])?;
        assert!(rt; ends_early(alloc, &mut source, whole));
    }
    // nothing is read after a refusal
    let mut reader = BlockReader::new(alloc, DocStoreVersion::V2);
    let mut source = SliceSource::new(b"\x81\0\0\0\0\x06\x81\0\0\0\0\x0b");
    let refused = Err(DeserializeError::CorruptedValue(Cause::FloatCode));
    assert!(rt; reader.advance(&mut source) == refused);
    assert!(rt; reader.advance(&mut source) == Err(DeserializeError::AlreadyFailed));
    assert!(rt; source.rest().len() == 6);
    Ok(())
}

#[test]
fn a_refused_document_has_its_number_and_places(rt: HostRuntime) -> Result<(), Fail> {
    let alloc = rt.alloc();
    let projection = Projection::All(ReadLimits::default());
    let mut source = SliceSource::new(&BLOCK[..35]);
    let mut reader = BlockReader::starting_at(alloc, DocStoreVersion::V2, 7, 100);
    assert!(rt; reader.pass_by(&mut source, &projection) == Ok(true));
    assert!(rt; (reader.documents(), reader.start(), reader.place()) == (8, 130, 130));
    assert!(rt; reader.advance_by(&mut source, &projection) == Ok(true));
    assert!(rt; (reader.documents(), reader.start(), reader.place()) == (9, 131, 131));
    let cut = RefusedDocument {
        document: 9,
        start: 131,
        place: 135,
        error: LimitedReadError::Read(DeserializeError::CorruptedValue(Cause::UnexpectedEnd)),
    };
    assert!(rt; reader.advance_by(&mut source, &projection) == Err(cut));
    assert!(rt; (reader.documents(), reader.start(), reader.place()) == (9, 131, 135));
    let again = reader.refusal(LimitedReadError::Limit(ReadLimit::Depth));
    assert!(rt;
        format!(in alloc; "{again}")?.as_str()
            == "document 9, which begins at byte 131, is refused at byte 135: the document passes the limit of its open lists"
    );
    Ok(())
}

// Whether a block is read of which the pairs of field 1 are kept: the number 20 of the first document.
fn reads_numbers<S: ByteSource>(alloc: Global, source: &mut S) -> Result<bool, DeserializeError> {
    let chosen = [Field::from_field_id(1)];
    let mut reader = BlockReader::new(alloc, DocStoreVersion::V2);
    let first = reader.advance_fields(source, &chosen)?;
    let mut pairs = reader.document().field_values();
    let Some((field, number)) = pairs.next() else {
        return Ok(false);
    };
    if !first || field.field_id() != 1 || number.as_u64() != Some(20) || pairs.next().is_some() {
        return Ok(false);
    }
    for start in [30, 31] {
        if reader.start() != start || !reader.advance_fields(source, &chosen)? {
            return Ok(false);
        }
        if !reader.document().is_empty() {
            return Ok(false);
        }
    }
    Ok(!reader.advance_fields(source, &chosen)? && reader.documents() == 3)
}

#[test]
fn chosen_fields_of_a_block_are_read(rt: HostRuntime) -> Result<(), Fail> {
    let alloc = rt.alloc();
    assert!(rt; reads_numbers(alloc, &mut SliceSource::new(BLOCK)) == Ok(true));
    for capacity in [0, 1, 8, 64] {
        let mut source = BufferedSource::with_capacity(alloc, capacity, BLOCK)?;
        assert!(rt; reads_numbers(alloc, &mut source) == Ok(true));
    }
    Ok(())
}
