//! Documents that are read in place of one that is there.

use std::alloc::Global;
use std::test::Fail;
use tv_base::{Cause, SliceSource};
use tv_doc::document::CompactDoc;
use tv_store::{DeserializeError, DocStoreVersion, read_document, read_document_into};

// Two documents: one with the text "ab" and the number 7, and one with null.
const BLOCK: &[u8] = b"\x82\0\0\0\0\0\x82ab\x01\0\0\0\x01\x07\0\0\0\0\0\0\0\x81\0\0\0\0\x0b";

// Whether the next document is read in place of one as it is read anew, and has this many pairs.
fn is_read_in_place(
    alloc: Global,
    document: &mut CompactDoc,
    source: &mut SliceSource<'_>,
    other: &mut SliceSource<'_>,
    len: usize,
) -> Result<bool, DeserializeError> {
    read_document_into(alloc, document, source, DocStoreVersion::V2)?;
    let fresh = read_document(alloc, other, DocStoreVersion::V2)?;
    Ok(
        document.len() == len
            && document.node_data() == fresh.node_data()
            && source.rest().len() == other.rest().len()
            && document.same_as(&fresh)?,
    )
}

#[test]
fn documents_are_read_in_place(rt: HostRuntime) -> Result<(), Fail> {
    let alloc = rt.alloc();
    let mut document = CompactDoc::new(alloc);
    let mut source = SliceSource::new(BLOCK);
    let mut other = SliceSource::new(BLOCK);
    for len in [2, 1] {
        assert!(rt; is_read_in_place(alloc, &mut document, &mut source, &mut other, len)?);
    }
    assert!(rt; source.rest().is_empty());
    Ok(())
}

#[test]
fn a_document_has_no_pairs_after_an_error(rt: HostRuntime) -> Result<(), Fail> {
    let alloc = rt.alloc();
    let mut document = CompactDoc::new(alloc);
    let mut source = SliceSource::new(BLOCK);
    read_document_into(alloc, &mut document, &mut source, DocStoreVersion::V2)?;
    let mut cut = SliceSource::new(&BLOCK[..20]);
    let refused = read_document_into(alloc, &mut document, &mut cut, DocStoreVersion::V2);
    assert!(rt; refused == Err(DeserializeError::CorruptedValue(Cause::UnexpectedEnd)));
    assert!(rt; document.is_empty());
    assert!(rt; document.node_data().is_empty());
    Ok(())
}

#[test]
fn pairs_are_taken_off(rt: HostRuntime) -> Result<(), Fail> {
    let alloc = rt.alloc();
    let mut source = SliceSource::new(BLOCK);
    let mut document = read_document(alloc, &mut source, DocStoreVersion::V2)?;
    document.clear();
    assert!(rt; document.is_empty());
    assert!(rt; document.node_data().is_empty());
    Ok(())
}
