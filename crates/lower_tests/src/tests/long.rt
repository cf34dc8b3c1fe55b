//! Many lists.

use std::test::Fail;
use tv_doc::builder::{BuildError, TreeBuilder};
use tv_doc::document::CompactDoc;
use tv_value::field::Field;
use tv_value::leaf::ReferenceValueLeaf;

// Opens a million lists of one child, in each other.
fn open_lists(builder: &mut TreeBuilder) -> Result<(), BuildError> {
    for _ in 0..1000000 {
        builder.open_array(1)?;
    }
    Ok(())
}

#[test]
fn opens_and_closes_a_million_lists(rt: HostRuntime) -> Result<(), Fail> {
    let mut builder = TreeBuilder::new(CompactDoc::new(rt.alloc()));
    open_lists(&mut builder)?;
    assert!(rt; (builder.frames(), builder.heap_len()) == (1000000, 0));
    builder.leaf(ReferenceValueLeaf::Null)?;
    assert!(rt; (builder.frames(), builder.pending()) == (0, 0));
    builder.finish(Field::from_field_id(0))?;
    assert!(rt; builder.into_doc().len() == 1);
    Ok(())
}

// Puts a list of a million children.
fn put_list(builder: &mut TreeBuilder) -> Result<(), BuildError> {
    builder.open_array(1000000)?;
    for _ in 0..1000000 {
        builder.leaf(ReferenceValueLeaf::Null)?;
    }
    Ok(())
}

#[test]
fn closes_a_list_of_a_million(rt: HostRuntime) -> Result<(), Fail> {
    let mut builder = TreeBuilder::new(CompactDoc::new(rt.alloc()));
    put_list(&mut builder)?;
    assert!(rt; builder.frames() == 0);
    builder.finish(Field::from_field_id(0))?;
    let document = builder.into_doc();
    // a length of three bytes, and two for each child
    assert!(rt; (document.node_data().len(), document.addr_of(0)) == (2000003, Some((12, 0))));
    Ok(())
}
