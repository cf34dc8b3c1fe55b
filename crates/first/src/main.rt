#![tactic(auto)]

use anyhow::{Result, anyhow};
use tantivy_schema::common::{SliceSource, VecSink};
use tantivy_schema::schema::document::BinaryDocumentSerializer;
use tantivy_schema::schema::{Document, INDEXED, STORED, Schema, TEXT, TantivyDocument, Value};
use tantivy_schema::store::{DocStoreVersion, read_document};

fn main(rt: HostRuntime) -> Result<()> {
    let alloc = rt.alloc();
    let mut builder = Schema::builder(alloc);
    let name = builder.add_text_field("name", TEXT | STORED)?;
    let age = builder.add_u64_field("age", INDEXED | STORED)?;
    let schema = builder.build()?;
    let mut document = TantivyDocument::new(alloc);
    document.add_text(name, "ChillFish8")?;
    document.add_u64(age, 20)?;
    if !document.fits(&schema) {
        return Err(anyhow!("a field is not the schema's"));
    }
    let mut sink = VecSink::new(alloc);
    BinaryDocumentSerializer::new(&mut sink, &schema).serialize_doc(&document)?;
    println!(rt; "{}", hex::encode(alloc, sink.as_slice())?)?;

    let mut source = SliceSource::new(sink.as_slice());
    let read = read_document(alloc, &mut source, DocStoreVersion::V2)?;
    for (field, value) in read.field_values() {
        let number = field.field_id();
        match (value.as_str(), value.as_u64()) {
            (Some(text), _) => println!(rt; "{number} {text}")?,
            (None, Some(count)) => println!(rt; "{number} {count}")?,
            (None, None) => {}
        }
    }
    println!(rt; "{}", read.to_json(alloc, &schema)?)?;
    Ok(())
}
