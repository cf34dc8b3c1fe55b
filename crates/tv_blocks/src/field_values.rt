//! The values of a field in the documents of a block.

ghost use Rattle.std.specs.Prelude.{◌≡◌, ◌++◌, [], IfErr, OnOk};
ghost use Rattle.tv_blocks.specs.Buffer.{FillsBuffer};
ghost use Rattle.tv_blocks.specs.FieldValues.{AreNamedValues, IsNamedValuesRefusal, IsValueList, IsValueListRefusal, IsValuesBlockRefusal, content_record};
ghost use Rattle.tv_blocks.specs.FieldValues.{document_values, json_content, kind_number, value_record};
ghost use Rattle.tv_blocks.specs.Refusals.{TellsNoField, TellsNotUtf8};
ghost use Rattle.tv_doc.specs.Document.{document_of};
ghost use Rattle.tv_reader.specs.Version.{version_of};

use crate::block_error::{BlockError, unread};
use crate::buffer::{append_numbered, put_whole};
use std::alloc::{AllocError, Global};
use tv_base::SliceSource;
use tv_doc::CompactDoc;
use tv_json::compact::push_json;
use tv_schema::Schema;
use tv_store::{BlockReader, DocStoreVersion};
use tv_value::{Field, ReferenceValue, ReferenceValueLeaf, Value};

/// What kind a value is of, and so what its bytes are. (Not in tantivy.)
#[derive(Clone, Copy, Debug, PartialEq, Eq, Drop)]
pub enum ValueKind {
    /// No value, and no bytes.
    Null,
    /// A text in UTF-8.
    Text,
    /// A number from 0 to 2^64 - 1 in eight bytes, the lowest first.
    Unsigned,
    /// A number from -2^63 to 2^63 - 1 in eight bytes of two's complement, the lowest first.
    Signed,
    /// A truth value: one byte, 0 or 1.
    Truth,
    /// A date: its nanoseconds since 1970, as those of `Signed`.
    Date,
    /// An encoded facet.
    Facet,
    /// Bytes.
    Bytes,
    /// An IPv6 address in sixteen bytes, the highest first.
    Address,
    /// A text with tokens, an array or an object: its text of JSON.
    Json,
}

impl ValueKind {
    /// The number of the kind.
    pub fn number(self) -> u64
        ensures { result ≡ kind_number self }
    {
        match self {
            ValueKind::Null => 0,
            ValueKind::Text => 1,
            ValueKind::Unsigned => 2,
            ValueKind::Signed => 3,
            ValueKind::Truth => 4,
            ValueKind::Date => 5,
            ValueKind::Facet => 6,
            ValueKind::Bytes => 7,
            ValueKind::Address => 8,
            ValueKind::Json => 9,
        }
    }
}

// Appends the number of a document, the number of the kind, the length of the bytes and the bytes.
fn append_content(
    values: &mut Vec<u8>,
    document: u64,
    kind: ValueKind,
    bytes: &[u8],
) -> Result<(), AllocError>
    ensures { OnOk result
        (values.new.items ≡ values.old.items ++ content_record document (kind, bytes.now)) }
{
    append_numbered(values, document, kind.number(), bytes)
}

// Appends the record of a value as its text of JSON.
fn append_json<'a, V: Value<'a>>(
    alloc: Global,
    values: &mut Vec<u8>,
    document: u64,
    value: V,
) -> Result<(), AllocError>
    ensures { OnOk result
        (values.new.items ≡ values.old.items ++ content_record document (json_content (V.tree value))) }
{
    let mut text = String::new(alloc);
    push_json(alloc, &mut text, value)?;
    append_content(values, document, ValueKind::Json, text.as_bytes())
}

// Appends the record of a value.
fn append_value<'a, V: Value<'a>>(
    alloc: Global,
    values: &mut Vec<u8>,
    document: u64,
    value: V,
) -> Result<(), AllocError>
    ensures { OnOk result
        (values.new.items ≡ values.old.items ++ value_record document (V.tree value)) }
{
    let ReferenceValue::Leaf(leaf) = value.as_value() else {
        return append_json(alloc, values, document, value);
    };
    match leaf {
        ReferenceValueLeaf::Null => append_content(values, document, ValueKind::Null, &[]),
        ReferenceValueLeaf::Str(text) => {
            append_content(values, document, ValueKind::Text, text.as_bytes())
        }
        ReferenceValueLeaf::U64(number) => {
            append_content(values, document, ValueKind::Unsigned, &number.to_le_bytes())
        }
        ReferenceValueLeaf::I64(number) => {
            append_content(values, document, ValueKind::Signed, &number.to_le_bytes())
        }
        ReferenceValueLeaf::Bool(truth) => {
            append_content(values, document, ValueKind::Truth, &[u8::from(truth)])
        }
        ReferenceValueLeaf::Date(date) => {
            let nanoseconds = date.into_timestamp_nanos();
            append_content(
                values,
                document,
                ValueKind::Date,
                &nanoseconds.to_le_bytes(),
            )
        }
        ReferenceValueLeaf::Facet(encoded) => {
            append_content(values, document, ValueKind::Facet, encoded.as_bytes())
        }
        ReferenceValueLeaf::Bytes(bytes) => {
            append_content(values, document, ValueKind::Bytes, bytes)
        }
        ReferenceValueLeaf::IpAddr(address) => {
            let bits = address.to_bits();
            append_content(values, document, ValueKind::Address, &bits.to_be_bytes())
        }
        ReferenceValueLeaf::PreTokStr(_) => append_json(alloc, values, document, value),
    }
}

// Appends the records of the field's values in a document. The only error is that memory was refused.
fn append_document(
    alloc: Global,
    field: Field,
    number: u64,
    document: &CompactDoc,
    values: &mut Vec<u8>,
) -> Result<(), AllocError>
    ensures { OnOk result
        (values.new.items
        ≡ values.old.items ++ document_values number field.id (document_of document.now)) }
{
    for value in document.get_all(field) {
        append_value(alloc, values, number, value)?;
    }
    Ok(())
}

// Appends the records of the field's values in the documents of the block.
fn append_block(
    alloc: Global,
    field: Field,
    version: DocStoreVersion,
    block: &[u8],
    values: &mut Vec<u8>,
) -> Result<(), BlockError>
    requires { values.old.items ≡ [] }
    ensures ok { OnOk result
        (IsValueList (version_of version) field.id block.now values.new.items) }
    ensures err { IfErr result (IsValuesBlockRefusal (version_of version) field.id block.now) }
{
    let mut source = SliceSource::new(block);
    let mut reader = BlockReader::new(alloc, version);
    let mut number = 0;
    loop {
        match reader.advance_fields(&mut source, &[field]) {
            Ok(true) => append_document(alloc, field, number, reader.document(), values)?,
            Ok(false) => return Ok(()),
            Err(error) => return Err(unread(reader.start(), &error)),
        }
        number += 1;
    }
}

// Writes the values of a field.
fn values_of_field(
    alloc: Global,
    field: Field,
    version: DocStoreVersion,
    block: &[u8],
    values: &mut [u8],
) -> Result<u64, BlockError>
    ensures { FillsBuffer (IsValueList (version_of version) field.id block.now)
        (IsValueListRefusal (version_of version) field.id block.now) values.old values.new result }
{
    let mut content = Vec::new(alloc);
    append_block(alloc, field, version, block, &mut content)?;
    put_whole(content.as_slice(), values)
}

/// Writes the values of the field that has the name by the schema in the documents of a block, in their order, and returns how many bytes these
/// take. For each that is the number of its document, from 0, the number of its `ValueKind` and the length of its bytes, each in eight bytes, the
/// lowest first, and its bytes. Other fields' values are tested, and passed over, see `tv_store::read_fields`.
///
/// Errors: `NotUtf8` where the name isn't UTF-8, `NoField` where no field has it, else `BadDocument` for the first document that can't be read,
/// `TooSmall`, `Memory`. The buffer then stays as it is. Of a document there is `HeapFull` only where what has come of the field's values needs more
/// room than 4294967295 bytes.
pub fn values_of_block(
    alloc: Global,
    schema: &Schema,
    name: &[u8],
    version: DocStoreVersion,
    block: &[u8],
    values: &mut [u8],
) -> Result<u64, BlockError>
    ensures fills { FillsBuffer (AreNamedValues schema.now name.now (version_of version) block.now)
        (IsNamedValuesRefusal schema.now name.now (version_of version) block.now) values.old values.new
        result }
    ensures not_utf8 { TellsNotUtf8 name.now result }
    ensures no_field { TellsNoField schema.now name.now result }
{
    let Ok(name) = str::from_utf8(name) else {
        return Err(BlockError::NotUtf8);
    };
    match schema.get_field(name) {
        Ok(field) => values_of_field(alloc, field, version, block, values),
        Err(_) => Err(BlockError::NoField),
    }
}
