//! The line of a document.

ghost use Rattle.std.specs.Prelude.{◌≡◌, ◌∷◌, ◌++◌, [], codes, IfErr, OnOk, ◌⊎◌};
ghost use Rattle.tv_doc.specs.Belongs.{Belongs};
ghost use Rattle.tv_doc.specs.Document.{document_of};
ghost use Rattle.tv_lines.specs.Answers.{Answer, IsDocumentText, error_text, value_error_text};
ghost use Rattle.tv_lines.specs.Run.{IsEnded, WritesText};
ghost use Rattle.tv_lines.specs.Unwritten.{IsTexts, IsRefusalText};
ghost use Rattle.tv_store.specs.Stored.{stored};
ghost use Rattle.tv_format.specs.Short.{short_document, IsDocument};
ghost use Rattle.tv_format.specs.Tree.{Document};
ghost use Rattle.tv_format.specs.Version.{V2};
ghost use Rattle.tv_reader.specs.declared.error.DeserializeError.TheVariants.{Memory, HeapFull};
ghost use Rattle.hex.specs.Hex.{encode_lower};

use crate::import::put_stored;
use std::alloc::{AllocError, Global};
use tv_base::{SliceSource, VecSink};
use tv_doc::laws::documents_are_valid;
use tv_doc::parse_buffers::ParseBuffers;
use tv_doc::{CompactDoc, DocParsingError, Document};
use tv_field::ValueParsingError;
use tv_format::WriteVersion;
use tv_reader::laws::{
    documents_have_one_reading, malformed_documents_derive_none, short_documents_encode,
};
use tv_schema::Schema;
use tv_store::laws::{stored_pairs_are_valid, stored_pairs_need_no_more_room};
use tv_store::{DeserializeError, DocStoreVersion, read_document_into};

// The memory that answering a line takes, which serves the next line.
#[derive(Drop)]
pub(crate) struct LineMemory {
    /// The line's document.
    document: CompactDoc,
    /// What reading its JSON needs.
    buffers: ParseBuffers,
    /// What its answer is made of.
    parts: AnswerParts,
}

// What the answer of a document is made of.
#[derive(Drop)]
struct AnswerParts {
    /// Its stored bytes.
    stored: VecSink,
    /// The document that is read back from them.
    found: CompactDoc,
    /// The text of JSON of that document.
    json: String,
}

impl LineMemory {
    // None so far.
    pub(crate) fn new(alloc: Global) -> LineMemory {
        LineMemory {
            document: CompactDoc::new(alloc),
            buffers: ParseBuffers::new(alloc),
            parts: AnswerParts {
                stored: VecSink::new(alloc),
                found: CompactDoc::new(alloc),
                json: String::new(alloc),
            },
        }
    }
}

// What is answered where memory was refused.
const NO_MEMORY: &str = "error Memory";

// What is answered where a field's type refuses a value.
fn value_refusal(error: &ValueParsingError) -> &'static str
    ensures { result.now ≡ value_error_text error.now }
{
    match error {
        ValueParsingError::OverflowError { .. } => "error ValueError OverflowError",
        ValueParsingError::TypeError { .. } => "error ValueError TypeError",
        ValueParsingError::ParseError { .. } => "error ValueError ParseError",
        ValueParsingError::InvalidBase64 { .. } => "error ValueError InvalidBase64",
        ValueParsingError::FloatNumber => "error ValueError FloatNumber",
        ValueParsingError::Memory => "error Memory",
    }
}

// What is answered where there is no document of a line.
fn refusal(error: &DocParsingError) -> &'static str
    ensures { result.now ≡ error_text error.now }
{
    match error {
        DocParsingError::InvalidJson(_) => "error InvalidJson",
        DocParsingError::ValueError(_, error) => value_refusal(error),
        DocParsingError::Add(_) => "error HeapFull",
        DocParsingError::Memory => "error Memory",
    }
}

// Appends the stored bytes in hexadecimal, a space, and the text of JSON of what is read back from them. Else it gives what is
// answered.
fn append_document(
    alloc: Global,
    schema: &Schema,
    document: &CompactDoc,
    parts: &mut AnswerParts,
    text: &mut Vec<u8>,
) -> Result<(), &'static str>
    requires { Belongs schema.now (document_of document.now) }
    ensures ok { OnOk result
        (WritesText (IsDocumentText schema.now (stored schema.now (document_of document.now)))
        text.old.items text.new.items) }
    ensures err { IfErr result (λ answer. IsRefusalText (document_of document.now) answer.now) }
{
    documents_are_valid();
    stored_pairs_are_valid();
    stored_pairs_need_no_more_room();
    if put_stored(schema, WriteVersion::V2, document, &mut parts.stored).is_err() {
        return Err(NO_MEMORY);
    }
    read_back(alloc, parts.stored.as_slice(), &mut parts.found)?;
    match append_texts(alloc, schema, parts, text) {
        Ok(()) => Ok(()),
        Err(_) => Err(NO_MEMORY),
    }
}

// Appends the stored bytes in hexadecimal, a space, and the text of JSON of the document that was read back. The only error is that memory
// was refused.
fn append_texts(
    alloc: Global,
    schema: &Schema,
    parts: &mut AnswerParts,
    text: &mut Vec<u8>,
) -> Result<(), AllocError>
    ensures { OnOk result
        (WritesText
        (IsTexts schema.now parts.old.stored.bytes.items (document_of parts.old.found))
        text.old.items text.new.items) }
{
    parts.json.clear();
    parts.found.push_json(alloc, schema, &mut parts.json)?;
    append_hex(text, parts.stored.as_slice())?;
    text.push(b' ')?;
    text.extend_from_slice(parts.json.as_bytes())
}

// Appends what is answered for the line where there is a document of it. Else it gives what is answered.
fn append_answer(
    alloc: Global,
    schema: &Schema,
    line: &[u8],
    memory: &mut LineMemory,
    text: &mut Vec<u8>,
) -> Result<(), &'static str>
    ensures ok { OnOk result (WritesText (Answer schema.now line.now) text.old.items text.new.items) }
    ensures err { IfErr result (λ answer. Answer schema.now line.now answer.now) }
{
    let Ok(json) = str::from_utf8(line) else {
        return Err("error InvalidJson");
    };
    match memory
        .document
        .parse_json_into(schema, json, &mut memory.buffers)
    {
        Ok(()) => append_document(alloc, schema, &memory.document, &mut memory.parts, text),
        Err(error) => Err(refusal(&error)),
    }
}

// Puts an answer and a line feed in the place of what `text` holds. The only error is that memory was refused.
fn put_line(text: &mut Vec<u8>, answer: &str) -> Result<(), AllocError>
    ensures { OnOk result (text.new.items ≡ answer.now ++ 10 ∷ []) }
{
    text.clear();
    text.extend_from_slice(answer.as_bytes())?;
    text.push(b'\n')?;
    Ok(())
}

// Puts what is answered for a document's line, with a line feed, in the place of what `text` holds. The only error is that memory was refused.
pub(crate) fn answer_line(
    alloc: Global,
    schema: &Schema,
    line: &[u8],
    memory: &mut LineMemory,
    text: &mut Vec<u8>,
) -> Result<(), AllocError>
    ensures { OnOk result (IsEnded (Answer schema.now line.now) text.new.items) }
{
    text.clear();
    match append_answer(alloc, schema, line, memory, text) {
        Ok(()) => {
            text.push(b'\n')?;
            Ok(())
        }
        Err(answer) => put_line(text, answer),
    }
}

// What is answered where there is no memory or no room for a document.
fn unwritten(error: &DeserializeError) -> &'static str
    requires { (error.now ≡ Memory) ⊎ (error.now ≡ HeapFull) }
    ensures memory { error.now ≡ Memory → result.now ≡ codes "error Memory" }
    ensures no_room { error.now ≡ HeapFull → result.now ≡ codes "error HeapFull" }
{
    match error {
        DeserializeError::Memory => "error Memory",
        DeserializeError::HeapFull => "error HeapFull",
        _ => unreachable!(),
    }
}

// Reads back a document from its shortest encoding, in place of `found` and in its memory, or gives the text that is answered where that takes
// more memory or room than there is.
pub(crate) fn read_back(
    alloc: Global,
    bytes: &[u8],
    found: &mut CompactDoc,
) -> Result<(), &'static str>
    requires { (d : Document) × (IsDocument d × (bytes.now ≡ short_document V2 d)) }
    ensures ok { (d : Document) → IsDocument d → bytes.now ≡ short_document V2 d
        → OnOk result (document_of found.new ≡ d) }
    ensures err { (d : Document) → IsDocument d → bytes.now ≡ short_document V2 d
        → IfErr result (λ text. IsRefusalText d text.now) }
{
    documents_have_one_reading();
    malformed_documents_derive_none();
    short_documents_encode();
    let mut source = SliceSource::new(bytes);
    match read_document_into(alloc, found, &mut source, DocStoreVersion::V2) {
        Ok(()) => Ok(()),
        Err(error) => Err(unwritten(&error)),
    }
}

// Appends the bytes as digits: two of each, in lower case. The only error is that memory was refused.
pub(crate) fn append_hex(text: &mut Vec<u8>, bytes: &[u8]) -> Result<(), AllocError>
    ensures { OnOk result (text.new.items ≡ text.old.items ++ encode_lower bytes.now) }
{
    let start = text.len();
    text.resize(start.saturating_add(2 * bytes.len()), 0)?;
    match hex::encode_to_slice(bytes, &mut text[start..]) {
        Ok(()) => Ok(()),
        Err(_) => unreachable!(),
    }
}
