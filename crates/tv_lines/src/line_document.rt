//! Documents of lines of JSON.

ghost use Rattle.std.specs.Prelude.{◌≡◌, [], Err, IfErr, IfOk, OnErr, OnOk, string_bytes};
ghost use Rattle.serde_json.specs.View.{view};
ghost use Rattle.serde_json.specs.declared.value.Value.{Value};
ghost use Rattle.tv_doc.specs.Belongs.{Belongs};
ghost use Rattle.tv_doc.specs.Document.{document_of};
ghost use Rattle.tv_doc.specs.InPlace.{in_place};
ghost use Rattle.tv_doc.specs.JsonObject.{IsNoObject, Parses};
ghost use Rattle.tv_doc.specs.TextFault.{IsFault};
ghost use Rattle.tv_json.specs.declared.json_fault.JsonFault.{JsonFault};
ghost use Rattle.tv_lines.specs.LineDocuments.{IsParsed, ParsesBy, Tells};
ghost use Rattle.tv_lines.specs.RefusedValues.{IsFloatOf};

use crate::refused_value::refused_value;
use serde_json::Value;
use std::alloc::{AllocError, Global};
use thiserror::Error;
use tv_doc::json_object::text_fault;
use tv_doc::parse_buffers::ParseBuffers;
use tv_doc::{CompactDoc, DocParsingError, StrictParsingError};
use tv_field::{NotWhole, ValueParsingError};
use tv_indexing::TermValuesError;
use tv_json::json_fault::JsonFault;
use tv_schema::Schema;

/// Why a line makes no document, or one that isn't to be stored. (Not in tantivy.)
#[derive(Debug, Drop, Error)]
pub enum LineError {
    /// The line is not UTF-8.
    #[error("it is not UTF-8")]
    NotUtf8,
    /// The line is no JSON object. These are its first 20 characters, and where and why it is none.
    #[error("no JSON object: {0:?}: {1}")]
    NoObject(String, JsonFault),
    /// A number isn't whole, or doesn't fit 64 bits. This is the name of its field, and the number or the object that it stands in.
    #[error("field {:?}: {}", .0, NotWhole(.1))]
    Float(String, Value),
    /// A key or a value of the line is refused for another reason.
    #[error("{0}")]
    Refused(StrictParsingError),
    /// It makes a document that can't be searched, and the rules are strict: a value of the field with this name has no term, for this reason.
    #[error("field {0:?}: {1}")]
    Unsearchable(String, TermValuesError),
}

// Puts the document of a text in place of one that is there.
#[inline(always)]
fn parse_text(
    schema: &Schema,
    text: &str,
    strict: bool,
    document: &mut CompactDoc,
    buffers: &mut ParseBuffers,
) -> Result<(), StrictParsingError>
    ensures parses { ParsesBy schema.now strict text.now (in_place result document.new) }
    ensures belongs { OnOk result (Belongs schema.now (document_of document.new)) }
    ensures none { OnErr result (document_of document.new ≡ []) }
{
    if strict {
        return document.parse_json_strict_into(schema, text, buffers);
    }
    match document.parse_json_into(schema, text, buffers) {
        Ok(()) => Ok(()),
        Err(error) => Err(StrictParsingError::Parsing(error)),
    }
}

// Says where and why a text is no JSON object. The only error is that memory was refused.
fn no_object(alloc: Global, text: &str, start: String) -> Result<LineError, AllocError>
    requires { IsNoObject text.now }
    ensures { IfOk result
        (λ said. (fault : JsonFault) × (said ≡ LineError.NoObject start fault)
        × IsFault text.now fault) }
{
    match text_fault(alloc, text)? {
        Some(fault) => Ok(LineError::NoObject(start, fault)),
        None => unreachable!(),
    }
}

// Says which value of the field with this name is refused, since a number isn't whole. The only error is that memory was refused.
fn refused_number(
    alloc: Global,
    schema: &Schema,
    text: &str,
    name: String,
) -> Result<LineError, AllocError>
    requires { Parses schema.now text.now
        (Err (DocParsingError.ValueError name ValueParsingError.FloatNumber)) }
    ensures { IfOk result
        (λ said. (json : Value) × (said ≡ LineError.Float name json)
        × IsFloatOf schema.now text.now (string_bytes name) (view json)) }
{
    match refused_value(alloc, schema, text)? {
        Some(json) => Ok(LineError::Float(name, json)),
        None => unreachable!(),
    }
}

// Says why a value of the field with this name is refused. The only error is that memory was refused.
fn refused_value_told(
    alloc: Global,
    schema: &Schema,
    text: &str,
    name: String,
    error: ValueParsingError,
) -> Result<LineError, AllocError>
    requires { Parses schema.now text.now (Err (DocParsingError.ValueError name error)) }
    ensures { IfOk result (Tells schema.now text.now (DocParsingError.ValueError name error)) }
{
    match error {
        ValueParsingError::FloatNumber => refused_number(alloc, schema, text, name),
        other => Ok(LineError::Refused(StrictParsingError::Parsing(DocParsingError::ValueError(
            name, other,
        )))),
    }
}

// Says why there is no document of a text. The only error is that memory was refused.
fn told(
    alloc: Global,
    schema: &Schema,
    text: &str,
    error: DocParsingError,
) -> Result<LineError, AllocError>
    requires { Parses schema.now text.now (Err error) }
    ensures { IfOk result (Tells schema.now text.now error) }
{
    match error {
        DocParsingError::InvalidJson(start) => no_object(alloc, text, start),
        DocParsingError::ValueError(name, error) => {
            refused_value_told(alloc, schema, text, name, error)
        }
        DocParsingError::Add(refused) => Ok(LineError::Refused(StrictParsingError::Parsing(
            DocParsingError::Add(refused),
        ))),
        DocParsingError::Memory => Err(AllocError),
    }
}

/// Puts the document of a line in place of one that is there and in its memory, or says why there is none: `None` where there is one. By strict rules each
/// key has to name a field, and none may stand twice. See `CompactDoc::parse_json_into` and `parse_json_strict_into`. (Not in tantivy.)
///
/// The only error is that memory was refused. Then, and where there is none, the document has no pairs.
#[inline(always)]
pub fn parse_line(
    schema: &Schema,
    line: &[u8],
    strict: bool,
    document: &mut CompactDoc,
    buffers: &mut ParseBuffers,
) -> Result<Option<LineError>, AllocError>
    ensures parsed { IfOk result (IsParsed schema.now strict line.now document.new) }
    ensures none { OnErr result (document_of document.new ≡ []) }
{
    let Ok(text) = str::from_utf8(line) else {
        document.clear();
        return Ok(Some(LineError::NotUtf8));
    };
    match parse_text(schema, text, strict, document, buffers) {
        Ok(()) => Ok(None),
        Err(StrictParsingError::Parsing(error)) => {
            Ok(Some(told(document.allocator(), schema, text, error)?))
        }
        Err(error) => Ok(Some(LineError::Refused(error))),
    }
}
