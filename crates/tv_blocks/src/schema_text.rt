//! Schemas out of bytes, and into them.

ghost use Rattle.std.specs.Prelude.{◌≡◌, IfErr, IfOk, IsUtf8};
ghost use Rattle.tv_blocks.specs.Buffer.{FillsBuffer};
ghost use Rattle.tv_blocks.specs.Schemas.{IsRefusedSchema, IsSchemaText, schema_refusal};
ghost use Rattle.tv_blocks.specs.declared.block_error.BlockError.TheVariants.{InvalidJson};
ghost use Rattle.tv_lines.specs.Answers.{ReadsSchema};

use crate::block_error::BlockError;
use crate::buffer::put_whole;
use serde_json::Value;
use std::alloc::Global;
use tv_field::SchemaError;
use tv_schema::{Schema, SchemaJsonError};

// What is said of a schema that is refused.
fn refused(error: SchemaJsonError) -> BlockError
    ensures { result ≡ schema_refusal error }
{
    match error {
        SchemaJsonError::BadKey { entry, key } => BlockError::BadSchemaKey { entry, key },
        SchemaJsonError::Refused { entry, error } => BlockError::BadSchemaEntry { entry, error },
        SchemaJsonError::Other(SchemaError::Memory) => BlockError::Memory,
        SchemaJsonError::Other(error) => BlockError::BadSchema(error),
    }
}

/// The schema that a text of JSON describes, for the calls that are given a schema: `import_lines_by`, `export_block_by`, `find_field_by`, and
/// those of one document.
///
/// Errors: `InvalidJson` where the text isn't JSON, `BadSchemaKey` where a key of an entry is at fault, see `Schema::from_json_value_by_key`,
/// `BadSchemaEntry` where one is refused as a field, `BadSchema` where the JSON describes no schema for another reason, `Memory`. A text that
/// isn't UTF-8 is refused as `InvalidJson`, whether or not there is memory.
pub fn read_schema(alloc: Global, text: &[u8]) -> Result<Schema, BlockError>
    ensures ok { IfOk result (λ schema. ReadsSchema text.now schema) }
    ensures err { IfErr result (IsRefusedSchema text.now) }
    ensures not_utf8 { IfErr result (λ error. ¬ IsUtf8 text.now → error ≡ InvalidJson) }
{
    let Ok(text) = str::from_utf8(text) else {
        return Err(BlockError::InvalidJson);
    };
    match Value::from_str(alloc, text) {
        Ok(value) => match Schema::from_json_value_by_key(alloc, &value) {
            Ok(schema) => Ok(schema),
            Err(error) => Err(refused(error)),
        },
        Err(error) => {
            if error.is_memory() {
                return Err(BlockError::Memory);
            }
            Err(BlockError::InvalidJson)
        }
    }
}

/// Writes the schema's text of JSON, and returns how many bytes it takes: the value of `Schema::to_json_value`, without spaces.
///
/// Errors: `TooSmall`, `Memory`. The buffer then stays as it is.
#[tactic(auto, using(tv_schema::proofs::SchemaJsonFloats::schema_has_no_float))]
pub fn print_schema(alloc: Global, schema: &Schema, text: &mut [u8]) -> Result<u64, BlockError>
    ensures { FillsBuffer (IsSchemaText schema.now) (λ error. ⊥) text.old text.new result }
{
    let json = schema.to_json_value()?.to_string(alloc)?;
    put_whole(json.as_bytes(), text)
}
