//! Calls for C over blocks that write records by a schema that a handle holds.

ghost use Rattle.kormaglen_c.specs.Answers.{AnswersFill, ByVersion};
ghost use Rattle.kormaglen_c.specs.Handles.{IsClosedHandle};
ghost use Rattle.std.specs.Prelude.{◌≡◌, ◌==◌, not, MatchOption};
ghost use Rattle.tv_blocks.specs.FieldValues.{AreNamedValues, IsNamedValuesRefusal};
ghost use Rattle.tv_blocks.specs.SchemaTerms.{AreSchemaTerms, IsSchemaTermsRefusal};
ghost use Rattle.tv_blocks.specs.Held.{entries_of};
ghost use Rattle.tv_reader.specs.Version.{version_of};

use crate::handles::closed;
use std::alloc::Global;
use tv_blocks::Answer;
use tv_blocks::schema_handle::SchemaHandle;
use tv_blocks::status::{written_answer, wrong_version};
use tv_schema::Schema;
use tv_store::DocStoreVersion;

// Writes the values of the field that has a name by a schema, of documents in a version.
fn write_values_in(
    alloc: Global,
    schema: &Schema,
    name: &[u8],
    version: DocStoreVersion,
    block: &[u8],
    values: &mut [u8],
) -> Answer
    ensures { AnswersFill (AreNamedValues schema.now name.now (version_of version) block.now)
        (IsNamedValuesRefusal schema.now name.now (version_of version) block.now) values.old values.new
        result }
{
    written_answer(tv_blocks::values_of_block(alloc, schema, name, version, block, values))
}

// Writes the values of the field that has a name by a schema, of documents in the version of a number.
fn write_values(
    alloc: Global,
    schema: &Schema,
    name: &[u8],
    version: u32,
    block: &[u8],
    values: &mut [u8],
) -> Answer
    ensures { ByVersion version values.old values.new result
        (λ known. AnswersFill (AreNamedValues schema.now name.now known block.now)
        (IsNamedValuesRefusal schema.now name.now known block.now) values.old values.new
        result) }
{
    match DocStoreVersion::from_u32(version) {
        Ok(version) => write_values_in(alloc, schema, name, version, block, values),
        Err(_) => wrong_version(),
    }
}

/// Writes the values of the field that has a name by the schema that the handle holds, see `tv_blocks::values_of_block`. The version is 1, 2 or 3.
#[unsafe(no_mangle)]
pub extern "C" fn raw_schema_values_of_block(
    alloc: Global,
    handle: &mut SchemaHandle,
    name: &[u8],
    version: u32,
    block: &[u8],
    values: &mut [u8],
) -> Answer
    ensures handle { entries_of handle.new ≡ entries_of handle.old }
    ensures answer { MatchOption (entries_of handle.old) (IsClosedHandle values.old values.new result)
        (λ entries. ByVersion version values.old values.new result
        (λ known. AnswersFill (AreNamedValues entries name.now known block.now)
        (IsNamedValuesRefusal entries name.now known block.now) values.old values.new
        result)) }
{
    match handle.take(alloc) {
        Some(memory) => {
            let answer = write_values(alloc, &memory.schema, name, version, block, values);
            handle.keep(alloc, memory);
            answer
        }
        None => closed(),
    }
}

// Writes the terms that documents have by a schema.
fn write_terms(
    alloc: Global,
    schema: &Schema,
    version: u32,
    with_faults: bool,
    block: &[u8],
    terms: &mut [u8],
) -> Answer
    ensures { ByVersion version terms.old terms.new result
        (λ known. AnswersFill (AreSchemaTerms with_faults schema.now known block.now)
        (IsSchemaTermsRefusal with_faults schema.now known block.now)
        terms.old terms.new result) }
{
    match DocStoreVersion::from_u32(version) {
        Ok(version) => written_answer(tv_blocks::schema_terms_of_block(
            alloc,
            schema,
            version,
            with_faults,
            block,
            terms,
        )),
        Err(_) => wrong_version(),
    }
}

/// Writes at the front of `terms` the terms that the documents of `block` have by the schema that `handle` holds, see
/// `tv_blocks::schema_terms_of_block`. `version` is 1, 2 or 3. Documents without terms have records where `with_faults` isn't 0. `handle` holds the
/// same schema afterwards. After a refusal, also of a closed handle or of another version, `terms` is as it was.
#[unsafe(no_mangle)]
pub extern "C" fn raw_schema_terms_of_block(
    alloc: Global,
    handle: &mut SchemaHandle,
    version: u32,
    with_faults: u32,
    block: &[u8],
    terms: &mut [u8],
) -> Answer
    ensures handle { entries_of handle.new ≡ entries_of handle.old }
    ensures answer { MatchOption (entries_of handle.old) (IsClosedHandle terms.old terms.new result)
        (λ entries. ByVersion version terms.old terms.new result
        (λ known. AnswersFill (AreSchemaTerms (not (with_faults == 0)) entries known block.now)
        (IsSchemaTermsRefusal (not (with_faults == 0)) entries known block.now)
        terms.old terms.new result)) }
{
    match handle.take(alloc) {
        Some(memory) => {
            let answer = write_terms(
                alloc,
                &memory.schema,
                version,
                with_faults != 0,
                block,
                terms,
            );
            handle.keep(alloc, memory);
            answer
        }
        None => closed(),
    }
}
