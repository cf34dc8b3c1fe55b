//! Options of fields out of the members of a JSON object.

ghost use Rattle.std.specs.Prelude.{◌≡◌};
ghost use Rattle.serde_json.specs.View.{view, members_view};
ghost use Rattle.tv_schema.specs.SchemaJsonOptions.{options_of, text_options_of, numeric_options_of, date_options_of, facet_options_of, bytes_options_of};
ghost use Rattle.tv_schema.specs.SchemaJsonOptions.{json_object_options_of, ip_addr_options_of, optional_indexing, indexing_of, fieldnorms_or, fast_field_of};
ghost use Rattle.tv_schema.specs.SchemaJsonOptions.{fast_field_or_none, required_fast_field, record_or_basic, precision_or_seconds};
ghost use Rattle.tv_schema.specs.SchemaJsonReading.{ReadsOptions};

use crate::json::error::EntryFault;
use crate::json::key::SchemaKey;
use crate::json::members::{
    Members, bool_or, member, present, required_bool, required_text, text_or,
};
use crate::json::words::{precision_of_word, record_of_word};
use serde_json::Value;
use std::alloc::Global;
use tv_field::FieldType;
use tv_options::{
    BytesOptions, DateOptions, DateTimePrecision, FacetOptions, FastFieldTextOptions,
    IndexRecordOption, IpAddrOptions, JsonObjectOptions, NumericOptions, TextFieldIndexing,
    TextOptions, TokenizerName, Type,
};

// The type with the options that the members tell; else the first key, in the order of reading, that is at fault.
#[tactic(auto, unfolding(crate::specs::SchemaJsonOptions::options_of))]
pub(super) fn options_of(
    alloc: Global,
    value_type: Type,
    members: &Members,
) -> Result<FieldType, EntryFault>
    ensures { ReadsOptions (options_of value_type (members_view members.now.entries)) result }
{
    match value_type {
        Type::Str => Ok(FieldType::Str(text_options_of(alloc, members)?)),
        Type::U64 => Ok(FieldType::U64(numeric_options_of(members)?)),
        Type::I64 => Ok(FieldType::I64(numeric_options_of(members)?)),
        Type::Bool => Ok(FieldType::Bool(numeric_options_of(members)?)),
        Type::Date => Ok(FieldType::Date(date_options_of(members)?)),
        Type::Facet => Ok(FieldType::Facet(facet_options_of(members)?)),
        Type::Bytes => Ok(FieldType::Bytes(bytes_options_of(members)?)),
        Type::Json => Ok(FieldType::JsonObject(json_object_options_of(alloc, members)?)),
        Type::IpAddr => Ok(FieldType::IpAddr(ip_addr_options_of(members)?)),
    }
}

#[tactic(auto, unfolding(crate::specs::SchemaJsonOptions::text_options_of))]
fn text_options_of(alloc: Global, members: &Members) -> Result<TextOptions, EntryFault>
    ensures { ReadsOptions (text_options_of (members_view members.now.entries)) result }
{
    let indexing = optional_indexing(alloc, members)?;
    let stored = bool_or(members, SchemaKey::Stored, false)?;
    let fast = fast_field_or_none(alloc, members)?;
    let coerce = bool_or(members, SchemaKey::Coerce, false)?;
    Ok(TextOptions::from_parts(indexing, stored, fast, coerce))
}

#[tactic(auto, unfolding(crate::specs::SchemaJsonOptions::numeric_options_of))]
fn numeric_options_of(members: &Members) -> Result<NumericOptions, SchemaKey>
    ensures { result ≡ numeric_options_of (members_view members.now.entries) }
{
    let indexed = required_bool(members, SchemaKey::Indexed)?;
    let stored = required_bool(members, SchemaKey::Stored)?;
    let fieldnorms = fieldnorms_or(members, indexed)?;
    let fast = bool_or(members, SchemaKey::Fast, false)?;
    let coerce = bool_or(members, SchemaKey::Coerce, false)?;
    Ok(NumericOptions::from_parts(indexed, fieldnorms, fast, stored, coerce))
}

#[tactic(auto, unfolding(crate::specs::SchemaJsonOptions::date_options_of))]
fn date_options_of(members: &Members) -> Result<DateOptions, SchemaKey>
    ensures { result ≡ date_options_of (members_view members.now.entries) }
{
    let indexed = required_bool(members, SchemaKey::Indexed)?;
    let fieldnorms = required_bool(members, SchemaKey::Fieldnorms)?;
    let stored = required_bool(members, SchemaKey::Stored)?;
    let fast = bool_or(members, SchemaKey::Fast, false)?;
    let precision = precision_or_seconds(members)?;
    Ok(DateOptions::from_parts(indexed, fieldnorms, fast, stored, precision))
}

#[tactic(auto, unfolding(crate::specs::SchemaJsonOptions::facet_options_of))]
fn facet_options_of(members: &Members) -> Result<FacetOptions, SchemaKey>
    ensures { result ≡ facet_options_of (members_view members.now.entries) }
{
    let stored = required_bool(members, SchemaKey::Stored)?;
    Ok(FacetOptions::from_parts(stored))
}

#[tactic(auto, unfolding(crate::specs::SchemaJsonOptions::bytes_options_of))]
fn bytes_options_of(members: &Members) -> Result<BytesOptions, SchemaKey>
    ensures { result ≡ bytes_options_of (members_view members.now.entries) }
{
    let indexed = required_bool(members, SchemaKey::Indexed)?;
    let fast = required_bool(members, SchemaKey::Fast)?;
    let stored = required_bool(members, SchemaKey::Stored)?;
    let fieldnorms = fieldnorms_or(members, indexed)?;
    Ok(BytesOptions::from_parts(indexed, fieldnorms, fast, stored))
}

#[tactic(auto, unfolding(crate::specs::SchemaJsonOptions::json_object_options_of))]
fn json_object_options_of(alloc: Global, members: &Members) -> Result<JsonObjectOptions, EntryFault>
    ensures { ReadsOptions (json_object_options_of (members_view members.now.entries)) result }
{
    let stored = required_bool(members, SchemaKey::Stored)?;
    let fast = required_fast_field(alloc, members)?;
    let indexing = optional_indexing(alloc, members)?;
    let expand_dots_enabled = bool_or(members, SchemaKey::ExpandDots, false)?;
    Ok(JsonObjectOptions::from_parts(stored, indexing, fast, expand_dots_enabled))
}

#[tactic(auto, unfolding(crate::specs::SchemaJsonOptions::ip_addr_options_of))]
fn ip_addr_options_of(members: &Members) -> Result<IpAddrOptions, SchemaKey>
    ensures { result ≡ ip_addr_options_of (members_view members.now.entries) }
{
    let fast = required_bool(members, SchemaKey::Fast)?;
    let stored = required_bool(members, SchemaKey::Stored)?;
    let indexed = required_bool(members, SchemaKey::Indexed)?;
    let fieldnorms = required_bool(members, SchemaKey::Fieldnorms)?;
    Ok(IpAddrOptions::from_parts(indexed, fieldnorms, fast, stored))
}

// The truth value at the key `fieldnorms`, as `indexed` where the key isn't there or null stands there.
#[tactic(auto, unfolding(crate::specs::SchemaJsonOptions::fieldnorms_or))]
fn fieldnorms_or(members: &Members, indexed: bool) -> Result<bool, SchemaKey>
    ensures { result ≡ fieldnorms_or indexed (members_view members.now.entries) }
{
    match present(members, SchemaKey::Fieldnorms) {
        Some(found) => found.as_bool().ok_or(SchemaKey::Fieldnorms),
        None => Ok(indexed),
    }
}

// The indexing at the key `indexing`, `None` where the key isn't there or null stands there.
#[tactic(auto, unfolding(crate::specs::SchemaJsonOptions::optional_indexing))]
fn optional_indexing(
    alloc: Global,
    members: &Members,
) -> Result<Option<TextFieldIndexing>, EntryFault>
    ensures { ReadsOptions (optional_indexing (members_view members.now.entries)) result }
{
    match present(members, SchemaKey::Indexing) {
        Some(found) => {
            let inner = found.as_object().ok_or(SchemaKey::Indexing)?;
            Ok(Some(indexing_of(alloc, inner)?))
        }
        None => Ok(None),
    }
}

#[tactic(auto, unfolding(crate::specs::SchemaJsonOptions::indexing_of))]
fn indexing_of(alloc: Global, members: &Members) -> Result<TextFieldIndexing, EntryFault>
    ensures { ReadsOptions (indexing_of (members_view members.now.entries)) result }
{
    let record = record_or_basic(members)?;
    let fieldnorms = bool_or(members, SchemaKey::IndexingFieldnorms, true)?;
    let tokenizer = text_or(members, SchemaKey::Tokenizer, "default")?;
    let indexing = TextFieldIndexing::default()
        .set_index_option(record)
        .set_fieldnorms(fieldnorms)
        .set_tokenizer(alloc, tokenizer)?;
    Ok(indexing)
}

// The fast field at the key `fast`, none where the key isn't there.
#[tactic(auto, unfolding(crate::specs::SchemaJsonOptions::fast_field_or_none))]
fn fast_field_or_none(alloc: Global, members: &Members) -> Result<FastFieldTextOptions, EntryFault>
    ensures { ReadsOptions (fast_field_or_none (members_view members.now.entries)) result }
{
    match member(members, SchemaKey::FastOfText) {
        Some(found) => fast_field_of(alloc, found),
        None => Ok(FastFieldTextOptions::default()),
    }
}

// The fast field at the key `fast`, which must be there.
#[tactic(auto, unfolding(crate::specs::SchemaJsonOptions::required_fast_field))]
fn required_fast_field(alloc: Global, members: &Members) -> Result<FastFieldTextOptions, EntryFault>
    ensures { ReadsOptions (required_fast_field (members_view members.now.entries)) result }
{
    match member(members, SchemaKey::FastOfText) {
        Some(found) => fast_field_of(alloc, found),
        None => Err(EntryFault::Key(SchemaKey::FastOfText)),
    }
}

#[tactic(auto, unfolding(crate::specs::SchemaJsonOptions::fast_field_of))]
fn fast_field_of(alloc: Global, found: &Value) -> Result<FastFieldTextOptions, EntryFault>
    ensures { ReadsOptions (fast_field_of (view found.now)) result }
{
    match found {
        Value::Bool(enabled) => Ok(FastFieldTextOptions::IsEnabled(*enabled)),
        Value::Object(members) => {
            let name = required_text(members, SchemaKey::WithTokenizer)?;
            Ok(FastFieldTextOptions::EnabledWithTokenizer {
                with_tokenizer: TokenizerName::from_name(alloc, name)?,
            })
        }
        _ => Err(EntryFault::Key(SchemaKey::FastOfText)),
    }
}

// What is kept of each term: the word at the key `record`, the least where the key isn't there.
#[tactic(auto, unfolding(crate::specs::SchemaJsonOptions::record_or_basic))]
fn record_or_basic(members: &Members) -> Result<IndexRecordOption, SchemaKey>
    ensures { result ≡ record_or_basic (members_view members.now.entries) }
{
    match member(members, SchemaKey::Record) {
        Some(found) => {
            let word = found.as_str().ok_or(SchemaKey::Record)?;
            record_of_word(word).ok_or(SchemaKey::Record)
        }
        None => Ok(IndexRecordOption::Basic),
    }
}

// The precision of dates: the word at the key `precision`, seconds where the key isn't there.
#[tactic(auto, unfolding(crate::specs::SchemaJsonOptions::precision_or_seconds))]
fn precision_or_seconds(members: &Members) -> Result<DateTimePrecision, SchemaKey>
    ensures { result ≡ precision_or_seconds (members_view members.now.entries) }
{
    match member(members, SchemaKey::Precision) {
        Some(found) => {
            let word = found.as_str().ok_or(SchemaKey::Precision)?;
            precision_of_word(word).ok_or(SchemaKey::Precision)
        }
        None => Ok(DateTimePrecision::Seconds),
    }
}
