//! The words by which types, records and precisions are written.

ghost use Rattle.std.specs.Prelude.{◌≡◌};
ghost use Rattle.tv_schema.specs.SchemaJson.{type_word, record_word, precision_word};
ghost use Rattle.tv_schema.specs.SchemaJsonOptions.{type_of_word, record_of_word, precision_of_word};

use tv_options::{DateTimePrecision, IndexRecordOption, Type};

// The word of a type.
pub(super) fn type_word(value_type: Type) -> &'static str
    ensures { result.now ≡ type_word value_type }
{
    match value_type {
        Type::Str => "text",
        Type::U64 => "u64",
        Type::I64 => "i64",
        Type::Bool => "bool",
        Type::Date => "date",
        Type::Facet => "facet",
        Type::Bytes => "bytes",
        Type::Json => "json_object",
        Type::IpAddr => "ip_addr",
    }
}

// The word for what an index keeps of each term.
pub(super) fn record_word(option: IndexRecordOption) -> &'static str
    ensures { result.now ≡ record_word option }
{
    match option {
        IndexRecordOption::Basic => "basic",
        IndexRecordOption::WithFreqs => "freq",
        IndexRecordOption::WithFreqsAndPositions => "position",
    }
}

// The word of a precision.
pub(super) fn precision_word(precision: DateTimePrecision) -> &'static str
    ensures { result.now ≡ precision_word precision }
{
    match precision {
        DateTimePrecision::Seconds => "seconds",
        DateTimePrecision::Milliseconds => "milliseconds",
        DateTimePrecision::Microseconds => "microseconds",
        DateTimePrecision::Nanoseconds => "nanoseconds",
    }
}

// The type of a word.
#[tactic(auto, unfolding(crate::specs::SchemaJsonOptions::type_of_word))]
pub(super) fn type_of_word(word: &str) -> Option<Type>
    ensures { result ≡ type_of_word word.now }
{
    match word {
        "text" => Some(Type::Str),
        "u64" => Some(Type::U64),
        "i64" => Some(Type::I64),
        "bool" => Some(Type::Bool),
        "date" => Some(Type::Date),
        "facet" => Some(Type::Facet),
        "bytes" => Some(Type::Bytes),
        "json_object" => Some(Type::Json),
        "ip_addr" => Some(Type::IpAddr),
        _ => None,
    }
}

// What an index keeps of each term, by its word.
#[tactic(auto, unfolding(crate::specs::SchemaJsonOptions::record_of_word))]
pub(super) fn record_of_word(word: &str) -> Option<IndexRecordOption>
    ensures { result ≡ record_of_word word.now }
{
    match word {
        "basic" => Some(IndexRecordOption::Basic),
        "freq" => Some(IndexRecordOption::WithFreqs),
        "position" => Some(IndexRecordOption::WithFreqsAndPositions),
        _ => None,
    }
}

// The precision of a word.
#[tactic(auto, unfolding(crate::specs::SchemaJsonOptions::precision_of_word))]
pub(super) fn precision_of_word(word: &str) -> Option<DateTimePrecision>
    ensures { result ≡ precision_of_word word.now }
{
    match word {
        "seconds" => Some(DateTimePrecision::Seconds),
        "milliseconds" => Some(DateTimePrecision::Milliseconds),
        "microseconds" => Some(DateTimePrecision::Microseconds),
        "nanoseconds" => Some(DateTimePrecision::Nanoseconds),
        _ => None,
    }
}
