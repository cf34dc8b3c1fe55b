//! Fields of a schema that are given as words.

use crate::ending::{Failure, wrong_use};
use std::alloc::{AllocError, Global};
use tantivy_schema::schema::{
    BytesOptions, DateOptions, DateTimePrecision, FacetOptions, FieldEntry, FieldType,
    IpAddrOptions, JsonObjectOptions, NumericOptions, STRING, TEXT, TextOptions,
};

// The options of a field.
#[derive(Clone, Copy)]
struct Flags {
    stored: bool,
    indexed: bool,
    fast: bool,
}

// Those of a field without a flag.
const NONE: Flags = Flags {
    stored: false,
    indexed: false,
    fast: false,
};

// The flags that a word lists, with a comma between each two, or the first that is none.
fn flags_of(options: &str) -> Result<Flags, &str> {
    let mut flags = NONE;
    for option in options.split(",") {
        match option {
            "stored" => flags.stored = true,
            "indexed" => flags.indexed = true,
            "fast" => flags.fast = true,
            other => return Err(other),
        }
    }
    Ok(flags)
}

// Options of numbers and truth values. What is indexed has field norms, as by tantivy's `INDEXED`.
fn numeric(flags: Flags) -> NumericOptions {
    NumericOptions::from_parts(
        flags.indexed,
        flags.indexed,
        flags.fast,
        flags.stored,
        false,
    )
}

// Options of texts, as they stand and with these flags.
fn text_options(
    alloc: Global,
    mut options: TextOptions,
    flags: Flags,
) -> Result<TextOptions, AllocError> {
    if flags.stored {
        options = options.set_stored();
    }
    if flags.fast {
        options = options.set_fast(alloc, None)?;
    }
    Ok(options)
}

// The type of texts or JSON of this name with these flags.
fn text_type(alloc: Global, name: &str, flags: Flags) -> Result<FieldType, AllocError> {
    if name == "json" {
        let texts = if flags.indexed {
            TEXT
        } else {
            TextOptions::default()
        };
        let texts = text_options(alloc, texts, flags)?;
        return Ok(FieldType::JsonObject(JsonObjectOptions::from(texts)));
    }
    let texts = if name == "text" { TEXT } else { STRING };
    Ok(FieldType::Str(text_options(alloc, texts, flags)?))
}

// Another type of this name with these flags, if there is one.
fn plain_type(name: &str, flags: Flags) -> Option<FieldType> {
    let Flags {
        stored,
        indexed,
        fast,
    } = flags;
    let seconds = DateTimePrecision::Seconds;
    Some(match name {
        "u64" => FieldType::U64(numeric(flags)),
        "i64" => FieldType::I64(numeric(flags)),
        "bool" => FieldType::Bool(numeric(flags)),
        "date" => FieldType::Date(DateOptions::from_parts(indexed, indexed, fast, stored, seconds)),
        "ip" => FieldType::IpAddr(IpAddrOptions::from_parts(indexed, indexed, fast, stored)),
        "bytes" => FieldType::Bytes(BytesOptions::from_parts(indexed, indexed, fast, stored)),
        "facet" => FieldType::Facet(FacetOptions::from_parts(stored)),
        _ => return None,
    })
}

// The type of this name with these flags, if there is one.
fn type_of(alloc: Global, name: &str, flags: Flags) -> Result<Option<FieldType>, AllocError> {
    match name {
        "text" | "string" | "json" => Ok(Some(text_type(alloc, name, flags)?)),
        _ => Ok(plain_type(name, flags)),
    }
}

// A word that names an option or a type that there isn't.
fn unknown(alloc: Global, word: &str, what: &str, name: &str) -> Failure {
    match format!(in alloc; "there is no {what} \"{name}\"") {
        Ok(said) => wrong_use(alloc, word, said),
        Err(_) => Failure::Memory,
    }
}

// The type of a word `NAME:TYPE` or `NAME:TYPE:OPTION,OPTION`, by what comes after its name.
fn type_given(alloc: Global, word: &str, rest: &str) -> Result<FieldType, Failure> {
    let (name, options) = match rest.split_once(":") {
        None => (rest, Ok(NONE)),
        Some((name, options)) => (name, flags_of(options)),
    };
    let flags = match options {
        Ok(flags) => flags,
        Err(option) => return Err(unknown(alloc, word, "option", option)),
    };
    match type_of(alloc, name, flags)? {
        Some(field_type) => Ok(field_type),
        None => Err(unknown(alloc, word, "type", name)),
    }
}

/// The field of a word `NAME:TYPE` or `NAME:TYPE:OPTION,OPTION`. A word of another form is a wrong use, and so is a type or an option that there isn't.
pub(crate) fn entry_of(alloc: Global, word: &str) -> Result<FieldEntry, Failure> {
    let Some((name, rest)) = word.split_once(":") else {
        return Err(wrong_use(alloc, word, "a field is NAME:TYPE or NAME:TYPE:OPTION,.."));
    };
    let name = String::from_str(alloc, name)?;
    match FieldEntry::new(name, type_given(alloc, word, rest)?) {
        Ok(entry) => Ok(entry),
        Err(error) => Err(wrong_use(alloc, word, error)),
    }
}
