//! Calls that are made one after another on a schema or a term, and what it holds before and after each of them.

use crate::{schemas, terms};
use anyhow::{Result, anyhow};
use case_words as words;
use case_words::schemas::built;
use case_words::states::{self, Objects, is_refused};
use std::alloc::Global;
use tv_schema::{Schema, SchemaBuilder};
use tv_term::Term;

struct Held;

impl Objects for Held {
    fn held(alloc: Global, object: &str, calls: &[&str], answer: &mut String) -> Result<String> {
        match object {
            "schema" => of_schema(alloc, calls, answer),
            "term" => of_term(alloc, calls, answer),
            _ => Err(anyhow!("an unknown object")),
        }
    }
}

/// What an object holds before its calls, and after each of them. The first word is the row's name.
pub fn answer(alloc: Global, call: &[&str]) -> Result<String> {
    states::answer::<Held>(alloc, call)
}

// The JSON of the schema of a builder, to which fields of texts are added.
fn of_schema(alloc: Global, names: &[&str], answer: &mut String) -> Result<String> {
    let mut builder = Schema::builder(alloc);
    let outcome = add_texts(alloc, &mut builder, names, answer);
    schemas::printed(alloc, &built(builder, outcome)?)
}

// Adds fields of texts up to the first that is refused. Puts its refusal after the answer.
fn add_texts(
    alloc: Global,
    builder: &mut SchemaBuilder,
    names: &[&str],
    answer: &mut String,
) -> Result<()> {
    for (place, name) in names.iter().enumerate() {
        let outcome = schemas::add_text(alloc, builder, name)?;
        if is_refused(answer, place, outcome)? {
            break;
        }
    }
    Ok(())
}

// The bytes of a term that is changed by steps.
fn of_term(alloc: Global, steps: &[&str], answer: &mut String) -> Result<String> {
    let mut term = terms::wrapped(alloc, "new")?;
    change(alloc, &mut term, steps, answer)?;
    words::digits(alloc, term.serialized_term())
}

// Changes a term by steps up to the first that is refused. Puts its refusal after the answer.
fn change(alloc: Global, term: &mut Term, steps: &[&str], answer: &mut String) -> Result<()> {
    for (place, step) in steps.iter().enumerate() {
        let outcome = terms::edit(alloc, term, step)?;
        if is_refused(answer, place, outcome)? {
            break;
        }
    }
    Ok(())
}
