//! Calls that are made one after another on a document or a builder, and what it holds before and after each of them.

use crate::{builder, documents};
use anyhow::{Result, anyhow};
use case_words as words;
use case_words::states::{self, Objects, is_refused};
use std::alloc::Global;
use tv_doc::builder::TreeBuilder;
use tv_doc::document::CompactDoc;

struct Held;

impl Objects for Held {
    fn held(alloc: Global, object: &str, calls: &[&str], answer: &mut String) -> Result<String> {
        match object {
            "document" => of_document(alloc, calls, answer),
            "builder" => of_builder(alloc, calls, answer),
            _ => Err(anyhow!("an unknown object")),
        }
    }
}

/// What an object holds before its calls, and after each of them. The first word is the row's name.
pub fn answer(alloc: Global, call: &[&str]) -> Result<String> {
    states::answer::<Held>(alloc, call)
}

// The heap and the pairs of a document, to which values are added.
fn of_document(alloc: Global, values: &[&str], answer: &mut String) -> Result<String> {
    let mut document = CompactDoc::new(alloc);
    for (place, value) in values.iter().enumerate() {
        let outcome = builder::add(alloc, &mut document, value)?;
        if is_refused(answer, place, outcome)? {
            break;
        }
    }
    documents::shown(alloc, &document)
}

// The heap and the pairs of the document that a tree builder gives after its calls.
fn of_builder(alloc: Global, calls: &[&str], answer: &mut String) -> Result<String> {
    let mut builder = TreeBuilder::new(CompactDoc::new(alloc));
    for (place, word) in calls.iter().enumerate() {
        let (call, content) = words::parted(word);
        let outcome = builder::build(alloc, &mut builder, call, content)?;
        if is_refused(answer, place, outcome)? {
            break;
        }
    }
    documents::shown(alloc, &builder.into_doc())
}
