//! Facets: of texts, of steps and of encoded bytes, compared and printed.

use crate::shared;
use anyhow::{Result, anyhow, ensure};
use case_words as words;
use case_words::leaves::facet;
use std::alloc::Global;
use tv_base::Facet;

/// What a call about facets returns.
pub fn answer(alloc: Global, call: &[&str]) -> Result<String> {
    let (name, call) = words::first(call)?;
    match name {
        "root" => shown(alloc, &Facet::root(alloc)),
        "text" => of_text(alloc, call),
        "steps" => of_steps(alloc, call),
        "encoded" => of_bytes(alloc, call),
        "prefix" => is_prefix(alloc, call),
        "compare" => compared(alloc, call),
        _ => Err(anyhow!("an unknown call about facets")),
    }
}

// The facets of two texts.
fn two(alloc: Global, call: &[&str]) -> Result<(Facet, Facet)> {
    let (one, other) = words::two(call)?;
    let one = facet(alloc, one)?;
    Ok((one, facet(alloc, other)?))
}

// Whether a facet is a prefix of another one.
fn is_prefix(alloc: Global, call: &[&str]) -> Result<String> {
    let (upper, lower) = two(alloc, call)?;
    words::plain(alloc, &upper.is_prefix_of(&lower))
}

// How two facets compare.
fn compared(alloc: Global, call: &[&str]) -> Result<String> {
    let (one, other) = two(alloc, call)?;
    words::compared(alloc, &one, &other)
}

// The facet of a text.
fn of_text(alloc: Global, call: &[&str]) -> Result<String> {
    let text = shared::text(alloc, call)?;
    match Facet::from_text(alloc, text.as_str()) {
        Ok(facet) => shown(alloc, &facet),
        Err(error) => words::error(alloc, error),
    }
}

// The facet of encoded bytes.
fn of_bytes(alloc: Global, call: &[&str]) -> Result<String> {
    match Facet::from_encoded(shared::bytes(alloc, call)?) {
        Ok(facet) => shown(alloc, &facet),
        Err(error) => {
            let refused = words::digits(alloc, &error.into_bytes())?;
            shared::answered(format!(in alloc; "error FromUtf8Error {refused}"))
        }
    }
}

// The facet of a JSON array of steps.
fn of_steps(alloc: Global, call: &[&str]) -> Result<String> {
    let texts = words::texts(alloc, words::one(call)?)?;
    let steps = words::lent(alloc, texts.as_slice())?;
    shown(alloc, &Facet::from_path(alloc, &steps)?)
}

// The encoded text of a facet, the printed text, the steps, and whether it is the root.
fn shown(alloc: Global, facet: &Facet) -> Result<String> {
    let printed = facet.to_path_string()?;
    check_printed(alloc, facet, printed.as_str())?;
    check_copy(facet)?;
    let encoded = words::quoted(alloc, facet.encoded_str())?;
    let printed = words::quoted(alloc, printed.as_str())?;
    let steps = steps(alloc, facet)?;
    let root = if facet.is_root() { " root" } else { "" };
    Ok(format!(in alloc; "{encoded} {printed} {steps}{root}")?)
}

// The steps of a facet.
fn steps(alloc: Global, facet: &Facet) -> Result<String> {
    let steps = facet.to_path()?;
    words::quoted_all(alloc, steps.as_slice())
}

// Checks that all ways to print a facet give this text.
fn check_printed(alloc: Global, facet: &Facet, printed: &str) -> Result<()> {
    let mut encoded = String::new(alloc);
    Facet::print_encoded(facet.encoded_str(), &mut encoded)?;
    let all = format!(in alloc; "{encoded} {facet} {facet:?}")?;
    let expected = format!(in alloc; "{printed} {printed} Facet({printed})")?;
    ensure!(words::are_equal(all, expected), "printed otherwise");
    Ok(())
}

// Checks that a copy is equal and has the same hash.
fn check_copy(facet: &Facet) -> Result<()> {
    let copy = facet.try_clone()?;
    ensure!(
        copy == *facet && words::hash(&copy) == words::hash(facet),
        "a copy of a facet differs"
    );
    Ok(())
}
