//! Paths into JSON objects, split into segments and joined.

use crate::shared;
use anyhow::{Result, anyhow};
use case_words as words;
use std::alloc::Global;
use tv_base::{join_json_path, joined_json_path, split_json_path};

/// What a call about paths returns.
pub fn answer(alloc: Global, call: &[&str]) -> Result<String> {
    let (name, call) = words::first(call)?;
    match name {
        "split" => split(alloc, call),
        "join" => of_segments(alloc, call),
        "joined" => of_path(alloc, call),
        _ => Err(anyhow!("an unknown call about paths")),
    }
}

// The segments of a path.
fn split(alloc: Global, call: &[&str]) -> Result<String> {
    let path = shared::text(alloc, call)?;
    words::quoted_all(alloc, split_json_path(alloc, path.as_str())?.as_slice())
}

// The encoded path of segments.
fn of_segments(alloc: Global, call: &[&str]) -> Result<String> {
    let (segments, dots) = words::two(call)?;
    let segments = words::texts(alloc, segments)?;
    let joined = join_json_path(alloc, &segments, dots == "expanded")?;
    words::quoted(alloc, joined.as_str())
}

// The encoded path of a path.
fn of_path(alloc: Global, call: &[&str]) -> Result<String> {
    let (path, dots) = words::two(call)?;
    let path = words::text(alloc, path)?;
    let joined = joined_json_path(alloc, path.as_str(), dots == "expanded")?;
    words::quoted(alloc, joined.as_str())
}
