//! Calls that are made one after another on an object, and what it holds before and after each of them.

use anyhow::{Result, anyhow};
use std::alloc::Global;
use std::fmt::{Debug, Write};

/// Objects that a row names.
pub trait Objects {
    /// What a new object holds after these calls, the last of which is the first that is refused. Puts that refusal after the answer.
    fn held(alloc: Global, object: &str, calls: &[&str], answer: &mut String) -> Result<String>;
}

/// What an object holds before its calls, and after each of them. The first word is the row's name.
pub fn answer<O: Objects>(alloc: Global, call: &[&str]) -> Result<String> {
    let [_name, object, calls @ ..] = call else {
        return Err(anyhow!("an unknown row"));
    };
    let mut answer = String::new(alloc);
    for count in 0..=calls.len() {
        if count > 0 {
            answer.push('\t')?;
        }
        let held = O::held(alloc, object, &calls[..count], &mut answer)?;
        answer.push_str(held.as_str())?;
    }
    Ok(answer)
}

/// Whether a call is refused. Puts the refusal and the place of the call after the answer.
pub fn is_refused<T: Drop, E: Debug + Drop>(
    answer: &mut String,
    place: usize,
    outcome: Result<T, E>,
) -> Result<bool> {
    let Err(error) = outcome else {
        return Ok(false);
    };
    write!(answer, "error {error:?} at {place}: ")?;
    Ok(true)
}
