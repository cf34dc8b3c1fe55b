//! Counts of facets as a table with bars.

use crate::ending::Failure;
use crate::files::Output;
use std::alloc::{AllocError, Global};

// The bar of the greatest count has this many characters.
const LONGEST: u64 = 40;

// How wide the columns of a table are, in characters, and its greatest count.
#[derive(Clone, Copy)]
struct Columns {
    child: usize,
    count: usize,
    greatest: u64,
}

/// Appends a character this many times.
pub(crate) fn push_times(text: &mut String, what: char, times: usize) -> Result<(), AllocError> {
    for _ in 0..times {
        text.push(what)?;
    }
    Ok(())
}

// The child and the count of a line `CHILD: COUNT`.
fn parts(line: &str) -> (&str, &str) {
    line.rsplit_once(": ").unwrap_or((line, ""))
}

// How many characters the bar of a count has: its share of those of the greatest count, rounded, and at least one where the count isn't 0.
fn bar(count: u64, greatest: u64) -> usize {
    let share = count.saturating_mul(LONGEST).saturating_add(greatest / 2) / greatest.max(1);
    share.max(count.min(1)).min(LONGEST) as usize
}

// Columns that are wide enough for a line of this count too.
fn widened(columns: Columns, line: &str, count: u64) -> Columns {
    let (child, number) = parts(line);
    Columns {
        child: columns.child.max(child.chars().count()),
        count: columns.count.max(number.len()),
        greatest: columns.greatest.max(count),
    }
}

// The row of a line: the child, the bar and the count, with two spaces between each two.
fn row(alloc: Global, columns: Columns, line: &str, count: u64) -> Result<String, AllocError> {
    let (child, number) = parts(line);
    let bar = bar(count, columns.greatest);
    let after_child = columns.child.saturating_sub(child.chars().count());
    let after_bar = (LONGEST as usize).saturating_sub(bar);
    let before_count = columns.count.saturating_sub(number.len());
    let mut row = String::from_str(alloc, child)?;
    push_times(&mut row, ' ', after_child.saturating_add(2))?;
    push_times(&mut row, '█', bar)?;
    push_times(
        &mut row,
        ' ',
        after_bar.saturating_add(before_count).saturating_add(2),
    )?;
    row.push_str(number)?;
    Ok(row)
}

// Columns that are wide enough for these lines, each with its count.
fn columns_of(lines: &[(String, u64)]) -> Columns {
    let mut columns = Columns {
        child: 0,
        count: 0,
        greatest: 0,
    };
    for (line, count) in lines {
        columns = widened(columns, line.as_str(), *count);
    }
    columns
}

/// Appends lines `CHILD: COUNT` as a table: each child, a bar as long as its share of the greatest count, and the count. The columns are aligned by characters.
pub(crate) fn print_table(
    alloc: Global,
    lines: &[(String, u64)],
    output: &mut Output,
) -> Result<(), Failure> {
    let columns = columns_of(lines);
    for (line, count) in lines {
        output.print_line(row(alloc, columns, line.as_str(), *count)?.as_str())?;
    }
    Ok(())
}
