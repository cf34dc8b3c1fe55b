//! Documents that can't be searched, and fields that can't.

use crate::ending::{Ending, Failure, escaped, wrong_use};
use crate::progress::ERASING;
use std::alloc::{AllocError, Global};
use std::io::Eprint;
use tantivy_schema::schema::{Field, Schema, TermValuesError};
use tv_lines::find::DocumentOutcome;
use tv_lines::report::DocumentReport;
use tv_lines::terms::{first_unstored, name_of, name_of_faulty};

/// Tells on the standard error which documents of a block can't be searched, and why.
#[derive(Drop)]
pub(crate) struct Faults {
    rt: HostRuntime,
    block: String,
    // Whether a line of progress is erased before.
    is_erasing: bool,
    told: u64,
}

/// Which field of a document has a value without a term, and why.
pub(crate) fn why_faulty(
    alloc: Global,
    schema: &Schema,
    fault: &TermValuesError,
) -> Result<String, AllocError> {
    let name = name_of_faulty(schema, fault);
    format!(in alloc; "field {name:?}: {fault}")
}

impl Faults {
    /// Those of the block of this name. A line of progress may have to be erased before each.
    pub(crate) fn new(
        rt: &HostRuntime,
        block: &str,
        is_erasing: bool,
    ) -> Result<Faults, AllocError> {
        Ok(Faults {
            rt: *rt,
            block: String::from_str(rt.alloc(), block)?,
            is_erasing,
            told: 0,
        })
    }

    // What is said of a document.
    fn said(
        &self,
        schema: &Schema,
        report: &DocumentReport,
        fault: &TermValuesError,
    ) -> Result<String, AllocError> {
        let (block, number, start) = (self.block.as_str(), report.document, report.start);
        let why = why_faulty(self.rt.alloc(), schema, fault)?;
        format!(in self.rt.alloc();
            "{block}: document {number}, which begins at byte {start}: {why}"
        )
    }

    /// Tells a document, if it can't be searched.
    pub(crate) fn tell(&mut self, schema: &Schema, report: DocumentReport) -> Result<(), Failure> {
        let DocumentOutcome::Faulty(fault) = report.outcome else {
            return Ok(());
        };
        let said = self.said(schema, &report, &fault)?;
        self.told = self.told.saturating_add(1);
        let said = escaped(self.rt.alloc(), said.as_str())?;
        let erasing = if self.is_erasing { ERASING } else { "" };
        let _ = eprintln!(self.rt; "{erasing}{said}");
        Ok(())
    }

    /// How a command ends that did all but for the documents that were told.
    pub(crate) fn ending(&self) -> Ending {
        if self.told > 0 {
            Ending::Refused
        } else {
            Ending::Done
        }
    }
}

/// Refuses a search by these fields where one of them isn't stored.
pub(crate) fn refuse_unstored(
    alloc: Global,
    schema: &Schema,
    fields: &[Field],
) -> Result<(), Failure> {
    match first_unstored(schema, fields) {
        Some(field) => Err(wrong_use(
            alloc,
            name_of(schema, *field),
            "the field isn't stored, so a block has nothing of it",
        )),
        None => Ok(()),
    }
}
