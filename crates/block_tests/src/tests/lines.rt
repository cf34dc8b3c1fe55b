//! Lines of JSON that are imported to a block, which is then tested and searched. The printed lines and the numbers of lines and documents are
//! worked out by hand.

ghost use Rattle.std.specs.Prelude.{[]};

use std::alloc::{AllocError, Global};
use std::test::Fail;
use tv_base::{SliceSource, VecSink};
use tv_blocks::read_schema;
use tv_doc::parse_buffers::ParseBuffers;
use tv_format::WriteVersion;
use tv_lines::check::check_block;
use tv_lines::find::{DocumentOutcome, Found, find_in_block};
use tv_lines::import::{FaultRule, ImportRules, LineImporter, LineOutcome};
use tv_lines::imports::{Imported, import_lines};
use tv_lines::report::{DocumentReport, LineReport, Report};
use tv_query::Query;
use tv_schema::Schema;
use tv_store::{DocStoreVersion, Projection, ReadLimits, Unwatched};

const SCHEMA: &[u8] = br#"[{"name":"u","type":"u64","options":{"indexed":true,"stored":true}},
{"name":"s","type":"text","options":{"indexing":{"record":"basic","fieldnorms":true,"tokenizer":"raw"},"stored":true}}]"#;

// Three documents, and a line that makes none.
const LINES: &str = "{\"u\":7,\"s\":\"tent\"}\n{\"u\":\"x\"}\n{\"u\":8}\n{\"s\":\"tents\",\"u\":7}";

const UNLIMITED: ReadLimits = ReadLimits {
    bytes: None,
    heap_bytes: None,
    depth: None,
};

/// The numbers of the lines or documents of one kind that were told.
#[derive(Drop)]
struct Numbers {
    told: Vec<u64>,
}

impl Report<LineReport> for Numbers {
    type Error = AllocError;

    ghost is_known = { λ _. ⊥ };

    ghost told = { λ _. [] };

    // Keeps the number of a line that is refused.
    fn tell(&mut self, next: LineReport) -> Result<(), AllocError> {
        match next.outcome {
            LineOutcome::Refused(_) => Ok(self.told.push(next.line)?),
            LineOutcome::Stored { .. } => Ok(()),
        }
    }
}

impl Report<DocumentReport> for Numbers {
    type Error = AllocError;

    ghost is_known = { λ _. ⊥ };

    ghost told = { λ _. [] };

    // Keeps the number of a document that is found.
    fn tell(&mut self, next: DocumentReport) -> Result<(), AllocError> {
        match next.outcome {
            DocumentOutcome::Found => Ok(self.told.push(next.document)?),
            DocumentOutcome::NotFound | DocumentOutcome::Faulty(_) => Ok(()),
        }
    }
}

// Imports the lines to the sink, and gives how many were stored, and the numbers of those that are refused.
fn import(alloc: Global, schema: &Schema, block: &mut VecSink) -> Option<(Imported, Vec<u64>)> {
    let mut importer = LineImporter::new(
        alloc,
        ImportRules {
            version: WriteVersion::V2,
            strict: false,
            faults: FaultRule::Tell,
        },
    );
    let mut buffers = ParseBuffers::new(alloc);
    let mut source = SliceSource::new(LINES.as_bytes());
    let mut refused = Numbers {
        told: Vec::new(alloc),
    };
    match import_lines(
        &mut importer,
        schema,
        &mut buffers,
        &mut source,
        block,
        &mut refused,
        &mut Unwatched,
    ) {
        Ok(imported) => Some((imported, refused.told)),
        Err(_) => None,
    }
}

#[test]
fn lines_are_imported_to_a_block(rt: HostRuntime) -> Result<(), Fail> {
    let alloc = rt.alloc();
    let schema = read_schema(alloc, SCHEMA).expect(&rt, "a schema");
    let mut block = VecSink::new(alloc);
    let (imported, refused) = import(alloc, &schema, &mut block).expect(&rt, "an import");
    assert!(rt; imported.stored == 3 && imported.unsearchable == 0 && imported.refused == 1);
    assert!(rt; refused.as_slice() == [2].as_slice());
    let mut source = SliceSource::new(block.as_slice());
    let checked = check_block(
        alloc,
        DocStoreVersion::V2,
        UNLIMITED,
        &mut source,
        &mut Unwatched,
    );
    assert!(rt; checked == Ok(3));
    Ok(())
}

// The documents of the block that the query finds: the lines that are printed, how many there are, and their numbers.
fn found(
    alloc: Global,
    schema: &Schema,
    block: &[u8],
    text: &str,
) -> Option<(VecSink, Found, Vec<u64>)> {
    let Ok(query) = Query::parse(alloc, schema, text) else {
        return None;
    };
    let mut lines = VecSink::new(alloc);
    let mut numbers = Numbers {
        told: Vec::new(alloc),
    };
    match find_in_block(
        alloc,
        schema,
        DocStoreVersion::V2,
        &Projection::All(UNLIMITED),
        &query,
        &mut SliceSource::new(block),
        &mut lines,
        &mut numbers,
        &mut Unwatched,
    ) {
        Ok(found) => Some((lines, found, numbers.told)),
        Err(_) => None,
    }
}

#[test]
fn documents_are_found_in_a_block(rt: HostRuntime) -> Result<(), Fail> {
    let alloc = rt.alloc();
    let schema = read_schema(alloc, SCHEMA).expect(&rt, "a schema");
    let mut block = VecSink::new(alloc);
    let _ = import(alloc, &schema, &mut block).expect(&rt, "an import");
    let (lines, found, numbers) = found(
        alloc,
        &schema,
        block.as_slice(),
        "u:7 AND (s:tents OR s:ten*)",
    )
    .expect(&rt, "a search");
    assert!(rt; found.documents == 3 && found.found == 2 && found.faulty == 0);
    assert!(rt; numbers.as_slice() == [0, 2].as_slice());
    assert!(rt;
        lines.as_slice()
            == b"{\"s\":[\"tent\"],\"u\":[7]}\n{\"s\":[\"tents\"],\"u\":[7]}\n".as_slice()
    );
    Ok(())
}
