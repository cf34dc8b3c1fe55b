//! The words of the command.

use clap::{Arg, ArgAction, Command};
use std::alloc::{AllocError, Global};

// A line for each word: its key, its kind, its name, what its value is called, and its help. An option has its name after two hyphens.
const WORDS: &str = "\
show.FILE|argument|FILE|FILE|The schema's JSON; - is the standard input
new.FIELD|several|FIELD|NAME:TYPE[:OPTION,..]|Types: text, string, u64, i64, bool, date, facet, bytes, json, ip. \
Options: indexed, stored, fast; texts and facets always are indexed
schema|required|schema|FILE|The schema's JSON, as tantivy writes it
import.FILE|any|FILE|FILE|Files of lines; - or none is the standard input
output|output|output|FILE|Where the result goes; - is the standard output
store-version|written|store-version|NUMBER|The version that is written: 2 or 3
import.offsets|option|offsets|FILE|Where each document begins, 8 bytes each, the lowest first
errors|option|errors|FILE|Where lines that are refused are reported
strict|flag|strict||Refuse a key that no field has, and a key that stands twice
progress|loud|progress||Show bytes, documents, rate and time left on the standard error, also where it is no terminal
quiet|flag|quiet||Show no progress and no summary
version|version|version|NUMBER|The version of the block: 1, 2 or 3
BLOCK|argument|BLOCK|BLOCK|The file of the block; - is the standard input
fields|option|fields|NAMES|Only these fields, with a comma between each two; not with limits
pretty|flag|pretty||Print each document over several lines, indented
limit-bytes|number|limit-bytes|NUMBER|Refuse a document of more bytes
limit-depth|number|limit-depth|NUMBER|Refuse a document whose values nest in more lists
NUMBER|numbers|NUMBER|NUMBER|The numbers
get.offsets|option|offsets|FILE|Where each document begins, as import writes it: no document before is read
terms.FIELD|argument|FIELD|FIELD|The field, or a path into its JSON objects
range|option|range|RANGE|Only the terms of this range, as in a query
prefix|option|prefix|TEXT|Only the terms that begin with the term of this text; not with a range
counts|flag|counts||Print how many documents have each
raw|flag|raw||Print control characters as they stand, not as escapes
memory|memory|memory|BYTES|Terms that take more bytes are sorted in temporary files; K, M or G may follow the number
temporary|option|temporary|FOLDER|Where temporary files are made: else in the folder of TMPDIR, or in /tmp
QUERY|argument|QUERY|QUERY|Clauses PATH:WHAT with AND, OR, NOT and parentheses
count|flag|count||Print their number alone
facets.FIELD|argument|FIELD|FIELD|The field of facets
FACET|argument|FACET|FACET|The facet whose children are counted
top|number|top|NUMBER|Only this number of children, those with the most documents first
bars|flag|bars||Print a table with bars, also where the standard output is no terminal
from|from|from|NUMBER|The version of the block: 1, 2 or 3
to|to|to|NUMBER|The version that is written: 2 or 3";

// The commands below `schema`. Each has three lines: its name and what it does; the keys of its words; and what its help ends with, which may go on.
static BELOW_SCHEMA: [&str; 2] = [
    "show|Prints the fields of a schema as a table
show.FILE
",
    "new|Prints the JSON of a schema with these fields
new.FIELD
Example: kormaglen schema new name:text:stored age:u64:indexed,stored group:facet",
];

// The other commands.
static COMMANDS: [&str; 9] = [
    "import|Stores the documents of lines of JSON
schema import.FILE output store-version import.offsets errors strict progress quiet
Example: kormaglen import --schema shop.json products.jsonl -o products.block",
    "export|Prints the documents of a block as lines of JSON
schema version BLOCK output fields pretty limit-bytes limit-depth progress quiet
Example: kormaglen export --schema shop.json products.block --fields name,price",
    "get|Prints documents by their numbers, counted from 0
schema version BLOCK NUMBER get.offsets pretty limit-bytes limit-depth
Example: kormaglen get --schema shop.json products.block 0 17",
    "terms|Prints the terms of a field, each once, in their order
schema version BLOCK terms.FIELD range prefix counts raw memory temporary limit-bytes limit-depth progress quiet
Example: kormaglen terms --schema shop.json products.block price --range '[10 TO 20]' --counts",
    "find|Prints the documents of a block that a query matches, as lines of JSON
schema version BLOCK QUERY count limit-bytes limit-depth progress quiet
Example: kormaglen find --schema shop.json products.block 'category:/shop AND price:[10 TO 20]'",
    "facets|Counts documents by the children of a facet
schema version BLOCK facets.FIELD FACET top bars raw limit-bytes limit-depth progress quiet
Memory is kept for the children that are counted.

Example: kormaglen facets --schema shop.json products.block category /shop",
    "migrate|Writes the documents of a block in another version of the store
BLOCK from to output progress quiet
Example: kormaglen migrate old.block --from 1 --to 2 -o new.block",
    "check|Tests that a file is a block of documents, and nothing else
version BLOCK limit-bytes limit-depth progress quiet
Example: kormaglen check products.block",
    "stat|Counts the documents, bytes and values of a block
schema version BLOCK limit-bytes limit-depth progress quiet
Example: kormaglen stat --schema shop.json products.block",
];

// A word of the command line.
#[derive(Clone, Copy)]
struct Word {
    kind: &'static str,
    name: &'static str,
    // what its value is called
    value: &'static str,
    help: &'static str,
}

// A text up to a separator, and what comes after it.
fn cut(text: &'static str, separator: &str) -> (&'static str, &'static str) {
    text.split_once(separator).unwrap_or((text, ""))
}

// The line of a word, after its key.
fn line_of(key: &str) -> &'static str {
    for words in WORDS.split('\n') {
        let (found, rest) = cut(words, "|");
        if found == key {
            return rest;
        }
    }
    ""
}

// The word of a line.
fn word_of(line: &'static str) -> Word {
    let (kind, rest) = cut(line, "|");
    let (name, rest) = cut(rest, "|");
    let (value, help) = cut(rest, "|");
    Word {
        kind,
        name,
        value,
        help,
    }
}

// An argument without what its kind adds.
fn named<'a>(alloc: Global, word: &Word) -> Arg<'a> {
    Arg::new(alloc, word.name).help(word.help)
}

// An option without a value.
fn flag<'a>(alloc: Global, word: &Word) -> Arg<'a> {
    named(alloc, word)
        .long(word.name)
        .action(ArgAction::SetTrue)
}

// An option with a value, or an argument with one.
fn valued<'a>(alloc: Global, word: &Word) -> Arg<'a> {
    named(alloc, word)
        .value_name(word.value)
        .action(ArgAction::Set)
}

// An option with a value.
fn option<'a>(alloc: Global, word: &Word) -> Arg<'a> {
    valued(alloc, word).long(word.name)
}

// An option with a value that is there also where it is left out.
fn with_default<'a>(alloc: Global, word: &Word, value: &'static str) -> Arg<'a> {
    option(alloc, word).default_value(value)
}

// A version of the store that is read, or one that is written.
fn with_versions<'a>(option: Arg<'a>, is_written: bool) -> Arg<'a> {
    let versions = ["1", "2", "3"].as_slice();
    option.value_parser(if is_written { &versions[1..] } else { versions })
}

// An argument with at least this many values.
fn values<'a>(alloc: Global, word: &Word, least: usize) -> Arg<'a> {
    valued(alloc, word)
        .num_args(least..)
        .required(least > 0)
        .action(ArgAction::Append)
}

// An argument of a kind.
fn positional<'a>(alloc: Global, word: &Word) -> Arg<'a> {
    match word.kind {
        "argument" => valued(alloc, word).required(true),
        "any" => values(alloc, word, 0),
        "several" => values(alloc, word, 1),
        _ => values(alloc, word, 1).value_parser(clap::value_parser!(u64)),
    }
}

// An option whose value is a version of the store: one that is read, or one that is written.
fn versioned<'a>(alloc: Global, word: &Word) -> Arg<'a> {
    match word.kind {
        "version" => with_versions(with_default(alloc, word, "2"), false),
        "from" => with_versions(option(alloc, word).required(true), false),
        "written" => with_versions(with_default(alloc, word, "2"), true),
        _ => with_versions(option(alloc, word).required(true), true),
    }
}

// An option of another kind, with a value.
fn other<'a>(alloc: Global, word: &Word) -> Arg<'a> {
    match word.kind {
        "required" => option(alloc, word).required(true),
        "number" => option(alloc, word).value_parser(clap::value_parser!(u64)),
        "output" => with_default(alloc, word, "-").short('o'),
        "memory" => with_default(alloc, word, "256M"),
        _ => option(alloc, word),
    }
}

// An option or an argument. A loud option can't stand beside `--quiet`.
fn arg<'a>(alloc: Global, word: &Word) -> Result<Arg<'a>, AllocError> {
    match word.kind {
        "flag" => Ok(flag(alloc, word)),
        "loud" => flag(alloc, word).conflicts_with("quiet"),
        "argument" | "any" | "several" | "numbers" => Ok(positional(alloc, word)),
        "version" | "from" | "written" | "to" => Ok(versioned(alloc, word)),
        _ => Ok(other(alloc, word)),
    }
}

// Adds the argument of a key.
fn push_arg<'a>(alloc: Global, args: &mut Vec<Arg<'a>>, key: &str) -> Result<(), AllocError> {
    args.push(arg(alloc, &word_of(line_of(key)))?)?;
    Ok(())
}

// The arguments of these keys.
fn args<'a>(alloc: Global, keys: &'static str) -> Result<Vec<Arg<'a>>, AllocError> {
    let mut args = Vec::new(alloc);
    for key in keys.split(' ') {
        push_arg(alloc, &mut args, key)?;
    }
    Ok(args)
}

// The command of a text.
fn command_of<'a>(alloc: Global, text: &'static str) -> Result<Command<'a>, AllocError> {
    let (head, rest) = cut(text, "\n");
    let (name, about) = cut(head, "|");
    let (keys, example) = cut(rest, "\n");
    let args = args(alloc, keys)?;
    Command::new(alloc, name)
        .about(about)
        .after_help(example)
        .args(args)
}

// Adds a command that may not have been made.
fn push_command<'a>(
    commands: &mut Vec<Command<'a>>,
    command: Result<Command<'a>, AllocError>,
) -> Result<(), AllocError> {
    commands.push(command?)?;
    Ok(())
}

// Adds the commands of texts to commands.
fn push_commands<'a>(
    alloc: Global,
    commands: &mut Vec<Command<'a>>,
    texts: &[&'static str],
) -> Result<(), AllocError> {
    for text in texts {
        push_command(commands, command_of(alloc, *text))?;
    }
    Ok(())
}

// A command with commands below it, and what it does.
fn with_commands<'a>(
    command: Command<'a>,
    about: &'static str,
    below: Vec<Command<'a>>,
) -> Result<Command<'a>, AllocError> {
    command
        .about(about)
        .subcommand_required(true)
        .subcommands(below)
}

// The command `schema`.
fn schema<'a>(alloc: Global) -> Result<Command<'a>, AllocError> {
    let mut below = Vec::new(alloc);
    push_commands(alloc, &mut below, &BELOW_SCHEMA)?;
    with_commands(
        Command::new(alloc, "schema"),
        "Shows and makes schemas",
        below,
    )
}

/// The command with its words.
pub(crate) fn command<'a>(alloc: Global) -> Result<Command<'a>, AllocError> {
    let mut below = Vec::new(alloc);
    push_command(&mut below, schema(alloc))?;
    push_commands(alloc, &mut below, &COMMANDS)?;
    let command = Command::new(alloc, "kormaglen").version("0.1.0");
    with_commands(
        command,
        "Stored documents, schemas and terms of tantivy 0.26",
        below,
    )
}
