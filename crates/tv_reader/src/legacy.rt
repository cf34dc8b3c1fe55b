//! Objects as older stores hold them: JSON without its length, up to the brace that closes it. They are taken from a source that is
//! lent, with the count of the bytes that were taken of it.

ghost use Rattle.std.specs.Prelude.{◌≡◌, ◌<◌, ◌+◌, ◌^◌, ℕ, [], ◌∷◌, IfErr};
ghost use Rattle.tv_base.specs.Take.{TakesBy, TakesLean, MayStop};
ghost use Rattle.tv_reader.specs.Legacy.{next, outside};
ghost use Rattle.tv_reader.specs.LegacyReading.{is_blank as is_blank_byte, nonblank_at, slice_at, legacy_at, rest_at, AnswersSlice};
ghost use Rattle.tv_value.specs.Owned.{owned_tree};

use serde_json::Value;
use std::alloc::Global;
use std::str;
use tv_base::take::take_u8;
use tv_base::{ByteSource, Cause, ReadError};
use tv_value::owned_value::{JsonError, OwnedValue};

// Where the next byte stands.
#[derive(Clone, Copy, Drop)]
enum Position {
    Outside,
    Inside,
    // in a string, after a backslash
    Escaped,
}

impl Position {
    ghost use Rattle.tv_reader.specs.LegacyScan.{place_of};

    // Where the byte after this one stands.
    fn after(self, byte: u8) -> Position
        ensures { place_of result ≡ next (place_of self) byte }
    {
        match self {
            Position::Outside => match byte {
                b'"' => Position::Inside,
                _ => Position::Outside,
            },
            Position::Inside => match byte {
                b'"' => Position::Outside,
                b'\\' => Position::Escaped,
                _ => Position::Inside,
            },
            Position::Escaped => Position::Inside,
        }
    }
}

// How many braces are open, and where the next byte stands.
#[derive(Clone, Copy, Drop)]
struct Scan {
    position: Position,
    depth: usize,
}

impl Scan {
    ghost use Rattle.tv_reader.specs.LegacyScan.{place_of, brace_count};

    // After the brace that opens an object.
    fn opened() -> Scan
        ensures place { place_of result.position ≡ outside }
        ensures depth { result.depth ≡ 1 }
    {
        Scan {
            position: Position::Outside,
            depth: 1,
        }
    }

    // One byte more.
    fn after(self, byte: u8) -> Scan
        requires positive { 0 < self.depth }
        requires fits { self.depth + 1 < 2 ^ 64 }
        ensures place { place_of result.position ≡ next (place_of self.position) byte }
        ensures depth { result.depth + brace_count 125 (place_of self.position) byte
            ≡ self.depth + brace_count 123 (place_of self.position) byte }
    {
        let depth = match (self.position, byte) {
            (Position::Outside, b'{') => self.depth + 1,
            (Position::Outside, b'}') => self.depth - 1,
            _ => self.depth,
        };
        Scan {
            position: self.position.after(byte),
            depth,
        }
    }
}

// A tab, a line feed, a carriage return or a space.
fn is_blank(byte: u8) -> bool
    ensures { result ≡ is_blank_byte byte }
{
    matches!(byte, b'\t' | b'\n' | b'\r' | b' ')
}

// The first byte that is no blank.
fn take_nonblank<S: ByteSource>(source: &mut S, count: &mut u64) -> Result<u8, ReadError>
    ensures takes { TakesLean S.ByteSource source.old count.old source.new count.new
        (λ x. x) result nonblank_at }
{
    loop {
        let before = *count;
        let byte = take_u8(source, count)?;
        // so the loop ends: the count has an end
        prove!(before < *count);
        if !is_blank(byte) {
            return Ok(byte);
        }
    }
}

// The slice up to the brace that closes it, whose first byte was taken. Room is made only as the bytes come.
fn take_rest<S: ByteSource>(
    source: &mut S,
    count: &mut u64,
    slice: &mut Vec<u8>,
) -> Result<(), ReadError>
    requires { slice.old.items ≡ 123 ∷ [] }
    ensures takes { TakesBy S.ByteSource source.old count.old source.new count.new
        (λ _. slice.new.items) result (rest_at slice.old.items) }
{
    let mut scan = Scan::opened();
    while scan.depth > 0 {
        let before = *count;
        let byte = take_u8(source, count)?;
        // so the loop ends: the count has an end
        prove!(before < *count);
        slice.push(byte)?;
        scan = scan.after(byte);
    }
    Ok(())
}

// Blanks, and then the slice.
fn take_slice<S: ByteSource>(
    alloc: Global,
    source: &mut S,
    count: &mut u64,
) -> Result<Vec<u8>, ReadError>
    ensures takes { TakesBy S.ByteSource source.old count.old source.new count.new
        (λ slice. slice.items) result slice_at }
{
    let first = take_nonblank(source, count)?;
    if first != b'{' {
        return Err(ReadError::Corrupted(Cause::LegacyJson));
    }
    let mut slice = Vec::new(alloc);
    slice.push(first)?;
    take_rest(source, count, &mut slice)?;
    Ok(slice)
}

// The object that a slice reads as.
fn object_of(alloc: Global, slice: &[u8]) -> Result<OwnedValue, ReadError>
    ensures answers { AnswersSlice slice.now result }
    ensures bounded { (count : ℕ) → IfErr result (λ e. MayStop e count) }
{
    let Ok(text) = str::from_utf8(slice) else {
        return Err(ReadError::Corrupted(Cause::LegacyJson));
    };
    let json = match Value::from_str(alloc, text) {
        Ok(json) => json,
        Err(error) if error.is_memory() => return Err(ReadError::Memory),
        Err(_) => return Err(ReadError::Corrupted(Cause::LegacyJson)),
    };
    if !json.is_object() {
        return Err(ReadError::Corrupted(Cause::LegacyJson));
    }
    match OwnedValue::from_json(alloc, json) {
        Ok(value) => Ok(value),
        Err(JsonError::FloatNumber) => Err(ReadError::Corrupted(Cause::LegacyFloat)),
        Err(JsonError::Memory) => Err(ReadError::Memory),
    }
}

/// Takes an object as older stores hold it, after its code: blanks (tab, line feed, carriage return, space), and then JSON up to
/// the brace that closes it, and no byte more. Numbers are `I64` where they fit, else `U64`; the entries are in byte order of
/// their keys, of equal keys the last. Room is made only as the bytes come. (tantivy reads it; where it ends is our own rule.)
///
/// Errors: those of `take_u8`, `Corrupted(LegacyJson)` where after the blanks stands another byte than a brace, or where the
/// slice isn't UTF-8 or reads as no JSON object (its nesting is at most 127 there), `Corrupted(LegacyFloat)` where a number in it
/// isn't a whole one of 64 bits, and `Memory`. After an error the bytes up to there were taken.
#[tactic(auto, using(tv_base::proofs::TakeSteps::Taken_then), unfolding(crate::specs::LegacyReading::legacy_at))]
pub fn take_legacy<S: ByteSource>(
    alloc: Global,
    source: &mut S,
    count: &mut u64,
) -> Result<OwnedValue, ReadError>
    ensures takes { TakesBy S.ByteSource source.old count.old source.new count.new
        owned_tree result legacy_at }
{
    let slice = take_slice(alloc, source, count)?;
    object_of(alloc, &slice)
}
