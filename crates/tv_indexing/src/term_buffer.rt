//! The bytes of the term that is made.

ghost use Rattle.std.specs.Prelude.{◌≡◌, ◌≤◌, ◌++◌, ◌∷◌, [], drop, length, map, OnErr, OnOk, take, true};
ghost use Rattle.std.specs.Int.{to_be_bytes, w32};
ghost use Rattle.tv_base.specs.JsonPath.{expanded};
ghost use Rattle.tv_indexing.specs.JsonWalk.{separated};
ghost use Rattle.tv_indexing.specs.KeyBytes.{keys_held};
ghost use Rattle.tv_indexing.specs.Visits.{TakesTerms};
ghost use Rattle.tv_options.specs.Types.{code};
ghost use Rattle.tv_options.specs.declared.types.TypeTag.TheVariants.{Json};

use crate::document::TermVisitor;
use std::alloc::{AllocError, Global};
use std::marker::Model;
use tv_options::Type;
use tv_value::Field;

// How many bytes a field's number and the code of a type have.
const START_LEN: usize = 5;

// The bytes of one term after the other. The keys above a value of a field of JSON objects stand in it once, for all that is below them.
#[derive(Drop)]
pub(crate) struct TermBuffer {
    // Four bytes for the field's number, and then the keys. Each stands after U+0001; at the outermost one the code of the type may stand in
    // its place.
    bytes: Vec<u8>,
}

impl Model for TermBuffer {
    ghost use Rattle.std.specs.Prelude.{List, ℕ};
    ghost use Rattle.tv_indexing.specs.KeyBytes.{keys_held};

    // The keys, each after U+0001.
    ghost Value = { List ℕ };

    ghost view = { λ buffer. keys_held buffer.bytes.items };
}

impl TermBuffer {
    // A buffer without keys. It takes no memory.
    pub(crate) fn new(alloc: Global) -> TermBuffer
        ensures { result ≡ [] }
    {
        TermBuffer {
            bytes: Vec::new(alloc),
        }
    }

    // Takes all keys off. The memory stays.
    pub(crate) fn clear(&mut self)
        ensures { self.new ≡ [] }
    {
        self.bytes.clear();
    }

    // How many bytes the keys have.
    pub(crate) fn len(&self) -> usize
        ensures { result ≡ length self.now }
    {
        self.bytes.len().saturating_sub(START_LEN - 1)
    }

    // Cuts the keys back to this many bytes, if they have more.
    pub(crate) fn truncate(&mut self, len: usize)
        ensures { self.new ≡ take len self.old }
    {
        let end = len.saturating_add(START_LEN - 1);
        self.bytes.truncate(end);
    }

    // Appends a key. Errors: memory was refused.
    pub(crate) fn push_key(&mut self, key: &str, expand_dots: bool) -> Result<(), AllocError>
        ensures { OnOk result (self.new ≡ self.old ++ separated expand_dots key.now) }
    {
        fill(&mut self.bytes)?;
        push_bytes(&mut self.bytes, key, expand_dots)
    }

    // Gives the visitor the term of a value below the keys. Errors: memory was refused.
    pub(crate) fn visit_below<V: TermVisitor>(
        &mut self,
        visitor: &mut V,
        field: Field,
        value_type: Type,
        payload: &[u8],
    ) -> Result<(), AllocError>
        ensures keys { OnOk result (self.new ≡ self.old) }
        ensures made { OnOk result (TakesTerms V.has_taken visitor.old visitor.new
            ((to_be_bytes w32 field.id ++ code Json ∷ (drop 1 self.old
            ++ 0 ∷ code value_type ∷ payload.now)) ∷ [])) }
        ensures untaken { OnErr result (TakesTerms V.has_taken visitor.old visitor.new []) }
    {
        let len = self.bytes.len();
        put_start(&mut self.bytes, start_of(field, Type::Json))?;
        put_value(&mut self.bytes, value_type, payload)?;
        visitor.visit(self.bytes.as_slice())?;
        self.bytes.truncate(len);
        Ok(())
    }

    // Gives the visitor the term of a value of a field that isn't of JSON objects. The keys are lost. Errors: memory was refused.
    pub(crate) fn visit_plain<V: TermVisitor>(
        &mut self,
        visitor: &mut V,
        field: Field,
        value_type: Type,
        payload: &[u8],
    ) -> Result<(), AllocError>
        ensures made { OnOk result (TakesTerms V.has_taken visitor.old visitor.new
            ((to_be_bytes w32 field.id ++ code value_type ∷ payload.now) ∷ [])) }
        ensures untaken { OnErr result (TakesTerms V.has_taken visitor.old visitor.new []) }
    {
        self.bytes.clear();
        self.bytes.extend_from_slice(&start_of(field, value_type))?;
        self.bytes.extend_from_slice(payload)?;
        visitor.visit(self.bytes.as_slice())
    }
}

// The bytes with which a term starts: the field's number and the code of the type.
fn start_of(field: Field, value_type: Type) -> [u8; START_LEN]
    ensures { result ≡ to_be_bytes w32 field.id ++ code value_type ∷ [] }
{
    let [first, second, third, fourth] = field.field_id().to_be_bytes();
    [first, second, third, fourth, value_type.to_code()]
}

// Makes room for a field's number, where there is none. Errors: memory was refused.
fn fill(bytes: &mut Vec<u8>) -> Result<(), AllocError>
    ensures room { OnOk result (4 ≤ length bytes.new.items) }
    ensures keys { OnOk result (drop 4 bytes.new.items ≡ drop 4 bytes.old.items) }
{
    if bytes.len() < 4 {
        bytes.clear();
        bytes.extend_from_slice(&[0; 4])?;
    }
    Ok(())
}

// Puts these bytes in place of the first ones. Errors: memory was refused.
fn put_start(bytes: &mut Vec<u8>, start: [u8; START_LEN]) -> Result<(), AllocError>
    ensures { OnOk result (bytes.new.items ≡ start ++ drop 5 bytes.old.items) }
{
    if bytes.len() < START_LEN {
        bytes.clear();
        bytes.extend_from_slice(&start)?;
    } else {
        let [first, second, third, fourth, code] = start;
        bytes[0] = first;
        bytes[1] = second;
        bytes[2] = third;
        bytes[3] = fourth;
        bytes[4] = code;
    }
    Ok(())
}

// Appends U+0000, the code of a value's type, and the value. Errors: memory was refused.
fn put_value(bytes: &mut Vec<u8>, value_type: Type, payload: &[u8]) -> Result<(), AllocError>
    ensures { OnOk result
        (bytes.new.items ≡ bytes.old.items ++ (0 ∷ code value_type ∷ payload.now)) }
{
    bytes.push(0)?;
    bytes.push(value_type.to_code())?;
    bytes.extend_from_slice(payload)
}

// U+0001 for a dot, and any other byte as it is.
fn part_dot(byte: u8) -> u8
    ensures { result ≡ expanded true byte }
{
    if byte == b'.' { 1 } else { byte }
}

// Makes U+0001 of each dot.
fn part_dots(bytes: &mut [u8])
    ensures { bytes.new ≡ map (expanded true) bytes.old }
{
    for byte in bytes.iter_mut() {
        *byte = part_dot(*byte);
    }
}

// Appends U+0001 and the bytes of a key. Errors: memory was refused, and then a beginning of them may be appended.
fn push_bytes(path: &mut Vec<u8>, key: &str, expand_dots: bool) -> Result<(), AllocError>
    ensures { OnOk result (path.new.items ≡ path.old.items ++ separated expand_dots key.now) }
{
    path.push(1)?;
    let start = path.len();
    path.extend_from_slice(key.as_bytes())?;
    if expand_dots {
        part_dots(&mut path.as_mut_slice()[start..]);
    }
    Ok(())
}
