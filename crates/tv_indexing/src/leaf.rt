//! The values that the terms of values without children stand for, and what stands there for each.

ghost use Rattle.std.specs.Prelude.{◌≡◌, false, IfErr, IfOk, IfSome, Ok, OnErr, option_map};
ghost use Rattle.std.specs.Int.{to_be_bytes, w64};
ghost use Rattle.tv_indexing.specs.LeafTerms.{HasTerm, leaf_value};
ghost use Rattle.tv_indexing.specs.Payloads.{part_seen, payload_bytes, value_parts};
ghost use Rattle.tv_term.specs.Key.{Fits};
ghost use Rattle.tv_term.specs.declared.term.TermError.TheVariants.{Memory};
ghost use Rattle.tv_value.specs.Lent.{leaf_of};

use tv_options::{DATE_TIME_PRECISION_INDEXED, Type};
use tv_term::{FastValue, TermError, TermWriter};
use tv_value::{Field, ReferenceValueLeaf};

// The bytes of a value after the code of its type.
#[derive(Clone, Copy)]
pub(crate) enum Payload<'a> {
    Bytes(&'a [u8]),
    Eight([u8; 8]),
    Sixteen([u8; 16]),
}

impl<'a> Payload<'a> {
    pub(crate) fn as_slice(&self) -> &[u8]
        ensures { result.now ≡ payload_bytes self.now }
    {
        match self {
            Payload::Bytes(bytes) => bytes,
            Payload::Eight(bytes) => bytes,
            Payload::Sixteen(bytes) => bytes,
        }
    }
}

// The eight bytes of a number that stands for a value.
fn eight<'a, T: FastValue>(value: T) -> Payload<'a>
    ensures bytes { payload_bytes result ≡ to_be_bytes w64 (T.as_number value) }
    ensures fits { Fits (T.as_value value) }
{
    Payload::Eight(value.to_u64().to_be_bytes())
}

// The type of the value that the term of a leaf stands for, and what stands after its code, or `None` where the leaf has no term.
#[inline(always)]
pub(crate) fn payload_of(leaf: ReferenceValueLeaf<'_>) -> Option<(Type, Payload<'_>)>
    ensures parts { option_map part_seen result
        ≡ option_map value_parts (leaf_value (leaf_of leaf.entry)) }
    ensures fits { IfSome (leaf_value (leaf_of leaf.entry)) Fits }
{
    match leaf {
        ReferenceValueLeaf::Null => None,
        ReferenceValueLeaf::Str(text) => Some((Type::Str, Payload::Bytes(text.as_bytes()))),
        ReferenceValueLeaf::U64(number) => Some((Type::U64, eight(number))),
        ReferenceValueLeaf::I64(number) => Some((Type::I64, eight(number))),
        ReferenceValueLeaf::Date(date) => {
            let cut = date.truncate(DATE_TIME_PRECISION_INDEXED);
            Some((Type::Date, eight(cut)))
        }
        ReferenceValueLeaf::Facet(encoded) => Some((
            Type::Facet,
            Payload::Bytes(encoded.as_bytes()),
        )),
        ReferenceValueLeaf::Bytes(bytes) => Some((Type::Bytes, Payload::Bytes(bytes))),
        ReferenceValueLeaf::IpAddr(address) => {
            let number = address.to_bits();
            Some((Type::IpAddr, Payload::Sixteen(number.to_be_bytes())))
        }
        ReferenceValueLeaf::Bool(truth) => Some((Type::Bool, eight(truth))),
        ReferenceValueLeaf::PreTokStr(text) => {
            Some((Type::Str, Payload::Bytes(text.text().as_bytes())))
        }
    }
}

/// Makes the term of a value without children, as it is indexed, and says whether there is one: null has none. A text is whole, a text
/// with tokens has the term of its text, and a date is cut to the second. (Not in tantivy.)
///
/// The only error is `Memory`. After it, and where there is no term, the writer has the term that it had.
pub fn write_leaf(
    writer: &mut TermWriter,
    field: Field,
    leaf: ReferenceValueLeaf<'_>,
) -> Result<bool, TermError>
    ensures made { IfOk result (HasTerm field.id (leaf_value (leaf_of leaf.entry)) writer.new) }
    ensures no_term { result ≡ Ok false → writer.new ≡ writer.old }
    ensures unchanged { OnErr result (writer.new ≡ writer.old) }
    ensures memory { IfErr result (λ error. error ≡ Memory) }
{
    let Some((value_type, payload)) = payload_of(leaf) else {
        return Ok(false);
    };
    writer.write_value_bytes(field, value_type, payload.as_slice())?;
    Ok(true)
}
