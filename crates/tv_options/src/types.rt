//! The types of the values of fields.

ghost use Rattle.std.specs.Prelude.{◌≡◌};
ghost use Rattle.tv_options.specs.Types.{all_types, code, type_of_code, type_name};

use std::marker::Model;

/// The type of a field's values, without the field's options. Types are in the order of their codes.
#[derive(Clone, Copy, Debug, PartialEq, Eq, PartialOrd, Ord, Hash)]
pub enum TypeTag {
    /// Bytes: code `b`.
    Bytes = b'b' as isize,
    /// Dates: code `d`.
    Date = b'd' as isize,
    /// Facets: code `h`.
    Facet = b'h' as isize,
    /// Whole numbers from -2^63 to 2^63 - 1: code `i`.
    I64 = b'i' as isize,
    /// JSON objects: code `j`.
    Json = b'j' as isize,
    /// Truth values: code `o`.
    Bool = b'o' as isize,
    /// IP addresses: code `p`.
    IpAddr = b'p' as isize,
    /// Texts: code `s`.
    Str = b's' as isize,
    /// Whole numbers from 0 to 2^64 - 1: code `u`.
    U64 = b'u' as isize,
}

const ALL_TYPES: [TypeTag; 9] = [
    TypeTag::Str,
    TypeTag::U64,
    TypeTag::I64,
    TypeTag::Bool,
    TypeTag::Date,
    TypeTag::Facet,
    TypeTag::Bytes,
    TypeTag::Json,
    TypeTag::IpAddr,
];

impl TypeTag {
    /// The nine types, each once: texts, numbers without and with a sign, truth values, dates, facets, bytes, JSON
    /// objects and IP addresses.
    pub fn iter_values() -> TypeIter
        ensures { result ≡ all_types }
    {
        TypeIter { rest: &ALL_TYPES }
    }

    /// The type's code: an ASCII letter.
    pub fn to_code(&self) -> u8
        ensures { result ≡ code self.now }
    {
        *self as u8
    }

    /// The type's name for people, as `Str` or `IpAddr`.
    pub fn name(&self) -> &'static str
        ensures { result.now ≡ type_name self.now }
    {
        match self {
            TypeTag::Str => "Str",
            TypeTag::U64 => "U64",
            TypeTag::I64 => "I64",
            TypeTag::Bool => "Bool",
            TypeTag::Date => "Date",
            TypeTag::Facet => "Facet",
            TypeTag::Bytes => "Bytes",
            TypeTag::Json => "Json",
            TypeTag::IpAddr => "IpAddr",
        }
    }

    /// The type of this code, or `None` where no type has it.
    pub fn from_code(code: u8) -> Option<TypeTag>
        ensures { result ≡ type_of_code code }
    {
        match code {
            b's' => Some(TypeTag::Str),
            b'u' => Some(TypeTag::U64),
            b'i' => Some(TypeTag::I64),
            b'o' => Some(TypeTag::Bool),
            b'd' => Some(TypeTag::Date),
            b'h' => Some(TypeTag::Facet),
            b'b' => Some(TypeTag::Bytes),
            b'j' => Some(TypeTag::Json),
            b'p' => Some(TypeTag::IpAddr),
            _ => None,
        }
    }
}

/// The types that are left to be given.
#[derive(Drop)]
pub struct TypeIter {
    rest: &'static [TypeTag],
}

impl Model for TypeIter {
    ghost use Rattle.std.specs.Prelude.{List};
    ghost use Rattle.tv_options.specs.declared.types.TypeTag.{TypeTag};

    ghost Value = { List TypeTag };

    ghost view = { λ types. types.rest.now };
}

impl Iterator for TypeIter {
    ghost use Rattle.std.specs.Iterator.{YieldsFirst, item_count};

    type Item = TypeTag;

    ghost next_gives = { YieldsFirst (λ rest. rest) };

    ghost remaining = { item_count (λ rest. rest) };

    fn next(&mut self) -> Option<TypeTag> {
        let (first, others) = self.rest.split_first()?;
        self.rest = others;
        Some(*first)
    }
}
