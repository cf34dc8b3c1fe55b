//! The types of values without children, and the forms of what they hold; the versions of the store format in which values are written.

ghost use Rattle.std.specs.Prelude.{◌≡◌, ◌≢◌, IfSome, IfNone, ℕ, ◌^◌, ◌<◌};
ghost use Rattle.std.specs.Option.{SomeIff};
ghost use Rattle.tv_format.specs.Version.{entry_total};
ghost use Rattle.tv_format.specs.WriteVersion.{version_number, written_version};

/// The forms of what values without children hold. Several types may have one. (Not in tantivy.)
#[derive(Clone, Copy, Debug, PartialEq, Eq)]
pub enum Form {
    /// Nothing.
    Nothing,
    /// A truth value.
    Truth,
    /// A number from 0 to 2^64 - 1.
    Unsigned,
    /// A number from -2^63 to 2^63 - 1.
    Signed,
    /// A number from 0 to 2^128 - 1.
    Wide,
    /// A text.
    Text,
    /// Bytes.
    Bytes,
    /// A text and its tokens.
    Tokens,
}

/// The types of values without children, each with the code that stands before its values in the store. (Not in tantivy.)
#[derive(Clone, Copy, Debug, PartialEq, Eq)]
pub enum LeafType {
    /// A text.
    Str = 0,
    /// A number from 0 to 2^64 - 1.
    U64 = 1,
    /// A number from -2^63 to 2^63 - 1.
    I64 = 2,
    /// A facet.
    Facet = 3,
    /// Bytes.
    Bytes = 4,
    /// A date.
    Date = 5,
    /// A text and its tokens. After its code stands one of its own, 0.
    PreTokStr = 7,
    /// A truth value.
    Bool = 9,
    /// An IPv6 address.
    IpAddr = 10,
    /// No value.
    Null = 11,
}

impl LeafType {
    ghost use Rattle.tv_format.specs.Leaves.{form, store_code, heap_code};
    ghost use Rattle.tv_format.specs.declared.leaf_type.LeafType.{LeafType};

    /// The form of what its values hold.
    #[inline(always)]
    pub fn form(self) -> Form
        ensures { result ≡ form self }
    {
        match self {
            LeafType::Null => Form::Nothing,
            LeafType::Str => Form::Text,
            LeafType::U64 => Form::Unsigned,
            LeafType::I64 => Form::Signed,
            LeafType::Date => Form::Signed,
            LeafType::Facet => Form::Text,
            LeafType::Bytes => Form::Bytes,
            LeafType::IpAddr => Form::Wide,
            LeafType::Bool => Form::Truth,
            LeafType::PreTokStr => Form::Tokens,
        }
    }

    /// The code that stands before its values in the store.
    #[inline(always)]
    pub fn store_code(self) -> u8
        ensures { result ≡ store_code self }
    {
        self as u8
    }

    /// The type before whose values this code stands in the store; `None` where there is none.
    #[inline(always)]
    pub fn from_store_code(code: u8) -> Option<LeafType>
        ensures some { IfSome result (λ t. store_code t ≡ code) }
        ensures none { IfNone result ((t : LeafType) → store_code t ≢ code) }
    {
        match code {
            0 => Some(LeafType::Str),
            1 => Some(LeafType::U64),
            2 => Some(LeafType::I64),
            3 => Some(LeafType::Facet),
            4 => Some(LeafType::Bytes),
            5 => Some(LeafType::Date),
            7 => Some(LeafType::PreTokStr),
            9 => Some(LeafType::Bool),
            10 => Some(LeafType::IpAddr),
            11 => Some(LeafType::Null),
            _ => None,
        }
    }

    /// The type byte of its values in a heap.
    #[inline(always)]
    pub fn heap_code(self) -> u8
        ensures { result ≡ heap_code self }
    {
        match self {
            LeafType::Null => 0,
            LeafType::Str => 1,
            LeafType::U64 => 2,
            LeafType::I64 => 3,
            LeafType::Date => 5,
            LeafType::Facet => 6,
            LeafType::Bytes => 7,
            LeafType::IpAddr => 8,
            LeafType::Bool => 9,
            LeafType::PreTokStr => 10,
        }
    }

    /// The type whose values have this type byte in a heap; `None` where there is none.
    #[inline(always)]
    pub fn from_heap_code(code: u8) -> Option<LeafType>
        ensures some { IfSome result (λ t. heap_code t ≡ code) }
        ensures none { IfNone result ((t : LeafType) → heap_code t ≢ code) }
    {
        match code {
            0 => Some(LeafType::Null),
            1 => Some(LeafType::Str),
            2 => Some(LeafType::U64),
            3 => Some(LeafType::I64),
            5 => Some(LeafType::Date),
            6 => Some(LeafType::Facet),
            7 => Some(LeafType::Bytes),
            8 => Some(LeafType::IpAddr),
            9 => Some(LeafType::Bool),
            10 => Some(LeafType::PreTokStr),
            _ => None,
        }
    }
}

/// A version of the store format in which documents are written. Readers know version 1 too. (Not in tantivy.)
#[derive(Clone, Copy, Debug, PartialEq, Eq, PartialOrd, Ord)]
pub enum WriteVersion {
    /// Dates are nanoseconds since 1970. An object announces twice the number of its entries, and each key stands after the code
    /// of a text.
    V2 = 2,
    /// As version 2, but that an object announces the number of its entries, and that its keys have no code.
    V3 = 3,
}

impl WriteVersion {
    /// The number of the version.
    pub fn to_u32(self) -> u32
        ensures { result ≡ version_number self }
    {
        match self {
            WriteVersion::V2 => 2,
            WriteVersion::V3 => 3,
        }
    }

    /// The number that an object of this many entries announces. `None` where it is above 2^64 - 1, which it never is in version 3.
    pub fn object_total(self, entries: u64) -> Option<u64>
        ensures { SomeIff result (entry_total (written_version self) entries < 2 ^ 64)
            (entry_total (written_version self) entries) }
    {
        match self {
            WriteVersion::V2 => entries.checked_mul(2),
            WriteVersion::V3 => Some(entries),
        }
    }
}
