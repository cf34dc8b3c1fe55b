//! Values without children, lent: by their types, and what they hold; IP addresses of both versions as addresses of version 6.

ghost use Rattle.std.specs.Prelude.{◌≡◌, ◌↔◌, IsTrue, IfSome, option_map, ℕ};
ghost use Rattle.std.specs.Net.Addr.{ipv6_bits};
ghost use Rattle.tv_value.specs.LeafParts.{content_of};
ghost use Rattle.tv_format.specs.Leaves.{type_of, content, leaf_with, is_null, text_in, unsigned_in, signed_in, boolean_in, date_in, facet_in, bytes_in};
ghost use Rattle.tv_format.specs.Leaves.{ip_address_in, tokenized_in};
ghost use Rattle.tv_value.specs.Lent.{leaf_of};
ghost use Rattle.tv_value.specs.PreTokenized.{text_of, tokens_of, tokenized_leaf};
ghost use Rattle.tv_format.specs.Tree.{text, unsigned, signed, boolean, date, bytes, ip_address};

use crate::pre_tokenized::PreTokenizedStr;
use crate::same::same_leaf;
use std::net::{IpAddr, Ipv6Addr};
use tv_date::DateTime;
use tv_format::LeafType;

/// What a value without children holds. Texts and bytes are borrowed. (Not in tantivy.)
#[derive(Clone, Copy, Debug)]
pub enum LeafContent<'a> {
    /// Nothing.
    Nothing,
    /// A truth value.
    Truth(bool),
    /// A number from 0 to 2^64 - 1.
    Unsigned(u64),
    /// A number from -2^63 to 2^63 - 1.
    Signed(i64),
    /// A number from 0 to 2^128 - 1.
    Wide(u128),
    /// A text.
    Text(&'a str),
    /// Bytes.
    Bytes(&'a [u8]),
    /// A text and its tokens.
    Tokens(PreTokenizedStr<'a>),
}

/// A value without children. Texts and bytes are borrowed.
#[derive(Clone, Copy, Debug)]
pub enum ReferenceValueLeaf<'a> {
    /// No value.
    Null,
    /// A text.
    Str(&'a str),
    /// A number from 0 to 2^64 - 1.
    U64(u64),
    /// A number from -2^63 to 2^63 - 1.
    I64(i64),
    /// A date.
    Date(DateTime),
    /// A facet, as its encoded text.
    Facet(&'a str),
    /// Bytes.
    Bytes(&'a [u8]),
    /// An IPv6 address. An address of version 4 is kept as `::ffff:a.b.c.d`.
    IpAddr(Ipv6Addr),
    /// A truth value.
    Bool(bool),
    /// A text and its tokens.
    PreTokStr(PreTokenizedStr<'a>),
}

impl<'a> ReferenceValueLeaf<'a> {
    /// Its type. (Not in tantivy.)
    #[inline(always)]
    pub fn leaf_type(&self) -> LeafType
        ensures { result ≡ type_of (leaf_of self.now) }
    {
        match self {
            ReferenceValueLeaf::Null => LeafType::Null,
            ReferenceValueLeaf::Str(_) => LeafType::Str,
            ReferenceValueLeaf::U64(_) => LeafType::U64,
            ReferenceValueLeaf::I64(_) => LeafType::I64,
            ReferenceValueLeaf::Date(_) => LeafType::Date,
            ReferenceValueLeaf::Facet(_) => LeafType::Facet,
            ReferenceValueLeaf::Bytes(_) => LeafType::Bytes,
            ReferenceValueLeaf::IpAddr(_) => LeafType::IpAddr,
            ReferenceValueLeaf::Bool(_) => LeafType::Bool,
            ReferenceValueLeaf::PreTokStr(_) => LeafType::PreTokStr,
        }
    }

    /// What it holds, of the form of its type. (Not in tantivy.)
    #[inline(always)]
    pub fn content(&self) -> LeafContent<'a>
        ensures { content_of result ≡ content (leaf_of self.now) }
    {
        match *self {
            ReferenceValueLeaf::Null => LeafContent::Nothing,
            ReferenceValueLeaf::Str(text) => LeafContent::Text(text),
            ReferenceValueLeaf::U64(number) => LeafContent::Unsigned(number),
            ReferenceValueLeaf::I64(number) => LeafContent::Signed(number),
            ReferenceValueLeaf::Date(date) => LeafContent::Signed(date.into_timestamp_nanos()),
            ReferenceValueLeaf::Facet(encoded) => LeafContent::Text(encoded),
            ReferenceValueLeaf::Bytes(bytes) => LeafContent::Bytes(bytes),
            ReferenceValueLeaf::IpAddr(address) => LeafContent::Wide(address.to_bits()),
            ReferenceValueLeaf::Bool(truth) => LeafContent::Truth(truth),
            ReferenceValueLeaf::PreTokStr(text) => LeafContent::Tokens(text),
        }
    }

    /// The value of a type that holds this; `None` exactly where it is of another form than the type's. (Not in tantivy.)
    #[inline(always)]
    pub fn with_content(
        leaf_type: LeafType,
        content: LeafContent<'a>,
    ) -> Option<ReferenceValueLeaf<'a>>
        ensures { option_map leaf_of result ≡ leaf_with leaf_type (content_of content.entry) }
    {
        match (leaf_type, content) {
            (LeafType::Null, LeafContent::Nothing) => Some(ReferenceValueLeaf::Null),
            (LeafType::Str, LeafContent::Text(text)) => Some(ReferenceValueLeaf::Str(text)),
            (LeafType::U64, LeafContent::Unsigned(number)) => Some(ReferenceValueLeaf::U64(number)),
            (LeafType::I64, LeafContent::Signed(number)) => Some(ReferenceValueLeaf::I64(number)),
            (LeafType::Date, LeafContent::Signed(nanoseconds)) => {
                let date = DateTime::from_timestamp_nanos(nanoseconds);
                Some(ReferenceValueLeaf::Date(date))
            }
            (LeafType::Facet, LeafContent::Text(encoded)) => Some(ReferenceValueLeaf::Facet(
                encoded,
            )),
            (LeafType::Bytes, LeafContent::Bytes(bytes)) => Some(ReferenceValueLeaf::Bytes(bytes)),
            (LeafType::IpAddr, LeafContent::Wide(number)) => {
                Some(ReferenceValueLeaf::IpAddr(address_of(number)))
            }
            (LeafType::Bool, LeafContent::Truth(truth)) => Some(ReferenceValueLeaf::Bool(truth)),
            (LeafType::PreTokStr, LeafContent::Tokens(text)) => {
                Some(ReferenceValueLeaf::PreTokStr(text))
            }
            _ => None,
        }
    }

    /// Whether there is no value.
    pub fn is_null(&self) -> bool
        ensures { result ≡ is_null (leaf_of self.now) }
    {
        matches!(self, ReferenceValueLeaf::Null)
    }

    /// The text, if it is one. No copy is made.
    pub fn as_str(&self) -> Option<&'a str>
        ensures { option_map (λ t. t.now) result ≡ text_in (leaf_of self.now) }
    {
        match *self {
            ReferenceValueLeaf::Str(text) => Some(text),
            _ => None,
        }
    }

    /// The number, if it is an unsigned one.
    pub fn as_u64(&self) -> Option<u64>
        ensures { result ≡ unsigned_in (leaf_of self.now) }
    {
        match *self {
            ReferenceValueLeaf::U64(number) => Some(number),
            _ => None,
        }
    }

    /// The number, if it is a signed one.
    pub fn as_i64(&self) -> Option<i64>
        ensures { result ≡ signed_in (leaf_of self.now) }
    {
        match *self {
            ReferenceValueLeaf::I64(number) => Some(number),
            _ => None,
        }
    }

    /// The date, if it is one.
    pub fn as_datetime(&self) -> Option<DateTime>
        ensures { option_map (λ d. d.nanoseconds) result ≡ date_in (leaf_of self.now) }
    {
        match *self {
            ReferenceValueLeaf::Date(date) => Some(date),
            _ => None,
        }
    }

    /// The IP address, if it is one.
    pub fn as_ip_addr(&self) -> Option<Ipv6Addr>
        ensures { option_map ipv6_bits result ≡ ip_address_in (leaf_of self.now) }
    {
        match *self {
            ReferenceValueLeaf::IpAddr(address) => Some(address),
            _ => None,
        }
    }

    /// The truth value, if it is one.
    pub fn as_bool(&self) -> Option<bool>
        ensures { result ≡ boolean_in (leaf_of self.now) }
    {
        match *self {
            ReferenceValueLeaf::Bool(truth) => Some(truth),
            _ => None,
        }
    }

    /// The bytes, if it is bytes. No copy is made.
    pub fn as_bytes(&self) -> Option<&'a [u8]>
        ensures { option_map (λ bs. bs.now) result ≡ bytes_in (leaf_of self.now) }
    {
        match *self {
            ReferenceValueLeaf::Bytes(bytes) => Some(bytes),
            _ => None,
        }
    }

    /// The text with its tokens, if it is one. No copy is made.
    pub fn into_pre_tokenized_text(self) -> Option<PreTokenizedStr<'a>>
        ensures { option_map (λ t. (text_of t, tokens_of t)) result
            ≡ tokenized_in (leaf_of self.entry) }
    {
        match self {
            ReferenceValueLeaf::PreTokStr(text) => Some(text),
            _ => None,
        }
    }

    /// The encoded text of the facet, if it is one. No copy is made.
    pub fn as_facet(&self) -> Option<&'a str>
        ensures { option_map (λ t. t.now) result ≡ facet_in (leaf_of self.now) }
    {
        match *self {
            ReferenceValueLeaf::Facet(encoded) => Some(encoded),
            _ => None,
        }
    }
}

/// Two leaves are equal exactly where they are of one kind and hold the same. No memory is taken.
impl PartialEq for ReferenceValueLeaf<'_> {
    ghost use Rattle.std.specs.Cmp.{on_per};
    ghost use Rattle.tv_value.specs.Same.{leaf_eq};
    ghost use Rattle.tv_value.specs.SameLaws.{leaf_eq-Decides};
    ghost use Rattle.tv_value.specs.SameTokensLaws.{deciding_per};

    ghost eq = { λ a b. leaf_eq (leaf_of a) (leaf_of b) };

    ghost laws = { on_per leaf_of (deciding_per leaf_eq-Decides) };

    fn eq(&self, other: &Self) -> bool {
        same_leaf(*self, *other)
    }
}

/// An unsigned number.
impl From<u64> for ReferenceValueLeaf<'_> {
    ghost from_gives = { λ number made. leaf_of made ≡ unsigned number };

    fn from(number: u64) -> Self {
        ReferenceValueLeaf::U64(number)
    }
}

/// A signed number.
impl From<i64> for ReferenceValueLeaf<'_> {
    ghost from_gives = { λ number made. leaf_of made ≡ signed number };

    fn from(number: i64) -> Self {
        ReferenceValueLeaf::I64(number)
    }
}

/// A truth value.
impl From<bool> for ReferenceValueLeaf<'_> {
    ghost from_gives = { λ truth made. leaf_of made ≡ boolean truth };

    fn from(truth: bool) -> Self {
        ReferenceValueLeaf::Bool(truth)
    }
}

/// A text.
impl<'a> From<&'a str> for ReferenceValueLeaf<'a> {
    ghost from_gives = { λ content made. leaf_of made ≡ text content.now };

    fn from(content: &'a str) -> Self {
        ReferenceValueLeaf::Str(content)
    }
}

/// Bytes.
impl<'a> From<&'a [u8]> for ReferenceValueLeaf<'a> {
    ghost from_gives = { λ content made. leaf_of made ≡ bytes content.now };

    fn from(content: &'a [u8]) -> Self {
        ReferenceValueLeaf::Bytes(content)
    }
}

/// A date.
impl From<DateTime> for ReferenceValueLeaf<'_> {
    ghost from_gives = { λ moment made. leaf_of made ≡ date moment.nanoseconds };

    fn from(moment: DateTime) -> Self {
        ReferenceValueLeaf::Date(moment)
    }
}

/// An IP address.
impl From<Ipv6Addr> for ReferenceValueLeaf<'_> {
    ghost from_gives = { λ address made. leaf_of made ≡ ip_address (ipv6_bits address) };

    fn from(address: Ipv6Addr) -> Self {
        ReferenceValueLeaf::IpAddr(address)
    }
}

/// A text with its tokens.
impl<'a> From<PreTokenizedStr<'a>> for ReferenceValueLeaf<'a> {
    ghost from_gives = { λ content made. leaf_of made ≡ tokenized_leaf content };

    fn from(content: PreTokenizedStr<'a>) -> Self {
        ReferenceValueLeaf::PreTokStr(content)
    }
}

/// The address of version 6 whose number this is. (Not in tantivy.)
#[inline]
pub fn address_of(bits: u128) -> Ipv6Addr
    ensures { ipv6_bits result ≡ bits }
{
    Ipv6Addr::from_bits(bits)
}

/// What can be made an address of version 6.
pub trait IntoIpv6Addr {
    ghost number: { Self → ℕ };

    /// The address as one of version 6.
    fn into_ipv6_addr(self) -> Ipv6Addr
        ensures { ipv6_bits result ≡ number self };
}

impl IntoIpv6Addr for IpAddr {
    ghost use Rattle.tv_value.specs.IpAddress.{address_number};

    ghost number = { address_number };

    /// The address of version 4 as `::ffff:a.b.c.d`, that of version 6 as it is.
    #[tactic(auto, unfolding(std::specs::Net::Addr::ipv6_bits))]
    fn into_ipv6_addr(self) -> Ipv6Addr {
        match self {
            IpAddr::V4(address) => address.to_ipv6_mapped(),
            IpAddr::V6(address) => address,
        }
    }
}
