//! The bytes of a term's value.

ghost use Rattle.std.specs.Prelude.{◌≡◌, ◌<◌, ◌==◌, [], length, position, IfOk, IfSome, MatchResult, slice_index};
ghost use Rattle.std.specs.Int.{w128, to_be_bytes};
ghost use Rattle.std.specs.Net.Addr.{ipv6_segments, segments_of};
ghost use Rattle.std.specs.Option.{option_copied, option_map};
ghost use Rattle.tv_term.specs.Reading.{type_at, payload_of, number_of, address_of, json_parts, json_path, json_type, cut_behind_zero, value_behind};
ghost use Rattle.tv_term.specs.Reading.{unsigned_of, signed_of, truth_of, date_of, bytes_of, ReadsText, ReadsStr, ReadsFacet};
ghost use Rattle.tv_term.specs.declared.term.TermError.TheVariants.{TooShort};

use crate::fast_value::FastValue;
use crate::term::TermError;
use std::alloc::{AllocError, Global};
use std::net::Ipv6Addr;
use tv_base::Facet;
use tv_date::DateTime;
use tv_options::Type;

/// The bytes of a term's value, at least one: the code of its type, and then its payload. In a term of a JSON field the payload
/// is a path, U+0000, and then the bytes of the value there.
///
/// Its readers take no memory, but for `as_facet` and `to_owned`, and each returns `None` where the first byte is another code.
#[derive(Clone, Copy, Debug)]
pub struct ValueBytes<'a> {
    serialized: &'a [u8],
    ghost not_empty: { 0 < length serialized.now },
}

impl<'a> ValueBytes<'a> {
    /// These bytes as those of a value. Any byte is taken for a code, also one that no type has.
    ///
    /// Errors: `TooShort`, exactly where there is no byte.
    pub fn wrap(bytes: &'a [u8]) -> Result<ValueBytes<'a>, TermError>
        ensures { MatchResult result
            (λ value. (value.serialized.now ≡ bytes.now) × (0 < length bytes.now))
            (λ error. (error ≡ TooShort) × (bytes.now ≡ [])) }
    {
        if bytes.is_empty() {
            return Err(TermError::TooShort);
        }
        Ok(ValueBytes { serialized: bytes })
    }

    // These bytes, of which there is one at least.
    pub(crate) fn of(bytes: &'a [u8]) -> ValueBytes<'a>
        requires { 0 < length bytes.now }
        ensures { result.serialized.now ≡ bytes.now }
    {
        ValueBytes { serialized: bytes }
    }

    /// A copy of the bytes. Errors: memory was refused.
    pub fn to_owned(&self, alloc: Global) -> Result<OwnedValueBytes, AllocError>
        ensures { IfOk result (λ owned. owned.serialized.items ≡ self.now.serialized.now) }
    {
        Ok(OwnedValueBytes {
            serialized: Vec::from_slice(alloc, self.serialized)?,
        })
    }

    /// The bytes, with the code.
    pub fn as_serialized(&self) -> &'a [u8]
        ensures { result.now ≡ self.now.serialized.now }
    {
        self.serialized
    }

    /// The type that the first byte is the code of, or `None` where no type has that code.
    pub fn typ(&self) -> Option<Type>
        ensures { result ≡ type_at self.now.serialized.now }
    {
        type_behind(self.serialized)
    }

    /// The number, exactly where the code is that of whole numbers without a sign and eight bytes follow.
    pub fn as_u64(&self) -> Option<u64>
        ensures { result ≡ unsigned_of self.now.serialized.now }
    {
        self.fast_value::<u64>()
    }

    /// The number, exactly where the code is that of whole numbers with a sign and eight bytes follow.
    pub fn as_i64(&self) -> Option<i64>
        ensures { result ≡ signed_of self.now.serialized.now }
    {
        self.fast_value::<i64>()
    }

    /// Whether the number isn't 0, exactly where the code is that of truth values and eight bytes follow.
    pub fn as_bool(&self) -> Option<bool>
        ensures { result ≡ truth_of self.now.serialized.now }
    {
        self.fast_value::<bool>()
    }

    /// The date, exactly where the code is that of dates and eight bytes follow.
    pub fn as_date(&self) -> Option<DateTime>
        ensures { option_map (λ date. date.nanoseconds) result ≡ date_of self.now.serialized.now }
    {
        self.fast_value::<DateTime>()
    }

    #[tactic(auto, unfolding(std::specs::Net::Addr::IsIpv6OfBits))]
    /// The address, exactly where the code is that of IP addresses and sixteen bytes follow.
    pub fn as_ip_addr(&self) -> Option<Ipv6Addr>
        ensures { option_map ipv6_segments result
            ≡ option_map (λ n. segments_of (to_be_bytes w128 n))
            (address_of self.now.serialized.now) }
    {
        let bytes: &[u8; 16] = self.payload(Type::IpAddr)?.as_array()?;
        Some(Ipv6Addr::from_bits(u128::from_be_bytes(*bytes)))
    }

    /// The text, exactly where the code is that of texts and UTF-8 follows.
    pub fn as_str(&self) -> Option<&'a str>
        ensures { ReadsStr self.now.serialized.now (option_copied result) }
    {
        self.text(Type::Str)
    }

    /// The bytes after the code, exactly where that is the code of bytes.
    pub fn as_bytes(&self) -> Option<&'a [u8]>
        ensures { option_copied result ≡ bytes_of self.now.serialized.now }
    {
        self.payload(Type::Bytes)
    }

    /// The facet of the encoded text, exactly where the code is that of facets and UTF-8 follows. Errors: memory was refused.
    pub fn as_facet(&self, alloc: Global) -> Result<Option<Facet>, AllocError>
        ensures { IfOk result (ReadsFacet self.now.serialized.now) }
    {
        let Some(encoded) = self.text(Type::Facet) else {
            return Ok(None);
        };
        let copy = Vec::from_slice(alloc, encoded.as_bytes())?;
        Ok(Facet::from_encoded(copy).ok())
    }

    /// The type of the value after a JSON field's path, or `None` where the code is another, no U+0000 ends a path, nothing
    /// follows it, or no type has the code that follows it. The value of a term that has a path alone has no type.
    pub fn json_path_type(&self) -> Option<Type>
        ensures { result ≡ json_type self.now.serialized.now }
    {
        let (_, rest) = self.as_json()?;
        type_behind(rest)
    }

    /// The path of a value of a JSON field, up to its first U+0000 and with it, and the bytes after it. `None` where the code
    /// is another or no byte is U+0000.
    pub fn as_json(&self) -> Option<(&'a [u8], &'a [u8])>
        ensures { option_map (λ parts. (parts.0.now, parts.1.now)) result
            ≡ json_parts self.now.serialized.now }
    {
        split_behind_zero(self.payload(Type::Json)?)
    }

    // The path of a value of a JSON field, without its U+0000, if it is a text.
    pub(crate) fn json_path(&self) -> Option<&'a str>
        ensures { ReadsText (json_path self.now.serialized.now) (option_copied result) }
    {
        let (path, _) = self.as_json()?;
        let (_, text) = path.split_last()?;
        std::str::from_utf8(text).ok()
    }

    // The code.
    pub(crate) fn code(&self) -> u8
        ensures { result ≡ slice_index self.now.serialized.now 0 }
    {
        self.serialized[0]
    }

    // The value after the path of a value of a JSON field, if there is one.
    pub(crate) fn json_value(&self) -> Option<ValueBytes<'a>>
        ensures { option_map (λ value. value.serialized.now) result
            ≡ value_behind (json_parts self.now.serialized.now) }
    {
        let (_, rest) = self.as_json()?;
        ValueBytes::wrap(rest).ok()
    }

    // What follows the code, if that is the type's.
    fn payload(&self, wanted: Type) -> Option<&'a [u8]>
        ensures { option_copied result ≡ payload_of wanted self.now.serialized.now }
    {
        match self.serialized.split_first() {
            Some((first, rest)) if *first == wanted.to_code() => Some(rest),
            _ => None,
        }
    }

    // The same, if it is a text.
    pub(crate) fn text(&self, wanted: Type) -> Option<&'a str>
        ensures { ReadsText (payload_of wanted self.now.serialized.now) (option_copied result) }
    {
        std::str::from_utf8(self.payload(wanted)?).ok()
    }

    fn fast_value<T: FastValue>(&self) -> Option<T>
        ensures { result ≡ option_map T.of_number (number_of T.type_tag self.now.serialized.now) }
    {
        let bytes: &[u8; 8] = self.payload(T::to_type())?.as_array()?;
        Some(T::from_u64(u64::from_be_bytes(*bytes)))
    }
}

// The type that the first byte is the code of.
fn type_behind(bytes: &[u8]) -> Option<Type>
    ensures { result ≡ type_at bytes.now }
{
    let (first, _) = bytes.split_first()?;
    Type::from_code(*first)
}

// The bytes up to the first zero and with it, and those after it.
fn split_behind_zero(bytes: &[u8]) -> Option<(&[u8], &[u8])>
    ensures { option_map (λ parts. (parts.0.now, parts.1.now)) result ≡ cut_behind_zero bytes.now }
{
    let end = first_zero(bytes)?;
    Some(bytes.split_at(end + 1))
}

// The place of the first zero.
fn first_zero(bytes: &[u8]) -> Option<usize>
    ensures place { result ≡ position (λ b. b == 0) bytes.now }
    ensures inside { IfSome result (λ end. end < length bytes.now) }
{
    bytes.iter().position(|byte| *byte == 0)
}

/// The bytes of a term's value, at least one, in memory of their own.
#[derive(Debug, Drop)]
pub struct OwnedValueBytes {
    serialized: Vec<u8>,
    ghost not_empty: { 0 < length serialized.items },
}

impl OwnedValueBytes {
    /// The bytes of the value.
    pub fn as_value_bytes(&self) -> ValueBytes<'_>
        ensures { result.serialized.now ≡ self.now.serialized.items }
    {
        ValueBytes {
            serialized: self.serialized.as_slice(),
        }
    }
}
