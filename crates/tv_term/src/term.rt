//! Terms, and why there is none.

ghost use Rattle.std.specs.Prelude.{◌≡◌, ◌<◌, ◌≤◌, ◌+◌, ◌^◌, ◌++◌, ◌∷◌, ◌↔◌, [], length, take, drop, Err, IfOk, MatchBool, OnOk, OnErr, IsTrue, slice_index};
ghost use Rattle.std.specs.Prelude.{option_map, string_bytes, vec_capacity, Some};
ghost use Rattle.std.specs.Int.{to_be_bytes, w32};
ghost use Rattle.std.specs.Net.Addr.{ipv6_bits};
ghost use Rattle.std.specs.Option.{option_copied};
ghost use Rattle.tv_options.specs.Types.{code, type_of_code};
ghost use Rattle.tv_term.specs.Key.{HasNoZero, IsTerm, Text, Unsigned, Signed, Truth, Date, Facet as FacetValue, Bytes, Address, json_number};
ghost use Rattle.tv_term.specs.Segments.{HaveNoZero, joined_segments};
ghost use Rattle.tv_term.specs.Making.{AppendsValue, GivesExactly, GivesPathTerm, GivesSegmentsTerm, GivesTerm, indexed_date};
ghost use Rattle.tv_term.specs.Reading.{field_of, value_of, ReadsPath, IsFullPathIn, dotted};
ghost use Rattle.tv_term.specs.declared.term.TermError.TheVariants.{TooShort};

use crate::fast_value::FastValue;
use crate::value_bytes::ValueBytes;
use std::alloc::{AllocError, Global};
use std::cmp::Ordering;
use std::convert::AsSlice;
use std::hash::{Hash, Hasher};
use std::marker::Model;
use std::net::Ipv6Addr;
use thiserror::Error;
use tv_base::{Facet, joined_json_path};
use tv_date::DateTime;
use tv_options::{DATE_TIME_PRECISION_INDEXED, Type};
use tv_schema::Schema;
use tv_value::Field;

/// Why there is no term, or no value bytes.
#[derive(Clone, Copy, Debug, PartialEq, Eq, Error)]
pub enum TermError {
    /// A term has at least five bytes, and value bytes are at least one.
    #[error("there are too few bytes")]
    TooShort,
    /// Memory was refused.
    #[error("memory was refused")]
    Memory,
    /// A path into JSON objects has U+0000, which ends the path in a term.
    #[error("the path has U+0000")]
    NulInPath,
}

impl From<AllocError> for TermError {
    ghost use Rattle.std.specs.Prelude.{◌≡◌};
    ghost use Rattle.tv_term.specs.declared.term.TermError.TheVariants.{Memory};

    ghost from_gives = { λ _ error. error ≡ Memory };

    fn from(_: AllocError) -> TermError {
        TermError::Memory
    }
}

// The least number that fits no signed one of 64 bits.
const SIGNED_END: u64 = 1 << 63;

/// A field, and a value of it: the field's number in four bytes, the highest first, the code of the value's type, and the
/// value's payload. Terms are compared as these bytes, and so by field, then by type, then by value.
///
/// The value bytes are what stands after the type's code. Where a call says nothing of errors and has a `Result`, its error is
/// `Memory`.
///
/// ```
/// pub fn of_path(alloc: Global, field: Field, path: &str, text: &str) -> Result<Term> {
///     let mut term = Term::from_field_json_path(alloc, field, path, false)?;
///     term.append_type_and_str(text)?;
///     Ok(term)
/// }
/// ```
pub struct Term {
    bytes: Vec<u8>,
}

// By hand, so that a term is dropped by one call.
impl Drop for Term {
    fn drop(self) {
        let Term { bytes: _ } = self;
    }
}

impl Model for Term {
    ghost use Rattle.std.specs.Prelude.{List, ℕ, ◌≤◌, length};

    ghost Value = { List ℕ };

    ghost view = { λ term. term.bytes.items };

    ghost invariant = { λ term. 5 ≤ length term.bytes.items };
}

/// The bytes of a term, by which terms are ordered.
impl AsSlice<u8> for Term {
    ghost items = { λ term. term };

    fn as_slice(&self) -> &[u8] {
        self.serialized_term()
    }
}

impl Term {
    ghost use Rattle.std.specs.Borrow.{sem};
    ghost use Rattle.tv_term.specs.Lending.{LendsFrom};

    /// The term that has these bytes. Any byte is taken for a code, also one that no type has.
    ///
    /// Errors: `TooShort`, exactly where there are fewer than five bytes, and else `Memory`.
    pub fn wrap(alloc: Global, serialized: &[u8]) -> Result<Term, TermError>
        ensures too_short { length serialized.now < 5 → result ≡ Err TooShort }
        ensures made { 5 ≤ length serialized.now → GivesExactly serialized.now result }
    {
        if serialized.len() < 5 {
            return Err(TermError::TooShort);
        }
        Ok(Term {
            bytes: Vec::from_slice(alloc, serialized)?,
        })
    }

    /// The term's bytes: the field's number, the type's code, the value bytes.
    pub fn serialized_term(&self) -> &[u8]
        ensures { result.now ≡ self.now }
    {
        self.bytes.as_slice()
    }

    // The term's bytes, taken out of it.
    pub(crate) fn into_bytes(self) -> Vec<u8>
        ensures { result.items ≡ self }
    {
        let Term { bytes } = self;
        bytes
    }

    /// A term of field 0 with the type's code 0, which is no type's, and no value bytes. Memory for `capacity` value bytes is asked for at once.
    pub fn with_capacity(alloc: Global, capacity: usize) -> Result<Term, TermError>
        ensures { GivesExactly (0 ∷ 0 ∷ 0 ∷ 0 ∷ 0 ∷ []) result }
    {
        Ok(Term {
            bytes: bytes_with_room(alloc, capacity)?,
        })
    }

    /// The term of a path into a field of JSON objects: the path's segments with U+0001 between each two of them, and U+0000.
    /// Dots separate segments; a backslash goes and keeps the character after it; where dots are expanded, a dot that it
    /// keeps separates too. A value there is appended by `append_type_and_fast_value` or `append_type_and_str`.
    ///
    /// Errors: `NulInPath`, exactly where the path has U+0000, also after a backslash, and before memory is asked for; else
    /// `Memory`. (tantivy takes such a path, and its readers end it at the first U+0000.)
    pub fn from_field_json_path(
        alloc: Global,
        field: Field,
        json_path: &str,
        expand_dots: bool,
    ) -> Result<Term, TermError>
        ensures { GivesPathTerm field.id expand_dots json_path.now result }
    {
        if has_nul(json_path) {
            return Err(TermError::NulInPath);
        }
        let mut joined = joined_json_path(alloc, json_path, expand_dots)?;
        joined.push('\0')?;
        Ok(Term::from_payload(alloc, field, Type::Json, joined.as_bytes())?)
    }

    /// The term of a path into a field of JSON objects that is given by its segments: these with U+0001 between each two of them, and
    /// U+0000. Dots and backslashes of a segment stay as they are. A segment that holds U+0001 counts as the segments around it. A value
    /// is appended as to a term of `from_field_json_path`. (Not in tantivy.)
    ///
    /// Errors: `NulInPath`, exactly where a segment has U+0000, and before memory is asked for; else `Memory`.
    pub fn from_field_json_segments(
        alloc: Global,
        field: Field,
        segments: &[&str],
    ) -> Result<Term, TermError>
        ensures { GivesSegmentsTerm field.id segments.now result }
    {
        if has_nul_among(segments) {
            return Err(TermError::NulInPath);
        }
        let mut joined = String::new(alloc);
        push_segments(segments, &mut joined)?;
        joined.push('\0')?;
        Ok(Term::from_payload(alloc, field, Type::Json, joined.as_bytes())?)
    }

    /// The term of a whole number without a sign.
    pub fn from_field_u64(alloc: Global, field: Field, unsigned: u64) -> Result<Term, TermError>
        ensures { GivesTerm field.id (Unsigned unsigned) result }
    {
        Ok(Term::from_fast_value(alloc, field, unsigned)?)
    }

    /// The term of a whole number with a sign.
    pub fn from_field_i64(alloc: Global, field: Field, signed: i64) -> Result<Term, TermError>
        ensures { GivesTerm field.id (Signed signed) result }
    {
        Ok(Term::from_fast_value(alloc, field, signed)?)
    }

    /// The term of a truth value.
    pub fn from_field_bool(alloc: Global, field: Field, truth: bool) -> Result<Term, TermError>
        ensures { GivesTerm field.id (Truth truth) result }
    {
        Ok(Term::from_fast_value(alloc, field, truth)?)
    }

    /// The term of a date, to the nanosecond. Dates are indexed to the second alone: a term that searches is
    /// `from_field_date_for_search`'s.
    pub fn from_field_date(alloc: Global, field: Field, date: DateTime) -> Result<Term, TermError>
        ensures { GivesTerm field.id (Date date.nanoseconds) result }
    {
        Ok(Term::from_fast_value(alloc, field, date)?)
    }

    /// The term of a date as it is indexed: cut to the second, towards 1970.
    pub fn from_field_date_for_search(
        alloc: Global,
        field: Field,
        date: DateTime,
    ) -> Result<Term, TermError>
        ensures { GivesTerm field.id (indexed_date date.nanoseconds) result }
    {
        Term::from_field_date(alloc, field, date.truncate(DATE_TIME_PRECISION_INDEXED))
    }

    /// The term of an IP address.
    pub fn from_field_ip_addr(
        alloc: Global,
        field: Field,
        address: Ipv6Addr,
    ) -> Result<Term, TermError>
        ensures { GivesTerm field.id (Address (ipv6_bits address)) result }
    {
        let number = address.to_bits();
        Ok(Term::from_payload(alloc, field, Type::IpAddr, &number.to_be_bytes())?)
    }

    /// The term of a facet: its encoded text.
    pub fn from_facet(alloc: Global, field: Field, facet: &Facet) -> Result<Term, TermError>
        ensures { GivesTerm field.id (FacetValue facet.now) result }
    {
        let encoded = facet.encoded_str().as_bytes();
        Ok(Term::from_payload(alloc, field, Type::Facet, encoded)?)
    }

    /// The term of a text.
    pub fn from_field_text(alloc: Global, field: Field, text: &str) -> Result<Term, TermError>
        ensures { GivesTerm field.id (Text text.now) result }
    {
        Ok(Term::from_payload(alloc, field, Type::Str, text.as_bytes())?)
    }

    /// The term of bytes.
    pub fn from_field_bytes(alloc: Global, field: Field, bytes: &[u8]) -> Result<Term, TermError>
        ensures { GivesTerm field.id (Bytes bytes.now) result }
    {
        Ok(Term::from_payload(alloc, field, Type::Bytes, bytes)?)
    }

    // The term of a value of eight bytes.
    pub(crate) fn from_fast_value<T: FastValue>(
        alloc: Global,
        field: Field,
        value: T,
    ) -> Result<Term, AllocError>
        ensures { IfOk result (λ made. IsTerm made field.id (T.as_value value)) }
    {
        Term::from_payload(alloc, field, T::to_type(), &value.to_u64().to_be_bytes())
    }

    // The bytes of the field, of the type's code and of the payload.
    pub(crate) fn from_payload(
        alloc: Global,
        field: Field,
        value_type: Type,
        payload: &[u8],
    ) -> Result<Term, AllocError>
        ensures made { IfOk result
            (λ made. made ≡ to_be_bytes w32 field.id ++ code value_type ∷ payload.now) }
        ensures field { field.id < 2 ^ 32 }
    {
        let mut bytes = Vec::with_capacity(alloc, payload.len() + 5)?;
        bytes.extend_from_slice(&field.field_id().to_be_bytes())?;
        bytes.extend_from_slice(&[value_type.to_code()])?;
        bytes.extend_from_slice(payload)?;
        Ok(Term { bytes })
    }

    // Makes this the term of the field, of the type's code and of the payload. Errors: memory was refused, and then the term is as it
    // was.
    pub(crate) fn replace(
        &mut self,
        field: Field,
        value_type: Type,
        payload: &[u8],
    ) -> Result<(), AllocError>
        ensures made { OnOk result
            (self.new ≡ to_be_bytes w32 field.id ++ code value_type ∷ payload.now) }
        ensures unchanged { OnErr result (self.new ≡ self.old) }
        ensures field { field.id < 2 ^ 32 }
    {
        put_payload(&mut self.bytes, field, value_type, payload)
    }

    /// The same term, in memory of its own.
    pub fn try_clone(&self) -> Result<Term, TermError>
        ensures { GivesExactly self.now result }
    {
        let alloc = *self.bytes.allocator();
        Ok(Term {
            bytes: Vec::from_slice(alloc, self.bytes.as_slice())?,
        })
    }

    /// Makes this the term of the field with the type's code and no value bytes. The term has no value bytes, as `is_empty`
    /// tests.
    pub fn set_field_and_type(&mut self, field: Field, value_type: Type)
        requires { length self.old ≡ 5 }
        ensures { self.new ≡ to_be_bytes w32 field.id ++ code value_type ∷ [] }
    {
        let [first, second, third, fourth] = field.field_id().to_be_bytes();
        self.bytes[0] = first;
        self.bytes[1] = second;
        self.bytes[2] = third;
        self.bytes[3] = fourth;
        self.bytes[4] = value_type.to_code();
    }

    /// Whether there are no value bytes after the type's code.
    pub fn is_empty(&self) -> bool
        ensures { IsTrue result ↔ (length self.now ≡ 5) }
    {
        self.bytes.len() == 5
    }

    /// How many value bytes there are after the type's code.
    pub fn len_bytes(&self) -> usize
        ensures { result + 5 ≡ length self.now }
    {
        self.bytes.len() - 5
    }

    /// Removes the value bytes, and sets the type's code. The field stays.
    pub fn clear_with_type(&mut self, value_type: Type)
        ensures { self.new ≡ take 4 self.old ++ code value_type ∷ [] }
    {
        self.truncate_value_bytes(0);
        self.bytes[4] = value_type.to_code();
    }

    /// Keeps as many value bytes from the first on. Where there are no more, nothing changes. The field and the type's code
    /// stay.
    pub fn truncate_value_bytes(&mut self, len: usize)
        ensures { self.new ≡ take (5 + len) self.old }
    {
        if len < self.len_bytes() {
            self.bytes.truncate(5 + len);
        }
    }

    /// Puts these value bytes in the place of those after the type's code.
    ///
    /// Errors: memory was refused. Then the term is as it was.
    pub fn set_bytes(&mut self, bytes: &[u8]) -> Result<(), AllocError>
        ensures set { OnOk result (self.new ≡ take 5 self.old ++ bytes.now) }
        ensures unchanged { OnErr result (self.new ≡ self.old) }
    {
        let missing = bytes.len().saturating_sub(self.len_bytes());
        self.bytes.reserve(missing)?;
        self.bytes.truncate(5);
        self.bytes.extend_from_slice(bytes)
    }

    /// Appends these to the value bytes.
    ///
    /// Errors: memory was refused. Then the term is as it was.
    pub fn append_bytes(&mut self, appended: &[u8]) -> Result<(), AllocError>
        ensures longer { OnOk result (self.new ≡ self.old ++ appended.now) }
        ensures unchanged { OnErr result (self.new ≡ self.old) }
    {
        self.bytes.extend_from_slice(appended)
    }

    /// Lends the value bytes from this place among them on for writing: those that `append_bytes` appended, where the place is
    /// what `len_bytes` returned before. There are as many value bytes.
    pub fn value_bytes_mut(&mut self, start: usize) -> &mut [u8]
        requires { 5 + start ≤ length self.old }
        ensures* writes_back { sem 𝓛 (LendsFrom self.entry (5 + start) result) }
        ensures value { result.now ≡ drop (5 + start) self.old }
    {
        self.bytes.slice_mut(5 + start..)
    }

    /// Appends the code of the value's type and the eight bytes of its number. In a term of a JSON field it stands after the
    /// path.
    ///
    /// Errors: memory was refused. Then the term is as it was.
    pub fn append_type_and_fast_value<T: FastValue>(&mut self, value: T) -> Result<(), AllocError>
        ensures { AppendsValue self.old self.new (T.as_value value) result }
    {
        self.append_type_and_bytes(T::to_type(), &value.to_u64().to_be_bytes())
    }

    /// Appends a number as the term of a JSON value has it: one up to `i64::MAX` as one with a sign, and only one above that as one without.
    /// (Not in tantivy.) In a term of a JSON field it stands after the path, and the term is then that of `term_values`. By
    /// `append_type_and_fast_value` a `u64` has another term, which no document has.
    ///
    /// Errors: memory was refused. Then the term is as it was.
    pub fn append_json_number(&mut self, number: u64) -> Result<(), AllocError>
        ensures { AppendsValue self.old self.new (json_number number) result }
    {
        if number < SIGNED_END {
            self.append_type_and_fast_value(number as i64)
        } else {
            self.append_type_and_fast_value(number)
        }
    }

    /// Appends the code of texts and the text. In a term of a JSON field it stands after the path.
    ///
    /// Errors: memory was refused. Then the term is as it was.
    pub fn append_type_and_str(&mut self, text: &str) -> Result<(), AllocError>
        ensures { AppendsValue self.old self.new (Text text.now) result }
    {
        self.append_type_and_bytes(Type::Str, text.as_bytes())
    }

    /// Appends the type's code and `value_bytes`, whatever these are. In a term of a JSON field they stand after the path. (Not in tantivy.)
    ///
    /// Errors: memory was refused. Then the term is as it was.
    pub fn append_type_and_bytes(
        &mut self,
        value_type: Type,
        value_bytes: &[u8],
    ) -> Result<(), AllocError>
        ensures appended { OnOk result (self.new ≡ self.old ++ code value_type ∷ value_bytes.now) }
        ensures unchanged { OnErr result (self.new ≡ self.old) }
    {
        self.bytes.reserve(value_bytes.len() + 1)?;
        self.bytes.extend_from_slice(&[value_type.to_code()])?;
        self.bytes.extend_from_slice(value_bytes)
    }

    /// The field.
    pub fn field(&self) -> Field
        ensures { result.id ≡ field_of self.now }
    {
        let bytes = [self.bytes[0], self.bytes[1], self.bytes[2], self.bytes[3]];
        Field::from_field_id(u32::from_be_bytes(bytes))
    }

    /// The type that the code is of, or `None` where no type has the code.
    pub fn typ(&self) -> Option<Type>
        ensures { result ≡ type_of_code (slice_index self.now 4) }
    {
        Type::from_code(self.bytes[4])
    }

    /// The value bytes, after the type's code.
    pub fn serialized_value_bytes(&self) -> &[u8]
        ensures { result.now ≡ drop 5 self.now }
    {
        &self.bytes[5..]
    }

    /// The type's code and the value bytes, for reading.
    pub fn value(&self) -> ValueBytes<'_>
        ensures { result.serialized.now ≡ value_of self.now }
    {
        ValueBytes::of(&self.bytes[4..])
    }

    /// The path of a term of a JSON field: what stands after the type's code up to the first U+0000, without that. U+0001
    /// separates its segments. `None` where the type is another, no U+0000 ends a path, or the path isn't UTF-8.
    ///
    /// Errors: memory was refused.
    pub fn get_json_path(&self) -> Result<Option<String>, AllocError>
        ensures { IfOk result (λ found. ReadsPath self.now (option_map string_bytes found)) }
    {
        match self.value().json_path() {
            Some(path) => Ok(Some(String::from_str(*self.bytes.allocator(), path)?)),
            None => Ok(None),
        }
    }

    /// The name of the term's field, and where `get_json_path` returns a path, after a dot that path. The field is one of the
    /// schema, as `has_field` tests.
    ///
    /// Errors: memory was refused.
    pub fn get_full_path(&self, schema: &Schema) -> Result<String, AllocError>
        requires { field_of self.now < length schema.now }
        ensures { IfOk result (λ path. IsFullPathIn schema.now self.now (string_bytes path)) }
    {
        let name = schema.get_field_entry(self.field()).name();
        dotted(*self.bytes.allocator(), name, self.value().json_path())
    }
}

// Puts the bytes of the field, of the type's code and of the payload in the place of those that are there.
fn put_payload(
    bytes: &mut Vec<u8>,
    field: Field,
    value_type: Type,
    payload: &[u8],
) -> Result<(), AllocError>
    ensures made { OnOk result
        (bytes.new.items ≡ to_be_bytes w32 field.id ++ code value_type ∷ payload.now) }
    ensures unchanged { OnErr result (bytes.new.items ≡ bytes.old.items) }
    ensures field { field.id < 2 ^ 32 }
{
    let missing = (payload.len() + 5).saturating_sub(bytes.len());
    bytes.reserve(missing)?;
    bytes.clear();
    bytes.extend_from_slice(&field.field_id().to_be_bytes())?;
    bytes.extend_from_slice(&[value_type.to_code()])?;
    bytes.extend_from_slice(payload)
}

// Whether the text has U+0000.
pub(crate) fn has_nul(text: &str) -> bool
    ensures { MatchBool result (¬ HasNoZero text.now) (HasNoZero text.now) }
{
    text.as_bytes().contains(&0)
}

// Whether one of the texts has U+0000.
pub(crate) fn has_nul_among(texts: &[&str]) -> bool
    ensures { MatchBool result (¬ HaveNoZero texts.now) (HaveNoZero texts.now) }
{
    for text in texts {
        if has_nul(text) {
            return true;
        }
    }
    false
}

// Adds the texts with U+0001 between each two of them to a text.
pub(crate) fn push_segments(segments: &[&str], joined: &mut String) -> Result<(), AllocError>
    ensures { OnOk result
        (string_bytes joined.new ≡ string_bytes joined.old ++ joined_segments segments.now) }
{
    let Some((first, others)) = segments.split_first() else {
        return Ok(());
    };
    joined.push_str(first)?;
    for segment in others {
        joined.push('\u{1}')?;
        joined.push_str(segment)?;
    }
    Ok(())
}

// The bytes of field 0, of the code 0 and of no value, with room for as many value bytes.
fn bytes_with_room(alloc: Global, capacity: usize) -> Result<Vec<u8>, AllocError>
    ensures bytes { IfOk result (λ made. made.items ≡ 0 ∷ 0 ∷ 0 ∷ 0 ∷ 0 ∷ []) }
    ensures room { IfOk result (λ made. capacity + 5 ≤ vec_capacity made) }
{
    let mut bytes = Vec::with_capacity(alloc, capacity.saturating_add(5))?;
    bytes.extend_from_slice(&[0, 0, 0, 0, 0])?;
    Ok(bytes)
}

// The name, and after a dot the path, if there is one.
fn dotted(alloc: Global, name: &str, path: Option<&str>) -> Result<String, AllocError>
    ensures { IfOk result
        (λ text. string_bytes text ≡ name.now ++ dotted (option_copied path.entry)) }
{
    let mut text = String::from_str(alloc, name)?;
    if let Some(path) = path {
        text.push('.')?;
        text.push_str(path)?;
    }
    Ok(text)
}

/// Terms are equal where their bytes are.
impl PartialEq for Term {
    ghost use Rattle.std.specs.Prelude.{bytes_eq};
    ghost use Rattle.std.specs.Cmp.{partial_equiv_from_equiv};
    ghost use Rattle.std.specs.Cmp.Lexicographic.{nat_list_eq_equiv};

    ghost eq = { bytes_eq };

    ghost laws = { partial_equiv_from_equiv nat_list_eq_equiv };

    fn eq(&self, other: &Term) -> bool {
        self.serialized_term() == other.serialized_term()
    }
}

impl Eq for Term {
    ghost use Rattle.std.specs.Cmp.Lexicographic.{nat_list_eq_equiv};

    ghost laws = { nat_list_eq_equiv };
}

/// Terms are ordered as their bytes: by field, then by type, then by value.
impl PartialOrd for Term {
    ghost use Rattle.std.specs.Ordering.{nat_cmp};
    ghost use Rattle.std.specs.Cmp.Lexicographic.{slice_cmp, texts_po};

    ghost partial_cmp = { λ a b. Some (slice_cmp nat_cmp a b) };

    ghost laws = { texts_po };

    fn partial_cmp(&self, other: &Term) -> Option<Ordering> {
        Some(self.cmp(other))
    }
}

impl Ord for Term {
    ghost use Rattle.std.specs.Prelude.{refl};
    ghost use Rattle.std.specs.Ordering.{nat_cmp};
    ghost use Rattle.std.specs.Cmp.Lexicographic.{slice_cmp, nat_list_cmp_total, texts_ties};

    ghost cmp = { λ a b. slice_cmp nat_cmp a b };

    ghost total = { nat_list_cmp_total };

    ghost matches_partial_cmp = { λ a b. refl };

    ghost matches_eq = { texts_ties };

    fn cmp(&self, other: &Term) -> Ordering {
        self.serialized_term().cmp(other.serialized_term())
    }
}

/// A term hashes as its bytes.
impl Hash for Term {
    ghost use Rattle.std.specs.Hash as fed;
    ghost use Rattle.std.specs.Hash.{same_Alike};
    ghost use Rattle.std.proofs.lemmas.Slice.Eq.{bytes_eq-Decides};

    ghost hash_input = { fed.slice fed.u8 };

    ghost respects_eq = { (same_Alike (fed.slice fed.u8) bytes_eq-Decides).fed };

    fn hash<H: Hasher>(&self, state: &mut H) {
        self.serialized_term().hash(state);
    }
}
