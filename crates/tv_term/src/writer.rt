//! Many terms, one after another in one buffer.

ghost use Rattle.std.specs.Prelude.{◌≡◌, ◌≢◌, ◌<◌, ◌^◌, ◌++◌, ◌∷◌, ◌↔◌, [], OnErr, OnOk, IsTrue, MatchOption};
ghost use Rattle.std.specs.Int.{to_be_bytes, w32};
ghost use Rattle.std.specs.Net.Addr.{ipv6_bits};
ghost use Rattle.tv_options.specs.Types.{code};
ghost use Rattle.tv_term.specs.Key.{Text, Unsigned, Signed, Truth, Date, Facet as FacetValue, Bytes, Address};
ghost use Rattle.tv_term.specs.Making.{Makes, MakesTerm, MakesPathTerm, MakesSegmentsTerm, AppendsValue, OnlyMemory, indexed_date};

use crate::fast_value::FastValue;
use crate::term::{Term, TermError, has_nul, has_nul_among, push_segments};
use std::alloc::{AllocError, Global};
use std::marker::Model;
use std::net::Ipv6Addr;
use tv_base::{Facet, push_joined_json_path};
use tv_date::DateTime;
use tv_options::{DATE_TIME_PRECISION_INDEXED, Type};
use tv_value::Field;

/// Makes terms one after another in one buffer. (Not in tantivy.) A call takes memory only where the buffer is shorter than its term; so
/// once it has held the longest one, no call takes any.
///
/// Each call that makes a term puts it in the place of the one before, and it is the term that the call of `Term` with a like name makes.
/// After an error the writer has the term that it had. Where a call says nothing of errors, its error is `Memory`.
///
/// ```
/// pub fn longest_term(alloc: Global, field: Field, texts: &[&str]) -> Result<usize> {
///     let mut writer = TermWriter::new(alloc);
///     let mut longest = 0;
///     for text in texts {
///         writer.write_text(field, text)?;
///         longest = longest.max(writer.term().len_bytes());
///     }
///     Ok(longest)
/// }
/// ```
#[derive(Debug)]
pub struct TermWriter {
    alloc: Global,
    term: Option<Term>,
    // The path that is written, before it stands in the term.
    path: String,
}

// By hand, so that a writer is dropped by one call.
impl Drop for TermWriter {
    fn drop(self) {
        let TermWriter {
            alloc: _,
            term: _,
            path: _,
        } = self;
    }
}

impl Model for TermWriter {
    ghost use Rattle.std.specs.Prelude.{List, ℕ, [], ◌≤◌, length, unwrap_or, IfSome};

    // The bytes of the term, and none before the first.
    ghost Value = { List ℕ };

    ghost view = { λ writer. unwrap_or writer.term [] };

    ghost invariant = { λ writer. IfSome writer.term (λ term. 5 ≤ length term) };
}

impl TermWriter {
    /// A writer without a term. It takes no memory.
    pub fn new(alloc: Global) -> TermWriter
        ensures { result ≡ [] }
    {
        TermWriter {
            alloc,
            term: None,
            path: String::new(alloc),
        }
    }

    /// Whether there is a term: whether a call that makes one has succeeded.
    pub fn has_term(&self) -> bool
        ensures { IsTrue result ↔ (self.now ≢ []) }
    {
        match &self.term {
            Some(_) => true,
            None => false,
        }
    }

    /// The term that was made last, as the calls since then have changed it. There is one, as `has_term` tests.
    pub fn term(&self) -> &Term
        requires { self.now ≢ [] }
        ensures { result.now ≡ self.now }
    {
        match &self.term {
            Some(term) => term,
            None => unreachable!(),
        }
    }

    /// The term, taken out of the writer, or `None` where there is none.
    pub fn into_term(self) -> Option<Term>
        ensures { MatchOption result (self ≡ []) (λ term. term ≡ self) }
    {
        let TermWriter {
            alloc: _,
            term,
            path: _,
        } = self;
        term
    }

    /// Makes the term of a whole number without a sign.
    pub fn write_u64(&mut self, field: Field, unsigned: u64) -> Result<(), TermError>
        ensures { MakesTerm self.old self.new field.id (Unsigned unsigned) result }
    {
        self.write_fast_value(field, unsigned)
    }

    /// Makes the term of a whole number with a sign.
    pub fn write_i64(&mut self, field: Field, signed: i64) -> Result<(), TermError>
        ensures { MakesTerm self.old self.new field.id (Signed signed) result }
    {
        self.write_fast_value(field, signed)
    }

    /// Makes the term of a truth value.
    pub fn write_bool(&mut self, field: Field, truth: bool) -> Result<(), TermError>
        ensures { MakesTerm self.old self.new field.id (Truth truth) result }
    {
        self.write_fast_value(field, truth)
    }

    /// Makes the term of a date, to the nanosecond, as `Term::from_field_date` does.
    pub fn write_date(&mut self, field: Field, date: DateTime) -> Result<(), TermError>
        ensures { MakesTerm self.old self.new field.id (Date date.nanoseconds) result }
    {
        self.write_fast_value(field, date)
    }

    /// Makes the term of a date as it is indexed: cut to the second, towards 1970.
    pub fn write_date_for_search(&mut self, field: Field, date: DateTime) -> Result<(), TermError>
        ensures { MakesTerm self.old self.new field.id (indexed_date date.nanoseconds) result }
    {
        self.write_date(field, date.truncate(DATE_TIME_PRECISION_INDEXED))
    }

    /// Makes the term of an IP address.
    pub fn write_ip_addr(&mut self, field: Field, address: Ipv6Addr) -> Result<(), TermError>
        ensures { MakesTerm self.old self.new field.id (Address (ipv6_bits address)) result }
    {
        let number = address.to_bits();
        self.write_value_bytes(field, Type::IpAddr, &number.to_be_bytes())
    }

    /// Makes the term of a facet: its encoded text.
    pub fn write_facet(&mut self, field: Field, facet: &Facet) -> Result<(), TermError>
        ensures { MakesTerm self.old self.new field.id (FacetValue facet.now) result }
    {
        self.write_encoded_facet(field, facet.encoded_str())
    }

    /// Makes the term of the facet that has this encoded text, as a document lends it.
    pub fn write_encoded_facet(&mut self, field: Field, encoded: &str) -> Result<(), TermError>
        ensures { MakesTerm self.old self.new field.id (FacetValue encoded.now) result }
    {
        self.write_value_bytes(field, Type::Facet, encoded.as_bytes())
    }

    /// Makes the term of a text.
    pub fn write_text(&mut self, field: Field, text: &str) -> Result<(), TermError>
        ensures { MakesTerm self.old self.new field.id (Text text.now) result }
    {
        self.write_value_bytes(field, Type::Str, text.as_bytes())
    }

    /// Makes the term of bytes.
    pub fn write_bytes(&mut self, field: Field, bytes: &[u8]) -> Result<(), TermError>
        ensures { MakesTerm self.old self.new field.id (Bytes bytes.now) result }
    {
        self.write_value_bytes(field, Type::Bytes, bytes)
    }

    /// Makes the term of the field, of the type's code and of `value_bytes`, whatever these are. The other calls make the terms of values.
    pub fn write_value_bytes(
        &mut self,
        field: Field,
        value_type: Type,
        value_bytes: &[u8],
    ) -> Result<(), TermError>
        ensures term { Makes
            (λ bytes. bytes ≡ to_be_bytes w32 field.id ++ code value_type ∷ value_bytes.now)
            OnlyMemory self.old self.new result }
        ensures field { field.id < 2 ^ 32 }
    {
        put(&mut self.term, self.alloc, field, value_type, value_bytes)
    }

    /// Makes the term of a path into a field of JSON objects, as `Term::from_field_json_path` does. A value there is appended by
    /// `append_fast_value` or `append_text`.
    ///
    /// Errors: `NulInPath`, exactly where the path has U+0000, also after a backslash, and before memory is asked for; else `Memory`.
    pub fn write_json_path(
        &mut self,
        field: Field,
        json_path: &str,
        expand_dots: bool,
    ) -> Result<(), TermError>
        ensures { MakesPathTerm self.old self.new field.id expand_dots json_path.now result }
    {
        if has_nul(json_path) {
            return Err(TermError::NulInPath);
        }
        self.path.clear();
        push_joined_json_path(json_path, expand_dots, &mut self.path)?;
        self.path.push('\0')?;
        put(
            &mut self.term,
            self.alloc,
            field,
            Type::Json,
            self.path.as_bytes(),
        )
    }

    /// Makes the term of a path into a field of JSON objects that is given by its segments, as `Term::from_field_json_segments` does. A
    /// value there is appended by `append_fast_value` or `append_text`.
    ///
    /// Errors: `NulInPath`, exactly where a segment has U+0000, and before memory is asked for; else `Memory`.
    pub fn write_json_segments(&mut self, field: Field, segments: &[&str]) -> Result<(), TermError>
        ensures { MakesSegmentsTerm self.old self.new field.id segments.now result }
    {
        if has_nul_among(segments) {
            return Err(TermError::NulInPath);
        }
        self.path.clear();
        push_segments(segments, &mut self.path)?;
        self.path.push('\0')?;
        put(
            &mut self.term,
            self.alloc,
            field,
            Type::Json,
            self.path.as_bytes(),
        )
    }

    /// Appends the code of a value's type and the eight bytes of its number to the term, as `Term::append_type_and_fast_value` does. In
    /// a term of a JSON field it stands after the path. There is a term, as `has_term` tests.
    pub fn append_fast_value<T: FastValue>(&mut self, value: T) -> Result<(), AllocError>
        requires { self.old ≢ [] }
        ensures { AppendsValue self.old self.new (T.as_value value) result }
    {
        match &mut self.term {
            Some(term) => term.append_type_and_fast_value(value),
            None => unreachable!(),
        }
    }

    /// Appends the code of texts and the text to the term, as `Term::append_type_and_str` does. In a term of a JSON field it stands
    /// after the path. There is a term, as `has_term` tests.
    pub fn append_text(&mut self, text: &str) -> Result<(), AllocError>
        requires { self.old ≢ [] }
        ensures { AppendsValue self.old self.new (Text text.now) result }
    {
        match &mut self.term {
            Some(term) => term.append_type_and_str(text),
            None => unreachable!(),
        }
    }

    // Makes the term of a value of eight bytes.
    fn write_fast_value<T: FastValue>(&mut self, field: Field, value: T) -> Result<(), TermError>
        ensures { MakesTerm self.old self.new field.id (T.as_value value) result }
    {
        self.write_value_bytes(field, T::to_type(), &value.to_u64().to_be_bytes())
    }
}

// Puts the term of the field, of the type's code and of the payload in the place of the one before.
fn put(
    held: &mut Option<Term>,
    alloc: Global,
    field: Field,
    value_type: Type,
    payload: &[u8],
) -> Result<(), TermError>
    ensures made { OnOk result
        (held.new ≡ Some (to_be_bytes w32 field.id ++ code value_type ∷ payload.now)) }
    ensures unchanged { OnErr result (held.new ≡ held.old) }
    ensures field { field.id < 2 ^ 32 }
    ensures memory { OnlyMemory result }
{
    match held {
        Some(term) => term.replace(field, value_type, payload)?,
        None => *held = Some(Term::from_payload(alloc, field, value_type, payload)?),
    }
    Ok(())
}
