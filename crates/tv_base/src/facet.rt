//! Places in a hierarchy.

ghost use Rattle.std.specs.Prelude.{◌≡◌, ◌≢◌, ◌↔◌, ℕ, List, [], ◌∷◌, ◌++◌, map, refl, Some, IfOk, IfErr, IsOk, IsTrue, MatchOption, OnErr, OnOk, IsUtf8};
ghost use Rattle.std.specs.Prelude.{string_bytes, bytes_eq};
ghost use Rattle.std.specs.List.{join_with_byte};
ghost use Rattle.std.specs.Ordering.{nat_cmp};
ghost use Rattle.std.specs.Hash as fed;
ghost use Rattle.std.specs.Hash.{same_Alike};
ghost use Rattle.std.proofs.lemmas.Slice.Eq.{bytes_eq-Decides};
ghost use Rattle.std.specs.String.{from_utf8_error_vec};
ghost use Rattle.std.specs.Fmt.{DisplaysOnOk};
ghost use Rattle.std.specs.Cmp.{partial_equiv_from_equiv};
ghost use Rattle.std.specs.Cmp.Lexicographic.{slice_cmp, nat_list_eq_equiv, nat_list_cmp_total, texts_ties, texts_po};
ghost use Rattle.tv_base.specs.Facet.{parse, path, printed, debug_printed, IsParseError, WritesFacet, Descends};
ghost use Rattle.tv_base.specs.Sink.{AppendsPrefix};
ghost use Rattle.tv_base.specs.declared.facet.FacetParseError.TheVariants.{Memory};

use crate::text_rules::{Rule, printed_text, push_printed, rewrite};
use std::alloc::{AllocError, Global};
use std::cmp::Ordering;
use std::fmt;
use std::hash::{Hash, Hasher};
use std::marker::Model;
use std::string::FromUtf8Error;
use thiserror::Error;

/// Why there is no facet of a text.
#[derive(Debug, PartialEq, Drop, Error)]
pub enum FacetParseError {
    /// The text doesn't begin with `/`. This is a copy of it.
    #[error("a facet begins with a slash: {0}")]
    FacetParseError(String),
    /// Memory was refused.
    #[error("memory was refused")]
    Memory,
}

impl From<AllocError> for FacetParseError {
    ghost from_gives = { λ _ error. error ≡ Memory };

    fn from(_error: AllocError) -> FacetParseError {
        FacetParseError::Memory
    }
}

/// What separates the steps of an encoded facet, as a byte.
pub const FACET_SEP_BYTE: u8 = 0;

/// What separates the steps of an encoded facet, as a character.
pub const FACET_SEP_CHAR: char = '\u{0}';

/// A place in a hierarchy: the steps down to it from the root. It is kept and compared as its encoded text: the steps with
/// U+0000 between each two of them.
///
/// ```
/// pub fn is_within(alloc: Global, upper: &str, lower: &str) -> Result<bool> {
///     let (upper, lower) = (
///         Facet::from_text(alloc, upper)?,
///         Facet::from_text(alloc, lower)?,
///     );
///     Ok(upper.is_prefix_of(&lower))
/// }
/// ```
#[derive(Drop)]
pub struct Facet {
    encoded: String,
}

impl Model for Facet {
    ghost use Rattle.std.specs.Prelude.{List, ℕ};
    ghost use Rattle.std.specs.String.{string_bytes};

    ghost Value = { List ℕ };

    ghost view = { λ facet. string_bytes facet.encoded };
}

// Writes steps after an encoded text, each after U+0000.
fn push_steps(encoded: &mut String, steps: &[&str]) -> Result<(), AllocError>
    ensures { OnOk result
        (string_bytes encoded.new ≡
        join_with_byte 0 (string_bytes encoded.old ∷ map (λ step. step.now) steps.now)) }
{
    for step in steps {
        encoded.push(FACET_SEP_CHAR)?;
        encoded.push_str(step)?;
    }
    Ok(())
}

impl Facet {
    /// The top of the hierarchy, which has no step. It takes no memory.
    pub fn root(alloc: Global) -> Facet
        ensures { result ≡ [] }
    {
        Facet {
            encoded: String::new(alloc),
        }
    }

    /// Whether this is the root.
    pub fn is_root(&self) -> bool
        ensures { IsTrue result ↔ (self.now ≡ []) }
    {
        self.encoded.is_empty()
    }

    /// The encoded text: the steps with U+0000 between each two of them.
    pub fn encoded_str(&self) -> &str
        ensures { result.now ≡ self.now }
    {
        self.encoded.as_str()
    }

    /// The facet that has these bytes as its encoded text.
    ///
    /// Errors: the bytes aren't UTF-8. The error gives them back.
    pub fn from_encoded(encoded_bytes: Vec<u8>) -> Result<Facet, FromUtf8Error>
        ensures found { IfOk result (λ facet. facet ≡ encoded_bytes.items) }
        ensures is_text { IsUtf8 encoded_bytes.items ↔ IsOk result }
        ensures refused { IfErr result (λ error. from_utf8_error_vec error ≡ encoded_bytes) }
    {
        Ok(Facet {
            encoded: String::from_utf8(encoded_bytes)?,
        })
    }

    // The facet that has this encoded text.
    pub(crate) fn from_encoded_string(encoded: String) -> Facet
        ensures { result ≡ string_bytes encoded }
    {
        Facet { encoded }
    }

    /// The facet that a text such as `/first/second` names: an unescaped slash separates two steps, and a backslash goes and
    /// keeps the character after it.
    ///
    /// Errors: `FacetParseError` with a copy of the text, exactly where that doesn't begin with `/`, and `Memory`.
    pub fn from_text(alloc: Global, text: &str) -> Result<Facet, FacetParseError>
        ensures found { IfOk result (λ facet. parse text.now ≡ Some facet) }
        ensures refused { IfErr result (IsParseError text.now) }
    {
        let mut encoded = String::new(alloc);
        if Facet::encode_text(text, &mut encoded)? {
            return Ok(Facet { encoded });
        }
        let copy = String::from_str(alloc, text)?;
        Err(FacetParseError::FacetParseError(copy))
    }

    /// Writes the encoded text of the facet that a text names, in place of what is there (not in tantivy). Returns whether the text names one:
    /// whether it begins with `/`. Where it doesn't, what is there stays.
    ///
    /// Errors: memory was refused, which comes only where the text names a facet. Then what is there stays, too.
    pub fn encode_text(text: &str, encoded: &mut String) -> Result<bool, AllocError>
        ensures { WritesFacet text.now (string_bytes encoded.old) (string_bytes encoded.new) result }
    {
        match text.strip_prefix('/') {
            Some(rest) => {
                encoded.reserve(rest.len().saturating_sub(encoded.len()))?;
                encoded.clear();
                rewrite(Rule::Facet, rest, encoded)?;
                Ok(true)
            }
            None => Ok(false),
        }
    }

    /// Adds the text that names the facet with an encoded text to a text (not in tantivy). The only error is that memory was refused, and then a
    /// beginning of it may be added.
    pub fn print_encoded(encoded: &str, text: &mut String) -> Result<(), AllocError>
        ensures ok { OnOk result
            (string_bytes text.new ≡ string_bytes text.old ++ printed encoded.now) }
        ensures err { OnErr result
            (AppendsPrefix (string_bytes text.old) (string_bytes text.new) (printed encoded.now)) }
    {
        push_printed(encoded, text)
    }

    /// Writes the text that names the facet with an encoded text, as `Display` of that facet does (not in tantivy).
    pub fn format_encoded<W: fmt::Write>(encoded: &str, f: &mut fmt::Formatter<W>) -> fmt::Result
        ensures { DisplaysOnOk W.write_str_gives f.old result (Some (printed encoded.now)) f.new }
    {
        let bytes = encoded.as_bytes();
        f.write_str("/")?;
        let mut start = 0;
        for place in 0..bytes.len() {
            if let Some(other) = printed_text(bytes[place]) {
                f.write_str(&encoded[start..place])?;
                f.write_str(other)?;
                start = place + 1;
            }
        }
        f.write_str(&encoded[start..])
    }

    /// The facet that has these steps. No step and one empty step are the root. Errors: memory was refused.
    pub fn from_path(alloc: Global, steps: &[&str]) -> Result<Facet, AllocError>
        ensures { IfOk result
            (λ facet. facet ≡ join_with_byte 0 (map (λ step. step.now) steps.now)) }
    {
        let mut encoded = String::new(alloc);
        let Some((first, others)) = steps.split_first() else {
            return Ok(Facet { encoded });
        };
        encoded.push_str(first)?;
        push_steps(&mut encoded, others)?;
        Ok(Facet { encoded })
    }

    /// Whether the steps of the other facet are those of this one and more.
    pub fn is_prefix_of(&self, other: &Facet) -> bool
        ensures { IsTrue result ↔ Descends self.now other.now }
    {
        Facet::encoded_is_prefix_of(self.encoded.as_bytes(), other.encoded.as_bytes())
    }

    /// `is_prefix_of` of the facets that have these bytes as their encoded texts, without making them: whether the steps of the
    /// second facet are those of the first one and more. (Not in tantivy.)
    pub fn encoded_is_prefix_of(ancestor: &[u8], facet: &[u8]) -> bool
        ensures { IsTrue result ↔ Descends ancestor.now facet.now }
    {
        let Some(rest) = rest_behind(facet, ancestor) else {
            return false;
        };
        match rest.split_first() {
            Some((first, _)) => ancestor.is_empty() || *first == FACET_SEP_BYTE,
            None => false,
        }
    }

    /// The encoded text, split at U+0000: the steps, and for the root one empty text. Errors: memory was refused.
    pub fn to_path(&self) -> Result<Vec<&str>, AllocError>
        ensures { IfOk result (λ parts. map (λ part. part.now) parts.items ≡ path self.now) }
    {
        let alloc = *self.encoded.allocator();
        self.encoded_str().split(FACET_SEP_CHAR).collect(alloc)
    }

    /// The text that names this facet, as it is printed: a slash before each step, and a backslash before each slash and each
    /// backslash of a step. Errors: memory was refused.
    pub fn to_path_string(&self) -> Result<String, AllocError>
        ensures { IfOk result (λ text. string_bytes text ≡ printed self.now) }
    {
        self.to_string(*self.encoded.allocator())
    }

    /// The same facet, in memory of its own. Errors: memory was refused.
    pub fn try_clone(&self) -> Result<Facet, AllocError>
        ensures { IfOk result (λ facet. facet ≡ self.now) }
    {
        let alloc = *self.encoded.allocator();
        Ok(Facet {
            encoded: String::from_str(alloc, self.encoded.as_str())?,
        })
    }
}

// What the list has after the prefix, where it begins with that.
fn rest_behind<'a>(whole: &'a [u8], prefix: &[u8]) -> Option<&'a [u8]>
    ensures { MatchOption result ((rest : List ℕ) → whole.now ≢ prefix.now ++ rest)
        (λ rest. whole.now ≡ prefix.now ++ rest.now) }
{
    whole.strip_prefix(prefix)
}

/// Facets are equal where their encoded texts are.
impl PartialEq for Facet {
    ghost eq = { bytes_eq };

    ghost laws = { partial_equiv_from_equiv nat_list_eq_equiv };

    fn eq(&self, other: &Facet) -> bool {
        self.encoded_str() == other.encoded_str()
    }
}

impl Eq for Facet {
    ghost laws = { nat_list_eq_equiv };
}

/// Facets are ordered as the bytes of their encoded texts.
impl PartialOrd for Facet {
    ghost partial_cmp = { λ a b. Some (slice_cmp nat_cmp a b) };

    ghost laws = { texts_po };

    fn partial_cmp(&self, other: &Facet) -> Option<Ordering> {
        Some(self.cmp(other))
    }
}

impl Ord for Facet {
    ghost cmp = { λ a b. slice_cmp nat_cmp a b };

    ghost total = { nat_list_cmp_total };

    ghost matches_partial_cmp = { λ a b. refl };

    ghost matches_eq = { texts_ties };

    fn cmp(&self, other: &Facet) -> Ordering {
        self.encoded_str().cmp(other.encoded_str())
    }
}

/// A facet hashes as its encoded text.
impl Hash for Facet {
    ghost hash_input = { fed.str };

    ghost respects_eq = { (same_Alike fed.str bytes_eq-Decides).fed };

    fn hash<H: Hasher>(&self, state: &mut H) {
        self.encoded_str().hash(state);
    }
}

/// Prints the text that names the facet.
impl fmt::Display for Facet {
    ghost output = { λ facet. Some (printed facet) };

    fn fmt<W: fmt::Write>(&self, f: &mut fmt::Formatter<W>) -> fmt::Result {
        Facet::format_encoded(self.encoded.as_str(), f)
    }
}

/// Prints `Facet(` and then the text that names the facet, and `)`.
impl fmt::Debug for Facet {
    ghost debug_output = { λ facet. Some (debug_printed facet) };

    fn fmt<W: fmt::Write>(&self, f: &mut fmt::Formatter<W>) -> fmt::Result {
        write!(f, "Facet({self})")
    }
}
