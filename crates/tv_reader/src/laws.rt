//! Laws of legacy objects, of the store format that has them, and of how deep its values nest, each the contract of a function that
//! does nothing.

ghost use Rattle.std.specs.Prelude.{◌≡◌, ◌≢◌, ◌⊎◌, [], ◌++◌, ℕ, List};
ghost use Rattle.tv_base.specs.Parts.{OneReading};
ghost use Rattle.tv_base.specs.Source.{AllBytes};
ghost use Rattle.tv_base.specs.declared.cause.Cause.{Cause};
ghost use Rattle.tv_base.specs.declared.cause.Cause.TheVariants.{UnexpectedEnd};
ghost use Rattle.tv_format.specs.Encoding.{Encodes, EncodesDocument, Derives, NoLegacy};
ghost use Rattle.tv_format.specs.InputError.{Refusal, corrupted, ErrorInValue, ErrorInDocument};
ghost use Rattle.tv_format.specs.Short.{short, short_document, IsValue, IsDocument};
ghost use Rattle.tv_format.specs.Tree.{Tree, Entries, Document};
ghost use Rattle.tv_format.specs.Version.{Version, IsWritten};
ghost use Rattle.tv_reader.specs.Depth.{EncodesWithin, Opens};
ghost use Rattle.tv_reader.specs.Legacy.{Legacy, ErrorInLegacy};
ghost use Rattle.tv_reader.specs.LegacyLaws.{BeginsLegacy, IsMalformed, BeginsValue, HasErrorInValue, DerivesDocument, HasErrorInDocument};
ghost use Rattle.tv_value.specs.Nesting.{NestsWithin};

/// No legacy object begins another, and each has one list of entries.
pub fn legacy_objects_have_one_reading()
    ensures { OneReading Legacy }
{}

/// Where bytes are malformed, no prefix of them is a legacy object.
pub fn malformed_legacy_objects_encode_none()
    ensures { (prefix rest : List ℕ) (c : Cause) (entries : Entries)
        → ErrorInLegacy (prefix ++ rest) c → Legacy prefix entries → ⊥ }
{}

/// Bytes that begin with no legacy object are malformed in one way only.
pub fn errors_of_legacy_objects_are_unique()
    ensures { (bytes : List ℕ) (c d : Cause) → ErrorInLegacy bytes c → ErrorInLegacy bytes d
        → c ≡ d }
{}

/// Any bytes begin with a legacy object, or are malformed.
pub fn bytes_begin_a_legacy_object_or_are_malformed()
    ensures { (bytes : List ℕ) → AllBytes bytes → BeginsLegacy bytes ⊎ IsMalformed bytes }
{}

/// In each version no encoding of a value begins another, and each encodes one value, with legacy objects too.
pub fn values_have_one_reading()
    ensures { (v : Version) → OneReading (Encodes Legacy v) }
{}

/// The same of documents.
pub fn documents_have_one_reading()
    ensures { (v : Version) → OneReading (EncodesDocument Legacy v) }
{}

/// The shortest encoding of a value encodes it.
pub fn short_values_encode()
    ensures { (v : Version) → IsWritten v → (t : Tree) → IsValue t
        → Encodes Legacy v (short v t) t }
{}

/// The same of documents.
pub fn short_documents_encode()
    ensures { (v : Version) → IsWritten v → (d : Document) → IsDocument d
        → EncodesDocument Legacy v (short_document v d) d }
{}

/// Where bytes are malformed, no prefix of them encodes a value.
pub fn malformed_values_encode_none()
    ensures { (v : Version) (prefix rest : List ℕ) (refusal : Refusal) (t : Tree)
        → ErrorInValue Legacy ErrorInLegacy v (prefix ++ rest) refusal → Encodes Legacy v prefix t
        → ⊥ }
{}

/// The same of documents.
pub fn malformed_documents_derive_none()
    ensures { (v : Version) (bytes : List ℕ) (refusal : Refusal) (d : Document) →
        ErrorInDocument Legacy ErrorInLegacy v bytes refusal → Derives Legacy v bytes d → ⊥ }
{}

/// Bytes that encode no value are malformed in one way only.
pub fn errors_of_values_are_unique()
    ensures { (v : Version) (bytes : List ℕ) (r s : Refusal)
        → ErrorInValue Legacy ErrorInLegacy v bytes r → ErrorInValue Legacy ErrorInLegacy v bytes s
        → r ≡ s }
{}

/// The same of documents.
pub fn errors_of_documents_are_unique()
    ensures { (v : Version) (bytes : List ℕ) (r s : Refusal)
        → ErrorInDocument Legacy ErrorInLegacy v bytes r
        → ErrorInDocument Legacy ErrorInLegacy v bytes s → r ≡ s }
{}

/// Any bytes begin with a value, or are malformed. By the laws above not both: in each version exactly one of them holds.
pub fn bytes_begin_a_value_or_are_malformed()
    ensures { (v : Version) (bytes : List ℕ) → AllBytes bytes
        → BeginsValue v bytes ⊎ HasErrorInValue v bytes }
{}

/// The same of documents.
pub fn bytes_derive_a_document_or_are_malformed()
    ensures { (v : Version) (bytes : List ℕ) → AllBytes bytes
        → DerivesDocument v bytes ⊎ HasErrorInDocument v bytes }
{}

/// Each strict prefix of a value's encoding has the error that it ends too early; by the laws above it has no other.
pub fn strict_prefixes_of_values_end_early()
    ensures { (v : Version) (prefix rest : List ℕ) (t : Tree) → Encodes Legacy v (prefix ++ rest) t
        → rest ≢ [] → ErrorInValue Legacy ErrorInLegacy v prefix (corrupted UnexpectedEnd) }
{}

/// The same of documents.
pub fn strict_prefixes_of_documents_end_early()
    ensures { (v : Version) (prefix rest : List ℕ) (d : Document)
        → EncodesDocument Legacy v (prefix ++ rest) d → rest ≢ []
        → ErrorInDocument Legacy ErrorInLegacy v prefix (corrupted UnexpectedEnd) }
{}

/// Bytes that open more lists at once than a depth allows begin no value that is encoded within it.
pub fn too_deep_bytes_encode_none_within()
    ensures { (v : Version) (levels : ℕ) (bytes more prefix rest : List ℕ) (t : Tree)
        → Opens v levels bytes → EncodesWithin v levels prefix t → bytes ++ more ≡ prefix ++ rest
        → ⊥ }
{}

/// What is encoded within a depth is encoded.
pub fn values_within_a_depth_are_encoded()
    ensures { (v : Version) (levels : ℕ) (bytes : List ℕ) (t : Tree) → EncodesWithin v levels bytes t
        → Encodes Legacy v bytes t }
{}

/// Bytes that encode a value encode it within any depth that its tree nests within.
pub fn nested_values_are_encoded_within()
    ensures { (v : Version) (levels : ℕ) (bytes : List ℕ) (t : Tree) → Encodes Legacy v bytes t
        → NestsWithin levels t → EncodesWithin v levels bytes t }
{}

/// So bytes that open more lists at once begin no value whose tree nests within the depth.
pub fn too_deep_bytes_encode_no_nested_value()
    ensures { (v : Version) (levels : ℕ) (bytes more prefix rest : List ℕ) (t : Tree)
        → Opens v levels bytes → Encodes Legacy v prefix t → NestsWithin levels t
        → bytes ++ more ≡ prefix ++ rest → ⊥ }
{}

/// Without legacy objects only a tree that nests within a depth is encoded within it.
pub fn values_within_a_depth_nest()
    ensures { (v : Version) (levels : ℕ) (bytes : List ℕ) (t : Tree) → Encodes NoLegacy v bytes t
        → EncodesWithin v levels bytes t → NestsWithin levels t }
{}
