//! Laws of the store format, each the contract of a function that does nothing.

ghost use Rattle.std.specs.Prelude.{◌≡◌, ◌≤◌, ℕ, ◌++◌, List, length};
ghost use Rattle.tv_base.specs.Parts.{OneReading};
ghost use Rattle.tv_format.specs.InputError.{Refusal, ErrorInValue, ErrorInDocument, NoErrorInLegacy};
ghost use Rattle.tv_format.specs.Short.{short, short_document, IsValue, IsDocument};
ghost use Rattle.tv_format.specs.Encoding.{Encodes, EncodesDocument, Derives, NoLegacy};
ghost use Rattle.tv_format.specs.Tree.{Tree, Document};
ghost use Rattle.tv_format.specs.Version.{Version, IsWritten};

/// In each version no encoding of a value begins another, and each encodes one value.
pub fn values_have_one_reading()
    ensures { (v : Version) → OneReading (Encodes NoLegacy v) }
{}

/// The same of documents.
pub fn documents_have_one_reading()
    ensures { (v : Version) → OneReading (EncodesDocument NoLegacy v) }
{}

/// The shortest encoding of a value encodes it.
pub fn short_values_encode()
    ensures { (v : Version) → IsWritten v → (t : Tree) → IsValue t
        → Encodes NoLegacy v (short v t) t }
{}

/// The same of documents.
pub fn short_documents_encode()
    ensures { (v : Version) → IsWritten v → (d : Document) → IsDocument d
        → EncodesDocument NoLegacy v (short_document v d) d }
{}

/// No encoding of a value is shorter than its shortest one. Objects in the legacy form don't count: they may be shorter.
pub fn short_values_are_shortest()
    ensures { (v : Version) → IsWritten v → (t : Tree) (bytes : List ℕ)
        → Encodes NoLegacy v bytes t → length (short v t) ≤ length bytes }
{}

/// The same of documents.
pub fn short_documents_are_shortest()
    ensures { (v : Version) → IsWritten v → (d : Document) (bytes : List ℕ)
        → EncodesDocument NoLegacy v bytes d → length (short_document v d) ≤ length bytes }
{}

/// Where bytes are malformed, no prefix of them encodes a value.
pub fn malformed_values_encode_none()
    ensures { (v : Version) (prefix rest : List ℕ) (refusal : Refusal) (t : Tree)
        → ErrorInValue NoLegacy NoErrorInLegacy v (prefix ++ rest) refusal
        → Encodes NoLegacy v prefix t → ⊥ }
{}

/// The same of documents.
pub fn malformed_documents_derive_none()
    ensures { (v : Version) (bytes : List ℕ) (refusal : Refusal) (d : Document) →
        ErrorInDocument NoLegacy NoErrorInLegacy v bytes refusal → Derives NoLegacy v bytes d → ⊥ }
{}

/// Bytes that encode no value are malformed in one way only.
pub fn errors_of_values_are_unique()
    ensures { (v : Version) (bytes : List ℕ) (r s : Refusal)
        → ErrorInValue NoLegacy NoErrorInLegacy v bytes r
        → ErrorInValue NoLegacy NoErrorInLegacy v bytes s → r ≡ s }
{}

/// The same of documents.
pub fn errors_of_documents_are_unique()
    ensures { (v : Version) (bytes : List ℕ) (r s : Refusal)
        → ErrorInDocument NoLegacy NoErrorInLegacy v bytes r
        → ErrorInDocument NoLegacy NoErrorInLegacy v bytes s → r ≡ s }
{}
