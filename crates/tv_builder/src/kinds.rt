//! Kinds of lists and of bytes, and what a builder awaits.

ghost use Rattle.std.specs.Prelude.{◌≡◌, ◌↔◌, IsTrue};

use tv_heap::value_type::ValueType;

/// What a list holds. (Not in tantivy.)
#[derive(Clone, Copy, Debug, PartialEq, Eq)]
pub enum ListKind {
    /// Values.
    Array,
    /// Keys and their values in turn.
    Object,
}

impl ListKind {
    ghost use Rattle.tv_builder.specs.Kinds.{list_type};

    /// The type of a list of this kind.
    pub fn value_type(self) -> ValueType
        ensures { result ≡ list_type self }
    {
        match self {
            ListKind::Array => ValueType::Array,
            ListKind::Object => ValueType::Object,
        }
    }
}

/// A value, or a key of an object, that is bytes after their length. (Not in tantivy.)
#[derive(Clone, Copy, Debug, PartialEq, Eq)]
pub enum BytesKind {
    /// A text.
    Str,
    /// The encoded text of a facet.
    Facet,
    /// Bytes.
    Bytes,
    /// A key of an object.
    Key,
}

impl BytesKind {
    ghost use Rattle.tv_builder.specs.Kinds.{IsTextKind, bytes_type};

    /// Whether such bytes are UTF-8.
    pub fn is_text(self) -> bool
        ensures { IsTrue result ↔ IsTextKind self }
    {
        match self {
            BytesKind::Str | BytesKind::Facet | BytesKind::Key => true,
            BytesKind::Bytes => false,
        }
    }

    /// The type that such bytes have in a heap. A key is a text.
    pub fn value_type(self) -> ValueType
        ensures { result ≡ bytes_type self }
    {
        match self {
            BytesKind::Str | BytesKind::Key => ValueType::Str,
            BytesKind::Facet => ValueType::Facet,
            BytesKind::Bytes => ValueType::Bytes,
        }
    }
}

/// What the next call on a builder must be. (Not in tantivy.)
#[derive(Clone, Copy, Debug, PartialEq, Eq)]
pub enum Awaits {
    /// A value, or the head of a list or of bytes.
    Value,
    /// A key of an object.
    Key,
    /// This many more of the announced bytes, and then their end.
    Bytes {
        /// How many have not come yet.
        missing: u32,
    },
    /// The field to which the complete value belongs.
    Finish,
}
