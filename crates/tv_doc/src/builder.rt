//! Building the values of a document part by part.

ghost use Rattle.std.specs.Prelude.{◌≡◌, length};

use crate::document::CompactDoc;
pub use tv_builder::errors::BuildError;
use tv_builder::kinds::ListKind;
pub use tv_builder::kinds::{Awaits, BytesKind};
use tv_builder::pair_builder::PairBuilder;
use tv_value::field::Field;
use tv_value::leaf::ReferenceValueLeaf;
use tv_value::value::Value;

/// A document, and a value of any depth that is written into its heap as its parts arrive. (Not in tantivy.)
///
/// A value comes by one call, or as a list whose children come by as many calls, or as bytes in chunks. A list closes itself with its
/// last child. The complete value becomes a pair by `finish`. After any refusal nothing is open, and every call that can refuse
/// returns `AlreadyFailed`; the finished pairs stay. No call's time grows with the number of open lists or of finished pairs; what closes a
/// list takes as long as its own bytes.
///
/// ```
/// pub fn built(alloc: Global, field: Field) -> Result<TantivyDocument> {
///     let mut builder = TreeBuilder::new(TantivyDocument::new(alloc));
///     builder.open_object(2)?;
///     builder.key("tags")?;
///     builder.open_array(1)?;
///     builder.leaf(ReferenceValueLeaf::Str("new"))?;
///     builder.key("size")?;
///     builder.leaf(ReferenceValueLeaf::U64(3))?;
///     builder.finish(field)?;
///     Ok(builder.into_doc())
/// }
/// ```
#[derive(Debug)]
pub struct TreeBuilder {
    builder: PairBuilder,
}

// By hand, so that a builder is dropped by one call.
impl Drop for TreeBuilder {
    fn drop(self) {
        let TreeBuilder { builder: _ } = self;
    }
}

impl TreeBuilder {
    ghost use Rattle.tv_builder.specs.State.{awaited, children_of};
    ghost use Rattle.tv_builder.specs.declared.kinds.ListKind.TheVariants.{Array, Object};
    ghost use Rattle.tv_doc.specs.Builder.{IsNewBuilder, IsDocumentOf, IsHeapLength, state_of, open_lists, BuildsLeaf, BuildsTree, BuildsList, BuildsKey};
    ghost use Rattle.tv_doc.specs.Builder.{BeginsBytes, BuildsBytes, Ends, Finishes};
    ghost use Rattle.tv_value.specs.Lent.{leaf_of};

    /// A builder after a document's pairs. It takes no memory.
    pub fn new(doc: CompactDoc) -> TreeBuilder
        ensures { IsNewBuilder doc result }
    {
        TreeBuilder {
            builder: PairBuilder::new(doc.into_pairs()),
        }
    }

    /// The document of the finished pairs, at any time, also after a refusal. Its heap ends after the last of their values.
    pub fn into_doc(self) -> CompactDoc
        ensures { IsDocumentOf self result }
    {
        let TreeBuilder { builder } = self;
        CompactDoc::from_pairs(builder.into_pairs())
    }

    /// The length of the heap, in bytes: at most what the finished pairs and the value that comes next weigh.
    pub fn heap_len(&self) -> usize
        ensures { IsHeapLength self.now result }
    {
        self.builder.heap_len()
    }

    /// How many finished children the open lists have, keys among them.
    pub fn pending(&self) -> usize
        ensures { result ≡ children_of (open_lists self.now) }
    {
        self.builder.pending()
    }

    /// How many lists are open.
    pub fn frames(&self) -> usize
        ensures { result ≡ length (open_lists self.now) }
    {
        self.builder.frames()
    }

    /// What the next call must be; after a refusal, what it would have to be at first. (Not in tantivy.)
    pub fn awaits(&self) -> Awaits
        ensures { result ≡ awaited (state_of self.now) }
    {
        self.builder.awaits()
    }

    /// A value without children.
    ///
    /// `AlreadyFailed` after a refusal; `OutOfPlace` where no value is awaited; `HeapFull` where the value, or a list that it closes, would
    /// end above 4294967295; `Memory` where memory is refused. `Memory` comes only where the value itself fits; it may come before the
    /// `HeapFull` of a list that the value closes.
    pub fn leaf(&mut self, value: ReferenceValueLeaf<'_>) -> Result<(), BuildError>
        ensures { BuildsLeaf self.old self.new (leaf_of value.entry) result }
    {
        self.builder.leaf(value)
    }

    /// A whole value of any kind: what the calls for its parts do.
    ///
    /// `AlreadyFailed` after a refusal; `OutOfPlace` where no value is awaited; `HeapFull` where a part of the value, or a list that it
    /// closes, would end above 4294967295; `Memory` where memory is refused, which may come before the `HeapFull` of a later part of the
    /// value, or of a list that it closes.
    pub fn tree<'a, V: Value<'a>>(&mut self, value: &V) -> Result<(), BuildError>
        ensures { BuildsTree self.old self.new (V.tree value.now) result }
    {
        self.builder.tree(value)
    }

    /// An array opens, of which this many elements are announced. One of none closes at once. Nothing is reserved.
    ///
    /// `AlreadyFailed` after a refusal; `OutOfPlace` where no value is awaited; `HeapFull` where the array, or a list that it closes,
    /// would end above 4294967295; `Memory` where memory is refused. `Memory` comes only where an array of none itself fits; it may come
    /// before the `HeapFull` of a list that the array closes.
    pub fn open_array(&mut self, announced: u64) -> Result<(), BuildError>
        ensures { BuildsList self.old self.new Array announced result }
    {
        self.builder.open_list(ListKind::Array, announced)
    }

    /// An object opens, of which this many entries are announced. One of none closes at once. Nothing is reserved. The errors are those
    /// of `open_array`.
    pub fn open_object(&mut self, announced: u64) -> Result<(), BuildError>
        ensures { BuildsList self.old self.new Object announced result }
    {
        self.builder.open_list(ListKind::Object, announced)
    }

    /// A key of the innermost object.
    ///
    /// `AlreadyFailed` after a refusal; `OutOfPlace` where no key is awaited; `HeapFull` where the key would end above 4294967295; else
    /// `Memory` where memory is refused. `Memory` comes only where the key fits.
    pub fn key(&mut self, content: &str) -> Result<(), BuildError>
        ensures { BuildsKey self.old self.new content.now result }
    {
        self.builder.key(content)
    }

    /// The bytes of a value or of a key begin, of which this many are announced. Nothing is reserved.
    ///
    /// `AlreadyFailed` after a refusal; `OutOfPlace` where no value, or for a key no key, is awaited; `HeapFull` where the announced
    /// bytes after their length would end above 4294967295; else `Memory` where memory is refused. `Memory` comes only where they fit.
    pub fn begin_bytes(&mut self, kind: BytesKind, announced: u64) -> Result<(), BuildError>
        ensures { BeginsBytes self.old self.new kind announced result }
    {
        self.builder.begin_bytes(kind, announced)
    }

    /// Some of the announced bytes.
    ///
    /// `AlreadyFailed` after a refusal; `OutOfPlace` where fewer are missing; else `Memory` where memory is refused.
    pub fn chunk(&mut self, bytes: &[u8]) -> Result<(), BuildError>
        ensures { BuildsBytes self.old self.new bytes.now result }
    {
        self.builder.chunk(bytes)
    }

    /// All announced bytes have come, and are a finished value or key.
    ///
    /// `AlreadyFailed` after a refusal; `OutOfPlace` where no bytes are open, or some are missing; `NotUtf8` where they should be a text,
    /// a facet or a key and aren't UTF-8; `HeapFull` where a list that the value closes would end above 4294967295; `Memory` where memory is
    /// refused, which may come before that `HeapFull`.
    pub fn end_bytes(&mut self) -> Result<(), BuildError>
        ensures { Ends self.old self.new result }
    {
        self.builder.end_bytes()
    }

    /// The complete value becomes that of a pair.
    ///
    /// `AlreadyFailed` after a refusal; `OutOfPlace` where no value is complete; else `Memory` where memory is refused.
    pub fn finish(&mut self, field: Field) -> Result<(), BuildError>
        ensures { Finishes self.old self.new field.id result }
    {
        self.builder.finish(field.field_id())
    }
}
