//! Documents that are read of the pairs that something gives.

ghost use Rattle.std.specs.Prelude.{◌≡◌, IfErr};
ghost use Rattle.tv_doc.specs.Document.{document_of};
ghost use Rattle.tv_store.specs.PairsGiven.{PairsRefused, ReadsGiven};
ghost use Rattle.tv_format.specs.Tree.{Document};

use std::alloc::Global;
use tv_builder::heap_pairs::HeapPairs;
use tv_doc::document::CompactDoc;
use tv_reader::DeserializeError;
use tv_typed::document::DocumentDeserializer;

/// A document that is read of the pairs that something gives.
pub trait DocumentDeserialize: Sized {
    /// Whether it is a document of these pairs.
    ghost holds: { Self → Document → Type 0 };

    /// Reads the pairs, up to the last. Each error is marked in what the pairs are read from, so that every later read through it
    /// returns `AlreadyFailed`.
    fn deserialize<D: DocumentDeserializer>(
        alloc: Global,
        deserializer: &mut D,
    ) -> Result<Self, DeserializeError>
        ensures reads { ReadsGiven D.DocumentDeserializer holds deserializer.old deserializer.new result };
}

impl DocumentDeserialize for CompactDoc {
    ghost holds = { λ d pairs. document_of d ≡ pairs };

    /// Reads the pairs, up to the last, each value to any depth, straight into the document's heap.
    ///
    /// Errors: those of `next_pair` of what gives the pairs, where each is marked.
    fn deserialize<D: DocumentDeserializer>(
        alloc: Global,
        deserializer: &mut D,
    ) -> Result<CompactDoc, DeserializeError>
        ensures reads { ReadsGiven D.DocumentDeserializer (λ d pairs. document_of d ≡ pairs)
            deserializer.old deserializer.new result }
        ensures refused { D.is_known deserializer.old
            → IfErr result (PairsRefused D.gives D.remaining D.has_failed D.refuses_into deserializer.old) }
    {
        let mut pairs = HeapPairs::new(alloc);
        let mut bytes = Vec::new(alloc);
        loop {
            if !deserializer.next_pair(alloc, &mut pairs, &mut bytes)? {
                return Ok(CompactDoc::from_pairs(pairs));
            }
        }
    }
}
