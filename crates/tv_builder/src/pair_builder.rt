//! Building the values of pairs part by part, in one heap.

ghost use Rattle.std.specs.Prelude.{◌≡◌, ◌+◌, ◌<◌, ◌≤◌, [], OnOk, IfErr, IsErrOf, length, take, true, false, None};
ghost use Rattle.tv_builder.specs.OneState.{StandsBehind, StandsBehind-prop};
ghost use Rattle.tv_builder.specs.Finish.{HoldsPrefix, HoldsPrefix-prop, Settled, Kept, KeptNot};
ghost use Rattle.tv_builder.specs.TreeBytes.{document_heap};
ghost use Rattle.tv_builder.specs.Weight.{document_weight, state_weight};

use crate::building::Building;
use crate::errors::BuildError;
use crate::heap_pairs::{HeapPair, HeapPairs, push_pair};
use crate::kinds::{Awaits, BytesKind, ListKind};
use tv_value::leaf::ReferenceValueLeaf;
use tv_value::value::Value;

// After a refusal, drops what isn't finished and marks it.
fn settle(
    building: &mut Building,
    failed: &mut bool,
    kept: usize,
    answer: Result<(), BuildError>,
) -> Result<(), BuildError>
    ensures returned { result ≡ answer }
    ensures settled { Settled building.old building.new kept failed.old failed.new answer }
{
    if answer.is_err() {
        building.clear(kept);
        *failed = true;
    }
    answer
}

// Makes the complete value that of a pair.
fn keep_tree(
    building: &mut Building,
    pairs: &mut Vec<HeapPair>,
    kept: &mut usize,
    field: u32,
) -> Result<(), BuildError>
    ensures ok { OnOk result
        (Kept building.old building.new pairs.old.items pairs.new.items kept.new field) }
    ensures err { IfErr result
        (λ e. KeptNot building.old building.new pairs.old.items pairs.new.items
        kept.old kept.new e) }
{
    let Some(place) = building.complete else {
        return Err(BuildError::OutOfPlace);
    };
    push_pair(pairs, HeapPair { field, place })?;
    building.complete = None;
    *kept = building.heap.len();
    Ok(())
}

/// Pairs in a heap, and a value of any depth that is written into it as its parts arrive. (Not in tantivy.)
///
/// A value comes by one call, or as a list whose children come by as many calls, or as bytes in chunks. A list closes itself with its
/// last child. The complete value becomes a pair by `finish`. No call's time grows with the number of open lists or of finished pairs; what
/// closes a list takes as long as its own bytes.
///
/// A call is refused with `OutOfPlace` where another is awaited; with `HeapFull` where what it writes, or a list that it closes, would end
/// above 4294967295; and with `Memory` where memory is refused. After any refusal nothing is open, the finished pairs stay, and every call
/// that can refuse returns `AlreadyFailed`.
#[derive(Debug, Drop)]
pub struct PairBuilder {
    building: Building,
    pairs: Vec<HeapPair>,
    // The length of the heap after the last finished pair.
    kept: usize,
    failed: bool,
    pub ghost document: { HoldsPrefix building.heap.items kept pairs.items } by { HoldsPrefix-prop building.heap.items kept pairs.items },
    pub ghost kept_within: { kept ≤ length building.heap.items },
    pub ghost bytes: { take kept building.heap.items ≡ document_heap [] document.0 },
    pub ghost state: { StandsBehind (take kept building.heap.items) building } by { StandsBehind-prop (take kept building.heap.items) building },
}

#[tactic(auto, using(crate::proofs::PairBuilding::stands))]
impl PairBuilder {
    ghost use Rattle.tv_builder.specs.Fits.{LeafFits, ListFits, KeyFits, HeadFits};
    ghost use Rattle.tv_builder.specs.State.{and_value, and_list, and_key, and_head, and_bytes, awaited, head_awaits, in_lists, lists_of, children_of};
    ghost use Rattle.tv_builder.specs.declared.kinds.Awaits.TheVariants.{Value as ValueNext, Key as KeyNext};
    ghost use Rattle.tv_builder.specs.Builder.{built, state_of, heap_so_far, kept_heap, pairs_so_far, TakesBytes, Builds, Ends, Finishes};
    ghost use Rattle.tv_builder.specs.HeldPairs.{document_of, heap_of};
    ghost use Rattle.tv_format.specs.Tree.{leaf as leaf_tree};
    ghost use Rattle.tv_value.specs.Lent.{leaf_of};

    /// A builder after these pairs. It takes no memory.
    pub fn new(finished: HeapPairs) -> PairBuilder
        ensures document { built result ≡ document_of finished }
        ensures heap { heap_so_far result ≡ heap_of finished }
        ensures kept { kept_heap result ≡ heap_of finished }
        ensures pairs { pairs_so_far result ≡ finished.pairs.items }
        ensures state { state_of result ≡ in_lists [] }
        ensures not_failed { result.failed ≡ false }
    {
        let alloc = finished.heap.allocator();
        let kept = finished.heap.len();
        PairBuilder {
            building: Building::new(alloc, finished.heap),
            pairs: finished.pairs,
            kept,
            failed: false,
        }
    }

    /// The finished pairs, at any time, also after a refusal. Their heap ends after the last of their values.
    pub fn into_pairs(self) -> HeapPairs
        ensures document { document_of result ≡ built self }
        ensures heap { heap_of result ≡ kept_heap self }
        ensures pairs { result.pairs.items ≡ pairs_so_far self }
    {
        let building = self.building;
        let mut heap = building.heap;
        heap.truncate(self.kept);
        HeapPairs {
            heap,
            pairs: self.pairs,
        }
    }

    /// The length of the heap, in bytes: at most what the finished pairs and the value that comes next weigh.
    pub fn heap_len(&self) -> usize
        ensures is_length { result ≡ length (heap_so_far self.now) }
        ensures within { result
            ≤ document_weight (built self.now) + state_weight (state_of self.now) }
    {
        self.building.heap.len()
    }

    /// How many finished children the open lists have, keys among them.
    pub fn pending(&self) -> usize
        ensures { result ≡ children_of (lists_of (state_of self.now)) }
    {
        self.building.pending
    }

    /// How many lists are open.
    pub fn frames(&self) -> usize
        ensures { result ≡ length (lists_of (state_of self.now)) }
    {
        self.building.frames.len()
    }

    /// What the next call must be; after a refusal, what it would have to be at first.
    pub fn awaits(&self) -> Awaits
        ensures { result ≡ awaited (state_of self.now) }
    {
        self.building.awaits()
    }

    /// A value without children. `Memory` comes only where the value itself fits.
    pub fn leaf(&mut self, value: ReferenceValueLeaf<'_>) -> Result<(), BuildError>
        ensures { let l = leaf_of value.entry in Builds self.old self.new
            (awaited (state_of self.old) ≡ ValueNext) (LeafFits (heap_so_far self.old) l)
            (λ s. and_value s (leaf_tree l)) result }
    {
        if self.failed {
            return Err(BuildError::AlreadyFailed);
        }
        let result = self.building.leaf(&value);
        settle(&mut self.building, &mut self.failed, self.kept, result)
    }

    /// A whole value of any kind: what the calls for its parts do.
    pub fn tree<'a, V: Value<'a>>(&mut self, value: &V) -> Result<(), BuildError>
        ensures { let t = V.tree value.now in Builds self.old self.new
            (awaited (state_of self.old) ≡ ValueNext) (Unit {0}) (λ s. and_value s t) result }
    {
        if self.failed {
            return Err(BuildError::AlreadyFailed);
        }
        let result = self.building.tree(value);
        settle(&mut self.building, &mut self.failed, self.kept, result)
    }

    /// A list opens, of which this many elements or entries are announced. One of none closes at once. Nothing is reserved. `Memory` comes only
    /// where a list of none itself fits.
    pub fn open_list(&mut self, kind: ListKind, announced: u64) -> Result<(), BuildError>
        ensures { Builds self.old self.new (awaited (state_of self.old) ≡ ValueNext)
            (ListFits (heap_so_far self.old) announced) (λ s. and_list s kind announced) result }
    {
        if self.failed {
            return Err(BuildError::AlreadyFailed);
        }
        let result = self.building.open_list(kind, announced);
        settle(&mut self.building, &mut self.failed, self.kept, result)
    }

    /// A key of the innermost object. `Memory` comes only where the key fits.
    pub fn key(&mut self, content: &str) -> Result<(), BuildError>
        ensures { Builds self.old self.new (awaited (state_of self.old) ≡ KeyNext)
            (KeyFits (heap_so_far self.old) content.now) (λ s. and_key s content.now) result }
    {
        if self.failed {
            return Err(BuildError::AlreadyFailed);
        }
        let result = self.building.key(content);
        settle(&mut self.building, &mut self.failed, self.kept, result)
    }

    /// The bytes of a value or of a key begin, of which this many are announced. Nothing is reserved. `Memory` comes only where all of them fit.
    pub fn begin_bytes(&mut self, kind: BytesKind, announced: u64) -> Result<(), BuildError>
        ensures { Builds self.old self.new (awaited (state_of self.old) ≡ head_awaits kind)
            (HeadFits (heap_so_far self.old) announced) (λ s. and_head s kind announced) result }
    {
        if self.failed {
            return Err(BuildError::AlreadyFailed);
        }
        let result = self.building.begin_bytes(kind, announced);
        settle(&mut self.building, &mut self.failed, self.kept, result)
    }

    /// Some of the announced bytes. They have room: `HeapFull` doesn't come.
    pub fn chunk(&mut self, bytes: &[u8]) -> Result<(), BuildError>
        ensures builds { Builds self.old self.new
            (TakesBytes (state_of self.old) (length bytes.now)) (Unit {0})
            (λ s. and_bytes s bytes.now) result }
        ensures no_heap_full { ¬ IsErrOf result BuildError.HeapFull }
    {
        if self.failed {
            return Err(BuildError::AlreadyFailed);
        }
        let result = self.building.chunk(bytes);
        settle(&mut self.building, &mut self.failed, self.kept, result)
    }

    /// All announced bytes have come, and are a finished value or key. `NotUtf8` where they should be a text, a facet or a key and aren't
    /// UTF-8.
    pub fn end_bytes(&mut self) -> Result<(), BuildError>
        ensures { Ends self.old self.new result }
    {
        if self.failed {
            return Err(BuildError::AlreadyFailed);
        }
        let result = self.building.end_bytes();
        settle(&mut self.building, &mut self.failed, self.kept, result)
    }

    /// The complete value becomes that of a pair.
    pub fn finish(&mut self, field: u32) -> Result<(), BuildError>
        ensures { Finishes self.old self.new field result }
    {
        if self.failed {
            return Err(BuildError::AlreadyFailed);
        }
        let result = keep_tree(&mut self.building, &mut self.pairs, &mut self.kept, field);
        settle(&mut self.building, &mut self.failed, self.kept, result)
    }
}
