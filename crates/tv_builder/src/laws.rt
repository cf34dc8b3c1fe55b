//! Laws of parts and states, each the contract of a function that does nothing.

ghost use Rattle.std.specs.Prelude.{◌≡◌, ◌+◌, ◌*◌, ◌≤◌, ℕ, List, [], ◌∷◌, ◌++◌, length};
ghost use Rattle.tv_format.specs.Encoding.{NoLegacy};
ghost use Rattle.tv_format.specs.Tree.{Tree, Document};
ghost use Rattle.tv_format.specs.Version.{Version};
ghost use Rattle.tv_builder.specs.Builder.{built, heap_so_far, state_of};
ghost use Rattle.tv_builder.specs.Called.{parts_called};
ghost use Rattle.tv_builder.specs.HeldPairs.{document_of, heap_of};
ghost use Rattle.tv_builder.specs.Shows.{ShowsState};
ghost use Rattle.tv_builder.specs.StateHeap.{state_heap};
ghost use Rattle.tv_builder.specs.TreeBytes.{document_heap};
ghost use Rattle.tv_builder.specs.declared.heap_pairs.HeapPairs.{HeapPairs};
ghost use Rattle.tv_builder.specs.declared.pair_builder.PairBuilder.{PairBuilder};
ghost use Rattle.tv_builder.specs.Behind.{document_parts, open_parts};
ghost use Rattle.tv_builder.specs.Prefix.{Encoded};
ghost use Rattle.tv_builder.specs.Parts.{Part, Trades, IsContentOf, value, key, bytes_head, some_bytes};
ghost use Rattle.tv_builder.specs.State.{State, OpenList, IsState, in_lists, in_bytes, awaited, and_value, and_list, and_key, and_head, and_bytes, and_end};
ghost use Rattle.tv_builder.specs.State.{list_head, parts_of, lists_of, children_of};
ghost use Rattle.tv_builder.specs.Weight.{document_weight, state_weight};
ghost use Rattle.tv_builder.specs.declared.kinds.Awaits.TheVariants.{Value, Key};
ghost use Rattle.tv_builder.specs.declared.kinds.BytesKind.{BytesKind};
ghost use Rattle.tv_builder.specs.declared.kinds.ListKind.{ListKind};

/// Bytes that encode some parts encode those for which they are traded.
pub fn parts_are_traded()
    ensures { (v : Version) (ps qs : List Part) (b : List ℕ) → Trades ps qs
        → Encoded NoLegacy v b ps → Encoded NoLegacy v b qs }
{}

/// Open lists and their finished children are paid for by the bytes that encode a state, whatever is announced.
pub fn lists_are_paid()
    ensures { (v : Version) (s : State) (b : List ℕ) → Encoded NoLegacy v b (parts_of s)
        → 2 * length (lists_of s) + children_of (lists_of s) ≤ length b }
{}

/// What a call does to a state trades its parts, with the call's part after them, for those of the state that is left.
pub fn calls_trade()
    ensures values { (s : State) (t : Tree) → IsState s → awaited s ≡ Value
        → Trades (parts_of s ++ value t ∷ []) (parts_of (and_value s t)) }
    ensures lists { (s : State) (kind : ListKind) (n : ℕ) → IsState s → awaited s ≡ Value
        → Trades (parts_of s ++ list_head kind n ∷ []) (parts_of (and_list s kind n)) }
    ensures keys { (s : State) (k : List ℕ) → IsState s → awaited s ≡ Key
        → Trades (parts_of s ++ key k ∷ []) (parts_of (and_key s k)) }
    ensures heads { (ls : List OpenList) (kind : BytesKind) (n : ℕ)
        → Trades (parts_of (in_lists ls) ++ bytes_head kind n ∷ [])
        (parts_of (and_head (in_lists ls) kind n)) }
    ensures bytes { (ls : List OpenList) (kind : BytesKind) (n : ℕ) (bs more : List ℕ)
        → Trades (parts_of (in_bytes ls kind n bs) ++ some_bytes more ∷ [])
        (parts_of (and_bytes (in_bytes ls kind n bs) more)) }
    ensures ends { (ls : List OpenList) (kind : BytesKind) (bs : List ℕ)
        → IsState (in_bytes ls kind (length bs) bs) → IsContentOf kind bs
        → Trades (parts_of (in_bytes ls kind (length bs) bs))
        (parts_of (and_end (in_bytes ls kind (length bs) bs))) }
{}

/// What is written of a document, and of the value that comes next, is at most seven times the bytes that encode it, whatever is announced.
pub fn what_is_written_is_paid()
    ensures open { (v : Version) (n : ℕ) (d : Document) (f : ℕ) (s : State) (b : List ℕ)
        → Encoded NoLegacy v b (open_parts n d f s)
        → document_weight d + state_weight s ≤ 7 * length b }
    ensures closed { (v : Version) (n : ℕ) (d : Document) (b : List ℕ)
        → Encoded NoLegacy v b (document_parts n d) → document_weight d ≤ 7 * length b }
{}

/// The same of open lists and of their finished children, after the finished pairs of a document.
pub fn open_lists_are_paid()
    ensures { (v : Version) (n : ℕ) (d : Document) (f : ℕ) (s : State) (b : List ℕ)
        → Encoded NoLegacy v b (open_parts n d f s)
        → (2 * length (lists_of s) ≤ length b) × (children_of (lists_of s) ≤ length b) }
{}

/// The calls for the parts of a value, one after the other, make of a state what the value itself makes of it.
pub fn parts_make_values()
    ensures { (s : State) (t : Tree) → awaited s ≡ Value → parts_called s t ≡ and_value s t }
{}

/// A heap is what writing the trees of its pairs one after the other gives, and in a builder, after them, what writing the parts of the next
/// value gives that have come. So the same pairs and parts have the same heap, however they were added.
pub fn heaps_hold_what_came()
    ensures pairs { (d : HeapPairs) → heap_of d ≡ document_heap [] (document_of d) }
    ensures builders { (b : PairBuilder)
        → heap_so_far b ≡ state_heap (document_heap [] (built b)) (state_of b) }
{}

/// All of a builder's state stands in its heap: each finished child and the complete tree reads at its place, and open bytes so far, after
/// their length's shortest encoding, are the heap's last.
pub fn states_stand_in_the_heap()
    ensures { (b : PairBuilder) → ∥ ShowsState b.building (state_of b) ∥₁ }
{}
