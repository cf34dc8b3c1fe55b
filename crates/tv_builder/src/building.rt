//! A heap, and a value that is written into it part by part.

ghost use Rattle.std.specs.Prelude.{◌≡◌, ◌≤◌, [], ◌↔◌, length, take, OnOk, IfErr, IsErrOf, IsTrue};
ghost use Rattle.tv_format.specs.Tree.{leaf as leaf_tree};
ghost use Rattle.tv_value.specs.Lent.{leaf_of};

use crate::errors::BuildError;
use crate::kinds::{Awaits, BytesKind, ListKind};
use crate::whole::{has_room, put_leaf, put_list, put_tree};
use std::alloc::Global;
use tv_base::byte_buffer::ByteBuffer;
use tv_heap::room::MAX_HEAP_LEN;
use tv_heap::value_type::Place;
use tv_heap::write::push_place;
use tv_value::encode::push_number;
use tv_value::leaf::ReferenceValueLeaf;
use tv_value::nested::{MAX_DEPTH, lend};
use tv_value::value::Value;

// A list of which children are still awaited.
#[derive(Clone, Copy, Debug)]
pub(crate) struct Frame {
    pub kind: ListKind,
    // How many elements or entries are announced.
    pub announced: u64,
    // How many children are finished, keys among them.
    pub finished: usize,
    // Where the places of its children begin.
    pub first: usize,
}

impl Frame {
    ghost use Rattle.tv_builder.specs.Given.{lacks};
    ghost use Rattle.tv_builder.specs.State.{next_at};

    // What its next child is.
    pub(crate) fn awaits(self) -> Awaits
        ensures { result ≡ next_at self.kind self.finished }
    {
        match self.kind {
            ListKind::Array => Awaits::Value,
            ListKind::Object => {
                if self.finished % 2 == 0 {
                    Awaits::Key
                } else {
                    Awaits::Value
                }
            }
        }
    }

    // Whether a child is still awaited.
    pub(crate) fn lacks(self) -> bool
        ensures { result ≡ lacks self }
    {
        match self.kind {
            ListKind::Array => (self.finished as u64) < self.announced,
            ListKind::Object => self.finished as u64 / 2 < self.announced,
        }
    }
}

// The bytes of an open value.
#[derive(Clone, Copy, Debug)]
pub(crate) struct OpenBytes {
    // What they are.
    pub kind: BytesKind,
    // The address of their length.
    pub address: u32,
    // How many are announced.
    pub announced: u32,
    // How many are still awaited.
    pub missing: u32,
}

// A heap, and where what is finished stands in it.
#[derive(Debug, Drop)]
pub(crate) struct Building {
    // The bytes in which finished values stand, and after them open bytes so far.
    pub heap: ByteBuffer,
    // The places of the finished children of all open lists, as they will stand in the bytes of their lists.
    pub places: ByteBuffer,
    // How many they are.
    pub pending: usize,
    // The open lists, from the outermost.
    pub frames: Vec<Frame>,
    // Where the value stands, once it is complete.
    pub complete: Option<Place>,
    // The bytes that are open.
    pub open: Option<OpenBytes>,
}

#[tactic(auto, using(crate::proofs::Sound::fits_of))]
impl Building {
    ghost use Rattle.tv_builder.specs.Parts.{IsContentOf};
    ghost use Rattle.tv_builder.specs.Builder.{HasAllBytes, HasContent, TakesBytes};
    ghost use Rattle.tv_builder.specs.Finish.{Empty};
    ghost use Rattle.tv_builder.specs.Moves.{CanGive, GivesPlace, GivesNot, Does, InState, last_bytes};
    ghost use Rattle.tv_builder.specs.Fits.{LeafFits, ListFits, KeyFits, HeadFits};
    ghost use Rattle.tv_builder.specs.Shows.{HoldsSomeState, awaited_by};
    ghost use Rattle.tv_builder.specs.State.{and_value, and_list, and_key, and_head, and_bytes, and_end, head_awaits};
    ghost use Rattle.tv_builder.specs.declared.kinds.Awaits.TheVariants.{Value as ValueNext, Key as KeyNext};

    // After this heap, where a value is awaited. It takes no memory.
    pub(crate) fn new(alloc: Global, heap: ByteBuffer) -> Building
        ensures { Empty heap.items result }
    {
        Building {
            heap,
            places: ByteBuffer::new(alloc),
            pending: 0,
            frames: Vec::new(alloc),
            complete: None,
            open: None,
        }
    }

    // Drops what isn't finished, and cuts the heap to this length.
    pub(crate) fn clear(&mut self, len: usize)
        ensures { Empty (take len self.old.heap.items) self.new }
    {
        self.heap.truncate(len);
        self.places.clear();
        self.pending = 0;
        self.frames.clear();
        self.complete = None;
        self.open = None;
    }

    // What the next call must be.
    pub(crate) fn awaits(&self) -> Awaits
        ensures { result ≡ awaited_by self.now }
    {
        if let Some(open) = self.open {
            return Awaits::Bytes {
                missing: open.missing,
            };
        }
        if self.complete.is_some() {
            return Awaits::Finish;
        }
        match self.frames.last() {
            Some(frame) => frame.awaits(),
            None => Awaits::Value,
        }
    }

    // A value without children has come.
    pub(crate) fn leaf(&mut self, value: &ReferenceValueLeaf<'_>) -> Result<(), BuildError>
        requires { HoldsSomeState self.old }
        ensures { let l = leaf_of value.now in Does self.old self.new
            (awaited_by self.old ≡ ValueNext) (Unit {0}) (LeafFits self.old.heap.items l)
            (λ s. and_value s (leaf_tree l)) result }
    {
        let Awaits::Value = self.awaits() else {
            return Err(BuildError::OutOfPlace);
        };
        let place = put_leaf(&mut self.heap, value, MAX_HEAP_LEN)?;
        self.give(place)
    }

    // A whole value of any kind has come: what the calls for its parts do.
    pub(crate) fn tree<'a, V: Value<'a>>(&mut self, value: &V) -> Result<(), BuildError>
        requires { HoldsSomeState self.old }
        ensures { let t = V.tree value.now in Does self.old self.new
            (awaited_by self.old ≡ ValueNext) (Unit {0}) (Unit {0}) (λ s. and_value s t) result }
    {
        let Awaits::Value = self.awaits() else {
            return Err(BuildError::OutOfPlace);
        };
        let alloc = self.heap.allocator();
        let (heap, places) = (&mut self.heap, &mut self.places);
        let place = put_tree(alloc, heap, places, lend(value), MAX_DEPTH, MAX_HEAP_LEN)?;
        self.give(place)
    }

    // A list has come, of which this many elements or entries are announced. One of none closes at once.
    pub(crate) fn open_list(&mut self, kind: ListKind, announced: u64) -> Result<(), BuildError>
        requires { HoldsSomeState self.old }
        ensures { Does self.old self.new (awaited_by self.old ≡ ValueNext) (Unit {0})
            (ListFits self.old.heap.items announced) (λ s. and_list s kind announced) result }
    {
        let Awaits::Value = self.awaits() else {
            return Err(BuildError::OutOfPlace);
        };
        let first = self.places.len();
        if announced == 0 {
            let place = put_list(&mut self.heap, &mut self.places, kind, first, MAX_HEAP_LEN)?;
            return self.give(place);
        }
        self.frames.push(Frame {
            kind,
            announced,
            finished: 0,
            first,
        })?;
        Ok(())
    }

    // A key has come: a text that closes no list.
    pub(crate) fn key(&mut self, content: &str) -> Result<(), BuildError>
        requires { HoldsSomeState self.old }
        ensures { Does self.old self.new (awaited_by self.old ≡ KeyNext) (Unit {0})
            (KeyFits self.old.heap.items content.now) (λ s. and_key s content.now) result }
    {
        let Awaits::Key = self.awaits() else {
            return Err(BuildError::OutOfPlace);
        };
        let place = put_leaf(
            &mut self.heap,
            &ReferenceValueLeaf::Str(content),
            MAX_HEAP_LEN,
        )?;
        self.give(place)
    }

    // The bytes of a value or a key begin, of which this many are announced.
    pub(crate) fn begin_bytes(&mut self, kind: BytesKind, announced: u64) -> Result<(), BuildError>
        requires { HoldsSomeState self.old }
        ensures { Does self.old self.new (awaited_by self.old ≡ head_awaits kind) (Unit {0})
            (HeadFits self.old.heap.items announced) (λ s. and_head s kind announced) result }
    {
        if !self.awaits_head(kind) {
            return Err(BuildError::OutOfPlace);
        }
        if !has_room(self.heap.len(), announced, MAX_HEAP_LEN) {
            return Err(BuildError::HeapFull);
        }
        let address = self.heap.len() as u32;
        push_number(&mut self.heap, announced)?;
        self.open = Some(OpenBytes {
            kind,
            address,
            announced: announced as u32,
            missing: announced as u32,
        });
        Ok(())
    }

    // Whether bytes of this kind may begin.
    fn awaits_head(&self, kind: BytesKind) -> bool
        ensures { IsTrue result ↔ (awaited_by self.now ≡ head_awaits kind) }
    {
        match kind {
            BytesKind::Str | BytesKind::Facet | BytesKind::Bytes => {
                matches!(self.awaits(), Awaits::Value)
            }
            BytesKind::Key => matches!(self.awaits(), Awaits::Key),
        }
    }

    // Some of the announced bytes have come.
    pub(crate) fn chunk(&mut self, bytes: &[u8]) -> Result<(), BuildError>
        requires { HoldsSomeState self.old }
        ensures does { Does self.old self.new
            (InState self.old (λ s. TakesBytes s (length bytes.now))) (Unit {0}) (Unit {0})
            (λ s. and_bytes s bytes.now) result }
        ensures no_heap_full { ¬ IsErrOf result BuildError.HeapFull }
    {
        let Some(open) = self.open else {
            return Err(BuildError::OutOfPlace);
        };
        if bytes.len() > open.missing as usize {
            return Err(BuildError::OutOfPlace);
        }
        self.heap.extend_from_slice(bytes)?;
        self.open = Some(OpenBytes {
            kind: open.kind,
            address: open.address,
            announced: open.announced,
            missing: open.missing - bytes.len() as u32,
        });
        Ok(())
    }

    // All announced bytes have come.
    pub(crate) fn end_bytes(&mut self) -> Result<(), BuildError>
        requires { HoldsSomeState self.old }
        ensures { Does self.old self.new (InState self.old HasAllBytes) (InState self.old HasContent)
            (Unit {0}) and_end result }
    {
        let Some(open) = self.open else {
            return Err(BuildError::OutOfPlace);
        };
        if open.missing > 0 {
            return Err(BuildError::OutOfPlace);
        }
        if !self.ends_well(open) {
            return Err(BuildError::NotUtf8);
        }
        self.open = None;
        self.give(Place {
            value_type: open.kind.value_type(),
            address: open.address,
        })
    }

    // Whether the bytes that were open are what they are announced to be.
    fn ends_well(&self, ended: OpenBytes) -> bool
        requires { ended.announced ≤ length self.now.heap.items }
        ensures { IsTrue result
            ↔ IsContentOf ended.kind (last_bytes ended.announced self.now.heap.items) }
    {
        let start = self.heap.len() - ended.announced as usize;
        let (_, content) = self.heap.as_slice().split_at(start);
        !ended.kind.is_text() || str::from_utf8(content).is_ok()
    }

    // Hands a finished value or key to the innermost list, and closes each list that lacks nothing more: a list is written after its
    // children, of which the places are the last.
    fn give(&mut self, place: Place) -> Result<(), BuildError>
        requires { CanGive self.old }
        ensures ok { OnOk result (GivesPlace self.old place self.new) }
        ensures err { IfErr result (λ e. GivesNot self.old place self.new e) }
    {
        let mut finished = place;
        while let Some(mut frame) = self.frames.pop() {
            push_place(&mut self.places, finished)?;
            self.pending += 1;
            frame.finished += 1;
            if frame.lacks() {
                self.frames.push(frame)?;
                return Ok(());
            }
            let (heap, places) = (&mut self.heap, &mut self.places);
            finished = put_list(heap, places, frame.kind, frame.first, MAX_HEAP_LEN)?;
            self.pending -= frame.finished;
        }
        self.complete = Some(finished);
        Ok(())
    }
}
