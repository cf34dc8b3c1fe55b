//! The lists that are open at a place in a text of JSON, without memory of their own.

ghost use Rattle.std.specs.Prelude.{◌≡◌, ◌^◌, ◌<◌, ◌≤◌, List, [], ◌∷◌, drop, length, nat_lt};
ghost use Rattle.std.specs.Bool.{OnTrue};
ghost use Rattle.serde_json.specs.Read.{max_depth};
ghost use Rattle.tv_json.specs.ListKinds.{innermost, kinds};
ghost use Rattle.tv_json.specs.declared.json_place.ListKind.{ListKind};

use crate::json_place::ListKind;
use std::marker::Model;

// How deep lists nest at most where the JSON library reads them.
const MAX_DEPTH: usize = 127;

// The kinds of the lists that are open, the innermost first.
#[derive(Drop)]
pub(crate) struct ListStack {
    // A bit for each list, of which the lowest is the innermost's: 1 where it is an object.
    objects: u128,
    depth: usize,
}

impl Model for ListStack {
    ghost Value = { List ListKind };

    ghost view = { λ s. kinds s.depth s.objects };

    ghost invariant = { λ s. (s.depth ≤ 127) × (s.objects < 2 ^ s.depth) };
}

impl ListStack {
    pub(crate) fn new() -> ListStack
        ensures { result ≡ [] }
    {
        ListStack {
            objects: 0,
            depth: 0,
        }
    }

    // What the innermost list is.
    pub(crate) fn innermost(&self) -> Option<ListKind>
        ensures { result ≡ innermost self.now }
    {
        if self.depth == 0 {
            None
        } else if self.objects % 2 == 1 {
            Some(ListKind::Object)
        } else {
            Some(ListKind::Array)
        }
    }

    // Opens a list, if no more are open than the JSON library reads.
    pub(crate) fn push(&mut self, kind: ListKind) -> bool
        ensures fits { result ≡ nat_lt (length self.old) max_depth }
        ensures pushed { OnTrue result (self.new ≡ kind ∷ self.old) }
    {
        if self.depth >= MAX_DEPTH {
            return false;
        }
        let bit = match kind {
            ListKind::Array => 0,
            ListKind::Object => 1,
        };
        self.objects = self.objects * 2 + bit;
        self.depth += 1;
        true
    }

    // Closes the innermost list.
    pub(crate) fn pop(&mut self)
        ensures { self.new ≡ drop 1 self.old }
    {
        self.objects /= 2;
        self.depth = self.depth.saturating_sub(1);
    }
}
