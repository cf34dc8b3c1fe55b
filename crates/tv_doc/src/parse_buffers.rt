//! Memory for documents that are made of JSON, one after the other.

ghost use Rattle.std.specs.Prelude.{◌≡◌, Some, None};

use crate::errors::DocParsingError;
use crate::recent_fields::RecentFields;
use std::alloc::Global;
use tv_field::json_value::JsonScratch;
use tv_json::Scratch;

/// Memory that `CompactDoc::parse_json_into` and `parse_json_strict_into` use as they read: for texts with escapes, for values that their fields have
/// in another form, and for the fields that were named. (Not in tantivy.) One serves any number of documents, one after the other.
#[derive(Drop)]
pub struct ParseBuffers {
    pub(crate) texts: Scratch,
    pub(crate) adding: Adding,
    // By its number, whether a key named the field, see `CompactDoc::parse_json_strict_into`.
    pub(crate) noted: Vec<bool>,
}

// What adding the values of an object needs, and why it ended where a value was refused.
pub(crate) struct Adding {
    pub(crate) scratch: JsonScratch,
    pub(crate) recent: RecentFields,
    pub(crate) refused: Option<DocParsingError>,
}

// By hand, so that it is dropped by one call.
impl Drop for Adding {
    fn drop(self) {
        let Adding {
            scratch: _,
            recent: _,
            refused: _,
        } = self;
    }
}

impl Adding {
    // Keeps why nothing is returned.
    #[inline(never)]
    pub(crate) fn refuse(&mut self, error: DocParsingError) -> Option<()>
        ensures none { result ≡ None }
        ensures refused { self.new.refused ≡ Some error }
    {
        self.refused = Some(error);
        None
    }
}

impl ParseBuffers {
    /// Takes no memory.
    pub fn new(alloc: Global) -> ParseBuffers {
        ParseBuffers::with_fields(alloc, RecentFields::new(alloc))
    }

    // For one document.
    pub(crate) fn for_one(alloc: Global) -> ParseBuffers {
        ParseBuffers::with_fields(alloc, RecentFields::none(alloc))
    }

    fn with_fields(alloc: Global, recent: RecentFields) -> ParseBuffers {
        let scratch = JsonScratch::new(alloc);
        ParseBuffers {
            texts: Scratch::new(alloc),
            adding: Adding {
                scratch,
                recent,
                refused: None,
            },
            noted: Vec::new(alloc),
        }
    }
}
