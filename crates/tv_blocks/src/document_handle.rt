//! Documents behind a pointer that C holds.

ghost use Rattle.std.specs.Option.{option_map};
ghost use Rattle.std.specs.Prelude.{◌≡◌, None, Option, Some};
ghost use Rattle.std.specs.Coded.{coded_option};
ghost use Rattle.tv_doc.specs.declared.document.CompactDoc.{CompactDoc};
ghost use Rattle.tv_blocks.specs.Kept.{keeps};
ghost use Rattle.tv_doc.specs.contracts.document.CompactDoc.{the_row as document_row};

use crate::kept::Kept;
use std::alloc::Global;
use std::marker::Model;
use std::mem::replace;
use tv_doc::CompactDoc;

/// A document that stays where it is between two calls, or none. A handle of zeros holds none. (Not in tantivy.)
#[repr(C)]
pub struct DocumentHandle {
    at: *mut u8,
    pub ghost document: { Option CompactDoc } by { coded_option document_row.coded },
}

impl Model for DocumentHandle {
    ghost also_owns = { λ handle. keeps document_row handle.at handle.document };
}

impl DocumentHandle {
    // The handle of what is kept.
    fn of(kept: Kept<CompactDoc>) -> DocumentHandle
        ensures { result.document ≡ kept.value }
    {
        let Kept { at } = kept;
        DocumentHandle { at: at as *mut u8 }
    }

    // What the handle keeps. It is given up.
    fn into_kept(self) -> Kept<CompactDoc>
        ensures { result.value ≡ self.document }
    {
        let DocumentHandle { at } = self;
        Kept {
            at: at as *mut CompactDoc,
        }
    }

    /// A handle that holds no document.
    pub fn closed() -> DocumentHandle
        ensures { result.document ≡ None }
    {
        DocumentHandle::of(Kept::none())
    }

    /// The document that the handle held, in its box. The handle is given up.
    pub fn into_box(self, alloc: Global) -> Option<Box<CompactDoc>>
        ensures { option_map (λ boxed. boxed.value) result ≡ self.document }
    {
        self.into_kept().into_box(alloc)
    }

    /// Takes the document out of the handle, which then holds none. Nothing of the document moves.
    pub fn take(&mut self, alloc: Global) -> Option<Box<CompactDoc>>
        ensures taken { option_map (λ boxed. boxed.value) result ≡ self.old.document }
        ensures closed { self.new.document ≡ None }
    {
        replace(self, DocumentHandle::closed()).into_box(alloc)
    }

    /// Gives the handle this document, in the place of what it held. Nothing of the document moves.
    pub fn keep(&mut self, alloc: Global, boxed: Box<CompactDoc>)
        ensures { self.new.document ≡ Some boxed.value }
    {
        let _ = replace(self, DocumentHandle::of(Kept::of(boxed))).into_box(alloc);
    }

    /// Gives up what the handle held, so that it holds no document.
    pub fn close(&mut self, alloc: Global)
        ensures { self.new.document ≡ None }
    {
        let _ = self.take(alloc);
    }
}
