//! A value in a box as its pointer, or none as null.

ghost use Rattle.std.specs.Option.{option_map};
ghost use Rattle.std.specs.Prelude.{◌≡◌, None, Option, Some};
ghost use Rattle.std.specs.Coded.{coded_option};
ghost use Rattle.tv_blocks.specs.Kept.{keeps};

use std::alloc::Global;
use std::marker::Model;
use std::ptr::null_mut;

/// A value that stays where it is in its box, as the pointer to it; or none, as null.
pub(crate) struct Kept<T> {
    pub(crate) at: *mut T,
    pub(crate) ghost value: { Option T } by { coded_option T.code },
}

impl<T> Model for Kept<T> {
    ghost also_owns = { λ kept. keeps T.row kept.at kept.value };
}

impl<T> Kept<T> {
    // No value.
    pub(crate) fn none() -> Kept<T>
        ensures { result.value ≡ None }
    {
        Kept { at: null_mut() }
    }

    // The value, in its box.
    pub(crate) fn into_box(self, alloc: Global) -> Option<Box<T>>
        ensures { option_map (λ boxed. boxed.value) result ≡ self.value }
    {
        let Kept { at } = self;
        if at == null_mut() {
            return None;
        }
        Some(unsafe { Box::from_raw(alloc, at) })
    }
}

impl<T: Drop> Kept<T> {
    // The value in a box.
    pub(crate) fn of(boxed: Box<T>) -> Kept<T>
        ensures { result.value ≡ Some boxed.value }
    {
        Kept {
            at: Box::into_raw(boxed),
        }
    }
}
