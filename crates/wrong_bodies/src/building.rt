//! Values that come part by part.

ghost use Rattle.std.specs.Prelude.{◌≡◌, length};
ghost use Rattle.tv_builder.specs.Builder.{Builds, TakesBytes, heap_so_far, state_of};
ghost use Rattle.tv_builder.specs.Fits.{KeyFits, ListFits};
ghost use Rattle.tv_builder.specs.State.{and_bytes, and_key, and_list, awaited};
ghost use Rattle.tv_builder.specs.declared.kinds.Awaits.TheVariants.{Key, Value};
ghost use Rattle.tv_builder.specs.declared.kinds.ListKind.TheVariants.{Array};

use tv_builder::errors::BuildError;
use tv_builder::kinds::{Awaits, ListKind};
use tv_builder::pair_builder::PairBuilder;

/// Bytes stand in the heap as soon as they have come, whether or not they are also kept for later.
pub fn bytes_stand_in_the_heap_at_once(
    builder: &mut PairBuilder,
    later: &mut Vec<u8>,
    bytes: &[u8],
) -> Result<(), BuildError>
    ensures { Builds builder.old builder.new
        (TakesBytes (state_of builder.old) (length bytes.now)) (Unit {0})
        (λ s. and_bytes s bytes.now) result }
{
    let is_kept = later.extend_from_slice(bytes).is_ok();
    match builder.awaits() {
        Awaits::Bytes { missing: _ } if is_kept => builder.chunk(bytes),
        _ => builder.chunk(bytes),
    }
}

/// An array opens without an element, and announcing elements writes nothing.
pub fn announced_elements_take_nothing(
    builder: &mut PairBuilder,
    announced: u64,
) -> Result<(), BuildError>
    ensures { Builds builder.old builder.new (awaited (state_of builder.old) ≡ Value)
        (ListFits (heap_so_far builder.old) announced) (λ s. and_list s Array announced) result }
{
    match builder.open_list(ListKind::Array, announced) {
        Ok(()) => Ok(()),
        Err(error) => Err(error),
    }
}

/// Each key of an object stands in the heap, also where it is the key of the entry before.
pub fn equal_keys_stand_in_the_heap(
    builder: &mut PairBuilder,
    before: &str,
    key: &str,
) -> Result<(), BuildError>
    ensures { Builds builder.old builder.new (awaited (state_of builder.old) ≡ Key)
        (KeyFits (heap_so_far builder.old) key.now) (λ s. and_key s key.now) result }
{
    match key == before {
        true => builder.key(key),
        false => builder.key(key),
    }
}
