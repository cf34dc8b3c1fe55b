//! Facets and the texts that name them.

ghost use Rattle.std.specs.Prelude.{◌≡◌, Some, IsUtf8};
ghost use Rattle.tv_base.specs.Facet.{parse, printed};
ghost use Rattle.tv_blocks.specs.Buffer.{FillsBuffer};
ghost use Rattle.tv_blocks.specs.Refusals.{IsFacetRefusal, IsTextRefusal, TellsNotUtf8};

use crate::block_error::BlockError;
use crate::buffer::put_whole;
use std::alloc::Global;
use tv_base::Facet;

/// Writes the encoded facet that a text such as `/first/second` names, see `Facet::from_text`, and returns its length in bytes.
///
/// Errors: `NotUtf8` exactly where the text isn't UTF-8; else `NotFacet` where it doesn't begin with `/`, `TooSmall`, `Memory`. The buffer then stays as
/// it is.
pub fn facet_of_text(alloc: Global, text: &[u8], encoded: &mut [u8]) -> Result<u64, BlockError>
    ensures fills { FillsBuffer (λ content. IsUtf8 text.now × (parse text.now ≡ Some content))
        (IsFacetRefusal text.now) encoded.old encoded.new result }
    ensures not_utf8 { TellsNotUtf8 text.now result }
{
    let Ok(text) = str::from_utf8(text) else {
        return Err(BlockError::NotUtf8);
    };
    let mut content = String::new(alloc);
    if !Facet::encode_text(text, &mut content)? {
        return Err(BlockError::NotFacet);
    }
    put_whole(content.as_bytes(), encoded)
}

/// Writes the text that names the facet with these encoded bytes, see `Facet::to_path_string`, and returns its length in bytes.
///
/// Errors: `NotUtf8` exactly where `encoded` isn't UTF-8; else `TooSmall`, `Memory`. The buffer then stays as it is.
pub fn text_of_facet(alloc: Global, encoded: &[u8], text: &mut [u8]) -> Result<u64, BlockError>
    ensures fills { FillsBuffer (λ content. IsUtf8 encoded.now × (content ≡ printed encoded.now))
        (IsTextRefusal encoded.now) text.old text.new result }
    ensures not_utf8 { TellsNotUtf8 encoded.now result }
{
    let Ok(encoded) = str::from_utf8(encoded) else {
        return Err(BlockError::NotUtf8);
    };
    let mut content = String::new(alloc);
    Facet::print_encoded(encoded, &mut content)?;
    put_whole(content.as_bytes(), text)
}
