//! Buffers of a caller's.

ghost use Rattle.std.specs.Prelude.{◌≡◌, ◌++◌, length, take, OnOk};
ghost use Rattle.tv_blocks.specs.Buffer.{FillsBuffer};
ghost use Rattle.tv_blocks.specs.Records.{numbered_record, record_of};

use crate::block_error::BlockError;
use std::alloc::AllocError;

// Puts the content at the buffer's beginning, and gives its length. A buffer that is too small stays as it is.
pub(crate) fn put_whole(content: &[u8], buffer: &mut [u8]) -> Result<u64, BlockError>
    ensures { FillsBuffer (λ bytes. bytes ≡ content.now) (λ error. ⊥) buffer.old buffer.new result }
{
    let len = content.len();
    if buffer.len() < len {
        return Err(BlockError::TooSmall {
            bytes: len as u64,
            lines: 0,
        });
    }
    buffer[..len].copy_from_slice(content);
    Ok(len as u64)
}

// Appends the number and the length of the bytes, both in eight bytes, the lowest first, and the bytes. After an error a beginning of them may be
// appended.
pub(crate) fn append_record(
    content: &mut Vec<u8>,
    number: u64,
    bytes: &[u8],
) -> Result<(), AllocError>
    ensures appended { OnOk result
        (content.new.items ≡ content.old.items ++ record_of number bytes.now) }
    ensures before { take (length content.old.items) content.new.items ≡ content.old.items }
{
    content.extend_from_slice(&number.to_le_bytes())?;
    content.extend_from_slice(&(bytes.len() as u64).to_le_bytes())?;
    content.extend_from_slice(bytes)
}

// Appends the number of a document in eight bytes, the lowest first, and then the record. After an error a beginning of them may be appended.
pub(crate) fn append_numbered(
    content: &mut Vec<u8>,
    document: u64,
    number: u64,
    bytes: &[u8],
) -> Result<(), AllocError>
    ensures appended { OnOk result
        (content.new.items ≡ content.old.items ++ numbered_record document number bytes.now) }
    ensures before { take (length content.old.items) content.new.items ≡ content.old.items }
{
    content.extend_from_slice(&document.to_le_bytes())?;
    append_record(content, number, bytes)
}
