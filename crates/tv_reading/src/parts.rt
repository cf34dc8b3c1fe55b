//! Passing over texts and bytes, which are tested and not kept.

ghost use Rattle.std.specs.Prelude.{◌≡◌, ◌≤◌, ◌↔◌, length, Ok, IsTrue, IsUtf8};
ghost use Rattle.tv_base.specs.ErrorInPart.{ErrorInBytes, ErrorInSized, ErrorInText};
ghost use Rattle.tv_format.specs.InputError.{Corrupt, ErrorInCodedKey, ErrorInKey};
ghost use Rattle.tv_reader.specs.Finds.{FindsLean, FindsRoomy, Nothing};
ghost use Rattle.tv_reader.specs.Version.{version_of};
ghost use Rattle.tv_reading.specs.Skip.{Before, IsSizedEncoding, IsTextEncoding, IsTextOf, ErrorInTextOf, MayTest, PassesBytes, Tested, IsCodedText};
ghost use Rattle.tv_reading.specs.declared.items.ItemKind.TheVariants as kinds;

use tv_base::take::{take, take_pieces, take_vint};
use tv_base::{ByteSource, Cause};
use tv_reader::value_type::take_kind;
use tv_reader::{DeserializeError, DocStoreVersion, ValueType};

// Passes over this many bytes if they are buffered and can be counted, and says whether it did.
fn pass_buffered<S: ByteSource>(source: &mut S, count: &mut u64, len: u64) -> bool
    ensures finds { FindsRoomy S.ByteSource source.old count.old source.new
        count.new (Ok result) (PassesBytes len) Nothing }
{
    let lent = source.buffered();
    if (lent.len() as u64) < len || u64::MAX - *count < len {
        return false;
    }
    if !source.pass(len as usize) {
        return false;
    }
    *count += len;
    true
}

// Whether the bytes are UTF-8.
fn is_utf8(bytes: &[u8]) -> bool
    ensures { IsTrue result ↔ IsUtf8 bytes.now }
{
    str::from_utf8(bytes).is_ok()
}

// Passes over this many bytes if they are buffered and can be counted, and says whether they are UTF-8. They are tested where they lie.
fn test_buffered<S: ByteSource>(source: &mut S, count: &mut u64, len: u64) -> Option<bool>
    ensures finds { FindsRoomy S.ByteSource source.old count.old source.new
        count.new (Ok result) (MayTest len) Nothing }
{
    let lent = source.buffered();
    if (lent.len() as u64) < len || u64::MAX - *count < len {
        return None;
    }
    let is_text = is_utf8(&lent[..len as usize]);
    if !source.pass(len as usize) {
        return None;
    }
    *count += len;
    Some(is_text)
}

// Passes over this many bytes, and says whether they are UTF-8. Bytes that aren't buffered are put in place of those of `scratch`.
fn test_bytes<S: ByteSource>(
    source: &mut S,
    count: &mut u64,
    scratch: &mut Vec<u8>,
    len: u64,
) -> Result<bool, DeserializeError>
    ensures finds { FindsRoomy S.ByteSource source.old count.old source.new
        count.new result (Tested len) (Corrupt (ErrorInBytes len)) }
{
    if let Some(is_text) = test_buffered(source, count, len) {
        return Ok(is_text);
    }
    scratch.clear();
    take_pieces(source, count, scratch, len)?;
    Ok(is_utf8(scratch.as_slice()))
}

// Passes over a text of this many bytes.
fn skip_text_of<S: ByteSource>(
    source: &mut S,
    count: &mut u64,
    scratch: &mut Vec<u8>,
    len: u64,
) -> Result<(), DeserializeError>
    ensures finds { FindsRoomy S.ByteSource source.old count.old source.new
        count.new result (λ b _. IsTextOf len b) (ErrorInTextOf len) }
{
    if test_bytes(source, count, scratch, len)? {
        Ok(())
    } else {
        Err(DeserializeError::CorruptedValue(Cause::NotUtf8))
    }
}

// Passes over a text, after its length in bytes.
pub(crate) fn skip_text<S: ByteSource>(
    source: &mut S,
    count: &mut u64,
    scratch: &mut Vec<u8>,
) -> Result<(), DeserializeError>
    ensures finds { FindsRoomy S.ByteSource source.old count.old source.new
        count.new result (λ b _. IsTextEncoding b) (Corrupt ErrorInText) }
{
    let len = take_vint(source, count)?;
    skip_text_of(source, count, scratch, len)
}

// No more than this is read at once of bytes that aren't buffered.
const PIECE: u64 = 256;

// Passes over this many bytes at once.
fn skip_piece<S: ByteSource>(
    source: &mut S,
    count: &mut u64,
    len: u64,
) -> Result<(), DeserializeError>
    requires { len ≤ 256 }
    ensures finds { FindsRoomy S.ByteSource source.old count.old source.new
        count.new result (λ b _. length b ≡ len) (Corrupt (ErrorInBytes len)) }
{
    let mut piece = [0; PIECE as usize];
    take(source, count, &mut piece[..len as usize])?;
    Ok(())
}

// Passes over this many bytes, by reads.
fn skip_by_reads<S: ByteSource>(
    source: &mut S,
    count: &mut u64,
    len: u64,
) -> Result<(), DeserializeError>
    ensures finds { FindsRoomy S.ByteSource source.old count.old source.new
        count.new result (λ b _. length b ≡ len) (Corrupt (ErrorInBytes len)) }
{
    let mut missing = len;
    while missing > 0 {
        let most = missing.min(PIECE);
        skip_piece(source, count, most)?;
        missing -= most;
    }
    Ok(())
}

// Passes over this many bytes.
fn skip_bytes<S: ByteSource>(
    source: &mut S,
    count: &mut u64,
    len: u64,
) -> Result<(), DeserializeError>
    ensures finds { FindsRoomy S.ByteSource source.old count.old source.new
        count.new result (λ b _. length b ≡ len) (Corrupt (ErrorInBytes len)) }
{
    if pass_buffered(source, count, len) {
        return Ok(());
    }
    skip_by_reads(source, count, len)
}

// Passes over bytes, after their length.
pub(crate) fn skip_sized<S: ByteSource>(
    source: &mut S,
    count: &mut u64,
) -> Result<(), DeserializeError>
    ensures finds { FindsRoomy S.ByteSource source.old count.old source.new
        count.new result (λ b _. IsSizedEncoding b) (Corrupt ErrorInSized) }
{
    let len = take_vint(source, count)?;
    skip_bytes(source, count, len)
}

// Passes over a text, after its code.
fn skip_coded_text<S: ByteSource>(
    source: &mut S,
    count: &mut u64,
    scratch: &mut Vec<u8>,
) -> Result<(), DeserializeError>
    ensures finds { FindsRoomy S.ByteSource source.old count.old source.new
        count.new result (λ b _. IsCodedText b) ErrorInCodedKey }
{
    let kind = take_kind(source, count)?;
    match kind {
        ValueType::String => skip_text(source, count, scratch),
        actual => Err(DeserializeError::TypeMismatch {
            expected: ValueType::String,
            actual,
        }),
    }
}

// Passes over a key: a text, which in versions 1 and 2 stands after its code.
pub(crate) fn skip_key<S: ByteSource>(
    source: &mut S,
    count: &mut u64,
    scratch: &mut Vec<u8>,
    version: DocStoreVersion,
) -> Result<(), DeserializeError>
    ensures finds { FindsRoomy S.ByteSource source.old count.old source.new
        count.new result (λ b _. Before (version_of version) kinds.Entry b)
        (ErrorInKey (version_of version)) }
{
    match version {
        DocStoreVersion::V1 | DocStoreVersion::V2 => skip_coded_text(source, count, scratch),
        DocStoreVersion::V3 => skip_text(source, count, scratch),
    }
}
