//! Where bytes come from.

ghost use Rattle.std.specs.Prelude.{◌≡◌, ℕ, List, ◌≤◌, ◌+◌, length, IfOk};
ghost use Rattle.tv_base.specs.Append.{AppendsNext, append_stop};
ghost use Rattle.tv_base.specs.Lend.{Passes};
ghost use Rattle.tv_base.specs.Sink.{IsPrefix};
ghost use Rattle.tv_base.specs.Stop.{Counts};
ghost use Rattle.tv_base.specs.Source.{AllBytes, GivesSome, GivesFirst, Failures, CountsFailure};

use crate::cause::ReadError;
use std::io;

/// A place from which bytes are read, one after the other.
pub trait ByteSource {
    /// That the bytes which the source has left are known, and that they end.
    ghost is_known: { Self → Type 0 };

    /// Where they are known, the bytes that reads will give from here on, however they are cut.
    ghost left: { Self → List ℕ };

    /// How many reads have failed, and of what kind the last failure was. At 2 ^ 64 - 1 the count stays.
    ghost failures: { Self → Failures };

    /// Puts the next bytes into the start of `buf`, and gives their number: at most the length of `buf`, and possibly fewer
    /// than are left. `Ok(0)` for a buffer that isn't empty is the end. An `Err` is counted as a failure of its kind and takes no byte,
    /// and what `buf` then holds is unspecified.
    fn read(&mut self, buf: &mut [u8]) -> Result<usize, io::ErrorKind>
        ensures bound { IfOk result (λ n. n ≤ length buf.new) }
        ensures bytes { is_known self.old
            → GivesSome (left self.old) (left self.new) result buf.new }
        ensures is_known { is_known self.old → is_known self.new }
        ensures failures { CountsFailure result (failures self.old) (failures self.new) };

    /// Gives the next byte, or `None` at the end. An `Err` is counted as a failure of its kind and takes no byte.
    fn next_byte(&mut self) -> Result<Option<u8>, io::ErrorKind>
        ensures bytes { is_known self.old → GivesFirst (left self.old) (left self.new) result }
        ensures is_known { is_known self.old → is_known self.new }
        ensures failures { CountsFailure result (failures self.old) (failures self.new) }
    {
        let mut byte = [0; 1];
        match self.read(&mut byte) {
            Ok(0) => Ok(None),
            Ok(_) => Ok(Some(byte[0])),
            Err(kind) => Err(kind),
        }
    }

    /// Puts the next bytes after those of `bytes`, and gives their number: at most `most`, and possibly fewer than are left.
    /// `Ok(0)` where `most` isn't 0 is the end.
    ///
    /// Errors: `Io` where a read failed, and `Memory`. No byte was taken then, and what `bytes` holds is unspecified.
    fn append(&mut self, bytes: &mut Vec<u8>, most: usize) -> Result<usize, ReadError>
        requires { most ≤ 4096 }
        ensures bound { IfOk result (λ n. n ≤ most) }
        ensures longer { IfOk result (λ n. length bytes.new.items ≡ length bytes.old.items + n) }
        ensures bytes { is_known self.old
            → AppendsNext (left self.old) (left self.new) bytes.old.items bytes.new.items most
            result }
        ensures is_known { is_known self.old → is_known self.new }
        ensures failures { Counts append_stop result (failures self.old) (failures self.new) }
    {
        let filled = bytes.len();
        bytes.resize(filled + most, 0)?;
        match self.read(&mut bytes[filled..]) {
            Ok(count) => {
                bytes.truncate(filled + count);
                Ok(count)
            }
            Err(kind) => Err(ReadError::Io(kind)),
        }
    }

    /// The next bytes that are buffered, borrowed without a read: a prefix of those that are left, and possibly none of them. An empty slice doesn't say
    /// that the source is at its end. (Not in tantivy.)
    fn buffered(&self) -> &[u8]
        ensures { is_known self.now → IsPrefix result.now (left self.now) }
    {
        &[]
    }

    /// Takes this many of the buffered bytes without a read, and says whether it did. If it didn't, nothing has changed. (Not in tantivy.)
    fn pass(&mut self, len: usize) -> bool
        ensures bytes { is_known self.old → Passes (left self.old) (left self.new) len result }
        ensures is_known { is_known self.old → is_known self.new }
        ensures failures { failures self.new ≡ failures self.old }
    {
        let _len = len;
        false
    }

    /// Each number that is left is a byte.
    ghost are_bytes: { (source : Self) → is_known source → AllBytes (left source) };
}
