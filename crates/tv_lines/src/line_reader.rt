//! Lines of a source.

ghost use Rattle.std.specs.Prelude.{◌≡◌, ◌<◌, ◌≤◌, ◌++◌, [], take, vec_len, IfOk, OnErr, OnOk};
ghost use Rattle.tv_base.specs.Source.{CountsFailure};
ghost use Rattle.tv_lines.specs.Lines.{CutsPiece};

use crate::errors::Halt;
use memchr::memchr;
use std::alloc::{AllocError, Global};
use std::io;
use tv_base::ByteSource;

// How many bytes a source that has nothing buffered is asked for at first; then it is asked for up to `LARGE_PIECE`.
const SMALL_PIECE: usize = 512;

const LARGE_PIECE: usize = 65536;

/// Reads the lines of a source one after the other. A line ends at a line feed, and the last may lack it. (Not in tantivy.)
///
/// What the source has buffered is taken where it stands; else up to 65536 bytes are read at once. They belong to the reader then: a source is read by one
/// reader alone, to its end.
#[derive(Drop)]
pub struct LineReader {
    /// Where bytes are read.
    piece: Vec<u8>,
    /// From here on the bytes of the piece belong to no line yet.
    from: usize,
    /// Where these end.
    to: usize,
    /// How many bytes were taken of the source.
    count: u64,
    ghost ordered: { from ≤ to },
    ghost within: { to ≤ vec_len piece },
}

// Reads into the start of the piece, at most `most` bytes.
fn read_prefix<S: ByteSource>(
    source: &mut S,
    piece: &mut Vec<u8>,
    most: usize,
) -> Result<usize, io::ErrorKind>
    requires { most ≤ vec_len piece.old }
    ensures bound { IfOk result (λ count. count ≤ most) }
    ensures len { vec_len piece.new ≡ vec_len piece.old }
    ensures bytes { S.is_known source.old
        → IfOk result
        (λ count. S.left source.old ≡ take count piece.new.items ++ S.left source.new) }
    ensures end { S.is_known source.old
        → IfOk result (λ count. count ≡ 0 → 0 < most → S.left source.old ≡ []) }
    ensures kept { S.is_known source.old → OnErr result (S.left source.new ≡ S.left source.old) }
    ensures is_known { S.is_known source.old → S.is_known source.new }
    ensures failures { CountsFailure result (S.failures source.old) (S.failures source.new) }
{
    match source.read(&mut piece[0..most]) {
        Ok(count) => Ok(count),
        Err(kind) => Err(kind),
    }
}

// Appends a piece to the line, up to its first line feed. Gives the place of that, if there is one. The only error is that memory was refused.
fn cut(piece: &[u8], line: &mut Vec<u8>) -> Result<Option<usize>, AllocError>
    ensures { IfOk result (CutsPiece piece.now line.old.items line.new.items) }
{
    match memchr(b'\n', piece) {
        Some(len) => {
            line.extend_from_slice(&piece[..len])?;
            Ok(Some(len))
        }
        None => {
            line.extend_from_slice(piece)?;
            Ok(None)
        }
    }
}

impl LineReader {
    ghost use Rattle.std.specs.Prelude.{◌-◌, ◌+◌, ◌^◌, true, false, None, IsErrOf, IsSome, length};
    ghost use Rattle.std.specs.declared.io.ErrorKind.{ErrorKind};
    ghost use Rattle.tv_base.specs.Stop.{Taken};
    ghost use Rattle.tv_lines.specs.Halts.{source_stop};
    ghost use Rattle.tv_lines.specs.Streams.{ReportsReads};
    ghost use Rattle.tv_lines.specs.declared.errors.Halt.TheVariants.{TooLong};
    ghost use Rattle.tv_lines.specs.Reader.{unread, most_left, MovesLine, ReadsSome, TakesLine};

    /// A reader that has taken nothing. It takes no memory.
    pub fn new(alloc: Global) -> LineReader
        ensures unread { unread result ≡ [] }
        ensures count { result.count ≡ 0 }
    {
        LineReader {
            piece: Vec::new(alloc),
            from: 0,
            to: 0,
            count: 0,
        }
    }

    // The bytes that were read and belong to no line yet.
    fn unread(&self) -> &[u8]
        ensures { result.now ≡ unread self.now }
    {
        &self.piece[self.from..self.to]
    }

    // Moves the bytes that were read to the line, up to the next line feed, which it passes. Tells whether there was one. The only error is that memory
    // was refused.
    fn take_unread(&mut self, line: &mut Vec<u8>) -> Result<bool, AllocError>
        ensures moves { IfOk result (MovesLine (unread self.old) (unread self.new) line.old.items
            line.new.items) }
        ensures none { IfOk result (λ ended. ended ≡ false → unread self.new ≡ []) }
        ensures count { self.new.count ≡ self.old.count }
    {
        match cut(self.unread(), line)? {
            Some(len) => {
                self.from += len + 1;
                Ok(true)
            }
            None => {
                self.from = self.to;
                Ok(false)
            }
        }
    }

    // Moves what the source has buffered to the line, up to the next line feed, which it passes. Tells whether there was one. The only error is that
    // memory was refused, and then nothing of the source was taken.
    fn take_buffered<S: ByteSource>(
        &mut self,
        source: &mut S,
        line: &mut Vec<u8>,
    ) -> Result<bool, AllocError>
        ensures moves { S.is_known source.old → IfOk result (MovesLine (S.left source.old)
            (S.left source.new) line.old.items line.new.items) }
        ensures unread { unread self.new ≡ unread self.old }
        ensures grows { self.old.count ≤ self.new.count }
        ensures most { IfOk result (λ ended. (2 ^ 64 - 1 - self.new.count) + length line.new.items
            ≤ (2 ^ 64 - 1 - self.old.count) + length line.old.items) }
        ensures fewer { IfOk result (λ ended. ended ≡ true
            → (2 ^ 64 - 1 - self.new.count) + length line.new.items
            < (2 ^ 64 - 1 - self.old.count) + length line.old.items) }
        ensures taken { S.is_known source.old
            → Taken (S.left source.old) (S.left source.new) self.old.count self.new.count }
        ensures is_known { S.is_known source.old → S.is_known source.new }
        ensures failures { S.failures source.new ≡ S.failures source.old }
    {
        let room = u64::MAX - self.count;
        let buffered = source.buffered();
        let most = buffered.len().min(room as usize);
        let before = line.len();
        let feed = cut(&buffered[..most], line)?;
        let taken = match feed {
            Some(len) => len + 1,
            None => most,
        };
        if !source.pass(taken) {
            line.truncate(before);
            return Ok(false);
        }
        self.count += taken as u64;
        Ok(feed.is_some())
    }

    // Moves bytes that need no read to the line, up to the next line feed, which it passes: those that were read, and then those that the source has
    // buffered. Tells whether there was one. The only error is that memory was refused.
    fn take_ready<S: ByteSource>(
        &mut self,
        source: &mut S,
        line: &mut Vec<u8>,
    ) -> Result<bool, AllocError>
        ensures moves { S.is_known source.old
            → IfOk result (MovesLine (unread self.old ++ S.left source.old)
            (unread self.new ++ S.left source.new) line.old.items line.new.items) }
        ensures none { IfOk result (λ ended. ended ≡ false → unread self.new ≡ []) }
        ensures grows { self.old.count ≤ self.new.count }
        ensures most { IfOk result (λ ended. most_left self.new + length line.new.items
            ≤ most_left self.old + length line.old.items) }
        ensures fewer { IfOk result (λ ended. ended ≡ true
            → most_left self.new + length line.new.items < most_left self.old + length line.old.items) }
        ensures taken { S.is_known source.old
            → Taken (S.left source.old) (S.left source.new) self.old.count self.new.count }
        ensures is_known { S.is_known source.old → S.is_known source.new }
        ensures failures { S.failures source.new ≡ S.failures source.old }
    {
        if self.take_unread(line)? {
            return Ok(true);
        }
        self.take_buffered(source, line)
    }

    // Makes room for the next piece: a small one at first, and a large one where the last piece was full. The only error is that memory was refused.
    fn make_room(&mut self) -> Result<(), AllocError>
        ensures room { OnOk result (0 < vec_len self.new.piece) }
        ensures start { OnOk result (self.new.from ≡ 0) }
        ensures count { self.new.count ≡ self.old.count }
    {
        self.from = 0;
        if self.piece.is_empty() {
            self.piece.resize(SMALL_PIECE, 0)?;
        } else if self.to == self.piece.len() {
            self.piece.resize(LARGE_PIECE, 0)?;
        }
        self.to = 0;
        Ok(())
    }

    // Reads the next piece of the source in place of the last, of which each byte belongs to a line. Tells whether there was one; none is the end.
    fn fill<S: ByteSource>(&mut self, source: &mut S) -> Result<bool, Halt>
        ensures fills { S.is_known source.old
            → IfOk result
            (λ more. ReadsSome (S.left source.old) (S.left source.new) (unread self.new) more) }
        ensures most { IfOk result (λ more. most_left self.new ≡ 2 ^ 64 - 1 - self.old.count) }
        ensures fewer { IfOk result
            (λ more. more ≡ true → 2 ^ 64 - 1 - self.new.count < 2 ^ 64 - 1 - self.old.count) }
        ensures taken { S.is_known source.old
            → Taken (S.left source.old) (S.left source.new) self.old.count self.new.count }
        ensures too_long { IsErrOf result TooLong → self.new.count ≡ 2 ^ 64 - 1 }
        ensures reads { (kind : ErrorKind) → ¬ IsErrOf result (Halt.Write kind) }
        ensures source { ReportsReads S.ByteSource source_stop source.old source.new result }
    {
        let room = u64::MAX - self.count;
        if room == 0 {
            return Err(Halt::TooLong);
        }
        self.make_room()?;
        let most = self.piece.len().min(room as usize);
        match read_prefix(source, &mut self.piece, most) {
            Ok(count) => {
                self.to = count;
                self.count += count as u64;
                Ok(count > 0)
            }
            Err(kind) => Err(Halt::Read(kind)),
        }
    }

    /// Takes the next line, without its line feed, in place of what `line` holds. Returns how many bytes it took, with its line feed, or `None` where
    /// nothing is left.
    ///
    /// Errors: `Read` where a read failed, and only there; `Memory`; `TooLong` after 2^64 - 1 bytes. A part of the line is lost then.
    pub fn take_line<S: ByteSource>(
        &mut self,
        source: &mut S,
        line: &mut Vec<u8>,
    ) -> Result<Option<u64>, Halt>
        ensures takes { S.is_known source.old
            → IfOk result (TakesLine (unread self.old ++ S.left source.old) line.new.items
            (unread self.new ++ S.left source.new)) }
        ensures fewer { IfOk result (λ count. IsSome count → most_left self.new < most_left self.old) }
        ensures taken { S.is_known source.old
            → Taken (S.left source.old) (S.left source.new) self.old.count self.new.count }
        ensures too_long { IsErrOf result TooLong → self.new.count ≡ 2 ^ 64 - 1 }
        ensures reads { (kind : ErrorKind) → ¬ IsErrOf result (Halt.Write kind) }
        ensures source { ReportsReads S.ByteSource source_stop source.old source.new result }
    {
        line.clear();
        'pieces: loop {
            if self.take_ready(source, line)? {
                return Ok(Some(line.len() as u64 + 1));
            }
            if !self.fill(source)? {
                return Ok(if line.is_empty() {
                    None
                } else {
                    Some(line.len() as u64)
                });
            }
        }
    }
}
