//! Why the work on lines and blocks ends early.

ghost use Rattle.std.specs.Prelude.{◌≡◌, ◌++◌, OnErr, OnOk, IfErr};
ghost use Rattle.tv_base.specs.Sink.{AppendsPrefix};
ghost use Rattle.tv_lines.specs.Halts.{IsOfWriting, sink_stop};
ghost use Rattle.tv_lines.specs.Streams.{ReportsWrites};
ghost use Rattle.tv_lines.specs.declared.errors.Halt.TheVariants.{Memory};

use std::alloc::AllocError;
use std::io;
use thiserror::Error;
use tv_base::ByteSink;
use tv_base::write::write_all;
use tv_store::RefusedDocument;

/// Why work on the lines of a source breaks off.
#[derive(Clone, Copy, Debug, PartialEq, Eq, Drop, Error)]
pub enum Halt {
    /// A read failed, with this kind.
    #[error("reading failed: {0}")]
    Read(io::ErrorKind),
    /// A write failed, with this kind.
    #[error("writing failed: {0}")]
    Write(io::ErrorKind),
    /// Memory was refused: for the pieces that are read, for a line, its document or its answer.
    #[error("memory was refused")]
    Memory,
    /// 2^64 - 1 bytes of the source were read, and no more are counted.
    #[error("there are more bytes than are counted")]
    TooLong,
}

impl From<AllocError> for Halt {
    ghost from_gives = { λ _ halt. halt ≡ Memory };

    fn from(_error: AllocError) -> Halt {
        Halt::Memory
    }
}

// Appends bytes to a sink. Errors: `Write` where a write failed, with its kind. The sink then holds what it held before, and a beginning of the bytes.
pub(crate) fn append<K: ByteSink>(sink: &mut K, bytes: &[u8]) -> Result<(), Halt>
    ensures ok { K.is_known sink.old → OnOk result (K.held sink.new ≡ K.held sink.old ++ bytes.now) }
    ensures err { K.is_known sink.old
        → OnErr result (AppendsPrefix (K.held sink.old) (K.held sink.new) bytes.now) }
    ensures writes { IfErr result IsOfWriting }
    ensures sink { ReportsWrites K.ByteSink sink_stop sink.old sink.new result }
{
    match write_all(sink, bytes) {
        Ok(()) => Ok(()),
        Err(failed) => Err(Halt::Write(failed.0)),
    }
}

/// Why an export, a search or a migration breaks off. (Not in tantivy.)
#[derive(Debug, Drop, Error)]
pub enum WorkError {
    /// The next document can't be read, or passes a limit.
    #[error("{0}")]
    Read(RefusedDocument),
    /// A write failed, with this kind.
    #[error("writing failed: {0}")]
    Write(io::ErrorKind),
    /// Memory was refused.
    #[error("memory was refused")]
    Memory,
    /// 2^64 - 1 documents were gone over, and no more are counted.
    #[error("there are more documents than are counted")]
    TooMany,
}

impl From<AllocError> for WorkError {
    ghost use Rattle.tv_lines.specs.declared.errors.WorkError.TheVariants.{Memory};

    ghost from_gives = { λ _ error. error ≡ Memory };

    fn from(_error: AllocError) -> WorkError {
        WorkError::Memory
    }
}
