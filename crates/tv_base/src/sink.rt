//! Where bytes go, and a sink that keeps them in memory.

ghost use Rattle.std.specs.Prelude.{◌≡◌, ℕ, List, ◌≤◌, length, IfOk, ◌+◌, ◌-◌, ◌^◌, [], ◌++◌, min, IfErr, OnOk, OnErr, None};
ghost use Rattle.tv_base.specs.Source.{Failures, CountsFailure};
ghost use Rattle.tv_base.specs.Sink.{AppendsSome};
ghost use Rattle.std.specs.Option.{ForSome};
ghost use Rattle.std.specs.declared.io.ErrorKind.TheVariants.{OutOfMemory};

use crate::byte_buffer::ByteBuffer;
use std::alloc::Global;
use std::io;

/// A place to which bytes are written, one after the other.
pub trait ByteSink {
    /// That the bytes which the sink holds are known.
    ghost is_known: { Self → Type 0 };

    /// Where they are known, the bytes that the sink holds.
    ghost held: { Self → List ℕ };

    /// How many writes have failed, and of what kind the last failure was. At 2 ^ 64 - 1 the count stays.
    ghost failures: { Self → Failures };

    /// Appends some of the first bytes of `buf`, and gives their number: at least one if there is one. An `Err` is counted
    /// as a failure of its kind and appends none.
    fn write(&mut self, buf: &[u8]) -> Result<usize, io::ErrorKind>
        ensures bytes { is_known self.old
            → AppendsSome (held self.old) (held self.new) result buf.now }
        ensures is_known { is_known self.old → is_known self.new }
        ensures count { IfOk result (λ n. n ≤ length buf.now) }
        ensures some { IfOk result (λ n. n ≡ 0 → length buf.now ≡ 0) }
        ensures failures { CountsFailure result (failures self.old) (failures self.new) };
}

/// Keeps the bytes that are written, in memory. A refused growth is a failure of kind `OutOfMemory`.
#[derive(Drop)]
pub struct VecSink {
    bytes: ByteBuffer,
    failures: u64,
    last: Option<io::ErrorKind>,
    pub ghost memory: { ForSome last (λ kind. kind ≡ OutOfMemory) },
}

impl VecSink {
    /// A sink that holds no byte. It takes no memory yet.
    pub fn new(alloc: Global) -> VecSink
        ensures bytes { ⟦<VecSink as ByteSink>⟧.held result ≡ [] }
        ensures failures { ⟦<VecSink as ByteSink>⟧.failures result
            ≡ record { number = 0; last = None } }
    {
        VecSink {
            bytes: ByteBuffer::new(alloc),
            failures: 0,
            last: None,
        }
    }

    /// The bytes that the sink holds.
    pub fn as_slice(&self) -> &[u8]
        ensures { result.now ≡ ⟦<VecSink as ByteSink>⟧.held self.now }
    {
        self.bytes.as_slice()
    }

    /// Forgets the bytes that the sink holds, and keeps their memory for those to come. The failures that were counted stay.
    pub fn clear(&mut self)
        ensures bytes { ⟦<VecSink as ByteSink>⟧.held self.new ≡ [] }
        ensures failures { ⟦<VecSink as ByteSink>⟧.failures self.new
            ≡ ⟦<VecSink as ByteSink>⟧.failures self.old }
    {
        self.bytes.clear();
    }

    /// The bytes that the sink holds, taken out of it.
    pub fn into_vec(self) -> Vec<u8>
        ensures { result.items ≡ ⟦<VecSink as ByteSink>⟧.held self }
    {
        let VecSink {
            bytes,
            failures: _,
            last: _,
        } = self;
        bytes.into_vec()
    }
}

impl ByteSink for VecSink {
    ghost is_known = { λ _. Unit {0} };

    ghost held = { λ s. s.bytes.items };

    ghost failures = { λ s. record { number = s.failures; last = s.last } };

    /// Appends all of `buf`. Errors: `OutOfMemory` where memory is refused, and then none of it is appended.
    fn write(&mut self, buf: &[u8]) -> Result<usize, io::ErrorKind>
        ensures bytes { AppendsSome (⟦<VecSink as ByteSink>⟧.held self.old)
            (⟦<VecSink as ByteSink>⟧.held self.new) result buf.now }
        ensures all { IfOk result (λ n. n ≡ length buf.now) }
        ensures failures { CountsFailure result (⟦<VecSink as ByteSink>⟧.failures self.old)
            (⟦<VecSink as ByteSink>⟧.failures self.new) }
        ensures kind { IfErr result (λ kind. kind ≡ OutOfMemory) }
        ensures counted { OnErr result
            (self.new.failures ≡ min (self.old.failures + 1) (2 ^ 64 - 1)) }
    {
        match self.bytes.extend_from_slice(buf) {
            Ok(()) => Ok(buf.len()),
            Err(_) => {
                self.failures = self.failures.saturating_add(1);
                self.last = Some(io::ErrorKind::OutOfMemory);
                Err(io::ErrorKind::OutOfMemory)
            }
        }
    }
}
