//! A sink with a limit.

ghost use Rattle.std.specs.Prelude.{◌≡◌, ◌≤◌, ◌-◌, ◌⊎◌, [], length, min, IfErr, IfOk, None};
ghost use Rattle.std.specs.declared.io.ErrorKind.TheVariants.{OutOfMemory, StorageFull};
ghost use Rattle.tantivy_schema.specs.Sink.{AppendsSome};
ghost use Rattle.tantivy_schema.specs.Source.{CountsFailure};

use std::alloc::Global;
use std::io;
use tantivy_schema::common::ByteSink;

/// Keeps bytes in memory, up to a limit. A write past it is a failure of kind `StorageFull`, a refused growth one of kind
/// `OutOfMemory`.
#[derive(Drop)]
pub struct BoundedSink {
    bytes: Vec<u8>,
    most: usize,
    failures: u64,
    last: Option<io::ErrorKind>,
    ghost within: { length bytes.items ≤ most },
}

impl BoundedSink {
    /// A sink that holds no byte, and will hold at most this many. It takes no memory yet.
    pub fn new(alloc: Global, most: usize) -> BoundedSink
        ensures bytes { ⟦<BoundedSink as ByteSink>⟧.held result ≡ [] }
        ensures failures { ⟦<BoundedSink as ByteSink>⟧.failures result
            ≡ record { number = 0; last = None } }
        ensures limit { result.most ≡ most }
    {
        BoundedSink {
            bytes: Vec::new(alloc),
            most,
            failures: 0,
            last: None,
        }
    }

    /// The bytes that the sink holds.
    pub fn as_slice(&self) -> &[u8]
        ensures { result.now ≡ ⟦<BoundedSink as ByteSink>⟧.held self.now }
    {
        self.bytes.as_slice()
    }
}

impl ByteSink for BoundedSink {
    ghost is_known = { λ _. Unit {0} };

    ghost held = { λ s. s.bytes.items };

    ghost failures = { λ s. record { number = s.failures; last = s.last } };

    /// Appends as much of `buf` as has room. Errors: `StorageFull` where the sink is full, `OutOfMemory` where memory is
    /// refused.
    fn write(&mut self, buf: &[u8]) -> Result<usize, io::ErrorKind>
        ensures bytes { AppendsSome self.old.bytes.items self.new.bytes.items result buf.now }
        ensures room { IfOk result
            (λ n. n ≡ min (length buf.now) (self.old.most - length self.old.bytes.items)) }
        ensures some { IfOk result (λ n. n ≡ 0 → length buf.now ≡ 0) }
        ensures kind { IfErr result
            (λ kind. (kind ≡ OutOfMemory)
            ⊎ ((kind ≡ StorageFull) × (length self.old.bytes.items ≡ self.old.most))) }
        ensures failures { CountsFailure result (⟦<BoundedSink as ByteSink>⟧.failures self.old)
            (⟦<BoundedSink as ByteSink>⟧.failures self.new) }
        ensures limit { self.new.most ≡ self.old.most }
    {
        let count = buf.len().min(self.most - self.bytes.len());
        let kind = if count < 1 && !buf.is_empty() {
            io::ErrorKind::StorageFull
        } else if self.bytes.extend_from_slice(&buf[..count]).is_err() {
            io::ErrorKind::OutOfMemory
        } else {
            return Ok(count);
        };
        self.failures = self.failures.saturating_add(1);
        self.last = Some(kind);
        Err(kind)
    }
}
