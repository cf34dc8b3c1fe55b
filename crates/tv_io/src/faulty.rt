//! Sources and sinks of which one call fails.

ghost use Rattle.std.specs.Prelude.{◌≡◌, Some, None, ◌<◌, ◌≤◌, [], length, drop, false, Err, IfOk};
ghost use Rattle.tv_io.specs.Calls.{failures_of, failures_after};
ghost use Rattle.tv_io.specs.Planned.{IsFailing, CountsCall};
ghost use Rattle.tv_base.specs.Sink.{IsPrefix, AppendsSome};
ghost use Rattle.tv_base.specs.Source.{GivesSome, CountsFailure};

use crate::failures::CountedFailures;
use std::io;
use tv_base::{ByteSink, ByteSource};

/// Which call is to fail, and of what kind its error is. Calls whose buffer is empty aren't counted. At 2^64 - 1 the count stays.
#[derive(Drop)]
pub(crate) struct PlannedFailure {
    // how many calls are counted before the one that fails; none once it has failed
    pub(crate) fails_at: Option<u64>,
    pub(crate) kind: io::ErrorKind,
    pub(crate) calls: u64,
}

impl PlannedFailure {
    // The call after this many fails. None is counted yet.
    pub(crate) fn new(passes: u64, kind: io::ErrorKind) -> PlannedFailure
        ensures { result ≡ record { fails_at = Some passes; kind = kind; calls = 0 } }
    {
        PlannedFailure {
            fails_at: Some(passes),
            kind,
            calls: 0,
        }
    }

    // Counts a call with a buffer of this length, and returns the kind of its error if it is the one that fails.
    pub(crate) fn count_call(&mut self, len: usize) -> Option<io::ErrorKind>
        ensures fails { IsFailing len self.old → result ≡ Some self.old.kind }
        ensures passes { ¬ IsFailing len self.old → result ≡ None }
        ensures calls { CountsCall len self.old self.new }
    {
        if len == 0 {
            return None;
        }
        let fails = self.fails_at == Some(self.calls);
        self.calls = self.calls.saturating_add(1);
        if !fails {
            return None;
        }
        self.fails_at = None;
        Some(self.kind)
    }
}

/// A source or a sink over another, of which one call fails: a `FaultSource` or a `FaultSink`. (Not in tantivy.)
#[derive(Drop)]
pub struct Faulty<T> {
    pub(crate) inner: T,
    pub(crate) plan: PlannedFailure,
    pub(crate) failures: CountedFailures,
}

/// Reads another source, at most one byte a call, and fails once: this many calls pass, the next one fails with an error of a chosen kind,
/// and all later ones pass. So a test sees what a reader does where any one of its reads fails. (Not in tantivy.)
///
/// A call whose buffer is empty passes, and isn't counted. No byte is shown as buffered, so that each byte takes a read.
///
/// ```
/// pub fn read_failing(alloc: Global, bytes: &[u8], passes: u64) -> Result<u64, ReadError> {
///     let source = SliceSource::new(bytes);
///     let mut source = FaultSource::new(source, passes, io::ErrorKind::TimedOut);
///     u64::deserialize(alloc, &mut source)
/// }
/// ```
pub type FaultSource<S> = Faulty<S>;

/// Writes to another sink, at most one byte a call, and fails once: this many calls pass, the next one fails with an error of a chosen kind,
/// and all later ones pass. So a test sees what a writer does where any one of its writes fails. (Not in tantivy.)
///
/// A call whose buffer is empty passes, and isn't counted.
///
/// ```
/// pub fn write_failing(alloc: Global, passes: u64) -> (Result<(), WriteError>, VecSink) {
///     let mut sink = FaultSink::new(VecSink::new(alloc), passes, io::ErrorKind::StorageFull);
///     let written = 20u64.serialize(&mut sink);
///     (written, sink.into_inner())
/// }
/// ```
pub type FaultSink<K> = Faulty<K>;

impl<T> Faulty<T> {
    /// A source or a sink over this one. `passes` calls pass, and the next one fails with an error of this kind. Nothing is read or
    /// written yet, and no failure is counted.
    pub fn new(inner: T, passes: u64, kind: io::ErrorKind) -> Faulty<T>
        ensures inner { result.inner ≡ inner }
        ensures plan { result.plan ≡ record { fails_at = Some passes; kind = kind; calls = 0 } }
        ensures failures { failures_of result.failures ≡ record { number = 0; last = None } }
    {
        Faulty {
            inner,
            plan: PlannedFailure::new(passes, kind),
            failures: CountedFailures::none(),
        }
    }

    /// How many calls were counted, the one that failed among them. At 2^64 - 1 the count stays.
    pub fn calls(&self) -> u64
        ensures { result ≡ self.now.plan.calls }
    {
        self.plan.calls
    }

    /// The inner source, which stands where the reads have left it, or the inner sink, which holds what was written.
    pub fn into_inner(self) -> T
        ensures { result ≡ self.inner }
    {
        let Faulty {
            inner,
            plan: _,
            failures: _,
        } = self;
        inner
    }
}

impl<S: ByteSource> ByteSource for FaultSource<S> {
    ghost is_known = { λ s. S.is_known s.inner };

    ghost left = { λ s. S.left s.inner };

    ghost failures = { λ s. failures_of s.failures };

    /// Reads the inner source once, for at most one byte, unless this is the call that fails.
    ///
    /// Errors: the chosen kind at the call that fails, and then the inner source isn't read and `buf` is as it was; else the kind with
    /// which the inner source failed. Each is counted as a failure.
    fn read(&mut self, buf: &mut [u8]) -> Result<usize, io::ErrorKind>
        // the trait's clauses
        ensures bound { IfOk result (λ n. n ≤ length buf.new) }
        ensures bytes { S.is_known self.old.inner
            → GivesSome (S.left self.old.inner) (S.left self.new.inner) result buf.new }
        ensures is_known { S.is_known self.old.inner → S.is_known self.new.inner }
        ensures failures { CountsFailure result
            (⟦<FaultSource<S> as ByteSource>⟧.failures self.old)
            (⟦<FaultSource<S> as ByteSource>⟧.failures self.new) }

        // the call that fails
        ensures fails { IsFailing (length buf.old) self.old.plan
            → result ≡ Err self.old.plan.kind }
        ensures unread { IsFailing (length buf.old) self.old.plan
            → self.new.inner ≡ self.old.inner }
        ensures unchanged { IsFailing (length buf.old) self.old.plan → buf.new ≡ buf.old }

        // any other call is one of the inner source, for one byte at most
        ensures passes { ¬ IsFailing (length buf.old) self.old.plan
            → CountsFailure result (S.failures self.old.inner) (S.failures self.new.inner) }
        ensures one { IfOk result (λ n. n ≤ 1) }
        ensures behind { drop 1 buf.new ≡ drop 1 buf.old }

        // which calls and which failures are counted
        ensures calls { CountsCall (length buf.old) self.old.plan self.new.plan }
        ensures counted { failures_of self.new.failures
            ≡ failures_after result (failures_of self.old.failures) }
    {
        let call = match self.plan.count_call(buf.len()) {
            Some(kind) => Err(kind),
            None => {
                let most = buf.len().min(1);
                self.inner.read(&mut buf[..most])
            }
        };
        self.failures.count(call)
    }

    /// No byte.
    fn buffered(&self) -> &[u8]
        ensures none { result.now ≡ [] }
        ensures prefix { S.is_known self.now.inner → IsPrefix result.now (S.left self.now.inner) }
    {
        &[]
    }

    /// Takes no byte, and returns `false`.
    fn pass(&mut self, len: usize) -> bool
        ensures none { result ≡ false }
        ensures unchanged { self.new ≡ self.old }
    {
        let _len = len;
        false
    }

    ghost are_bytes = { λ s told. S.are_bytes s.inner told };
}

impl<K: ByteSink> ByteSink for FaultSink<K> {
    ghost is_known = { λ s. K.is_known s.inner };

    ghost held = { λ s. K.held s.inner };

    ghost failures = { λ s. failures_of s.failures };

    /// Writes to the inner sink once, at most one byte, unless this is the call that fails.
    ///
    /// Errors: the chosen kind at the call that fails, and then nothing is written to the inner sink; else the kind with which that failed.
    /// Each is counted as a failure.
    fn write(&mut self, buf: &[u8]) -> Result<usize, io::ErrorKind>
        // the trait's clauses
        ensures bytes { K.is_known self.old.inner
            → AppendsSome (K.held self.old.inner) (K.held self.new.inner) result buf.now }
        ensures is_known { K.is_known self.old.inner → K.is_known self.new.inner }
        ensures count { IfOk result (λ n. n ≤ length buf.now) }
        ensures some { IfOk result (λ n. n ≡ 0 → length buf.now ≡ 0) }
        ensures failures { CountsFailure result (⟦<FaultSink<K> as ByteSink>⟧.failures self.old)
            (⟦<FaultSink<K> as ByteSink>⟧.failures self.new) }

        // the call that fails
        ensures fails { IsFailing (length buf.now) self.old.plan
            → result ≡ Err self.old.plan.kind }
        ensures unwritten { IsFailing (length buf.now) self.old.plan
            → self.new.inner ≡ self.old.inner }

        // any other call is one of the inner sink, with one byte at most
        ensures passes { ¬ IsFailing (length buf.now) self.old.plan
            → CountsFailure result (K.failures self.old.inner) (K.failures self.new.inner) }
        ensures one { IfOk result (λ n. n ≤ 1) }

        // which calls and which failures are counted
        ensures calls { CountsCall (length buf.now) self.old.plan self.new.plan }
        ensures counted { failures_of self.new.failures
            ≡ failures_after result (failures_of self.old.failures) }
    {
        let call = match self.plan.count_call(buf.len()) {
            Some(kind) => Err(kind),
            None => self.inner.write(&buf[..buf.len().min(1)]),
        };
        self.failures.count(call)
    }
}
