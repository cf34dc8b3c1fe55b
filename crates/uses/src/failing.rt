//! Sources and sinks of which one call fails.

use std::alloc::Global;
use std::io;
use tantivy_schema::common::{
    BinarySerializable, FaultSink, FaultSource, ReadError, SliceSource, VecSink, WriteError,
};

pub fn read_failing(alloc: Global, bytes: &[u8], passes: u64) -> Result<u64, ReadError> {
    let source = SliceSource::new(bytes);
    let mut source = FaultSource::new(source, passes, io::ErrorKind::TimedOut);
    u64::deserialize(alloc, &mut source)
}

pub fn write_failing(alloc: Global, passes: u64) -> (Result<(), WriteError>, VecSink) {
    let mut sink = FaultSink::new(VecSink::new(alloc), passes, io::ErrorKind::StorageFull);
    let written = 20u64.serialize(&mut sink);
    (written, sink.into_inner())
}
