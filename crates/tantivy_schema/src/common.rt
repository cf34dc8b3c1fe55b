//! Bytes: where they come from and go to, and the numbers and texts that they encode. Paths into JSON objects.

pub use tv_base::{
    BinarySerializable, ByteBuffer, ByteSink, ByteSource, Cause, ReadError, SliceSource, VInt,
    VecSink, WriteError, join_json_path, joined_json_path, push_joined_json_path, split_json_path,
};
pub use tv_io::{BufferedSource, FaultSink, FaultSource, LimitedSource, ReadSource, WriteSink};
