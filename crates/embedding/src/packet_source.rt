//! A source whose bytes come in packets.

ghost use Rattle.std.specs.Prelude.{◌≡◌, ◌<◌, None};
ghost use Rattle.tantivy_schema.specs.Source.{AllBytes};

use std::io;
use tantivy_schema::common::ByteSource;

/// Reads the bytes of a slice, at most a packet at a time. No read fails.
#[derive(Drop)]
pub struct PacketSource<'a> {
    rest: &'a [u8],
    packet: usize,
    ghost are_bytes: { AllBytes rest.now },
    ghost some: { 0 < packet },
}

impl<'a> PacketSource<'a> {
    /// A source that has these bytes left, and gives at most this many of them at a time.
    pub fn new(bytes: &'a [u8], packet: usize) -> PacketSource<'a>
        requires { 0 < packet }
        ensures bytes { ⟦<PacketSource<'a> as ByteSource>⟧.left result ≡ bytes.now }
        ensures packet { result.packet ≡ packet }
    {
        PacketSource {
            rest: bytes,
            packet,
        }
    }

    /// The bytes that are left.
    pub fn rest(&self) -> &'a [u8]
        ensures { result.now ≡ ⟦<PacketSource<'a> as ByteSource>⟧.left self.now }
    {
        self.rest
    }
}

impl<'a> ByteSource for PacketSource<'a> {
    ghost is_known = { λ _. Unit {0} };

    ghost left = { λ s. s.rest.now };

    ghost failures = { λ _. record { number = 0; last = None } };

    fn read(&mut self, buf: &mut [u8]) -> Result<usize, io::ErrorKind> {
        let count = self.rest.len().min(buf.len()).min(self.packet);
        buf[..count].copy_from_slice(&self.rest[..count]);
        self.rest = &self.rest[count..];
        Ok(count)
    }

    ghost are_bytes = { λ s told. s.are_bytes };
}
