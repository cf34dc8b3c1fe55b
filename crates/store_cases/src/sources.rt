//! A source that buffers few bytes.

ghost use Rattle.std.specs.Prelude.{None};
ghost use Rattle.tv_base.specs.Source.{AllBytes};

use std::io;
use tantivy_schema::common::ByteSource;

/// Lends at most `window` of its bytes at once, which pass only where it `passes`. No read fails.
#[derive(Drop)]
pub struct LimitedSource<'a> {
    pub rest: &'a [u8],
    pub window: usize,
    pub passes: bool,
    ghost are_bytes: { AllBytes rest.now },
}

impl<'a> LimitedSource<'a> {
    /// Lends at most this many of the bytes at once.
    pub fn lending(bytes: &'a [u8], window: usize) -> LimitedSource<'a> {
        LimitedSource {
            rest: bytes,
            window,
            passes: true,
        }
    }

    /// Lends all bytes and lets none pass.
    pub fn keeping(bytes: &'a [u8]) -> LimitedSource<'a> {
        LimitedSource {
            rest: bytes,
            window: usize::MAX,
            passes: false,
        }
    }
}

impl<'a> ByteSource for LimitedSource<'a> {
    ghost is_known = { λ _. Unit {0} };

    ghost left = { λ s. s.rest.now };

    ghost failures = { λ _. record { number = 0; last = None } };

    fn read(&mut self, buf: &mut [u8]) -> Result<usize, io::ErrorKind> {
        let count = self.rest.len().min(buf.len());
        buf[..count].copy_from_slice(&self.rest[..count]);
        self.rest = &self.rest[count..];
        Ok(count)
    }

    fn buffered(&self) -> &[u8] {
        &self.rest[..self.rest.len().min(self.window)]
    }

    fn pass(&mut self, len: usize) -> bool {
        if !self.passes || len > self.rest.len().min(self.window) {
            return false;
        }
        self.rest = &self.rest[len..];
        true
    }

    ghost are_bytes = { λ s told. s.are_bytes };
}
