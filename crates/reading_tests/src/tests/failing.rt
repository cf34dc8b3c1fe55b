//! A source that fails, and what is left of a text then.

ghost use Rattle.std.specs.Prelude.{Some};
ghost use Rattle.std.specs.declared.io.ErrorKind.TheVariants.{TimedOut};
ghost use Rattle.tv_base.specs.Source.{AllBytes};

use std::io;
use tv_base::take::take_text;
use tv_base::{ByteSource, ReadError};

// Gives one byte at a time, and fails where three bytes are left.
#[derive(Drop)]
struct FailingSource<'a> {
    rest: &'a [u8],
    failures: u64,
    ghost are_bytes: { AllBytes rest.now },
}

impl<'a> ByteSource for FailingSource<'a> {
    ghost is_known = { λ _. Unit {0} };

    ghost left = { λ s. s.rest.now };

    ghost failures = { λ s. record { number = s.failures; last = Some TimedOut } };

    fn read(&mut self, buf: &mut [u8]) -> Result<usize, io::ErrorKind> {
        if self.rest.len() == 3 {
            self.failures = self.failures.saturating_add(1);
            return Err(io::ErrorKind::TimedOut);
        }
        let count = self.rest.len().min(buf.len()).min(1);
        buf[..count].copy_from_slice(&self.rest[..count]);
        self.rest = &self.rest[count..];
        Ok(count)
    }

    ghost are_bytes = { λ s told. s.are_bytes };
}

#[test]
fn a_text_that_cannot_be_read_leaves_none(rt: HostRuntime) {
    let mut source = FailingSource {
        rest: b"\x8aChillFish8",
        failures: 0,
    };
    let mut text = String::new(rt.alloc());
    let mut count = 0;
    let taken = take_text(rt.alloc(), &mut source, &mut count, &mut text);
    assert!(rt; taken == Err(ReadError::Io(io::ErrorKind::TimedOut)));
    assert!(rt; count == 8);
    assert!(rt; text.is_empty());
    assert!(rt; source.failures == 1);
}
