//! A source that fails from a chosen read on.
ghost use Rattle.std.specs.Prelude.{◌≡◌, Some};

use devices::Source;
use ghost_counts::Count;
use std::io;
use std::io::{ErrorKind, Read};

/// A source that gives a byte a read. The first `reads` calls go well, and each later one fails.
#[derive(Drop)]
pub struct FailingSource<'a> {
    bytes: &'a [u8],
    reads: usize,
    failures: Count,
}

impl<'a> FailingSource<'a> {
    pub fn new(bytes: &'a [u8], reads: usize) -> FailingSource<'a>
        ensures { result.failures.total ≡ 0 }
    {
        FailingSource {
            bytes,
            reads,
            failures: Count::new(),
        }
    }
}

impl Source for FailingSource<'_> {
    ghost remaining = { λ s. Some s.bytes.now };

    ghost failures = { λ s. s.failures.total };

    fn read(&mut self, buf: &mut [u8]) -> io::Result<usize> {
        if self.reads == 0 {
            self.failures.add(1);
            return Err(io::Error::from(ErrorKind::Other));
        }
        self.reads -= 1;
        let room = buf.len().min(1);
        self.bytes.read(&mut buf[..room])
    }
}
