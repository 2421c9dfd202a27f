//! A source that gives its bytes in pieces.
ghost use Rattle.std.specs.Prelude.{◌≡◌, Some};

use devices::Source;
use ghost_counts::Count;
use std::io;
use std::io::Read;

/// A source that gives at most this many bytes a read, and at least one.
#[derive(Drop)]
pub struct PieceSource<'a> {
    bytes: &'a [u8],
    size: usize,
    failures: Count,
}

impl<'a> PieceSource<'a> {
    pub fn new(bytes: &'a [u8], size: usize) -> PieceSource<'a>
        ensures { result.failures.total ≡ 0 }
    {
        PieceSource {
            bytes,
            size,
            failures: Count::new(),
        }
    }
}

impl Source for PieceSource<'_> {
    ghost remaining = { λ s. Some s.bytes.now };

    ghost failures = { λ s. s.failures.total };

    fn read(&mut self, buf: &mut [u8]) -> io::Result<usize> {
        let room = buf.len().min(self.size.max(1));
        self.bytes.read(&mut buf[..room])
    }
}
