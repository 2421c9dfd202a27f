//! A target of which contracts know what it took.
ghost use Rattle.std.specs.Prelude.{◌≡◌, [], Some};

use crate::writing::Target;
use ghost_counts::Log;
use std::io;
use std::marker::Model;

/// A target of which contracts know what it took: the bytes that were written through this.
#[derive(Drop)]
pub struct Logged<W> {
    inner: W,
    log: Log,
}

impl<W> Model for Logged<W> {
    ghost use Rattle.devices.specs.Printing.{Taking};

    ghost Value = { Taking W };

    ghost view = { λ t. record { inner = t.inner; taken = t.log.bytes } };
}

impl<W> Logged<W> {
    /// A target that took nothing yet.
    pub fn new(inner: W) -> Logged<W>
        ensures inner { result.inner ≡ inner }
        ensures taken { result.taken ≡ [] }
    {
        Logged {
            inner,
            log: Log::new(),
        }
    }

    /// The target itself.
    pub fn inner(&self) -> &W
        ensures { result.now ≡ self.now.inner }
    {
        &self.inner
    }

    /// The target itself.
    pub fn into_inner(self) -> W
        ensures { result ≡ self.inner }
    {
        self.inner
    }
}

impl<W: Target> Target for Logged<W> {
    ghost contents = { λ t. Some t.taken };

    ghost failures = { λ t. W.failures t.inner };

    fn write(&mut self, buf: &[u8]) -> io::Result<usize> {
        match self.inner.write(buf) {
            Ok(n) => {
                self.log.add(&buf[..n]);
                Ok(n)
            }
            Err(e) => Err(e),
        }
    }
}
