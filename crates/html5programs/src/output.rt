//! What a program prints to.
ghost use Rattle.std.specs.Prelude.{◌≡◌, false};

use devices::{Target, WriteTarget};
use std::io;
use std::io::{ErrorKind, Write};
use std::marker::Model;

/// A writer as a target, which knows why a write failed, and whether its reader has gone away.
#[derive(Drop)]
pub struct Output<W> {
    target: WriteTarget<W>,
    is_closed: bool,
    fault: Option<io::Error>,
}

impl<W> Model for Output<W> {
    ghost use Rattle.html5programs.specs.Messages.{Piped};

    ghost Value = { Piped W };

    ghost view = { λ o. record { inner = o.target.inner; is_closed = o.is_closed; failures = o.target.failures } };
}

impl<W> Output<W> {
    pub fn new(inner: W) -> Output<W>
        ensures inner { result.inner ≡ inner }
        ensures closed { result.is_closed ≡ false }
        ensures failures { result.failures ≡ 0 }
    {
        Output {
            target: WriteTarget::new(inner),
            is_closed: false,
            fault: None,
        }
    }

    /// Whether a write failed since nobody reads any more.
    pub fn is_closed(&self) -> bool
        ensures { result ≡ self.now.is_closed }
    {
        self.is_closed
    }

    /// Why the last write that failed did.
    pub fn fault(&self) -> Option<io::Error> {
        self.fault
    }
}

impl<W: Write> Target for Output<W> {
    ghost contents = { λ t. W.contents t.inner };

    ghost failures = { λ t. t.failures };

    fn write(&mut self, buf: &[u8]) -> io::Result<usize> {
        match self.target.write(buf) {
            Ok(n) => Ok(n),
            Err(e) => {
                self.is_closed = e.kind() == ErrorKind::BrokenPipe;
                self.fault = Some(e);
                Err(e)
            }
        }
    }
}
