//! What a rewritten page is written to.
ghost use Rattle.std.specs.Prelude.{◌≡◌, ◌++◌, OnErr, OnOk};

use devices::{Printer, Target};
use html5ever_interface::interface::token::SinkFault;
use std::alloc::{AllocError, Allocator};

/// What a rewritten page is written to: a `Printer`, or a text.
pub trait Output {
    ghost use Rattle.std.specs.Prelude.{◌≡◌, ◌++◌, ℕ, List, OnErr, OnOk};

    // What was written.
    ghost bytes: { Self → List ℕ };

    /// Writes a text after the others, all of it or nothing.
    fn put(&mut self, text: &str) -> Result<(), SinkFault>
        ensures ok { OnOk result (bytes self.new ≡ bytes self.old ++ text.now) }
        ensures err { OnErr result (bytes self.new ≡ bytes self.old) };
}

impl<W: Target, A: Allocator> Output for Printer<W, A> {
    ghost bytes = { λ p. p.printed };

    fn put(&mut self, text: &str) -> Result<(), SinkFault> {
        match self.print(text.as_bytes()) {
            Ok(()) => Ok(()),
            Err(_) => Err(SinkFault),
        }
    }
}

impl<A: Allocator> Output for String<A> {
    ghost use Rattle.std.specs.Prelude.{string_bytes};

    ghost bytes = { string_bytes };

    fn put(&mut self, text: &str) -> Result<(), SinkFault> {
        match self.push_str(text) {
            Ok(()) => Ok(()),
            Err(AllocError) => Err(SinkFault),
        }
    }
}
