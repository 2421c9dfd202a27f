//! A target after a buffer.
ghost use Rattle.std.specs.Prelude.{◌≡◌, ◌↔◌, ◌+◌, [], ◌++◌, false, true, Err, IfErr, IsErr, OnOk, OnErr, is_err};
ghost use Rattle.devices.specs.Device.{IsReadFault, reported_failures};

use crate::fault::Fault;
use crate::logged::Logged;
use crate::writing::{Target, write_all};
use ghost_counts::Log;
use std::alloc::{Allocator, Global};
use std::marker::Model;

/// How many bytes wait on a buffer before it is written.
const BUFFER: usize = 4096;

/// Prints to a target by buffers: what is printed is written once a buffer is full, and at the end.
#[derive(Drop)]
pub struct Printer<W, A: Allocator = Global> {
    target: Logged<W>,
    buffer: Vec<u8, A>,
    log: Log,
    failed: bool,
}

impl<W, A: Allocator> Model for Printer<W, A> {
    ghost use Rattle.std.specs.Prelude.{◌≡◌, ◌++◌, false};
    ghost use Rattle.devices.specs.Printing.{Printing};

    ghost Value = { Printing W };

    ghost view = { λ p. record { target = p.target; printed = p.log.bytes; failed = p.failed } };

    ghost invariant = { λ p. p.failed ≡ false → p.log.bytes ≡ p.target.taken ++ p.buffer.items };
}

impl<W: Target, A: Allocator> Printer<W, A> {
    /// A printer that has printed nothing.
    pub fn new(alloc: A, target: W) -> Printer<W, A>
        ensures printed { result.printed ≡ [] }
        ensures target { result.target.inner ≡ target }
        ensures failed { result.failed ≡ false }
    {
        Printer {
            target: Logged::new(target),
            buffer: Vec::new(alloc),
            log: Log::new(),
            failed: false,
        }
    }

    // Writes the buffer, and begins another.
    fn write_buffer(&mut self) -> Result<(), Fault>
        requires { self.old.failed ≡ false }
        ensures printed { self.new.printed ≡ self.old.printed }
        ensures written { OnOk result (self.new.target.taken ≡ self.old.printed) }
        ensures failures { W.failures self.new.target.inner ≡ W.failures self.old.target.inner + reported_failures
            result }
        ensures failed { self.new.failed ≡ is_err result }
        ensures fault { IfErr result (λ fault. fault ≡ Fault.Device) }
    {
        let written = write_all(&mut self.target, self.buffer.as_slice());
        self.buffer.clear();
        self.failed = written.is_err();
        written
    }

    /// Prints bytes. If there is no memory for it nothing was printed; where a full buffer can't be
    /// written the printer has failed, and prints nothing more.
    pub fn print(&mut self, bytes: &[u8]) -> Result<(), Fault>
        ensures ok { OnOk result (self.new.printed ≡ self.old.printed ++ bytes.now) }
        ensures err { OnErr result (self.new.printed ≡ self.old.printed) }
        ensures fault { IfErr result IsReadFault }
        ensures device { (result ≡ Err Fault.Device) ↔ (self.new.failed ≡ true) }
        ensures failed { self.old.failed ≡ true → self.new ≡ self.old }
        ensures failures { self.old.failed ≡ false
            → W.failures self.new.target.inner ≡ W.failures self.old.target.inner + reported_failures result }
    {
        if self.failed {
            return Err(Fault::Device);
        }
        if self.buffer.len() >= BUFFER {
            self.write_buffer()?;
        }
        self.buffer.extend_from_slice(bytes)?;
        self.log.add(bytes);
        Ok(())
    }

    /// Writes the waiting bytes, and gives the target back: it took what was printed.
    pub fn finish(mut self) -> (Logged<W>, Result<(), Fault>)
        ensures ok { OnOk result.1 (result.0.taken ≡ self.printed) }
        ensures fault { IfErr result.1 (λ fault. fault ≡ Fault.Device) }
        ensures failed { self.failed ≡ true → IsErr result.1 }
        ensures failures { self.failed ≡ false
            → W.failures result.0.inner ≡ W.failures self.target.inner + reported_failures result.1 }
    {
        if self.failed {
            return (self.target, Err(Fault::Device));
        }
        let written = self.write_buffer();
        (self.target, written)
    }
}
