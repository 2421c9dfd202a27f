//! Bytes that wait to be taken.
ghost use Rattle.std.specs.Prelude.{◌≡◌, ◌≤◌, ◌++◌, length, take, drop, min, OnOk, OnErr};
ghost use Rattle.outbox.specs.Outgoing.{adding, none_outgoing, taking, waiting};

use crate::front::{rest_of, skip_front};
use ghost_counts::Log;
use std::alloc::{AllocError, Allocator, Global};
use std::marker::Model;

/// Bytes that were put in, and wait until they are taken. Contracts see all that were ever put in, and how many of them
/// were taken.
#[derive(Drop)]
pub struct Outbox<A: Allocator = Global> {
    written: Vec<u8, A>,
    // How many bytes of `written` were taken.
    skipped: usize,
    taken: Log,
}

impl<A: Allocator> Model for Outbox<A> {
    ghost use Rattle.std.specs.Prelude.{◌≤◌, ◌++◌, length, drop};
    ghost use Rattle.outbox.specs.Outgoing.{Outgoing};

    ghost Value = { Outgoing };

    ghost view = { λ o. record {
      bytes = o.taken.bytes ++ drop o.skipped o.written.items;
      taken = length o.taken.bytes;
    } };

    ghost invariant = { λ o. o.skipped ≤ length o.written.items };
}

impl<A: Allocator> Outbox<A> {
    /// Nothing waits.
    pub fn new(alloc: A) -> Outbox<A>
        ensures { result ≡ none_outgoing }
    {
        Outbox {
            written: Vec::new(alloc),
            skipped: 0,
            taken: Log::new(),
        }
    }

    /// Puts bytes after those that wait, or none of them.
    pub fn push(&mut self, bytes: &[u8]) -> Result<(), AllocError>
        ensures ok { OnOk result (self.new ≡ adding self.old bytes.now) }
        ensures err { OnErr result (self.new ≡ self.old) }
    {
        self.written.extend_from_slice(bytes)
    }

    /// The bytes that wait. They go on waiting.
    pub fn waiting(&self) -> &[u8]
        ensures waiting { result.now ≡ waiting self.now }
        ensures within { self.now.taken ≤ length self.now.bytes }
    {
        rest_of(&self.written, self.skipped)
    }

    /// Takes this many bytes of those that wait.
    pub fn skip(&mut self, count: usize)
        requires { count ≤ length (waiting self.old) }
        ensures { self.new ≡ taking self.old count }
    {
        let front = rest_of(&self.written, self.skipped);
        self.taken.add(&front[..count]);
        skip_front(&mut self.written, &mut self.skipped, count);
    }

    /// Takes as many bytes as wait and as there is room for, and copies them. It answers how many.
    pub fn take(&mut self, into: &mut [u8]) -> usize
        ensures count { result ≡ min (length into.old) (length (waiting self.old)) }
        ensures copied { into.new ≡ take result (waiting self.old) ++ drop result into.old }
        ensures taken { self.new ≡ taking self.old result }
    {
        let waiting = self.waiting();
        let count = into.len().min(waiting.len());
        into[..count].copy_from_slice(&waiting[..count]);
        self.skip(count);
        count
    }
}
