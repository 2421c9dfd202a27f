//! A source whose first bytes were read.
ghost use Rattle.std.specs.Prelude.{◌≡◌, ◌<◌, ◌≤◌, ◌++◌, [], length, min, take};

use crate::front::Front;
use devices::Source;
use std::alloc::{Allocator, Global};
use std::io;
use std::marker::Model;

/// A source whose first bytes were read: it gives these bytes, and then the rest.
#[derive(Drop)]
pub struct Fronted<S, A: Allocator = Global> {
    inner: S,
    front: Front<A>,
    // Whether the source was found at its end.
    is_ended: bool,
    // How many bytes of the front were given.
    given: usize,
}

impl<S, A: Allocator> Model for Fronted<S, A> {
    ghost use Rattle.std.specs.Prelude.{◌≤◌, drop, length};
    ghost use Rattle.html5sniffing.specs.Fronts.{Fronting};

    ghost Value = { Fronting S };

    ghost view = { λ s. record { inner = s.inner; waiting = drop s.given s.front.bytes; ended = s.is_ended } };

    ghost invariant = { λ s. s.given ≤ length s.front.bytes };
}

// Copies the front of bytes, as much as there is room for, and answers how many bytes that is.
fn copy_front(from: &[u8], into: &mut [u8]) -> usize
    ensures count { result ≡ min (length into.old) (length from.now) }
    ensures copied { take result into.new ≡ take result from.now }
    ensures room { length into.new ≡ length into.old }
{
    let count = into.len().min(from.len());
    into[..count].copy_from_slice(&from[..count]);
    count
}

impl<S, A: Allocator> Fronted<S, A> {
    /// The source, of which this front was read, and whether its end was found then.
    pub fn new(front: Front<A>, is_ended: bool, inner: S) -> Fronted<S, A>
        ensures inner { result.inner ≡ inner }
        ensures waiting { result.waiting ≡ front.bytes }
        ensures ended { result.ended ≡ is_ended }
    {
        Fronted {
            inner,
            front,
            is_ended,
            given: 0,
        }
    }

    // Takes bytes of the front, and answers how many: 0 only if none wait, or there is no room.
    fn take(&mut self, into: &mut [u8]) -> usize
        ensures bound { result ≤ length into.new }
        ensures taken { self.old.waiting ≡ take result into.new ++ self.new.waiting }
        ensures none { result ≡ 0 → 0 < length into.new → self.new.waiting ≡ [] }
        ensures inner { self.new.inner ≡ self.old.inner }
        ensures ended { self.new.ended ≡ self.old.ended }
    {
        let count = copy_front(&self.front.bytes()[self.given..], into);
        self.given += count;
        count
    }

    /// The source. Bytes that were read of it and not yet given are lost.
    pub fn into_inner(self) -> S
        ensures { result ≡ self.inner }
    {
        self.inner
    }
}

impl<S: Source, A: Allocator> Source for Fronted<S, A> {
    ghost use Rattle.html5sniffing.specs.Fronts.{still_given};

    ghost remaining = { λ s. still_given s (S.remaining s.inner) };

    ghost failures = { λ s. S.failures s.inner };

    fn read(&mut self, buf: &mut [u8]) -> io::Result<usize> {
        let count = self.take(buf);
        if count > 0 || buf.is_empty() || self.is_ended {
            return Ok(count);
        }
        self.inner.read(buf)
    }
}
