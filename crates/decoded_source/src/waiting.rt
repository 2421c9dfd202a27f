//! Text that waits to be read.
ghost use Rattle.std.specs.Prelude.{◌≡◌, ◌<◌, ◌≤◌, ◌++◌, [], length, min, string_bytes, take};

use std::alloc::Allocator;
use std::marker::Model;

/// Bytes of text, of which some were given: those of a decoded piece, and after them the text at the end.
#[derive(Drop)]
pub struct Waiting<A: Allocator> {
    text: String<A>,
    // How many bytes of `text` were given.
    given: usize,
    last: &'static [u8],
}

impl<A: Allocator> Model for Waiting<A> {
    ghost use Rattle.std.specs.Prelude.{ℕ, List, ◌≤◌, ◌++◌, drop, length, string_bytes};

    ghost Value = { List ℕ };

    ghost view = { λ w. drop w.given (string_bytes w.text) ++ w.last.now };

    ghost invariant = { λ w. w.given ≤ length (string_bytes w.text) };
}

// Copies the front of bytes, as much as there is room for, and answers how many bytes that is.
fn copy_front(from: &[u8], into: &mut [u8]) -> usize
    ensures count { result ≡ min (length into.old) (length from.now) }
    ensures copied { take result into.new ≡ take result from.now }
    ensures room { length into.new ≡ length into.old }
{
    let count = into.len().min(from.len());
    into[..count].copy_from_slice(&from[..count]);
    count
}

impl<A: Allocator> Waiting<A> {
    /// No text, and then this one.
    pub fn last(alloc: A, last: &'static str) -> Waiting<A>
        ensures { result ≡ last.now }
    {
        Waiting {
            text: String::new(alloc),
            given: 0,
            last: last.as_bytes(),
        }
    }

    /// The text of a piece.
    pub fn piece(text: String<A>) -> Waiting<A>
        ensures { result ≡ string_bytes text }
    {
        Waiting {
            text,
            given: 0,
            last: &[],
        }
    }

    /// Takes bytes at the front, and answers how many: 0 only if none wait, or there is no room.
    pub fn take(&mut self, into: &mut [u8]) -> usize
        ensures bound { result ≤ length into.new }
        ensures taken { self.old ≡ take result into.new ++ self.new }
        ensures none { result ≡ 0 → 0 < length into.new → self.new ≡ [] }
    {
        let text = &self.text.as_bytes()[self.given..];
        if text.is_empty() {
            let count = copy_front(self.last, into);
            self.last = &self.last[count..];
            return count;
        }
        let count = copy_front(text, into);
        self.given += count;
        count
    }
}
