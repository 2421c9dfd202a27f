//! A reader between two calls, without its table.
ghost use Rattle.std.specs.Prelude.{◌≡◌};
ghost use Rattle.html5places.specs.Readers.{reader_with};

use crate::placing::PlacedTokens;
use crate::reader::PlaceReader;
use html5ever::tokenizer::{BufferQueue, DetachedTokenizer, NamedReferences};
use std::alloc::{Allocator, Global};
use std::marker::Model;

/// A reader without its table, which it takes back when it goes on. So it can be kept beside the table, by an owner of both.
#[derive(Drop)]
pub struct DetachedPlaceReader<A: Allocator = Global> {
    alloc: A,
    tokenizer: DetachedTokenizer<PlacedTokens<A>, A>,
    queue: BufferQueue<A>,
    over: bool,
}

impl<A: Allocator> Model for DetachedPlaceReader<A> {
    ghost use Rattle.std.specs.Prelude.{◌≡◌, false, []};
    ghost use Rattle.html5ever.specs.Detached.{tokenizing};
    ghost use Rattle.html5places.specs.Readers.{DetachedReaderOf, NothingWaits};

    ghost Value = { DetachedReaderOf };

    ghost view = { λ r. record {
      exact = r.tokenizer.exact_errors;
      position = r.tokenizer.position;
      marks = r.tokenizer.sink.marks;
      over = r.over;
    } };

    ghost invariant = { λ r. r.over ≡ false → NothingWaits (tokenizing r.tokenizer []) r.queue [] };
}

impl<'r, A: Allocator> PlaceReader<'r, A> {
    /// Gives the table back, and keeps all else.
    pub fn detach(self) -> DetachedPlaceReader<A>
        ensures { reader_with result self.entry.reading.rules.references ≡ self.entry }
    {
        DetachedPlaceReader {
            alloc: self.alloc,
            tokenizer: self.tokenizer.detach(),
            queue: self.queue,
            over: self.over,
        }
    }
}

impl<A: Allocator> DetachedPlaceReader<A> {
    /// Goes on with a table. With the table that it had before, the reader is as it was.
    pub fn attach(self, references: &NamedReferences<A>) -> PlaceReader<'_, A>
        ensures { result ≡ reader_with self references.now }
    {
        PlaceReader {
            alloc: self.alloc,
            references,
            tokenizer: self.tokenizer.attach(references),
            queue: self.queue,
            over: self.over,
        }
    }

    /// Whether every further call is refused: one was, or the end was read.
    pub fn is_over(&self) -> bool
        ensures { result ≡ self.now.over }
    {
        self.over
    }
}

impl<A: Allocator + Copy> DetachedPlaceReader<A> {
    /// How many bytes of text were read.
    pub fn place(&self) -> usize
        ensures { result ≡ self.now.marks.to }
    {
        self.tokenizer.sink.place()
    }
}
