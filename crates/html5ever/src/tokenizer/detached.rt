//! A tokenizer between two calls, which borrows no table.
ghost use Rattle.std.specs.Prelude.{◌≡◌, true, Some};
ghost use Rattle.html5ever.specs.Detached.{tokenizing};
ghost use Rattle.html5feed.specs.Starting.{CanStart, in_state};
ghost use Rattle.html5reading.specs.Start.{nothing_open};

use crate::tokenizer::Tokenizer;
use html5ever_interface::states::State;
use html5feed::position::Position;
use html5feed::rules::Rules;
use markup5ever::data::NamedReferences;
use std::alloc::{Allocator, Global};
use std::marker::Model;

/// All of a tokenizer but its table. So a value can own both and be kept between two calls: `attach`
/// lends the table to the tokenizer again.
#[derive(Drop)]
pub struct DetachedTokenizer<Sink, A: Allocator = Global> {
    /// The sink that is sent the tokens.
    pub sink: Sink,
    alloc: A,
    exact_errors: bool,
    position: Position<A>,
    failed: bool,
    ended: bool,
}

impl<Sink, A: Allocator> Model for DetachedTokenizer<Sink, A> {
    ghost use Rattle.html5ever.specs.Detached.{DetachedOf};

    ghost Value = { DetachedOf Sink };

    ghost view = { λ r. record {
      sink = r.sink;
      exact_errors = r.exact_errors;
      position = r.position;
      failed = r.failed;
      ended = r.ended;
    } };
}

impl<'t, Sink, A: Allocator> Tokenizer<'t, Sink, A> {
    /// Gives the table back, and keeps all else.
    pub fn detach(self) -> DetachedTokenizer<Sink, A>
        ensures whole { tokenizing result self.entry.rules.references ≡ self.entry }
        ensures sink { result.sink ≡ self.entry.sink }
        ensures failed { result.failed ≡ self.entry.failed }
        ensures ended { result.ended ≡ self.entry.ended }
    {
        DetachedTokenizer {
            sink: self.sink,
            alloc: self.alloc,
            exact_errors: self.rules.exact_errors,
            position: self.position,
            failed: self.failed,
            ended: self.ended,
        }
    }
}

impl<Sink, A: Allocator> DetachedTokenizer<Sink, A> {
    /// Goes on with a table. With the table that it had before, the tokenizer is as it was.
    pub fn attach(self, references: &NamedReferences<A>) -> Tokenizer<'_, Sink, A>
        ensures { result ≡ tokenizing self references.now }
    {
        Tokenizer {
            sink: self.sink,
            alloc: self.alloc,
            rules: Rules {
                exact_errors: self.exact_errors,
                references,
            },
            position: self.position,
            failed: self.failed,
            ended: self.ended,
        }
    }

    /// Whether the end of the input was sent.
    pub fn is_ended(&self) -> bool
        ensures { result ≡ self.now.ended }
    {
        self.ended
    }

    /// Whether an earlier call was refused, so that every further one is.
    pub fn has_failed(&self) -> bool
        ensures { result ≡ self.now.failed }
    {
        self.failed
    }
}

impl<Sink, A: Allocator + Copy> DetachedTokenizer<Sink, A> {
    /// Whether no item is open, so that a state can be set: at the start, and after a tag at which it paused.
    pub fn nothing_open(&self) -> bool
        ensures { result ≡ nothing_open self.now.position.opened }
    {
        self.position.nothing_open()
    }

    /// Reads the rest in the state, as a tree builder asks after a start tag. Raw text is read up to the
    /// end tag of the last start tag.
    pub fn set_state(&mut self, state: State)
        requires can_start { CanStart (Some state) }
        requires nothing_open { nothing_open self.old.position.opened ≡ true }
        ensures { self.new ≡ record self.old { position = in_state self.old.position state } }
    {
        self.position.set_state(state);
    }
}
