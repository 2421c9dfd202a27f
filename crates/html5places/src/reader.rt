//! Texts that arrive in pieces, read with the places of their tokens.
ghost use Rattle.std.specs.Prelude.{◌≡◌, ◌↔◌, ◌⊎◌, ◌+◌, ◌≤◌, ◌<◌, ◌^◌, ◌&&◌, ℕ, List, [], false, true, not, is_err, length, nat_lt, take, Err, Some, IfErr, IfOk, OnErr, OnOk};
ghost use Rattle.std.specs.Str.{IsCharBoundary, chars};
ghost use Rattle.html5ever.specs.Tokenizer.{rules_of};
ghost use Rattle.html5ever_interface.specs.Options.{options_of};
ghost use Rattle.html5feed.specs.Starting.{CanStart, in_state};
ghost use Rattle.html5places.specs.Placed.{Beginning, at_first_byte};
ghost use Rattle.html5places.specs.Readers.{EndsInToken, HasNoTokenBefore, Reads, ReadsEnd, StandsAfter, StopsAtEnd, StopsWithin, reading_of};
ghost use Rattle.html5places.specs.Written.{place_after};
ghost use Rattle.html5reading.specs.Start.{nothing_open, start_of};

mod detached;

use crate::error::PlaceError;
use crate::handler::PlacedHandler;
use crate::placing::PlacedTokens;
pub use crate::reader::detached::DetachedPlaceReader;
use crate::reading::{place_of, read_end, read_text, read_to_token};
use html5ever::tokenizer::{BufferQueue, NamedReferences, Tokenizer, TokenizerOpts};
use html5ever_interface::interface::token::Token;
use html5ever_interface::states::State;
use std::alloc::{Allocator, Global};
use std::marker::Model;
use std::mem;

// A tokenizer whose sink keeps tokens with their places, at the start of a text.
fn new_tokenizer<'r, A: Allocator + Copy>(
    alloc: A,
    references: &'r NamedReferences<A>,
    opts: TokenizerOpts<A>,
) -> Tokenizer<'r, PlacedTokens<A>, A>
    requires { CanStart opts.initial_state }
    ensures stands { StandsAfter (reading_of result) (at_first_byte (start_of (options_of opts))) [] }
    ensures rules { result.rules ≡ rules_of (options_of opts) references.now }
    ensures kept { result.sink.handler ≡ [] }
    ensures not_failed { result.failed ≡ false }
    ensures not_ended { result.ended ≡ false }
{
    Tokenizer::new(alloc, PlacedTokens::new(alloc), opts, references)
}

/// Reads a text that arrives in pieces, and hands each token but its texts to a handler, as `read_places` does. Places
/// count the bytes of all text that was read.
///
/// After an error, or the end, it is over: every call is refused with `Failed`.
#[derive(Drop)]
pub struct PlaceReader<'r, A: Allocator = Global> {
    alloc: A,
    references: &'r NamedReferences<A>,
    tokenizer: Tokenizer<'r, PlacedTokens<A>, A>,
    queue: BufferQueue<A>,
    over: bool,
}

impl<'r, A: Allocator> Model for PlaceReader<'r, A> {
    ghost use Rattle.std.specs.Prelude.{◌≡◌, false};
    ghost use Rattle.html5places.specs.Readers.{NothingWaits, ReaderOf, reading_of};

    ghost Value = { ReaderOf };

    ghost view = { λ r. record { reading = reading_of r.tokenizer; over = r.over } };

    ghost invariant = { λ r. r.over ≡ false → NothingWaits r.tokenizer r.queue r.references.now };
}

impl<'r, A: Allocator + Copy> PlaceReader<'r, A> {
    /// A reader at the start of a text.
    pub fn new(
        alloc: A,
        references: &'r NamedReferences<A>,
        opts: TokenizerOpts<A>,
    ) -> PlaceReader<'r, A>
        requires { CanStart opts.initial_state }
        ensures stands { StandsAfter result.reading (at_first_byte (start_of (options_of opts))) [] }
        ensures rules { result.reading.rules ≡ rules_of (options_of opts) references.now }
        ensures going_on { result.over ≡ false }
    {
        PlaceReader {
            alloc,
            references,
            tokenizer: new_tokenizer(alloc, references, opts),
            queue: BufferQueue::new(alloc),
            over: false,
        }
    }

    /// Whether every further call is refused: one was, or the end was read.
    pub fn is_over(&self) -> bool
        ensures { result ≡ self.now.over }
    {
        self.over
    }

    /// How many bytes of text were read.
    pub fn place(&self) -> usize
        ensures place { result ≡ self.now.reading.marks.to }
        ensures bytes { (B : Beginning) (before : List ℕ) → StandsAfter self.now.reading B before
            → result ≡ B.marks.to + place_after before }
    {
        place_of(&self.tokenizer)
    }

    /// Whether no item is open, so that a state can be set: at the start, and after each tag.
    pub fn nothing_open(&self) -> bool
        ensures { result ≡ (nothing_open self.now.reading.position.opened && not self.now.over) }
    {
        !self.over && self.tokenizer.nothing_pending()
    }

    /// Goes on in the state, as a tree builder asks after a start tag. Raw text is read up to the end tag of the last
    /// start tag. Places count on.
    pub fn set_state(&mut self, state: State)
        requires can_start { CanStart (Some state) }
        requires nothing_open { nothing_open self.old.reading.position.opened ≡ true }
        requires going_on { self.old.over ≡ false }
        ensures sets { self.new ≡ record self.old {
          reading = record self.old.reading { position = in_state self.old.reading.position state };
        } }
        ensures stands { StandsAfter self.new.reading (record {
          start = in_state self.old.reading.position state;
          marks = self.old.reading.marks;
        }) [] }
    {
        // A tokenizer takes a state while it is detached from its table. Meanwhile another one stands in its place.
        let other = new_tokenizer(self.alloc, self.references, TokenizerOpts::default());
        let mut detached = mem::replace(&mut self.tokenizer, other).detach();
        detached.set_state(state);
        self.tokenizer = detached.attach(self.references);
    }

    // Whether the places of a text still fit in a `usize`.
    fn has_room(&self, text: &str) -> bool
        ensures { result ≡ nat_lt (self.now.reading.marks.to + length text.now) (2 ^ 64) }
    {
        text.len() <= usize::MAX - self.place()
    }

    // Whether a text can be read. If not, the reader is over.
    fn check_room(&mut self, text: &str) -> Result<(), PlaceError>
        ensures failed { (result ≡ Err PlaceError.Failed) ↔ (self.old.over ≡ true) }
        ensures too_long { (result ≡ Err PlaceError.TooLong)
            ↔ ((self.old.over ≡ false) × (2 ^ 64 ≤ self.old.reading.marks.to + length text.now)) }
        ensures errors { IfErr result (λ error. (error ≡ PlaceError.Failed) ⊎ (error ≡ PlaceError.TooLong)) }
        ensures over { self.new ≡ record self.old { over = is_err result } }
    {
        if self.over {
            return Err(PlaceError::Failed);
        }
        if !self.has_room(text) {
            self.over = true;
            return Err(PlaceError::TooLong);
        }
        Ok(())
    }

    /// Reads a text on. Each token that its characters tell is handed over. After `Memory` and `Handler` the handler
    /// was handed a prefix of these tokens.
    pub fn read<H: PlacedHandler<Token<A>>>(
        &mut self,
        text: &str,
        handler: &mut H,
    ) -> Result<(), PlaceError>
        // What an `Ok` says: wherever the reader stood, it stands after the text now, and exactly what that tells was
        // handed over.
        ensures reads { OnOk result (Reads H.step self.old.reading self.new.reading
            (H.state handler.old) (H.state handler.new) (chars text.now)) }

        // When each error comes, and what it leaves.
        ensures stops { OnErr result (StopsWithin H.step self.old.reading
            (H.state handler.old) (H.state handler.new) (chars text.now)) }
        ensures failed { (result ≡ Err PlaceError.Failed) ↔ (self.old.over ≡ true) }
        ensures too_long { (result ≡ Err PlaceError.TooLong)
            ↔ ((self.old.over ≡ false) × (2 ^ 64 ≤ self.old.reading.marks.to + length text.now)) }
        ensures nothing_handed { (result ≡ Err PlaceError.Failed) ⊎ (result ≡ Err PlaceError.TooLong)
            → handler.new ≡ handler.old }
        ensures over { self.new.over ≡ is_err result }

        // What it keeps.
        ensures rules { self.new.reading.rules ≡ self.old.reading.rules }
    {
        // A match in place of `?`: split for the proof.
        match self.check_room(text) {
            Ok(()) => {}
            Err(error) => return Err(error),
        }
        let result = read_text(&mut self.tokenizer, &mut self.queue, handler, text);
        self.over = result.is_err();
        result
    }

    /// Reads a text up to and with the first character after which a token other than a parse error was handed over, or
    /// to its end. Answers how many bytes that is. So a caller may go on with another text there, as `document.write`
    /// puts one in, or in another state.
    pub fn read_to_token<H: PlacedHandler<Token<A>>>(
        &mut self,
        text: &str,
        handler: &mut H,
    ) -> Result<usize, PlaceError>
        // What an `Ok` says: the same as for `read`, of this many bytes of the text, which end between two characters.
        ensures reads { IfOk result (λ count. Reads H.step self.old.reading self.new.reading
            (H.state handler.old) (H.state handler.new) (chars (take count text.now))) }
        ensures within { IfOk result (λ count. count ≤ length text.now) }
        ensures boundary { IfOk result (λ count. IsCharBoundary text.now count) }

        // It goes no further than the first token, and no less far.
        ensures no_token_before { IfOk result (λ count.
            HasNoTokenBefore self.old.reading (chars (take count text.now))) }
        ensures token_last { IfOk result (λ count. count < length text.now
            → EndsInToken self.old.reading (chars (take count text.now))) }

        // When each error comes, and what it leaves.
        ensures stops { OnErr result (StopsWithin H.step self.old.reading
            (H.state handler.old) (H.state handler.new) (chars text.now)) }
        ensures failed { (result ≡ Err PlaceError.Failed) ↔ (self.old.over ≡ true) }
        ensures too_long { (result ≡ Err PlaceError.TooLong)
            ↔ ((self.old.over ≡ false) × (2 ^ 64 ≤ self.old.reading.marks.to + length text.now)) }
        ensures nothing_handed { (result ≡ Err PlaceError.Failed) ⊎ (result ≡ Err PlaceError.TooLong)
            → handler.new ≡ handler.old }
        ensures over { self.new.over ≡ is_err result }

        // What it keeps.
        ensures rules { self.new.reading.rules ≡ self.old.reading.rules }
    {
        // A match in place of `?`: split for the proof.
        match self.check_room(text) {
            Ok(()) => {}
            Err(error) => return Err(error),
        }
        let result = read_to_token(&mut self.tokenizer, &mut self.queue, handler, text);
        self.over = result.is_err();
        result
    }

    /// Reads the end, and hands on what it tells. Nothing can be read afterwards.
    pub fn end<H: PlacedHandler<Token<A>>>(&mut self, handler: &mut H) -> Result<(), PlaceError>
        ensures reads { OnOk result (ReadsEnd H.step self.old.reading (H.state handler.old) (H.state handler.new)) }
        ensures stops { OnErr result (StopsAtEnd H.step self.old.reading (H.state handler.old) (H.state handler.new)) }
        ensures failed { (result ≡ Err PlaceError.Failed) ↔ (self.old.over ≡ true) }
        ensures errors { IfErr result (λ error. (error ≡ PlaceError.Memory) ⊎ (error ≡ PlaceError.Handler)
            ⊎ (error ≡ PlaceError.Failed)) }
        ensures nothing_handed { result ≡ Err PlaceError.Failed → handler.new ≡ handler.old }
        ensures over { self.new.over ≡ true }
    {
        if self.over {
            return Err(PlaceError::Failed);
        }
        self.over = true;
        read_end(&mut self.tokenizer, handler)
    }
}
