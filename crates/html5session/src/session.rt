//! A tokenizer with its table and its sink, and the bytes and the text that wait.
ghost use Rattle.std.specs.Prelude.{◌≡◌, ◌≢◌, ◌↔◌, ◌⊎◌, [], Some, true, false, is_err, OnOk, OnErr, IfOk, IfErr, IsTrue, Err, string_bytes};
ghost use Rattle.html5ever.specs.Detached.{tokenizing};
ghost use Rattle.html5ever.specs.Tokenizer.{StandsAt, rules_of};
ghost use Rattle.html5ever_interface.specs.Options.{options_of};
ghost use Rattle.html5feed.specs.Feed.{reply_in};
ghost use Rattle.html5feed.specs.Starting.{CanStart};
ghost use Rattle.html5reading.specs.Start.{start_of};
ghost use Rattle.html5session.specs.Intake.{IsUnbegun, Piece, PieceRefused, TakesPiece, encoding_known, gains_front, has_room, is_decoding, nothing_taken, page_again};
ghost use Rattle.html5session.specs.Intake.Piece.{Bytes, TheEnd};
ghost use Rattle.html5session.specs.Session.{is_over, tokenizer_of, nothing_open_in, Settles, SetsState, FeedsText, StopsText, EndsText, StopsTextEnd};
ghost use Rattle.html5session.specs.Session.{AllRead, SessionOf, TookPiece, FeedsPiece, FeedRefused, EndsSession, EndRefused, LosesEnd};

use crate::error::SessionError;
use crate::intake::Intake;
use html5encodings::Encoding;
use html5ever::tokenizer::{DetachedTokenizer, NamedReferences, Tokenizer, TokenizerOpts};
use html5ever_interface::interface::sink::TokenSink;
use html5ever_interface::interface::token::Token;
use html5ever_interface::states::State;
use html5sniffing::PageDecoder;
use markup5ever::tokenizer_result::TokenizerResult;
use std::alloc::{AllocError, Allocator, Global};
use std::marker::Model;

// Ends the tokenizer.
fn end_text<S: TokenSink<Token<A>>, A: Allocator + Copy>(
    references: &NamedReferences<A>,
    detached: DetachedTokenizer<S, A>,
) -> (DetachedTokenizer<S, A>, Result<(), SessionError>)
    requires going_on { detached.ended ≡ false }
    requires not_failed { detached.failed ≡ false }
    ensures ends { OnOk result.1 (EndsText S.means (tokenizing detached references.now) (S.means.state result.0.sink)) }
    ensures ended { OnOk result.1 (result.0.ended ≡ true) }
    ensures stops { OnErr result.1 (StopsTextEnd S.means (tokenizing detached references.now) (S.means.state result.0.sink)) }
    ensures memory { IfErr result.1 (λ error. error ≡ SessionError.Memory) }
{
    let mut tokenizer = detached.attach(references);
    let answer = tokenizer.end();
    let detached = tokenizer.detach();
    match answer {
        Ok(()) => (detached, Ok(())),
        Err(_) => (detached, Err(SessionError::Memory)),
    }
}

/// A page that is read as its bytes arrive, and the sink of its tokens.
///
/// It owns the table of named references, the tokenizer with its sink, the bytes that may begin a character, and the
/// text that waits after a pause.
#[derive(Drop)]
pub struct Session<S, A: Allocator = Global> {
    references: NamedReferences<A>,
    /// The tokenizer between two calls, with its sink.
    pub detached: DetachedTokenizer<S, A>,
    intake: Intake<A>,
}

impl<S, A: Allocator> Model for Session<S, A> {
    ghost use Rattle.html5session.specs.Session.{SessionOf};

    ghost Value = { SessionOf S };

    ghost view = { λ s. record {
      references = s.references;
      detached = s.detached;
      intake = s.intake;
    } };
}

impl<S, A: Allocator> Session<S, A> {
    /// Whether nothing more is read: a call failed, or the page has ended. What the sink was sent can still be taken.
    pub fn is_over(&self) -> bool
        ensures { result ≡ is_over self.now }
    {
        self.intake.is_lost() || self.detached.has_failed() || self.detached.is_ended()
    }

    /// Where those bytes are that were last said to be no UTF-8, counted from the first byte of the first piece.
    pub fn error_at(&self) -> Option<u64>
        ensures { result ≡ self.now.intake.error_at }
    {
        self.intake.error_at()
    }

    /// Whether a piece of that many bytes is within the limit (`set_limit`), where this many wait in the sink. Held
    /// text counts: what came since all was read and nothing was open.
    pub fn has_room(&self, waiting: usize, more: usize) -> bool
        ensures { result ≡ has_room self.now.intake waiting more }
    {
        self.intake.has_room(waiting, more)
    }

    /// Sets how many bytes may be held. It is for the caller to ask (`has_room`) before a piece is fed.
    pub fn set_limit(&mut self, limit: u64)
        ensures { self.new ≡ record self.old { intake = record self.old.intake { limit = limit } } }
    {
        self.intake.set_limit(limit);
    }

    /// How many bytes may be held.
    pub fn limit(&self) -> u64
        ensures { result ≡ self.now.intake.limit }
    {
        self.intake.limit()
    }

    /// Whether no byte of the page was taken. Then it can be set how its bytes are decoded.
    pub fn is_unbegun(&self) -> bool
        ensures { IsTrue result ↔ IsUnbegun self.now.intake }
    {
        self.intake.is_unbegun()
    }

    /// Takes the bytes of the page by this decoder: then none is refused. If there is none, they are to be UTF-8.
    pub fn set_page_decoder(&mut self, page: Option<PageDecoder<A>>)
        requires { IsUnbegun self.old.intake }
        ensures { self.new ≡ record self.old { intake = record self.old.intake { page = page } } }
    {
        self.intake.set_page(page);
    }

    /// Whether a decoder takes the bytes of the page.
    pub fn is_decoding(&self) -> bool
        ensures { result ≡ is_decoding self.now.intake }
    {
        self.intake.is_decoding()
    }

    /// The encoding of a page that is decoded, once it is known.
    pub fn encoding(&self) -> Option<Encoding>
        ensures { result ≡ encoding_known self.now.intake }
    {
        self.intake.encoding()
    }

    /// The table of named references, and the sink with what it was sent.
    pub fn into_parts(self) -> (NamedReferences<A>, S)
        ensures references { result.0 ≡ self.references }
        ensures sink { result.1 ≡ self.detached.sink }
    {
        (self.references, self.detached.sink)
    }
}

impl<S: TokenSink<Token<A>>, A: Allocator + Copy> Session<S, A> {
    /// A session at the start of a page, which reads named references by the table.
    pub fn new(
        alloc: A,
        references: NamedReferences<A>,
        opts: TokenizerOpts<A>,
        sink: S,
    ) -> Session<S, A>
        requires { CanStart opts.initial_state }
        ensures stands { StandsAt S.means (tokenizer_of result) (start_of (options_of opts)) (S.means.state sink) [] }
        ensures rules { (tokenizer_of result).rules ≡ rules_of (options_of opts) references }
        ensures sink { result.detached.sink ≡ sink }
        ensures references { result.references ≡ references }
        ensures intake { result.intake ≡ nothing_taken }
        ensures going_on { is_over result ≡ false }
    {
        let detached = Tokenizer::new(alloc, sink, opts, &references).detach();
        Session {
            references,
            detached,
            intake: Intake::new(alloc),
        }
    }

    /// The decoder of another page with the same declared encoding, where a decoder takes the bytes.
    pub fn page_decoder_again(&self) -> Option<PageDecoder<A>>
        ensures { result ≡ page_again self.now.intake }
    {
        self.intake.page_again()
    }

    // Takes a piece.
    fn take_piece(&mut self, bytes: &[u8]) -> Result<(), SessionError>
        ensures takes { OnOk result (TakesPiece self.old.references self.old.intake self.new.intake (Bytes bytes.now)) }
        ensures refused { IfErr result (λ error. (error ≡ SessionError.Memory) × PieceRefused self.old.intake self.new.intake) }
        ensures kept { self.new ≡ record self.old { intake = self.new.intake } }
    {
        match self.intake.take(&self.references, bytes) {
            Ok(()) => Ok(()),
            Err(AllocError) => Err(SessionError::Memory),
        }
    }

    // Takes the rest of the text, at the end of the bytes.
    fn take_rest(&mut self) -> Result<(), SessionError>
        ensures takes { OnOk result (TakesPiece self.old.references self.old.intake self.new.intake TheEnd) }
        ensures refused { IfErr result (λ error. (error ≡ SessionError.Memory) × PieceRefused self.old.intake self.new.intake) }
        ensures kept { self.new ≡ record self.old { intake = self.new.intake } }
    {
        match self.intake.end_bytes(&self.references) {
            Ok(()) => Ok(()),
            Err(AllocError) => Err(SessionError::Memory),
        }
    }

    // Feeds the tokenizer the waiting text, up to a pause.
    fn feed_waiting(
        self,
    ) -> (
        Session<S, A>,
        Result<TokenizerResult<S::Handle, String<A>>, SessionError>,
    )
        requires { is_over self ≡ false }
        ensures feeds { IfOk result.1 (λ answer. FeedsText S.means (tokenizer_of self) (tokenizer_of result.0)
            self.intake.text result.0.intake.text (reply_in string_bytes answer)) }
        ensures stops { OnErr result.1 (StopsText S.means (tokenizer_of self)
            self.intake.text result.0.intake.text (S.means.state result.0.detached.sink)) }
        ensures memory { IfErr result.1 (λ error. error ≡ SessionError.Memory) }
        ensures intake { result.0.intake ≡ record self.intake { text = result.0.intake.text; lost = is_err result.1 } }
        ensures references { result.0.references ≡ self.references }
    {
        let Session {
            references,
            detached,
            mut intake,
        } = self;
        let (detached, answer) = intake.feed(&references, detached);
        let session = Session {
            references,
            detached,
            intake,
        };
        (session, answer)
    }

    // All that was taken was read: a fault that is still to be reported is reported.
    fn settle(
        mut self,
    ) -> (
        Session<S, A>,
        Result<TokenizerResult<S::Handle, String<A>>, SessionError>,
    )
        ensures settled { Settles self result.0 }
        ensures done { IfOk result.1 (λ answer. (answer ≡ TokenizerResult.Done) × (self.intake.fault ≡ false)) }
        ensures fault { IfErr result.1 (λ error. (self.intake.fault ≡ true)
            × (error ≡ SessionError.NotUtf8 self.intake.decoder.taken)) }
    {
        let nothing_open = self.detached.nothing_open();
        self.intake.settle(nothing_open);
        match self.intake.say_fault() {
            Some(valid_up_to) => (self, Err(SessionError::NotUtf8 { valid_up_to })),
            None => (self, Ok(TokenizerResult::Done)),
        }
    }

    // Reads what a call took, up to a pause, and says a fault where all was read.
    fn read_on(
        self,
    ) -> (
        Session<S, A>,
        Result<TokenizerResult<S::Handle, String<A>>, SessionError>,
    )
        requires { is_over self ≡ false }
        ensures feeds { IfOk result.1 (λ answer. (old : SessionOf S) (piece : Piece) → TookPiece old self piece
            → FeedsPiece S.means old result.0 piece (reply_in string_bytes answer)) }
        ensures refused { IfErr result.1 (λ error. (old : SessionOf S) (piece : Piece) → TookPiece old self piece
            → FeedRefused S.means old result.0 piece error) }
        ensures going_on { IfErr result.1 (λ error. error ≢ SessionError.Over) }
    {
        let (session, answer) = self.feed_waiting();
        // An arm for each pause: split for the proof.
        match answer {
            Ok(TokenizerResult::Done) => session.settle(),
            Ok(TokenizerResult::Script(handle)) => (session, Ok(TokenizerResult::Script(handle))),
            Ok(TokenizerResult::EncodingIndicator(text)) => {
                (session, Ok(TokenizerResult::EncodingIndicator(text)))
            }
            Err(error) => (session, Err(error)),
        }
    }

    /// Takes a piece of the page, cut anywhere, and reads on, up to the first tag after which the sink asks to pause.
    /// Then the rest of the text waits: text may be put in front of it, and the next feed goes on with it, also one of
    /// no bytes.
    ///
    /// Where bytes of the piece are not UTF-8, those before them are taken and read, and then the answer is `NotUtf8`.
    /// Where that reading pauses, the pause comes first: then no feed takes anything, until all that waits was read and
    /// `NotUtf8` was answered. After `Memory` the session is as it was, or it is over and the piece is lost. Where a
    /// decoder takes the bytes none are refused, and the text that is read is what it gives.
    pub fn feed(
        mut self,
        bytes: &[u8],
    ) -> (
        Session<S, A>,
        Result<TokenizerResult<S::Handle, String<A>>, SessionError>,
    )
        ensures feeds { IfOk result.1 (λ answer. FeedsPiece S.means self result.0 (Bytes bytes.now) (reply_in string_bytes answer)) }
        ensures refused { IfErr result.1 (λ error. FeedRefused S.means self result.0 (Bytes bytes.now) error) }
        ensures over { (result.1 ≡ Err SessionError.Over) ↔ (is_over self ≡ true) }
    {
        if self.is_over() {
            return (self, Err(SessionError::Over));
        }
        if let Err(error) = self.take_piece(bytes) {
            return (self, Err(error));
        }
        self.read_on()
    }

    /// Ends the bytes of the page, before the page is ended (`end`): where a decoder takes them the rest of their text
    /// is read, as at a feed. What is fed after that is decoded anew, in the same encoding. If none does, nothing is
    /// taken.
    pub fn end_bytes(
        mut self,
    ) -> (
        Session<S, A>,
        Result<TokenizerResult<S::Handle, String<A>>, SessionError>,
    )
        ensures feeds { IfOk result.1 (λ answer. FeedsPiece S.means self result.0 TheEnd (reply_in string_bytes answer)) }
        ensures refused { IfErr result.1 (λ error. FeedRefused S.means self result.0 TheEnd error) }
        ensures over { (result.1 ≡ Err SessionError.Over) ↔ (is_over self ≡ true) }
    {
        if self.is_over() {
            return (self, Err(SessionError::Over));
        }
        if let Err(error) = self.take_rest() {
            return (self, Err(error));
        }
        self.read_on()
    }

    /// Puts a text in front of the waiting text, as `document.write` does. It is read at the next feed.
    pub fn insert(&mut self, text: &str) -> Result<(), SessionError>
        ensures ok { OnOk result (self.new ≡ record self.old { intake = gains_front self.old.intake text.now }) }
        ensures err { OnErr result (self.new ≡ self.old) }
        ensures over { (result ≡ Err SessionError.Over) ↔ (is_over self.old ≡ true) }
        ensures errors { IfErr result (λ error. (error ≡ SessionError.Memory) ⊎ (error ≡ SessionError.Over)) }
    {
        if self.is_over() {
            return Err(SessionError::Over);
        }
        match self.intake.insert(text) {
            Ok(()) => Ok(()),
            Err(AllocError) => Err(SessionError::Memory),
        }
    }

    /// Reads the rest in the state, as a tree builder asks after a start tag at which it paused. Raw text is read up
    /// to the end tag of the last start tag. It is refused, and changes nothing, while a tag or another item is open.
    pub fn set_state(&mut self, state: State) -> Result<(), SessionError>
        requires { CanStart (Some state) }
        ensures sets { OnOk result (SetsState S.means self.old self.new state) }
        ensures err { OnErr result (self.new ≡ self.old) }
        ensures over { (result ≡ Err SessionError.Over) ↔ (is_over self.old ≡ true) }
        ensures item_open { (result ≡ Err SessionError.ItemOpen)
            ↔ ((is_over self.old ≡ false) × (nothing_open_in self.old ≡ false)) }
        ensures errors { IfErr result (λ error. (error ≡ SessionError.ItemOpen) ⊎ (error ≡ SessionError.Over)) }
    {
        if self.is_over() {
            Err(SessionError::Over)
        } else if !self.detached.nothing_open() {
            Err(SessionError::ItemOpen)
        } else {
            self.detached.set_state(state);
            Ok(())
        }
    }

    // Sends the end.
    fn end_read(self) -> (Session<S, A>, Result<(), SessionError>)
        requires going_on { is_over self ≡ false }
        requires read { AllRead self.intake }
        ensures ends { OnOk result.1 (EndsSession S.means self result.0) }
        ensures refused { OnErr result.1 (LosesEnd S.means self result.0) }
        ensures memory { IfErr result.1 (λ error. error ≡ SessionError.Memory) }
    {
        let Session {
            references,
            detached,
            mut intake,
        } = self;
        let (detached, result) = end_text(&references, detached);
        intake.set_lost(result.is_err());
        let session = Session {
            references,
            detached,
            intake,
        };
        (session, result)
    }

    /// Ends the page. It is refused, and changes nothing, while text waits. So it is if the bytes so far end within a
    /// character or, where a decoder takes them, were not ended (`end_bytes`). A fault that is still to be reported is
    /// reported.
    pub fn end(mut self) -> (Session<S, A>, Result<(), SessionError>)
        ensures ends { OnOk result.1 (EndsSession S.means self result.0) }
        ensures refused { IfErr result.1 (λ error. EndRefused S.means self result.0 error) }
        ensures over { (result.1 ≡ Err SessionError.Over) ↔ (is_over self ≡ true) }
    {
        if self.is_over() {
            return (self, Err(SessionError::Over));
        }
        if !self.intake.is_read() {
            return (self, Err(SessionError::Waiting));
        }
        if let Some(valid_up_to) = self.intake.say_fault() {
            return (self, Err(SessionError::NotUtf8 { valid_up_to }));
        }
        if !self.intake.is_complete() {
            return (self, Err(SessionError::Cut));
        }
        self.end_read()
    }
}
