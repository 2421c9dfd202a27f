//! A session whose tokens are cleaned.
ghost use Rattle.std.specs.Prelude.{◌≡◌, ◌↔◌, ◌++◌, ◌-◌, ◌^◌, false, true, length, take, drop, min, None, Some, Err, IsOk, IsTrue, OnOk, IfErr};
ghost use Rattle.html5session.specs.Intake.{IsUnbegun, encoding_known, is_decoding, page_again};
ghost use Rattle.html5session.specs.Session.{is_over};
ghost use Rattle.html5sniffing.specs.PageDecoding.{page_start};
ghost use Rattle.html5cleaning.specs.Cleaning.{after_session_takes, buffer_of, fits_in, waiting_in};
ghost use Rattle.html5cleaning.specs.Cleaning.{DecodesFrom, EndRefused, EndsPage, FeedRefused, FeedsPiece, StartsPage, StaysFed};

use html5cleaner::CleanBuffer;
use html5encodings::Encoding;
use html5ever::tokenizer::{NamedReferences, TokenizerOpts};
use html5policy::Policy;
use html5session::{Session, SessionError};
use html5sinks::text_runs::TextRuns;
use html5sniffing::PageDecoder;
use markup5ever::tokenizer_result::TokenizerResult;
use std::alloc::{Allocator, Global};
use std::marker::Model;

/// A page that is cleaned as its bytes arrive, and its kept part, which waits until it is taken.
#[derive(Drop)]
pub struct CleaningSession<A: Allocator = Global> {
    alloc: A,
    session: Session<TextRuns<CleanBuffer<A>, A>, A>,
}

impl<A: Allocator> Model for CleaningSession<A> {
    ghost use Rattle.std.specs.Prelude.{◌≡◌, false};
    ghost use Rattle.html5session.specs.Session.{is_over};
    ghost use Rattle.html5cleaning.specs.Cleaning.{CleaningOf, ReadsAtOnce};

    ghost Value = { CleaningOf };

    ghost view = { λ c. c.session };

    ghost invariant = { λ c. is_over c.session ≡ false → ReadsAtOnce c.session.intake };
}

// What an answer says of a feed, none of which pauses.
fn done<A: Allocator>(
    answer: &Result<TokenizerResult<(), String<A>>, SessionError>,
) -> Result<(), SessionError>
    ensures ok { OnOk answer.now (IsOk result) }
    ensures err { IfErr answer.now (λ error. result ≡ Err error) }
{
    match answer {
        Ok(_) => Ok(()),
        Err(error) => Err(*error),
    }
}

impl<A: Allocator> CleaningSession<A> {
    /// Whether nothing more is read: a call failed, or the page has ended. The kept bytes can still be taken.
    pub fn is_over(&self) -> bool
        ensures { result ≡ is_over self.now }
    {
        self.session.is_over()
    }

    /// Where those bytes are that were last said to be no UTF-8, counted from the first byte of the first piece.
    pub fn error_at(&self) -> Option<u64>
        ensures { result ≡ self.now.intake.error_at }
    {
        self.session.error_at()
    }

    /// Whether a piece of this many bytes is within the limit (`set_limit`). Three held things count: the text that
    /// came since all was read and nothing was open, the run of text that no tag has ended yet, and the bytes that wait
    /// to be taken.
    pub fn has_room(&self, more: usize) -> bool
        ensures { result ≡ fits_in self.now more }
    {
        let run = self.session.detached.sink.run().len();
        let waiting = self.session.detached.sink.handler().waiting().len();
        self.session.has_room(run.saturating_add(waiting), more)
    }

    /// Sets how many bytes may be held. It is for the caller to ask (`has_room`) before a piece is fed.
    pub fn set_limit(&mut self, limit: u64)
        ensures { self.new ≡ record self.old { intake = record self.old.intake { limit = limit } } }
    {
        self.session.set_limit(limit);
    }

    /// Whether no byte of the page was taken. Then it can be set how its bytes are decoded.
    pub fn is_unbegun(&self) -> bool
        ensures { IsTrue result ↔ IsUnbegun self.now.intake }
    {
        self.session.is_unbegun()
    }

    /// The encoding of a page that is decoded, once it is known.
    pub fn encoding(&self) -> Option<Encoding>
        ensures { result ≡ encoding_known self.now.intake }
    {
        self.session.encoding()
    }

    // Takes the next bytes of the kept part.
    fn take_bytes(&mut self, into: &mut [u8]) -> usize
        ensures count { result ≡ min (length into.old) (length (waiting_in self.old)) }
        ensures copied { into.new ≡ take result (waiting_in self.old) ++ drop result into.old }
        ensures taken { self.new ≡ after_session_takes self.old result }
    {
        self.session.detached.sink.handler_mut().take(into)
    }

    /// Takes the next bytes of the kept part, as many as wait and as there is room for. It answers how many. A
    /// character may be cut in two: what is left of it comes first at the next call.
    pub fn take(&mut self, into: &mut [u8]) -> usize
        ensures count { result ≡ min (length into.old) (length (waiting_in self.old)) }
        ensures copied { into.new ≡ take result (waiting_in self.old) ++ drop result into.old }
        ensures taken { self.new ≡ after_session_takes self.old result }
        ensures fed { StaysFed self.old self.new }
    {
        self.take_bytes(into)
    }
}

impl<A: Allocator + Copy> CleaningSession<A> {
    /// A session at the start of a page, which is cleaned by this policy and reads named references by the table.
    pub fn new(alloc: A, references: NamedReferences<A>, policy: Policy<A>) -> CleaningSession<A>
        ensures { StartsPage policy references (2 ^ 64 - 1) None result }
    {
        let sink = TextRuns::new(alloc, CleanBuffer::new(alloc, policy));
        CleaningSession {
            alloc,
            session: Session::new(alloc, references, TokenizerOpts::default(), sink),
        }
    }

    // Takes the bytes of the page by this decoder, or as UTF-8.
    fn set_page_decoder(&mut self, page: Option<PageDecoder<A>>)
        requires { IsUnbegun self.old.intake }
        ensures { self.new ≡ record self.old { intake = record self.old.intake { page = page } } }
    {
        self.session.set_page_decoder(page);
    }

    /// Decodes the page by the encoding that it is in, as a browser determines it, where this one is declared for it,
    /// as by a header of the transport. Then no bytes are refused, and those that are invalid in the encoding give
    /// U+FFFD.
    pub fn decode_page(&mut self, said: Option<Encoding>)
        requires { IsUnbegun self.old.intake }
        ensures decodes { self.new ≡ record self.old { intake = record self.old.intake { page = Some (page_start said None) } } }
        ensures fed { DecodesFrom self.old self.new }
    {
        self.set_page_decoder(Some(PageDecoder::new(self.alloc, said, None)));
    }

    /// A session at the start of another page, by the same policy, table and limit, whose bytes are decoded as those of
    /// this one. Kept bytes that were not taken are gone.
    pub fn restart(self) -> CleaningSession<A>
        ensures { StartsPage (buffer_of self).policy self.references self.intake.limit (page_again self.intake) result }
    {
        let CleaningSession { alloc, session } = self;
        let limit = session.limit();
        let page = session.page_decoder_again();
        let (references, sink) = session.into_parts();
        let mut next = CleaningSession::new(alloc, references, sink.into_inner().into_policy());
        next.set_limit(limit);
        next.set_page_decoder(page);
        next
    }

    /// Takes a piece of the page, cut anywhere, and reads on.
    ///
    /// Where bytes of the piece are not UTF-8, those before them are taken and read, and then the answer is `NotUtf8`.
    /// After `Memory` the session is as it was, or it is over and the piece is lost.
    pub fn feed(self, bytes: &[u8]) -> (CleaningSession<A>, Result<(), SessionError>)
        ensures feeds { OnOk result.1 (FeedsPiece self result.0 bytes.now) }
        ensures refused { IfErr result.1 (λ error. FeedRefused self result.0 bytes.now error) }
        ensures over { (result.1 ≡ Err SessionError.Over) ↔ (is_over self ≡ true) }
    {
        if self.session.is_over() {
            return (self, Err(SessionError::Over));
        }
        let CleaningSession { alloc, session } = self;
        let (session, answer) = session.feed(bytes);
        (CleaningSession { alloc, session }, done(&answer))
    }

    // Ends a page whose bytes are UTF-8.
    fn end_utf8(self) -> (CleaningSession<A>, Result<(), SessionError>)
        requires going_on { is_over self ≡ false }
        requires utf8 { is_decoding self.intake ≡ false }
        ensures ends { OnOk result.1 (EndsPage self result.0) }
        ensures refused { IfErr result.1 (λ error. EndRefused self result.0 error) }
    {
        let CleaningSession { alloc, session } = self;
        let (session, ended) = session.end();
        (CleaningSession { alloc, session }, ended)
    }

    // Ends a page that is decoded: the rest of its text is read first.
    fn end_decoded(self) -> (CleaningSession<A>, Result<(), SessionError>)
        requires going_on { is_over self ≡ false }
        requires decoding { is_decoding self.intake ≡ true }
        ensures ends { OnOk result.1 (EndsPage self result.0) }
        ensures refused { IfErr result.1 (λ error. EndRefused self result.0 error) }
    {
        let CleaningSession { alloc, session } = self;
        let (session, answer) = session.end_bytes();
        if let Err(error) = done(&answer) {
            return (CleaningSession { alloc, session }, Err(error));
        }
        let (session, result) = session.end();
        (CleaningSession { alloc, session }, result)
    }

    /// Ends the page. The rest of its kept part can then be taken.
    ///
    /// After `Cut` all is as it was: the rest of a character may be fed. After `Memory` the session is over or, where a
    /// page is decoded, as it was.
    pub fn end(self) -> (CleaningSession<A>, Result<(), SessionError>)
        ensures ends { OnOk result.1 (EndsPage self result.0) }
        ensures refused { IfErr result.1 (λ error. EndRefused self result.0 error) }
        ensures over { (result.1 ≡ Err SessionError.Over) ↔ (is_over self ≡ true) }
    {
        if self.session.is_over() {
            return (self, Err(SessionError::Over));
        }
        if self.session.is_decoding() {
            self.end_decoded()
        } else {
            self.end_utf8()
        }
    }
}
