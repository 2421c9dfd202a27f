//! The bytes of a page as they arrive, and the text that waits to be read.
ghost use Rattle.std.specs.Prelude.{◌≡◌, ◌↔◌, [], false, true, is_err, IsTrue, OnOk, OnErr, IfOk, IfErr, MatchOption, string_bytes};
ghost use Rattle.html5ever.specs.Detached.{tokenizing};
ghost use Rattle.html5feed.specs.Feed.{reply_in};
ghost use Rattle.html5session.specs.Intake.{Decoded, IsComplete, IsUnbegun, PieceRefused, TakesPiece, encoding_known, fault_said, gains, gains_front, has_room, held_of, is_decoding, nothing_taken, page_again};
ghost use Rattle.html5session.specs.Intake.Piece.{Bytes, TheEnd};
ghost use Rattle.html5sniffing.specs.PageDecoding as page;
ghost use Rattle.html5session.specs.Session.{FeedsText, StopsText, unsettled_after};

use crate::error::SessionError;
use html5encodings::Encoding;
use html5ever::tokenizer::{BufferQueue, DetachedTokenizer, NamedReferences};
use html5ever_interface::interface::sink::TokenSink;
use html5ever_interface::interface::token::Token;
use html5sniffing::PageDecoder;
use markup5ever::tokenizer_result::TokenizerResult;
use std::alloc::{AllocError, Allocator, Global};
use std::marker::Model;
use utf8_pieces::{DecodeError, Decoder};

/// What arrived of a page and was not read yet: the bytes that may begin a character, and the text that waits.
#[derive(Drop)]
pub struct Intake<A: Allocator = Global> {
    alloc: A,
    decoder: Decoder,
    // The decoder of a page in any encoding, in place of `decoder`.
    page: Option<PageDecoder<A>>,
    queue: BufferQueue<A>,
    fault: bool,
    error_at: Option<u64>,
    lost: bool,
    limit: u64,
    unsettled: u64,
}

impl<A: Allocator> Model for Intake<A> {
    ghost use Rattle.std.specs.Prelude.{◌≡◌, true, None};
    ghost use Rattle.html5session.specs.Intake.{IntakeOf};

    ghost Value = { IntakeOf };

    ghost view = { λ i. record {
      decoder = i.decoder;
      page = i.page;
      text = i.queue.text;
      fault = i.fault;
      error_at = i.error_at;
      lost = i.lost;
      limit = i.limit;
      unsettled = i.unsettled;
    } };

    ghost invariant = { λ i. i.fault ≡ true → i.page ≡ None };
}

// Feeds the tokenizer the waiting text, up to a pause.
fn feed_text<S: TokenSink<Token<A>>, A: Allocator + Copy>(
    references: &NamedReferences<A>,
    detached: DetachedTokenizer<S, A>,
    queue: &mut BufferQueue<A>,
) -> (
    DetachedTokenizer<S, A>,
    Result<TokenizerResult<S::Handle, String<A>>, SessionError>,
)
    requires going_on { detached.ended ≡ false }
    requires not_failed { detached.failed ≡ false }
    ensures feeds { IfOk result.1 (λ answer. FeedsText S.means (tokenizing detached references.now)
        (tokenizing result.0 references.now) queue.old.text queue.new.text (reply_in string_bytes answer)) }
    ensures stops { OnErr result.1 (StopsText S.means (tokenizing detached references.now)
        queue.old.text queue.new.text (S.means.state result.0.sink)) }
    ensures memory { IfErr result.1 (λ error. error ≡ SessionError.Memory) }
{
    let mut tokenizer = detached.attach(references);
    let answer = tokenizer.feed(queue);
    let detached = tokenizer.detach();
    match answer {
        Ok(answer) => (detached, Ok(answer)),
        Err(_) => (detached, Err(SessionError::Memory)),
    }
}

impl<A: Allocator> Intake<A> {
    /// Whether a text was lost to a failed call.
    pub fn is_lost(&self) -> bool
        ensures { result ≡ self.now.lost }
    {
        self.lost
    }

    /// Whether no text waits.
    pub fn is_read(&self) -> bool
        ensures { IsTrue result ↔ (self.now.text ≡ []) }
    {
        self.queue.is_empty()
    }

    /// Whether the bytes so far end with a whole character or, where a page is decoded, were ended.
    pub fn is_complete(&self) -> bool
        ensures { IsTrue result ↔ IsComplete self.now }
    {
        match &self.page {
            Some(page) => page.is_ended(),
            None => self.decoder.is_complete(),
        }
    }

    /// Whether the page is decoded by the encoding that it is in.
    pub fn is_decoding(&self) -> bool
        ensures { result ≡ is_decoding self.now }
    {
        self.page.is_some()
    }

    /// The encoding of a page that is decoded, once it is known.
    pub fn encoding(&self) -> Option<Encoding>
        ensures { result ≡ encoding_known self.now }
    {
        match &self.page {
            Some(page) => page.encoding(),
            None => None,
        }
    }

    // Whether no byte was taken as UTF-8.
    fn is_utf8_unbegun(&self) -> bool
        requires { self.now.page ≡ None }
        ensures { IsTrue result ↔ IsUnbegun self.now }
    {
        !self.fault
            && self.error_at.is_none()
            && self.decoder.is_complete()
            && self.decoder.taken() == 0
    }

    /// Whether no byte was taken.
    pub fn is_unbegun(&self) -> bool
        ensures { IsTrue result ↔ IsUnbegun self.now }
    {
        match &self.page {
            Some(page) => page.is_unbegun(),
            None => self.is_utf8_unbegun(),
        }
    }

    /// Takes the bytes by this decoder, or as UTF-8.
    pub fn set_page(&mut self, page: Option<PageDecoder<A>>)
        requires { IsUnbegun self.old }
        ensures { self.new ≡ record self.old { page = page } }
    {
        self.page = page;
    }

    // How many bytes are held of a page whose encoding isn't known yet.
    fn held_len(&self) -> usize
        ensures { result ≡ held_of self.now.page }
    {
        match &self.page {
            Some(page) => page.held_len(),
            None => 0,
        }
    }

    /// Where those bytes are that were last said to be no UTF-8.
    pub fn error_at(&self) -> Option<u64>
        ensures { result ≡ self.now.error_at }
    {
        self.error_at
    }

    /// Whether this many bytes more are within the limit, where that many wait in the sink.
    pub fn has_room(&self, waiting: usize, more: usize) -> bool
        ensures { result ≡ has_room self.now waiting more }
    {
        let held = self.unsettled.saturating_add(self.held_len() as u64);
        let held = held.saturating_add(waiting as u64);
        held.saturating_add(more as u64) <= self.limit
    }

    /// How many bytes may be held.
    pub fn limit(&self) -> u64
        ensures { result ≡ self.now.limit }
    {
        self.limit
    }

    /// Sets how many bytes may be held.
    pub fn set_limit(&mut self, limit: u64)
        ensures { self.new ≡ record self.old { limit = limit } }
    {
        self.limit = limit;
    }

    /// Begins the count of bytes anew, where all that came was read and nothing is open.
    pub fn settle(&mut self, nothing_open: bool)
        ensures { self.new ≡ record self.old { unsettled = unsettled_after nothing_open self.old.unsettled } }
    {
        if nothing_open {
            self.unsettled = 0;
        }
    }

    /// Says whether the text that was being read is lost.
    pub fn set_lost(&mut self, lost: bool)
        ensures { self.new ≡ record self.old { lost = lost } }
    {
        self.lost = lost;
    }

    /// Says a fault, if one is still to be reported: its place.
    pub fn say_fault(&mut self) -> Option<u64>
        ensures said { MatchOption result (self.old.fault ≡ false)
            (λ place. (self.old.fault ≡ true) × (place ≡ self.old.decoder.taken)) }
        ensures some { self.old.fault ≡ true → self.new ≡ fault_said self.old }
        ensures none { self.old.fault ≡ false → self.new ≡ self.old }
    {
        if !self.fault {
            return None;
        }
        self.fault = false;
        self.error_at = Some(self.decoder.taken());
        self.error_at
    }
}

impl<A: Allocator + Copy> Intake<A> {
    /// Nothing was taken yet.
    pub fn new(alloc: A) -> Intake<A>
        ensures { result ≡ nothing_taken }
    {
        Intake {
            alloc,
            decoder: Decoder::new(),
            page: None,
            queue: BufferQueue::new(alloc),
            fault: false,
            error_at: None,
            lost: false,
            limit: u64::MAX,
            unsettled: 0,
        }
    }

    /// The decoder of another page, by which the bytes of this one are taken, if they are.
    pub fn page_again(&self) -> Option<PageDecoder<A>>
        ensures { result ≡ page_again self.now }
    {
        match &self.page {
            Some(page) => Some(page.restarted()),
            None => None,
        }
    }

    // The text that a piece completes, or that of its front.
    fn decode_utf8(&mut self, bytes: &[u8]) -> Result<String<A>, AllocError>
        requires fault { self.old.fault ≡ false }
        requires page { self.old.page ≡ None }
        ensures ok { IfOk result (λ text. Decoded self.old self.new bytes.now (string_bytes text)) }
        ensures err { OnErr result (self.new ≡ self.old) }
    {
        match self.decoder.decode(self.alloc, bytes) {
            Ok(text) => Ok(text),
            Err(DecodeError::Memory) => Err(AllocError),
            Err(DecodeError::NotUtf8 { .. }) => {
                let text = self.decoder.decode_front(self.alloc, bytes)?;
                self.fault = true;
                Ok(text)
            }
        }
    }

    // Puts a text after the waiting text, or loses it.
    fn gain(&mut self, text: String<A>) -> Result<(), AllocError>
        ensures ok { OnOk result (self.new ≡ gains self.old (string_bytes text)) }
        ensures err { OnErr result (self.new.lost ≡ true) }
    {
        self.unsettled = self.unsettled.saturating_add(text.len() as u64);
        let Err(_) = self.queue.push_back(text) else {
            return Ok(());
        };
        self.lost = true;
        Err(AllocError)
    }

    // Takes a piece of a page that is decoded.
    fn take_page(&mut self, references: &NamedReferences<A>, bytes: &[u8]) -> Result<(), AllocError>
        requires { is_decoding self.old ≡ true }
        ensures takes { OnOk result (TakesPiece references.now self.old self.new (Bytes bytes.now)) }
        ensures refused { OnErr result (PieceRefused self.old self.new) }
    {
        let Some(mut page) = self.page.take() else {
            return Ok(());
        };
        let text = page.push(references, bytes);
        self.page = Some(page);
        let text = text?;
        self.gain(text)
    }

    /// Takes a piece: its text comes after the waiting text. Bytes that are not UTF-8 are not taken, nor those
    /// after them, and nothing more is until that is reported (`say_fault`). Where a page is decoded all are
    /// taken.
    pub fn take(&mut self, references: &NamedReferences<A>, bytes: &[u8]) -> Result<(), AllocError>
        ensures takes { OnOk result (TakesPiece references.now self.old self.new (Bytes bytes.now)) }
        ensures refused { OnErr result (PieceRefused self.old self.new) }
    {
        if self.page.is_some() {
            return self.take_page(references, bytes);
        }
        if self.fault {
            return Ok(());
        }
        let text = self.decode_utf8(bytes)?;
        self.gain(text)
    }

    /// Ends the bytes: where a page is decoded, the rest of its text comes after the waiting text.
    pub fn end_bytes(&mut self, references: &NamedReferences<A>) -> Result<(), AllocError>
        ensures takes { OnOk result (TakesPiece references.now self.old self.new TheEnd) }
        ensures refused { OnErr result (PieceRefused self.old self.new) }
    {
        let Some(mut page) = self.page.take() else {
            return Ok(());
        };
        let text = page.finish(references);
        self.page = Some(page);
        let Ok(text) = text else {
            self.lost = true;
            return Err(AllocError);
        };
        self.gain(text)
    }

    /// Puts a text in front of the waiting text.
    pub fn insert(&mut self, text: &str) -> Result<(), AllocError>
        ensures ok { OnOk result (self.new ≡ gains_front self.old text.now) }
        ensures err { OnErr result (self.new ≡ self.old) }
    {
        let owned = String::from_str(self.alloc, text)?;
        match self.queue.push_front(owned) {
            Ok(()) => {
                self.unsettled = self.unsettled.saturating_add(text.len() as u64);
                Ok(())
            }
            Err(_) => Err(AllocError),
        }
    }

    /// Feeds the tokenizer the waiting text, up to a pause. After an error the rest is lost.
    pub fn feed<S: TokenSink<Token<A>>>(
        &mut self,
        references: &NamedReferences<A>,
        detached: DetachedTokenizer<S, A>,
    ) -> (
        DetachedTokenizer<S, A>,
        Result<TokenizerResult<S::Handle, String<A>>, SessionError>,
    )
        requires going_on { detached.ended ≡ false }
        requires not_failed { detached.failed ≡ false }
        ensures feeds { IfOk result.1 (λ answer. FeedsText S.means (tokenizing detached references.now)
            (tokenizing result.0 references.now) self.old.text self.new.text (reply_in string_bytes answer)) }
        ensures stops { OnErr result.1 (StopsText S.means (tokenizing detached references.now)
            self.old.text self.new.text (S.means.state result.0.sink)) }
        ensures memory { IfErr result.1 (λ error. error ≡ SessionError.Memory) }
        ensures kept { self.new ≡ record self.old { text = self.new.text; lost = is_err result.1 } }
    {
        let (detached, answer) = feed_text(references, detached, &mut self.queue);
        self.lost = answer.is_err();
        (detached, answer)
    }
}
