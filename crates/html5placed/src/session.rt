//! A page that is read with the places of its tokens as its bytes arrive.
ghost use Rattle.std.specs.Prelude.{◌≡◌, ◌≢◌, ◌↔◌, ◌++◌, ◌-◌, ◌^◌, [], false, true, is_err, length, take, drop, min, Err, IfErr, IsErrAnd, OnErr, OnOk};
ghost use Rattle.std.specs.Str.{chars};
ghost use Rattle.html5ever.specs.Tokenizer.{rules_of};
ghost use Rattle.html5ever_interface.specs.Options.{options_of};
ghost use Rattle.html5feed.specs.Starting.{CanStart};
ghost use Rattle.html5placed.specs.PlacedRecords.{WritesOn, after_taking, nothing_written, placed_step, waiting};
ghost use Rattle.html5placed.specs.PlacedSessions.{EndRefused, Ends, FeedRefused, Feeds, LosesPage, StandsIn, has_room, is_over, reading_in, reading_with};
ghost use Rattle.html5places.specs.Readers.{Reads, ReadsEnd, StopsAtEnd, StopsWithin};
ghost use Rattle.html5reading.specs.Start.{start_of};
ghost use Rattle.utf8_pieces.specs.Pieces.{IsNeverUtf8};

use crate::placed_records::PlacedRecords;
use html5ever::tokenizer::{NamedReferences, TokenizerOpts};
use html5places::{DetachedPlaceReader, PlaceReader};
use html5session::SessionError;
use std::alloc::{Allocator, Global};
use std::marker::Model;
use utf8_pieces::{DecodeError, Decoder};

/// A page that is read as its bytes arrive, with the places of its tokens, which are written as records. They wait until they
/// are taken. The replies to tags are the standard's, and it never pauses.
#[derive(Drop)]
pub struct PlacedSession<A: Allocator = Global> {
    alloc: A,
    references: NamedReferences<A>,
    reader: DetachedPlaceReader<A>,
    records: PlacedRecords<A>,
    decoder: Decoder,
    error_at: Option<u64>,
    limit: u64,
}

impl<A: Allocator> Model for PlacedSession<A> {
    ghost use Rattle.html5placed.specs.PlacedSessions.{PlacedSessionOf};

    ghost Value = { PlacedSessionOf };

    ghost view = { λ s. record {
      references = s.references;
      reader = s.reader;
      records = s.records;
      decoder = s.decoder;
      error_at = s.error_at;
      limit = s.limit;
    } };
}

// Reads a text on.
fn read_text<A: Allocator + Copy>(
    references: &NamedReferences<A>,
    reader: DetachedPlaceReader<A>,
    records: &mut PlacedRecords<A>,
    text: &str,
) -> (DetachedPlaceReader<A>, Result<(), SessionError>)
    ensures reads { OnOk result.1 (Reads placed_step (reading_with reader references.now)
        (reading_with result.0 references.now) records.old records.new (chars text.now)) }
    ensures stops { OnErr result.1 (StopsWithin placed_step (reading_with reader references.now)
        records.old records.new (chars text.now)) }
    ensures memory { IfErr result.1 (λ error. error ≡ SessionError.Memory) }
    ensures over { result.0.over ≡ is_err result.1 }
    ensures exact { result.0.exact ≡ reader.exact }
    ensures on { WritesOn records.old records.new }
{
    let mut reader = reader.attach(references);
    let result = reader.read(text, records);
    let reader = reader.detach();
    match result {
        Ok(()) => (reader, Ok(())),
        Err(_) => (reader, Err(SessionError::Memory)),
    }
}

// Reads the end.
fn read_end<A: Allocator + Copy>(
    references: &NamedReferences<A>,
    reader: DetachedPlaceReader<A>,
    records: &mut PlacedRecords<A>,
) -> (DetachedPlaceReader<A>, Result<(), SessionError>)
    ensures reads { OnOk result.1 (ReadsEnd placed_step (reading_with reader references.now)
        records.old records.new) }
    ensures stops { OnErr result.1 (StopsAtEnd placed_step (reading_with reader references.now)
        records.old records.new) }
    ensures memory { IfErr result.1 (λ error. error ≡ SessionError.Memory) }
    ensures over { result.0.over ≡ true }
    ensures on { WritesOn records.old records.new }
{
    let mut reader = reader.attach(references);
    let result = reader.end(records);
    let reader = reader.detach();
    match result {
        Ok(()) => (reader, Ok(())),
        Err(_) => (reader, Err(SessionError::Memory)),
    }
}

impl<A: Allocator> PlacedSession<A> {
    /// Whether nothing more is read: a call failed, or the page has ended. The records can still be taken.
    pub fn is_over(&self) -> bool
        ensures { result ≡ is_over self.now }
    {
        self.reader.is_over()
    }

    /// Where those bytes are that were last said to be no UTF-8, counted from the first byte of the first piece.
    pub fn error_at(&self) -> Option<u64>
        ensures { result ≡ self.now.error_at }
    {
        self.error_at
    }

    /// Sets how many bytes may be held. It is for the caller to ask (`has_room`) before a piece is fed.
    pub fn set_limit(&mut self, limit: u64)
        ensures { self.new ≡ record self.old { limit = limit } }
    {
        self.limit = limit;
    }

    /// How many bytes may be held.
    pub fn limit(&self) -> u64
        ensures { result ≡ self.now.limit }
    {
        self.limit
    }

    /// How many bytes of the records wait.
    pub fn waiting_len(&self) -> usize
        ensures { result ≡ length (waiting self.now.records) }
    {
        self.records.waiting().len()
    }

    /// Takes the next bytes of the records, as many as wait and as there is room for. It answers how many. A record may be
    /// cut in two: what is left of it comes first at the next call.
    pub fn take(&mut self, into: &mut [u8]) -> usize
        ensures count { result ≡ min (length into.old) (length (waiting self.old.records)) }
        ensures copied { into.new ≡ take result (waiting self.old.records) ++ drop result into.old }
        ensures taken { self.new ≡ record self.old { records = after_taking self.old.records result } }
    {
        self.records.take(into)
    }
}

impl<A: Allocator + Copy> PlacedSession<A> {
    /// A session at the start of a page, which reads named references by the table.
    pub fn new(alloc: A, references: NamedReferences<A>, opts: TokenizerOpts<A>) -> PlacedSession<A>
        requires { CanStart opts.initial_state }
        ensures stands { StandsIn result (start_of (options_of opts)) [] }
        ensures rules { (reading_in result).rules ≡ rules_of (options_of opts) references }
        ensures records { result.records ≡ nothing_written }
        ensures references { result.references ≡ references }
        ensures limit { result.limit ≡ 2 ^ 64 - 1 }
        ensures going_on { is_over result ≡ false }
    {
        let reader = PlaceReader::new(alloc, &references, opts).detach();
        PlacedSession {
            alloc,
            references,
            reader,
            records: PlacedRecords::new(alloc),
            decoder: Decoder::new(),
            error_at: None,
            limit: u64::MAX,
        }
    }

    /// A session at the start of another page, by the same table and limit. Records that were not taken are gone.
    pub fn restart(self, opts: TokenizerOpts<A>) -> PlacedSession<A>
        requires { CanStart opts.initial_state }
        ensures stands { StandsIn result (start_of (options_of opts)) [] }
        ensures rules { (reading_in result).rules ≡ rules_of (options_of opts) self.references }
        ensures records { result.records ≡ nothing_written }
        ensures references { result.references ≡ self.references }
        ensures limit { result.limit ≡ self.limit }
        ensures going_on { is_over result ≡ false }
    {
        let PlacedSession {
            alloc,
            references,
            reader: _,
            records: _,
            decoder: _,
            error_at: _,
            limit,
        } = self;
        let mut next = PlacedSession::new(alloc, references, opts);
        next.set_limit(limit);
        next
    }

    /// Whether a piece of this many bytes is within the limit (`set_limit`). Held bytes count: those read since the
    /// last token other than an error ended, and the records that wait.
    pub fn has_room(&self, more: usize) -> bool
        ensures { result ≡ has_room self.now more }
    {
        let held = self.reader.place().saturating_sub(self.records.passed()) as u64;
        let held = held.saturating_add(self.waiting_len() as u64);
        held.saturating_add(more as u64) <= self.limit
    }

    // Reads a text on.
    fn read_on(self, text: &str) -> (PlacedSession<A>, Result<(), SessionError>)
        ensures reads { OnOk result.1 (Reads placed_step (reading_in self) (reading_in result.0)
            self.records result.0.records (chars text.now)) }
        ensures stops { OnErr result.1 (StopsWithin placed_step (reading_in self)
            self.records result.0.records (chars text.now)) }
        ensures memory { IfErr result.1 (λ error. error ≡ SessionError.Memory) }
        ensures over { is_over result.0 ≡ is_err result.1 }
        ensures exact { result.0.reader.exact ≡ self.reader.exact }
        ensures on { WritesOn self.records result.0.records }
        ensures kept { result.0 ≡ record self { reader = result.0.reader; records = result.0.records } }
    {
        let PlacedSession {
            alloc,
            references,
            reader,
            mut records,
            decoder,
            error_at,
            limit,
        } = self;
        let (reader, result) = read_text(&references, reader, &mut records, text);
        let session = PlacedSession {
            alloc,
            references,
            reader,
            records,
            decoder,
            error_at,
            limit,
        };
        (session, result)
    }

    // Reads the front of a piece, up to bytes that are not UTF-8, and says their place.
    fn feed_front(mut self, bytes: &[u8]) -> (PlacedSession<A>, Result<(), SessionError>)
        requires refused { IsNeverUtf8 (self.decoder.held ++ bytes.now) }
        requires going_on { is_over self ≡ false }
        ensures refused { IfErr result.1 (λ error. FeedRefused self result.0 bytes.now error) }
        ensures err { IsErrAnd result.1 (λ error. error ≢ SessionError.Over) }
        ensures on { WritesOn self.records result.0.records }
        ensures rules { (reading_in result.0).rules ≡ (reading_in self).rules }
        ensures references { result.0.references ≡ self.references }
        ensures limit { result.0.limit ≡ self.limit }
    {
        let Ok(text) = self.decoder.decode_front(self.alloc, bytes) else {
            return (self, Err(SessionError::Memory));
        };
        let (mut session, read) = self.read_on(&text);
        let Ok(()) = read else {
            return (session, Err(SessionError::Memory));
        };
        let valid_up_to = session.decoder.taken();
        session.error_at = Some(valid_up_to);
        (session, Err(SessionError::NotUtf8 { valid_up_to }))
    }

    /// Takes a piece of the page, cut anywhere, and reads on.
    ///
    /// Where bytes of the piece are not UTF-8, whatever follows, those before them are read, and then the answer is
    /// `NotUtf8`. Neither the invalid bytes nor those after them are taken, and the next feed goes on with what is to
    /// stand in their place. After `Memory` the session is as it was, or it is over and the piece is lost. That is also
    /// the answer where the places of the page no longer fit in a `usize`.
    pub fn feed(mut self, bytes: &[u8]) -> (PlacedSession<A>, Result<(), SessionError>)
        ensures feeds { OnOk result.1 (Feeds self result.0 bytes.now) }
        ensures refused { IfErr result.1 (λ error. FeedRefused self result.0 bytes.now error) }
        ensures over { (result.1 ≡ Err SessionError.Over) ↔ (is_over self ≡ true) }
        ensures going_on { OnOk result.1 (is_over result.0 ≡ false) }

        // What it keeps.
        ensures on { WritesOn self.records result.0.records }
        ensures rules { (reading_in result.0).rules ≡ (reading_in self).rules }
        ensures references { result.0.references ≡ self.references }
        ensures limit { result.0.limit ≡ self.limit }
    {
        if self.is_over() {
            return (self, Err(SessionError::Over));
        }
        match self.decoder.decode(self.alloc, bytes) {
            Ok(text) => {
                let (session, read) = self.read_on(&text);
                match read {
                    Ok(()) => (session, Ok(())),
                    Err(_) => (session, Err(SessionError::Memory)),
                }
            }
            Err(DecodeError::Memory) => (self, Err(SessionError::Memory)),
            Err(DecodeError::NotUtf8 { .. }) => self.feed_front(bytes),
        }
    }

    // Reads the end.
    fn end_read(self) -> (PlacedSession<A>, Result<(), SessionError>)
        requires { self.decoder.held ≡ [] }
        ensures ends { OnOk result.1 (Ends self result.0) }
        ensures loses { OnErr result.1 (LosesPage self result.0 []) }
        ensures memory { IfErr result.1 (λ error. error ≡ SessionError.Memory) }
        ensures over { is_over result.0 ≡ true }
        ensures on { WritesOn self.records result.0.records }
        ensures references { result.0.references ≡ self.references }
        ensures limit { result.0.limit ≡ self.limit }
    {
        let PlacedSession {
            alloc,
            references,
            reader,
            mut records,
            decoder,
            error_at,
            limit,
        } = self;
        let (reader, result) = read_end(&references, reader, &mut records);
        let session = PlacedSession {
            alloc,
            references,
            reader,
            records,
            decoder,
            error_at,
            limit,
        };
        match result {
            Ok(()) => (session, Ok(())),
            Err(_) => (session, Err(SessionError::Memory)),
        }
    }

    /// Ends the page. Where its bytes end within a character it is refused with `Cut`, and changes nothing.
    pub fn end(self) -> (PlacedSession<A>, Result<(), SessionError>)
        ensures ends { OnOk result.1 (Ends self result.0) }
        ensures refused { IfErr result.1 (λ error. EndRefused self result.0 error) }
        ensures over { (result.1 ≡ Err SessionError.Over) ↔ (is_over self ≡ true) }
        ensures ended { OnOk result.1 (is_over result.0 ≡ true) }

        // What it keeps.
        ensures on { WritesOn self.records result.0.records }
        ensures references { result.0.references ≡ self.references }
        ensures limit { result.0.limit ≡ self.limit }
    {
        if self.is_over() {
            return (self, Err(SessionError::Over));
        }
        if !self.decoder.is_complete() {
            return (self, Err(SessionError::Cut));
        }
        self.end_read()
    }
}
