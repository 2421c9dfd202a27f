//! What a handle is of, over C's memory, and what the tokenizer's calls make of it.
ghost use Rattle.std.specs.Prelude.{◌≡◌, None, IsNone, is_some, option_map, string_bytes};
ghost use Rattle.html5handle.specs.Calls.{Feeds, Inserts, PageRestarts, RepliesTo, TellsForeign, Ends, Takes, fed_status, error_status, error_place, fits_in, over_in};
ghost use Rattle.html5handle.specs.PlacedCalls.{PlacedEnds, PlacedFeeds, PlacedRestarts, PlacedTakes, placed_limited};
ghost use Rattle.html5handle.specs.Slots.{cleaner_in, is_past, limited, placed_in, policy_in, session_in, status_where_open};
ghost use Rattle.html5session.specs.Session.{is_over};
ghost use Rattle.html5feed.specs.Feed.{reply_in};

use crate::ending::end_session;
use crate::opening::restart_session;
use crate::options::{Options, state_of};
use crate::status;
use html5cleaning::CleaningSession;
use html5placed::PlacedSession;
use html5policy::Policy;
use html5records::record_sink::PausedAt;
use html5session::{RecordSession, SessionError};
use markup5ever::tokenizer_result::TokenizerResult;
use std::alloc::Global;
use std::{mem, str};

/// What a handle is of.
#[derive(Drop)]
pub enum PageSlot {
    /// A page whose tokens are recorded.
    Tokenizer(RecordSession<Global>),
    /// A page whose tokens are recorded with their places.
    Placed(PlacedSession<Global>),
    /// A page that is cleaned.
    Cleaner(CleaningSession<Global>),
    /// A policy to which rules are added.
    Policy(Policy<Global>),
    /// Nothing, for the time of a call.
    Lent,
}

// The status of a feed that was not refused.
pub(crate) fn status_of_answer(answer: &TokenizerResult<PausedAt, String<Global>>) -> u32
    ensures { result ≡ fed_status (reply_in string_bytes answer.now) }
{
    match answer {
        TokenizerResult::Done => status::DONE,
        TokenizerResult::Script(PausedAt::Script) => status::SCRIPT,
        TokenizerResult::Script(PausedAt::Tag) => status::TAG,
        TokenizerResult::EncodingIndicator(_) => status::ENCODING,
    }
}

// The status of a call that was refused.
pub(crate) fn status_of_error(error: SessionError) -> u32
    ensures { result ≡ error_status error }
{
    match error {
        SessionError::Memory => status::NO_MEMORY,
        SessionError::NotUtf8 { .. } => status::NOT_UTF8,
        SessionError::Cut => status::CUT,
        SessionError::Waiting => status::WAITING,
        SessionError::ItemOpen => status::ITEM_OPEN,
        SessionError::Over => status::OVER,
    }
}

// Whether more is read, and this many bytes more would go past the limit.
fn goes_past_limit(session: &RecordSession<Global>, more: usize) -> bool
    ensures { result ≡ is_past (is_over session.now) (fits_in session.now more) }
{
    !session.is_over() && !fits_in(session, more)
}

// Whether this many bytes more are within the limit of a session.
fn fits_in(session: &RecordSession<Global>, more: usize) -> bool
    ensures { result ≡ fits_in session.now more }
{
    session.has_room(session.waiting_len(), more)
}

impl PageSlot {
    // The session, if it has one: then it is lent out.
    fn take_session(&mut self) -> Option<RecordSession<Global>>
        ensures session { result ≡ session_in self.old }
        ensures none { IsNone result → self.new ≡ self.old }
    {
        match mem::replace(self, PageSlot::Lent) {
            PageSlot::Tokenizer(session) => Some(session),
            other => {
                *self = other;
                None
            }
        }
    }

    // Whether it is a page whose tokens are recorded with their places.
    fn is_placed(&self) -> bool
        ensures { result ≡ is_some (placed_in self.now) }
    {
        matches!(self, PageSlot::Placed(_))
    }

    /// Feeds a piece.
    pub fn feed(&mut self, bytes: &[u8]) -> u32
        ensures feeds { placed_in self.old ≡ None → Feeds (session_in self.old) (session_in self.new) bytes.now result }
        ensures placed { PlacedFeeds (placed_in self.old) (placed_in self.new) bytes.now result }
        ensures other { cleaner_in self.new ≡ cleaner_in self.old }
        ensures policy { policy_in self.new ≡ policy_in self.old }
    {
        if self.is_placed() {
            self.feed_placed(bytes)
        } else {
            self.feed_recorded(bytes)
        }
    }

    // Feeds a piece of a page whose tokens are recorded.
    fn feed_recorded(&mut self, bytes: &[u8]) -> u32
        ensures feeds { Feeds (session_in self.old) (session_in self.new) bytes.now result }
        ensures other { cleaner_in self.new ≡ cleaner_in self.old }
        ensures placed { placed_in self.new ≡ placed_in self.old }
        ensures policy { policy_in self.new ≡ policy_in self.old }
    {
        let Some(session) = self.take_session() else {
            return status::CLOSED;
        };
        if goes_past_limit(&session, bytes.len()) {
            *self = PageSlot::Tokenizer(session);
            return status::LIMIT;
        }
        let (session, result) = session.feed(bytes);
        *self = PageSlot::Tokenizer(session);
        match result {
            Ok(answer) => status_of_answer(&answer),
            Err(error) => status_of_error(error),
        }
    }

    /// Begins another page whose tokens are recorded as those of this one, with their places or without.
    pub fn restart(&mut self, alloc: Global, last_start_tag: &[u8], options: &Options) -> u32
        ensures restarts { placed_in self.old ≡ None
            → PageRestarts (session_in self.old) (session_in self.new) last_start_tag.now options.now result }
        ensures placed { PlacedRestarts (placed_in self.old) (placed_in self.new) last_start_tag.now options.now result }
        ensures other { cleaner_in self.new ≡ cleaner_in self.old }
        ensures policy { policy_in self.new ≡ policy_in self.old }
    {
        if self.is_placed() {
            self.restart_placed(alloc, last_start_tag, options)
        } else {
            self.restart_recorded(alloc, last_start_tag, options)
        }
    }

    // Begins another page whose tokens are recorded.
    fn restart_recorded(&mut self, alloc: Global, last_start_tag: &[u8], options: &Options) -> u32
        ensures restarts { PageRestarts (session_in self.old) (session_in self.new) last_start_tag.now options.now result }
        ensures other { cleaner_in self.new ≡ cleaner_in self.old }
        ensures placed { placed_in self.new ≡ placed_in self.old }
        ensures policy { policy_in self.new ≡ policy_in self.old }
    {
        let Some(session) = self.take_session() else {
            return status::CLOSED;
        };
        let (session, status) = restart_session(alloc, session, last_start_tag, options);
        *self = PageSlot::Tokenizer(session);
        status
    }

    /// Puts a text in front of the waiting text.
    pub fn insert(&mut self, text: &[u8]) -> u32
        ensures inserts { Inserts (session_in self.old) (session_in self.new) text.now result }
        ensures other { cleaner_in self.new ≡ cleaner_in self.old }
        ensures placed { placed_in self.new ≡ placed_in self.old }
        ensures policy { policy_in self.new ≡ policy_in self.old }
    {
        let PageSlot::Tokenizer(session) = self else {
            return status::CLOSED;
        };
        if session.is_over() {
            return status::OVER;
        }
        if !fits_in(session, text.len()) {
            return status::LIMIT;
        }
        let Ok(text) = str::from_utf8(text) else {
            return status::NOT_UTF8;
        };
        match session.insert(text) {
            Ok(()) => status::DONE,
            Err(error) => status_of_error(error),
        }
    }

    /// Reads the rest in the state that the number names.
    pub fn reply(&mut self, state: u32) -> u32
        ensures replies { RepliesTo (session_in self.old) (session_in self.new) state result }
        ensures other { cleaner_in self.new ≡ cleaner_in self.old }
        ensures placed { placed_in self.new ≡ placed_in self.old }
        ensures policy { policy_in self.new ≡ policy_in self.old }
    {
        let PageSlot::Tokenizer(session) = self else {
            return status::CLOSED;
        };
        match state_of(state) {
            _ if session.is_over() => status::OVER,
            None => status::BAD_OPTION,
            Some(state) => match session.set_state(state) {
                Ok(()) => status::DONE,
                Err(error) => status_of_error(error),
            },
        }
    }

    /// Sets whether the current node is outside the HTML namespace.
    pub fn set_foreign(&mut self, foreign: bool) -> u32
        ensures sets { TellsForeign (session_in self.old) (session_in self.new) foreign result }
        ensures other { cleaner_in self.new ≡ cleaner_in self.old }
        ensures placed { placed_in self.new ≡ placed_in self.old }
        ensures policy { policy_in self.new ≡ policy_in self.old }
    {
        let PageSlot::Tokenizer(session) = self else {
            return status::CLOSED;
        };
        session.set_foreign(foreign);
        status::DONE
    }

    /// Sets how many bytes may be held.
    pub fn set_limit(&mut self, limit: u64) -> u32
        ensures session { session_in self.new ≡ option_map (limited limit) (session_in self.old) }
        ensures cleaner { cleaner_in self.new ≡ option_map (limited limit) (cleaner_in self.old) }
        ensures placed { placed_in self.new ≡ option_map (placed_limited limit) (placed_in self.old) }
        ensures status { result ≡ status_where_open (session_in self.old) (cleaner_in self.old) (placed_in self.old) }
        ensures policy { policy_in self.new ≡ policy_in self.old }
    {
        match self {
            PageSlot::Tokenizer(session) => session.set_limit(limit),
            PageSlot::Placed(session) => session.set_limit(limit),
            PageSlot::Cleaner(session) => session.set_limit(limit),
            PageSlot::Policy(_) | PageSlot::Lent => return status::CLOSED,
        }
        status::DONE
    }

    /// Ends the page.
    pub fn end(&mut self) -> u32
        ensures ends { placed_in self.old ≡ None → Ends (session_in self.old) (session_in self.new) result }
        ensures placed { PlacedEnds (placed_in self.old) (placed_in self.new) result }
        ensures other { cleaner_in self.new ≡ cleaner_in self.old }
        ensures policy { policy_in self.new ≡ policy_in self.old }
    {
        if self.is_placed() {
            self.end_placed()
        } else {
            self.end_recorded()
        }
    }

    // Ends a page whose tokens are recorded.
    fn end_recorded(&mut self) -> u32
        ensures ends { Ends (session_in self.old) (session_in self.new) result }
        ensures other { cleaner_in self.new ≡ cleaner_in self.old }
        ensures placed { placed_in self.new ≡ placed_in self.old }
        ensures policy { policy_in self.new ≡ policy_in self.old }
    {
        let Some(session) = self.take_session() else {
            return status::CLOSED;
        };
        let (session, status) = end_session(session);
        *self = PageSlot::Tokenizer(session);
        status
    }

    /// Takes the next bytes of the records.
    pub fn take(&mut self, out: &mut [u8]) -> usize
        ensures takes { placed_in self.old ≡ None → Takes (session_in self.old) (session_in self.new) out.old out.new result }
        ensures placed { PlacedTakes (placed_in self.old) (placed_in self.new) out.old out.new result }
        ensures other { cleaner_in self.new ≡ cleaner_in self.old }
        ensures policy { policy_in self.new ≡ policy_in self.old }
    {
        match self {
            PageSlot::Tokenizer(session) => session.take(out),
            PageSlot::Placed(session) => session.take(out),
            _ => 0,
        }
    }

    /// Where the bytes of the last refused piece stop being UTF-8.
    pub fn error_at(&self) -> u64
        ensures { result ≡ error_place (session_in self.now) (placed_in self.now) }
    {
        match self {
            PageSlot::Tokenizer(session) => session.error_at().unwrap_or(0),
            PageSlot::Placed(session) => session.error_at().unwrap_or(0),
            _ => 0,
        }
    }

    /// Whether nothing more is read.
    pub fn is_over(&self) -> bool
        ensures { result ≡ over_in (session_in self.now) (placed_in self.now) }
    {
        match self {
            PageSlot::Tokenizer(session) => session.is_over(),
            PageSlot::Placed(session) => session.is_over(),
            _ => false,
        }
    }
}
