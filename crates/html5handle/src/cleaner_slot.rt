//! What the cleaner's calls make of what a handle is of.
ghost use Rattle.std.specs.Prelude.{◌≡◌, IsNone};
ghost use Rattle.html5handle.specs.CleanerCalls.{CleanerEnds, CleanerFeeds, CleanerTakes, Restarts, cleaner_error_place, cleaner_over_in};
ghost use Rattle.html5handle.specs.Slots.{cleaner_in, is_past, placed_in, policy_in, session_in};
ghost use Rattle.html5cleaning.specs.Cleaning.{fits_in};
ghost use Rattle.html5session.specs.Session.{is_over};

use crate::slot::{PageSlot, status_of_error};
use crate::status;
use html5cleaning::CleaningSession;
use std::alloc::Global;
use std::mem;

// Whether more is read, and this many bytes more would go past the limit.
fn goes_past_limit(session: &CleaningSession<Global>, more: usize) -> bool
    ensures { result ≡ is_past (is_over session.now) (fits_in session.now more) }
{
    !session.is_over() && !session.has_room(more)
}

impl PageSlot {
    // The page that is cleaned, if it has one: then it is lent out.
    fn take_cleaner(&mut self) -> Option<CleaningSession<Global>>
        ensures session { result ≡ cleaner_in self.old }
        ensures none { IsNone result → self.new ≡ self.old }
    {
        match mem::replace(self, PageSlot::Lent) {
            PageSlot::Cleaner(session) => Some(session),
            other => {
                *self = other;
                None
            }
        }
    }

    /// Begins another page, by the same policy.
    pub fn restart_cleaner(&mut self) -> u32
        ensures restarts { Restarts (cleaner_in self.old) (cleaner_in self.new) result }
        ensures other { session_in self.new ≡ session_in self.old }
        ensures placed { placed_in self.new ≡ placed_in self.old }
        ensures policy { policy_in self.new ≡ policy_in self.old }
    {
        let Some(session) = self.take_cleaner() else {
            return status::CLOSED;
        };
        *self = PageSlot::Cleaner(session.restart());
        status::DONE
    }

    /// Feeds a piece.
    pub fn feed_cleaner(&mut self, bytes: &[u8]) -> u32
        ensures feeds { CleanerFeeds (cleaner_in self.old) (cleaner_in self.new) bytes.now result }
        ensures other { session_in self.new ≡ session_in self.old }
        ensures placed { placed_in self.new ≡ placed_in self.old }
        ensures policy { policy_in self.new ≡ policy_in self.old }
    {
        let Some(session) = self.take_cleaner() else {
            return status::CLOSED;
        };
        if goes_past_limit(&session, bytes.len()) {
            *self = PageSlot::Cleaner(session);
            return status::LIMIT;
        }
        let (session, result) = session.feed(bytes);
        *self = PageSlot::Cleaner(session);
        match result {
            Ok(()) => status::DONE,
            Err(error) => status_of_error(error),
        }
    }

    /// Ends the page.
    pub fn end_cleaner(&mut self) -> u32
        ensures ends { CleanerEnds (cleaner_in self.old) (cleaner_in self.new) result }
        ensures other { session_in self.new ≡ session_in self.old }
        ensures placed { placed_in self.new ≡ placed_in self.old }
        ensures policy { policy_in self.new ≡ policy_in self.old }
    {
        let Some(session) = self.take_cleaner() else {
            return status::CLOSED;
        };
        let (session, result) = session.end();
        *self = PageSlot::Cleaner(session);
        match result {
            Ok(()) => status::DONE,
            Err(error) => status_of_error(error),
        }
    }

    /// Takes the next bytes of the kept part.
    pub fn take_cleaned(&mut self, out: &mut [u8]) -> usize
        ensures takes { CleanerTakes (cleaner_in self.old) (cleaner_in self.new) out.old out.new result }
        ensures other { session_in self.new ≡ session_in self.old }
        ensures placed { placed_in self.new ≡ placed_in self.old }
        ensures policy { policy_in self.new ≡ policy_in self.old }
    {
        match self {
            PageSlot::Cleaner(session) => session.take(out),
            _ => 0,
        }
    }

    /// Where the bytes of the last refused piece stop being UTF-8.
    pub fn cleaner_error_at(&self) -> u64
        ensures { result ≡ cleaner_error_place (cleaner_in self.now) }
    {
        match self {
            PageSlot::Cleaner(session) => session.error_at().unwrap_or(0),
            _ => 0,
        }
    }

    /// Whether nothing more is read.
    pub fn is_cleaner_over(&self) -> bool
        ensures { result ≡ cleaner_over_in (cleaner_in self.now) }
    {
        match self {
            PageSlot::Cleaner(session) => session.is_over(),
            _ => false,
        }
    }
}
