//! What the tokenizer's calls make of a page that is read with places.
ghost use Rattle.std.specs.Prelude.{◌≡◌, IsNone};
ghost use Rattle.html5handle.specs.PlacedCalls.{PlacedEndSays, PlacedEnds, PlacedFeedSays, PlacedFeeds, PlacedRestarts};
ghost use Rattle.html5handle.specs.Slots.{cleaner_in, placed_in, policy_in, session_in};

use crate::opening::restart_placed;
use crate::options::Options;
use crate::slot::{PageSlot, status_of_error};
use crate::status;
use html5placed::PlacedSession;
use std::alloc::Global;
use std::mem;

// Feeds a piece of a page.
fn feed_page(session: PlacedSession<Global>, bytes: &[u8]) -> (PlacedSession<Global>, u32)
    ensures { PlacedFeedSays session result.0 bytes.now result.1 }
{
    if session.is_over() {
        return (session, status::OVER);
    }
    if !session.has_room(bytes.len()) {
        return (session, status::LIMIT);
    }
    let (session, result) = session.feed(bytes);
    match result {
        Ok(()) => (session, status::DONE),
        Err(error) => (session, status_of_error(error)),
    }
}

// Ends a page.
fn end_page(session: PlacedSession<Global>) -> (PlacedSession<Global>, u32)
    ensures { PlacedEndSays session result.0 result.1 }
{
    let (session, result) = session.end();
    match result {
        Ok(()) => (session, status::DONE),
        Err(error) => (session, status_of_error(error)),
    }
}

impl PageSlot {
    // The page that is read with places, if it has one: then it is lent out.
    fn take_placed(&mut self) -> Option<PlacedSession<Global>>
        ensures session { result ≡ placed_in self.old }
        ensures none { IsNone result → self.new ≡ self.old }
    {
        match mem::replace(self, PageSlot::Lent) {
            PageSlot::Placed(session) => Some(session),
            other => {
                *self = other;
                None
            }
        }
    }

    /// Feeds a piece of a page that is read with places.
    pub fn feed_placed(&mut self, bytes: &[u8]) -> u32
        ensures feeds { PlacedFeeds (placed_in self.old) (placed_in self.new) bytes.now result }
        ensures session { session_in self.new ≡ session_in self.old }
        ensures cleaner { cleaner_in self.new ≡ cleaner_in self.old }
        ensures policy { policy_in self.new ≡ policy_in self.old }
    {
        let Some(session) = self.take_placed() else {
            return status::CLOSED;
        };
        let (session, status) = feed_page(session, bytes);
        *self = PageSlot::Placed(session);
        status
    }

    /// Begins another page that is read with places.
    pub fn restart_placed(&mut self, alloc: Global, last_start_tag: &[u8], options: &Options) -> u32
        ensures restarts { PlacedRestarts (placed_in self.old) (placed_in self.new) last_start_tag.now options.now result }
        ensures session { session_in self.new ≡ session_in self.old }
        ensures cleaner { cleaner_in self.new ≡ cleaner_in self.old }
        ensures policy { policy_in self.new ≡ policy_in self.old }
    {
        let Some(session) = self.take_placed() else {
            return status::CLOSED;
        };
        let (session, status) = restart_placed(alloc, session, last_start_tag, options);
        *self = PageSlot::Placed(session);
        status
    }

    /// Ends a page that is read with places.
    pub fn end_placed(&mut self) -> u32
        ensures ends { PlacedEnds (placed_in self.old) (placed_in self.new) result }
        ensures session { session_in self.new ≡ session_in self.old }
        ensures cleaner { cleaner_in self.new ≡ cleaner_in self.old }
        ensures policy { policy_in self.new ≡ policy_in self.old }
    {
        let Some(session) = self.take_placed() else {
            return status::CLOSED;
        };
        let (session, status) = end_page(session);
        *self = PageSlot::Placed(session);
        status
    }
}
