//! Sessions whose sink writes records.
ghost use Rattle.std.specs.Prelude.{◌≡◌, ◌++◌, length, take, drop, min};
ghost use Rattle.html5records.specs.Recording.{waiting};
ghost use Rattle.html5session.specs.RecordSessions.{SetsForeign, StandsOn, after_session_takes, recorded_by};

use crate::session::Session;
use html5records::record_sink::RecordSink;
use std::alloc::{Allocator, Global};

/// A session whose tokens are written as records. They wait until they are taken.
pub type RecordSession<A = Global> = Session<RecordSink<A>, A>;

impl<A: Allocator> Session<RecordSink<A>, A> {
    /// How many bytes of the records wait.
    pub fn waiting_len(&self) -> usize
        ensures { result ≡ length (waiting (recorded_by self.now)) }
    {
        self.detached.sink.waiting().len()
    }

    /// Takes the next bytes of the records, as many as wait and as there is room for. It answers how
    /// many. A record may be cut in two: what is left of it comes first at the next call.
    pub fn take(&mut self, into: &mut [u8]) -> usize
        ensures count { result ≡ min (length into.old) (length (waiting (recorded_by self.old))) }
        ensures copied { into.new ≡ take result (waiting (recorded_by self.old)) ++ drop result into.old }
        ensures taken { self.new ≡ after_session_takes self.old result }
        ensures stands { StandsOn self.old self.new result }
    {
        self.detached.sink.take(into)
    }

    /// Sets whether the current node is outside the HTML namespace, so that `<![CDATA[` begins a section from
    /// here on. A tree builder that replies to each tag sets it before it goes on, where its answer changes.
    pub fn set_foreign(&mut self, foreign: bool)
        ensures { SetsForeign self.old self.new foreign }
    {
        self.detached.sink.set_foreign(foreign);
    }
}
