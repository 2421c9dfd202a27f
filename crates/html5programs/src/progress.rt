//! How far a page was read, for who waits for it.
use std::io::IsTerminal;
use std::rt::HostRuntime;
use std::time::Instant;

/// What shows how many bytes of a page were read.
pub trait Meter: Drop {
    /// Takes note of bytes that were read.
    fn add(&mut self, count: usize);

    /// Takes away what it shows.
    fn clear(&mut self);
}

/// What makes meters.
pub trait Meters {
    type Meter: Meter;

    /// A meter of a page that begins here, where one can be shown.
    fn meter(&self) -> Option<Self::Meter>;
}

// How many milliseconds a line stands at least.
const PAUSE: u64 = 100;

/// A line on a terminal: how many megabytes were read, and how many a second.
#[derive(Drop)]
pub struct TerminalLine {
    rt: HostRuntime,
    begun: Instant,
    count: u64,
    // When the line was written that is shown, in milliseconds since it was begun, and 0 if none is.
    shown_at: u64,
}

impl TerminalLine {
    // How many milliseconds ago it was begun.
    fn age(&self) -> Option<u64> {
        let age = self.begun.elapsed(&self.rt).ok()?;
        u64::try_from(age.as_millis()).ok()
    }
}

impl Meter for TerminalLine {
    fn add(&mut self, count: usize) {
        self.count = self.count.saturating_add(count as u64);
        let Some(age) = self.age() else {
            return;
        };
        if age < self.shown_at.saturating_add(PAUSE) {
            return;
        }
        self.shown_at = age;
        let tenths = self.count / 100_000;
        let rate = self.count / age.max(1) / 1000;
        let _ = eprint!(self.rt; "\r{}.{} MB, {rate} MB/s\x1b[K", tenths / 10, tenths % 10);
    }

    fn clear(&mut self) {
        if self.shown_at > 0 {
            let _ = eprint!(self.rt; "\r\x1b[K");
        }
    }
}

impl Meters for HostRuntime {
    type Meter = TerminalLine;

    fn meter(&self) -> Option<TerminalLine> {
        if !self.stderr().is_terminal() {
            return None;
        }
        let begun = Instant::now(self).ok()?;
        Some(TerminalLine {
            rt: *self,
            begun,
            count: 0,
            shown_at: 0,
        })
    }
}
