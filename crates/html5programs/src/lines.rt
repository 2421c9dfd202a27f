//! The lines of a page's bytes.
ghost use Rattle.std.specs.Prelude.{◌≡◌, ◌≤◌, ◌++◌, ◌-◌, ◌^◌, [], length, min};
ghost use Rattle.decoded_source.specs.Lines.{line_at};
ghost use Rattle.html5programs.specs.Lines.{IsNear};

use decoded_source::line_ends;
use ghost_counts::Log;
use std::marker::Model;

/// How many bytes a piece has at most.
pub const CHUNK: usize = 4096;

/// The lines of bytes that come in pieces, of which the last is kept. A number past `u64::MAX` counts as `u64::MAX`.
#[derive(Drop)]
pub struct Lines {
    piece: [u8; CHUNK],
    count: usize,
    // Of the bytes before the last piece: how many they are, how many lines end in them, and whether they end in CR.
    start: u64,
    ends: u64,
    after_cr: bool,
    before: Log,
}

impl Model for Lines {
    ghost use Rattle.std.specs.Prelude.{◌≡◌, ◌≤◌, ◌-◌, ◌^◌, false, length, min, take};
    ghost use Rattle.decoded_source.specs.Lines.{ends_in_cr, line_ends};
    ghost use Rattle.html5programs.specs.Lines.{Pieces};

    ghost Value = { Pieces };

    ghost view = { λ l. record { before = l.before.bytes; last = take l.count l.piece } };

    ghost invariant = { λ l. (l.count ≤ 4096)
        × (l.start ≡ min (length l.before.bytes) (2 ^ 64 - 1))
        × (l.ends ≡ min (line_ends false l.before.bytes) (2 ^ 64 - 1))
        × (l.after_cr ≡ ends_in_cr false l.before.bytes) };
}

impl Lines {
    /// No bytes.
    pub fn new() -> Lines
        ensures { result ≡ record { before = []; last = [] } }
    {
        Lines {
            piece: [0; CHUNK],
            count: 0,
            start: 0,
            ends: 0,
            after_cr: false,
            before: Log::new(),
        }
    }

    /// Takes a piece.
    pub fn add(&mut self, piece: &[u8])
        requires { length piece.now ≤ 4096 }
        ensures { self.new ≡ record { before = self.old.before ++ self.old.last; last = piece.now } }
    {
        let last = &self.piece[..self.count];
        let ends = line_ends(self.after_cr, last);
        self.start = self.start.saturating_add(last.len() as u64);
        self.ends = self.ends.saturating_add(ends.count as u64);
        self.after_cr = ends.after_cr;
        self.before.add(last);
        self.piece[..piece.len()].copy_from_slice(piece);
        self.count = piece.len();
    }

    /// The line that a place is on which is in the last piece, or before it on the same line.
    pub fn line_at(&self, place: u64) -> u64
        ensures { IsNear place self.now → result ≡ min (line_at place (self.now.before ++ self.now.last)) (2 ^ 64 - 1) }
    {
        let within = (place.saturating_sub(self.start) as usize).min(self.count);
        let ends = line_ends(self.after_cr, &self.piece[..within]);
        self.ends
            .saturating_add(ends.count as u64)
            .saturating_add(1)
    }
}
