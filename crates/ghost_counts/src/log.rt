//! Bytes that contracts alone see.
ghost use Rattle.std.specs.Prelude.{◌≡◌, [], ◌++◌};

use crate::noted::{Follows, Noted, note};
use std::marker::Model;

/// Bytes that contracts alone see. It has none at run time.
#[derive(Drop)]
pub struct Log {
    noted: Noted<Bytes>,
}

impl Model for Log {
    ghost use Rattle.ghost_counts.specs.Values.{Logged};

    ghost Value = { Logged };

    ghost view = { λ log. record { bytes = log.noted.value } };
}

// Stands for the bytes that a log can have.
struct Bytes {}

impl Model for Bytes {
    ghost use Rattle.std.specs.Prelude.{ℕ, List, []};

    ghost Value = { List ℕ };

    ghost view = { λ _. [] };
}

impl Follows<(), ()> for Bytes {
    ghost follows = { λ _ _. [] };
}

impl<'a> Follows<Log, &'a [u8]> for Bytes {
    ghost follows = { λ log more. log.bytes ++ more.now };
}

impl Log {
    /// A log of no bytes.
    pub fn new() -> Log
        ensures { result.bytes ≡ [] }
    {
        Log {
            noted: note(&(), &()),
        }
    }

    /// Adds bytes, which are not read.
    pub fn add(&mut self, more: &[u8])
        ensures { self.new.bytes ≡ self.old.bytes ++ more.now }
    {
        self.noted = note(self, &more);
    }
}
