//! Whole numbers that contracts alone see.
ghost use Rattle.std.specs.Prelude.{◌≡◌, ◌+◌, length};
ghost use Rattle.std.specs.Str.{chars};

use crate::noted::{Follows, Noted, note};
use std::marker::Model;

/// An unbounded whole number that contracts alone see. It has no bytes at run time.
#[derive(Drop)]
pub struct Count {
    noted: Noted<Number>,
}

impl Model for Count {
    ghost use Rattle.ghost_counts.specs.Values.{Counted};

    ghost Value = { Counted };

    ghost view = { λ count. record { total = count.noted.value } };
}

// Stands for the numbers that a count can have.
struct Number {}

impl Model for Number {
    ghost use Rattle.std.specs.Prelude.{ℕ};

    ghost Value = { ℕ };

    ghost view = { λ _. 0 };
}

impl Follows<(), ()> for Number {
    ghost follows = { λ _ _. 0 };
}

impl Follows<Count, usize> for Number {
    ghost follows = { λ count n. count.total + n };
}

impl<'a> Follows<Count, &'a str> for Number {
    ghost follows = { λ count text. count.total + length (chars text.now) };
}

impl Count {
    /// A count of 0.
    pub fn new() -> Count
        ensures { result.total ≡ 0 }
    {
        Count {
            noted: note(&(), &()),
        }
    }

    /// Raises the count by `n`.
    pub fn add(&mut self, n: usize)
        ensures { self.new.total ≡ self.old.total + n }
    {
        self.noted = note(self, &n);
    }

    /// The count and one more for each character of the text, which is not read.
    pub fn with_chars(&self, text: &str) -> Count
        ensures { result.total ≡ self.now.total + length (chars text.now) }
    {
        Count {
            noted: note(self, &text),
        }
    }
}
