//! The elements that are open.
ghost use Rattle.std.specs.Prelude.{◌≡◌, [], ◌∷◌, OnOk, OnErr, chars, drop, length};
ghost use Rattle.html5cleaner.specs.Open.{closed_by, names_of};

use crate::counts::{Entry, count_of, lower, raise};
use crate::names::reach;
use std::alloc::{AllocError, Allocator};
use std::marker::Model;

/// The elements that are open. Contracts see their names, innermost first. How many there are of each
/// name is counted, so that an end tag without a start tag is known at once.
#[derive(Drop)]
pub struct OpenElements<A: Allocator> {
    alloc: A,
    // Innermost last.
    names: Vec<String<A>, A>,
    counts: Vec<Entry<A>, A>,
}

impl<A: Allocator> Model for OpenElements<A> {
    ghost use Rattle.std.specs.Prelude.{◌≡◌, ℕ, List};
    ghost use Rattle.html5cleaner.specs.Open.{names_of};
    ghost use Rattle.html5cleaner.specs.Counts.{count_of, occurrences};

    ghost Value = { List (List ℕ) };

    ghost view = { λ o. names_of o.names.items };

    ghost invariant = { λ o. (name : List ℕ) → count_of o.counts.items name ≡ occurrences (names_of o.names.items) name };
}

impl<A: Allocator + Copy> OpenElements<A> {
    /// None is open.
    pub fn none(alloc: A) -> OpenElements<A>
        ensures { result ≡ [] }
    {
        OpenElements {
            alloc,
            names: Vec::new(alloc),
            counts: Vec::new(alloc),
        }
    }

    /// How many there are.
    pub fn len(&self) -> usize
        ensures { result ≡ length self.now }
    {
        self.names.len()
    }

    /// Their names, innermost last.
    pub fn names(&self) -> &[String<A>]
        ensures { names_of result.now ≡ self.now }
    {
        &self.names
    }

    /// How many an end tag of this name closes.
    pub fn closed_by(&self, name: &str) -> usize
        ensures { result ≡ closed_by self.now (chars name.now) }
    {
        if count_of(&self.counts, name) == 0 {
            return 0;
        }
        reach(&self.names, name)
    }

    /// Opens an element of this name inside the others.
    pub fn push(&mut self, name: &str) -> Result<(), AllocError>
        ensures ok { OnOk result (self.new ≡ chars name.now ∷ self.old) }
        ensures err { OnErr result (self.new ≡ self.old) }
    {
        let owned = String::from_str(self.alloc, name)?;
        raise(self.alloc, &mut self.counts, name)?;
        match self.names.push(owned) {
            Ok(()) => Ok(()),
            Err(_) => {
                lower(&mut self.counts, name);
                Err(AllocError)
            }
        }
    }

    // Closes the innermost one, if there is one.
    fn pop(&mut self)
        ensures { self.new ≡ drop 1 self.old }
    {
        if let Some(name) = self.names.pop() {
            lower(&mut self.counts, name.as_str());
        }
    }

    /// Closes this many of them, or all if there are fewer.
    pub fn close(&mut self, count: usize)
        ensures { self.new ≡ drop count self.old }
    {
        for _ in 0..count {
            self.pop();
        }
    }
}
