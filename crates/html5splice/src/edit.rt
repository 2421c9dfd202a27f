//! What takes the place of runs and of tokens.
ghost use Rattle.std.specs.Prelude.{◌≡◌};
ghost use Rattle.html5splice.specs.Edits.{edits_by, no_edits};

use std::alloc::{Allocator, Global};

/// What happens to a run of text, or to a token.
#[derive(Drop)]
pub enum Edit<A: Allocator = Global> {
    /// It stays unchanged, to the byte.
    Keep,
    /// This text takes its place. It is written as it is: what is to be read as text is escaped by who replaces.
    Replace(String<A>),
}

/// What happens to a run of text and to the token after it.
#[derive(Drop)]
pub struct Edits<A: Allocator = Global> {
    pub run: Edit<A>,
    pub token: Edit<A>,
}

impl<A: Allocator> Edits<A> {
    /// Both stay.
    pub fn none() -> Edits<A>
        ensures { edits_by result ≡ no_edits }
    {
        Edits {
            run: Edit::Keep,
            token: Edit::Keep,
        }
    }
}
