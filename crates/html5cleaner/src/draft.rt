//! The kept part of one token, before it is put where it belongs.
ghost use Rattle.std.specs.Prelude.{◌≡◌, []};
ghost use Rattle.html5ever_interface.specs.Token.{told_by};
ghost use Rattle.html5cleaner.specs.Balance.{is_end, open_by, written_by};
ghost use Rattle.html5cleaner.specs.Clean.{kept_where};
ghost use Rattle.html5cleaner.specs.Kept.{Settles};
ghost use Rattle.html5cleaner.specs.Settled.{names_in};
ghost use Rattle.html5cleaner.specs.Shape.{shape_of};

use crate::cleaner::keep_where;
use crate::opened::{Opened, Pending};
use html5ever_interface::interface::token::Token;
use html5policy::Policy;
use html5write::{WriteError, Writer};
use std::alloc::Allocator;

/// The kept part of one run of text and the token after it. Its memory serves for the next ones.
#[derive(Drop)]
pub struct Draft<A: Allocator> {
    alloc: A,
    pub page: Writer<A>,
}

impl<A: Allocator + Copy> Draft<A> {
    /// Nothing is kept yet.
    pub fn new(alloc: A) -> Draft<A> {
        Draft {
            alloc,
            page: Writer::new(alloc),
        }
    }

    /// Where the memory comes from.
    pub fn allocator(&self) -> A {
        self.alloc
    }

    /// Holds the kept part of a run of text and the token after it, and nothing from before, when this many
    /// elements hide their content.
    pub fn keep(
        &mut self,
        policy: &Policy<A>,
        depth: u64,
        opened: &mut Opened<A>,
        run: &str,
        token: &Token<A>,
    ) -> Result<Pending, WriteError>
        requires { opened.old.tree.limit ≡ policy.now.depth }
        ensures { Settles (shape_of policy.now) result [] self.new.page opened.old opened.new
            (written_by (shape_of policy.now) (is_end (told_by token.now)) (names_in (shape_of policy.now) opened.old)
            (kept_where policy.now depth run.now (told_by token.now)))
            (open_by (shape_of policy.now) (is_end (told_by token.now)) (names_in (shape_of policy.now) opened.old)
            (kept_where policy.now depth run.now (told_by token.now))) }
    {
        self.page.clear();
        keep_where(
            self.alloc,
            policy,
            depth,
            opened,
            &mut self.page,
            run,
            token,
        )
    }
}
