//! The open elements of a page.
ghost use Rattle.std.specs.Prelude.{◌≡◌, []};
ghost use Rattle.html5tree.specs.Nested.{nothing_nested};
ghost use Rattle.html5cleaner.specs.Settled.{names_in, settled, undone};
ghost use Rattle.html5cleaner.specs.Shape.{Shape};

use crate::balance::Change;
use crate::open_elements::OpenElements;
use html5tree::nesting::Nesting;
use std::alloc::Allocator;
use std::mem;

/// The open elements of a page: by its tags, or in the tree that is built of it.
#[derive(Drop)]
pub struct Opened<A: Allocator> {
    pub tags: OpenElements<A>,
    pub tree: Nesting<A>,
    /// The elements that will be open in the tree, once the output reached its place.
    pub next: Nesting<A>,
}

/// The step on the open elements that is left, once the output reached its place.
#[derive(Clone, Copy, Debug, PartialEq, Eq)]
pub enum Pending {
    Tags(Change),
    /// The next open elements of the tree replace the current ones.
    Tree,
    /// The open elements stay open.
    Nothing,
    /// The innermost element of the tree was opened.
    Opened,
    /// The innermost element of the tree is to be closed.
    Closes,
}

impl<A: Allocator + Copy> Opened<A> {
    /// Nothing is open. In a tree at most this many elements will be.
    pub fn none(alloc: A, limit: usize) -> Opened<A>
        ensures named { (shape : Shape) → names_in shape result ≡ [] }
        ensures tree { result.tree ≡ nothing_nested limit }
    {
        Opened {
            tags: OpenElements::none(alloc),
            tree: Nesting::new(alloc, limit),
            next: Nesting::new(alloc, limit),
        }
    }

    /// The output reached its place: completes the step.
    pub fn settle(&mut self, pending: Pending)
        ensures { self.new ≡ settled pending self.old }
    {
        match pending {
            Pending::Tags(change) => self.tags.close(change.close),
            Pending::Tree => mem::swap(&mut self.tree, &mut self.next),
            Pending::Nothing | Pending::Opened => {}
            Pending::Closes => {
                self.tree.close_one();
            }
        }
    }

    /// The output was dropped: takes the step back.
    pub fn undo(&mut self, pending: Pending)
        ensures { self.new ≡ undone pending self.old }
    {
        match pending {
            Pending::Tags(change) => self.tags.close(change.undo),
            Pending::Tree | Pending::Nothing | Pending::Closes => {}
            Pending::Opened => {
                self.tree.close_one();
            }
        }
    }
}
