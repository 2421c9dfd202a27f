//! A writer of pages that are built as they are nested.
ghost use Rattle.std.specs.Prelude.{◌≡◌, List, [], IfOk, map};
ghost use Rattle.html5tree.specs.Items.{Item as TreeItem};
ghost use Rattle.html5tree.specs.Items.Item.{EndTag, StartTag, Text};
ghost use Rattle.html5tree.specs.Normal.{end_tags};
ghost use Rattle.html5nested.specs.Adding.{Adds, attribute_said, item_said};
ghost use Rattle.html5nested.specs.NestedPages.{IsFinished, IsMadeOf, Nests, nothing_written};

use crate::fitted::{close_all, write_fitted};
use crate::item::Item;
use html5tree::nesting::Nesting;
use html5write::{Attribute, WriteError, Writer};
use std::alloc::{Allocator, Global};
use std::marker::Model;
use std::mem;

/// A page that is written tag by tag and text by text, so that all of it fits: a browser builds it with the same
/// nesting.
#[derive(Drop)]
pub struct NestedWriter<A: Allocator = Global> {
    alloc: A,
    page: Writer<A>,
    nesting: Nesting<A>,
    // The elements open after an item, until its output stands on the page.
    spare: Nesting<A>,
}

impl<A: Allocator> Model for NestedWriter<A> {
    ghost use Rattle.html5nested.specs.NestedPages.{NestedPage};

    ghost Value = { NestedPage };

    ghost view = { λ n. record { pieces = n.page; opened = n.nesting.opened; limit = n.nesting.limit } };
}

impl<A: Allocator + Copy> NestedWriter<A> {
    /// Nothing is written yet. At most this many elements will be open.
    pub fn new(alloc: A, limit: usize) -> NestedWriter<A>
        ensures page { result ≡ nothing_written limit }
        ensures made { IsMadeOf result [] }
    {
        NestedWriter {
            alloc,
            page: Writer::new(alloc),
            nesting: Nesting::new(alloc, limit),
            spare: Nesting::new(alloc, limit),
        }
    }

    // Writes an item so that it fits: all that is written for it, or nothing.
    fn put(&mut self, item: &Item<'_>) -> Result<(), WriteError>
        ensures { Nests result self.old self.new (item_said item.now) }
    {
        self.spare.copy_from(&self.nesting)?;
        let mut part = Writer::new(self.alloc);
        write_fitted(self.alloc, &mut part, &mut self.spare, item)?;
        self.page.append(&part)?;
        mem::swap(&mut self.nesting, &mut self.spare);
        Ok(())
    }

    /// Writes a start tag so that it fits. Nothing is written for one of another name than the 94.
    pub fn start_tag(&mut self, name: &str, attributes: &[Attribute<'_>]) -> Result<(), WriteError>
        ensures { Nests result self.old self.new (StartTag name.now (map attribute_said attributes.now)) }
    {
        self.put(&Item::StartTag { name, attributes })
    }

    /// Writes what an end tag asks for, so that it fits. Nothing is written for one of another name.
    pub fn end_tag(&mut self, name: &str) -> Result<(), WriteError>
        ensures { Nests result self.old self.new (EndTag name.now) }
    {
        self.put(&Item::EndTag(name))
    }

    /// Writes a text so that it fits.
    pub fn text(&mut self, text: &str) -> Result<(), WriteError>
        ensures { Nests result self.old self.new (Text text.now) }
    {
        self.put(&Item::Text(text))
    }

    /// Closes all that is open, and gives the page.
    pub fn finish(self) -> Result<Writer<A>, WriteError>
        ensures added { IfOk result (λ page. Adds self.pieces page (end_tags self.opened)) }
        ensures made { IfOk result (λ page. (items : List TreeItem) → IsMadeOf self items
            → IsFinished self.limit page items) }
    {
        let mut page = self.page;
        let mut nesting = self.nesting;
        close_all(&mut page, &mut nesting)?;
        Ok(page)
    }
}
