//! Texts and comments.
ghost use Rattle.std.specs.Prelude.{◌≡◌, OnOk};
ghost use Rattle.tree_construction.specs.Page.{comment_put, first_open};
ghost use Rattle.tree_construction.specs.Parser.{insert_comment, insert_comment_in_document, insert_comment_in_root, on_page};
ghost use Rattle.tree_builder.specs.Built.{on_parser, texted};
ghost use Rattle.tree_sink.specs.Places.{place_of as sink_place};

use crate::builder::Builder;
use std::alloc::Allocator;
use tree_sink::attributes::TagAttributes;
use tree_sink::error::TreeBuilderError;
use tree_sink::place::InsertionPoint;
use tree_sink::sink::TreeSink;

impl<S: TreeSink<T> + Drop, T: TagAttributes, A: Allocator> Builder<S, T, A> {
    /// "Insert a character", of each of a text.
    pub fn insert_text(&mut self, text: &str) -> Result<(), TreeBuilderError>
        ensures { OnOk result (self.new ≡ on_parser (texted text.now) self.old) }
    {
        let place = self.place_in(0)?;
        self.editor.put_text(place, text)
    }

    // Makes a comment, and puts it at a place.
    fn put_comment(
        &mut self,
        place: InsertionPoint<S::Handle>,
        text: &str,
    ) -> Result<(), TreeBuilderError>
        ensures { OnOk result (self.new ≡ on_parser (on_page (comment_put (sink_place S.Handle.node place) text.now)) self.old) }
    {
        let handle = self.editor.create_comment(text)?;
        self.editor.put(place, handle)
    }

    /// "Insert a comment".
    pub fn insert_comment(&mut self, text: &str) -> Result<(), TreeBuilderError>
        ensures { OnOk result (self.new ≡ on_parser (insert_comment text.now) self.old) }
    {
        self.put_comment(self.place(1)?, text)
    }

    /// "Insert a comment as the last child of the Document object".
    pub fn insert_comment_in_document(&mut self, text: &str) -> Result<(), TreeBuilderError>
        ensures { OnOk result (self.new ≡ on_parser (insert_comment_in_document text.now) self.old) }
    {
        let document = self.editor.document();
        self.put_comment(InsertionPoint::LastChild(document), text)
    }

    // The first element that was opened, or else the document.
    #[tactic(auto, unfolding(tree_construction::specs::Page::first_open))]
    pub(crate) fn first_open(&self) -> S::Handle
        ensures { S.Handle.node result ≡ first_open self.now.parser.page.opened }
    {
        match self.opened.first() {
            Some(handle) => handle,
            None => self.editor.document(),
        }
    }

    /// "Insert a comment as the last child of the first element in the stack of open elements".
    pub fn insert_comment_in_root(&mut self, text: &str) -> Result<(), TreeBuilderError>
        ensures { OnOk result (self.new ≡ on_parser (insert_comment_in_root text.now) self.old) }
    {
        let root = self.first_open();
        self.put_comment(InsertionPoint::LastChild(root), text)
    }
}
