//! "The rules for parsing tokens in HTML content", "in frameset", "after frameset" and "after after frameset": tags, and the
//! end.
ghost use Rattle.std.specs.Prelude.{◌≡◌, OnOk, if◌then◌else◌};
ghost use Rattle.tree_construction.specs.AfterBody.{after_frameset_end, after_frameset_start, frameset_closed, frameset_end, frameset_start, has_only_root, in_frameset};
ghost use Rattle.tree_construction.specs.Names.{is_frameset};
ghost use Rattle.tree_construction.specs.Parser.{in_mode, insert, is_current, is_fragment, mistaken, unexpected};
ghost use Rattle.tree_construction.specs.Tokens.Token.{EndOfFile};
ghost use Rattle.tree_construction.specs.declared.mistakes.Mistake.TheVariants.{UnclosedAtEnd};
ghost use Rattle.tree_construction.specs.declared.modes.Mode.TheVariants.{AfterAfterFrameset, AfterFrameset};
ghost use Rattle.tree_builder.specs.Built.{on_parser, tag_of};

use crate::builder::Builder;
use crate::tag::StartTag;
use std::alloc::Allocator;
use tree_construction::kinds::Kind;
use tree_construction::mistakes::Mistake;
use tree_construction::modes::Mode;
use tree_lists::wanted::{KindSet, Wanted};
use tree_sink::attributes::TagAttributes;
use tree_sink::error::TreeBuilderError;
use tree_sink::sink::TreeSink;

impl<S: TreeSink<T> + Drop, T: TagAttributes, A: Allocator + Copy> Builder<S, T, A> {
    // Opens a frameset in a frameset.
    fn insert_inner_frameset(&mut self, tag: &StartTag<T, A>) -> Result<(), TreeBuilderError>
        ensures { OnOk result (self.new ≡ on_parser (insert (tag_of T.said tag.now)) self.old) }
    {
        self.insert(tag)?;
        Ok(())
    }

    /// "In frameset": a start tag.
    pub fn frameset_start(
        &mut self,
        kind: Kind,
        tag: &StartTag<T, A>,
    ) -> Result<(), TreeBuilderError>
        ensures { OnOk result (self.new ≡ on_parser (frameset_start kind (tag_of T.said tag.now)) self.old) }
    {
        match kind {
            Kind::HtmlRoot => self.start_html(tag),
            Kind::Frameset => self.insert_inner_frameset(tag),
            Kind::Frame => self.insert_void(tag),
            Kind::Noframes => self.start_in_head(kind, tag),
            _ => self.unexpected(),
        }
    }

    // Whether no element is open but the root.
    fn has_only_root(&self) -> bool
        ensures { result ≡ has_only_root self.now.parser.page.opened }
    {
        self.open_len() < 2
    }

    // After the outermost frameset another mode begins.
    fn leave_frameset(&mut self)
        ensures { self.new ≡ on_parser (λ p. if is_fragment p then p else if is_current is_frameset p then p else in_mode AfterFrameset p) self.old }
    {
        if self.context.is_some() {
            return;
        }
        if self.current_is(&Wanted::Of(KindSet::Frameset)) {
            return;
        }
        self.set_mode(Mode::AfterFrameset);
    }

    // Closes a frameset.
    fn close_frameset(&mut self) -> Result<(), TreeBuilderError>
        ensures { OnOk result (self.new ≡ on_parser frameset_closed self.old) }
    {
        self.pop()?;
        self.leave_frameset();
        Ok(())
    }

    // `</frameset>`.
    fn end_frameset(&mut self) -> Result<(), TreeBuilderError>
        ensures { OnOk result (self.new ≡ on_parser (λ p. if has_only_root p.page.opened then unexpected p else frameset_closed p) self.old) }
    {
        if self.has_only_root() {
            return self.unexpected();
        }
        self.close_frameset()
    }

    /// "In frameset": an end tag.
    pub fn frameset_end(&mut self, kind: Kind) -> Result<(), TreeBuilderError>
        ensures { OnOk result (self.new ≡ on_parser (frameset_end kind) self.old) }
    {
        match kind {
            Kind::Frameset => self.end_frameset(),
            _ => self.unexpected(),
        }
    }

    // "If the current node is not the root html element, then this is a parse error".
    fn expect_only_root(&mut self) -> Result<(), TreeBuilderError>
        ensures { OnOk result (self.new ≡ on_parser (λ p. if has_only_root p.page.opened then p else mistaken UnclosedAtEnd p) self.old) }
    {
        if self.has_only_root() {
            return Ok(());
        }
        self.mistaken(Mistake::UnclosedAtEnd)
    }

    /// "In frameset": the end.
    pub fn frameset_end_of_file(&mut self) -> Result<(), TreeBuilderError>
        ensures { OnOk result (self.new ≡ on_parser (in_frameset EndOfFile) self.old) }
    {
        self.expect_only_root()?;
        self.stop_parsing()
    }

    /// "After frameset" and "after after frameset": a start tag.
    pub fn after_frameset_start(
        &mut self,
        kind: Kind,
        tag: &StartTag<T, A>,
    ) -> Result<(), TreeBuilderError>
        ensures { OnOk result (self.new ≡ on_parser (after_frameset_start kind (tag_of T.said tag.now)) self.old) }
    {
        match kind {
            Kind::HtmlRoot => self.start_html(tag),
            Kind::Noframes => self.start_in_head(kind, tag),
            _ => self.unexpected(),
        }
    }

    // The mode after the `html` element.
    fn end_root_of_frameset(&mut self) -> Result<(), TreeBuilderError>
        ensures { OnOk result (self.new ≡ on_parser (in_mode AfterAfterFrameset) self.old) }
    {
        self.set_mode(Mode::AfterAfterFrameset);
        Ok(())
    }

    /// "After frameset": an end tag.
    pub fn after_frameset_end(&mut self, kind: Kind) -> Result<(), TreeBuilderError>
        ensures { OnOk result (self.new ≡ on_parser (after_frameset_end kind) self.old) }
    {
        match kind {
            Kind::HtmlRoot => self.end_root_of_frameset(),
            _ => self.unexpected(),
        }
    }
}
