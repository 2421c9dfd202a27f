//! "In body": the start tags `body` and `frameset`, the end tags `body` and `html`, and the end.
ghost use Rattle.std.specs.Prelude.{◌≡◌, IfOk, OnOk};
ghost use Rattle.tree_construction.specs.InBody.{add_to_body, end_body, end_of_file_in_body, end_of_file_in_template, expects_closed, has_body, removed_body, start_body, start_frameset, without_body};
ghost use Rattle.tree_construction.specs.Page.{popped_to_first, second_body};
ghost use Rattle.tree_construction.specs.Parser.{Again, in_mode, on_page};
ghost use Rattle.tree_construction.specs.Tokens.{Token};
ghost use Rattle.tree_construction.specs.Tokens.Token.{EndOfFile};
ghost use Rattle.tree_construction.specs.declared.modes.Mode.TheVariants.{AfterBody};
ghost use Rattle.tree_builder.specs.Built.{followed, on_parser, tag_of};
ghost use Rattle.tree_lists.specs.Opened.{node_in};

use crate::builder::Builder;
use crate::tag::{StartTag, Step};
use std::alloc::Allocator;
use tree_construction::mistakes::Mistake;
use tree_construction::modes::Mode;
use tree_lists::wanted::{KindSet, Scope, Wanted};
use tree_sink::attributes::TagAttributes;
use tree_sink::error::TreeBuilderError;
use tree_sink::sink::TreeSink;

impl<S: TreeSink<T> + Drop, T: TagAttributes, A: Allocator + Copy> Builder<S, T, A> {
    // The second element on the stack, if it is a body.
    fn second_body(&self) -> Option<S::Handle>
        ensures { node_in S.Handle.node result ≡ second_body self.now.parser.page.opened }
    {
        self.opened.second_body()
    }

    // Whether the second element on the stack is a body.
    fn has_body(&self) -> bool
        ensures { result ≡ has_body self.now.parser }
    {
        self.second_body().is_some()
    }

    // Adds the attributes of a tag to the body.
    fn add_to_body(&mut self, tag: &StartTag<T, A>) -> Result<(), TreeBuilderError>
        ensures { OnOk result (self.new ≡ on_parser (add_to_body (tag_of T.said tag.now)) self.old) }
    {
        match self.second_body() {
            Some(body) => self.editor.add_attributes(body, &tag.attributes),
            None => Ok(()),
        }
    }

    /// `body`.
    pub fn start_body(&mut self, tag: &StartTag<T, A>) -> Result<(), TreeBuilderError>
        ensures { OnOk result (self.new ≡ on_parser (start_body (tag_of T.said tag.now)) self.old) }
    {
        self.unexpected()?;
        if self.has_body() && !self.has_template() {
            self.set_frameset_not_ok();
            return self.add_to_body(tag);
        }
        Ok(())
    }

    // "Remove the second element on the stack of open elements from its parent node".
    fn remove_body(&mut self) -> Result<(), TreeBuilderError>
        ensures { OnOk result (self.new ≡ on_parser (on_page (λ page. removed_body (second_body page.opened) page)) self.old) }
    {
        match self.second_body() {
            Some(body) => self.editor.remove(body),
            None => Ok(()),
        }
    }

    // Pops all elements but the first.
    #[tactic(auto, unfolding(tree_construction::specs::Page::popped_to_first_in))]
    fn pop_to_first(&mut self) -> Result<(), TreeBuilderError>
        ensures { OnOk result (self.new ≡ on_parser (on_page popped_to_first) self.old) }
    {
        while self.open_len() > 1 {
            self.pop()?;
        }
        Ok(())
    }

    // The body leaves the document and the stack.
    fn without_body(&mut self) -> Result<(), TreeBuilderError>
        ensures { OnOk result (self.new ≡ on_parser without_body self.old) }
    {
        self.remove_body()?;
        self.pop_to_first()
    }

    /// `frameset`: in the place of a body, while "the frameset-ok flag" is "ok".
    pub fn start_frameset(&mut self, tag: &StartTag<T, A>) -> Result<(), TreeBuilderError>
        ensures { OnOk result (self.new ≡ on_parser (start_frameset (tag_of T.said tag.now)) self.old) }
    {
        self.unexpected()?;
        if self.has_body() && self.frameset_ok {
            self.without_body()?;
            return self.insert_frameset(tag);
        }
        Ok(())
    }

    /// "If there is a node in the stack of open elements that is not" one of those that may stay open, "then this is a
    /// parse error".
    pub fn expect_closed(&mut self) -> Result<(), TreeBuilderError>
        ensures { OnOk result (self.new ≡ on_parser expects_closed self.old) }
    {
        if self.opened.has_unclosed() {
            return self.mistaken(Mistake::UnclosedElements);
        }
        Ok(())
    }

    // The body is at its end.
    fn leave_body(&mut self) -> Result<(), TreeBuilderError>
        ensures { OnOk result (self.new ≡ on_parser (λ p. in_mode AfterBody (expects_closed p)) self.old) }
    {
        self.expect_closed()?;
        self.set_mode(Mode::AfterBody);
        Ok(())
    }

    /// `</body>`.
    pub fn end_body(&mut self) -> Result<(), TreeBuilderError>
        ensures { OnOk result (self.new ≡ on_parser (end_body (λ later. later)) self.old) }
    {
        if self.has_in_scope(Scope::Default, &Wanted::Of(KindSet::Body)) {
            return self.leave_body();
        }
        self.unexpected()
    }

    /// `</html>`: after the body the token is reprocessed.
    pub fn end_html(&mut self) -> Result<Step, TreeBuilderError>
        ensures parser { IfOk result (λ step. (again : Again) (token : Token)
            → followed again step self.new.parser token ≡ end_body (λ later. again later token) self.old.parser) }
        ensures telling { OnOk result (self.new.telling ≡ self.old.telling) }
    {
        if self.has_in_scope(Scope::Default, &Wanted::Of(KindSet::Body)) {
            self.leave_body()?;
            return Ok(Step::Again);
        }
        self.unexpected()?;
        Ok(Step::Done)
    }

    /// "In template": the end. A template that is open is closed, and the token is reprocessed.
    pub fn end_of_file_in_template(&mut self) -> Result<Step, TreeBuilderError>
        ensures parser { IfOk result (λ step. (again : Again) → followed again step self.new.parser EndOfFile ≡ end_of_file_in_template again self.old.parser) }
        ensures telling { OnOk result (self.new.telling ≡ self.old.telling) }
    {
        if !self.has_template() {
            self.stop_parsing()?;
            return Ok(Step::Done);
        }
        self.mistaken(Mistake::UnclosedAtEnd)?;
        self.close_template()?;
        Ok(Step::Again)
    }

    /// "In body": the end.
    pub fn end_of_file_in_body(&mut self) -> Result<Step, TreeBuilderError>
        ensures parser { IfOk result (λ step. (again : Again) → followed again step self.new.parser EndOfFile ≡ end_of_file_in_body again self.old.parser) }
        ensures telling { OnOk result (self.new.telling ≡ self.old.telling) }
    {
        if self.template_modes.len() == 0 {
            self.expect_closed()?;
            self.stop_parsing()?;
            return Ok(Step::Done);
        }
        self.end_of_file_in_template()
    }
}
