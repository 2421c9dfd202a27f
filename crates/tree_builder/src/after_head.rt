//! "The rules for parsing tokens in HTML content", "after head" and "text": tags, and the end.
ghost use Rattle.std.specs.Prelude.{◌≡◌, codes, IfOk, OnOk, if◌then◌else◌};
ghost use Rattle.tree_construction.specs.BeforeBody.{after_head_end, after_head_other, after_head_start, back, insert_body, mark_current, start_after_head, start_in_head, text_end, text_end_of_file, within_head};
ghost use Rattle.tree_construction.specs.Names.{is_script, kind_of};
ghost use Rattle.tree_construction.specs.Page.{pushed, removed_from_stack};
ghost use Rattle.tree_construction.specs.Parser.{Again, in_mode, insert, is_current, not_frameset_ok, on_page};
ghost use Rattle.tree_construction.specs.Tokens.{Token, bare_tag};
ghost use Rattle.tree_construction.specs.Tokens.Token.{StartTag as StartToken, EndTag, EndOfFile};
ghost use Rattle.tree_construction.specs.declared.kinds.Kind.TheVariants.{Head};
ghost use Rattle.tree_construction.specs.declared.modes.Mode.TheVariants.{InFrameset};
ghost use Rattle.tree_names.specs.ElementNames.{name_bytes};
ghost use Rattle.tree_builder.specs.Built.{followed, on_parser, tag_of};

use crate::builder::Builder;
use crate::request::Request;
use crate::tag::{StartTag, Step};
use std::alloc::Allocator;
use tree_construction::kinds::Kind;
use tree_construction::mistakes::Mistake;
use tree_construction::modes::Mode;
use tree_lists::opened::OpenElement;
use tree_lists::wanted::{KindSet, Wanted};
use tree_names::known::KnownName;
use tree_names::name::ElementName;
use tree_sink::attributes::TagAttributes;
use tree_sink::error::TreeBuilderError;
use tree_sink::sink::TreeSink;

impl<S: TreeSink<T> + Drop, T: TagAttributes, A: Allocator + Copy> Builder<S, T, A> {
    /// Takes a node out of the stack of open elements, wherever it stands.
    pub(crate) fn remove_from_stack(&mut self, node: S::Handle) -> Result<(), TreeBuilderError>
        ensures { OnOk result (self.new ≡ on_parser (on_page (removed_from_stack (S.Handle.node node))) self.old) }
    {
        self.opened.remove(node);
        self.editor.pop(node)
    }

    // Opens a body.
    fn insert_body(&mut self, tag: &StartTag<T, A>) -> Result<(), TreeBuilderError>
        ensures { OnOk result (self.new ≡ on_parser (insert_body (tag_of T.said tag.now)) self.old) }
    {
        self.insert(tag)?;
        self.set_mode(Mode::InBody);
        Ok(())
    }

    // Opens a body without attributes.
    pub(crate) fn insert_bare_body(&mut self) -> Result<(), TreeBuilderError>
        ensures { OnOk result (self.new ≡ on_parser (insert_body (bare_tag (codes "body"))) self.old) }
    {
        self.insert_bare(KnownName::BODY)?;
        self.set_mode(Mode::InBody);
        Ok(())
    }

    /// "After head": anything else.
    pub fn after_head_other(&mut self) -> Result<Step, TreeBuilderError>
        ensures parser { IfOk result (λ step. (again : Again) (token : Token)
            → followed again step self.new.parser token ≡ after_head_other again token self.old.parser) }
        ensures telling { OnOk result (self.new.telling ≡ self.old.telling) }
    {
        self.insert_bare_body()?;
        Ok(Step::Again)
    }

    // Opens the head again.
    fn push_head(&mut self, head: S::Handle) -> Result<(), TreeBuilderError>
        ensures { OnOk result (self.new ≡ on_parser (on_page (pushed Head (codes "head") (S.Handle.node head))) self.old) }
    {
        self.opened.push(OpenElement {
            handle: head,
            kind: Kind::Head,
            name: ElementName::Known(KnownName::HEAD),
        })?;
        Ok(())
    }

    // A start tag of a head after the head: within it.
    fn start_after_head(&mut self, kind: Kind, tag: &StartTag<T, A>) -> Result<(), TreeBuilderError>
        ensures { OnOk result (self.new ≡ on_parser (start_after_head kind (tag_of T.said tag.now)) self.old) }
    {
        self.unexpected()?;
        let Some(head) = self.head else {
            return self.start_in_head(kind, tag);
        };
        self.push_head(head)?;
        self.start_in_head(kind, tag)?;
        self.remove_from_stack(head)
    }

    // Opens a body that keeps framesets out.
    fn start_body_element(&mut self, tag: &StartTag<T, A>) -> Result<(), TreeBuilderError>
        ensures { OnOk result (self.new ≡ on_parser (λ p. not_frameset_ok (insert_body (tag_of T.said tag.now) p)) self.old) }
    {
        self.insert_body(tag)?;
        self.set_frameset_not_ok();
        Ok(())
    }

    // Opens a frameset.
    pub(crate) fn insert_frameset(&mut self, tag: &StartTag<T, A>) -> Result<(), TreeBuilderError>
        ensures { OnOk result (self.new ≡ on_parser (λ p. in_mode InFrameset (insert (tag_of T.said tag.now) p)) self.old) }
    {
        self.insert(tag)?;
        self.set_mode(Mode::InFrameset);
        Ok(())
    }

    /// "After head": a start tag.
    pub fn after_head_start(&mut self, tag: &StartTag<T, A>) -> Result<Step, TreeBuilderError>
        ensures parser { IfOk result (λ step. (again : Again) → followed again step self.new.parser (StartToken (tag_of T.said tag.now)) ≡ after_head_start again (kind_of (name_bytes tag.now.name)) (tag_of T.said tag.now) self.old.parser) }
        ensures telling { OnOk result (self.new.telling ≡ self.old.telling) }
    {
        let kind = tag.kind();
        match kind {
            Kind::HtmlRoot => self.start_html(tag)?,
            Kind::Body => self.start_body_element(tag)?,
            Kind::Frameset => self.insert_frameset(tag)?,
            Kind::Base
            | Kind::Link
            | Kind::Meta
            | Kind::Noframes
            | Kind::Script
            | Kind::Style
            | Kind::Template
            | Kind::Title => self.start_after_head(kind, tag)?,
            Kind::Head => self.unexpected()?,
            _ => return self.after_head_other(),
        }
        Ok(Step::Done)
    }

    /// "After head": an end tag.
    pub fn after_head_end(&mut self, name: &ElementName<A>) -> Result<Step, TreeBuilderError>
        ensures parser { IfOk result (λ step. (again : Again) → followed again step self.new.parser (EndTag (name_bytes name.now)) ≡ after_head_end again (kind_of (name_bytes name.now)) (name_bytes name.now) self.old.parser) }
        ensures telling { OnOk result (self.new.telling ≡ self.old.telling) }
    {
        match name.kind() {
            Kind::Template => self.end_template()?,
            Kind::Body | Kind::HtmlRoot | Kind::LineBreak => return self.after_head_other(),
            _ => self.unexpected()?,
        }
        Ok(Step::Done)
    }

    // "Text": back to the insertion mode before it.
    fn go_back(&mut self) -> Result<(), TreeBuilderError>
        ensures { OnOk result (self.new ≡ on_parser (back) self.old) }
    {
        self.pop()?;
        self.set_mode(self.original_mode);
        Ok(())
    }

    /// "Text": an end tag. A script is run.
    pub fn text_end(&mut self, kind: Kind) -> Result<(), TreeBuilderError>
        ensures { OnOk result (self.new ≡ on_parser (text_end kind) self.old) }
    {
        if !kind.is_script() {
            return self.go_back();
        }
        let node = self.current_node();
        self.go_back()?;
        self.ask(Request::Run(node));
        Ok(())
    }

    // A script that is open is marked as already started.
    fn mark_open_script(&mut self) -> Result<(), TreeBuilderError>
        ensures { OnOk result (self.new ≡ on_parser ((λ p. if is_current is_script p then mark_current p else p)) self.old) }
    {
        if self.current_is(&Wanted::Of(KindSet::Script)) {
            return self.mark_current();
        }
        Ok(())
    }

    /// "Text": the end.
    pub fn text_end_of_file(&mut self) -> Result<Step, TreeBuilderError>
        ensures parser { IfOk result (λ step. (again : Again) → followed again step self.new.parser EndOfFile ≡ text_end_of_file again self.old.parser) }
        ensures telling { OnOk result (self.new.telling ≡ self.old.telling) }
    {
        self.mistaken(Mistake::UnclosedAtEnd)?;
        self.mark_open_script()?;
        self.go_back()?;
        Ok(Step::Again)
    }
}
