//! "The rules for parsing tokens in HTML content", from "initial" to "after head", and "text": tags, and the end.
ghost use Rattle.std.specs.Prelude.{◌≡◌, false, [], ◌∷◌, codes, option_map, string_bytes, IfOk, OnOk, if◌then◌else◌};
ghost use Rattle.html5ever_interface.specs.Token.{doctype_of};
ghost use Rattle.tree_construction.specs.BeforeBody.{add_to_root, asks_encoding, after_head_end, after_head_other, after_head_start, back, before_head_other, before_head_start, before_html_other, before_html_start, current_number, ends_early, in_head_end, in_head_noscript_start, in_head_other, in_head_start, initial_doctype, initial_other, is_content_type, insert_body, insert_head, mark_current, noscript_end, noscript_other, noscript_start, or_empty, put_doctype, set_quirks_mode, start_after_head, start_html, start_in_head, start_meta, start_script, start_template, text_end, text_end_of_file, with_root};
ghost use Rattle.tree_construction.specs.Doctypes.{is_allowed};
ghost use Rattle.tree_construction.specs.Names.{kind_of};
ghost use Rattle.tree_construction.specs.Page.{edited, pushed};
ghost use Rattle.tree_construction.specs.Page.Place.{LastChild};
ghost use Rattle.tree_construction.specs.Page.Edit.{Put};
ghost use Rattle.tree_construction.specs.Parser.{Again, asked, in_mode, insert_with_text, is_fragment, mistaken, on_page, pop, reads_text, unexpected};
ghost use Rattle.tree_construction.specs.declared.kinds.Kind.TheVariants.{HtmlRoot};
ghost use Rattle.tree_construction.specs.declared.mistakes.Mistake.TheVariants.{BadDoctype, MissingDoctype};
ghost use Rattle.tree_construction.specs.declared.modes.QuirksMode.TheVariants.{Quirks};
ghost use Rattle.tree_construction.specs.Parser.Request.{UseCharset, UseContent};
ghost use Rattle.tree_construction.specs.Tokens.{Token, bare_tag, value_of};
ghost use Rattle.tree_construction.specs.declared.modes.Mode.TheVariants.{AfterHead, BeforeHtml, InHead, InHeadNoscript, InTemplate, Initial};
ghost use Rattle.tree_construction.specs.Tokens.Token.{StartTag as StartToken, EndTag, EndOfFile};
ghost use Rattle.tree_names.specs.ElementNames.{name_bytes};
ghost use Rattle.tree_builder.specs.Built.{followed, on_parser, tag_of};
ghost use Rattle.tree_builder.specs.Characters.{moved_on};

use crate::builder::Builder;
use crate::request::Request;
use crate::tag::{StartTag, Step};
use html5ever_interface::interface::token::Doctype;
use html5ever_interface::states::RawKind;
use std::alloc::Allocator;
use tree_construction::kinds::Kind;
use tree_construction::mistakes::Mistake;
use tree_construction::modes::{Mode, QuirksMode};
use tree_lists::opened::OpenElement;
use tree_lists::wanted::{KindSet, Wanted};
use tree_names::attributes::matches;
use tree_names::doctypes::{is_allowed, quirks_mode_of};
use tree_names::known::KnownName;
use tree_names::name::ElementName;
use tree_sink::attributes::TagAttributes;
use tree_sink::error::TreeBuilderError;
use tree_sink::place::InsertionPoint;
use tree_sink::sink::TreeSink;

impl<S: TreeSink<T> + Drop, T: TagAttributes, A: Allocator + Copy> Builder<S, T, A> {
    /// Reads what follows in a state of its own, whose text the "text" insertion mode inserts.
    pub fn read_text(&mut self, kind: RawKind)
        ensures { self.new ≡ on_parser (reads_text kind) self.old }
    {
        self.ask(Request::ReadRaw(kind));
        self.original_mode = self.mode;
        self.mode = Mode::Text;
    }

    /// "The generic raw text element parsing algorithm", "the generic RCDATA element parsing algorithm".
    pub fn insert_with_text(
        &mut self,
        kind: RawKind,
        tag: &StartTag<T, A>,
    ) -> Result<(), TreeBuilderError>
        ensures { OnOk result (self.new ≡ on_parser (insert_with_text kind (tag_of T.said tag.now)) self.old) }
    {
        self.insert(tag)?;
        self.read_text(kind);
        Ok(())
    }

    /// Sets the mode of the document.
    pub fn set_quirks_mode(&mut self, mode: QuirksMode) -> Result<(), TreeBuilderError>
        ensures { OnOk result (self.new ≡ on_parser (set_quirks_mode mode) self.old) }
    {
        self.editor.set_quirks_mode(mode)?;
        self.quirks_mode = mode;
        Ok(())
    }

    // "Append a DocumentType node to the Document node".
    fn put_doctype(&mut self, doctype: &Doctype<A>) -> Result<(), TreeBuilderError>
        ensures { OnOk result (self.new ≡ on_parser (put_doctype (doctype_of doctype.now)) self.old) }
    {
        let name = text_or_empty(&doctype.name);
        let public_id = text_or_empty(&doctype.public_id);
        let system_id = text_or_empty(&doctype.system_id);
        self.editor.put_doctype(name, public_id, system_id)
    }

    // A doctype that is not allowed is a parse error.
    fn expect_allowed(&mut self, doctype: &Doctype<A>) -> Result<(), TreeBuilderError>
        ensures { OnOk result (self.new ≡ on_parser (λ p. if is_allowed (doctype_of doctype.now) then p else mistaken BadDoctype p) self.old) }
    {
        if is_allowed(doctype) {
            return Ok(());
        }
        self.mistaken(Mistake::BadDoctype)
    }

    /// "Initial": a doctype.
    pub fn initial_doctype(&mut self, doctype: &Doctype<A>) -> Result<(), TreeBuilderError>
        ensures { OnOk result (self.new ≡ on_parser (initial_doctype (doctype_of doctype.now)) self.old) }
    {
        self.expect_allowed(doctype)?;
        self.put_doctype(doctype)?;
        self.set_quirks_mode_by(quirks_mode_of(doctype))?;
        self.set_mode(Mode::BeforeHtml);
        Ok(())
    }

    // Sets the mode of a document, unless it is "an iframe srcdoc document".
    fn set_quirks_mode_by(&mut self, mode: QuirksMode) -> Result<(), TreeBuilderError>
        ensures { OnOk result (self.new ≡ on_parser (λ p. if p.options.iframe_srcdoc then p else set_quirks_mode mode p) self.old) }
    {
        if self.opts.iframe_srcdoc {
            return Ok(());
        }
        self.set_quirks_mode(mode)
    }

    // A document without a doctype.
    fn lack_doctype(&mut self) -> Result<(), TreeBuilderError>
        ensures { OnOk result (self.new ≡ on_parser (λ p. if p.options.iframe_srcdoc then p else set_quirks_mode Quirks (mistaken MissingDoctype p)) self.old) }
    {
        if self.opts.iframe_srcdoc {
            return Ok(());
        }
        self.mistaken(Mistake::MissingDoctype)?;
        self.set_quirks_mode(QuirksMode::Quirks)
    }

    // "Initial", anything else: "switch the insertion mode to "before html"".
    pub(crate) fn leave_initial(&mut self) -> Result<(), TreeBuilderError>
        ensures { OnOk result (self.new ≡ on_parser (moved_on Initial) self.old) }
    {
        self.lack_doctype()?;
        self.set_mode(Mode::BeforeHtml);
        Ok(())
    }

    /// "Initial": anything else.
    pub fn initial_other(&mut self) -> Result<Step, TreeBuilderError>
        ensures parser { IfOk result (λ step. (again : Again) (token : Token)
            → followed again step self.new.parser token ≡ initial_other again token self.old.parser) }
        ensures telling { OnOk result (self.new.telling ≡ self.old.telling) }
    {
        self.leave_initial()?;
        Ok(Step::Again)
    }

    // An `html` element without attributes, as the root.
    #[tactic(auto, unfolding(tree_construction::specs::Names::namespace_of, tree_construction::specs::Adjusting::adjusted_attributes))]
    pub(crate) fn push_bare_root(&mut self) -> Result<(), TreeBuilderError>
        ensures { OnOk result (self.new ≡ on_parser (with_root []) self.old) }
    {
        let document = self.editor.document();
        let handle = self.create_bare(Kind::HtmlRoot, KnownName::HTML)?;
        self.push_root(document, handle)
    }

    // Puts the root into the document, and opens it.
    fn push_root(&mut self, document: S::Handle, handle: S::Handle) -> Result<(), TreeBuilderError>
        requires { S.Handle.node document ≡ 0 }
        ensures { OnOk result (self.new ≡ on_parser (on_page (λ page. pushed HtmlRoot (codes "html") (S.Handle.node handle)
            (edited (Put (LastChild 0) (S.Handle.node handle)) page))) self.old) }
    {
        self.put_and_push(
            InsertionPoint::LastChild(document),
            OpenElement {
                handle,
                kind: Kind::HtmlRoot,
                name: ElementName::Known(KnownName::HTML),
            },
        )
    }

    // "Create an element for the token. Append it to the Document object".
    #[tactic(auto, unfolding(tree_construction::specs::Names::namespace_of, tree_construction::specs::Adjusting::adjusted_attributes))]
    fn push_root_of(&mut self, tag: &StartTag<T, A>) -> Result<(), TreeBuilderError>
        ensures { OnOk result (self.new ≡ on_parser (with_root (T.said tag.now.attributes)) self.old) }
    {
        let document = self.editor.document();
        let handle = self.create(
            Kind::HtmlRoot,
            &ElementName::Known(KnownName::HTML),
            &tag.attributes,
        )?;
        self.push_root(document, handle)
    }

    // "Before html", anything else: "switch the insertion mode to "before head"".
    pub(crate) fn leave_before_html(&mut self) -> Result<(), TreeBuilderError>
        ensures { OnOk result (self.new ≡ on_parser (moved_on BeforeHtml) self.old) }
    {
        self.push_bare_root()?;
        self.set_mode(Mode::BeforeHead);
        Ok(())
    }

    /// "Before html": anything else.
    pub fn before_html_other(&mut self) -> Result<Step, TreeBuilderError>
        ensures parser { IfOk result (λ step. (again : Again) (token : Token)
            → followed again step self.new.parser token ≡ before_html_other again token self.old.parser) }
        ensures telling { OnOk result (self.new.telling ≡ self.old.telling) }
    {
        self.leave_before_html()?;
        Ok(Step::Again)
    }

    /// "Before html": a start tag.
    pub fn before_html_start(&mut self, tag: &StartTag<T, A>) -> Result<Step, TreeBuilderError>
        ensures parser { IfOk result (λ step. (again : Again) → followed again step self.new.parser (StartToken (tag_of T.said tag.now)) ≡ before_html_start again (kind_of (name_bytes tag.now.name)) (tag_of T.said tag.now) self.old.parser) }
        ensures telling { OnOk result (self.new.telling ≡ self.old.telling) }
    {
        if !tag.kind().is_root() {
            return self.before_html_other();
        }
        self.push_root_of(tag)?;
        self.set_mode(Mode::BeforeHead);
        Ok(Step::Done)
    }

    // A tag that is not expected is ignored.
    pub(crate) fn ignore(&mut self) -> Result<Step, TreeBuilderError>
        ensures parser { IfOk result (λ step. (again : Again) (token : Token)
            → followed again step self.new.parser token ≡ unexpected self.old.parser) }
        ensures telling { OnOk result (self.new.telling ≡ self.old.telling) }
    {
        self.unexpected()?;
        Ok(Step::Done)
    }

    /// "Before html": an end tag.
    pub fn before_html_end(&mut self, name: &ElementName<A>) -> Result<Step, TreeBuilderError>
        ensures parser { IfOk result (λ step. (again : Again) → followed again step self.new.parser (EndTag (name_bytes name.now)) ≡ (if ends_early (kind_of (name_bytes name.now)) then before_html_other again (EndTag (name_bytes name.now)) self.old.parser else unexpected self.old.parser)) }
        ensures telling { OnOk result (self.new.telling ≡ self.old.telling) }
    {
        if ends_early(name.kind()) {
            return self.before_html_other();
        }
        self.ignore()
    }

    /// "In body", a start tag whose tag name is `html`, as many modes have it.
    pub fn start_html(&mut self, tag: &StartTag<T, A>) -> Result<(), TreeBuilderError>
        ensures { OnOk result (self.new ≡ on_parser (start_html (tag_of T.said tag.now)) self.old) }
    {
        self.unexpected()?;
        if self.has_template() {
            return Ok(());
        }
        let root = self.first_open();
        self.editor.add_attributes(root, &tag.attributes)
    }

    // Opens a head without attributes, and notes it.
    #[tactic(auto, unfolding(tree_construction::specs::Names::kind_of, tree_construction::specs::Names::kind_in, tree_construction::specs::Names::all_names, tree_construction::specs::Names::is_among))]
    pub(crate) fn insert_bare_head(&mut self) -> Result<(), TreeBuilderError>
        ensures { OnOk result (self.new ≡ on_parser (insert_head (bare_tag (codes "head"))) self.old) }
    {
        let handle = self.insert_bare(KnownName::HEAD)?;
        self.head = Some(handle);
        self.mode = Mode::InHead;
        Ok(())
    }

    // Opens a head, and notes it.
    fn insert_head(&mut self, tag: &StartTag<T, A>) -> Result<(), TreeBuilderError>
        ensures { OnOk result (self.new ≡ on_parser (insert_head (tag_of T.said tag.now)) self.old) }
    {
        let handle = self.insert_element(
            Kind::Head,
            &ElementName::Known(KnownName::HEAD),
            &tag.attributes,
        )?;
        self.head = Some(handle);
        self.mode = Mode::InHead;
        Ok(())
    }

    /// "Before head": anything else.
    pub fn before_head_other(&mut self) -> Result<Step, TreeBuilderError>
        ensures parser { IfOk result (λ step. (again : Again) (token : Token)
            → followed again step self.new.parser token ≡ before_head_other again token self.old.parser) }
        ensures telling { OnOk result (self.new.telling ≡ self.old.telling) }
    {
        self.insert_bare_head()?;
        Ok(Step::Again)
    }

    /// "Before head": a start tag.
    pub fn before_head_start(&mut self, tag: &StartTag<T, A>) -> Result<Step, TreeBuilderError>
        ensures parser { IfOk result (λ step. (again : Again) → followed again step self.new.parser (StartToken (tag_of T.said tag.now)) ≡ before_head_start again (kind_of (name_bytes tag.now.name)) (tag_of T.said tag.now) self.old.parser) }
        ensures telling { OnOk result (self.new.telling ≡ self.old.telling) }
    {
        match tag.kind() {
            Kind::HtmlRoot => self.start_html(tag)?,
            Kind::Head => self.insert_head(tag)?,
            _ => return self.before_head_other(),
        }
        Ok(Step::Done)
    }

    /// "Before head": an end tag.
    pub fn before_head_end(&mut self, name: &ElementName<A>) -> Result<Step, TreeBuilderError>
        ensures parser { IfOk result (λ step. (again : Again) → followed again step self.new.parser (EndTag (name_bytes name.now)) ≡ (if ends_early (kind_of (name_bytes name.now)) then before_head_other again (EndTag (name_bytes name.now)) self.old.parser else unexpected self.old.parser)) }
        ensures telling { OnOk result (self.new.telling ≡ self.old.telling) }
    {
        if ends_early(name.kind()) {
            return self.before_head_other();
        }
        self.ignore()
    }
    // The number of the current node, or of the document.
    pub(crate) fn current_node(&self) -> S::Handle
        ensures { S.Handle.node result ≡ current_number self.now.parser.page.opened }
    {
        match self.opened.top() {
            Some(element) => element.handle,
            None => self.editor.document(),
        }
    }

    // Sets the "already started" flag of the current node, a script.
    pub(crate) fn mark_current(&mut self) -> Result<(), TreeBuilderError>
        ensures { OnOk result (self.new ≡ on_parser (mark_current) self.old) }
    {
        let node = self.current_node();
        self.editor.mark_started(node)
    }

    // In the fragment case a script is already started.
    fn mark_in_fragment(&mut self) -> Result<(), TreeBuilderError>
        ensures { OnOk result (self.new ≡ on_parser ((λ p. if is_fragment p then mark_current p else p)) self.old) }
    {
        if self.context.is_none() {
            return Ok(());
        }
        self.mark_current()
    }

    // A start tag whose tag name is `script`.
    fn start_script(&mut self, tag: &StartTag<T, A>) -> Result<(), TreeBuilderError>
        ensures { OnOk result (self.new ≡ on_parser (start_script (tag_of T.said tag.now)) self.old) }
    {
        self.insert(tag)?;
        self.mark_in_fragment()?;
        self.read_text(RawKind::ScriptData);
        Ok(())
    }

    // Asks for the encoding that a `meta` names.
    fn ask_charset(&mut self, charset: &str) -> Result<(), TreeBuilderError>
        ensures { OnOk result (self.new ≡ on_parser (asked (UseCharset charset.now)) self.old) }
    {
        let text = String::from_str(self.alloc, charset)?;
        self.ask(Request::UseCharset(text));
        Ok(())
    }

    // Asks for the encoding that the `content` of a `meta` names.
    fn ask_content(&mut self, content: &str) -> Result<(), TreeBuilderError>
        ensures { OnOk result (self.new ≡ on_parser (asked (UseContent content.now)) self.old) }
    {
        let text = String::from_str(self.alloc, content)?;
        self.ask(Request::UseContent(text));
        Ok(())
    }

    // What a `meta` says of the encoding.
    fn ask_encoding(&mut self, attributes: &T) -> Result<(), TreeBuilderError>
        ensures { OnOk result (self.new ≡ on_parser ((λ p. asks_encoding (T.said attributes.now) (value_of (codes "charset") (T.said attributes.now)) p)) self.old) }
    {
        if let Some(charset) = attributes.value_of("charset") {
            return self.ask_charset(charset);
        }
        match attributes.value_of("content") {
            Some(content) if is_content_type(attributes) => self.ask_content(content),
            _ => Ok(()),
        }
    }

    // A start tag whose tag name is `meta`.
    fn start_meta(&mut self, tag: &StartTag<T, A>) -> Result<(), TreeBuilderError>
        ensures { OnOk result (self.new ≡ on_parser (start_meta (tag_of T.said tag.now)) self.old) }
    {
        self.insert_void(tag)?;
        self.ask_encoding(&tag.attributes)
    }

    // Begins the insertion mode of a template.
    fn push_template_mode(&mut self) -> Result<(), TreeBuilderError>
        ensures { OnOk result (self.new ≡ on_parser (λ p. record p {
          frameset_ok = false;
          mode = InTemplate;
          template_modes = InTemplate ∷ p.template_modes;
        }) self.old) }
    {
        self.frameset_ok = false;
        self.mode = Mode::InTemplate;
        self.template_modes.push(Mode::InTemplate)?;
        Ok(())
    }

    // A start tag whose tag name is `template`.
    fn start_template(&mut self, tag: &StartTag<T, A>) -> Result<(), TreeBuilderError>
        ensures { OnOk result (self.new ≡ on_parser (start_template (tag_of T.said tag.now)) self.old) }
    {
        self.push_marker()?;
        self.push_template_mode()?;
        self.insert(tag)?;
        Ok(())
    }

    /// The start tags of a head, by which other modes go, too.
    pub fn start_in_head(
        &mut self,
        kind: Kind,
        tag: &StartTag<T, A>,
    ) -> Result<(), TreeBuilderError>
        ensures { OnOk result (self.new ≡ on_parser (start_in_head kind (tag_of T.said tag.now)) self.old) }
    {
        match kind {
            Kind::Meta => self.start_meta(tag),
            Kind::Title => self.insert_with_text(RawKind::Rcdata, tag),
            Kind::Style | Kind::Noframes => self.insert_with_text(RawKind::Rawtext, tag),
            Kind::Script => self.start_script(tag),
            Kind::Template => self.start_template(tag),
            _ => self.insert_void(tag),
        }
    }

    /// "In head": anything else.
    pub fn in_head_other(&mut self) -> Result<Step, TreeBuilderError>
        ensures parser { IfOk result (λ step. (again : Again) (token : Token)
            → followed again step self.new.parser token ≡ in_head_other again token self.old.parser) }
        ensures telling { OnOk result (self.new.telling ≡ self.old.telling) }
    {
        self.close_head()?;
        Ok(Step::Again)
    }

    // "In head": a start tag whose tag name is `noscript`.
    fn in_head_noscript_start(&mut self, tag: &StartTag<T, A>) -> Result<(), TreeBuilderError>
        ensures { OnOk result (self.new ≡ on_parser (in_head_noscript_start (tag_of T.said tag.now)) self.old) }
    {
        if self.opts.scripting_enabled {
            return self.insert_with_text(RawKind::Rawtext, tag);
        }
        self.insert(tag)?;
        self.set_mode(Mode::InHeadNoscript);
        Ok(())
    }

    /// "In head": a start tag.
    pub fn in_head_start(&mut self, tag: &StartTag<T, A>) -> Result<Step, TreeBuilderError>
        ensures parser { IfOk result (λ step. (again : Again) → followed again step self.new.parser (StartToken (tag_of T.said tag.now)) ≡ in_head_start again (kind_of (name_bytes tag.now.name)) (tag_of T.said tag.now) self.old.parser) }
        ensures telling { OnOk result (self.new.telling ≡ self.old.telling) }
    {
        let kind = tag.kind();
        match kind {
            Kind::HtmlRoot => self.start_html(tag)?,
            Kind::Head => self.unexpected()?,
            Kind::Noscript => self.in_head_noscript_start(tag)?,
            Kind::Base
            | Kind::Link
            | Kind::Meta
            | Kind::Title
            | Kind::Style
            | Kind::Noframes
            | Kind::Script
            | Kind::Template => self.start_in_head(kind, tag)?,
            _ => return self.in_head_other(),
        }
        Ok(Step::Done)
    }

    // The head is closed.
    pub(crate) fn close_head(&mut self) -> Result<(), TreeBuilderError>
        ensures { OnOk result (self.new ≡ on_parser (λ p. in_mode AfterHead (pop p)) self.old) }
    {
        self.pop()?;
        self.set_mode(Mode::AfterHead);
        Ok(())
    }

    /// "In head": an end tag.
    pub fn in_head_end(&mut self, name: &ElementName<A>) -> Result<Step, TreeBuilderError>
        ensures parser { IfOk result (λ step. (again : Again) → followed again step self.new.parser (EndTag (name_bytes name.now)) ≡ in_head_end again (kind_of (name_bytes name.now)) (name_bytes name.now) self.old.parser) }
        ensures telling { OnOk result (self.new.telling ≡ self.old.telling) }
    {
        match name.kind() {
            Kind::Head => self.close_head()?,
            Kind::Body | Kind::HtmlRoot | Kind::LineBreak => return self.in_head_other(),
            Kind::Template => self.end_template()?,
            _ => self.unexpected()?,
        }
        Ok(Step::Done)
    }

    // "In head noscript", anything else: "switch the insertion mode to "in head"".
    pub(crate) fn leave_noscript(&mut self) -> Result<(), TreeBuilderError>
        ensures { OnOk result (self.new ≡ on_parser (moved_on InHeadNoscript) self.old) }
    {
        self.unexpected()?;
        self.pop()?;
        self.set_mode(Mode::InHead);
        Ok(())
    }

    /// "In head noscript": anything else.
    pub fn noscript_other(&mut self) -> Result<Step, TreeBuilderError>
        ensures parser { IfOk result (λ step. (again : Again) (token : Token)
            → followed again step self.new.parser token ≡ noscript_other again token self.old.parser) }
        ensures telling { OnOk result (self.new.telling ≡ self.old.telling) }
    {
        self.leave_noscript()?;
        Ok(Step::Again)
    }

    /// "In head noscript": a start tag.
    pub fn noscript_start(&mut self, tag: &StartTag<T, A>) -> Result<Step, TreeBuilderError>
        ensures parser { IfOk result (λ step. (again : Again) → followed again step self.new.parser (StartToken (tag_of T.said tag.now)) ≡ noscript_start again (kind_of (name_bytes tag.now.name)) (tag_of T.said tag.now) self.old.parser) }
        ensures telling { OnOk result (self.new.telling ≡ self.old.telling) }
    {
        let kind = tag.kind();
        match kind {
            Kind::HtmlRoot => self.start_html(tag)?,
            Kind::Link | Kind::Meta | Kind::Noframes | Kind::Style => self.start_in_head(
                kind, tag,
            )?,
            Kind::Head | Kind::Noscript => self.unexpected()?,
            _ => return self.noscript_other(),
        }
        Ok(Step::Done)
    }

    // The `noscript` of a head is closed.
    fn close_noscript(&mut self) -> Result<(), TreeBuilderError>
        ensures { OnOk result (self.new ≡ on_parser (λ p. in_mode InHead (pop p)) self.old) }
    {
        self.pop()?;
        self.set_mode(Mode::InHead);
        Ok(())
    }

    /// "In head noscript": an end tag.
    pub fn noscript_end(&mut self, name: &ElementName<A>) -> Result<Step, TreeBuilderError>
        ensures parser { IfOk result (λ step. (again : Again) → followed again step self.new.parser (EndTag (name_bytes name.now)) ≡ noscript_end again (kind_of (name_bytes name.now)) (name_bytes name.now) self.old.parser) }
        ensures telling { OnOk result (self.new.telling ≡ self.old.telling) }
    {
        match name.kind() {
            Kind::Noscript => self.close_noscript()?,
            Kind::LineBreak => return self.noscript_other(),
            _ => self.unexpected()?,
        }
        Ok(Step::Done)
    }
}

// A text, or none.
fn text_or_empty<A: Allocator>(text: &Option<String<A>>) -> &str
    ensures { result.now ≡ or_empty (option_map string_bytes text.now) }
{
    match text {
        Some(text) => text.as_str(),
        None => "",
    }
}

// Whether an end tag is "anything else" before the head.
fn ends_early(kind: Kind) -> bool
    ensures { result ≡ ends_early kind }
{
    matches!(
        kind,
        Kind::Head | Kind::Body | Kind::HtmlRoot | Kind::LineBreak
    )
}

// Whether a `meta` has an `http-equiv` that says "content-type".
fn is_content_type<T: TagAttributes>(attributes: &T) -> bool
    ensures { result ≡ is_content_type (value_of (codes "http-equiv") (T.said attributes.now)) }
{
    match attributes.value_of("http-equiv") {
        Some(value) => matches("content-type", value),
        None => false,
    }
}
