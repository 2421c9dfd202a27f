//! "Creating and inserting nodes".
ghost use Rattle.std.specs.Prelude.{◌≡◌, [], IfOk, OnOk};
ghost use Rattle.tree_construction.specs.Names.{kind_in_namespace, kind_of};
ghost use Rattle.tree_construction.specs.Adjusting.{adjusted_tag_name};
ghost use Rattle.tree_construction.specs.InBody.{insert_foreign};
ghost use Rattle.tree_construction.specs.Page.{comment_put, edited, made, pushed};
ghost use Rattle.tree_construction.specs.Page.Edit.{Put};
ghost use Rattle.tree_construction.specs.Parser.{associated_with, insert, insert_comment, insert_comment_in_document, insert_comment_in_root, insert_text, insert_void, inserted, inserted_at, on_page, takes_form};
ghost use Rattle.tree_construction.specs.Tokens.{bare_tag};
ghost use Rattle.tree_names.specs.ElementNames.{name_bytes, name_of};
ghost use Rattle.tree_builder.specs.Built.{created, inserted_as, made_as, on_parser, tag_of, with_contents};
ghost use Rattle.tree_sink.specs.Places.{place_of as sink_place};

use crate::builder::Builder;
use crate::tag::{StartTag, html_kind};
use std::alloc::Allocator;
use tree_construction::kinds::{Kind, Namespace};
use tree_lists::opened::OpenElement;
use tree_names::adjusting::{svg_kind, svg_tag_name};
use tree_names::known::KnownName;
use tree_names::name::ElementName;
use tree_sink::attributes::TagAttributes;
use tree_sink::error::TreeBuilderError;
use tree_sink::place::InsertionPoint;
use tree_sink::sink::TreeSink;

impl<S: TreeSink<T> + Drop, T: TagAttributes, A: Allocator> Builder<S, T, A> {
    // Makes template contents, if the element that was made is a template.
    fn create_contents(&mut self, kind: Kind, handle: S::Handle) -> Result<(), TreeBuilderError>
        ensures { OnOk result (self.new ≡ on_parser (on_page (with_contents kind (S.Handle.node handle))) self.old) }
    {
        if kind.is_template() {
            return self.editor.create_contents(handle);
        }
        Ok(())
    }

    /// "Create an element for a token": of attributes that have the names of its namespace.
    pub fn create(
        &mut self,
        kind: Kind,
        name: &ElementName<A>,
        attributes: &T,
    ) -> Result<S::Handle, TreeBuilderError>
        ensures ok { OnOk result
            (self.new ≡ on_parser (on_page (made_as kind (name_bytes name.now) (T.said attributes.now))) self.old) }
        ensures node { IfOk result (λ handle. S.Handle.node handle ≡ self.old.parser.page.next) }
    {
        let handle = self
            .editor
            .create_element(kind.namespace(), name.as_str(), attributes)?;
        self.create_contents(kind, handle)?;
        Ok(handle)
    }

    // The same, without attributes.
    pub(crate) fn create_bare(
        &mut self,
        kind: Kind,
        name: KnownName,
    ) -> Result<S::Handle, TreeBuilderError>
        ensures ok { OnOk result (self.new ≡ on_parser (on_page (made_as kind (name_of name) [])) self.old) }
        ensures node { IfOk result (λ handle. S.Handle.node handle ≡ self.old.parser.page.next) }
    {
        let handle = self
            .editor
            .create_bare_element(kind.namespace(), name.as_str())?;
        self.create_contents(kind, handle)?;
        Ok(handle)
    }

    // Whether an element takes the form element pointer's form, where that is set.
    fn takes_form(&self, kind: Kind, attributes: &T) -> bool
        ensures { result ≡ takes_form self.now.parser kind (T.said attributes.now) }
    {
        kind.is_form_associated()
            && !self.has_template()
            && !(kind.is_listed() && attributes.value_of("form").is_some())
    }

    // The same of an element without attributes.
    #[tactic(auto, unfolding(tree_construction::specs::Tokens::value_of))]
    fn takes_form_bare(&self, kind: Kind) -> bool
        ensures { result ≡ takes_form self.now.parser kind [] }
    {
        kind.is_form_associated() && !self.has_template()
    }

    // Associates an element with the form element pointer's form.
    fn associate(
        &mut self,
        takes: bool,
        handle: S::Handle,
        place: InsertionPoint<S::Handle>,
    ) -> Result<(), TreeBuilderError>
        ensures { OnOk result (self.new ≡ on_parser (λ p. on_page
            (associated_with p.form takes (S.Handle.node handle) (sink_place S.Handle.node place)) p) self.old) }
    {
        match self.form {
            Some(form) if takes => self.editor.associate(handle, form, place),
            _ => Ok(()),
        }
    }

    // Puts an element that was made at a place, and opens it.
    pub(crate) fn put_and_push(
        &mut self,
        place: InsertionPoint<S::Handle>,
        element: OpenElement<S::Handle, A>,
    ) -> Result<(), TreeBuilderError>
        ensures { OnOk result (self.new ≡ on_parser (on_page (λ page. pushed element.kind (name_bytes element.name)
            (S.Handle.node element.handle) (edited (Put (sink_place S.Handle.node place) (S.Handle.node element.handle)) page))) self.old) }
    {
        self.editor.put(place, element.handle)?;
        self.opened.push(element)?;
        Ok(())
    }
}

impl<S: TreeSink<T> + Drop, T: TagAttributes, A: Allocator + Copy> Builder<S, T, A> {
    // Makes an element of attributes that have the names of its namespace, puts it at a place, and opens it.
    fn insert_as(
        &mut self,
        place: InsertionPoint<S::Handle>,
        kind: Kind,
        name: &ElementName<A>,
        attributes: &T,
        takes: bool,
    ) -> Result<S::Handle, TreeBuilderError>
        ensures ok { OnOk result (self.new ≡ on_parser (inserted_as (sink_place S.Handle.node place) kind (name_bytes name.now)
            (T.said attributes.now) takes) self.old) }
        ensures node { IfOk result (λ handle. S.Handle.node handle ≡ self.old.parser.page.next) }
    {
        let own = name.try_clone()?;
        let handle = self.create(kind, name, attributes)?;
        self.associate(takes, handle, place)?;
        self.put_and_push(
            place,
            OpenElement {
                handle,
                kind,
                name: own,
            },
        )?;
        Ok(handle)
    }

    // The same, of attributes as the tag has them.
    pub(crate) fn insert_at(
        &mut self,
        place: InsertionPoint<S::Handle>,
        kind: Kind,
        name: &ElementName<A>,
        attributes: &T,
    ) -> Result<S::Handle, TreeBuilderError>
        ensures ok { OnOk result (self.new ≡ on_parser (inserted_at (sink_place S.Handle.node place) kind (name_bytes name.now)
            (T.said attributes.now)) self.old) }
        ensures node { IfOk result (λ handle. S.Handle.node handle ≡ self.old.parser.page.next) }
    {
        let takes = self.takes_form(kind, attributes);
        if kind.is_html() {
            return self.insert_as(place, kind, name, attributes, takes);
        }
        let mut adjusted = attributes.share()?;
        adjusted.adjust(kind.namespace())?;
        self.insert_as(place, kind, name, &adjusted, takes)
    }

    /// "Insert an HTML element" of a kind.
    pub fn insert_element(
        &mut self,
        kind: Kind,
        name: &ElementName<A>,
        attributes: &T,
    ) -> Result<S::Handle, TreeBuilderError>
        ensures ok { OnOk result (self.new ≡ on_parser (inserted kind (name_bytes name.now) (T.said attributes.now)) self.old) }
        ensures node { IfOk result (λ handle. S.Handle.node handle ≡ self.old.parser.page.next) }
    {
        self.insert_at(self.place(0)?, kind, name, attributes)
    }

    /// "Insert an HTML element for the token".
    pub fn insert(&mut self, tag: &StartTag<T, A>) -> Result<S::Handle, TreeBuilderError>
        ensures ok { OnOk result (self.new ≡ on_parser (insert (tag_of T.said tag.now)) self.old) }
        ensures node { IfOk result (λ handle. S.Handle.node handle ≡ self.old.parser.page.next) }
    {
        self.insert_element(tag.kind(), &tag.name, &tag.attributes)
    }

    // Makes an element without attributes, puts it at a place, and opens it.
    fn insert_bare_as(
        &mut self,
        place: InsertionPoint<S::Handle>,
        kind: Kind,
        name: KnownName,
        takes: bool,
    ) -> Result<S::Handle, TreeBuilderError>
        ensures ok { OnOk result (self.new
            ≡ on_parser (inserted_as (sink_place S.Handle.node place) kind (name_of name) [] takes) self.old) }
        ensures node { IfOk result (λ handle. S.Handle.node handle ≡ self.old.parser.page.next) }
    {
        let handle = self.create_bare(kind, name)?;
        self.associate(takes, handle, place)?;
        self.put_and_push(
            place,
            OpenElement {
                handle,
                kind,
                name: ElementName::Known(name),
            },
        )?;
        Ok(handle)
    }

    // The same at a place, of a tag without attributes, as rows make it.
    fn insert_bare_at(
        &mut self,
        place: InsertionPoint<S::Handle>,
        name: KnownName,
    ) -> Result<S::Handle, TreeBuilderError>
        ensures ok { OnOk result (self.new
            ≡ on_parser (inserted_at (sink_place S.Handle.node place) (kind_of (name_of name)) (name_of name) []) self.old) }
        ensures node { IfOk result (λ handle. S.Handle.node handle ≡ self.old.parser.page.next) }
    {
        let kind = html_kind(name);
        let takes = self.takes_form_bare(kind);
        self.insert_bare_as(place, kind, name, takes)
    }

    /// The same of a tag without attributes, as rows make it.
    pub fn insert_bare(&mut self, name: KnownName) -> Result<S::Handle, TreeBuilderError>
        ensures ok { OnOk result (self.new ≡ on_parser (insert (bare_tag (name_of name))) self.old) }
        ensures node { IfOk result (λ handle. S.Handle.node handle ≡ self.old.parser.page.next) }
    {
        self.insert_bare_at(self.place(0)?, name)
    }

    /// Inserts a void element without attributes.
    pub fn insert_void_bare(&mut self, name: KnownName) -> Result<(), TreeBuilderError>
        ensures { OnOk result (self.new ≡ on_parser (insert_void (bare_tag (name_of name))) self.old) }
    {
        self.insert_bare_at(self.place(1)?, name)?;
        self.pop()?;
        self.acknowledge();
        Ok(())
    }

    /// Inserts an element, pops it at once, and acknowledges the self-closing flag.
    pub fn insert_void(&mut self, tag: &StartTag<T, A>) -> Result<(), TreeBuilderError>
        ensures { OnOk result (self.new ≡ on_parser (insert_void (tag_of T.said tag.now)) self.old) }
    {
        self.insert_at(self.place(1)?, tag.kind(), &tag.name, &tag.attributes)?;
        self.pop()?;
        self.acknowledge();
        Ok(())
    }

    /// "Insert a foreign element for the token", with adjusted names.
    pub fn insert_foreign(
        &mut self,
        namespace: Namespace,
        tag: &StartTag<T, A>,
    ) -> Result<(), TreeBuilderError>
        ensures { OnOk result (self.new ≡ on_parser (insert_foreign namespace (tag_of T.said tag.now)) self.old) }
    {
        let name = self.adjusted_name(namespace, tag)?;
        let kind = foreign_kind(namespace, &name, &tag.attributes);
        let place = self.place(usize::from(tag.self_closing))?;
        self.insert_at(place, kind, &name, &tag.attributes)?;
        Ok(())
    }

    // The tag name of an element in a namespace.
    #[tactic(auto, unfolding(tree_construction::specs::Adjusting::adjusted_tag_name))]
    fn adjusted_name(
        &self,
        namespace: Namespace,
        tag: &StartTag<T, A>,
    ) -> Result<ElementName<A>, TreeBuilderError>
        ensures { IfOk result (λ name. name_bytes name ≡ adjusted_tag_name namespace (name_bytes tag.now.name)) }
    {
        if namespace == Namespace::Svg {
            if let Some(name) = svg_tag_name(tag.name.as_str()) {
                return Ok(ElementName::Other(String::from_str(self.alloc, name)?));
            }
        }
        Ok(tag.name.try_clone()?)
    }
}

// The kind of an element in a namespace, by its adjusted name and the attributes of its tag.
#[tactic(auto, unfolding(tree_construction::specs::Names::kind_in_namespace))]
fn foreign_kind<T: TagAttributes, A: Allocator>(
    namespace: Namespace,
    name: &ElementName<A>,
    attributes: &T,
) -> Kind
    ensures { result ≡ kind_in_namespace namespace (name_bytes name.now) (T.said attributes.now) }
{
    match namespace {
        Namespace::Html => name.kind(),
        Namespace::MathMl => attributes.math_kind(name.as_str()),
        Namespace::Svg => svg_kind(name.as_str()),
    }
}
