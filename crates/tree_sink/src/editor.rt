//! Tells a sink edits, and keeps for contracts which ones.
ghost use Rattle.std.specs.Prelude.{◌≡◌, ◌<◌, suc, ◌+◌, ◌-◌, false, [], length, Some, IfOk, OnErr, OnOk};
ghost use Rattle.tree_construction.specs.Page.Edit.{MakeElement, MakeContents, MakeComment, PutDoctype, Put, Remove, MoveChildren, AddAttributes, SetQuirksMode, MarkStarted, AssociateForm, Pop, PutText, ParseError};
ghost use Rattle.tree_sink.specs.Edited.{IsTold, edited, faults_of, parted_text_edited, text_edited};
ghost use Rattle.tree_sink.specs.Sinks.{erred};
ghost use Rattle.tree_sink.specs.Places.{place_of, put_of};

use crate::attributes::TagAttributes;
use crate::error::TreeBuilderError;
use crate::noted::{Change, EditLog, First, PartedText, TextPut};
use crate::place::{InsertionPoint, NodeOrText};
use crate::sink::TreeSink;
use ghost_counts::{Noted, note};
use html5ever_interface::interface::token::SinkFault;
use std::marker::{Model, PhantomData};
use tree_construction::kinds::Namespace;
use tree_construction::mistakes::Mistake;
use tree_construction::modes::QuirksMode;

/// Tells a sink edits. It notes for contracts which ones, and whether the sink faulted.
#[derive(Drop)]
pub struct Editor<S: TreeSink<T> + Drop, T: TagAttributes> {
    sink: S,
    log: EditLog,
    start: Noted<First<S>>,
    failed: bool,
    of: PhantomData<T>,
}

impl<S: TreeSink<T> + Drop, T: TagAttributes> Model for Editor<S, T> {
    ghost use Rattle.std.specs.Prelude.{◌≡◌, false};
    ghost use Rattle.tree_sink.specs.Edited.{Edited, IsTold};

    ghost Value = { Edited S };

    ghost view = { λ e. record {
      next = S.means.next (S.means.state e.sink);
      edits = e.log.edits;
      start = e.start.value;
      faults = S.faults e.sink;
      failed = e.failed;
    } };

    ghost invariant = { λ e. e.failed ≡ false → IsTold S.means e.start.value e.log.edits e.sink };
}

// Puts a node or a text at a place.
fn put<S: TreeSink<T> + Drop, T: TagAttributes>(
    sink: &mut S,
    place: InsertionPoint<S::Handle>,
    child: NodeOrText<'_, S::Handle>,
) -> Result<(), SinkFault>
    ensures steps { OnOk result (S.means.state sink.new
        ≡ S.means.step (S.means.state sink.old) (put_of S.Handle.node (place_of S.Handle.node place) child.entry)) }
    ensures no_fault { OnOk result (S.faults sink.new ≡ S.faults sink.old) }
    ensures one_fault { OnErr result (S.faults sink.new ≡ S.faults sink.old + 1) }
{
    match place {
        InsertionPoint::LastChild(parent) => sink.append(parent, child),
        InsertionPoint::TableFosterParenting {
            element,
            prev_element,
        } => sink.append_based_on_parent_node(element, prev_element, child),
        InsertionPoint::BesideNode(node) => sink.append_to_parent_of(node, child),
    }
}

// Takes note of so many parse errors.
#[tactic(auto, unfolding(crate::specs::Sinks::erred))]
fn tell_mistakes<S: TreeSink<T> + Drop, T: TagAttributes>(
    sink: &mut S,
    mistake: Mistake,
    count: usize,
) -> Result<(), SinkFault>
    ensures steps { OnOk result (S.means.state sink.new ≡ erred S.means.step mistake count (S.means.state sink.old)) }
    ensures no_fault { OnOk result (S.faults sink.new ≡ S.faults sink.old) }
    ensures one_fault { OnErr result (S.faults sink.new ≡ S.faults sink.old + 1) }
{
    for _ in 0..count {
        sink.parse_error(mistake)?;
    }
    Ok(())
}

// Puts a text at a place, after a parse error for each of its bytes but one.
fn put_parted<S: TreeSink<T> + Drop, T: TagAttributes>(
    sink: &mut S,
    put_at: &PartedText<'_, S::Handle>,
) -> Result<(), SinkFault>
    requires { 0 < length put_at.now.text.now }
    ensures steps { OnOk result (S.means.state sink.new ≡ S.means.step
        (erred S.means.step put_at.now.mistake (length put_at.now.text.now - 1) (S.means.state sink.old))
        (PutText (place_of S.Handle.node put_at.now.place) put_at.now.text.now)) }
    ensures no_fault { OnOk result (S.faults sink.new ≡ S.faults sink.old) }
    ensures one_fault { OnErr result (S.faults sink.new ≡ S.faults sink.old + 1) }
{
    tell_mistakes(sink, put_at.mistake, put_at.text.len() - 1)?;
    put(sink, put_at.place, NodeOrText::AppendText(put_at.text))
}

impl<S: TreeSink<T> + Drop, T: TagAttributes> Editor<S, T> {
    /// Begins with a sink that was told nothing yet by this editor.
    pub fn new(sink: S) -> Editor<S, T>
        ensures start { result.start ≡ Some sink }
        ensures edits { result.edits ≡ [] }
        ensures next { result.next ≡ S.means.next (S.means.state sink) }
        ensures faults { result.faults ≡ S.faults sink }
        ensures well { result.failed ≡ false }
    {
        let start = note(&sink, &());
        Editor {
            sink,
            log: EditLog::new(),
            start,
            failed: false,
            of: PhantomData,
        }
    }

    /// The sink.
    pub fn sink(&self) -> &S
        ensures told { self.now.failed ≡ false → IsTold S.means self.now.start self.now.edits result.now }
    {
        &self.sink
    }

    /// The sink, at the end.
    pub fn into_sink(self) -> S
        ensures told { self.failed ≡ false → IsTold S.means self.start self.edits result }
    {
        self.sink
    }

    /// The document.
    pub fn document(&self) -> S::Handle
        ensures { S.Handle.node result ≡ 0 }
    {
        self.sink.get_document()
    }

    /// Takes a node out of its parent.
    pub fn remove(&mut self, node: S::Handle) -> Result<(), TreeBuilderError>
        ensures ok { OnOk result (self.new ≡ edited (Remove (S.Handle.node node)) self.old) }
        ensures faults { self.new.faults ≡ self.old.faults + faults_of result }
    {
        let Ok(()) = self.sink.remove_from_parent(node) else {
            self.failed = true;
            return Err(TreeBuilderError::Sink);
        };
        self.log.note(&Change::<'_, S::Handle, T>::Remove(node));
        Ok(())
    }

    /// Puts a node that has no parent at a place.
    pub fn put(
        &mut self,
        place: InsertionPoint<S::Handle>,
        node: S::Handle,
    ) -> Result<(), TreeBuilderError>
        ensures ok { OnOk result (self.new ≡ edited (Put (place_of S.Handle.node place) (S.Handle.node node)) self.old) }
        ensures faults { self.new.faults ≡ self.old.faults + faults_of result }
    {
        let Ok(()) = put(&mut self.sink, place, NodeOrText::AppendNode(node)) else {
            self.failed = true;
            return Err(TreeBuilderError::Sink);
        };
        self.log.note(&Change::<'_, S::Handle, T>::Put(place, node));
        Ok(())
    }

    /// Moves all children of a node to another, in their order.
    pub fn move_children(
        &mut self,
        node: S::Handle,
        new_parent: S::Handle,
    ) -> Result<(), TreeBuilderError>
        ensures ok { OnOk result (self.new ≡ edited (MoveChildren (S.Handle.node node) (S.Handle.node new_parent)) self.old) }
        ensures faults { self.new.faults ≡ self.old.faults + faults_of result }
    {
        let Ok(()) = self.sink.reparent_children(node, new_parent) else {
            self.failed = true;
            return Err(TreeBuilderError::Sink);
        };
        self.log.note(&Change::<'_, S::Handle, T>::MoveChildren(node, new_parent));
        Ok(())
    }

    /// Adds to an element the attributes that it does not have yet.
    pub fn add_attributes(
        &mut self,
        target: S::Handle,
        attributes: &T,
    ) -> Result<(), TreeBuilderError>
        ensures ok { OnOk result (self.new ≡ edited (AddAttributes (S.Handle.node target) (T.said attributes.now)) self.old) }
        ensures faults { self.new.faults ≡ self.old.faults + faults_of result }
    {
        let Ok(()) = self.sink.add_attrs_if_missing(target, attributes) else {
            self.failed = true;
            return Err(TreeBuilderError::Sink);
        };
        self.log.note(&Change::<'_, S::Handle, T>::AddAttributes(target, attributes));
        Ok(())
    }

    /// Appends a doctype to the document.
    pub fn put_doctype(
        &mut self,
        name: &str,
        public_id: &str,
        system_id: &str,
    ) -> Result<(), TreeBuilderError>
        ensures ok { OnOk result (self.new ≡ edited (PutDoctype name.now public_id.now system_id.now) self.old) }
        ensures faults { self.new.faults ≡ self.old.faults + faults_of result }
    {
        let Ok(()) = self
            .sink
            .append_doctype_to_document(name, public_id, system_id)
        else {
            self.failed = true;
            return Err(TreeBuilderError::Sink);
        };
        self.log.note(&Change::<'_, S::Handle, T>::PutDoctype(name, public_id, system_id));
        Ok(())
    }

    /// Sets the mode of the document.
    pub fn set_quirks_mode(&mut self, mode: QuirksMode) -> Result<(), TreeBuilderError>
        ensures ok { OnOk result (self.new ≡ edited (SetQuirksMode mode) self.old) }
        ensures faults { self.new.faults ≡ self.old.faults + faults_of result }
    {
        let Ok(()) = self.sink.set_quirks_mode(mode) else {
            self.failed = true;
            return Err(TreeBuilderError::Sink);
        };
        self.log
            .note(&Change::<'_, S::Handle, T>::SetQuirksMode(mode));
        Ok(())
    }

    /// Sets a script's "already started" flag.
    pub fn mark_started(&mut self, node: S::Handle) -> Result<(), TreeBuilderError>
        ensures ok { OnOk result (self.new ≡ edited (MarkStarted (S.Handle.node node)) self.old) }
        ensures faults { self.new.faults ≡ self.old.faults + faults_of result }
    {
        let Ok(()) = self.sink.mark_script_already_started(node) else {
            self.failed = true;
            return Err(TreeBuilderError::Sink);
        };
        self.log
            .note(&Change::<'_, S::Handle, T>::MarkStarted(node));
        Ok(())
    }

    /// Associates an element with a form, if the place where it is put is in the form's tree.
    pub fn associate(
        &mut self,
        target: S::Handle,
        form: S::Handle,
        place: InsertionPoint<S::Handle>,
    ) -> Result<(), TreeBuilderError>
        ensures ok { OnOk result (self.new ≡ edited (AssociateForm (S.Handle.node target) (S.Handle.node form) (place_of S.Handle.node place)) self.old) }
        ensures faults { self.new.faults ≡ self.old.faults + faults_of result }
    {
        let Ok(()) = self.sink.associate_with_form(target, form, place) else {
            self.failed = true;
            return Err(TreeBuilderError::Sink);
        };
        self.log.note(&Change::<'_, S::Handle, T>::AssociateForm(target, form, place));
        Ok(())
    }

    /// Takes note that an element has left the stack of open elements.
    pub fn pop(&mut self, node: S::Handle) -> Result<(), TreeBuilderError>
        ensures ok { OnOk result (self.new ≡ edited (Pop (S.Handle.node node)) self.old) }
        ensures faults { self.new.faults ≡ self.old.faults + faults_of result }
    {
        let Ok(()) = self.sink.pop(node) else {
            self.failed = true;
            return Err(TreeBuilderError::Sink);
        };
        self.log.note(&Change::<'_, S::Handle, T>::Pop(node));
        Ok(())
    }

    /// Takes note of a parse error.
    pub fn mistake(&mut self, mistake: Mistake) -> Result<(), TreeBuilderError>
        ensures ok { OnOk result (self.new ≡ edited (ParseError mistake) self.old) }
        ensures faults { self.new.faults ≡ self.old.faults + faults_of result }
    {
        let Ok(()) = self.sink.parse_error(mistake) else {
            self.failed = true;
            return Err(TreeBuilderError::Sink);
        };
        self.log
            .note(&Change::<'_, S::Handle, T>::ParseError(mistake));
        Ok(())
    }

    /// Makes an element, which stands nowhere yet.
    pub fn create_element(
        &mut self,
        namespace: Namespace,
        name: &str,
        attributes: &T,
    ) -> Result<S::Handle, TreeBuilderError>
        ensures ok { OnOk result (self.new ≡ edited (MakeElement self.old.next namespace name.now (T.said attributes.now)) self.old) }
        ensures node { IfOk result (λ handle. S.Handle.node handle ≡ self.old.next) }
        ensures faults { self.new.faults ≡ self.old.faults + faults_of result }
    {
        let Ok(handle) = self.sink.create_element(namespace, name, attributes) else {
            self.failed = true;
            return Err(TreeBuilderError::Sink);
        };
        self.log.note(&Change::<'_, S::Handle, T>::MakeElement(
            handle, namespace, name, attributes,
        ));
        Ok(handle)
    }

    /// Makes an element without attributes.
    pub fn create_bare_element(
        &mut self,
        namespace: Namespace,
        name: &str,
    ) -> Result<S::Handle, TreeBuilderError>
        ensures ok { OnOk result (self.new ≡ edited (MakeElement self.old.next namespace name.now []) self.old) }
        ensures node { IfOk result (λ handle. S.Handle.node handle ≡ self.old.next) }
        ensures faults { self.new.faults ≡ self.old.faults + faults_of result }
    {
        let Ok(handle) = self.sink.create_bare_element(namespace, name) else {
            self.failed = true;
            return Err(TreeBuilderError::Sink);
        };
        self.log.note(&Change::<'_, S::Handle, T>::MakeBareElement(handle, namespace, name));
        Ok(handle)
    }

    /// Makes the template contents of a template that was made just before.
    pub fn create_contents(&mut self, template: S::Handle) -> Result<(), TreeBuilderError>
        ensures ok { OnOk result
            (self.new ≡ edited (MakeContents (S.Handle.node template) (suc (S.Handle.node template))) self.old) }
        ensures faults { self.new.faults ≡ self.old.faults + faults_of result }
    {
        let Ok(()) = self.sink.create_template_contents(template) else {
            self.failed = true;
            return Err(TreeBuilderError::Sink);
        };
        self.log
            .note(&Change::<'_, S::Handle, T>::MakeContents(template));
        Ok(())
    }

    /// The template contents of a template.
    pub fn contents_of(&self, template: S::Handle) -> Result<S::Handle, TreeBuilderError>
        ensures { IfOk result (λ handle. S.Handle.node handle ≡ suc (S.Handle.node template)) }
    {
        Ok(self.sink.get_template_contents(template)?)
    }

    /// Makes a comment.
    pub fn create_comment(&mut self, text: &str) -> Result<S::Handle, TreeBuilderError>
        ensures ok { OnOk result (self.new ≡ edited (MakeComment self.old.next text.now) self.old) }
        ensures node { IfOk result (λ handle. S.Handle.node handle ≡ self.old.next) }
        ensures faults { self.new.faults ≡ self.old.faults + faults_of result }
    {
        let Ok(handle) = self.sink.create_comment(text) else {
            self.failed = true;
            return Err(TreeBuilderError::Sink);
        };
        self.log
            .note(&Change::<'_, S::Handle, T>::MakeComment(handle, text));
        Ok(handle)
    }

    /// Puts a text at a place, as one edit.
    pub fn put_whole_text(
        &mut self,
        place: InsertionPoint<S::Handle>,
        text: &str,
    ) -> Result<(), TreeBuilderError>
        requires some { 0 < length text.now }
        ensures ok { OnOk result (self.new ≡ edited (PutText (place_of S.Handle.node place) text.now) self.old) }
        ensures faults { self.new.faults ≡ self.old.faults + faults_of result }
    {
        let Ok(()) = put(&mut self.sink, place, NodeOrText::AppendText(text)) else {
            self.failed = true;
            return Err(TreeBuilderError::Sink);
        };
        self.log
            .note(&Change::<'_, S::Handle, T>::PutText(place, text));
        Ok(())
    }

    /// Puts a text at a place, and takes note of a parse error before each of its bytes but the first.
    pub fn put_parted_text(
        &mut self,
        mistake: Mistake,
        place: InsertionPoint<S::Handle>,
        text: &str,
    ) -> Result<(), TreeBuilderError>
        ensures ok { OnOk result
            (self.new ≡ parted_text_edited mistake (place_of S.Handle.node place) text.now self.old) }
        ensures faults { self.new.faults ≡ self.old.faults + faults_of result }
    {
        if text.is_empty() {
            return Ok(());
        }
        let put_at = PartedText {
            mistake,
            place,
            text,
        };
        let Ok(()) = put_parted(&mut self.sink, &put_at) else {
            self.failed = true;
            return Err(TreeBuilderError::Sink);
        };
        self.log.note_parted_text(&put_at);
        Ok(())
    }

    /// Puts a text at a place.
    pub fn put_text(
        &mut self,
        place: InsertionPoint<S::Handle>,
        text: &str,
    ) -> Result<(), TreeBuilderError>
        ensures ok { OnOk result (self.new ≡ text_edited (place_of S.Handle.node place) text.now self.old) }
        ensures faults { self.new.faults ≡ self.old.faults + faults_of result }
    {
        if text.is_empty() {
            return Ok(());
        }
        let Ok(()) = put(&mut self.sink, place, NodeOrText::AppendText(text)) else {
            self.failed = true;
            return Err(TreeBuilderError::Sink);
        };
        self.log.note_text(&TextPut { place, text });
        Ok(())
    }
}
