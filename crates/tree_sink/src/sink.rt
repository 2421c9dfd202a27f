//! The sink of a tree.
use crate::attributes::TagAttributes;
use crate::handle::NodeHandle;
use crate::place::{InsertionPoint, NodeOrText};
use html5ever_interface::interface::token::SinkFault;
use std::alloc::AllocError;
use tree_construction::kinds::Namespace;
use tree_construction::mistakes::Mistake;
use tree_construction::modes::QuirksMode;

/// Builds a tree as it is told. Its contract names a state that edits step. Each call is one edit.
pub trait TreeSink<T: TagAttributes> {
    ghost use Rattle.std.specs.Prelude.{◌≡◌, ℕ, suc, ◌+◌, List, [], ◌∷◌, ◌++◌, IfOk, OnErr, OnOk};
    ghost use Rattle.tree_construction.specs.Page.{Edit, Place};
    ghost use Rattle.tree_construction.specs.Page.Place.{LastChild, BeforeTable, BesideNode};
    ghost use Rattle.tree_construction.specs.Page.Edit.{MakeElement, MakeContents, MakeComment, PutDoctype, PutText, Remove, MoveChildren, AddAttributes, SetQuirksMode, MarkStarted, AssociateForm, Pop, ParseError};
    ghost use Rattle.tree_construction.specs.declared.mistakes.Mistake.{Mistake};
    ghost use Rattle.tree_sink.specs.Places.{place_of, put_of};
    ghost use Rattle.tree_sink.specs.Sinks.{TreeMeans, next_after};

    type Handle: NodeHandle;

    // The abstract state of a sink, what it makes of edits, and how often it faulted.
    ghost State: { Type 0 };

    ghost means: { TreeMeans Self State };

    ghost faults: { Self → ℕ };

    /// The document.
    fn get_document(&self) -> Self::Handle
        ensures { Self.Handle.node result ≡ 0 };

    /// "Create an element": it stands nowhere yet. Attributes have the names of the namespace.
    fn create_element(
        &mut self,
        namespace: Namespace,
        name: &str,
        attributes: &T,
    ) -> Result<Self::Handle, SinkFault>
        ensures names { IfOk result (λ handle. Self.Handle.node handle ≡ means.next (means.state self.old)) }
        ensures steps { OnOk result (means.state self.new ≡ means.step (means.state self.old)
            (MakeElement (means.next (means.state self.old)) namespace name.now (T.said attributes.now))) }
        ensures no_fault { OnOk result (faults self.new ≡ faults self.old) }
        ensures one_fault { OnErr result (faults self.new ≡ faults self.old + 1) };

    /// The same, of an element without attributes.
    fn create_bare_element(
        &mut self,
        namespace: Namespace,
        name: &str,
    ) -> Result<Self::Handle, SinkFault>
        ensures names { IfOk result (λ handle. Self.Handle.node handle ≡ means.next (means.state self.old)) }
        ensures steps { OnOk result (means.state self.new ≡ means.step (means.state self.old)
            (MakeElement (means.next (means.state self.old)) namespace name.now [])) }
        ensures no_fault { OnOk result (faults self.new ≡ faults self.old) }
        ensures one_fault { OnErr result (faults self.new ≡ faults self.old + 1) };

    /// Makes the template contents of a template that was made just before. They are a node of their own.
    fn create_template_contents(&mut self, template: Self::Handle) -> Result<(), SinkFault>
        ensures steps { OnOk result (means.state self.new ≡ means.step (means.state self.old)
            (MakeContents (Self.Handle.node template) (suc (Self.Handle.node template)))) }
        ensures no_fault { OnOk result (faults self.new ≡ faults self.old) }
        ensures one_fault { OnErr result (faults self.new ≡ faults self.old + 1) };

    /// The template contents of a template. They were made just after it. A sink has so many handles at most: it may
    /// refuse one.
    fn get_template_contents(&self, template: Self::Handle) -> Result<Self::Handle, AllocError>
        ensures { IfOk result (λ handle. Self.Handle.node handle ≡ suc (Self.Handle.node template)) };

    /// Makes a comment.
    fn create_comment(&mut self, text: &str) -> Result<Self::Handle, SinkFault>
        ensures names { IfOk result (λ handle. Self.Handle.node handle ≡ means.next (means.state self.old)) }
        ensures steps { OnOk result (means.state self.new ≡ means.step (means.state self.old)
            (MakeComment (means.next (means.state self.old)) text.now)) }
        ensures no_fault { OnOk result (faults self.new ≡ faults self.old) }
        ensures one_fault { OnErr result (faults self.new ≡ faults self.old + 1) };

    /// Appends a doctype to the document. What it lacks is empty.
    fn append_doctype_to_document(
        &mut self,
        name: &str,
        public_id: &str,
        system_id: &str,
    ) -> Result<(), SinkFault>
        ensures steps { OnOk result (means.state self.new ≡ means.step (means.state self.old)
            (PutDoctype name.now public_id.now system_id.now)) }
        ensures no_fault { OnOk result (faults self.new ≡ faults self.old) }
        ensures one_fault { OnErr result (faults self.new ≡ faults self.old + 1) };

    /// Puts a node or a text after the last child of a parent. No text is empty.
    fn append(
        &mut self,
        parent: Self::Handle,
        child: NodeOrText<'_, Self::Handle>,
    ) -> Result<(), SinkFault>
        ensures steps { OnOk result (means.state self.new ≡ means.step (means.state self.old)
            (put_of Self.Handle.node (LastChild (Self.Handle.node parent)) child.entry)) }
        ensures no_fault { OnOk result (faults self.new ≡ faults self.old) }
        ensures one_fault { OnErr result (faults self.new ≡ faults self.old + 1) };

    /// Puts a node or a text straight before a table, if that has a parent, or else after the last child of another
    /// element.
    fn append_based_on_parent_node(
        &mut self,
        element: Self::Handle,
        prev_element: Self::Handle,
        child: NodeOrText<'_, Self::Handle>,
    ) -> Result<(), SinkFault>
        ensures steps { OnOk result (means.state self.new ≡ means.step (means.state self.old)
            (put_of Self.Handle.node (BeforeTable (Self.Handle.node element) (Self.Handle.node prev_element)) child.entry)) }
        ensures no_fault { OnOk result (faults self.new ≡ faults self.old) }
        ensures one_fault { OnErr result (faults self.new ≡ faults self.old + 1) };

    /// Puts a node or a text after the last child of the parent of a node. Only a builder with a limit of the depth
    /// calls it.
    fn append_to_parent_of(
        &mut self,
        node: Self::Handle,
        child: NodeOrText<'_, Self::Handle>,
    ) -> Result<(), SinkFault>
        ensures steps { OnOk result (means.state self.new ≡ means.step (means.state self.old)
            (put_of Self.Handle.node (BesideNode (Self.Handle.node node)) child.entry)) }
        ensures no_fault { OnOk result (faults self.new ≡ faults self.old) }
        ensures one_fault { OnErr result (faults self.new ≡ faults self.old + 1) };

    /// Takes a node out of its parent.
    fn remove_from_parent(&mut self, node: Self::Handle) -> Result<(), SinkFault>
        ensures steps { OnOk result (means.state self.new ≡ means.step (means.state self.old) (Remove (Self.Handle.node node))) }
        ensures no_fault { OnOk result (faults self.new ≡ faults self.old) }
        ensures one_fault { OnErr result (faults self.new ≡ faults self.old + 1) };

    /// Moves all children of a node to another, in their order.
    fn reparent_children(
        &mut self,
        node: Self::Handle,
        new_parent: Self::Handle,
    ) -> Result<(), SinkFault>
        ensures steps { OnOk result (means.state self.new ≡ means.step (means.state self.old)
            (MoveChildren (Self.Handle.node node) (Self.Handle.node new_parent))) }
        ensures no_fault { OnOk result (faults self.new ≡ faults self.old) }
        ensures one_fault { OnErr result (faults self.new ≡ faults self.old + 1) };

    /// Adds to an element the attributes that it does not have yet.
    fn add_attrs_if_missing(
        &mut self,
        target: Self::Handle,
        attributes: &T,
    ) -> Result<(), SinkFault>
        ensures steps { OnOk result (means.state self.new ≡ means.step (means.state self.old)
            (AddAttributes (Self.Handle.node target) (T.said attributes.now))) }
        ensures no_fault { OnOk result (faults self.new ≡ faults self.old) }
        ensures one_fault { OnErr result (faults self.new ≡ faults self.old + 1) };

    /// Sets the mode of the document.
    fn set_quirks_mode(&mut self, mode: QuirksMode) -> Result<(), SinkFault>
        ensures steps { OnOk result (means.state self.new ≡ means.step (means.state self.old) (SetQuirksMode mode)) }
        ensures no_fault { OnOk result (faults self.new ≡ faults self.old) }
        ensures one_fault { OnErr result (faults self.new ≡ faults self.old + 1) };

    /// Sets a script's "already started" flag.
    fn mark_script_already_started(&mut self, node: Self::Handle) -> Result<(), SinkFault>
        ensures steps { OnOk result (means.state self.new ≡ means.step (means.state self.old) (MarkStarted (Self.Handle.node node))) }
        ensures no_fault { OnOk result (faults self.new ≡ faults self.old) }
        ensures one_fault { OnErr result (faults self.new ≡ faults self.old + 1) };

    /// Associates an element with a form, if the place where it is put is in the form's tree.
    fn associate_with_form(
        &mut self,
        target: Self::Handle,
        form: Self::Handle,
        place: InsertionPoint<Self::Handle>,
    ) -> Result<(), SinkFault>
        ensures steps { OnOk result (means.state self.new ≡ means.step (means.state self.old)
            (AssociateForm (Self.Handle.node target) (Self.Handle.node form) (place_of Self.Handle.node place))) }
        ensures no_fault { OnOk result (faults self.new ≡ faults self.old) }
        ensures one_fault { OnErr result (faults self.new ≡ faults self.old + 1) };

    /// Takes note that an element has left the stack of open elements.
    fn pop(&mut self, node: Self::Handle) -> Result<(), SinkFault>
        ensures steps { OnOk result (means.state self.new ≡ means.step (means.state self.old) (Pop (Self.Handle.node node))) }
        ensures no_fault { OnOk result (faults self.new ≡ faults self.old) }
        ensures one_fault { OnErr result (faults self.new ≡ faults self.old + 1) };

    /// Takes note of a parse error.
    fn parse_error(&mut self, mistake: Mistake) -> Result<(), SinkFault>
        ensures steps { OnOk result (means.state self.new ≡ means.step (means.state self.old) (ParseError mistake)) }
        ensures no_fault { OnOk result (faults self.new ≡ faults self.old) }
        ensures one_fault { OnErr result (faults self.new ≡ faults self.old + 1) };

    // Nodes are numbered in their order.
    ghost counts: { (s : State) (edit : Edit) → means.next (means.step s edit) ≡ next_after edit (means.next s) };

    // Two texts at one place are as one. No empty text is put.
    ghost joins: { (s : State) (place : Place) (a b : List ℕ)
        → means.step (means.step s (PutText place a)) (PutText place b) ≡ means.step s (PutText place (a ++ b)) };

    // Parse errors do not change what a text becomes.
    ghost apart: { (s : State) (place : Place) (text : List ℕ) (mistake : Mistake)
        → means.step (means.step s (ParseError mistake)) (PutText place text)
        ≡ means.step (means.step s (PutText place text)) (ParseError mistake) };
}
