//! An arena as a sink of a tree.
ghost use Rattle.std.specs.Prelude.{◌≡◌, ◌+◌, OnErr, OnOk};
ghost use Rattle.tree_construction.specs.Page.Edit.{AssociateForm};
ghost use Rattle.tree_construction.specs.Page.Place.{LastChild, BeforeTable, BesideNode};
ghost use Rattle.tree_sink.specs.Places.{place_of, put_of};
ghost use Rattle.tree_arena.specs.Children.{number};
ghost use Rattle.tree_arena.specs.Grown.{document_after, document_of};

use crate::arena::Arena;
use crate::node::NodeId;
use html5ever_interface::interface::token::SinkFault;
use markup5ever::interface::Attribute;
use std::alloc::{AllocError, Allocator};
use tree_construction::kinds::Namespace;
use tree_construction::mistakes::Mistake;
use tree_construction::modes::QuirksMode;
use tree_sink::place::{InsertionPoint, NodeOrText};
use tree_sink::sink::TreeSink;

/// An arena holds the document that edits make.
impl<A: Allocator + Copy> TreeSink<Vec<Attribute<A>, A>> for Arena<A> {
    ghost use Rattle.std.specs.Prelude.{refl};
    ghost use Rattle.tree_arena.specs.Grown.{Document, arena_means};
    ghost use Rattle.tree_arena.specs.GrownLaws.{texts_join};

    type Handle = NodeId;

    ghost State = { Document };

    ghost means = { arena_means };

    ghost faults = { λ arena. arena.faults };

    ghost counts = { λ document edit. refl };

    ghost joins = { texts_join };

    ghost apart = { λ document place text mistake. refl };

    fn get_document(&self) -> NodeId {
        self.document()
    }

    fn create_element(
        &mut self,
        namespace: Namespace,
        name: &str,
        attributes: &Vec<Attribute<A>, A>,
    ) -> Result<NodeId, SinkFault> {
        self.make_element(namespace, name, attributes)
    }

    fn create_bare_element(
        &mut self,
        namespace: Namespace,
        name: &str,
    ) -> Result<NodeId, SinkFault> {
        self.make_bare_element(namespace, name)
    }

    fn create_template_contents(&mut self, template: NodeId) -> Result<(), SinkFault> {
        self.make_contents(template)
    }

    fn get_template_contents(&self, template: NodeId) -> Result<NodeId, AllocError> {
        match template.0.checked_add(1) {
            Some(number) => Ok(NodeId(number)),
            None => Err(AllocError),
        }
    }

    fn create_comment(&mut self, text: &str) -> Result<NodeId, SinkFault> {
        self.make_comment(text)
    }

    fn append_doctype_to_document(
        &mut self,
        name: &str,
        public_id: &str,
        system_id: &str,
    ) -> Result<(), SinkFault> {
        self.add_doctype(name, public_id, system_id)
    }

    fn append(&mut self, parent: NodeId, child: NodeOrText<'_, NodeId>) -> Result<(), SinkFault>
        ensures steps { OnOk result (document_of self.new
            ≡ document_after (document_of self.old) (put_of number (LastChild parent.0) child.entry)) }
        ensures no_fault { OnOk result (self.new.faults ≡ self.old.faults) }
        ensures one_fault { OnErr result (self.new.faults ≡ self.old.faults + 1) }
    {
        self.put(InsertionPoint::LastChild(parent), child)
    }

    fn append_based_on_parent_node(
        &mut self,
        element: NodeId,
        prev_element: NodeId,
        child: NodeOrText<'_, NodeId>,
    ) -> Result<(), SinkFault>
        ensures steps { OnOk result (document_of self.new
            ≡ document_after (document_of self.old) (put_of number (BeforeTable element.0 prev_element.0) child.entry)) }
        ensures no_fault { OnOk result (self.new.faults ≡ self.old.faults) }
        ensures one_fault { OnErr result (self.new.faults ≡ self.old.faults + 1) }
    {
        let place = InsertionPoint::TableFosterParenting {
            element,
            prev_element,
        };
        self.put(place, child)
    }

    fn append_to_parent_of(
        &mut self,
        node: NodeId,
        child: NodeOrText<'_, NodeId>,
    ) -> Result<(), SinkFault>
        ensures steps { OnOk result (document_of self.new
            ≡ document_after (document_of self.old) (put_of number (BesideNode node.0) child.entry)) }
        ensures no_fault { OnOk result (self.new.faults ≡ self.old.faults) }
        ensures one_fault { OnErr result (self.new.faults ≡ self.old.faults + 1) }
    {
        self.put(InsertionPoint::BesideNode(node), child)
    }

    fn remove_from_parent(&mut self, node: NodeId) -> Result<(), SinkFault> {
        self.take_out(node);
        Ok(())
    }

    fn reparent_children(&mut self, node: NodeId, new_parent: NodeId) -> Result<(), SinkFault> {
        self.move_children(node, new_parent);
        Ok(())
    }

    fn add_attrs_if_missing(
        &mut self,
        target: NodeId,
        attributes: &Vec<Attribute<A>, A>,
    ) -> Result<(), SinkFault> {
        self.add_attributes(target, attributes)
    }

    fn set_quirks_mode(&mut self, _mode: QuirksMode) -> Result<(), SinkFault> {
        Ok(())
    }

    fn mark_script_already_started(&mut self, _node: NodeId) -> Result<(), SinkFault> {
        Ok(())
    }

    fn associate_with_form(
        &mut self,
        _target: NodeId,
        _form: NodeId,
        _place: InsertionPoint<NodeId>,
    ) -> Result<(), SinkFault>
        ensures steps { OnOk result (document_of self.new
            ≡ document_after (document_of self.old) (AssociateForm _target.0 _form.0 (place_of number _place))) }
        ensures no_fault { OnOk result (self.new.faults ≡ self.old.faults) }
        ensures one_fault { OnErr result (self.new.faults ≡ self.old.faults + 1) }
    {
        Ok(())
    }

    fn pop(&mut self, _node: NodeId) -> Result<(), SinkFault> {
        Ok(())
    }

    fn parse_error(&mut self, _mistake: Mistake) -> Result<(), SinkFault> {
        Ok(())
    }
}
