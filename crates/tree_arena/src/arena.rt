//! A document as an arena: a sink of a tree that keeps its nodes, and answers for them.
ghost use Rattle.std.specs.Prelude.{◌≡◌, suc, ◌+◌, [], length, map, IfOk, IfSome, OnErr, OnOk};
ghost use Rattle.markup5ever.specs.Names.{attribute_of};
ghost use Rattle.tree_construction.specs.Document.{first_rows, row_of};
ghost use Rattle.tree_construction.specs.Page.Edit.{AddAttributes, MakeComment, MakeContents, MakeElement, MoveChildren, PutDoctype, Remove};
ghost use Rattle.tree_sink.specs.Places.{place_of, put_of};
ghost use Rattle.tree_arena.specs.Children.{number};
ghost use Rattle.tree_arena.specs.Grown.{document_after, document_of};
ghost use Rattle.tree_arena.specs.Rows.{plain_row, with_number};

use crate::node::NodeId;
use crate::numbers::index_of;
use crate::row::{Node, NodeKind};
use crate::{making, moves, places, rows};
use ghost_counts::Count;
use html5ever_interface::interface::token::SinkFault;
use markup5ever::interface::Attribute;
use std::alloc::{AllocError, Allocator};
use std::marker::Model;
use tree_construction::kinds::Namespace;
use tree_sink::place::{InsertionPoint, NodeOrText};

/// A document. Contracts see its rows, the last first.
#[derive(Drop)]
pub struct Arena<A: Allocator> {
    alloc: A,
    nodes: Vec<Node<A>, A>,
    faults: Count,
}

impl<A: Allocator> Model for Arena<A> {
    ghost use Rattle.std.specs.Prelude.{suc, ◌<◌, length};
    ghost use Rattle.tree_arena.specs.Grown.{Grown};
    ghost use Rattle.tree_arena.specs.Rows.{rows_of};

    ghost Value = { Grown };

    ghost view = { λ a. record {
      rows = rows_of a.nodes.items;
      next = suc (suc (length a.nodes.items));
      faults = a.faults.total;
    } };

    ghost invariant = { λ a. 0 < length a.nodes.items };
}

impl<A: Allocator + Copy> Arena<A> {
    /// An empty document.
    pub fn new(alloc: A) -> Result<Arena<A>, AllocError>
        ensures rows { IfOk result (λ arena. arena.rows ≡ first_rows) }
        ensures next { IfOk result (λ arena. arena.next ≡ 3) }
        ensures faults { IfOk result (λ arena. arena.faults ≡ 0) }
    {
        let mut nodes = Vec::new(alloc);
        nodes.push(Node {
            what: NodeKind::Document,
            parent: None,
            contents: None,
            children: Vec::new(alloc),
        })?;
        Ok(Arena {
            alloc,
            nodes,
            faults: Count::new(),
        })
    }

    // Takes note of a fault.
    fn fault(&mut self) -> SinkFault
        ensures { self.new.faults ≡ self.old.faults + 1 }
    {
        self.faults.add(1);
        SinkFault
    }

    // Puts a node or a text at a place.
    pub(crate) fn put(
        &mut self,
        place: InsertionPoint<NodeId>,
        child: NodeOrText<'_, NodeId>,
    ) -> Result<(), SinkFault>
        ensures steps { OnOk result (document_of self.new
            ≡ document_after (document_of self.old) (put_of number (place_of number place) child.entry)) }
        ensures no_fault { OnOk result (self.new.faults ≡ self.old.faults) }
        ensures one_fault { OnErr result (self.new.faults ≡ self.old.faults + 1) }
    {
        let Ok(()) = places::put(&mut self.nodes, self.alloc, place, child) else {
            return Err(self.fault());
        };
        Ok(())
    }

    // Takes a node out of its parent.
    pub(crate) fn take_out(&mut self, node: NodeId)
        ensures steps { document_of self.new ≡ document_after (document_of self.old) (Remove node.0) }
        ensures no_fault { self.new.faults ≡ self.old.faults }
    {
        places::remove(&mut self.nodes, node);
    }

    // Moves all children of a node to another.
    pub(crate) fn move_children(&mut self, source: NodeId, target: NodeId)
        ensures steps { document_of self.new
            ≡ document_after (document_of self.old) (MoveChildren source.0 target.0) }
        ensures no_fault { self.new.faults ≡ self.old.faults }
    {
        moves::move_children(&mut self.nodes, self.alloc, source, target);
    }

    // Adds to an element the attributes that it lacks.
    pub(crate) fn add_attributes(
        &mut self,
        target: NodeId,
        attributes: &[Attribute<A>],
    ) -> Result<(), SinkFault>
        ensures steps { OnOk result (document_of self.new
            ≡ document_after (document_of self.old) (AddAttributes target.0 (map attribute_of attributes.now))) }
        ensures no_fault { OnOk result (self.new.faults ≡ self.old.faults) }
        ensures one_fault { OnErr result (self.new.faults ≡ self.old.faults + 1) }
    {
        let Ok(()) = rows::add_attributes(&mut self.nodes, target, attributes) else {
            return Err(self.fault());
        };
        Ok(())
    }

    // Adds a doctype to the document.
    pub(crate) fn add_doctype(
        &mut self,
        name: &str,
        public_id: &str,
        system_id: &str,
    ) -> Result<(), SinkFault>
        ensures steps { OnOk result (document_of self.new
            ≡ document_after (document_of self.old) (PutDoctype name.now public_id.now system_id.now)) }
        ensures no_fault { OnOk result (self.new.faults ≡ self.old.faults) }
        ensures one_fault { OnErr result (self.new.faults ≡ self.old.faults + 1) }
    {
        let Ok(()) = rows::add_doctype(&mut self.nodes, self.alloc, name, public_id, system_id)
        else {
            return Err(self.fault());
        };
        Ok(())
    }

    // Makes an element.
    pub(crate) fn make_element(
        &mut self,
        namespace: Namespace,
        name: &str,
        attributes: &Vec<Attribute<A>, A>,
    ) -> Result<NodeId, SinkFault>
        ensures names { IfOk result (λ id. id.0 ≡ self.old.next) }
        ensures steps { OnOk result (document_of self.new ≡ document_after (document_of self.old)
            (MakeElement self.old.next namespace name.now (map attribute_of attributes.now.items))) }
        ensures no_fault { OnOk result (self.new.faults ≡ self.old.faults) }
        ensures one_fault { OnErr result (self.new.faults ≡ self.old.faults + 1) }
    {
        let Ok(id) = making::make_element(&mut self.nodes, self.alloc, namespace, name, attributes)
        else {
            return Err(self.fault());
        };
        Ok(id)
    }

    // Makes an element without attributes.
    pub(crate) fn make_bare_element(
        &mut self,
        namespace: Namespace,
        name: &str,
    ) -> Result<NodeId, SinkFault>
        ensures names { IfOk result (λ id. id.0 ≡ self.old.next) }
        ensures steps { OnOk result (document_of self.new ≡ document_after (document_of self.old)
            (MakeElement self.old.next namespace name.now [])) }
        ensures no_fault { OnOk result (self.new.faults ≡ self.old.faults) }
        ensures one_fault { OnErr result (self.new.faults ≡ self.old.faults + 1) }
    {
        let Ok(id) = making::make_bare_element(&mut self.nodes, self.alloc, namespace, name) else {
            return Err(self.fault());
        };
        Ok(id)
    }

    // Makes a comment.
    pub(crate) fn make_comment(&mut self, text: &str) -> Result<NodeId, SinkFault>
        ensures names { IfOk result (λ id. id.0 ≡ self.old.next) }
        ensures steps { OnOk result (document_of self.new
            ≡ document_after (document_of self.old) (MakeComment self.old.next text.now)) }
        ensures no_fault { OnOk result (self.new.faults ≡ self.old.faults) }
        ensures one_fault { OnErr result (self.new.faults ≡ self.old.faults + 1) }
    {
        let Ok(id) = making::make_comment(&mut self.nodes, self.alloc, text) else {
            return Err(self.fault());
        };
        Ok(id)
    }

    // Makes the contents of a template that was made last. Those of another are refused.
    pub(crate) fn make_contents(&mut self, template: NodeId) -> Result<(), SinkFault>
        ensures steps { OnOk result (document_of self.new
            ≡ document_after (document_of self.old) (MakeContents template.0 (suc template.0))) }
        ensures no_fault { OnOk result (self.new.faults ≡ self.old.faults) }
        ensures one_fault { OnErr result (self.new.faults ≡ self.old.faults + 1) }
    {
        let Ok(true) = making::make_contents(&mut self.nodes, self.alloc, template) else {
            return Err(self.fault());
        };
        Ok(())
    }

    /// The document.
    pub fn document(&self) -> NodeId
        ensures { result.0 ≡ 0 }
    {
        NodeId(0)
    }

    /// How many nodes there are, with the document.
    pub fn len(&self) -> usize
        ensures { result ≡ length self.now.rows }
    {
        self.nodes.len()
    }

    /// A node, if it was made.
    pub fn node(&self, id: NodeId) -> Option<&Node<A>>
        ensures { IfSome result (λ node. row_of id.0 self.now.rows ≡ with_number id.0 (plain_row node.now)) }
    {
        match index_of(id, self.nodes.len()) {
            Some(at) => Some(&self.nodes[at]),
            None => None,
        }
    }
}
