//! Nodes that are changed and read by their numbers. A number without a node changes nothing.
ghost use Rattle.std.specs.Prelude.{◌≡◌, Some, map, option_map, IfOk, OnOk};
ghost use Rattle.tree_construction.specs.Document.{applied, changed, parent_of, put_among, row_of, with_children, with_parent, without_node};
ghost use Rattle.tree_construction.specs.Page.Edit.{AddAttributes, PutDoctype};
ghost use Rattle.markup5ever.specs.Names.{attribute_of};
ghost use Rattle.tree_construction.specs.Document.Child.{Node as DocumentNode, Text as DocumentText};
ghost use Rattle.tree_arena.specs.Children.{number};
ghost use Rattle.tree_arena.specs.Rows.{rows_of};

use crate::node::NodeId;
use crate::numbers::index_of;
use crate::row::Node;
use crate::{attributes, children};
use markup5ever::interface::Attribute;
use std::alloc::{AllocError, Allocator};

/// The node that a node stands in.
pub fn parent_of<A: Allocator>(nodes: &[Node<A>], id: NodeId) -> Option<NodeId>
    ensures { option_map number result ≡ parent_of id.0 (rows_of nodes.now) }
{
    match index_of(id, nodes.len()) {
        Some(at) => nodes[at].parent,
        None => None,
    }
}

/// Gives a node a parent, or none.
pub fn set_parent<A: Allocator>(nodes: &mut [Node<A>], id: NodeId, parent: Option<NodeId>)
    ensures { rows_of nodes.new
        ≡ changed id.0 (with_parent (option_map number parent)) (rows_of nodes.old) }
{
    if let Some(at) = index_of(id, nodes.len()) {
        nodes[at].parent = parent;
    }
}

/// Takes a node out of the children of another.
pub fn remove_child<A: Allocator>(nodes: &mut [Node<A>], parent: NodeId, node: NodeId)
    ensures { rows_of nodes.new
        ≡ changed parent.0 (with_children (without_node node.0)) (rows_of nodes.old) }
{
    if let Some(at) = index_of(parent, nodes.len()) {
        children::remove(&mut nodes[at].children, node);
    }
}

/// Puts a node among the children of another: before one of them, or after the last.
pub fn put_child<A: Allocator>(
    nodes: &mut [Node<A>],
    parent: NodeId,
    before: Option<NodeId>,
    node: NodeId,
) -> Result<(), AllocError>
    ensures { OnOk result (rows_of nodes.new
        ≡ changed parent.0 (with_children (put_among (option_map number before) (DocumentNode node.0)))
        (rows_of nodes.old)) }
{
    match index_of(parent, nodes.len()) {
        Some(at) => children::put_node(&mut nodes[at].children, before, node),
        None => Ok(()),
    }
}

/// Puts a text among the children of a node: before one of them, or after the last.
pub fn put_text<A: Allocator + Copy>(
    nodes: &mut [Node<A>],
    alloc: A,
    parent: NodeId,
    before: Option<NodeId>,
    text: &str,
) -> Result<(), AllocError>
    ensures { OnOk result (rows_of nodes.new
        ≡ changed parent.0 (with_children (put_among (option_map number before) (DocumentText text.now)))
        (rows_of nodes.old)) }
{
    match index_of(parent, nodes.len()) {
        Some(at) => children::put_text(&mut nodes[at].children, alloc, before, text),
        None => Ok(()),
    }
}

/// Adds a doctype to the document.
pub fn add_doctype<A: Allocator + Copy>(
    nodes: &mut [Node<A>],
    alloc: A,
    name: &str,
    public_id: &str,
    system_id: &str,
) -> Result<(), AllocError>
    ensures { OnOk result (rows_of nodes.new
        ≡ applied (PutDoctype name.now public_id.now system_id.now) (rows_of nodes.old)) }
{
    match index_of(NodeId(0), nodes.len()) {
        Some(at) => {
            children::add_doctype(&mut nodes[at].children, alloc, name, public_id, system_id)
        }
        None => Ok(()),
    }
}

/// Gives a node its template contents.
pub fn set_contents<A: Allocator>(nodes: &mut [Node<A>], id: NodeId, contents: NodeId)
    ensures { rows_of nodes.new
        ≡ changed id.0 (λ r. record r { contents = Some contents.0 }) (rows_of nodes.old) }
{
    if let Some(at) = index_of(id, nodes.len()) {
        nodes[at].contents = Some(contents);
    }
}

/// Adds to an element the attributes that it lacks.
pub fn add_attributes<A: Allocator + Copy>(
    nodes: &mut [Node<A>],
    id: NodeId,
    more: &[Attribute<A>],
) -> Result<(), AllocError>
    ensures { OnOk result (rows_of nodes.new
        ≡ applied (AddAttributes id.0 (map attribute_of more.now)) (rows_of nodes.old)) }
{
    match index_of(id, nodes.len()) {
        Some(at) => attributes::add_attributes(&mut nodes[at].what, more),
        None => Ok(()),
    }
}
