//! All children of a node, as they are moved to another.
ghost use Rattle.std.specs.Prelude.{◌≡◌, [], map};
ghost use Rattle.tree_construction.specs.Document.{applied, changed, moved, row_of, with_children};
ghost use Rattle.tree_construction.specs.Page.Edit.{MoveChildren};
ghost use Rattle.tree_arena.specs.Children.{children_of};
ghost use Rattle.tree_arena.specs.Rows.{plain_row, rows_of};

use crate::node::NodeId;
use crate::numbers::index_of;
use crate::row::{Child, Node};
use std::alloc::Allocator;
use std::mem;

// Takes all children of a node.
fn take_children<A: Allocator + Copy>(
    nodes: &mut [Node<A>],
    alloc: A,
    source: NodeId,
) -> Vec<Child<A>, A>
    ensures taken { children_of result.items ≡ (row_of source.0 (rows_of nodes.old)).children }
    ensures left { rows_of nodes.new ≡ changed source.0 (with_children (λ own. [])) (rows_of nodes.old) }
{
    match index_of(source, nodes.len()) {
        Some(at) => mem::replace(&mut nodes[at].children, Vec::new(alloc)),
        None => Vec::new(alloc),
    }
}

// Gives a node other children.
fn set_children<A: Allocator>(nodes: &mut [Node<A>], target: NodeId, children: Vec<Child<A>, A>)
    ensures { rows_of nodes.new
        ≡ changed target.0 (with_children (λ own. children_of children.items)) (rows_of nodes.old) }
{
    if let Some(at) = index_of(target, nodes.len()) {
        nodes[at].children = children;
    }
}

// Gives a node another parent, if it stands in a node.
fn move_node<A: Allocator>(node: &mut Node<A>, source: NodeId, target: NodeId)
    ensures { plain_row node.new ≡ moved source.0 target.0 (plain_row node.old) }
{
    if let Some(parent) = node.parent {
        if parent.0 == source.0 {
            node.parent = Some(target);
        }
    }
}

// Gives all nodes that stand in a node another parent.
fn move_nodes<A: Allocator>(nodes: &mut [Node<A>], source: NodeId, target: NodeId)
    ensures { rows_of nodes.new ≡ map (moved source.0 target.0) (rows_of nodes.old) }
{
    for at in 0..nodes.len() {
        move_node(&mut nodes[at], source, target);
    }
}

/// Moves all children of a node to another.
pub fn move_children<A: Allocator + Copy>(
    nodes: &mut [Node<A>],
    alloc: A,
    source: NodeId,
    target: NodeId,
)
    ensures { rows_of nodes.new ≡ applied (MoveChildren source.0 target.0) (rows_of nodes.old) }
{
    let children = take_children(nodes, alloc, source);
    set_children(nodes, target, children);
    move_nodes(nodes, source, target);
}
