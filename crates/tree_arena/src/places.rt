//! Places by their nodes, and what is put there.
ghost use Rattle.std.specs.Prelude.{◌≡◌, None, IfOk, OnOk};
ghost use Rattle.tree_construction.specs.Document.{applied, spot_of};
ghost use Rattle.tree_construction.specs.Page.Edit.{Remove};
ghost use Rattle.tree_sink.specs.Places.{place_of, put_of};
ghost use Rattle.tree_arena.specs.Children.{number};
ghost use Rattle.tree_arena.specs.Rows.{rows_of};
ghost use Rattle.tree_arena.specs.Spots.{spot_in};

use crate::node::NodeId;
use crate::row::Node;
use crate::rows;
use std::alloc::{AllocError, Allocator};
use tree_sink::place::{InsertionPoint, NodeOrText};

/// Inside which node, and before which of its children, if not after the last.
#[derive(Clone, Copy)]
pub struct Spot {
    pub parent: NodeId,
    pub before: Option<NodeId>,
}

// After the last child of a node.
fn last_in(parent: NodeId) -> Spot
    ensures parent { result.parent ≡ parent }
    ensures before { result.before ≡ None }
{
    Spot {
        parent,
        before: None,
    }
}

// Where a place is.
fn spot_of<A: Allocator>(nodes: &[Node<A>], place: InsertionPoint<NodeId>) -> Spot
    ensures { spot_in result ≡ spot_of (place_of number place) (rows_of nodes.now) }
{
    match place {
        InsertionPoint::LastChild(parent) => last_in(parent),
        InsertionPoint::TableFosterParenting {
            element,
            prev_element,
        } => match rows::parent_of(nodes, element) {
            Some(parent) => Spot {
                parent,
                before: Some(element),
            },
            None => last_in(prev_element),
        },
        InsertionPoint::BesideNode(node) => match rows::parent_of(nodes, node) {
            Some(parent) => last_in(parent),
            None => last_in(node),
        },
    }
}

/// Puts a node or a text at a place.
pub fn put<A: Allocator + Copy>(
    nodes: &mut [Node<A>],
    alloc: A,
    place: InsertionPoint<NodeId>,
    child: NodeOrText<'_, NodeId>,
) -> Result<(), AllocError>
    ensures { OnOk result (rows_of nodes.new
        ≡ applied (put_of number (place_of number place) child.entry) (rows_of nodes.old)) }
{
    let spot = spot_of(nodes, place);
    match child {
        NodeOrText::AppendNode(node) => {
            rows::set_parent(nodes, node, Some(spot.parent));
            rows::put_child(nodes, spot.parent, spot.before, node)
        }
        NodeOrText::AppendText(text) => {
            rows::put_text(nodes, alloc, spot.parent, spot.before, text)
        }
    }
}

/// Takes a node out of its parent.
pub fn remove<A: Allocator>(nodes: &mut [Node<A>], node: NodeId)
    ensures { rows_of nodes.new ≡ applied (Remove node.0) (rows_of nodes.old) }
{
    if let Some(parent) = rows::parent_of(nodes, node) {
        rows::set_parent(nodes, node, None);
        rows::remove_child(nodes, parent, node);
    }
}
