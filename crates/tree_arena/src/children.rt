//! What stands in a node, as it is added, put in before a node, and taken out.
ghost use Rattle.std.specs.Prelude.{◌≡◌, ◌+◌, ◌<◌, ◌≤◌, List, ◌∷◌, ◌++◌, drop, length, take, string_bytes, vec_len, option_map, false, true, IfOk, MatchOption, OnOk};
ghost use Rattle.tree_construction.specs.Document.{Child as DocumentChild, added, is_node, put_among, without_node};
ghost use Rattle.tree_construction.specs.Document.Child.{Node as DocumentNode, Text as DocumentText, Doctype as DocumentDoctype};
ghost use Rattle.tree_arena.specs.Children.{IsLastAt, IsNowhere, IsPlace, IsNoPlace, child_of, children_of, is_text, number, put_in};

use crate::node::NodeId;
use crate::row::Child;
use std::alloc::{AllocError, Allocator};

// Whether a child is a node.
fn is_node<A: Allocator>(child: &Child<A>, node: NodeId) -> bool
    ensures { result ≡ is_node node.0 (child_of child.now) }
{
    match child {
        Child::Node(other) => other.0 == node.0,
        _ => false,
    }
}

// At which index a node stands last.
fn last_index_of<A: Allocator>(children: &[Child<A>], node: NodeId) -> Option<usize>
    ensures { MatchOption result (IsNowhere node.0 children.now)
        (λ at. IsLastAt node.0 children.now at) }
{
    let mut at = children.len();
    while at > 0 {
        at -= 1;
        if is_node(&children[at], node) {
            return Some(at);
        }
    }
    None
}

// At which index something is put: before a node, or after the last child.
fn index_before<A: Allocator>(children: &[Child<A>], before: Option<NodeId>) -> Option<usize>
    ensures { MatchOption result (IsNoPlace (option_map number before) children.now)
        (λ at. IsPlace (option_map number before) children.now at) }
{
    match before {
        Some(node) => last_index_of(children, node),
        None => Some(children.len()),
    }
}

/// Puts a node before another, or after the last child.
pub fn put_node<A: Allocator>(
    children: &mut Vec<Child<A>, A>,
    before: Option<NodeId>,
    node: NodeId,
) -> Result<(), AllocError>
    ensures { OnOk result (children_of children.new.items
        ≡ put_among (option_map number before) (DocumentNode node.0) (children_of children.old.items)) }
{
    match index_before(children, before) {
        Some(at) => insert(children, at, node),
        None => Ok(()),
    }
}

/// Puts a text before a node, or after the last child. It is joined with a text that stands there.
pub fn put_text<A: Allocator + Copy>(
    children: &mut Vec<Child<A>, A>,
    alloc: A,
    before: Option<NodeId>,
    text: &str,
) -> Result<(), AllocError>
    ensures { OnOk result (children_of children.new.items
        ≡ put_among (option_map number before) (DocumentText text.now) (children_of children.old.items)) }
{
    match index_before(children, before) {
        Some(at) => insert_text(children, alloc, at, text),
        None => Ok(()),
    }
}

// Puts a node in at an index.
fn insert<A: Allocator>(
    children: &mut Vec<Child<A>, A>,
    at: usize,
    node: NodeId,
) -> Result<(), AllocError>
    requires { at ≤ vec_len children.old }
    ensures { OnOk result
        (children_of children.new.items ≡ put_in at (DocumentNode node.0) children.old.items) }
{
    children.insert(at, Child::Node(node))?;
    Ok(())
}

// Whether a child is a text.
fn is_text<A: Allocator>(child: &Child<A>) -> bool
    ensures { result ≡ is_text (child_of child.now) }
{
    matches!(child, Child::Text(_))
}

// Joins a text to a text.
fn extend<A: Allocator>(child: &mut Child<A>, text: &str) -> Result<(), AllocError>
    requires { is_text (child_of child.old) ≡ true }
    ensures { OnOk result ((children : List DocumentChild)
        → child_of child.new ∷ children ≡ added (DocumentText text.now) (child_of child.old ∷ children)) }
{
    match child {
        Child::Text(before) => {
            before.push_str(text)?;
            Ok(())
        }
        _ => unreachable!(),
    }
}

// Puts a text in at an index, where no text stands before it.
fn insert_new_text<A: Allocator + Copy>(
    children: &mut Vec<Child<A>, A>,
    alloc: A,
    at: usize,
    text: &str,
) -> Result<(), AllocError>
    requires within { at ≤ vec_len children.old }
    requires alone { put_in at (DocumentText text.now) children.old.items
        ≡ children_of (drop at children.old.items) ++ DocumentText text.now ∷ children_of (take at children.old.items) }
    ensures { OnOk result
        (children_of children.new.items ≡ put_in at (DocumentText text.now) children.old.items) }
{
    children.insert(at, Child::Text(String::from_str(alloc, text)?))?;
    Ok(())
}

// Puts a text in at an index.
fn insert_text<A: Allocator + Copy>(
    children: &mut Vec<Child<A>, A>,
    alloc: A,
    at: usize,
    text: &str,
) -> Result<(), AllocError>
    requires { at ≤ vec_len children.old }
    ensures { OnOk result
        (children_of children.new.items ≡ put_in at (DocumentText text.now) children.old.items) }
{
    if at == 0 {
        return insert_new_text(children, alloc, at, text);
    }
    if is_text(&children[at - 1]) {
        extend(&mut children[at - 1], text)
    } else {
        insert_new_text(children, alloc, at, text)
    }
}

/// Adds a doctype.
pub fn add_doctype<A: Allocator + Copy>(
    children: &mut Vec<Child<A>, A>,
    alloc: A,
    name: &str,
    public_id: &str,
    system_id: &str,
) -> Result<(), AllocError>
    ensures { OnOk result (children_of children.new.items
        ≡ added (DocumentDoctype name.now public_id.now system_id.now) (children_of children.old.items)) }
{
    children.push(Child::Doctype {
        name: String::from_str(alloc, name)?,
        public_id: String::from_str(alloc, public_id)?,
        system_id: String::from_str(alloc, system_id)?,
    })?;
    Ok(())
}

/// Takes out a node.
pub fn remove<A: Allocator>(children: &mut Vec<Child<A>, A>, node: NodeId)
    ensures { children_of children.new.items ≡ without_node node.0 (children_of children.old.items) }
{
    if let Some(at) = last_index_of(children, node) {
        children.remove(at);
    }
}
