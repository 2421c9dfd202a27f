//! Nodes that are made. They stand nowhere yet.
ghost use Rattle.std.specs.Prelude.{◌≡◌, Some, suc, ◌+◌, ◌<◌, [], length, map, true, vec_len, IfOk, OnErr};
ghost use Rattle.markup5ever.specs.Names.{attribute_of};
ghost use Rattle.tree_construction.specs.Document.{changed, new_row};
ghost use Rattle.tree_construction.specs.Document.What.{Element, Comment};
ghost use Rattle.tree_arena.specs.Rows.{HasContents, IsMade, rows_of, what_of};

use crate::node::NodeId;
use crate::row::{Node, NodeKind};
use crate::rows;
use markup5ever::interface::Attribute;
use std::alloc::{AllocError, Allocator};
use tree_construction::kinds::Namespace;
use tree_names::attributes::clone_attributes;

/// Makes a node.
pub fn make<A: Allocator + Copy>(
    nodes: &mut Vec<Node<A>, A>,
    alloc: A,
    what: NodeKind<A>,
) -> Result<NodeId, AllocError>
    requires { 0 < vec_len nodes.old }
    ensures ok { IfOk result (λ id. IsMade id.0 (what_of what) nodes.old.items nodes.new.items) }
    ensures err { OnErr result (nodes.new.items ≡ nodes.old.items) }
{
    let id = NodeId(nodes.len() + 2);
    nodes.push(Node {
        what,
        parent: None,
        contents: None,
        children: Vec::new(alloc),
    })?;
    Ok(id)
}

/// Makes an element.
pub fn make_element<A: Allocator + Copy>(
    nodes: &mut Vec<Node<A>, A>,
    alloc: A,
    namespace: Namespace,
    name: &str,
    attributes: &Vec<Attribute<A>, A>,
) -> Result<NodeId, AllocError>
    requires { 0 < vec_len nodes.old }
    ensures ok { IfOk result (λ id. IsMade id.0
        (Element namespace name.now (map attribute_of attributes.now.items)) nodes.old.items nodes.new.items) }
    ensures err { OnErr result (nodes.new.items ≡ nodes.old.items) }
{
    let name = String::from_str(alloc, name)?;
    let attributes = clone_attributes(attributes)?;
    make(
        nodes,
        alloc,
        NodeKind::Element {
            namespace,
            name,
            attributes,
        },
    )
}

/// Makes an element without attributes.
pub fn make_bare_element<A: Allocator + Copy>(
    nodes: &mut Vec<Node<A>, A>,
    alloc: A,
    namespace: Namespace,
    name: &str,
) -> Result<NodeId, AllocError>
    requires { 0 < vec_len nodes.old }
    ensures ok { IfOk result (λ id. IsMade id.0 (Element namespace name.now []) nodes.old.items nodes.new.items) }
    ensures err { OnErr result (nodes.new.items ≡ nodes.old.items) }
{
    let name = String::from_str(alloc, name)?;
    make(
        nodes,
        alloc,
        NodeKind::Element {
            namespace,
            name,
            attributes: Vec::new(alloc),
        },
    )
}

/// Makes a comment.
pub fn make_comment<A: Allocator + Copy>(
    nodes: &mut Vec<Node<A>, A>,
    alloc: A,
    text: &str,
) -> Result<NodeId, AllocError>
    requires { 0 < vec_len nodes.old }
    ensures ok { IfOk result (λ id. IsMade id.0 (Comment text.now) nodes.old.items nodes.new.items) }
    ensures err { OnErr result (nodes.new.items ≡ nodes.old.items) }
{
    let text = String::from_str(alloc, text)?;
    make(nodes, alloc, NodeKind::Comment(text))
}

/// Makes the contents of a template, if it was made last.
pub fn make_contents<A: Allocator + Copy>(
    nodes: &mut Vec<Node<A>, A>,
    alloc: A,
    template: NodeId,
) -> Result<bool, AllocError>
    requires { 0 < vec_len nodes.old }
    ensures ok { IfOk result (λ made. made ≡ true → HasContents template.0 nodes.old.items nodes.new.items) }
    ensures count { 0 < length nodes.new.items }
{
    if nodes.len() + 1 != template.0 {
        return Ok(false);
    }
    give_contents(nodes, template, NodeId(template.0 + 1));
    make(nodes, alloc, NodeKind::TemplateContents)?;
    Ok(true)
}

// Gives a template its contents.
fn give_contents<A: Allocator>(nodes: &mut Vec<Node<A>, A>, template: NodeId, contents: NodeId)
    ensures rows { rows_of nodes.new.items
        ≡ changed template.0 (λ r. record r { contents = Some contents.0 }) (rows_of nodes.old.items) }
    ensures count { vec_len nodes.new ≡ vec_len nodes.old }
{
    rows::set_contents(nodes, template, contents);
}
