//! What an arena holds: nodes, and what stands in them.
use crate::node::NodeId;
use markup5ever::interface::Attribute;
use std::alloc::Allocator;
use tree_construction::kinds::Namespace;

/// What a node is.
#[derive(Drop)]
pub enum NodeKind<A: Allocator> {
    /// The document.
    Document,
    /// An element.
    Element {
        namespace: Namespace,
        name: String<A>,
        attributes: Vec<Attribute<A>, A>,
    },
    /// The template contents of a template.
    TemplateContents,
    /// A comment.
    Comment(String<A>),
}

/// What stands in a node.
#[derive(Drop)]
pub enum Child<A: Allocator> {
    /// Another node.
    Node(NodeId),
    /// A text.
    Text(String<A>),
    /// A doctype. What it lacks is empty.
    Doctype {
        name: String<A>,
        public_id: String<A>,
        system_id: String<A>,
    },
}

/// A node.
#[derive(Drop)]
pub struct Node<A: Allocator> {
    /// What it is.
    pub what: NodeKind<A>,
    /// The node that it stands in.
    pub parent: Option<NodeId>,
    /// The template contents, if it is a template.
    pub contents: Option<NodeId>,
    /// What stands in it, in order.
    pub children: Vec<Child<A>, A>,
}
