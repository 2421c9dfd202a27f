//! The nodes of a document, each on its line, with what stands in it further in.
ghost use Rattle.std.specs.Prelude.{◌≡◌, ◌+◌, ◌++◌, ◌^◌, ◌<◌, map, option_map, OnOk};
ghost use Rattle.tree_arena.specs.Children.{child_of, children_of, number};
ghost use Rattle.tree_arena.specs.Rows.{what_of};
ghost use Rattle.tree_lines.specs.Lines.{children_lines, child_lines, doctype_text, element_text, line, lines_within, node_lines, own_lines, tree_lines};

use crate::attributes::push_attributes;
use crate::line::push_line;
use std::alloc::{AllocError, Allocator};
use tree_arena::arena::Arena;
use tree_arena::node::NodeId;
use tree_arena::row::{Child, Node, NodeKind};
use tree_construction::kinds::Namespace;

// Appends the line of an element without its attributes.
fn push_element<A: Allocator>(
    output: &mut Vec<u8, A>,
    depth: usize,
    namespace: Namespace,
    name: &str,
) -> Result<(), AllocError>
    ensures { OnOk result
        (output.new.items ≡ output.old.items ++ line depth (element_text namespace name.now)) }
{
    match namespace {
        Namespace::Html => push_line(output, depth, &["<", name, ">"]),
        Namespace::MathMl => push_line(output, depth, &["<math ", name, ">"]),
        Namespace::Svg => push_line(output, depth, &["<svg ", name, ">"]),
    }
}

// Appends the line of a doctype.
fn push_doctype<A: Allocator>(
    output: &mut Vec<u8, A>,
    depth: usize,
    name: &str,
    public_id: &str,
    system_id: &str,
) -> Result<(), AllocError>
    ensures { OnOk result (output.new.items
        ≡ output.old.items ++ line depth (doctype_text name.now public_id.now system_id.now)) }
{
    if public_id.is_empty() && system_id.is_empty() {
        return push_line(output, depth, &["<!DOCTYPE ", name, ">"]);
    }
    push_line(
        output,
        depth,
        &[
            "<!DOCTYPE ",
            name,
            " \"",
            public_id,
            "\" \"",
            system_id,
            "\">",
        ],
    )
}

// Appends the lines of a node without what stands in it.
fn push_own<A: Allocator + Copy>(
    output: &mut Vec<u8, A>,
    alloc: A,
    depth: usize,
    what: &NodeKind<A>,
) -> Result<(), AllocError>
    requires { depth + 1 < 2 ^ 64 }
    ensures { OnOk result (output.new.items ≡ output.old.items ++ own_lines depth (what_of what.now)) }
{
    match what {
        NodeKind::Document => Ok(()),
        NodeKind::Element {
            namespace,
            name,
            attributes,
        } => {
            push_element(output, depth, *namespace, name.as_str())?;
            push_attributes(output, alloc, depth + 1, attributes)
        }
        NodeKind::TemplateContents => push_line(output, depth, &["content"]),
        NodeKind::Comment(text) => push_line(output, depth, &["<!-- ", text.as_str(), " -->"]),
    }
}

// Appends the lines of a child. Those of a node go to a number of levels.
#[cycle(nodes)]
fn push_child<A: Allocator + Copy>(
    output: &mut Vec<u8, A>,
    alloc: A,
    arena: &Arena<A>,
    child: &Child<A>,
    depth: usize,
    levels: usize,
) -> Result<(), AllocError>
    requires { depth + levels < 2 ^ 64 }
    ensures { OnOk result (output.new.items ≡ output.old.items
        ++ child_lines (node_lines levels arena.now.rows depth) depth (child_of child.now)) }
{
    match child {
        Child::Node(id) => push_node(output, alloc, arena, *id, depth, levels),
        Child::Text(text) => push_line(output, depth, &["\"", text.as_str(), "\""]),
        Child::Doctype {
            name,
            public_id,
            system_id,
        } => push_doctype(
            output,
            depth,
            name.as_str(),
            public_id.as_str(),
            system_id.as_str(),
        ),
    }
}

// Appends the lines of children.
#[cycle(nodes)]
fn push_children<A: Allocator + Copy>(
    output: &mut Vec<u8, A>,
    alloc: A,
    arena: &Arena<A>,
    children: &[Child<A>],
    depth: usize,
    levels: usize,
) -> Result<(), AllocError>
    requires { depth + levels < 2 ^ 64 }
    ensures { OnOk result (output.new.items ≡ output.old.items
        ++ children_lines (node_lines levels arena.now.rows depth) depth (map child_of children.now)) }
{
    for child in children {
        push_child(output, alloc, arena, child, depth, levels)?;
    }
    Ok(())
}

// Appends the lines of what stands in a node: its template contents, or its children.
#[cycle(nodes)]
fn push_within<A: Allocator + Copy>(
    output: &mut Vec<u8, A>,
    alloc: A,
    arena: &Arena<A>,
    node: &Node<A>,
    depth: usize,
    levels: usize,
) -> Result<(), AllocError>
    requires { depth + levels < 2 ^ 64 }
    ensures { OnOk result (output.new.items ≡ output.old.items
        ++ lines_within (node_lines levels arena.now.rows depth) depth
        (option_map number node.now.contents) (children_of node.now.children.items)) }
{
    match node.contents {
        Some(contents) => push_node(output, alloc, arena, contents, depth, levels),
        None => push_children(output, alloc, arena, &node.children, depth, levels),
    }
}

// Appends the lines of a node and of what stands in it, to a number of levels. It refuses a node that
// was not made.
#[cycle(nodes)]
fn push_node<A: Allocator + Copy>(
    output: &mut Vec<u8, A>,
    alloc: A,
    arena: &Arena<A>,
    id: NodeId,
    depth: usize,
    levels: usize,
) -> Result<(), AllocError>
    requires { depth + levels < 2 ^ 64 }
    ensures { OnOk result (output.new.items ≡ output.old.items
        ++ node_lines levels arena.now.rows depth id.0) }
{
    if levels == 0 {
        return Ok(());
    }
    let Some(node) = arena.node(id) else {
        return Err(AllocError);
    };
    push_own(output, alloc, depth, &node.what)?;
    push_within(output, alloc, arena, node, depth + 1, levels - 1)
}

/// Appends the lines of what stands in a node, as the public tests of tree construction write them. It
/// refuses a node that was not made. Its calls nest as deep as the tree.
pub fn push_tree<A: Allocator + Copy>(
    output: &mut Vec<u8, A>,
    alloc: A,
    arena: &Arena<A>,
    root: NodeId,
) -> Result<(), AllocError>
    ensures { OnOk result (output.new.items ≡ output.old.items ++ tree_lines arena.now.rows root.0) }
{
    let Some(node) = arena.node(root) else {
        return Err(AllocError);
    };
    push_within(output, alloc, arena, node, 0, arena.len())
}
