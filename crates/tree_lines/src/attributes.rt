//! The attributes of an element, in the order of their names.
ghost use Rattle.std.specs.Prelude.{◌≡◌, ◌≤◌, ◌++◌, insert, length, map, IfOk, OnOk};
ghost use Rattle.markup5ever.specs.Names.{attribute_of};
ghost use Rattle.tree_lines.specs.Lines.{attribute_line, attribute_lines, in_order, put_in_order};
ghost use Rattle.tree_lines.specs.Shown.{shown};

use crate::line::push_line;
use crate::names::comes_before;
use markup5ever::interface::Attribute;
use std::alloc::{AllocError, Allocator};

// At which index an attribute is put: before the first whose name comes after its own.
fn place_among<A: Allocator>(attribute: &Attribute<A>, ordered: &[&Attribute<A>]) -> usize
    ensures within { result ≤ length ordered.now }
    ensures puts { put_in_order (attribute_of attribute.now) (shown ordered.now)
        ≡ insert (shown ordered.now) result (attribute_of attribute.now) }
{
    for (at, other) in ordered.iter().enumerate() {
        if comes_before(attribute, other) {
            return at;
        }
    }
    ordered.len()
}

// Attributes in the order of their names.
fn in_order<'t, A: Allocator + Copy>(
    alloc: A,
    attributes: &'t [Attribute<A>],
) -> Result<Vec<&'t Attribute<A>, A>, AllocError>
    ensures { IfOk result (λ ordered. shown ordered.items ≡ in_order (map attribute_of attributes.now)) }
{
    let mut ordered = Vec::new(alloc);
    for attribute in attributes {
        let at = place_among(attribute, &ordered);
        ordered.insert(at, attribute)?;
    }
    Ok(ordered)
}

// Appends the line of an attribute.
fn push_attribute<A: Allocator>(
    output: &mut Vec<u8, A>,
    depth: usize,
    attribute: &Attribute<A>,
) -> Result<(), AllocError>
    ensures { OnOk result
        (output.new.items ≡ output.old.items ++ attribute_line depth (attribute_of attribute.now)) }
{
    let local = attribute.name.local.0.as_str();
    let value = attribute.value.as_str();
    match &attribute.name.prefix {
        Some(prefix) => {
            let prefix = prefix.0.as_str();
            push_line(output, depth, &[prefix, " ", local, "=\"", value, "\""])
        }
        None => push_line(output, depth, &[local, "=\"", value, "\""]),
    }
}

/// Appends the lines of attributes.
pub fn push_attributes<A: Allocator + Copy>(
    output: &mut Vec<u8, A>,
    alloc: A,
    depth: usize,
    attributes: &[Attribute<A>],
) -> Result<(), AllocError>
    ensures { OnOk result (output.new.items
        ≡ output.old.items ++ attribute_lines depth (in_order (map attribute_of attributes.now))) }
{
    let ordered = in_order(alloc, attributes)?;
    for attribute in &ordered {
        push_attribute(output, depth, attribute)?;
    }
    Ok(())
}
