//! The attributes of an element, with those that it lacked.
ghost use Rattle.std.specs.Prelude.{◌≡◌, ◌≤◌, [], ◌∷◌, ◌++◌, ◌&&◌, map, take, vec_len, IfOk, OnOk};
ghost use Rattle.markup5ever.specs.Names.{attribute_of};
ghost use Rattle.tree_construction.specs.Document.{has_one_like, is_same_name, lacking, with_attributes};
ghost use Rattle.tree_arena.specs.Rows.{what_of};

use crate::row::NodeKind;
use markup5ever::interface::Attribute;
use std::alloc::{AllocError, Allocator};

// Whether two attributes have one name in one namespace.
fn is_same_name<A: Allocator>(attribute: &Attribute<A>, other: &Attribute<A>) -> bool
    ensures { result ≡ is_same_name (attribute_of attribute.now) (attribute_of other.now) }
{
    attribute.name.ns.0.as_str() == other.name.ns.0.as_str()
        && attribute.name.local.0.as_str() == other.name.local.0.as_str()
}

// Whether one of these has the name of an attribute.
#[tactic(auto, unfolding(tree_construction::specs::Document::has_one_like))]
fn has_one_like<A: Allocator>(attribute: &Attribute<A>, others: &[Attribute<A>]) -> bool
    ensures { result ≡ has_one_like (attribute_of attribute.now) (map attribute_of others.now) }
{
    for other in others {
        if is_same_name(attribute, other) {
            return true;
        }
    }
    false
}

// Adds an attribute if the first ones lack it.
#[tactic(auto, unfolding(tree_construction::specs::Document::lacking))]
fn add_if_lacking<A: Allocator + Copy>(
    own: &mut Vec<Attribute<A>, A>,
    count: usize,
    attribute: &Attribute<A>,
) -> Result<(), AllocError>
    requires { count ≤ vec_len own.old }
    ensures { OnOk result (map attribute_of own.new.items ≡ map attribute_of own.old.items
        ++ lacking (map attribute_of (take count own.old.items)) (attribute_of attribute.now ∷ [])) }
{
    if has_one_like(attribute, &own[..count]) {
        return Ok(());
    }
    own.push(attribute.try_clone()?)?;
    Ok(())
}

// Adds the attributes that are lacking.
fn add_lacking<A: Allocator + Copy>(
    own: &mut Vec<Attribute<A>, A>,
    more: &[Attribute<A>],
) -> Result<(), AllocError>
    ensures { OnOk result (map attribute_of own.new.items ≡ map attribute_of own.old.items
        ++ lacking (map attribute_of own.old.items) (map attribute_of more.now)) }
{
    let count = own.len();
    for attribute in more {
        add_if_lacking(own, count, attribute)?;
    }
    Ok(())
}

/// Adds to an element the attributes that it lacks.
pub fn add_attributes<A: Allocator + Copy>(
    what: &mut NodeKind<A>,
    more: &[Attribute<A>],
) -> Result<(), AllocError>
    ensures { OnOk result
        (what_of what.new ≡ with_attributes (map attribute_of more.now) (what_of what.old)) }
{
    match what {
        NodeKind::Element { attributes, .. } => add_lacking(attributes, more),
        _ => Ok(()),
    }
}
