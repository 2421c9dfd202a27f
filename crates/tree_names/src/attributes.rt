//! Attributes of a tag: values by name, texts in any ASCII case, two lists that are alike, copies.
ghost use Rattle.std.specs.Prelude.{◌≡◌, ◌&&◌, IfOk, map};
ghost use Rattle.std.specs.Option.{option_copied};
ghost use Rattle.std.specs.Str.{bytes_eq};
ghost use Rattle.markup5ever.specs.Names.{attribute_of};
ghost use Rattle.tree_construction.specs.Names.{matches};
ghost use Rattle.tree_construction.specs.Tokens.{has_attribute, value_of};
ghost use Rattle.tree_construction.specs.Formatting.{are_among, has_attribute_like, has_same_attributes};

use markup5ever::interface::Attribute;
use std::alloc::{AllocError, Allocator};

/// The value of the attribute of a name.
#[tactic(auto, unfolding(tree_construction::specs::Tokens::value_of))]
pub fn value_of<'t, A: Allocator>(attributes: &'t [Attribute<A>], name: &str) -> Option<&'t str>
    ensures { option_copied result ≡ value_of name.now (map attribute_of attributes.now) }
{
    for attribute in attributes {
        if attribute.name.local.0.as_str() == name {
            return Some(attribute.value.as_str());
        }
    }
    None
}

/// Whether there is an attribute of a name.
pub fn has_attribute<A: Allocator>(attributes: &[Attribute<A>], name: &str) -> bool
    ensures { result ≡ has_attribute name.now (map attribute_of attributes.now) }
{
    match value_of(attributes, name) {
        Some(_) => true,
        None => false,
    }
}

/// Whether a value is a text in lower case, in any ASCII case.
pub fn matches(text: &str, value: &str) -> bool
    ensures { result ≡ matches text.now value.now }
{
    is_in_lower_case(text.as_bytes(), value.as_bytes())
}

// Whether the text is the value in lower case.
fn is_in_lower_case(text: &[u8], value: &[u8]) -> bool
    ensures { result ≡ matches text.now value.now }
{
    let mut left = value;
    for letter in text {
        let Some((byte, others)) = left.split_first() else {
            return false;
        };
        if byte.to_ascii_lowercase() != *letter {
            return false;
        }
        left = others;
    }
    left.is_empty()
}

/// Whether two elements have the same attributes, in any order. No two of one element have one name.
pub fn has_same_attributes<A: Allocator>(
    attributes: &[Attribute<A>],
    others: &[Attribute<A>],
) -> bool
    ensures { result
        ≡ has_same_attributes (map attribute_of attributes.now) (map attribute_of others.now) }
{
    attributes.len() == others.len() && are_among(attributes, others)
}

// Whether each attribute has one like it among others.
#[tactic(auto, unfolding(tree_construction::specs::Formatting::are_among))]
fn are_among<A: Allocator>(attributes: &[Attribute<A>], others: &[Attribute<A>]) -> bool
    ensures { result ≡ are_among (map attribute_of attributes.now) (map attribute_of others.now) }
{
    for attribute in attributes {
        if !has_attribute_like(attribute, others) {
            return false;
        }
    }
    true
}

// Whether an attribute has one like it among others.
#[tactic(auto, unfolding(tree_construction::specs::Formatting::has_attribute_like))]
fn has_attribute_like<A: Allocator>(attribute: &Attribute<A>, others: &[Attribute<A>]) -> bool
    ensures { result
        ≡ has_attribute_like (attribute_of attribute.now) (map attribute_of others.now) }
{
    for other in others {
        if is_like(attribute, other) {
            return true;
        }
    }
    false
}

// Whether two attributes have one name and one value.
fn is_like<A: Allocator>(attribute: &Attribute<A>, other: &Attribute<A>) -> bool
    ensures { result
        ≡ (bytes_eq (attribute_of attribute.now).name.local (attribute_of other.now).name.local
        && bytes_eq (attribute_of attribute.now).value (attribute_of other.now).value) }
{
    attribute.name.local.0.as_str() == other.name.local.0.as_str()
        && attribute.value.as_str() == other.value.as_str()
}

/// Attributes equal to these, with the same allocator.
pub fn clone_attributes<A: Allocator + Copy>(
    attributes: &Vec<Attribute<A>, A>,
) -> Result<Vec<Attribute<A>, A>, AllocError>
    ensures { IfOk result
        (λ clones. map attribute_of clones.items ≡ map attribute_of attributes.now.items) }
{
    let mut clones = Vec::new(*attributes.allocator());
    for attribute in attributes {
        clones.push(attribute.try_clone()?)?;
    }
    Ok(clones)
}
