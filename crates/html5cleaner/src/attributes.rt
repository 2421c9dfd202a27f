//! The attributes of a tag that are kept.
ghost use Rattle.std.specs.Prelude.{◌≡◌, ◌++◌, ◌∷◌, [], IfOk, OnOk, chars, codes, encode_utf8_all, filter, map};
ghost use Rattle.std.specs.List.{list_any};
ghost use Rattle.std.specs.Str.{bytes_eq};
ghost use Rattle.markup5ever.specs.Names.{attribute_of};
ghost use Rattle.html5policy.specs.Policy.{is_kept};
ghost use Rattle.html5write.specs.Writing as writing;
ghost use Rattle.html5cleaner.specs.Allowed.{is_kept_attribute};
ghost use Rattle.html5cleaner.specs.Clean.{adds_rel, attribute_chars, is_href, kept_attributes};

use html5policy::Policy;
use html5write::Attribute as Written;
use markup5ever::interface::Attribute;
use std::alloc::{AllocError, Allocator};

// Whether an attribute is kept, by the characters of its parts.
fn is_kept<A: Allocator>(policy: &Policy<A>, element: &str, attribute: &str, value: &str) -> bool
    ensures { result ≡ is_kept policy.now (encode_utf8_all (chars element.now))
        (encode_utf8_all (chars attribute.now)) (encode_utf8_all (chars value.now)) }
{
    policy.is_kept(element, attribute, value)
}

// Appends an attribute, if it is kept.
fn push_kept<'t, A: Allocator>(
    kept: &mut Vec<Written<'t>, A>,
    policy: &Policy<A>,
    element: &str,
    attribute: &'t Attribute<A>,
) -> Result<(), AllocError>
    ensures { OnOk result (map writing.attribute_of kept.new.items ≡ map writing.attribute_of kept.old.items
        ++ filter (is_kept_attribute policy.now (chars element.now)) (attribute_chars (attribute_of attribute.now) ∷ [])) }
{
    let name = attribute.name.local.0.as_str();
    let value = attribute.value.as_str();
    if is_kept(policy, element, name, value) {
        kept.push(Written { name, value })?;
    }
    Ok(())
}

// The attributes of an element of this name that are kept, as they are written.
fn filtered_attributes<'t, A: Allocator + Copy>(
    alloc: A,
    policy: &Policy<A>,
    element: &str,
    attributes: &'t [Attribute<A>],
) -> Result<Vec<Written<'t>, A>, AllocError>
    ensures { IfOk result (λ kept. map writing.attribute_of kept.items
        ≡ filter (is_kept_attribute policy.now (chars element.now)) (map attribute_chars (map attribute_of attributes.now))) }
{
    let mut kept = Vec::new(alloc);
    for attribute in attributes {
        push_kept(&mut kept, policy, element, attribute)?;
    }
    Ok(kept)
}

// Whether a name is `href`, by its characters.
fn is_href_name(name: &str) -> bool
    ensures { result ≡ bytes_eq (encode_utf8_all (chars name.now)) (codes "href") }
{
    name == "href"
}

// Whether an `href` is among these.
fn has_href(attributes: &[Written<'_>]) -> bool
    ensures { result ≡ list_any is_href (map writing.attribute_of attributes.now) }
{
    for attribute in attributes {
        if is_href_name(attribute.name) {
            return true;
        }
    }
    false
}

// Whether an element of this name with these attributes is a link into which the policy writes one.
fn adds_rel<A: Allocator>(policy: &Policy<A>, element: &str, attributes: &[Written<'_>]) -> bool
    ensures { result ≡ adds_rel policy.now (chars element.now) (map writing.attribute_of attributes.now) }
{
    policy.is_rel_of_link(element, "rel") && has_href(attributes)
}

/// The attributes of an element of this name that are kept, as they are written, and what the policy
/// writes after them.
pub fn kept_attributes<'t, A: Allocator + Copy>(
    alloc: A,
    policy: &'t Policy<A>,
    element: &str,
    attributes: &'t [Attribute<A>],
) -> Result<Vec<Written<'t>, A>, AllocError>
    ensures { IfOk result (λ kept. map writing.attribute_of kept.items
        ≡ kept_attributes policy.now (chars element.now) (map attribute_chars (map attribute_of attributes.now))) }
{
    let mut kept = filtered_attributes(alloc, policy, element, attributes)?;
    if !adds_rel(policy, element, &kept) {
        return Ok(kept);
    }
    kept.push(Written {
        name: "rel",
        value: policy.rel(),
    })?;
    Ok(kept)
}
