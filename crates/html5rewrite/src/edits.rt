//! What a rewriter does with the attributes of a tag.
ghost use Rattle.std.specs.Prelude.{◌≡◌, OnOk, map, option_map, string_bytes};
ghost use Rattle.html5ever_interface.specs.Token.{tag_of};
ghost use Rattle.markup5ever.specs.Names.{attribute_of};
ghost use Rattle.html5rewrite.specs.Edits.{value_of, with_attribute, without_attribute};

use html5ever_interface::interface::token::Tag;
use markup5ever::interface::{Attribute, LocalName, Namespace, QualName};
use std::alloc::{AllocError, Allocator};

/// The value of the first of these attributes that has this name.
#[tactic(auto, unfolding(crate::specs::Edits::value_of))]
pub fn value_of<'t, A: Allocator>(
    attributes: &'t [Attribute<A>],
    name: &str,
) -> Option<&'t String<A>>
    ensures { option_map (λ value. string_bytes value.now) result
        ≡ value_of name.now (map attribute_of attributes.now) }
{
    for attribute in attributes {
        if attribute.name.local.0.as_str() == name {
            return Some(&attribute.value);
        }
    }
    None
}

/// Drops the attributes of this name.
pub fn drop_attribute<A: Allocator>(tag: &mut Tag<A>, name: &str)
    ensures { tag_of tag.new ≡ without_attribute name.now (tag_of tag.old) }
{
    tag.attrs
        .retain(|attribute| attribute.name.local.0.as_str() != name);
}

/// Gives a tag this attribute as its last, in place of any of that name. If there is no memory, the tag
/// may lack it.
pub fn set_attribute<A: Allocator + Copy>(
    alloc: A,
    tag: &mut Tag<A>,
    name: &str,
    value: String<A>,
) -> Result<(), AllocError>
    ensures { OnOk result (tag_of tag.new ≡ with_attribute name.now (string_bytes value) (tag_of tag.old)) }
{
    let local = LocalName(String::from_str(alloc, name)?);
    drop_attribute(tag, name);
    let name = QualName::new(None, Namespace(String::new(alloc)), local);
    tag.attrs.push(Attribute { name, value })?;
    Ok(())
}
