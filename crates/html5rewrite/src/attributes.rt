//! The attributes of a tag that can be written.
ghost use Rattle.std.specs.Prelude.{◌≡◌, ◌++◌, ◌∷◌, [], IfOk, OnOk, map};
ghost use Rattle.markup5ever.specs.Names.{attribute_of};
ghost use Rattle.html5write.specs.Pieces.{is_attribute};
ghost use Rattle.html5write.specs.Writing as writing;
ghost use Rattle.html5rewrite.specs.Plain.{attribute_chars, plain_attributes};

use crate::written::can_write;
use html5write::{Attribute as Written, Piece};
use markup5ever::interface::Attribute;
use std::alloc::{AllocError, Allocator};

// Whether an attribute can be written.
#[tactic(auto, unfolding(html5write::specs::Pieces::is_tag_name, html5write::specs::Pieces::are_distinct))]
fn is_attribute(attribute: &Written<'_>) -> bool
    ensures { result ≡ is_attribute (writing.attribute_of attribute.now) }
{
    can_write(&Piece::StartTag {
        name: "a",
        attributes: &[*attribute],
    })
}

// Appends an attribute, if it can be written.
fn push_plain<'t, A: Allocator>(
    plain: &mut Vec<Written<'t>, A>,
    attribute: &'t Attribute<A>,
) -> Result<(), AllocError>
    ensures { OnOk result (map writing.attribute_of plain.new.items ≡ map writing.attribute_of plain.old.items
        ++ plain_attributes (attribute_chars (attribute_of attribute.now) ∷ [])) }
{
    let written = Written {
        name: attribute.name.local.0.as_str(),
        value: attribute.value.as_str(),
    };
    if is_attribute(&written) {
        plain.push(written)?;
    }
    Ok(())
}

/// The attributes that can be written, as they are written.
pub fn plain_attributes<'t, A: Allocator + Copy>(
    alloc: A,
    attributes: &'t [Attribute<A>],
) -> Result<Vec<Written<'t>, A>, AllocError>
    ensures { IfOk result (λ plain. map writing.attribute_of plain.items
        ≡ plain_attributes (map attribute_chars (map attribute_of attributes.now))) }
{
    let mut plain = Vec::new(alloc);
    for attribute in attributes {
        push_plain(&mut plain, attribute)?;
    }
    Ok(plain)
}
