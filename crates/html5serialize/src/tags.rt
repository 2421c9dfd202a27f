//! Tags as they are written.
ghost use Rattle.std.specs.Prelude.{◌≡◌, ◌++◌, encode_utf8_all, map, string_bytes, OnOk};
ghost use Rattle.html5ever_interface.specs.Token.{tag_of};
ghost use Rattle.html5serialize.specs.Tags.{attribute_text_by, attributes_text_by, closing_text, opening_text, tag_text, tag_text_by};
ghost use Rattle.markup5ever.specs.Names.{attribute_of};

use crate::escaping::{Escapes, push_value_by};
use html5ever_interface::interface::token::{Tag, TagKind};
use markup5ever::interface::Attribute;
use std::alloc::{AllocError, Allocator};

// What a tag of this kind begins with.
fn opening_of(kind: TagKind) -> &'static str
    ensures { result.now ≡ encode_utf8_all (opening_text kind) }
{
    match kind {
        TagKind::StartTag => "<",
        TagKind::EndTag => "</",
    }
}

// What a tag ends with.
fn closing_of(self_closing: bool) -> &'static str
    ensures { result.now ≡ encode_utf8_all (closing_text self_closing) }
{
    if self_closing { "/>" } else { ">" }
}

// Appends an attribute.
fn push_attribute<A: Allocator>(
    out: &mut String<A>,
    escapes: Escapes,
    attribute: &Attribute<A>,
) -> Result<(), AllocError>
    ensures { OnOk result (string_bytes out.new ≡ string_bytes out.old
        ++ encode_utf8_all (attribute_text_by escapes (attribute_of attribute.now))) }
{
    out.push_str(" ")?;
    out.push_str(&attribute.name.local.0)?;
    out.push_str("=\"")?;
    push_value_by(out, escapes, &attribute.value)?;
    out.push_str("\"")?;
    Ok(())
}

// Appends attributes.
fn push_attributes<A: Allocator>(
    out: &mut String<A>,
    escapes: Escapes,
    attributes: &[Attribute<A>],
) -> Result<(), AllocError>
    ensures { OnOk result (string_bytes out.new ≡ string_bytes out.old
        ++ encode_utf8_all (attributes_text_by escapes (map attribute_of attributes.now))) }
{
    for attribute in attributes {
        push_attribute(out, escapes, attribute)?;
    }
    Ok(())
}

// Appends a tag whose values are escaped so.
pub fn push_tag_by<A: Allocator>(
    out: &mut String<A>,
    escapes: Escapes,
    tag: &Tag<A>,
) -> Result<(), AllocError>
    ensures { OnOk result (string_bytes out.new
        ≡ string_bytes out.old ++ encode_utf8_all (tag_text_by escapes (tag_of tag.now))) }
{
    out.push_str(opening_of(tag.kind))?;
    out.push_str(&tag.name.0)?;
    push_attributes(out, escapes, &tag.attrs)?;
    out.push_str(closing_of(tag.self_closing))?;
    Ok(())
}

/// Appends a tag, whether it can be written or not: its name, its attributes in order with their values
/// escaped by number, and whether it closes itself, also of an end tag. On Err a part of it may stand there.
pub fn push_tag<A: Allocator>(out: &mut String<A>, tag: &Tag<A>) -> Result<(), AllocError>
    ensures { OnOk result (string_bytes out.new
        ≡ string_bytes out.old ++ encode_utf8_all (tag_text (tag_of tag.now))) }
{
    push_tag_by(out, Escapes::Numbers, tag)
}
