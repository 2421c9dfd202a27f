//! Tags and texts that are written, as items.
ghost use Rattle.std.specs.Prelude.{◌≡◌, [], ◌∷◌, map, OnOk};
ghost use Rattle.html5tree.specs.ElementNames.{name_of};
ghost use Rattle.html5tree.specs.Items.Item.{StartTag, EndTag, Text};
ghost use Rattle.html5tree.specs.Normal.{end_tags, start_tags};
ghost use Rattle.html5tree.specs.Planned.{parents_said};
ghost use Rattle.html5nested.specs.Adding.{Adds, attribute_said};

use html5tree::names::ElementName;
use html5tree::plans::Parents;
use html5write::laws::bytes;
use html5write::{Attribute, Piece, WriteError, Writer};
use std::alloc::Allocator;

/// Writes a text.
pub fn write_text<A: Allocator + Copy>(page: &mut Writer<A>, text: &str) -> Result<(), WriteError>
    ensures { OnOk result (Adds page.old page.new (Text text.now ∷ [])) }
{
    page.text(text)
}

/// Writes a start tag.
pub fn write_start_tag<A: Allocator + Copy>(
    page: &mut Writer<A>,
    name: &str,
    attributes: &[Attribute<'_>],
) -> Result<(), WriteError>
    ensures { OnOk result (Adds page.old page.new (StartTag name.now (map attribute_said attributes.now) ∷ [])) }
{
    bytes(&Piece::StartTag { name, attributes });
    page.start_tag(name, attributes)
}

/// Writes an end tag.
pub fn write_end_tag<A: Allocator + Copy>(
    page: &mut Writer<A>,
    name: &str,
) -> Result<(), WriteError>
    ensures { OnOk result (Adds page.old page.new (EndTag name.now ∷ [])) }
{
    page.end_tag(name)
}

/// Writes the end tags of elements.
pub fn write_end_tags<A: Allocator + Copy>(
    page: &mut Writer<A>,
    names: &[ElementName],
) -> Result<(), WriteError>
    ensures { OnOk result (Adds page.old page.new (end_tags (map name_of names.now))) }
{
    let mut left = names;
    while let Some((name, rest)) = left.split_first() {
        write_end_tag(page, name.as_str())?;
        left = rest;
    }
    Ok(())
}

/// Writes the start tags of implied parents.
pub fn write_parents<A: Allocator + Copy>(
    page: &mut Writer<A>,
    parents: Parents,
) -> Result<(), WriteError>
    ensures { OnOk result (Adds page.old page.new (start_tags (parents_said parents))) }
{
    for at in 0..parents.len() {
        match parents.get(at) {
            Some(name) => write_start_tag(page, name.as_str(), &[])?,
            None => unreachable!(),
        }
    }
    Ok(())
}
