//! The parts of a tag that is open: its name so far and its attributes.

ghost use Rattle.std.specs.Prelude.{◌≡◌, ◌∷◌, [], ◌++◌, true, false, flat_map, map, OnOk, string_bytes};
ghost use Rattle.std.specs.List.{AllPass};
ghost use Rattle.std.specs.Str.{chars};
ghost use Rattle.html5ever_interface.specs.Token.{tag_of};
ghost use Rattle.html5partial.specs.Runs.{stays_in_names};
ghost use Rattle.html5reading.specs.Characters.{name_bytes};
ghost use Rattle.html5reading.specs.Start.{begun};
ghost use Rattle.html5reading.specs.Tag.{attribute, told_tag};
ghost use Rattle.markup5ever.specs.Names.{attribute_of};

use crate::current_tag::push_name;
use crate::runs::{push_front, push_names};
use crate::spares::Spares;
use html5ever_interface::interface::token::{Tag, TagKind};
use markup5ever::interface::{Attribute, LocalName, Namespace, QualName};
use std::alloc::{AllocError, Allocator};

/// A tag of which nothing was read.
#[inline(always)]
pub fn begun_tag<A: Allocator + Copy>(alloc: A, kind: TagKind) -> Tag<A>
    ensures { tag_of result ≡ told_tag (begun kind) false }
{
    Tag {
        kind,
        name: LocalName(String::new(alloc)),
        self_closing: false,
        attrs: Vec::new(alloc),
        had_duplicate_attributes: false,
    }
}

// Leaves no attributes, and keeps the memory of their texts. If there are none, as mostly, nothing is called.
#[inline(always)]
fn clear<A: Allocator>(attributes: &mut Vec<Attribute<A>, A>, spares: &mut Spares<A>)
    ensures { map attribute_of attributes.new.items ≡ [] }
{
    if !attributes.is_empty() {
        spares.keep_texts(attributes);
        attributes.clear();
    }
}

/// Begins a tag of which nothing was read yet, in the memory of the one before it.
#[inline(always)]
pub fn begin<A: Allocator>(tag: &mut Tag<A>, kind: TagKind, spares: &mut Spares<A>)
    ensures { tag_of tag.new ≡ told_tag (begun kind) tag.old.self_closing }
{
    tag.kind = kind;
    tag.name.0.clear();
    clear(&mut tag.attrs, spares);
    tag.had_duplicate_attributes = false;
}

/// Appends an attribute.
#[inline(always)]
pub fn push_attribute<A: Allocator + Copy>(
    alloc: A,
    tag: &mut Tag<A>,
    name: String<A>,
    value: String<A>,
) -> Result<(), AllocError>
    ensures { OnOk result (tag_of tag.new ≡ record (tag_of tag.old) {
      attributes = map attribute_of tag.old.attrs.items ++ attribute (string_bytes name) (string_bytes value) ∷ [];
    }) }
{
    let name = QualName::new(None, Namespace(String::new(alloc)), LocalName(name));
    tag.attrs.push(Attribute { name, value })?;
    Ok(())
}

/// Appends a character to the name, a letter in lower case.
pub fn push_name_to<A: Allocator>(tag: &mut Tag<A>, c: char) -> Result<(), AllocError>
    ensures name { OnOk result (tag_of tag.new ≡ record (tag_of tag.old) {
      name = string_bytes tag.old.name.0 ++ name_bytes c;
    }) }
    ensures attributes { tag.new.attrs ≡ tag.old.attrs }
{
    push_name(&mut tag.name.0, c)
}

/// Appends a run to the name, its letters in lower case.
#[inline(always)]
pub fn push_names_to<A: Allocator>(tag: &mut Tag<A>, run: &str) -> Result<(), AllocError>
    ensures name { OnOk result (tag_of tag.new ≡ record (tag_of tag.old) {
      name = string_bytes tag.old.name.0 ++ flat_map name_bytes (chars run.now);
    }) }
    ensures attributes { tag.new.attrs ≡ tag.old.attrs }
{
    push_names(&mut tag.name.0, run)
}

/// Appends the front of a name, its letters in lower case.
#[inline(always)]
pub fn push_front_to<A: Allocator>(
    tag: &mut Tag<A>,
    front: &str,
    is_plain: bool,
) -> Result<(), AllocError>
    requires { is_plain ≡ true → AllPass stays_in_names front.now }
    ensures name { OnOk result (tag_of tag.new ≡ record (tag_of tag.old) {
      name = string_bytes tag.old.name.0 ++ flat_map name_bytes (chars front.now);
    }) }
    ensures attributes { tag.new.attrs ≡ tag.old.attrs }
{
    push_front(&mut tag.name.0, front, is_plain)
}
