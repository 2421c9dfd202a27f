//! What a plan of the normaliser says of an item, written.
ghost use Rattle.std.specs.Prelude.{◌≡◌, ℕ, List, [], ◌∷◌, codes, map, take, OnOk};
ghost use Rattle.html5tree.specs.ElementNames.{name_of};
ghost use Rattle.html5tree.specs.Items.{text_before};
ghost use Rattle.html5tree.specs.Items.Item.{EndTag, StartTag};
ghost use Rattle.html5tree.specs.Normal.{written, written_first, written_last};
ghost use Rattle.html5tree.specs.Planned.{plan_said};
ghost use Rattle.html5tree.specs.declared.plans.Written.TheVariants.{Parted, WhiteSpace};
ghost use Rattle.html5nested.specs.Adding.{Adds, item_said};

use crate::item::Item;
use crate::pieces::{write_end_tag, write_end_tags, write_parents, write_start_tag, write_text};
use crate::white_space::{after_space, all_space, leading_space};
use html5tree::names::ElementName;
use html5tree::plans::{Plan, Written};
use html5write::{WriteError, Writer};
use std::alloc::Allocator;

// Writes an item as it is.
fn write_item<A: Allocator + Copy>(page: &mut Writer<A>, item: &Item<'_>) -> Result<(), WriteError>
    ensures { OnOk result (Adds page.old page.new (item_said item.now ∷ [])) }
{
    match item {
        Item::StartTag { name, attributes } => write_start_tag(page, name, attributes),
        Item::EndTag(name) => write_end_tag(page, name),
        Item::Text(text) => write_text(page, text),
    }
}

// Writes a text, if there is any.
fn write_some<A: Allocator + Copy>(page: &mut Writer<A>, text: &str) -> Result<(), WriteError>
    ensures { OnOk result (Adds page.old page.new (text_before text.now [])) }
{
    if text.is_empty() {
        return Ok(());
    }
    write_text(page, text)
}

// Writes the white space at the front of a text.
fn write_front<A: Allocator + Copy>(
    alloc: A,
    page: &mut Writer<A>,
    item: &Item<'_>,
) -> Result<(), WriteError>
    ensures { OnOk result (Adds page.old page.new (written_first Parted (item_said item.now))) }
{
    let Item::Text(text) = item else {
        return Ok(());
    };
    let space = leading_space(alloc, text)?;
    write_some(page, space.as_str())
}

// Writes what comes before anything is closed.
fn write_first<A: Allocator + Copy>(
    alloc: A,
    page: &mut Writer<A>,
    writes: Written,
    item: &Item<'_>,
) -> Result<(), WriteError>
    ensures { OnOk result (Adds page.old page.new (written_first writes (item_said item.now))) }
{
    match writes {
        Written::Parted => write_front(alloc, page, item),
        _ => Ok(()),
    }
}

// Writes the text after its white space.
fn write_rest<A: Allocator + Copy>(page: &mut Writer<A>, item: &Item<'_>) -> Result<(), WriteError>
    ensures { OnOk result (Adds page.old page.new (written_last Parted (item_said item.now))) }
{
    let Item::Text(text) = item else {
        return Ok(());
    };
    write_text(page, after_space(text))
}

// Writes the white space of a text.
fn write_space<A: Allocator + Copy>(
    alloc: A,
    page: &mut Writer<A>,
    item: &Item<'_>,
) -> Result<(), WriteError>
    ensures { OnOk result (Adds page.old page.new (written_last WhiteSpace (item_said item.now))) }
{
    let Item::Text(text) = item else {
        return Ok(());
    };
    let space = all_space(alloc, text)?;
    write_text(page, space.as_str())
}

// Writes an empty `p`.
fn write_paragraph<A: Allocator + Copy>(page: &mut Writer<A>) -> Result<(), WriteError>
    ensures { OnOk result (Adds page.old page.new (StartTag (codes "p") [] ∷ EndTag (codes "p") ∷ [])) }
{
    write_start_tag(page, "p", &[])?;
    write_end_tag(page, "p")
}

// Writes the item, or what is written in its place.
fn write_last<A: Allocator + Copy>(
    alloc: A,
    page: &mut Writer<A>,
    writes: Written,
    item: &Item<'_>,
) -> Result<(), WriteError>
    ensures { OnOk result (Adds page.old page.new (written_last writes (item_said item.now))) }
{
    match writes {
        Written::Itself => write_item(page, item),
        Written::Nothing => Ok(()),
        Written::Parted => write_rest(page, item),
        Written::WhiteSpace => write_space(alloc, page, item),
        Written::EmptyParagraph => write_paragraph(page),
        Written::LineBreak => write_start_tag(page, "br", &[]),
    }
}

/// Writes what a plan says of an item, where these are the names of the elements that it closes.
pub fn write_planned<A: Allocator + Copy>(
    alloc: A,
    page: &mut Writer<A>,
    closed: &[ElementName],
    plan: Plan,
    item: &Item<'_>,
) -> Result<(), WriteError>
    ensures { OnOk result ((stack : List (List ℕ)) → map name_of closed.now ≡ take plan.closes stack
        → Adds page.old page.new (written (plan_said plan) stack (item_said item.now))) }
{
    write_first(alloc, page, plan.writes, item)?;
    write_end_tags(page, closed)?;
    write_parents(page, plan.opens)?;
    write_last(alloc, page, plan.writes, item)
}
