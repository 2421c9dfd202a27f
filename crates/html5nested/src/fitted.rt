//! Tags and texts that are written so that they fit.
ghost use Rattle.std.specs.Prelude.{◌≡◌, List, [], OnOk, map};
ghost use Rattle.html5tree.specs.Items.{Attribute as TreeAttribute};
ghost use Rattle.html5tree.specs.Items.Item.{EndTag, StartTag, Text};
ghost use Rattle.html5tree.specs.Names.{kind_of};
ghost use Rattle.html5tree.specs.Normal.{end_tags};
ghost use Rattle.html5tree.specs.declared.kinds.Kind.TheVariants.{Unknown};
ghost use Rattle.html5nested.specs.Adding.{Adds, AddsFitted, IsPassed, attribute_said, item_said};

use crate::item::Item;
use crate::pieces::write_end_tag;
use crate::planned::write_planned;
use html5tree::laws::normal_item;
use html5tree::names::ElementName;
use html5tree::nesting::Nesting;
use html5write::{Attribute, WriteError, Writer};
use std::alloc::Allocator;

// Nothing is written for tags of another name, and they change nothing.
fn pass<A: Allocator>(nesting: &Nesting<A>, name: &str)
    requires { kind_of name.now ≡ Unknown }
    ensures start { (attributes : List TreeAttribute) → IsPassed nesting.now (StartTag name.now attributes) }
    ensures end { IsPassed nesting.now (EndTag name.now) }
{
    let _depth = nesting.depth();
    normal_item();
}

fn write_fitted_start_tag<A: Allocator + Copy>(
    alloc: A,
    page: &mut Writer<A>,
    nesting: &mut Nesting<A>,
    name: &str,
    attributes: &[Attribute<'_>],
) -> Result<(), WriteError>
    ensures { OnOk result (AddsFitted page.old page.new nesting.old nesting.new
        (StartTag name.now (map attribute_said attributes.now))) }
{
    let Some(element) = ElementName::find(name) else {
        pass(nesting, name);
        return Ok(());
    };
    let plan = nesting.start_tag(element)?;
    let item = Item::StartTag { name, attributes };
    write_planned(alloc, page, nesting.closed(), plan, &item)
}

fn write_fitted_end_tag<A: Allocator + Copy>(
    alloc: A,
    page: &mut Writer<A>,
    nesting: &mut Nesting<A>,
    name: &str,
) -> Result<(), WriteError>
    ensures { OnOk result (AddsFitted page.old page.new nesting.old nesting.new (EndTag name.now)) }
{
    let Some(element) = ElementName::find(name) else {
        pass(nesting, name);
        return Ok(());
    };
    let plan = nesting.end_tag(element)?;
    write_planned(alloc, page, nesting.closed(), plan, &Item::EndTag(name))
}

fn write_fitted_text<A: Allocator + Copy>(
    alloc: A,
    page: &mut Writer<A>,
    nesting: &mut Nesting<A>,
    text: &str,
) -> Result<(), WriteError>
    ensures { OnOk result (AddsFitted page.old page.new nesting.old nesting.new (Text text.now)) }
{
    let plan = nesting.text(text)?;
    write_planned(alloc, page, nesting.closed(), plan, &Item::Text(text))
}

/// Writes an item so that it fits, and these elements are open then. Nothing is written for a tag of another name
/// than the 94. After an error a part may be written, and other elements be open.
pub fn write_fitted<A: Allocator + Copy>(
    alloc: A,
    page: &mut Writer<A>,
    nesting: &mut Nesting<A>,
    item: &Item<'_>,
) -> Result<(), WriteError>
    ensures { OnOk result (AddsFitted page.old page.new nesting.old nesting.new (item_said item.now)) }
{
    match item {
        Item::StartTag { name, attributes } => {
            write_fitted_start_tag(alloc, page, nesting, name, attributes)
        }
        Item::EndTag(name) => write_fitted_end_tag(alloc, page, nesting, name),
        Item::Text(text) => write_fitted_text(alloc, page, nesting, text),
    }
}

/// Closes all open elements.
pub fn close_all<A: Allocator + Copy>(
    page: &mut Writer<A>,
    nesting: &mut Nesting<A>,
) -> Result<(), WriteError>
    ensures added { OnOk result (Adds page.old page.new (end_tags nesting.old.opened)) }
    ensures opened { OnOk result (nesting.new.opened ≡ []) }
    ensures limit { nesting.new.limit ≡ nesting.old.limit }
{
    while let Some(name) = nesting.close_one() {
        write_end_tag(page, name.as_str())?;
    }
    Ok(())
}
