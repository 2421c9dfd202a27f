//! Tags that no cleaner hands in, since its policy has dropped them, and one that is refused.
use html5nested::{Item, NestedWriter};
use html5write::{Attribute, WriteError};
use std::alloc::Global;

fn start_tag(name: &str) -> Item<'_> {
    Item::StartTag {
        name,
        attributes: &[],
    }
}

// The page of these items, with this many elements open at most.
fn made(alloc: Global, limit: usize, items: &[Item<'_>]) -> Result<String, WriteError> {
    let mut page = NestedWriter::new(alloc, limit);
    for item in items {
        match item {
            Item::StartTag { name, attributes } => page.start_tag(name, attributes)?,
            Item::EndTag(name) => page.end_tag(name)?,
            Item::Text(text) => page.text(text)?,
        }
    }
    Ok(page.finish()?.into_string())
}

#[test]
fn writes_a_line_break_and_no_other_names(rt: HostRuntime) {
    let items = [
        Item::EndTag("br"),
        start_tag("svg"),
        start_tag("p"),
        Item::Text("1"),
        Item::EndTag("svg"),
        Item::Text("2"),
    ];
    let page = made(rt.alloc(), 511, &items).expect(&rt, "memory");
    assert!(rt; page.as_str() == "<br><p>12</p>");
}

// An element, and the empty `p` of an end tag, want to be open.
#[test]
fn opens_nothing_by_a_limit_of_0(rt: HostRuntime) {
    let items = [
        start_tag("b"),
        Item::Text("1"),
        Item::EndTag("b"),
        start_tag("br"),
        Item::EndTag("p"),
    ];
    let page = made(rt.alloc(), 0, &items).expect(&rt, "memory");
    assert!(rt; page.as_str() == "1<br>");
}

// A tag that is refused leaves the page as it was: the `p` stays open.
fn refused_tag(alloc: Global) -> Result<String, WriteError> {
    let mut page = NestedWriter::new(alloc, 511);
    page.start_tag("p", &[])?;
    let twice = Attribute {
        name: "class",
        value: "a",
    };
    let refused = page.start_tag("div", &[twice, twice]);
    if refused != Err(WriteError::Repeated { attribute: 1 }) {
        return Err(WriteError::TagName);
    }
    page.text("1 < 2")?;
    page.start_tag("div", &[twice])?;
    Ok(page.finish()?.into_string())
}

#[test]
fn changes_nothing_for_a_tag_that_is_refused(rt: HostRuntime) {
    let page = refused_tag(rt.alloc()).expect(&rt, "a tag that is refused");
    assert!(rt; page.as_str() == "<p>1 &#60; 2</p><div class=\"a\"></div>");
}
