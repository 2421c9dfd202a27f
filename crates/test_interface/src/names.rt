use crate::made::attribute_of;
use markup5ever::interface::{Attribute, Prefix};
use std::alloc::Global;
use std::process::Abort;

// An attribute of a name with a prefix.
fn attribute(rt: &impl Abort, alloc: Global, prefix: Option<&str>, name: &str) -> Attribute {
    attribute_of(alloc, prefix, name, "#a").expect(rt, "memory")
}

#[test]
fn clones_are_equal(rt: HostRuntime) {
    let text = String::from_str(rt.alloc(), "xlink").expect(&rt, "memory");
    let prefix = Prefix(text);
    assert!(rt; prefix.try_clone().expect(&rt, "memory") == prefix);
    let attribute = attribute(&rt, rt.alloc(), Some("xlink"), "href");
    assert!(rt; attribute.try_clone().expect(&rt, "memory") == attribute);
    assert!(rt; attribute.name.prefix == Some(prefix));
}

#[test]
fn names_are_ordered_by_prefix_first(rt: HostRuntime) {
    let plain = attribute(&rt, rt.alloc(), None, "z");
    let first = attribute(&rt, rt.alloc(), Some("a"), "z");
    let second = attribute(&rt, rt.alloc(), Some("b"), "a");
    assert!(rt; plain.name < first.name);
    assert!(rt; first.name < second.name);
}
