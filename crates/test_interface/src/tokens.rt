use crate::made::{attribute_of, bare_tag};
use html5ever_interface::interface::token::{Doctype, Tag, TagKind};
use std::alloc::{AllocError, Global};
use std::process::Abort;

// A tag as it is listed: its kind, its name, and its attributes by name and value.
type Listed<'a> = (TagKind, &'a str, &'a [(&'a str, &'a str)]);

fn tag_of(alloc: Global, listed: &Listed) -> Result<Tag, AllocError> {
    let (kind, name, attributes) = *listed;
    let mut tag = bare_tag(alloc, kind, name)?;
    for (name, value) in attributes {
        tag.attrs.push(attribute_of(alloc, None, name, value)?)?;
    }
    Ok(tag)
}

#[test]
fn a_doctype_is_empty_at_first(rt: HostRuntime) {
    let doctype: Doctype<Global> = Doctype::default();
    assert!(rt; doctype.name.is_none());
    assert!(rt; doctype.public_id.is_none());
    assert!(rt; doctype.system_id.is_none());
    assert!(rt; !doctype.force_quirks);
}

const TAG: Listed<'static> = (TagKind::StartTag, "a", &[("x", "1"), ("y", "2")]);

const TURNED: Listed<'static> = (TagKind::StartTag, "a", &[("y", "2"), ("x", "1")]);

// Compares two tags in both orders.
fn check_pair(rt: &impl Abort, alloc: Global, tag: &Listed, other: &Listed, expected: bool) {
    let tag = tag_of(alloc, tag).expect(rt, "memory");
    let other = tag_of(alloc, other).expect(rt, "memory");
    assert_eq!(rt; tag.equiv_modulo_attr_order(&other), expected);
    assert_eq!(rt; other.equiv_modulo_attr_order(&tag), expected);
}

#[test]
fn the_flags_are_neglected(rt: HostRuntime) {
    let tag = tag_of(rt.alloc(), &TAG).expect(&rt, "memory");
    let mut other = tag_of(rt.alloc(), &TURNED).expect(&rt, "memory");
    other.self_closing = true;
    assert!(rt; tag.equiv_modulo_attr_order(&other));
    other.had_duplicate_attributes = true;
    assert!(rt; tag.equiv_modulo_attr_order(&other));
}

const EMPTY: Listed<'static> = (TagKind::StartTag, "a", &[]);

const FIRST_TWICE: Listed<'static> = (
    TagKind::StartTag,
    "a",
    &[("x", "1"), ("x", "1"), ("y", "2")],
);

#[test]
fn the_order_of_attributes_is_neglected(rt: HostRuntime) {
    let turned: Listed = (
        TagKind::StartTag,
        "a",
        &[("y", "2"), ("x", "1"), ("x", "1")],
    );
    check_pair(&rt, rt.alloc(), &TAG, &TURNED, true);
    check_pair(&rt, rt.alloc(), &EMPTY, &EMPTY, true);
    check_pair(&rt, rt.alloc(), &FIRST_TWICE, &turned, true);
}

// What is not `TAG`.
const OTHERS: [Listed<'static>; 4] = [
    (TagKind::StartTag, "b", &[("x", "1"), ("y", "2")]),
    (TagKind::EndTag, "a", &[("x", "1"), ("y", "2")]),
    (
        TagKind::StartTag,
        "a",
        &[("x", "1"), ("y", "2"), ("z", "3")],
    ),
    (TagKind::StartTag, "a", &[("x", "1"), ("y", "3")]),
];

#[test]
fn all_else_of_a_tag_counts(rt: HostRuntime) {
    for other in &OTHERS {
        check_pair(&rt, rt.alloc(), &TAG, other, false);
    }
}

#[test]
fn each_attribute_counts_as_often_as_it_stands(rt: HostRuntime) {
    let second_twice: Listed = (
        TagKind::StartTag,
        "a",
        &[("x", "1"), ("y", "2"), ("y", "2")],
    );
    check_pair(&rt, rt.alloc(), &FIRST_TWICE, &second_twice, false);
}
