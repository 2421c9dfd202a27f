//! What can't be written, and why.
use html5write::{Attribute, Piece, WriteError, Writer, refusal_of};

// An attribute without a value.
fn named(name: &str) -> Attribute<'_> {
    Attribute { name, value: "" }
}

#[test]
fn refuses_names(rt: HostRuntime) {
    for name in [
        "", "A", "1a", " a", "a b", "a/", "a>", "aB", "a\0", "a\r", "\u{e9}",
    ] {
        let start = Piece::StartTag {
            name,
            attributes: &[],
        };
        assert!(rt; refusal_of(&start) == Some(WriteError::TagName), "{name:?}");
        assert!(rt;
            refusal_of(&Piece::EndTag(name)) == Some(WriteError::TagName),
            "{name:?}"
        );
    }
    for name in ["a", "h1", "my-tag", "a\u{e9}", "a<\"'="] {
        assert!(rt; refusal_of(&Piece::EndTag(name)) == None, "{name:?}");
    }
}

#[test]
fn refuses_attributes(rt: HostRuntime) {
    for name in [
        "", "A", "a b", "a/", "a>", "a=", "a\"", "a'", "a<", "a\0", "a\r", "aB",
    ] {
        let attributes = [named("x"), named(name)];
        let tag = Piece::StartTag {
            name: "a",
            attributes: &attributes,
        };
        let wanted = Some(WriteError::AttributeName { attribute: 1 });
        assert!(rt; refusal_of(&tag) == wanted, "{name:?}");
    }
    let repeated = [named("x"), named("y"), named("z"), named("y")];
    let tag = Piece::StartTag {
        name: "a",
        attributes: &repeated,
    };
    assert!(rt; refusal_of(&tag) == Some(WriteError::Repeated { attribute: 3 }));
    let with_null = [Attribute {
        name: "x",
        value: "\u{e9}\0",
    }];
    let tag = Piece::StartTag {
        name: "a",
        attributes: &with_null,
    };
    let wanted = Some(WriteError::NullInValue {
        attribute: 0,
        at: 2,
    });
    assert!(rt; refusal_of(&tag) == wanted);
    let kept = [named("1"), named("\u{e9}&"), named("@x:y")];
    let tag = Piece::StartTag {
        name: "a",
        attributes: &kept,
    };
    assert!(rt; refusal_of(&tag) == None);
}

#[test]
fn refuses_texts(rt: HostRuntime) {
    let wanted = Some(WriteError::NullInText { at: 4 });
    assert!(rt; refusal_of(&Piece::Text("\u{20ac}x\0\0")) == wanted);
    for text in [">", "-", "->x", "-x", "x-", "a--b", "x\0", "x\r", "<!--"] {
        let wanted = Some(WriteError::CommentText);
        assert!(rt; refusal_of(&Piece::Comment(text)) == wanted, "{text:?}");
    }
    for text in ["", "x", "a-b", "a>b", "<b> & \u{e9}"] {
        assert!(rt; refusal_of(&Piece::Comment(text)) == None, "{text:?}");
    }
}

#[test]
fn writes_nothing_of_a_refused_piece(rt: HostRuntime) {
    let mut page = Writer::new(rt.alloc());
    page.text("a").expect(&rt, "a text");
    let refused = page.start_tag("b", &[named("x"), named("x")]);
    assert!(rt; refused == Err(WriteError::Repeated { attribute: 1 }));
    page.text("c").expect(&rt, "a text");
    assert!(rt; page.as_str() == "ac");
}
