//! The text of a page for each piece.
use html5write::{Attribute, Piece, Writer};

#[test]
fn writes_each_piece(rt: HostRuntime) {
    let mut page = Writer::new(rt.alloc());
    let attributes = [
        Attribute {
            name: "href",
            value: "/?a=1&b=\"2\"",
        },
        Attribute {
            name: "data-x",
            value: "<'>\t\u{e9}",
        },
        Attribute {
            name: "hidden",
            value: "",
        },
    ];
    page.start_tag("a", &attributes).expect(&rt, "a start tag");
    page.text("1 < 2 &amp; \u{feff}\r\n").expect(&rt, "a text");
    page.end_tag("a").expect(&rt, "an end tag");
    page.comment(" <b> & x-y ").expect(&rt, "a comment");
    let wanted = concat!(
        "<a href=\"/?a=1&#38;b=&#34;2&#34;\" data-x=\"&#60;'&#62;\t\u{e9}\" hidden=\"\">",
        "1 &#60; 2 &#38;amp; &#65279;&#13;\n</a><!-- <b> & x-y -->"
    );
    assert!(rt; page.as_str() == wanted, "{}", page.as_str());
    assert!(rt; page.into_string().as_str() == wanted);
}

#[test]
fn takes_two_pieces_and_another_page(rt: HostRuntime) {
    let mut page = Writer::new(rt.alloc());
    let mut other = Writer::new(rt.alloc());
    page.text("a").expect(&rt, "a text");
    let both = other.write_both(&Piece::Text("b"), &Piece::Comment("c"));
    both.expect(&rt, "a text and a comment");
    page.append(&other).expect(&rt, "the other page");
    assert!(rt; page.as_str() == "ab<!--c-->");
}

#[test]
fn begins_with_nothing(rt: HostRuntime) {
    let page = Writer::new(rt.alloc());
    assert!(rt; page.as_str() == "");
}
