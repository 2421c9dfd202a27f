//! What is written of pages, however they are cut.
use crate::links::AbsoluteLinks;
use devices::{Printer, WriteTarget};
use html5rewrite::{rewrite_page, rewrite_text};
use html5stream::StreamError;
use markup5ever::data::NamedReferences;
use testing_devices::PieceSource;

const BASE: &str = "https://a.example";

// Pages, and what is written of them. References are numbers, since the table is empty.
const CASES: [(&str, &str); 19] = [
    ("", ""),
    ("a < b & c", "a &#60; b &#38; c"),
    (
        "<a href=/x target=_blank>y</a>",
        "<a href=\"https://a.example/x\">y</a>",
    ),
    (
        "<a href='/x?a&b' id=c>",
        "<a id=\"c\" href=\"https://a.example/x?a&#38;b\">",
    ),
    ("<a href=//b.example/x>", "<a href=\"//b.example/x\">"),
    ("<a href=x>y", "<a href=\"x\">y"),
    ("<A HREF=/ TARGET=x>", "<a href=\"https://a.example/\">"),
    ("<p class=b>c</p>", "<p class=\"b\">c</p>"),
    ("<font size=1>a<b>c</b></font>d", "a<b>c</b>d"),
    ("a<nav><p>b<nav>c</nav></p></nav>d", "ad"),
    ("a<nav>b", "a"),
    ("a</nav>b<img src=c>d", "abd"),
    ("a<script>if (b < c) d</script>e", "ae"),
    ("a<title>b</title><plaintext>c", "a"),
    ("a<noscript><p>b</p></noscript>c", "ac"),
    ("<!DOCTYPE html>a<!--b-->c<?d>e", "ace"),
    ("<p a\"b=c d=e>", "<p d=\"e\">"),
    ("<br/><svg/>a", "<br><svg>a"),
    ("a\0b&#0;&#13;", "ab\u{fffd}&#13;"),
];

#[test]
fn rewrites_pages(rt: HostRuntime) {
    let references = NamedReferences::check(rt.alloc(), Vec::new(rt.alloc())).expect(
        &rt, "a table",
    );
    for (page, wanted) in CASES {
        for size in [1, 3, 4096] {
            let source = &mut PieceSource::new(page.as_bytes(), size);
            let links = AbsoluteLinks {
                alloc: rt.alloc(),
                base: BASE,
            };
            let written = String::new(rt.alloc());
            let (written, read) = rewrite_page(rt.alloc(), source, links, written, &references);
            assert_eq!(rt; read, Ok(()), "{page}");
            assert!(rt; written.as_str() == wanted, "{page}");
        }
    }
}

#[test]
fn refuses_what_is_no_text(rt: HostRuntime) {
    let references = NamedReferences::check(rt.alloc(), Vec::new(rt.alloc())).expect(
        &rt, "a table",
    );
    let source = &mut PieceSource::new(b"<p>a<p>\xff", 4096);
    let links = AbsoluteLinks {
        alloc: rt.alloc(),
        base: BASE,
    };
    let written = String::new(rt.alloc());
    let (written, read) = rewrite_page(rt.alloc(), source, links, written, &references);
    assert_eq!(rt; read, Err(StreamError::NotUtf8 { valid_up_to: 7 }));
    assert!(rt; "<p>a<p>".starts_with(written.as_str()));
}

#[test]
fn rewrites_texts(rt: HostRuntime) {
    let references = NamedReferences::check(rt.alloc(), Vec::new(rt.alloc())).expect(
        &rt, "a table",
    );
    let links = AbsoluteLinks {
        alloc: rt.alloc(),
        base: BASE,
    };
    let written = rewrite_text(rt.alloc(), "<a href=/>&#60;</a>", links, &references);
    assert!(rt;
        written.expect(&rt, "a text").as_str() == "<a href=\"https://a.example/\">&#60;</a>"
    );
}

#[test]
fn prints_pages(rt: HostRuntime) {
    let references = NamedReferences::check(rt.alloc(), Vec::new(rt.alloc())).expect(
        &rt, "a table",
    );
    let source = &mut PieceSource::new(b"<p>a<a href=/b>c</a>", 3);
    let links = AbsoluteLinks {
        alloc: rt.alloc(),
        base: BASE,
    };
    let printer = Printer::new(rt.alloc(), WriteTarget::new(Vec::new(rt.alloc())));
    let (printer, read) = rewrite_page(rt.alloc(), source, links, printer, &references);
    assert_eq!(rt; read, Ok(()));
    let (target, finished) = printer.finish();
    assert!(rt; finished.is_ok());
    let taken: Vec<u8> = target.into_inner().into_inner();
    assert_eq!(rt;
        taken.as_slice(),
        b"<p>a<a href=\"https://a.example/b\">c</a>".as_slice()
    );
}
