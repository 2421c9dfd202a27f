use html5check::{findings_in, lines_of, locate, read_seen};
use html5entities::standard_references;
use markup5ever::data::NamedReferences;
use std::alloc::{AllocError, Global};
use std::process::Abort;

// The lines of what is found in a text, as of a file `t`.
fn found_in(
    alloc: Global,
    references: &NamedReferences,
    text: &str,
) -> Result<Vec<u8>, AllocError> {
    let Ok(tokens) = read_seen(alloc, references, text) else {
        return Err(AllocError);
    };
    let findings = findings_in(alloc, &tokens)?;
    let found = locate(alloc, text, &findings)?;
    lines_of(alloc, "t", &found)
}

// Whether these lines are what is found in each text.
fn are_found<R: Alloc<A = Global> + Abort>(rt: &R, rows: &[(&str, &str)]) {
    let references = standard_references(rt.alloc()).expect(rt, "memory");
    for (text, lines) in rows {
        let found = found_in(rt.alloc(), &references, text).expect(rt, "memory");
        assert!(rt; found.as_slice() == lines.as_bytes(), "of {text}");
    }
}

#[test]
fn nothing_is_wrong(rt: HostRuntime) {
    let rows = [
        ("", ""),
        ("<!DOCTYPE html><title>a</title><p>b</p>", ""),
        ("<ul><li>a<li>b</ul>", ""),
        ("<dl><dt>a<dd><p>b<dt>c</dl>", ""),
        ("<table><tr><td>a<td>b<tr><td>c</table>", ""),
        (
            "<table><caption>x<thead><tr><th>a<tbody><tr><td>b</table>",
            "",
        ),
        ("<select><option>a<option>b<optgroup><option>c</select>", ""),
        ("<html><body><p>x", ""),
        ("</body></html>", ""),
        ("<p>a<div>b</div>", ""),
        ("<br><img><hr>", ""),
        ("<svg><path/><g></g></svg><math><mi/></math>", ""),
        ("<p id=''><b id=''></b>", ""),
        ("<my-thing data-x=1 v:if=a></my-thing>", ""),
    ];
    are_found(&rt, &rows);
}

#[test]
fn elements_are_left_open(rt: HostRuntime) {
    let rows = [
        ("<div><b>x</div>", "t:1:6: error: unclosed-element: b\n"),
        ("<b>x", "t:1:1: error: unclosed-element: b\n"),
        (
            "<b><i>x</b></i>",
            "t:1:4: error: unclosed-element: i\nt:1:12: error: end-tag-without-start: i\n",
        ),
        (
            "<div><li><b>x</div>",
            "t:1:10: error: unclosed-element: b\n",
        ),
        ("a\r\n<i>", "t:2:1: error: unclosed-element: i\n"),
        ("a\r\r<i>", "t:3:1: error: unclosed-element: i\n"),
        ("é😀<i>", "t:1:3: error: unclosed-element: i\n"),
        (
            "<div><i><u></div>",
            "t:1:6: error: unclosed-element: i\nt:1:9: error: unclosed-element: u\n",
        ),
        ("<svg><g></svg>", "t:1:6: error: unclosed-element: g\n"),
        (
            "<svg><foreignObject><div></foreignObject></svg>",
            "t:1:21: error: unclosed-element: div\n",
        ),
    ];
    are_found(&rt, &rows);
}

#[test]
fn end_tags_have_no_start(rt: HostRuntime) {
    let rows = [
        ("</b>", "t:1:1: error: end-tag-without-start: b\n"),
        (
            "<p>a<div></div></p>",
            "t:1:16: error: end-tag-without-start: p\n",
        ),
        ("</b\u{1}>", "t:1:1: error: end-tag-without-start: b?\n"),
        ("<br></br>", "t:1:5: error: end-tag-of-void-element: br\n"),
        (
            "<ul><li>a</li></li></ul>",
            "t:1:15: error: end-tag-without-start: li\n",
        ),
    ];
    are_found(&rt, &rows);
}

#[test]
fn a_solidus_ends_no_element(rt: HostRuntime) {
    let rows = [
        (
            "<div/>",
            "t:1:1: error: non-void-html-element-start-tag-with-trailing-solidus: div\nt:1:1: error: unclosed-element: div\n",
        ),
        ("<br/>", ""),
        (
            "<svg><foreignObject><b/></foreignObject></svg>",
            "t:1:21: error: non-void-html-element-start-tag-with-trailing-solidus: b\nt:1:21: error: unclosed-element: b\n",
        ),
    ];
    are_found(&rt, &rows);
}

#[test]
fn ids_stand_twice(rt: HostRuntime) {
    let rows = [
        (
            "<p id=a>\n<i id=b></i>\n<p id=a>",
            "t:3:1: error: duplicate-id: a\n",
        ),
        ("<p id=a><p id=A>", ""),
        (
            "<p id=b><p id=a><p id=b><p id=b>",
            "t:1:17: error: duplicate-id: b\nt:1:25: error: duplicate-id: b\n",
        ),
        ("<p id='x y'><p id='x y'>", ""),
        (
            "<svg><g id=a></g></svg><p id=a>",
            "t:1:24: error: duplicate-id: a\n",
        ),
    ];
    are_found(&rt, &rows);
}

#[test]
fn names_are_misspelled(rt: HostRuntime) {
    let rows = [
        (
            "<dvi>x</dvi>",
            "t:1:1: error: misspelled-element: dvi; did you mean div?\n",
        ),
        (
            "<img scr=x>",
            "t:1:1: error: misspelled-attribute: scr; did you mean src?\n",
        ),
        ("<svg><pahts/></svg>", ""),
        ("<xyz abc=1></xyz>", ""),
    ];
    are_found(&rt, &rows);
}

#[test]
fn parse_errors_have_codes(rt: HostRuntime) {
    let rows = [
        ("a\0b", "t:1:2: error: unexpected-null-character\n"),
        (
            "<a href=\"x\" href=\"y\"></a>",
            "t:1:21: error: duplicate-attribute\n",
        ),
        ("<!-- x", "t:1:7: error: eof-in-comment\n"),
        (
            "&nosuch;",
            "t:1:8: error: unknown-named-character-reference\n",
        ),
        ("<i>\n</i x=1>", "t:2:8: error: end-tag-with-attributes\n"),
        (
            "&#0;",
            "t:1:4: error: parse-error: Invalid numeric character reference\n",
        ),
    ];
    are_found(&rt, &rows);
}
