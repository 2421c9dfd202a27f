use html5check::{Template, masked};
use std::alloc::Global;
use std::process::Abort;

// Whether each text is masked so.
fn are_masked<R: Alloc<A = Global> + Abort>(rt: &R, template: Template, rows: &[(&str, &str)]) {
    for (text, bytes) in rows {
        let masked = masked(rt.alloc(), template, text.as_bytes()).expect(rt, "memory");
        assert!(rt; masked.as_slice() == bytes.as_bytes(), "of {text}");
    }
}

#[test]
fn constructs_of_jinja_are_masked(rt: HostRuntime) {
    let rows = [
        ("", ""),
        ("<p>a</p>", "<p>a</p>"),
        ("a{{a}}b", "atttvvb"),
        ("a{% b %}c", "a       c"),
        ("{# <b> #}c", "         c"),
        ("{{ {% }}c", "ttgtlgvvc"),
        ("{ { a } }", "{ { a } }"),
        ("a{{b", "attu"),
        ("{%}%}a", "     a"),
        ("{{\u{E9}}}", "ttnnvv"),
    ];
    are_masked(&rt, Template::Jinja, &rows);
}

#[test]
fn constructs_of_mustache_are_masked(rt: HostRuntime) {
    let rows = [
        ("{{a}}", "tttvv"),
        ("{{{a}}}b", "ttttvvvb"),
        ("{{#a}}b{{/a}}", "      b      "),
        ("{{!a}}{{>a}}{{^a}}b", "                  b"),
        ("{%a%}", "{%a%}"),
    ];
    are_masked(&rt, Template::Mustache, &rows);
}

#[test]
fn constructs_of_erb_are_masked(rt: HostRuntime) {
    let rows = [
        ("<%= x %>a", "iljgqglka"),
        ("<% x %><b>", "       <b>"),
        ("<%%>a", "    a"),
        ("<%>a%>b", "      b"),
    ];
    are_masked(&rt, Template::Erb, &rows);
}
