//! What is written for the tokens of a text, and that it is read again as them.
use crate::reading::are_same;
use html5entities::standard_references;
use html5ever::TokenizerError;
use html5ever::tokenizer::collect::Collector;
use html5ever::tokenizer::{NamedReferences, TokenizerOpts, read_whole};
use html5serialize::{push_token, token_refusal};
use std::alloc::Global;
use std::process::Abort;

// The tokens of a text.
fn read(
    alloc: Global,
    references: &NamedReferences,
    text: String,
) -> Result<Collector<Global>, TokenizerError> {
    let sink = Collector::new(alloc, false);
    let (sink, read) = read_whole(alloc, sink, TokenizerOpts::default(), references, text);
    read?;
    Ok(sink)
}

// The text that is written for tokens, of which each can be.
fn write(rt: &impl Abort, alloc: Global, tokens: &Collector<Global>) -> String {
    let mut written = String::new(alloc);
    for (token, _) in tokens.entries() {
        assert!(rt; token_refusal(token) == None, "{token:?}");
        push_token(&mut written, token).expect(rt, "memory");
    }
    written
}

// That the tokens of a text are written so, and that this is read as the same tokens.
fn check(rt: &impl Abort, alloc: Global, text: &str, wanted: &str) {
    let references = standard_references(alloc).expect(rt, "memory");
    let whole = String::from_str(alloc, text).expect(rt, "memory");
    let tokens = read(alloc, &references, whole).expect(rt, "a reading");
    let written = write(rt, alloc, &tokens);
    assert!(rt; written.as_str() == wanted, "{text:?}: {written:?}");
    let again = read(alloc, &references, written).expect(rt, "a reading");
    assert!(rt; are_same(tokens.entries(), again.entries()), "{text:?}");
    let twice = write(rt, alloc, &again);
    assert!(rt; twice.as_str() == wanted, "{text:?}: {twice:?}");
}

// The same of each row.
fn check_rows(rt: &impl Abort, alloc: Global, rows: &[(&str, &str)]) {
    for (text, wanted) in rows {
        check(rt, alloc, text, wanted);
    }
}

#[test]
fn writes_comments(rt: HostRuntime) {
    for text in &[
        "<!--a--b-->",
        "<!---a-->",
        "<!-- -- -->",
        "<!---->",
        "<!------>",
        "<!--a--!-->",
        "<!--<!--a-->",
    ] {
        check(&rt, rt.alloc(), text, text);
    }
    check_rows(
        &rt,
        rt.alloc(),
        &[
            ("<!x--y>", "<!--x--y-->"),
            ("</ a--b>", "<!-- a--b-->"),
            ("<!-->", "<!---->"),
            ("<!--->", "<!---->"),
            ("<!--a--!>", "<!--a-->"),
            ("<!--a--", "<!--a-->"),
            ("<!--a\0", "<!--a\u{fffd}-->"),
            ("<!doc", "<!--doc-->"),
            ("<!>", "<!---->"),
        ],
    );
}

#[test]
fn writes_instructions(rt: HostRuntime) {
    check_rows(
        &rt,
        rt.alloc(),
        &[("<?php x?>", "<?php x?>"), ("<?>", "<?>"), ("<?a", "<?a>")],
    );
}

#[test]
fn writes_doctypes(rt: HostRuntime) {
    check_rows(
        &rt,
        rt.alloc(),
        &[
            ("<!doctype HTML>", "<!DOCTYPE html>"),
            ("<!DOCTYPE>", "<!DOCTYPE>"),
            ("<!DOCTYPE", "<!DOCTYPE>"),
            ("<!doctype html x>", "<!DOCTYPE html PUBLIC>"),
            ("<!doctype html", "<!DOCTYPE html PUBLIC>"),
            ("<!doctypehtml public''>", "<!DOCTYPE html PUBLIC \"\">"),
            ("<!DOCTYPE a PUBLIC 'b\"'>", "<!DOCTYPE a PUBLIC 'b\"'>"),
            ("<!DOCTYPE a PUBLIC \"b'>", "<!DOCTYPE a PUBLIC \"b'>"),
            ("<!DOCTYPE a SYSTEM\"b\" >", "<!DOCTYPE a SYSTEM \"b\">"),
            ("<!DOCTYPE a SYSTEM 'b>", "<!DOCTYPE a SYSTEM \"b>"),
            (
                "<!DOCTYPE a PUBLIC \"b'\"'c\"'>",
                "<!DOCTYPE a PUBLIC \"b'\" 'c\"'>",
            ),
            (
                "<!DOCTYPE a PUBLIC \"b\" 'c\"d>",
                "<!DOCTYPE a PUBLIC \"b\" 'c\"d>",
            ),
            (
                "<!DOCTYPE a PUBLIC \"b\" \"c\" x>",
                "<!DOCTYPE a PUBLIC \"b\" \"c\">",
            ),
        ],
    );
}

#[test]
fn writes_tags(rt: HostRuntime) {
    check_rows(
        &rt,
        rt.alloc(),
        &[
            ("<a \"=b ='x'>", "<a \"=\"b\" ='x'=\"\">"),
            ("</a b=c/>", "</a b=\"c/\">"),
            ("</a b='c'/>", "</a b=\"c\"/>"),
            ("<br/>", "<br/>"),
            ("<BR/ >", "<br>"),
            (
                "<a b=\"'&quot;&amp;&lt;&#13;\">",
                "<a b=\"'&#34;&#38;&#60;&#13;\">",
            ),
            ("<a b='\"' c d=>", "<a b=\"&#34;\" c=\"\" d=\"\">"),
            ("<a<\"b c<='&not'>", "<a<\"b c<=\"\u{ac}\">"),
            ("<a\0 \0>", "<a\u{fffd} \u{fffd}=\"\">"),
        ],
    );
}

#[test]
fn writes_texts(rt: HostRuntime) {
    check_rows(
        &rt,
        rt.alloc(),
        &[
            ("a&amp;b", "a&#38;b"),
            ("&#13;\r\n&#0;", "&#13;\n\u{fffd}"),
            ("a\0b", "a\0b"),
            ("<", "&#60;"),
            ("</", "&#60;/"),
            ("< a>", "&#60; a&#62;"),
            ("\u{e9}&", "\u{e9}&#38;"),
            ("", ""),
        ],
    );
}

// An attribute that was left out is not written, so the tag is read without the mark of that.
#[test]
fn forgets_repeated_attributes(rt: HostRuntime) {
    let references = standard_references(rt.alloc()).expect(&rt, "memory");
    let text = String::from_str(rt.alloc(), "<a b=1 B=2>").expect(&rt, "memory");
    let tokens = read(rt.alloc(), &references, text).expect(&rt, "a reading");
    let written = write(&rt, rt.alloc(), &tokens);
    assert!(rt; written.as_str() == "<a b=\"1\">", "{written:?}");
}
