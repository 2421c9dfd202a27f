//! A page that is read with scripting, and written so.
use html5ever::tokenizer::collect::Collector;
use html5ever::tokenizer::{NamedReferences, TokenizerOpts, read_whole};
use html5ever_interface::interface::token::Token;
use html5serialize::{Escapes, PageOptions, PageWriter, ScriptingSink};
use std::alloc::Global;
use std::process::Abort;

const PAGE: &str = "<noscript><p title='a</noscript>b'>&lt;c<script></noscript></script>";

const WRITTEN: &str =
    "<noscript><p title='a</noscript>b'&#62;&#38;lt;c<script></noscript></script>";

// What a page tells a sink that reads with scripting, by a table without names.
fn read_scripted(rt: &impl Abort, alloc: Global, page: &str) -> Collector<Global> {
    let references = NamedReferences::check(alloc, Vec::new(alloc)).expect(rt, "a table");
    let sink = ScriptingSink {
        sink: Collector::new(alloc, false),
    };
    let text = String::from_str(alloc, page).expect(rt, "memory");
    let opts = TokenizerOpts::default();
    let (sink, read) = read_whole(alloc, sink, opts, &references, text);
    read.expect(rt, "a reading");
    sink.sink
}

// These tokens as a page that is read with scripting.
fn written(rt: &impl Abort, alloc: Global, tokens: &Collector<Global>) -> String {
    let mut page = PageWriter::new(PageOptions {
        scripting: true,
        escapes: Escapes::Numbers,
    });
    let mut out = String::new(alloc);
    for (token, _) in tokens.entries() {
        page.push(&mut out, token).expect(rt, "memory");
    }
    out
}

#[test]
fn markup_in_a_noscript_is_text(rt: HostRuntime) {
    let tokens = read_scripted(&rt, rt.alloc(), PAGE);
    let text = match tokens.entries() {
        [_, (Token::CharacterTokens(text), _), ..] => text.as_str(),
        _ => "",
    };
    assert_eq!(rt; text, "<p title='a");
    let page = written(&rt, rt.alloc(), &tokens);
    assert_eq!(rt; page.as_str(), WRITTEN);
    let again = read_scripted(&rt, rt.alloc(), &page);
    let page = written(&rt, rt.alloc(), &again);
    assert_eq!(rt; page.as_str(), WRITTEN);
}
