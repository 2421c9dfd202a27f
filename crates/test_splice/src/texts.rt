//! Texts that are spliced.
use crate::shouting::Shouting;
use html5entities::standard_references;
use html5splice::splice_text;
use std::alloc::Allocator;
use std::process::Abort;

// Whether a text is spliced to this.
fn is_spliced<A: Allocator + Copy>(rt: &impl Abort, alloc: A, text: &str, wanted: &str) -> bool {
    let references = standard_references(alloc).expect(rt, "memory");
    let page = splice_text(alloc, text, Shouting { alloc }, &references);
    page.is_ok_and(|page| page.as_str() == wanted)
}

#[test]
fn what_is_not_replaced_stays(rt: HostRuntime) {
    let rows = [
        "",
        "a",
        "<!DOCTYPE  html><P  class=x >a &amp b<br/><?php ?>\r\n</>\u{1F600} <unclosed",
        "a\0b\r",
        "\u{FEFF}<script><!--<script></script>",
        "<textarea>\n\nx",
    ];
    for text in rows {
        assert!(rt; is_spliced(&rt, rt.alloc(), text, text), "of {text}");
    }
}

#[test]
fn tokens_and_runs_are_replaced(rt: HostRuntime) {
    let rows = [
        ("a<B c>d", "a<p>d"),
        ("a<!-- b -->c", "ac"),
        ("x<i>&lt;</i >y", "x<i>!</i >y"),
        ("<b><b\n>", "<p><p>"),
        ("<!x><!-- y", ""),
        ("<b", "<b"),
    ];
    for (text, wanted) in rows {
        assert!(rt; is_spliced(&rt, rt.alloc(), text, wanted), "of {text}");
    }
}
