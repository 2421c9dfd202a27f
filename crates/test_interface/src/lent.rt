//! Tags that a sink leaves where they lie, or takes.
use crate::made::bare_tag;
use html5ever::tokenizer::read_whole;
use html5ever_interface::collect::Collector;
use html5ever_interface::interface::sink::TokenSink;
use html5ever_interface::interface::token::{TagKind, Token};
use html5ever_interface::options::TokenizerOpts;
use markup5ever::data::NamedReferences;
use std::alloc::Allocator;
use std::process::Abort;
use testing_alloc::Refusing;
use token_printer::print_sink::PrintSink;

// Whether a text is read, and its tokens are printed.
fn is_printed<A: Allocator + Copy>(rt: &impl Abort, heap: A, text: String<A>) -> bool {
    let references = NamedReferences::check(heap, Vec::new(heap)).expect(rt, "a table");
    let sink = PrintSink::new(heap, false);
    let (_, read) = read_whole(heap, sink, TokenizerOpts::default(), &references, text);
    read.is_ok()
}

// There are 128 tags and 128 attributes, and fewer requests than half of either.
#[test]
fn tags_that_are_left_ask_for_no_memory_each(rt: HostRuntime) {
    let heap = Refusing::new(rt.alloc(), 60);
    let mut text = String::new(&heap);
    for _ in 0..64 {
        text.push_str("<p class=\"a\" id=b>x</p>")
            .expect(&rt, "memory");
    }
    assert!(rt; is_printed(&rt, &heap, text));
    assert!(rt; !heap.has_refused());
}

#[test]
fn a_tag_that_is_kept_is_taken_from_where_it_lies(rt: HostRuntime) {
    let tag = bare_tag(rt.alloc(), TagKind::StartTag, "p").expect(&rt, "memory");
    let mut token = Token::TagToken(tag);
    let mut sink = Collector::new(rt.alloc(), false);
    assert!(rt; sink.process_lent(&mut token, 1).is_ok());
    assert!(rt; !matches!(token, Token::TagToken(_)));
    assert_eq!(rt; sink.entries().len(), 1);
}
