//! Texts that are handed over where they lie.
use crate::made::{text_of, told};
use html5ever_interface::collect::Collector;
use html5ever_interface::interface::sink::TokenSink;
use html5ever_interface::interface::token::TextFault;
use std::alloc::Global;
use testing_alloc::Refusing;
use token_printer::print_sink::PrintSink;

#[test]
fn a_text_where_it_lies_is_printed_as_its_token(rt: HostRuntime) {
    let mut by_tokens = PrintSink::new(rt.alloc(), false);
    let mut by_texts = PrintSink::new(rt.alloc(), false);
    for &text in &["", "a", "\"é", "b\n"] {
        let token = text_of(rt.alloc(), text).expect(&rt, "memory");
        assert!(rt; told(&mut by_tokens, token, 3));
        assert!(rt; by_texts.process_text(rt.alloc(), text, 3).is_ok());
    }
    assert_eq!(rt; by_tokens.output(), "text \"a\\\"éb\\n".as_bytes());
    assert_eq!(rt; by_texts.output(), by_tokens.output());
}

// The copy of a text is the first request, and the room for an entry the second.
#[test]
fn a_copy_that_finds_no_memory_is_no_fault_of_the_sink(rt: HostRuntime) {
    for &(admitted, answer) in &[
        (0u64, Err(TextFault::Memory)),
        (1, Err(TextFault::Sink)),
        (2, Ok(())),
    ] {
        let heap = Refusing::new(rt.alloc(), admitted);
        let mut sink: Collector<&Refusing<Global>> = Collector::new(&heap, false);
        assert_eq!(rt; sink.process_text(&heap, "a text", 1), answer);
        assert_eq!(rt; sink.entries().len(), usize::from(answer.is_ok()));
    }
}
