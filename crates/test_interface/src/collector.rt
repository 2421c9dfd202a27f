use crate::made::{token_of, tokens_of, told};
use html5ever_interface::collect::Collector;
use html5ever_interface::interface::token::Token;
use std::alloc::Allocator;
use std::process::Abort;
use testing_alloc::Refusing;

// Tokens with adjacent texts, and an empty text by itself.
const TOKENS: [(&str, &str); 10] = [
    ("text", "one "),
    ("text", ""),
    ("text", "text that is longer than the first"),
    ("start", "p"),
    ("text", ""),
    ("null", ""),
    ("text", "another"),
    ("error", "an error"),
    ("text", " text"),
    ("end", ""),
];

// Sends a token to a sink, and the same token to a second one where the first took it. The two stay alike. Answers
// whether it was taken.
fn is_taken<A: Allocator + Copy>(
    rt: &impl Abort,
    sink: &mut Collector<A>,
    second: &mut Collector<A>,
    token: Token<A>,
    same: Token<A>,
) -> bool {
    let taken = told(sink, token, 10);
    if taken {
        assert!(rt; told(second, same, 10));
    }
    assert!(rt; sink.entries() == second.entries());
    taken
}

// Sends tokens to a sink on a heap that may refuse a request, and those that it took to a second sink on
// an ample heap. Answers how many were refused, or `None` where the tokens themselves could not be made.
fn refusals<A: Allocator + Copy>(rt: &impl Abort, heap: A, ample: A) -> Option<u64> {
    let tokens = tokens_of(heap, &TOKENS).ok()?;
    let mut sink = Collector::new(heap, false);
    let mut second = Collector::new(ample, false);
    let mut refused = 0u64;
    for (token, &(kind, text)) in tokens.into_iter().zip(&TOKENS) {
        let same = token_of(ample, kind, text).expect(rt, "memory");
        if !is_taken(rt, &mut sink, &mut second, token, same) {
            refused = refused.wrapping_add(1);
        }
    }
    Some(refused)
}

#[test]
fn a_refused_growth_leaves_the_entries(rt: HostRuntime) {
    let ample = Refusing::new(rt.alloc(), u64::MAX);
    let mut refused = 0u64;
    for admitted in 0..1000u64 {
        let heap = Refusing::new(rt.alloc(), admitted);
        let Some(count) = refusals(&rt, &heap, &ample) else {
            continue;
        };
        assert_eq!(rt; count > 0, heap.has_refused(), "after {admitted}");
        refused = refused.wrapping_add(count);
        if count == 0 {
            break;
        }
    }
    assert!(rt; refused > 2);
}
