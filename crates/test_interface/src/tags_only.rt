use crate::made::{says_foreign, tag_of};
use html5ever_interface::interface::sink::TokenSink;
use html5ever_interface::interface::token::{SinkFault, Tag, TagKind, Token, TokenSinkResult};
use html5sinks::tags::{ReplyingTagHandler, TagsOnly};
use markup5ever::interface::LocalName;
use std::alloc::{Allocator, Global};
use std::process::Abort;
use testing_alloc::Refusing;

// Keeps the names of tags, and asks for plain text after each.
#[derive(Drop)]
struct Names<A: Allocator = Global> {
    names: Vec<LocalName<A>, A>,
}

impl<A: Allocator> ReplyingTagHandler<Tag<A>> for Names<A> {
    ghost use Rattle.std.specs.Prelude.{List, ℕ, map, string_bytes, ◌++◌, ◌∷◌, []};
    ghost use Rattle.html5ever_interface.specs.Token.Reply.{ReadPlainText};

    type Handle = u32;

    ghost State = { List (List ℕ) };

    ghost state = { λ s. map (λ name. string_bytes name.0) s.names.items };

    ghost step = { λ names tag line. names ++ tag.name ∷ [] };

    ghost reply = { λ names tag line. ReadPlainText };

    fn answer_tag(
        &mut self,
        tag: Tag<A>,
        _line_number: u64,
    ) -> Result<TokenSinkResult<u32, String<A>>, SinkFault> {
        match self.names.push(tag.name) {
            Ok(()) => Ok(TokenSinkResult::Plaintext),
            Err(_) => Err(SinkFault),
        }
    }
}

// Hands a sink a start tag, made on an ample heap. Answers whether it took it, and asked for plain text.
fn takes<A: Allocator + Copy>(rt: &impl Abort, ample: A, sink: &mut TagsOnly<Names<A>>) -> bool {
    let tag = tag_of(ample, TagKind::StartTag, "p").expect(rt, "memory");
    match sink.process_token(tag, 1) {
        Ok(reply) => {
            assert!(rt; reply == TokenSinkResult::Plaintext);
            true
        }
        Err(SinkFault) => false,
    }
}

// Hands a sink on a heap that may refuse a request tags, and one on an ample heap those that the first
// one took: both have the same names. Answers how many were refused.
fn refusals<A: Allocator + Copy>(rt: &impl Abort, heap: A, ample: A) -> u64 {
    let names = Vec::new(heap);
    let mut sink = TagsOnly::with_foreign(Names { names }, true);
    let names = Vec::new(ample);
    let mut second = TagsOnly::new(Names { names });
    let mut refused = 0u64;
    for _ in 0..20u64 {
        if takes(rt, ample, &mut sink) {
            assert!(rt; takes(rt, ample, &mut second));
        } else {
            refused = refused.wrapping_add(1);
        }
        assert!(rt; sink.handler().names == second.handler().names);
    }
    assert!(rt; says_foreign(&sink));
    assert!(rt; !says_foreign(&second));
    refused
}

#[test]
fn a_refused_growth_leaves_the_names(rt: HostRuntime) {
    let ample = Refusing::new(rt.alloc(), u64::MAX);
    let mut refused = 0u64;
    for admitted in 0..100u64 {
        let heap = Refusing::new(rt.alloc(), admitted);
        let count = refusals(&rt, &heap, &ample);
        assert_eq!(rt; count > 0, heap.has_refused(), "after {admitted}");
        refused = refused.wrapping_add(count);
        if count == 0 {
            break;
        }
    }
    assert!(rt; refused > 1);
}
