use crate::made::{tag_of, text_of};
use html5ever_interface::interface::sink::TokenSink;
use html5ever_interface::interface::token::{SinkFault, Tag, TagKind, TokenSinkResult};
use html5ever_interface::states::RawKind;
use html5sinks::tags::{TagHandler, TagsOnly, is_start_of};
use std::alloc::{Allocator, Global};
use std::process::Abort;

// The example of html5sinks' own text, word for word.
#[derive(Drop)]
struct Links {
    count: u64,
}

impl<A: Allocator> TagHandler<Tag<A>> for Links {
    ghost use Rattle.std.specs.Prelude.{ℕ, ◌+◌, codes, if◌then◌else◌};
    ghost use Rattle.html5sinks.specs.Tags.{is_start_of};

    ghost State = { ℕ };

    ghost state = { λ links. links.count };

    ghost step = { λ count tag line. if is_start_of tag (codes "a") then count + 1 else count };

    fn take_tag(&mut self, tag: Tag<A>, _line_number: u64) -> Result<(), SinkFault> {
        if is_start_of(&tag, "a") {
            self.count = self.count.checked_add(1).ok_or(SinkFault)?;
        }
        Ok(())
    }
}

// What a sink replies to a tag.
type Reply = Result<TokenSinkResult<(), String>, SinkFault>;

// Whether a sink replies so to a tag.
fn replies(
    rt: &impl Abort,
    alloc: Global,
    sink: &mut TagsOnly<Links>,
    tag: (TagKind, &str, u64),
    reply: &Reply,
) -> bool {
    let (kind, name, line) = tag;
    let tag = tag_of(alloc, kind, name).expect(rt, "memory");
    sink.process_token(tag, line) == *reply
}

#[test]
fn counts_links_and_reads_on_as_the_standard_does(rt: HostRuntime) {
    let mut sink = TagsOnly::new(Links { count: 0 });
    for (kind, name, reply, count) in &[
        (TagKind::StartTag, "a", Ok(TokenSinkResult::Continue), 1),
        (TagKind::EndTag, "a", Ok(TokenSinkResult::Continue), 1),
        (
            TagKind::StartTag,
            "title",
            Ok(TokenSinkResult::RawData(RawKind::Rcdata)),
            1,
        ),
        (TagKind::EndTag, "title", Ok(TokenSinkResult::Continue), 1),
        (
            TagKind::StartTag,
            "style",
            Ok(TokenSinkResult::RawData(RawKind::Rawtext)),
            1,
        ),
        (
            TagKind::StartTag,
            "script",
            Ok(TokenSinkResult::RawData(RawKind::ScriptData)),
            1,
        ),
        (TagKind::StartTag, "a", Ok(TokenSinkResult::Continue), 2),
        (
            TagKind::StartTag,
            "plaintext",
            Ok(TokenSinkResult::Plaintext),
            2,
        ),
    ] {
        let is_so = replies(&rt, rt.alloc(), &mut sink, (*kind, *name, 7), reply);
        assert!(rt; is_so, "{name}");
        assert_eq!(rt; sink.handler().count, *count, "{name}");
    }
    assert_eq!(rt; sink.into_inner().count, 2);
}

#[test]
fn a_text_counts_no_link(rt: HostRuntime) {
    let mut sink = TagsOnly::new(Links { count: 1 });
    let text = text_of(rt.alloc(), "<a>").expect(&rt, "memory");
    assert!(rt; sink.process_token(text, 8) == Ok(TokenSinkResult::Continue));
    assert_eq!(rt; sink.handler().count, 1);
}

#[test]
fn a_refused_tag_leaves_the_handler(rt: HostRuntime) {
    let mut sink = TagsOnly::new(Links { count: u64::MAX });
    for (name, reply) in &[("a", Err(SinkFault)), ("b", Ok(TokenSinkResult::Continue))] {
        let tag = (TagKind::StartTag, *name, 1);
        assert!(rt; replies(&rt, rt.alloc(), &mut sink, tag, reply), "{name}");
    }
    assert_eq!(rt; sink.handler().count, u64::MAX);
}
