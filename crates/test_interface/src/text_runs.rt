use crate::made::{says_foreign, tag_of, text_of, token_of, told};
use html5ever_interface::interface::sink::TokenSink;
use html5ever_interface::interface::token::{SinkFault, TagKind, Token, TokenSinkResult};
use html5ever_interface::states::RawKind;
use html5sinks::text_runs::{ReplyingTokenHandler, TextRuns, TokenHandler};
use std::alloc::{AllocError, Allocator, Global};
use std::process::Abort;
use testing_alloc::Refusing;

// Keeps the last run, with what ended it. It takes no end tag.
#[derive(Drop)]
struct LastRun<A: Allocator = Global> {
    last: String<A>,
}

impl<A: Allocator> LastRun<A> {
    fn is(&self, text: &str) -> bool {
        self.last.as_str() == text
    }

    // The run's text, then what ended it.
    fn keep(&mut self, run: &str, mark: &str) -> Result<(), AllocError> {
        self.last.clear();
        self.last.push_str(run)?;
        self.last.push_str(mark)
    }
}

fn mark_of<A: Allocator>(token: &Token<A>) -> &'static str {
    match token {
        Token::TagToken(_) => "|tag;",
        Token::ParseError(_) => "|error;",
        Token::NullCharacterToken => "|null;",
        Token::EOFToken => "|end;",
        _ => "|other;",
    }
}

fn is_end_tag<A: Allocator>(token: &Token<A>) -> bool {
    matches!(token, Token::TagToken(tag) if tag.kind == TagKind::EndTag)
}

impl<A: Allocator> TokenHandler<Token<A>> for LastRun<A> {
    ghost State = { Unit {0} };

    ghost state = { λ s. tt };

    ghost step = { λ state run told line. tt };

    fn take_token(
        &mut self,
        run: &str,
        token: Token<A>,
        _line_number: u64,
    ) -> Result<(), SinkFault> {
        if is_end_tag(&token) {
            return Err(SinkFault);
        }
        match self.keep(run, mark_of(&token)) {
            Ok(()) => Ok(()),
            Err(AllocError) => Err(SinkFault),
        }
    }
}

#[test]
fn hands_whole_runs_on(rt: HostRuntime) {
    let alloc = rt.alloc();
    let last = String::new(alloc);
    let mut sink = TextRuns::new(alloc, LastRun { last });
    let tokens = &[
        ("text", "one ", ""),
        ("text", "", ""),
        ("text", "whole ", ""),
        ("error", "wrong", "|error;"),
        ("text", "run", "|error;"),
        ("start", "p", "one whole run|tag;"),
        ("text", "an", "one whole run|tag;"),
        ("end tag", "p", "one whole run|tag;"), // refused: the run stays
        ("text", "d", "one whole run|tag;"),
        ("null", "", "and|null;"),
        ("start", "b", "|tag;"),
        ("text", "last", "|tag;"),
        ("end", "", "last|end;"),
    ];
    let mut row = 0u64;
    for &(kind, text, last) in tokens {
        let token = token_of(alloc, kind, text).expect(&rt, "memory");
        let kept_on = told(&mut sink, token, 1);
        assert_eq!(rt; kept_on, kind != "end tag", "at row {row}");
        assert!(rt; sink.handler().is(last), "at row {row}");
        row = row.wrapping_add(1);
    }
}

#[test]
fn replies_as_the_standard_does(rt: HostRuntime) {
    let alloc = rt.alloc();
    let last = String::new(alloc);
    let mut sink = TextRuns::new(alloc, LastRun { last });
    let tag = tag_of(alloc, TagKind::StartTag, "script").expect(&rt, "memory");
    let reply = sink.process_token(tag, 1);
    assert!(rt; reply == Ok(TokenSinkResult::RawData(RawKind::ScriptData)));
}

// Keeps the length of the last run, and asks to run a script after each tag.
#[derive(Drop)]
struct Length {
    bytes: usize,
}

impl<A: Allocator> ReplyingTokenHandler<Token<A>> for Length {
    ghost use Rattle.std.specs.Prelude.{ℕ, length};
    ghost use Rattle.html5ever_interface.specs.Token.Reply.{RunScript};

    type Handle = u32;

    ghost State = { ℕ };

    ghost state = { λ s. s.bytes };

    ghost step = { λ bytes run told line. length run };

    ghost reply = { λ bytes run tag line. RunScript 7 };

    fn answer_token(
        &mut self,
        run: &str,
        token: Token<A>,
        _line_number: u64,
    ) -> Result<TokenSinkResult<u32, String<A>>, SinkFault> {
        self.bytes = run.len();
        match token {
            Token::TagToken(_) => Ok(TokenSinkResult::Script(7)),
            _ => Ok(TokenSinkResult::Continue),
        }
    }
}

// Hands a sink a text, made on an ample heap. Answers whether it took it.
fn takes_text<A: Allocator + Copy>(
    rt: &impl Abort,
    ample: A,
    sink: &mut TextRuns<Length, A>,
) -> bool {
    told(
        sink,
        text_of(ample, "some text of a run").expect(rt, "memory"),
        1,
    )
}

// Hands a sink a start tag, which asks to run a script.
fn take_tag<A: Allocator + Copy>(rt: &impl Abort, ample: A, sink: &mut TextRuns<Length, A>) {
    let tag = tag_of(ample, TagKind::StartTag, "p").expect(rt, "memory");
    let reply = sink.process_token(tag, 1);
    assert!(rt; reply == Ok(TokenSinkResult::Script(7)));
}

// Hands a sink on a heap that may refuse a request texts, and one on an ample heap those that the first
// one took: both have the same runs. Answers how many were refused.
fn refusals<A: Allocator + Copy>(rt: &impl Abort, heap: A, ample: A) -> u64 {
    let mut sink = TextRuns::with_foreign(heap, Length { bytes: 0 }, true);
    let mut second = TextRuns::new(ample, Length { bytes: 0 });
    let mut refused = 0u64;
    for _ in 0..20u64 {
        if takes_text(rt, ample, &mut sink) {
            assert!(rt; takes_text(rt, ample, &mut second));
        } else {
            refused = refused.wrapping_add(1);
        }
    }
    take_tag(rt, ample, &mut sink);
    take_tag(rt, ample, &mut second);
    assert!(rt; sink.handler().bytes > 300);
    assert_eq!(rt; sink.handler().bytes, second.handler().bytes);
    assert!(rt; says_foreign(&sink));
    assert!(rt; !says_foreign(&second));
    refused
}

#[test]
fn a_refused_growth_leaves_the_run(rt: HostRuntime) {
    let ample = Refusing::new(rt.alloc(), u64::MAX);
    let mut refused = 0u64;
    for admitted in 0..100u64 {
        let heap = Refusing::new(rt.alloc(), admitted);
        let count = refusals(&rt, &heap, &ample);
        assert_eq!(rt; count > 0, heap.has_refused(), "after {admitted}");
        refused = refused.wrapping_add(count);
        if count == 0 {
            break;
        }
    }
    assert!(rt; refused > 1);
}
