//! A sink that replies to some tags.
ghost use Rattle.std.specs.Prelude.{◌≡◌, string_bytes};
ghost use Rattle.html5ever_interface.specs.Token.{told_by, reply_of};
ghost use Rattle.testing_sinks.specs.Sinks.{is_start_of, reply_to};

use html5ever_interface::collect::Collector;
use html5ever_interface::interface::sink::TokenSink;
use html5ever_interface::interface::token::{SinkFault, TagKind, Token, TokenSinkResult};
use html5ever_interface::states::RawKind;
use std::alloc::{Allocator, Global};

// Whether the token is the start tag of that name.
fn is_start_of<A: Allocator>(token: &Token<A>, name: &str) -> bool
    ensures { result ≡ is_start_of name.now (told_by token.now) }
{
    match token {
        Token::TagToken(tag) => match tag.kind {
            TagKind::StartTag => tag.name.0.as_str() == name,
            TagKind::EndTag => false,
        },
        _ => false,
    }
}

// What is replied to a token.
fn reply_to<A: Allocator>(token: &Token<A>) -> TokenSinkResult<u32, String<A>>
    ensures { reply_of string_bytes result ≡ reply_to (told_by token.now) }
{
    if is_start_of(token, "p") {
        TokenSinkResult::Plaintext
    } else if is_start_of(token, "s") {
        TokenSinkResult::Script(7)
    } else if is_start_of(token, "x") {
        TokenSinkResult::RawData(RawKind::Rawtext)
    } else {
        TokenSinkResult::Continue
    }
}

/// Collects tokens. It asks for plain text after each start tag `p`, to run a script after each
/// start tag `s`, and for raw text after each start tag `x`.
#[derive(Drop)]
pub struct Steering<A: Allocator = Global> {
    pub inner: Collector<A>,
}

impl<A: Allocator> Steering<A> {
    pub fn new(alloc: A) -> Steering<A> {
        Steering {
            inner: Collector::new(alloc, false),
        }
    }
}

impl<A: Allocator + Copy> TokenSink<Token<A>> for Steering<A> {
    ghost use Rattle.html5ever_interface.specs.Collected.{Collected, collected_step, collected_faulted, collected_finish};
    ghost use Rattle.html5ever_interface.specs.CollectorLaws.{collected_joins, collected_empty, collected_any_line};
    ghost use Rattle.testing_sinks.specs.Sinks.{steering_reply, steering_keeps_on};

    type Handle = u32;

    ghost State = { Collected };

    ghost means = { record {
      state = λ s. s.inner.collected;
      step = collected_step;
      reply = steering_reply;
      foreign = λ c. c.foreign;
      finish = collected_finish;
      faulted = collected_faulted;
      end_faulted = λ c. c;
    } };

    ghost faults = { λ s. s.inner.faults };

    ghost joins = { collected_joins };

    ghost empty = { collected_empty };

    ghost any_line = { collected_any_line };

    ghost keeps_on = { steering_keeps_on };

    fn process_token(
        &mut self,
        token: Token<A>,
        line_number: u64,
    ) -> Result<TokenSinkResult<u32, String<A>>, SinkFault> {
        let reply = reply_to(&token);
        match self.inner.process_token(token, line_number) {
            Ok(_) => Ok(reply),
            Err(SinkFault) => Err(SinkFault),
        }
    }

    fn end(&mut self) -> Result<(), SinkFault> {
        self.inner.end()
    }

    fn adjusted_current_node_present_but_not_in_html_namespace(&self) -> bool {
        self.inner
            .adjusted_current_node_present_but_not_in_html_namespace()
    }
}
