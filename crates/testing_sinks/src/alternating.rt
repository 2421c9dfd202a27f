//! A sink whose answer about foreign content changes, and which pauses now and then.
ghost use Rattle.std.specs.Prelude.{◌≡◌, IfSome, string_bytes};
ghost use Rattle.html5ever_interface.specs.Token.{told_by, reply_of};
ghost use Rattle.testing_sinks.specs.Sinks.{tags_with, reply_at};

use ghost_counts::Count;
use html5ever_interface::collect::Collector;
use html5ever_interface::interface::sink::TokenSink;
use html5ever_interface::interface::token::{SinkFault, Token, TokenSinkResult};
use std::alloc::{Allocator, Global};

// How many tags there are with this token, where this many can be counted.
fn tags_with<A: Allocator>(tags: u32, token: &Token<A>) -> Option<u32>
    ensures { IfSome result (λ counted. counted ≡ tags_with tags (told_by token.now)) }
{
    match token {
        Token::TagToken(_) => tags.checked_add(1),
        _ => Some(tags),
    }
}

// What is replied to a token, with which there are this many tags.
fn reply_at<A: Allocator>(tags: u32, token: &Token<A>) -> TokenSinkResult<u32, String<A>>
    ensures { reply_of string_bytes result ≡ reply_at tags (told_by token.now) }
{
    match token {
        Token::TagToken(_) => {
            if tags % 3 == 0 {
                return TokenSinkResult::Script(tags);
            }
            TokenSinkResult::Continue
        }
        _ => TokenSinkResult::Continue,
    }
}

/// Collects tokens, and counts the tags. To it the content is foreign while their number is odd. It
/// asks to run script N after tag N, where N is a multiple of 3, and faults at a tag that it can't
/// count.
#[derive(Drop)]
pub struct Alternating<A: Allocator = Global> {
    pub inner: Collector<A>,
    tags: u32,
    faults: Count,
}

impl<A: Allocator> Alternating<A> {
    pub fn new(alloc: A) -> Alternating<A> {
        Alternating {
            inner: Collector::new(alloc, false),
            tags: 0,
            faults: Count::new(),
        }
    }
}

impl<A: Allocator + Copy> TokenSink<Token<A>> for Alternating<A> {
    ghost use Rattle.std.specs.Prelude.{◌+◌, ◌%◌, ◌==◌};
    ghost use Rattle.testing_sinks.specs.Sinks.{Alternated, alternated_step, alternated_reply, alternated_faulted, alternated_finish, alternated_joins, alternated_empty, alternated_any_line, alternated_keeps_on};

    type Handle = u32;

    ghost State = { Alternated };

    ghost means = { record {
      state = λ s. record { collected = s.inner.collected; tags = s.tags };
      step = alternated_step;
      reply = alternated_reply;
      foreign = λ s. s.tags % 2 == 1;
      finish = alternated_finish;
      faulted = alternated_faulted;
      end_faulted = λ s. s;
    } };

    ghost faults = { λ s. s.inner.faults + s.faults.total };

    ghost joins = { alternated_joins };

    ghost empty = { alternated_empty };

    ghost any_line = { alternated_any_line };

    ghost keeps_on = { alternated_keeps_on };

    fn process_token(
        &mut self,
        token: Token<A>,
        line_number: u64,
    ) -> Result<TokenSinkResult<u32, String<A>>, SinkFault> {
        let Some(tags) = tags_with(self.tags, &token) else {
            self.faults.add(1);
            return Err(SinkFault);
        };
        let reply = reply_at(tags, &token);
        match self.inner.process_token(token, line_number) {
            Ok(_) => {
                self.tags = tags;
                Ok(reply)
            }
            Err(SinkFault) => Err(SinkFault),
        }
    }

    fn end(&mut self) -> Result<(), SinkFault> {
        self.inner.end()
    }

    fn adjusted_current_node_present_but_not_in_html_namespace(&self) -> bool {
        self.tags % 2 == 1
    }
}
