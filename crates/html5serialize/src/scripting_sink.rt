//! A sink that reads a page as a browser with scripting does.
ghost use Rattle.std.specs.Prelude.{◌≡◌, string_bytes, true};
ghost use Rattle.html5ever_interface.specs.Token.{reply_of, told_by};
ghost use Rattle.html5serialize.specs.Scripting.{reply_by};
ghost use Rattle.html5sinks.specs.Runs.{reply_where_tag};

use crate::scripting::reply_by;
use html5ever_interface::interface::sink::TokenSink;
use html5ever_interface::interface::token::{SinkFault, TextFault, Token, TokenSinkResult};
use std::alloc::Allocator;

/// Hands each token to a sink, and answers in its place: after each start tag it asks for what the standard's elements ask
/// for where scripting is enabled. What the sink answers is dropped, so it never pauses.
#[derive(Drop)]
pub struct ScriptingSink<S> {
    pub sink: S,
}

// The reply to a token.
fn reply_to<A: Allocator>(token: &Token<A>) -> TokenSinkResult<(), String<A>>
    ensures { reply_of string_bytes result ≡ reply_where_tag (reply_by true) (told_by token.now) }
{
    match token {
        Token::TagToken(tag) => reply_by(true, tag),
        _ => TokenSinkResult::Continue,
    }
}

impl<S: TokenSink<Token<A>>, A: Allocator> TokenSink<Token<A>> for ScriptingSink<S> {
    ghost use Rattle.std.specs.Prelude.{true};
    ghost use Rattle.html5serialize.specs.Scripting.{reply_by};
    ghost use Rattle.html5sinks.specs.RunLaws.{tags_alone_reply};
    ghost use Rattle.html5sinks.specs.Runs.{reply_where_tag};

    type Handle = ();

    ghost State = { S.State };

    ghost means = { record {
      state = λ s. S.means.state s.sink;
      step = S.means.step;
      reply = λ s told line. reply_where_tag (reply_by true) told;
      foreign = S.means.foreign;
      finish = S.means.finish;
      faulted = S.means.faulted;
      end_faulted = S.means.end_faulted;
    } };

    ghost faults = { λ s. S.faults s.sink };

    ghost joins = { S.joins };

    ghost empty = { S.empty };

    ghost any_line = { S.any_line };

    ghost keeps_on = { tags_alone_reply (reply_by true) };

    fn process_token(
        &mut self,
        token: Token<A>,
        line_number: u64,
    ) -> Result<TokenSinkResult<(), String<A>>, SinkFault> {
        let reply = reply_to(&token);
        match self.sink.process_token(token, line_number) {
            Ok(_) => Ok(reply),
            Err(SinkFault) => Err(SinkFault),
        }
    }

    fn process_lent(
        &mut self,
        token: &mut Token<A>,
        line_number: u64,
    ) -> Result<TokenSinkResult<(), String<A>>, SinkFault> {
        let reply = reply_to(token);
        match self.sink.process_lent(token, line_number) {
            Ok(_) => Ok(reply),
            Err(SinkFault) => Err(SinkFault),
        }
    }

    fn process_text(&mut self, alloc: A, text: &str, line_number: u64) -> Result<(), TextFault> {
        self.sink.process_text(alloc, text, line_number)
    }

    fn end(&mut self) -> Result<(), SinkFault> {
        self.sink.end()
    }

    fn adjusted_current_node_present_but_not_in_html_namespace(&self) -> bool {
        self.sink
            .adjusted_current_node_present_but_not_in_html_namespace()
    }
}
