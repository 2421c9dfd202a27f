//! A sink that counts what it is sent.
ghost use Rattle.std.specs.Prelude.{◌≡◌, IfSome};
ghost use Rattle.html5ever_interface.specs.Token.{told_by};
ghost use Rattle.testing_sinks.specs.Sinks.{counted_with};

use ghost_counts::Count;
use html5ever_interface::interface::sink::TokenSink;
use html5ever_interface::interface::token::{SinkFault, Token, TokenSinkResult};
use std::alloc::Allocator;

// How many tokens other than text there are with this one, where this many can be counted.
fn counted_with<A: Allocator>(count: u64, token: &Token<A>) -> Option<u64>
    ensures { IfSome result (λ counted. counted ≡ counted_with count (told_by token.now)) }
{
    match token {
        Token::CharacterTokens(_) => Some(count),
        _ => count.checked_add(1),
    }
}

/// Counts the tokens other than text that it is sent. It faults at one that it can't count.
#[derive(Drop)]
pub struct Counting {
    pub count: u64,
    faults: Count,
}

impl Counting {
    pub fn new() -> Counting {
        Counting {
            count: 0,
            faults: Count::new(),
        }
    }
}

impl<A: Allocator> TokenSink<Token<A>> for Counting {
    ghost use Rattle.std.specs.Prelude.{ℕ, false};
    ghost use Rattle.testing_sinks.specs.Sinks.{counted_step, counted_reply, counted_joins, counted_empty, counted_any_line, counted_keeps_on};

    type Handle = ();

    ghost State = { ℕ };

    ghost means = { record {
      state = λ s. s.count;
      step = counted_step;
      reply = counted_reply;
      foreign = λ count. false;
      finish = λ count. count;
      faulted = λ count told line. count;
      end_faulted = λ count. count;
    } };

    ghost faults = { λ s. s.faults.total };

    ghost joins = { counted_joins };

    ghost empty = { counted_empty };

    ghost any_line = { counted_any_line };

    ghost keeps_on = { counted_keeps_on };

    fn process_token(
        &mut self,
        token: Token<A>,
        _line_number: u64,
    ) -> Result<TokenSinkResult<(), String<A>>, SinkFault> {
        let Some(counted) = counted_with(self.count, &token) else {
            self.faults.add(1);
            return Err(SinkFault);
        };
        self.count = counted;
        Ok(TokenSinkResult::Continue)
    }

    fn end(&mut self) -> Result<(), SinkFault> {
        Ok(())
    }

    fn adjusted_current_node_present_but_not_in_html_namespace(&self) -> bool {
        false
    }
}
