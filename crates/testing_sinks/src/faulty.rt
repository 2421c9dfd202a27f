//! A sink that faults.
use ghost_counts::Count;
use html5ever_interface::interface::sink::TokenSink;
use html5ever_interface::interface::token::{SinkFault, Token, TokenSinkResult};
use std::alloc::Allocator;

/// Takes some tokens and faults at the call after them, at the next token or at its end; or takes all
/// and faults at its end. It knows whether it took a token that is not text. To it all content is
/// foreign.
#[derive(Drop)]
pub struct FaultySink {
    left: usize,
    end_faults: bool,
    pub took_another: bool,
    faults: Count,
}

impl FaultySink {
    pub fn new(left: usize, end_faults: bool) -> FaultySink {
        FaultySink {
            left,
            end_faults,
            took_another: false,
            faults: Count::new(),
        }
    }
}

impl<A: Allocator> TokenSink<Token<A>> for FaultySink {
    ghost use Rattle.std.specs.Prelude.{Bool, true, false, refl, if◌then◌else◌};
    ghost use Rattle.html5ever_interface.specs.Token.Reply.{KeepOn};
    ghost use Rattle.html5ever_interface.specs.Token.{is_text};

    type Handle = u32;

    ghost State = { Bool };

    ghost means = { record {
      state = λ s. s.took_another;
      step = λ took_another told line. if is_text told then took_another else true;
      reply = λ took_another told line. KeepOn;
      foreign = λ took_another. true;
      finish = λ took_another. took_another;
      faulted = λ took_another told line. took_another;
      end_faulted = λ took_another. took_another;
    } };

    ghost faults = { λ s. s.faults.total };

    ghost joins = { λ took_another a b line. refl };

    ghost empty = { λ took_another line. refl };

    ghost any_line = { λ took_another a line other. refl };

    ghost keeps_on = { λ took_another told line no_tag. refl };

    fn process_token(
        &mut self,
        token: Token<A>,
        _line_number: u64,
    ) -> Result<TokenSinkResult<u32, String<A>>, SinkFault> {
        if self.left == 0 {
            self.faults.add(1);
            return Err(SinkFault);
        }
        self.left -= 1;
        if let Token::CharacterTokens(_) = token {
            return Ok(TokenSinkResult::Continue);
        }
        self.took_another = true;
        Ok(TokenSinkResult::Continue)
    }

    fn end(&mut self) -> Result<(), SinkFault> {
        if self.end_faults || self.left == 0 {
            self.faults.add(1);
            return Err(SinkFault);
        }
        Ok(())
    }

    fn adjusted_current_node_present_but_not_in_html_namespace(&self) -> bool {
        true
    }
}
