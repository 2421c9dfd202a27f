//! A sink that writes a page back.
use ghost_counts::Count;
use html5ever_interface::interface::sink::TokenSink;
use html5ever_interface::interface::token::{SinkFault, Token, TokenSinkResult};
use html5serialize::{PageOptions, PageWriter, reply_by};
use std::alloc::{AllocError, Global};

/// Writes the tokens that it is sent. Its replies are those that the standard's elements ask for, with scripting
/// or without.
#[derive(Drop)]
pub struct Writing {
    pub out: String,
    page: PageWriter,
    faults: Count,
}

impl Writing {
    pub fn new(alloc: Global, options: PageOptions) -> Writing {
        Writing {
            out: String::new(alloc),
            page: PageWriter::new(options),
            faults: Count::new(),
        }
    }
}

impl TokenSink<Token> for Writing {
    ghost use Rattle.std.specs.Prelude.{Bool, false, refl};
    ghost use Rattle.html5serialize.specs.Scripting.{reply_by};
    ghost use Rattle.html5sinks.specs.RunLaws.{tags_alone_reply};
    ghost use Rattle.html5sinks.specs.Runs.{reply_where_tag};

    type Handle = ();

    ghost State = { Bool };

    ghost means = { record {
      state = λ writing. writing.page.options.scripting;
      step = λ s told line. s;
      reply = λ s told line. reply_where_tag (reply_by s) told;
      foreign = λ s. false;
      finish = λ s. s;
      faulted = λ s told line. s;
      end_faulted = λ s. s;
    } };

    ghost faults = { λ writing. writing.faults.total };

    ghost joins = { λ s a b line. refl };

    ghost empty = { λ s line. refl };

    ghost any_line = { λ s a line other. refl };

    ghost keeps_on = { λ s. tags_alone_reply (reply_by s) s };

    fn process_token(
        &mut self,
        token: Token,
        _line_number: u64,
    ) -> Result<TokenSinkResult<(), String>, SinkFault> {
        if let Err(AllocError) = self.page.push(&mut self.out, &token) {
            self.faults.add(1);
            return Err(SinkFault);
        }
        match &token {
            Token::TagToken(tag) => Ok(reply_by(self.page.options().scripting, tag)),
            _ => Ok(TokenSinkResult::Continue),
        }
    }

    fn end(&mut self) -> Result<(), SinkFault> {
        Ok(())
    }

    fn adjusted_current_node_present_but_not_in_html_namespace(&self) -> bool {
        false
    }
}
