//! A sink that counts what it is sent.
use html5ever_interface::interface::sink::TokenSink;
use html5ever_interface::interface::token::{SinkFault, Tag, TextFault, Token, TokenSinkResult};
use html5sinks::text_runs::reply_to_token;
use std::alloc::Allocator;

/// How much was sent. Adjacent texts are one. Its replies are those that the standard's elements ask for.
#[derive(Drop, Default)]
pub struct Counts {
    pub tags: u64,
    pub attributes: u64,
    pub attribute_bytes: u64,
    pub texts: u64,
    pub text_bytes: u64,
    pub comments: u64,
    pub errors: u64,
    in_text: bool,
}

impl Counts {
    fn count_tag<A: Allocator>(&mut self, tag: &Tag<A>) {
        self.tags = self.tags.saturating_add(1);
        for attribute in &tag.attrs {
            let name = attribute.name.local.0.len() as u64;
            let bytes = name.saturating_add(attribute.value.len() as u64);
            self.attributes = self.attributes.saturating_add(1);
            self.attribute_bytes = self.attribute_bytes.saturating_add(bytes);
        }
    }

    fn count_text(&mut self, text: &str) {
        if !self.in_text && !text.is_empty() {
            self.texts = self.texts.saturating_add(1);
        }
        self.text_bytes = self.text_bytes.saturating_add(text.len() as u64);
        self.in_text = true;
    }

    fn count_token<A: Allocator>(&mut self, token: &Token<A>) {
        match token {
            Token::TagToken(tag) => self.count_tag(tag),
            Token::CommentToken(_) => self.comments = self.comments.saturating_add(1),
            Token::ParseError(_) => self.errors = self.errors.saturating_add(1),
            _ => {}
        }
        self.in_text = false;
    }
}

impl<A: Allocator> TokenSink<Token<A>> for Counts {
    ghost use Rattle.std.specs.Prelude.{false, refl};
    ghost use Rattle.html5sinks.specs.Replies.{standard_reply};
    ghost use Rattle.html5sinks.specs.RunLaws.{tags_alone_reply};
    ghost use Rattle.html5sinks.specs.Runs.{reply_where_tag};

    type Handle = ();

    ghost State = { Unit {0} };

    ghost means = { record {
      state = λ counts. tt;
      step = λ s told line. tt;
      reply = λ s told line. reply_where_tag standard_reply told;
      foreign = λ s. false;
      finish = λ s. s;
      faulted = λ s told line. s;
      end_faulted = λ s. s;
    } };

    ghost faults = { λ counts. 0 };

    ghost joins = { λ s a b line. refl };

    ghost empty = { λ s line. refl };

    ghost any_line = { λ s a line other. refl };

    ghost keeps_on = { tags_alone_reply standard_reply };

    fn process_token(
        &mut self,
        mut token: Token<A>,
        line_number: u64,
    ) -> Result<TokenSinkResult<(), String<A>>, SinkFault> {
        self.process_lent(&mut token, line_number)
    }

    // Counts the token where it lies.
    #[inline(always)]
    fn process_lent(
        &mut self,
        token: &mut Token<A>,
        _line_number: u64,
    ) -> Result<TokenSinkResult<(), String<A>>, SinkFault> {
        match token {
            Token::CharacterTokens(text) => self.count_text(text),
            _ => self.count_token(token),
        }
        Ok(reply_to_token(token))
    }

    fn process_text(&mut self, _alloc: A, text: &str, _line_number: u64) -> Result<(), TextFault> {
        self.count_text(text);
        Ok(())
    }

    fn end(&mut self) -> Result<(), SinkFault> {
        Ok(())
    }

    fn adjusted_current_node_present_but_not_in_html_namespace(&self) -> bool {
        false
    }
}
