//! Sends tokens and errors to the sink.
#![tactic(auto, using(crate::proofs::Tellings::tells_from_memory), unfolding(html5ever_interface::specs::Sink::stepped))]

ghost use Rattle.std.specs.Prelude.{◌≡◌, ◌≢◌, List, ◌∷◌, [], false, IfOk, encode_utf8, string_bytes};
ghost use Rattle.html5ever_interface.specs.Message.{fixed_text, message_bytes};
ghost use Rattle.html5reading.specs.ErrorText.{error_in, end_error_in, where_true, bad_character_error};
ghost use Rattle.html5ever_interface.specs.Sink.{Message};
ghost use Rattle.html5ever_interface.specs.Token.{Told, told_by, reply_of, is_tag};
ghost use Rattle.html5ever_interface.specs.Token.Told.{Text, Error};
ghost use Rattle.html5states.specs.Telling.{Emits, IsToldAs, Tells, tokens_in};

use html5ever_interface::interface::message::{ErrorMessage, FixedMessage};
use html5ever_interface::interface::sink::TokenSink;
use html5ever_interface::interface::token::{SinkFault, TextFault, Token, TokenSinkResult};
use html5ever_interface::states::State;
use html5partial::error::TokenizerError;
use html5partial::indexed_tag::IndexedTag;
use html5partial::message::{bad_character_message, is_bad, saw_end_message, saw_message};
use std::alloc::Allocator;

/// The sink, the line of what it is sent, and whether errors are exact.
pub struct Teller<'s, S, A> {
    pub sink: &'s mut S,
    pub alloc: A,
    pub exact_errors: bool,
    pub line: u64,
}

impl<S, A: Drop> Drop for Teller<'_, S, A> {
    fn drop(self)
        ensures { self.exit.0.now ≡ self.entry.sink.now }
    {
        let Teller {
            sink: _,
            alloc: _,
            exact_errors: _,
            line: _,
        } = self;
    }
}

impl<S: TokenSink<Token<A>>, A: Allocator + Copy> Teller<'_, S, A> {
    /// Sends the sink a token that isn't a tag, so the tokenizer keeps on. To a sink a text of several
    /// characters is the same as each of them by itself, even where some stand on earlier lines.
    #[inline(always)]
    pub fn hand_on(&mut self, token: Token<A>) -> Result<(), TokenizerError>
        requires no_tag { is_tag (told_by token) ≡ false }
        requires filled { tokens_in (told_by token) ≢ [] }
        ensures whole { Emits S.means S.faults result self.old self.new
            (told_by token ∷ []) }
        ensures characters { Emits S.means S.faults result self.old self.new
            (tokens_in (told_by token)) }
        ensures says { (M : List Message) → IsToldAs (told_by token) self.old.line M
            → Tells S.means.step S.means.faulted result (S.means.state self.old.sink.now) M (S.means.state self.new.sink.now) }
    {
        match self.sink.process_token(token, self.line) {
            Ok(TokenSinkResult::Continue) => Ok(()),
            Ok(_) => unreachable!(),
            Err(SinkFault) => Err(TokenizerError::Sink),
        }
    }

    /// Sends the sink a text where it lies. It is the same to the sink as a token of the text.
    #[inline(always)]
    pub fn hand_on_text(&mut self, text: &str) -> Result<(), TokenizerError>
        ensures whole { Emits S.means S.faults result self.old self.new (Text text.now ∷ []) }
        ensures says { (M : List Message) → IsToldAs (Text text.now) self.old.line M
            → Tells S.means.step S.means.faulted result (S.means.state self.old.sink.now) M (S.means.state self.new.sink.now) }
    {
        match self.sink.process_text(self.alloc, text, self.line) {
            Ok(()) => Ok(()),
            Err(TextFault::Memory) => Err(TokenizerError::Memory),
            Err(TextFault::Sink) => Err(TokenizerError::Sink),
        }
    }

    /// Sends the sink a token that isn't a tag, a text by its characters.
    #[inline(always)]
    pub fn emit(&mut self, token: Token<A>) -> Result<(), TokenizerError>
        requires no_tag { is_tag (told_by token) ≡ false }
        requires filled { tokens_in (told_by token) ≢ [] }
        ensures { Emits S.means S.faults result self.old self.new
            (tokens_in (told_by token)) }
    {
        self.hand_on(token)
    }

    /// Sends the sink the open tag from where it lies, and answers its reply. What stays there says nothing until the next
    /// tag begins.
    #[inline(always)]
    pub fn emit_open_tag(
        &mut self,
        tag: &mut IndexedTag<A>,
    ) -> Result<TokenSinkResult<S::Handle, String<A>>, TokenizerError>
        ensures emits { Emits S.means S.faults result self.old self.new (Told.Tag tag.old ∷ []) }
        ensures replies { IfOk result (λ reply. reply_of string_bytes reply
            ≡ S.means.reply (S.means.state self.old.sink.now) (Told.Tag tag.old) self.old.line) }
    {
        match tag.send(self.alloc, self.sink, self.line) {
            Ok(reply) => Ok(reply),
            Err(SinkFault) => Err(TokenizerError::Sink),
        }
    }

    /// Sends the sink a text of one character.
    #[inline(always)]
    pub fn emit_char(&mut self, c: char) -> Result<(), TokenizerError>
        ensures { Emits S.means S.faults result self.old self.new
            (Text (encode_utf8 c) ∷ []) }
    {
        let mut bytes = [0; 4];
        self.hand_on_text(c.encode_utf8(&mut bytes))
    }

    /// Sends the sink an error.
    pub fn emit_error(&mut self, message: ErrorMessage<A>) -> Result<(), TokenizerError>
        ensures { Emits S.means S.faults result self.old self.new
            (Error (message_bytes message) ∷ []) }
    {
        self.emit(Token::ParseError(message))
    }

    /// Sends the sink an error with that message.
    pub fn emit_message(&mut self, message: FixedMessage) -> Result<(), TokenizerError>
        ensures { Emits S.means S.faults result self.old self.new
            (Error (fixed_text message) ∷ []) }
    {
        self.emit_error(ErrorMessage::Fixed(message))
    }

    /// Sends the sink an error with that message, if there is one.
    pub fn emit_message_where(
        &mut self,
        holds: bool,
        message: FixedMessage,
    ) -> Result<(), TokenizerError>
        ensures { Emits S.means S.faults result self.old self.new
            (where_true holds (Error (fixed_text message))) }
    {
        if !holds {
            return Ok(());
        }
        self.emit_message(message)
    }

    /// Sends the sink the error of a character that a state doesn't expect.
    pub fn emit_unexpected(&mut self, c: char, state: State) -> Result<(), TokenizerError>
        ensures { Emits S.means S.faults result self.old self.new
            (error_in self.old.exact_errors state c ∷ []) }
    {
        self.emit_error(saw_message(self.alloc, self.exact_errors, c, state.name())?)
    }

    /// Sends the sink the error of a character that a state doesn't expect, if it is one.
    pub fn emit_unexpected_where(
        &mut self,
        holds: bool,
        c: char,
        state: State,
    ) -> Result<(), TokenizerError>
        ensures { Emits S.means S.faults result self.old self.new
            (where_true holds (error_in self.old.exact_errors state c)) }
    {
        if !holds {
            return Ok(());
        }
        self.emit_unexpected(c, state)
    }

    /// Sends the sink the error of an end of input that a state doesn't expect.
    pub fn emit_end_error(&mut self, state: State) -> Result<(), TokenizerError>
        ensures { Emits S.means S.faults result self.old self.new
            (end_error_in self.old.exact_errors state ∷ []) }
    {
        self.emit_error(saw_end_message(self.alloc, self.exact_errors, state.name())?)
    }

    /// Sends the sink the error of a bad character, where errors are exact.
    #[inline(always)]
    pub fn emit_bad_character(&mut self, c: char) -> Result<(), TokenizerError>
        ensures { Emits S.means S.faults result self.old self.new
            (bad_character_error self.old.exact_errors c) }
    {
        if !self.exact_errors || !is_bad(c) {
            return Ok(());
        }
        self.emit_error(bad_character_message(self.alloc, c)?)
    }
}
