//! The states of CDATA sections. The text that is held says by its end which of the standard's states
//! is open.
#![tactic(auto, using(crate::proofs::Tellings::tells_from_memory), unfolding(html5reading::specs::Machine::cdata_step, html5partial::specs::Steps::tokens_of, html5partial::specs::Steps::afterwards, html5ever_interface::specs::Sink::stepped))]

ghost use Rattle.std.specs.Prelude.{◌≡◌, ◌∷◌, [], ◌++◌, true, string_bytes};
ghost use Rattle.std.specs.Str.{chars};
ghost use Rattle.html5ever_interface.specs.Token.Told.{Null, End};
ghost use Rattle.html5reading.specs.Machine.{cdata_step};
ghost use Rattle.html5reading.specs.Cdata.{ends_cdata, told_at_end_of_cdata};
ghost use Rattle.html5reading.specs.ErrorText.{end_error_in};
ghost use Rattle.html5reading.specs.RawText.{texts};
ghost use Rattle.html5reading.specs.Reading.Here.{Tells};
ghost use Rattle.html5reading.specs.Start.Mode.{Cdata, Data};
ghost use Rattle.html5reading.specs.Start.Open.{Between};
ghost use Rattle.html5states.specs.Telling.{Emits, Reads};

use crate::teller::Teller;
use html5ever_interface::interface::sink::TokenSink;
use html5ever_interface::interface::token::Token;
use html5ever_interface::states::State;
use html5partial::cdata::{ends_section, push_text, section_len};
use html5partial::error::TokenizerError;
use html5partial::opened::{Opened, Progress, Step};
use std::alloc::Allocator;
use std::mem;

impl<S: TokenSink<Token<A>>, A: Allocator + Copy> Teller<'_, S, A> {
    /// The standard's "CDATA section state", "CDATA section bracket state" and "CDATA section end
    /// state".
    pub fn cdata_section_state(&mut self, at: &mut Opened<A>, c: char) -> Step
        requires { at.old.state ≡ State.CdataSection }
        ensures { Reads S.means S.faults result self.old self.new
            (cdata_step (chars (string_bytes at.old.comment)) c) at.old at.new }
    {
        if c == '>' && ends_section(&at.comment) {
            return self.end_section(at);
        }
        if c == '\0' {
            return self.cut_section(at);
        }
        push_text(at, c)?;
        Ok(Progress::Continues)
    }

    // Sends the text before a NUL, and the NUL.
    fn cut_section(&mut self, at: &mut Opened<A>) -> Step
        requires { at.old.state ≡ State.CdataSection }
        ensures { Reads S.means S.faults result self.old self.new
            (Tells (texts (chars (string_bytes at.old.comment)) ++ Null ∷ []) (Between Cdata)) at.old at.new }
    {
        let text = mem::replace(&mut at.comment, String::new(self.alloc));
        self.emit_cdata_null(text)?;
        Ok(Progress::Continues)
    }

    // Sends a text, if there is one, and NUL.
    fn emit_cdata_null(&mut self, text: String<A>) -> Result<(), TokenizerError>
        ensures { Emits S.means S.faults result self.old self.new
            (texts (chars (string_bytes text)) ++ Null ∷ []) }
    {
        self.emit_piece(text)?;
        self.emit(Token::NullCharacterToken)
    }

    // Ends a section at its `>`.
    fn end_section(&mut self, at: &mut Opened<A>) -> Step
        requires { ends_cdata (chars (string_bytes at.old.comment)) ≡ true }
        ensures { Reads S.means S.faults result self.old self.new
            (Tells (told_at_end_of_cdata (chars (string_bytes at.old.comment))) (Between Data)) at.old at.new }
    {
        at.state = State::Data;
        let len = section_len(&at.comment);
        let mut text = mem::replace(&mut at.comment, String::new(self.alloc));
        text.truncate(len);
        self.emit_piece(text)?;
        Ok(Progress::Continues)
    }

    // Sends a text, if there is one.
    fn emit_piece(&mut self, text: String<A>) -> Result<(), TokenizerError>
        ensures { Emits S.means S.faults result self.old self.new
            (texts (chars (string_bytes text))) }
    {
        if text.is_empty() {
            return Ok(());
        }
        self.hand_on(Token::CharacterTokens(text))
    }

    /// The standard's CDATA section states at the end of input: the text is sent as it stands.
    pub fn end_in_cdata(&mut self, text: &str) -> Result<(), TokenizerError>
        ensures { Emits S.means S.faults result self.old self.new
            (texts (chars text.now) ++ end_error_in self.old.exact_errors State.CdataSection ∷ End ∷ []) }
    {
        self.emit_piece(String::from_str(self.alloc, text)?)?;
        self.end_unexpected(State::CdataSection)
    }
}
