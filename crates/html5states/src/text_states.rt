//! The states between tags, and those that a `<` opens, one function for each.
#![tactic(auto, using(crate::proofs::Tellings::tells_from_memory), unfolding(html5reading::proofs::OnSteps::text_steps, html5partial::specs::Steps::tokens_of, html5partial::specs::Steps::afterwards, html5ever_interface::specs::Sink::stepped))]

ghost use Rattle.std.specs.Prelude.{◌≡◌, ◌∷◌, [], ◌==◌, codes, encode_utf8, if◌then◌else◌};
ghost use Rattle.html5reading.specs.Characters.{null, replacement_character};
ghost use Rattle.html5ever_interface.specs.Token.Told.{Text, Null};
ghost use Rattle.html5reading.specs.Machine.{step_at, tag_name_step, data_step};
ghost use Rattle.html5reading.specs.ErrorText.{error_in};
ghost use Rattle.html5reading.specs.Start.{begun};
ghost use Rattle.html5reading.specs.Start.Mode.{Data, Plain};
ghost use Rattle.html5reading.specs.Start.Open.{Between, LessThan, LessThanSolidus};
ghost use Rattle.html5states.specs.Telling.{Emits, Reads};

use crate::teller::Teller;
use html5ever_interface::interface::sink::TokenSink;
use html5ever_interface::interface::token::{TagKind, Token};
use html5ever_interface::states::State;
use html5partial::characters::is_letter;
use html5partial::error::TokenizerError;
use html5partial::opened::{Opened, Progress, Step};
use std::alloc::Allocator;

impl<S: TokenSink<Token<A>>, A: Allocator + Copy> Teller<'_, S, A> {
    // Sends the error of a character that was not expected, and then a text of one character.
    fn emit_unexpected_then(
        &mut self,
        c: char,
        expected: State,
        text: char,
    ) -> Result<(), TokenizerError>
        ensures { Emits S.means S.faults result self.old self.new
            (error_in self.old.exact_errors expected c ∷ Text (encode_utf8 text) ∷ []) }
    {
        self.emit_unexpected(c, expected)?;
        self.emit_char(text)
    }

    // Sends a NUL between tags, which is an error and a token of its own.
    fn emit_null(&mut self, c: char) -> Result<(), TokenizerError>
        ensures { Emits S.means S.faults result self.old self.new
            (error_in self.old.exact_errors State.Data c ∷ Null ∷ []) }
    {
        self.emit_unexpected(c, State::Data)?;
        self.emit(Token::NullCharacterToken)
    }

    /// Sends a character that is text; NUL is an error in the state, and U+FFFD.
    #[inline(always)]
    pub fn emit_text_character(&mut self, c: char, state: State) -> Result<(), TokenizerError>
        ensures { Emits S.means S.faults result self.old self.new
            (if c == null then error_in self.old.exact_errors state c ∷ Text (encode_utf8 replacement_character) ∷ []
            else Text (encode_utf8 c) ∷ []) }
    {
        if c == '\0' {
            return self.emit_unexpected_then(c, state, '\u{fffd}');
        }
        self.emit_char(c)
    }

    /// The standard's "PLAINTEXT state".
    #[inline(always)]
    pub fn plaintext_state(&mut self, at: &mut Opened<A>, c: char) -> Step
        requires { at.old.state ≡ State.Plaintext }
        ensures { Reads S.means S.faults result self.old self.new
            (step_at self.old.exact_errors (Between Plain) c) at.old at.new }
    {
        self.emit_text_character(c, State::Plaintext)?;
        Ok(Progress::Continues)
    }

    /// The standard's "Data state".
    #[inline(always)]
    pub fn data_state(&mut self, at: &mut Opened<A>, c: char) -> Step
        requires { at.old.state ≡ State.Data }
        ensures { Reads S.means S.faults result self.old self.new
            (step_at self.old.exact_errors (Between Data) c) at.old at.new }
    {
        match c {
            '<' => at.state = State::TagOpen,
            '&' => return Ok(Progress::BeginsReference),
            '\0' => self.emit_null(c)?,
            _ => self.emit_char(c)?,
        }
        Ok(Progress::Continues)
    }

    // Sends the `<` that opened nothing, and reconsumes the character in the standard's "Data state".
    fn read_in_data(&mut self, at: &mut Opened<A>, c: char) -> Step
        ensures { Reads S.means S.faults result self.old self.new
            (data_step self.old.exact_errors (error_in self.old.exact_errors State.TagOpen c ∷ Text (codes "<") ∷ []) c)
            at.old at.new }
    {
        self.emit_unexpected_then(c, State::TagOpen, '<')?;
        at.state = State::Data;
        self.data_state(at, c)
    }

    // Begins a tag at the first letter of its name.
    fn create_tag(&mut self, at: &mut Opened<A>, kind: TagKind, c: char) -> Step
        ensures { Reads S.means S.faults result self.old self.new
            (tag_name_step self.old.exact_errors (begun kind) c) at.old at.new }
    {
        at.state = State::TagName;
        at.tag.begin(kind);
        self.tag_name_state(at, c)
    }

    /// The standard's "Tag open state".
    pub fn tag_open_state(&mut self, at: &mut Opened<A>, c: char) -> Step
        requires { at.old.state ≡ State.TagOpen }
        ensures { Reads S.means S.faults result self.old self.new
            (step_at self.old.exact_errors LessThan c) at.old at.new }
    {
        if is_letter(c) {
            return self.create_tag(at, TagKind::StartTag, c);
        }
        match c {
            '/' => {
                at.state = State::EndTagOpen;
                Ok(Progress::Continues)
            }
            '!' => {
                at.state = State::MarkupDeclarationOpen;
                at.comment.clear();
                Ok(Progress::Continues)
            }
            '?' => {
                at.state = State::ProcessingInstruction;
                at.comment.clear();
                Ok(Progress::Continues)
            }
            _ => self.read_in_data(at, c),
        }
    }

    /// The standard's "End tag open state".
    pub fn end_tag_open_state(&mut self, at: &mut Opened<A>, c: char) -> Step
        requires { at.old.state ≡ State.EndTagOpen }
        ensures { Reads S.means S.faults result self.old self.new
            (step_at self.old.exact_errors LessThanSolidus c) at.old at.new }
    {
        if is_letter(c) {
            return self.create_tag(at, TagKind::EndTag, c);
        }
        if c != '>' {
            return self.create_bogus_comment(at, c);
        }
        at.state = State::Data;
        self.emit_unexpected(c, State::EndTagOpen)?;
        Ok(Progress::Continues)
    }
}
