//! The states of raw text, one function for each.
#![tactic(auto, using(crate::proofs::Tellings::tells_from_memory), unfolding(html5reading::proofs::OnSteps::raw_steps, html5partial::specs::Steps::tokens_of, html5partial::specs::Steps::afterwards, html5ever_interface::specs::Sink::stepped))]

ghost use Rattle.std.specs.Prelude.{◌≡◌, ◌∷◌, [], true, string_bytes};
ghost use Rattle.std.specs.Str.{chars};
ghost use Rattle.html5reading.specs.Machine.{raw_step, raw_less_than_step, raw_solidus_step};
ghost use Rattle.html5reading.specs.Machine.{tag_name_end_step, end_name_step};
ghost use Rattle.html5reading.specs.Characters.{exclamation_mark, solidus, less_than};
ghost use Rattle.html5reading.specs.RawText.{texts, told_at_less_than, told_after_less_than, ends_name};
ghost use Rattle.html5reading.specs.Reading.Here.{Tells};
ghost use Rattle.html5reading.specs.Start.{begun, escaped, raw_of};
ghost use Rattle.html5reading.specs.Start.Dashes.{NoDash, OneDash, TwoDashes};
ghost use Rattle.html5reading.specs.Start.Open.{InRaw};
ghost use Rattle.html5reading.specs.Start.RawPlace.{AfterMark, InSwitch};
ghost use Rattle.html5partial.specs.CurrentTag.{last_name_of};
ghost use Rattle.html5states.specs.Telling.{Emits, Reads};

use crate::teller::Teller;
use html5ever_interface::interface::sink::TokenSink;
use html5ever_interface::interface::token::{TagKind, Token};
use html5ever_interface::states::{RawKind, ScriptEscapeKind, State};
use html5partial::characters::{ends_name, is_letter};
use html5partial::error::TokenizerError;
use html5partial::letters::{clear_letters, end_tag_name, push_letter};
use html5partial::opened::{Opened, Progress, Step};
use std::alloc::Allocator;

impl<S: TokenSink<Token<A>>, A: Allocator + Copy> Teller<'_, S, A> {
    /// The standard's "RCDATA state", "RAWTEXT state", "Script data state", "Script data escaped state"
    /// and "Script data double escaped state".
    #[inline(always)]
    pub fn raw_data_state(&mut self, at: &mut Opened<A>, kind: RawKind, c: char) -> Step
        requires { at.old.state ≡ State.RawData kind }
        ensures { Reads S.means S.faults result self.old self.new
            (raw_step self.old.exact_errors (raw_of kind) (last_name_of at.old) [] c) at.old at.new }
    {
        if let RawKind::ScriptDataEscaped(escape) = kind {
            return self.script_data_escaped_state(at, escape, c);
        }
        match c {
            '<' => at.state = State::RawLessThanSign(kind),
            '&' if kind == RawKind::Rcdata => return Ok(Progress::BeginsReference),
            _ => self.emit_text_character(c, State::RawData(kind))?,
        }
        Ok(Progress::Continues)
    }

    // The standard's "Script data escaped state" and "Script data double escaped state".
    fn script_data_escaped_state(
        &mut self,
        at: &mut Opened<A>,
        kind: ScriptEscapeKind,
        c: char,
    ) -> Step
        requires { at.old.state ≡ State.RawData (RawKind.ScriptDataEscaped kind) }
        ensures { Reads S.means S.faults result self.old self.new
            (raw_step self.old.exact_errors (escaped kind NoDash) (last_name_of at.old) [] c) at.old at.new }
    {
        match c {
            '<' => self.open_less_than(at, kind)?,
            '-' => {
                at.state = State::ScriptDataEscapedDash(kind);
                self.emit_char('-')?;
            }
            _ => self.emit_text_character(c, at.state)?,
        }
        Ok(Progress::Continues)
    }

    // Opens a `<` of escaped script data, which is sent at once where it is double-escaped.
    fn open_less_than(
        &mut self,
        at: &mut Opened<A>,
        kind: ScriptEscapeKind,
    ) -> Result<(), TokenizerError>
        ensures emits { Emits S.means S.faults result self.old self.new
            (told_at_less_than (RawKind.ScriptDataEscaped kind)) }
        ensures state { at.new.state ≡ State.RawLessThanSign (RawKind.ScriptDataEscaped kind) }
        ensures last { last_name_of at.new ≡ last_name_of at.old }
    {
        at.state = State::RawLessThanSign(RawKind::ScriptDataEscaped(kind));
        match kind {
            ScriptEscapeKind::Escaped => Ok(()),
            ScriptEscapeKind::DoubleEscaped => self.emit_char('<'),
        }
    }

    /// The standard's "Script data escaped dash state" and "Script data double escaped dash state".
    pub fn script_data_escaped_dash_state(
        &mut self,
        at: &mut Opened<A>,
        kind: ScriptEscapeKind,
        c: char,
    ) -> Step
        requires { at.old.state ≡ State.ScriptDataEscapedDash kind }
        ensures { Reads S.means S.faults result self.old self.new
            (raw_step self.old.exact_errors (escaped kind OneDash) (last_name_of at.old) [] c) at.old at.new }
    {
        match c {
            '<' => self.open_less_than(at, kind)?,
            '-' => {
                at.state = State::ScriptDataEscapedDashDash(kind);
                self.emit_char('-')?;
            }
            _ => {
                at.state = State::RawData(RawKind::ScriptDataEscaped(kind));
                self.emit_text_character(c, State::ScriptDataEscapedDash(kind))?;
            }
        }
        Ok(Progress::Continues)
    }

    /// The standard's "Script data escaped dash dash state" and "Script data double escaped dash
    /// dash state".
    pub fn script_data_escaped_dash_dash_state(
        &mut self,
        at: &mut Opened<A>,
        kind: ScriptEscapeKind,
        c: char,
    ) -> Step
        requires { at.old.state ≡ State.ScriptDataEscapedDashDash kind }
        ensures { Reads S.means S.faults result self.old self.new
            (raw_step self.old.exact_errors (escaped kind TwoDashes) (last_name_of at.old) [] c) at.old at.new }
    {
        match c {
            '<' => self.open_less_than(at, kind)?,
            '-' => self.emit_char('-')?,
            '>' => {
                at.state = State::RawData(RawKind::ScriptData);
                self.emit_char('>')?;
            }
            _ => {
                at.state = State::RawData(RawKind::ScriptDataEscaped(kind));
                self.emit_text_character(c, State::ScriptDataEscapedDashDash(kind))?;
            }
        }
        Ok(Progress::Continues)
    }

    /// The standard's "RCDATA less-than sign state", "RAWTEXT less-than sign state", "Script data
    /// less-than sign state", "Script data escaped less-than sign state" and "Script data double
    /// escaped less-than sign state".
    pub fn raw_less_than_sign_state(&mut self, at: &mut Opened<A>, kind: RawKind, c: char) -> Step
        requires { at.old.state ≡ State.RawLessThanSign kind }
        ensures { Reads S.means S.faults result self.old self.new
            (raw_less_than_step self.old.exact_errors kind (last_name_of at.old) c) at.old at.new }
    {
        if c == '/' {
            return self.open_end_tag(at, kind);
        }
        match kind {
            RawKind::ScriptData if c == '!' => self.open_mark(at),
            RawKind::ScriptDataEscaped(ScriptEscapeKind::Escaped) if is_letter(c) =>
                self.open_switch(at, c),
            _ => self.read_after_less_than(at, kind, c),
        }
    }

    // Reads the `/` after `<`, which is sent at once in double-escaped script data.
    fn open_end_tag(&mut self, at: &mut Opened<A>, kind: RawKind) -> Step
        ensures { Reads S.means S.faults result self.old self.new
            (raw_solidus_step kind (last_name_of at.old)) at.old at.new }
    {
        match kind {
            RawKind::ScriptDataEscaped(ScriptEscapeKind::DoubleEscaped) => {
                at.state = State::ScriptDataDoubleEscapeEnd;
                clear_letters(&mut at.letters);
                self.emit_char('/')?;
            }
            _ => at.state = State::RawEndTagOpen(kind),
        }
        Ok(Progress::Continues)
    }

    // Sends a `<` with the character after it.
    fn emit_less_than_and(&mut self, c: char) -> Result<(), TokenizerError>
        ensures { Emits S.means S.faults result self.old self.new (texts (less_than ∷ c ∷ [])) }
    {
        self.emit_char('<')?;
        self.emit_char(c)
    }

    // Reads the `!` after the `<` of script data.
    fn open_mark(&mut self, at: &mut Opened<A>) -> Step
        ensures { Reads S.means S.faults result self.old self.new
            (Tells (texts (less_than ∷ exclamation_mark ∷ [])) (InRaw AfterMark (last_name_of at.old))) at.old at.new }
    {
        at.state = State::ScriptDataEscapeStart(ScriptEscapeKind::Escaped);
        self.emit_less_than_and('!')?;
        Ok(Progress::Continues)
    }

    // Reads the first letter after the `<` of escaped script data.
    fn open_switch(&mut self, at: &mut Opened<A>, c: char) -> Step
        ensures { Reads S.means S.faults result self.old self.new
            (Tells (texts (less_than ∷ c ∷ [])) (InRaw (InSwitch ScriptEscapeKind.Escaped (c ∷ []))
            (last_name_of at.old))) at.old at.new }
    {
        at.state = State::ScriptDataEscapeStart(ScriptEscapeKind::DoubleEscaped);
        clear_letters(&mut at.letters);
        push_letter(&mut at.letters, c)?;
        self.emit_less_than_and(c)?;
        Ok(Progress::Continues)
    }

    // Sends the `<` that began nothing where it wasn't sent, and reconsumes the character in raw text.
    fn read_after_less_than(&mut self, at: &mut Opened<A>, kind: RawKind, c: char) -> Step
        ensures { Reads S.means S.faults result self.old self.new
            (raw_step self.old.exact_errors (raw_of kind) (last_name_of at.old) (told_after_less_than kind) c) at.old
            at.new }
    {
        self.emit_after_less_than(kind)?;
        self.read_raw_data(at, kind, c)
    }

    /// Sends a `<` of raw text that wasn't sent yet.
    pub fn emit_after_less_than(&mut self, kind: RawKind) -> Result<(), TokenizerError>
        ensures { Emits S.means S.faults result self.old self.new (told_after_less_than kind) }
    {
        match kind {
            RawKind::ScriptDataEscaped(ScriptEscapeKind::DoubleEscaped) => Ok(()),
            _ => self.emit_char('<'),
        }
    }

    // Reconsumes the character in raw text.
    pub(crate) fn read_raw_data(&mut self, at: &mut Opened<A>, kind: RawKind, c: char) -> Step
        ensures { Reads S.means S.faults result self.old self.new
            (raw_step self.old.exact_errors (raw_of kind) (last_name_of at.old) [] c) at.old at.new }
    {
        at.state = State::RawData(kind);
        self.raw_data_state(at, kind, c)
    }

    /// The standard's "RCDATA end tag open state", "RAWTEXT end tag open state", "Script data end tag
    /// open state" and "Script data escaped end tag open state".
    pub fn raw_end_tag_open_state(&mut self, at: &mut Opened<A>, kind: RawKind, c: char) -> Step
        requires { at.old.state ≡ State.RawEndTagOpen kind }
        ensures { Reads S.means S.faults result self.old self.new
            (end_name_step self.old.exact_errors kind (last_name_of at.old) [] c) at.old at.new }
    {
        clear_letters(&mut at.letters);
        self.raw_end_tag_name_state(at, kind, c)
    }

    /// The standard's "RCDATA end tag name state", "RAWTEXT end tag name state", "Script data end tag
    /// name state" and "Script data escaped end tag name state". The tag begins where its name ends.
    pub fn raw_end_tag_name_state(&mut self, at: &mut Opened<A>, kind: RawKind, c: char) -> Step
        ensures { Reads S.means S.faults result self.old self.new
            (end_name_step self.old.exact_errors kind (last_name_of at.old) (chars (string_bytes at.old.letters)) c)
            at.old at.new }
    {
        if is_letter(c) {
            at.state = State::RawEndTagName(kind);
            push_letter(&mut at.letters, c)?;
            return Ok(Progress::Continues);
        }
        match end_tag_name(self.alloc, at, c)? {
            Some(name) => self.create_end_tag(at, name, c),
            None => self.read_after_end_name(at, kind, c),
        }
    }

    // Begins an end tag whose name ends before the character.
    fn create_end_tag(&mut self, at: &mut Opened<A>, name: String<A>, c: char) -> Step
        requires { ends_name c ≡ true }
        ensures { Reads S.means S.faults result self.old self.new
            (tag_name_end_step (record (begun TagKind.EndTag) { name = string_bytes name }) c) at.old at.new }
    {
        at.state = State::TagName;
        at.tag.begin(TagKind::EndTag);
        at.tag.indexed.set_name(name);
        self.tag_name_state(at, c)
    }

    // Sends the `</` and the letters that are no end tag, and reconsumes the character in raw text.
    fn read_after_end_name(&mut self, at: &mut Opened<A>, kind: RawKind, c: char) -> Step
        ensures { Reads S.means S.faults result self.old self.new
            (raw_step self.old.exact_errors (raw_of kind) (last_name_of at.old)
            (texts (less_than ∷ solidus ∷ chars (string_bytes at.old.letters))) c) at.old at.new }
    {
        self.emit_end_name(&at.letters)?;
        self.read_raw_data(at, kind, c)
    }

    /// Sends `</` and letters that are text.
    pub fn emit_end_name(&mut self, letters: &str) -> Result<(), TokenizerError>
        ensures { Emits S.means S.faults result self.old self.new
            (texts (less_than ∷ solidus ∷ chars letters.now)) }
    {
        let mut text = String::from_str(self.alloc, "</")?;
        text.push_str(letters)?;
        self.emit(Token::CharacterTokens(text))
    }
}
