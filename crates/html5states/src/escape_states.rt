//! The states in which a script is escaped, and is no more, one function for each.
#![tactic(auto, using(crate::proofs::Tellings::tells_from_memory), unfolding(html5reading::proofs::OnSteps::raw_steps, html5partial::specs::Steps::tokens_of, html5partial::specs::Steps::afterwards, html5ever_interface::specs::Sink::stepped))]

ghost use Rattle.std.specs.Prelude.{◌≡◌, ◌∷◌, [], ◌++◌, string_bytes};
ghost use Rattle.std.specs.Str.{chars};
ghost use Rattle.html5reading.specs.Machine.{switch_step, mark_step, mark_and_dash_step, step_at};
ghost use Rattle.html5reading.specs.RawText.{texts, ends_name};
ghost use Rattle.html5reading.specs.Reading.Here.{Tells};
ghost use Rattle.html5reading.specs.Start.Open.{InRaw};
ghost use Rattle.html5reading.specs.Start.RawPlace.{InSwitch};
ghost use Rattle.html5partial.specs.CurrentTag.{last_name_of, opened_of};
ghost use Rattle.html5states.specs.Telling.{Reads};

use crate::teller::Teller;
use html5ever_interface::interface::sink::TokenSink;
use html5ever_interface::interface::token::Token;
use html5ever_interface::states::{RawKind, ScriptEscapeKind, State};
use html5partial::characters::{ends_name, is_letter};
use html5partial::letters::{push_letter, switched};
use html5partial::opened::{Opened, Progress, Step};
use std::alloc::Allocator;

impl<S: TokenSink<Token<A>>, A: Allocator + Copy> Teller<'_, S, A> {
    /// The standard's "Script data escape start state", and for `DoubleEscaped` its "Script data double
    /// escape start state".
    pub fn script_data_escape_start_state(
        &mut self,
        at: &mut Opened<A>,
        kind: ScriptEscapeKind,
        c: char,
    ) -> Step
        requires { at.old.state ≡ State.ScriptDataEscapeStart kind }
        ensures { Reads S.means S.faults result self.old self.new
            (step_at self.old.exact_errors (opened_of at.old) c) at.old at.new }
    {
        match kind {
            ScriptEscapeKind::Escaped => self.read_after_mark(at, c),
            ScriptEscapeKind::DoubleEscaped => self.read_switch(at, ScriptEscapeKind::Escaped, c),
        }
    }

    // The standard's "Script data escape start state".
    fn read_after_mark(&mut self, at: &mut Opened<A>, c: char) -> Step
        ensures { Reads S.means S.faults result self.old self.new
            (mark_step self.old.exact_errors (last_name_of at.old) c) at.old at.new }
    {
        if c != '-' {
            return self.read_raw_data(at, RawKind::ScriptData, c);
        }
        at.state = State::ScriptDataEscapeStartDash;
        self.emit_char('-')?;
        Ok(Progress::Continues)
    }

    /// The standard's "Script data escape start dash state".
    pub fn script_data_escape_start_dash_state(&mut self, at: &mut Opened<A>, c: char) -> Step
        ensures { Reads S.means S.faults result self.old self.new
            (mark_and_dash_step self.old.exact_errors (last_name_of at.old) c) at.old at.new }
    {
        if c != '-' {
            return self.read_raw_data(at, RawKind::ScriptData, c);
        }
        at.state = State::ScriptDataEscapedDashDash(ScriptEscapeKind::Escaped);
        self.emit_char('-')?;
        Ok(Progress::Continues)
    }

    /// The standard's "Script data double escape end state".
    pub fn script_data_double_escape_end_state(&mut self, at: &mut Opened<A>, c: char) -> Step
        ensures { Reads S.means S.faults result self.old self.new
            (switch_step self.old.exact_errors ScriptEscapeKind.DoubleEscaped (last_name_of at.old)
            (chars (string_bytes at.old.letters)) c) at.old at.new }
    {
        self.read_switch(at, ScriptEscapeKind::DoubleEscaped, c)
    }

    // The standard's "Script data double escape start state" and "Script data double escape end state".
    fn read_switch(&mut self, at: &mut Opened<A>, kind: ScriptEscapeKind, c: char) -> Step
        ensures { Reads S.means S.faults result self.old self.new
            (switch_step self.old.exact_errors kind (last_name_of at.old) (chars (string_bytes at.old.letters)) c)
            at.old at.new }
    {
        if is_letter(c) {
            return self.read_letter(at, kind, c);
        }
        if !ends_name(c) {
            return self.read_raw_data(at, RawKind::ScriptDataEscaped(kind), c);
        }
        let afterwards = switched(self.alloc, kind, &at.letters)?;
        at.state = State::RawData(RawKind::ScriptDataEscaped(afterwards));
        self.emit_char(c)?;
        Ok(Progress::Continues)
    }

    // Reads one more of the letters that may switch.
    fn read_letter(&mut self, at: &mut Opened<A>, kind: ScriptEscapeKind, c: char) -> Step
        ensures { Reads S.means S.faults result self.old self.new
            (Tells (texts (c ∷ [])) (InRaw (InSwitch kind (chars (string_bytes at.old.letters) ++ c ∷ []))
            (last_name_of at.old))) at.old at.new }
    {
        at.state = match kind {
            ScriptEscapeKind::Escaped => State::ScriptDataEscapeStart(
                ScriptEscapeKind::DoubleEscaped,
            ),
            ScriptEscapeKind::DoubleEscaped => State::ScriptDataDoubleEscapeEnd,
        };
        push_letter(&mut at.letters, c)?;
        self.emit_char(c)?;
        Ok(Progress::Continues)
    }
}
