//! The states of DOCTYPEs up to their name and keyword, and what ends or skips a DOCTYPE.
#![tactic(auto, using(crate::proofs::Tellings::tells_from_memory), unfolding(html5reading::proofs::OnSteps::doctype_steps, html5partial::specs::Steps::tokens_of, html5partial::specs::Steps::afterwards, html5ever_interface::specs::Sink::stepped))]

ghost use Rattle.std.specs.Prelude.{◌≡◌, ◌∷◌, [], string_bytes};
ghost use Rattle.html5ever_interface.specs.Token.{doctype_of};
ghost use Rattle.html5ever_interface.specs.Token.{Told};
ghost use Rattle.html5reading.specs.Machine.{doctype_step, skipped_step, wanted_name_step};
ghost use Rattle.html5reading.specs.Doctype.{with_quirks};
ghost use Rattle.html5reading.specs.ErrorText.{error_in};
ghost use Rattle.html5reading.specs.Reading.Here.{Tells};
ghost use Rattle.html5reading.specs.Start.DoctypePlace.{AfterWord, BeforeName, InDoctypeName, AfterName};
ghost use Rattle.html5reading.specs.Start.Mode.{Data};
ghost use Rattle.html5reading.specs.Start.Open.{Between};
ghost use Rattle.html5states.specs.Telling.{Reads};

use crate::teller::Teller;
use html5ever_interface::interface::sink::TokenSink;
use html5ever_interface::interface::token::{Doctype, Token};
use html5ever_interface::states::State;
use html5partial::characters::is_white_space;
use html5partial::doctype_keyword::begins_doctype_keyword;
use html5partial::doctypes::{begin_name, push_doctype_name};
use html5partial::opened::{Opened, Progress, Step};
use std::alloc::Allocator;
use std::mem;

impl<S: TokenSink<Token<A>>, A: Allocator + Copy> Teller<'_, S, A> {
    /// Sends the DOCTYPE that was begun.
    pub fn emit_doctype(&mut self, at: &mut Opened<A>) -> Step
        ensures { Reads S.means S.faults result self.old self.new
            (Tells (Told.Doctype (doctype_of at.old.doctype) ∷ []) (Between Data)) at.old at.new }
    {
        at.state = State::Data;
        let doctype = mem::replace(&mut at.doctype, Doctype::default());
        self.emit(Token::DoctypeToken(doctype))?;
        Ok(Progress::Continues)
    }

    /// The standard's "Bogus DOCTYPE state".
    pub fn bogus_doctype_state(&mut self, at: &mut Opened<A>, c: char) -> Step
        requires { at.old.state ≡ State.BogusDoctype }
        ensures { Reads S.means S.faults result self.old self.new
            (skipped_step self.old.exact_errors [] (doctype_of at.old.doctype) c) at.old at.new }
    {
        if c == '>' {
            return self.emit_doctype(at);
        }
        self.emit_unexpected_where(c == '\0', c, State::BogusDoctype)?;
        Ok(Progress::Continues)
    }

    /// Sends an error that names the state, and reconsumes the character in the standard's "Bogus
    /// DOCTYPE state".
    pub fn skip_doctype(&mut self, at: &mut Opened<A>, c: char, expected: State) -> Step
        ensures { Reads S.means S.faults result self.old self.new
            (skipped_step self.old.exact_errors (error_in self.old.exact_errors expected c ∷ [])
            (doctype_of at.old.doctype) c) at.old at.new }
    {
        self.emit_unexpected(c, expected)?;
        at.state = State::BogusDoctype;
        self.bogus_doctype_state(at, c)
    }

    /// The same, with quirks.
    pub fn skip_with_quirks(&mut self, at: &mut Opened<A>, c: char, expected: State) -> Step
        ensures { Reads S.means S.faults result self.old self.new
            (skipped_step self.old.exact_errors (error_in self.old.exact_errors expected c ∷ [])
            (with_quirks (doctype_of at.old.doctype)) c) at.old at.new }
    {
        at.doctype.force_quirks = true;
        self.skip_doctype(at, c, expected)
    }

    // The standard's "Before DOCTYPE name state" after white space: begins the name, or sends a DOCTYPE
    // without one.
    fn begin_doctype_name(&mut self, at: &mut Opened<A>, c: char) -> Step
        ensures { Reads S.means S.faults result self.old self.new
            (wanted_name_step self.old.exact_errors [] (doctype_of at.old.doctype) c) at.old at.new }
    {
        if c == '>' {
            return self.skip_with_quirks(at, c, State::BeforeDoctypeName);
        }
        begin_name(self.alloc, &mut at.doctype, c)?;
        at.state = State::DoctypeName;
        self.emit_unexpected_where(c == '\0', c, State::BeforeDoctypeName)?;
        Ok(Progress::Continues)
    }

    /// The standard's "DOCTYPE state".
    pub fn doctype_state(&mut self, at: &mut Opened<A>, c: char) -> Step
        requires { at.old.state ≡ State.Doctype }
        ensures { Reads S.means S.faults result self.old self.new
            (doctype_step self.old.exact_errors AfterWord (doctype_of at.old.doctype) c) at.old at.new }
    {
        if is_white_space(c) {
            at.state = State::BeforeDoctypeName;
            return Ok(Progress::Continues);
        }
        self.emit_unexpected_where(c != '>', c, State::Doctype)?;
        self.begin_doctype_name(at, c)
    }

    /// The standard's "Before DOCTYPE name state".
    pub fn before_doctype_name_state(&mut self, at: &mut Opened<A>, c: char) -> Step
        requires { at.old.state ≡ State.BeforeDoctypeName }
        ensures { Reads S.means S.faults result self.old self.new
            (doctype_step self.old.exact_errors BeforeName (doctype_of at.old.doctype) c) at.old at.new }
    {
        if is_white_space(c) {
            return Ok(Progress::Continues);
        }
        self.begin_doctype_name(at, c)
    }

    /// The standard's "DOCTYPE name state".
    pub fn doctype_name_state(&mut self, at: &mut Opened<A>, c: char) -> Step
        requires { at.old.state ≡ State.DoctypeName }
        ensures { Reads S.means S.faults result self.old self.new
            (doctype_step self.old.exact_errors InDoctypeName (doctype_of at.old.doctype) c) at.old at.new }
    {
        if c == '>' {
            return self.emit_doctype(at);
        }
        if is_white_space(c) {
            at.state = State::AfterDoctypeName;
            at.comment.clear();
            return Ok(Progress::Continues);
        }
        push_doctype_name(&mut at.doctype, c)?;
        self.emit_unexpected_where(c == '\0', c, State::DoctypeName)?;
        Ok(Progress::Continues)
    }

    /// The standard's "After DOCTYPE name state", when no keyword was begun.
    pub fn after_doctype_name_state(&mut self, at: &mut Opened<A>, c: char) -> Step
        requires state { at.old.state ≡ State.AfterDoctypeName }
        requires nothing_held { string_bytes at.old.comment ≡ [] }
        ensures { Reads S.means S.faults result self.old self.new
            (doctype_step self.old.exact_errors AfterName (doctype_of at.old.doctype) c) at.old at.new }
    {
        if is_white_space(c) {
            return Ok(Progress::Continues);
        }
        if c == '>' {
            return self.emit_doctype(at);
        }
        if !begins_doctype_keyword(c) {
            return self.skip_with_quirks(at, c, State::AfterDoctypeName);
        }
        at.comment.push(c)?;
        Ok(Progress::Continues)
    }
}
