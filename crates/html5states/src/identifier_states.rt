//! The states of a DOCTYPE's identifiers.
#![tactic(auto, using(crate::proofs::Tellings::tells_from_memory), unfolding(html5reading::proofs::OnSteps::identifier_steps, html5partial::specs::Steps::tokens_of, html5partial::specs::Steps::afterwards, html5ever_interface::specs::Sink::stepped))]

ghost use Rattle.std.specs.Prelude.{◌≡◌, true, false};
ghost use Rattle.html5ever_interface.specs.Token.{doctype_of};
ghost use Rattle.html5reading.specs.Machine.{doctype_step, wanted_identifier_step};
ghost use Rattle.html5reading.specs.Doctype.{identifier_state};
ghost use Rattle.html5reading.specs.Start.DoctypePlace.{AfterKeyword, BeforeIdentifier, InIdentifier, AfterIdentifier, BetweenIdentifiers};
ghost use Rattle.html5partial.specs.Doctypes.{quotes_of};
ghost use Rattle.html5states.specs.Telling.{Reads};

use crate::teller::Teller;
use html5ever_interface::interface::sink::TokenSink;
use html5ever_interface::interface::token::Token;
use html5ever_interface::states::DoctypeIdKind::{Public, System};
use html5ever_interface::states::{DoctypeIdKind, State};
use html5partial::characters::{is_quote, is_white_space};
use html5partial::doctypes::{Quotes, begin_identifier, push_identifier};
use html5partial::opened::{Opened, Progress, Step};
use std::alloc::Allocator;

impl<S: TokenSink<Token<A>>, A: Allocator + Copy> Teller<'_, S, A> {
    // Begins an identifier at its quote. Another character is an error that names the state.
    fn begin_or_skip(
        &mut self,
        at: &mut Opened<A>,
        kind: DoctypeIdKind,
        c: char,
        expected: State,
    ) -> Step
        ensures { Reads S.means S.faults result self.old self.new
            (wanted_identifier_step self.old.exact_errors false expected kind (doctype_of at.old.doctype) c) at.old
            at.new }
    {
        let quotes = match c {
            '"' => Quotes::Double,
            '\'' => Quotes::Single,
            _ => return self.skip_with_quirks(at, c, expected),
        };
        begin_identifier(self.alloc, &mut at.doctype, kind);
        at.state = quotes.state(kind);
        Ok(Progress::Continues)
    }

    // The same when no white space stands before, so that a quote is an error too.
    fn begin_at_once(
        &mut self,
        at: &mut Opened<A>,
        kind: DoctypeIdKind,
        c: char,
        expected: State,
    ) -> Step
        ensures { Reads S.means S.faults result self.old self.new
            (wanted_identifier_step self.old.exact_errors true expected kind (doctype_of at.old.doctype) c) at.old
            at.new }
    {
        self.emit_unexpected_where(is_quote(c), c, expected)?;
        self.begin_or_skip(at, kind, c, expected)
    }

    /// The standard's "After DOCTYPE public keyword state" and "After DOCTYPE system keyword state".
    pub fn after_doctype_keyword_state(
        &mut self,
        at: &mut Opened<A>,
        kind: DoctypeIdKind,
        c: char,
    ) -> Step
        requires { at.old.state ≡ State.AfterDoctypeKeyword kind }
        ensures { Reads S.means S.faults result self.old self.new
            (doctype_step self.old.exact_errors (AfterKeyword kind) (doctype_of at.old.doctype) c) at.old at.new }
    {
        if is_white_space(c) {
            at.state = State::BeforeDoctypeIdentifier(kind);
            return Ok(Progress::Continues);
        }
        self.begin_at_once(at, kind, c, State::AfterDoctypeKeyword(kind))
    }

    /// The standard's "Before DOCTYPE public identifier state" and "Before DOCTYPE system identifier
    /// state".
    pub fn before_doctype_identifier_state(
        &mut self,
        at: &mut Opened<A>,
        kind: DoctypeIdKind,
        c: char,
    ) -> Step
        requires { at.old.state ≡ State.BeforeDoctypeIdentifier kind }
        ensures { Reads S.means S.faults result self.old self.new
            (doctype_step self.old.exact_errors (BeforeIdentifier kind) (doctype_of at.old.doctype) c) at.old at.new }
    {
        if is_white_space(c) {
            return Ok(Progress::Continues);
        }
        self.begin_or_skip(at, kind, c, State::BeforeDoctypeIdentifier(kind))
    }

    /// The standard's "DOCTYPE public identifier (double-quoted) state" and "DOCTYPE public identifier
    /// (single-quoted) state", and the same two of the system identifier.
    #[tactic(auto, using(crate::proofs::Tellings::tells_from_memory), unfolding(html5reading::specs::Machine::doctype_step, html5reading::specs::Machine::identifier_step, html5reading::specs::Machine::skipped_step, html5reading::specs::Doctype::in_identifier, html5partial::specs::Steps::tokens_of, html5partial::specs::Steps::afterwards, html5ever_interface::specs::Sink::stepped))]
    pub fn doctype_identifier_state(
        &mut self,
        at: &mut Opened<A>,
        quotes: Quotes,
        kind: DoctypeIdKind,
        c: char,
    ) -> Step
        requires { at.old.state ≡ identifier_state (quotes_of quotes) kind }
        ensures { Reads S.means S.faults result self.old self.new
            (doctype_step self.old.exact_errors (InIdentifier (quotes_of quotes) kind) (doctype_of at.old.doctype) c)
            at.old at.new }
    {
        if c == quotes.mark() {
            at.state = State::AfterDoctypeIdentifier(kind);
            return Ok(Progress::Continues);
        }
        if c == '>' {
            return self.skip_with_quirks(at, c, quotes.state(kind));
        }
        push_identifier(&mut at.doctype, kind, c)?;
        self.emit_unexpected_where(c == '\0', c, quotes.state(kind))?;
        Ok(Progress::Continues)
    }

    /// The standard's "After DOCTYPE public identifier state".
    pub fn after_public_identifier_state(&mut self, at: &mut Opened<A>, c: char) -> Step
        requires { at.old.state ≡ State.AfterDoctypeIdentifier DoctypeIdKind.Public }
        ensures { Reads S.means S.faults result self.old self.new
            (doctype_step self.old.exact_errors (AfterIdentifier DoctypeIdKind.Public) (doctype_of at.old.doctype) c)
            at.old at.new }
    {
        if is_white_space(c) {
            at.state = State::BetweenDoctypePublicAndSystemIdentifiers;
            return Ok(Progress::Continues);
        }
        if c == '>' {
            return self.emit_doctype(at);
        }
        self.begin_at_once(at, System, c, State::AfterDoctypeIdentifier(Public))
    }

    /// The standard's "Between DOCTYPE public and system identifiers state".
    pub fn between_identifiers_state(&mut self, at: &mut Opened<A>, c: char) -> Step
        requires { at.old.state ≡ State.BetweenDoctypePublicAndSystemIdentifiers }
        ensures { Reads S.means S.faults result self.old self.new
            (doctype_step self.old.exact_errors BetweenIdentifiers (doctype_of at.old.doctype) c) at.old at.new }
    {
        if is_white_space(c) {
            return Ok(Progress::Continues);
        }
        if c == '>' {
            return self.emit_doctype(at);
        }
        self.begin_or_skip(
            at,
            System,
            c,
            State::BetweenDoctypePublicAndSystemIdentifiers,
        )
    }

    /// The standard's "After DOCTYPE system identifier state".
    pub fn after_system_identifier_state(&mut self, at: &mut Opened<A>, c: char) -> Step
        requires { at.old.state ≡ State.AfterDoctypeIdentifier DoctypeIdKind.System }
        ensures { Reads S.means S.faults result self.old self.new
            (doctype_step self.old.exact_errors (AfterIdentifier DoctypeIdKind.System) (doctype_of at.old.doctype) c)
            at.old at.new }
    {
        if is_white_space(c) {
            return Ok(Progress::Continues);
        }
        if c == '>' {
            return self.emit_doctype(at);
        }
        self.skip_doctype(at, c, State::AfterDoctypeIdentifier(System))
    }
}
