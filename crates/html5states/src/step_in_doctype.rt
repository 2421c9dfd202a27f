//! One character of a DOCTYPE, in the state that is open.
#![tactic(auto, using(crate::proofs::Tellings::tells_from_memory), unfolding(html5reading::specs::Machine::step_at, html5reading::specs::Machine::doctype_step, html5partial::specs::Steps::tokens_of, html5partial::specs::Steps::afterwards, html5ever_interface::specs::Sink::stepped))]

ghost use Rattle.std.specs.Prelude.{◌≡◌, true, false};
ghost use Rattle.html5reading.specs.Machine.{step_at};
ghost use Rattle.html5reading.specs.Start.{is_undecided_open};
ghost use Rattle.html5partial.specs.CurrentTag.{is_doctype_state, opened_of};
ghost use Rattle.html5states.specs.Telling.{Reads};

use crate::teller::Teller;
use html5ever_interface::interface::sink::TokenSink;
use html5ever_interface::interface::token::Token;
use html5ever_interface::states::DoctypeIdKind::{Public, System};
use html5ever_interface::states::State;
use html5partial::doctypes::Quotes;
use html5partial::opened::{Opened, Step};
use std::alloc::Allocator;

impl<S: TokenSink<Token<A>>, A: Allocator + Copy> Teller<'_, S, A> {
    /// Reads one character in the standard's "DOCTYPE state" to "Bogus DOCTYPE state".
    pub fn step_in_doctype(&mut self, at: &mut Opened<A>, c: char) -> Step
        requires doctype { is_doctype_state at.old.state ≡ true }
        requires decided { is_undecided_open (opened_of at.old) ≡ false }
        ensures { Reads S.means S.faults result self.old self.new
            (step_at self.old.exact_errors (opened_of at.old) c) at.old at.new }
    {
        match at.state {
            State::Doctype => self.doctype_state(at, c),
            State::BeforeDoctypeName => self.before_doctype_name_state(at, c),
            State::DoctypeName => self.doctype_name_state(at, c),
            State::AfterDoctypeName => self.after_doctype_name_state(at, c),
            State::AfterDoctypeKeyword(kind) => self.after_doctype_keyword_state(at, kind, c),
            State::BeforeDoctypeIdentifier(kind) => {
                self.before_doctype_identifier_state(at, kind, c)
            }
            State::DoctypeIdentifierDoubleQuoted(kind) => {
                self.doctype_identifier_state(at, Quotes::Double, kind, c)
            }
            State::DoctypeIdentifierSingleQuoted(kind) => {
                self.doctype_identifier_state(at, Quotes::Single, kind, c)
            }
            State::AfterDoctypeIdentifier(Public) => self.after_public_identifier_state(at, c),
            State::AfterDoctypeIdentifier(System) => self.after_system_identifier_state(at, c),
            State::BetweenDoctypePublicAndSystemIdentifiers => {
                self.between_identifiers_state(at, c)
            }
            State::BogusDoctype => self.bogus_doctype_state(at, c),
            _ => unreachable!(),
        }
    }
}
