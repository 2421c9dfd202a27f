//! The standard's states of character references: what a reference comes to, and what is sent of it.
#![tactic(auto, using(crate::proofs::Tellings::tells_from_memory), unfolding(html5ever_interface::specs::Sink::stepped))]

ghost use Rattle.std.specs.Prelude.{◌≡◌, ◌≤◌, ◌||◌, ◌&&◌, ℕ, ◌+◌, ◌∷◌, ◌++◌, true, not, map, encode_utf8, All, Option, Some, None, IfOk, OnOk, nat_lt, length};
ghost use Rattle.std.specs.Str.{IsAscii};
ghost use Rattle.html5ever_interface.specs.Token.Told.{Text, Error};
ghost use Rattle.html5reading.specs.Characters.{number_sign, semicolon};
ghost use Rattle.html5reading.specs.ErrorText.{where_true};
ghost use Rattle.html5reading.specs.Reference.{number_reference, named_reference, no_name, is_number, has_digits, number_value, invalid_number, unended_number, without_digits, semicolon_len, longest_name, is_ended, ends_number, in_value, text_in, opened_in, late_tokens, opened_after};
ghost use Rattle.html5reading.specs.Slice.{tokens_of_late};
ghost use Rattle.html5partial.specs.CharRef.{HasStand, stand_of, IsFound, more_of, decided, found_at};
ghost use Rattle.html5partial.specs.CurrentTag.{opened_of, last_name_of};
ghost use Rattle.html5states.specs.Telling.{Emits};

use crate::teller::Teller;
use html5ever_interface::interface::message::FixedMessage;
use html5ever_interface::interface::sink::TokenSink;
use html5ever_interface::interface::token::Token;
use html5ever_interface::states::State;
use html5partial::char_ref::{CharRef, Found, longest_name};
use html5partial::error::TokenizerError;
use html5partial::found::{
    afterwards, goes_on_with, invalid_number_message, is_ended, push_found, semicolon_len,
    text_of_found, unknown_name_message, without_digits,
};
use html5partial::number::{has_digits, number_value};
use html5partial::opened::Opened;
use markup5ever::data::NamedReferences;
use std::alloc::Allocator;

// No reference: the `&` is text.
const NO_REFERENCE: Found = Found {
    taken: 0,
    first: '&',
    second: None,
};

// Whether a reference there stands in a value.
fn is_in_value<A: Allocator>(at: &Opened<A>) -> bool
    requires { HasStand (opened_of at.now) }
    ensures { result ≡ in_value (stand_of (opened_of at.now)) }
{
    matches!(at.state, State::AttributeValue(_))
}

impl<S: TokenSink<Token<A>>, A: Allocator + Copy> Teller<'_, S, A> {
    // Sends the errors of a number, and answers what it comes to.
    #[tactic(auto, using(crate::proofs::Tellings::tells_from_memory), unfolding(html5reading::specs::Reference::number_reference, html5ever_interface::specs::Sink::stepped))]
    fn resolve_number(&mut self, number: &str, next: Option<char>) -> Result<Found, TokenizerError>
        requires { is_number number.now ≡ true }
        ensures emits { Emits S.means S.faults result self.old self.new
            (number_reference self.old.exact_errors number.now next).errors }
        ensures found { IfOk result (λ found. IsFound found (number_reference self.old.exact_errors number.now next)) }
    {
        if !has_digits(number) {
            self.emit_message(without_digits(number, next))?;
            return Ok(NO_REFERENCE);
        }
        let value = number_value(number);
        self.emit_unended_number(next)?;
        self.emit_invalid_number(value.is_invalid(), value.low_bits)?;
        Ok(Found {
            taken: 1 + number.len() + semicolon_len(next),
            first: value.character(),
            second: None,
        })
    }

    // Sends the error of a number that has no semicolon after it.
    #[tactic(auto, using(crate::proofs::Tellings::tells_from_memory), unfolding(html5reading::specs::Reference::unended_number, html5ever_interface::specs::Sink::stepped))]
    fn emit_unended_number(&mut self, next: Option<char>) -> Result<(), TokenizerError>
        ensures { Emits S.means S.faults result self.old self.new (unended_number next) }
    {
        match next {
            None => self.emit_message(FixedMessage::EofInNumber),
            Some(c) => self.emit_message_where(c != ';', FixedMessage::MissingSemicolonAfterNumber),
        }
    }

    // Sends the error of a number that no character should have, if it is one.
    #[tactic(auto, using(crate::proofs::Tellings::tells_from_memory), unfolding(html5reading::specs::Reference::invalid_number, html5ever_interface::specs::Sink::stepped))]
    fn emit_invalid_number(&mut self, is_invalid: bool, low_bits: u32) -> Result<(), TokenizerError>
        ensures { Emits S.means S.faults result self.old self.new
            (where_true is_invalid (Error (invalid_number self.old.exact_errors low_bits))) }
    {
        if !is_invalid {
            return Ok(());
        }
        if !self.exact_errors {
            return self.emit_message(FixedMessage::InvalidNumber);
        }
        self.emit_error(invalid_number_message(self.alloc, low_bits)?)
    }

    // Sends the errors of a name, and answers what it comes to.
    #[tactic(auto, using(crate::proofs::Tellings::tells_from_memory), unfolding(html5reading::specs::Reference::named_reference, html5ever_interface::specs::Sink::stepped))]
    fn resolve_name(
        &mut self,
        references: &NamedReferences<A>,
        in_value: bool,
        held: &str,
        next: Option<char>,
    ) -> Result<Found, TokenizerError>
        requires { IsAscii held.now }
        ensures emits { Emits S.means S.faults result self.old self.new
            (named_reference self.old.exact_errors in_value held.now next (longest_name references.now held.now)).errors }
        ensures found { IfOk result (λ found. IsFound found
            (named_reference self.old.exact_errors in_value held.now next (longest_name references.now held.now))) }
        ensures within { IfOk result (λ found. found.taken ≤ length held.now) }
    {
        let Some(named) = longest_name(references, held) else {
            self.emit_unknown_name(held, next)?;
            return Ok(NO_REFERENCE);
        };
        if !is_ended(&held[..named.len]) {
            if in_value && goes_on_with(&held[named.len..], next) {
                return Ok(NO_REFERENCE);
            }
            self.emit_message(FixedMessage::MissingSemicolon)?;
        }
        Ok(Found {
            taken: named.len,
            first: named.first,
            second: named.second,
        })
    }

    // Sends the error of letters and digits, up to a semicolon, that no name begins.
    #[tactic(auto, using(crate::proofs::Tellings::tells_from_memory), unfolding(html5reading::specs::Reference::no_name, html5ever_interface::specs::Sink::stepped))]
    fn emit_unknown_name(&mut self, held: &str, next: Option<char>) -> Result<(), TokenizerError>
        requires { IsAscii held.now }
        ensures { Emits S.means S.faults result self.old self.new
            (no_name self.old.exact_errors held.now next).errors }
    {
        if held.is_empty() || next != Some(';') {
            return Ok(());
        }
        self.emit_error(unknown_name_message(self.alloc, self.exact_errors, held)?)
    }

    // Sends the errors of a reference, and answers what it comes to.
    fn resolve(
        &mut self,
        references: &NamedReferences<A>,
        in_value: bool,
        held: &CharRef<A>,
        next: Option<char>,
    ) -> Result<Found, TokenizerError>
        ensures emits { Emits S.means S.faults result self.old self.new
            (decided self.old.exact_errors references.now in_value held.now next).errors }
        ensures found { IfOk result
            (λ found. IsFound found (decided self.old.exact_errors references.now in_value held.now next)) }
        ensures ends { IfOk result (λ found. (c : ℕ) → next ≡ Some c → nat_lt (length held.now) found.taken
            ≡ ends_number held.now c) }
    {
        match held.number() {
            Some(number) => self.resolve_number(number, next),
            None => {
                references.table_laws();
                self.resolve_name(references, in_value, held.text(), next)
            }
        }
    }

    // Sends the characters of a reference, and the held text after it. A character alone is sent where it
    // lies.
    #[tactic(auto, using(crate::proofs::Tellings::tells_from_memory), unfolding(html5ever_interface::specs::Sink::stepped))]
    fn emit_characters(&mut self, found: &Found, rest: &str) -> Result<(), TokenizerError>
        requires plain { All (λ c. (number_sign ≤ c) × (c ≤ 0x7A)) rest.now }
        ensures { Emits S.means S.faults result self.old self.new
            (map (λ c. Text (encode_utf8 c)) (found.now.first ∷ (more_of found.now.second ++ rest.now))) }
    {
        if found.second.is_none() && rest.is_empty() {
            return self.emit_char(found.first);
        }
        self.emit(Token::CharacterTokens(text_of_found(self.alloc, found, rest)?))
    }

    // Flushes characters where the reference stands: text is sent, and a value goes on with them.
    fn put_characters(
        &mut self,
        at: &mut Opened<A>,
        found: &Found,
        rest: &str,
    ) -> Result<(), TokenizerError>
        requires stand { HasStand (opened_of at.old) }
        requires plain { All (λ c. (number_sign ≤ c) × (c ≤ 0x7A)) rest.now }
        ensures emits { Emits S.means S.faults result self.old self.new
            (text_in (stand_of (opened_of at.old)) (found.now.first ∷ (more_of found.now.second ++ rest.now))) }
        ensures leads { OnOk result (opened_of at.new ≡ opened_in (stand_of (opened_of at.old))
            (found.now.first ∷ (more_of found.now.second ++ rest.now))) }
        ensures stays { HasStand (opened_of at.new) }
        ensures last { last_name_of at.new ≡ last_name_of at.old }
    {
        match at.state {
            State::AttributeValue(_) => Ok(push_found(&mut at.tag.attr_value, found, rest)?),
            _ => self.emit_characters(found, rest),
        }
    }

    /// The standard's "Character reference state" to "Numeric character reference end state", where
    /// the reference is decided. Sends its errors, and puts its characters where it stands. Answers
    /// whether the character after it is the semicolon of a number.
    pub fn finish_reference(
        &mut self,
        references: &NamedReferences<A>,
        at: &mut Opened<A>,
        held: &CharRef<A>,
        next: Option<char>,
    ) -> Result<bool, TokenizerError>
        requires { HasStand (opened_of at.old) }
        ensures emits { Emits S.means S.faults result self.old self.new
            (tokens_of_late (late_tokens (stand_of (opened_of at.old)) (found_at self.old.exact_errors references.now
            (stand_of (opened_of at.old)) held.now next) held.now)) }
        ensures leads { OnOk result (opened_of at.new ≡ opened_after (stand_of (opened_of at.old))
            (found_at self.old.exact_errors references.now (stand_of (opened_of at.old)) held.now next) held.now) }
        ensures ends { IfOk result (λ ends. (c : ℕ) → next ≡ Some c → ends ≡ ends_number held.now c) }
        ensures stays { HasStand (opened_of at.new) }
        ensures last { last_name_of at.new ≡ last_name_of at.old }
    {
        let found = self.resolve(references, is_in_value(at), held, next)?;
        let text = held.text();
        self.put_characters(at, &found, afterwards(text, found.taken))?;
        Ok(text.len() < found.taken)
    }
}
