//! The states of an attribute's value, one function for each.
#![tactic(auto, using(crate::proofs::Tellings::tells_from_memory), unfolding(html5reading::proofs::OnSteps::value_steps, html5partial::specs::Steps::tokens_of, html5partial::specs::Steps::afterwards, html5ever_interface::specs::Sink::stepped))]

ghost use Rattle.std.specs.Prelude.{◌≡◌, ◌∷◌, [], false};
ghost use Rattle.html5reading.specs.Machine.{closing_step, before_value_step, quoted_step};
ghost use Rattle.html5reading.specs.Machine.{unquoted_step, part_step};
ghost use Rattle.html5reading.specs.Characters.{equals_sign};
ghost use Rattle.html5reading.specs.ErrorText.{error_in};
ghost use Rattle.html5reading.specs.Start.Place.{AfterQuotedValue};
ghost use Rattle.html5partial.specs.CurrentTag.{open_tag};
ghost use Rattle.html5states.specs.Telling.{Reads};

use crate::teller::Teller;
use html5ever_interface::interface::sink::TokenSink;
use html5ever_interface::interface::token::Token;
use html5ever_interface::states::{AttrValueKind as Kind, State};
use html5partial::characters::{is_unquoted_error, is_white_space, quote_of};
use html5partial::current_tag::push_value;
use html5partial::opened::{Opened, Progress, Step};
use std::alloc::Allocator;

impl<S: TokenSink<Token<A>>, A: Allocator + Copy> Teller<'_, S, A> {
    /// The standard's "Before attribute value state".
    pub fn before_attribute_value_state(&mut self, at: &mut Opened<A>, c: char) -> Step
        requires { at.old.state ≡ State.BeforeAttributeValue }
        ensures { Reads S.means S.faults result self.old self.new
            (before_value_step self.old.exact_errors (open_tag at.old.tag) c) at.old at.new }
    {
        if is_white_space(c) {
            return Ok(Progress::Continues);
        }
        match c {
            '"' => at.state = State::AttributeValue(Kind::DoubleQuoted),
            '\'' => at.state = State::AttributeValue(Kind::SingleQuoted),
            '>' => return self.end_without_value(at),
            _ => {
                at.state = State::AttributeValue(Kind::Unquoted);
                return self.attribute_value_unquoted_state(at, c);
            }
        }
        Ok(Progress::Continues)
    }

    // Ends a tag at the `>` that stands where a value should.
    fn end_without_value(&mut self, at: &mut Opened<A>) -> Step
        ensures { Reads S.means S.faults result self.old self.new
            (closing_step (error_in self.old.exact_errors State.BeforeAttributeValue equals_sign ∷ [])
            (open_tag at.old.tag) false)
            at.old at.new }
    {
        self.emit_unexpected('=', State::BeforeAttributeValue)?;
        self.end_tag(at, false)
    }

    /// The standard's "Attribute value (double-quoted) state" and its
    /// "Attribute value (single-quoted) state".
    pub fn attribute_value_quoted_state(&mut self, at: &mut Opened<A>, kind: Kind, c: char) -> Step
        requires { at.old.state ≡ State.AttributeValue kind }
        ensures { Reads S.means S.faults result self.old self.new
            (quoted_step self.old.exact_errors kind (open_tag at.old.tag) c) at.old at.new }
    {
        if c == '&' {
            return Ok(Progress::BeginsReference);
        }
        if c == quote_of(kind) {
            at.state = State::AfterAttributeValueQuoted;
            return Ok(Progress::Continues);
        }
        push_value(&mut at.tag.attr_value, c)?;
        self.emit_unexpected_where(c == '\0', c, State::AttributeValue(kind))?;
        Ok(Progress::Continues)
    }

    /// The standard's "Attribute value (unquoted) state".
    pub fn attribute_value_unquoted_state(&mut self, at: &mut Opened<A>, c: char) -> Step
        requires { at.old.state ≡ State.AttributeValue Kind.Unquoted }
        ensures { Reads S.means S.faults result self.old self.new
            (unquoted_step self.old.exact_errors (open_tag at.old.tag) c) at.old at.new }
    {
        if c == '&' {
            return Ok(Progress::BeginsReference);
        }
        if c == '>' {
            return self.end_tag(at, false);
        }
        if is_white_space(c) {
            at.state = State::BeforeAttributeName;
            return Ok(Progress::Continues);
        }
        push_value(&mut at.tag.attr_value, c)?;
        let wrong = is_unquoted_error(self.exact_errors, c);
        self.emit_unexpected_where(wrong, c, State::AttributeValue(Kind::Unquoted))?;
        Ok(Progress::Continues)
    }

    /// The standard's "After attribute value (quoted) state".
    pub fn after_attribute_value_quoted_state(&mut self, at: &mut Opened<A>, c: char) -> Step
        ensures { Reads S.means S.faults result self.old self.new
            (part_step self.old.exact_errors AfterQuotedValue (open_tag at.old.tag) c) at.old at.new }
    {
        if c == '>' {
            return self.end_tag(at, false);
        }
        if is_white_space(c) {
            at.state = State::BeforeAttributeName;
            return Ok(Progress::Continues);
        }
        if c == '/' {
            at.state = State::SelfClosingStartTag;
            return Ok(Progress::Continues);
        }
        self.read_before_attribute(at, c, State::AfterAttributeValueQuoted)
    }
}
