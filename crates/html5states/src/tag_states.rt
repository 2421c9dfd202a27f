//! The states within a tag, except those of values: one function for each.
#![tactic(auto, using(crate::proofs::Tellings::tells_from_memory, crate::proofs::Tellings::tells_memory), unfolding(html5reading::proofs::OnSteps::tag_steps, html5partial::specs::Steps::tokens_of, html5partial::specs::Steps::afterwards, html5ever_interface::specs::Sink::stepped))]

ghost use Rattle.std.specs.Prelude.{◌≡◌, ◌∷◌, [], ◌++◌, OnOk};
ghost use Rattle.html5reading.specs.Machine.{told_first, tag_name_step, attribute_name_step};
ghost use Rattle.html5reading.specs.Machine.{after_attribute_name_step, part_step};
ghost use Rattle.html5reading.specs.ErrorText.{error_in, where_true};
ghost use Rattle.html5reading.specs.Start.Place.{BeforeAttribute, AfterSolidus};
ghost use Rattle.html5reading.specs.Tag.{is_odd_at_name, duplicate_error};
ghost use Rattle.html5reading.specs.Tag.{with_last_attribute, with_last_name};
ghost use Rattle.html5partial.specs.CurrentTag.{open_tag, last_name_of};
ghost use Rattle.html5states.specs.Telling.{Emits, Reads};

use crate::teller::Teller;
use html5ever_interface::interface::sink::TokenSink;
use html5ever_interface::interface::token::Token;
use html5ever_interface::states::State;
use html5partial::characters::{is_odd_at_name, is_odd_in_name, is_white_space};
use html5partial::current_tag::{CurrentTag, push_name};
use html5partial::error::TokenizerError;
use html5partial::opened::{Opened, Progress, Step};
use std::alloc::Allocator;

impl<S: TokenSink<Token<A>>, A: Allocator + Copy> Teller<'_, S, A> {
    /// The standard's "Tag name state".
    #[inline(always)]
    #[tactic(auto, using(crate::proofs::Tellings::tells_from_memory, crate::proofs::Tellings::tells_memory), unfolding(html5reading::specs::Machine::tag_name_step, html5reading::specs::Tag::in_tag_name, html5partial::specs::Steps::tokens_of, html5partial::specs::Steps::afterwards, html5ever_interface::specs::Sink::stepped))]
    pub fn tag_name_state(&mut self, at: &mut Opened<A>, c: char) -> Step
        requires { at.old.state ≡ State.TagName }
        ensures { Reads S.means S.faults result self.old self.new
            (tag_name_step self.old.exact_errors (open_tag at.old.tag) c) at.old at.new }
    {
        if is_white_space(c) {
            at.state = State::BeforeAttributeName;
            return Ok(Progress::Continues);
        }
        match c {
            '/' => at.state = State::SelfClosingStartTag,
            '>' => return self.end_tag(at, false),
            _ => {
                at.tag.indexed.push_name(c)?;
                self.emit_unexpected_where(c == '\0', c, State::TagName)?;
            }
        }
        Ok(Progress::Continues)
    }

    /// The standard's "Before attribute name state".
    pub fn before_attribute_name_state(&mut self, at: &mut Opened<A>, c: char) -> Step
        ensures { Reads S.means S.faults result self.old self.new
            (part_step self.old.exact_errors BeforeAttribute (open_tag at.old.tag) c) at.old at.new }
    {
        if c == '>' {
            return self.end_tag(at, false);
        }
        if is_white_space(c) {
            at.state = State::BeforeAttributeName;
            return Ok(Progress::Continues);
        }
        match c {
            '/' => at.state = State::SelfClosingStartTag,
            _ => self.create_attribute(at, c, State::BeforeAttributeName)?,
        }
        Ok(Progress::Continues)
    }

    /// The standard's "Attribute name state".
    #[tactic(auto, using(crate::proofs::Tellings::tells_from_memory, crate::proofs::Tellings::tells_memory), unfolding(html5reading::specs::Machine::attribute_name_step, html5reading::specs::Tag::in_attribute_name, html5partial::specs::Steps::tokens_of, html5partial::specs::Steps::afterwards, html5ever_interface::specs::Sink::stepped))]
    pub fn attribute_name_state(&mut self, at: &mut Opened<A>, c: char) -> Step
        requires { at.old.state ≡ State.AttributeName }
        ensures { Reads S.means S.faults result self.old self.new
            (attribute_name_step self.old.exact_errors (open_tag at.old.tag) c) at.old at.new }
    {
        if is_white_space(c) {
            at.state = State::AfterAttributeName;
            return Ok(Progress::Continues);
        }
        match c {
            '/' => at.state = State::SelfClosingStartTag,
            '=' => at.state = State::BeforeAttributeValue,
            '>' => return self.end_tag(at, false),
            _ => {
                push_name(&mut at.tag.attr_name, c)?;
                self.emit_unexpected_where(is_odd_in_name(c), c, State::AttributeName)?;
            }
        }
        Ok(Progress::Continues)
    }

    /// The standard's "After attribute name state".
    pub fn after_attribute_name_state(&mut self, at: &mut Opened<A>, c: char) -> Step
        requires { at.old.state ≡ State.AfterAttributeName }
        ensures { Reads S.means S.faults result self.old self.new
            (after_attribute_name_step self.old.exact_errors (open_tag at.old.tag) c) at.old at.new }
    {
        if is_white_space(c) {
            return Ok(Progress::Continues);
        }
        match c {
            '/' => at.state = State::SelfClosingStartTag,
            '=' => at.state = State::BeforeAttributeValue,
            '>' => return self.end_tag(at, false),
            _ => self.create_attribute(at, c, State::AfterAttributeName)?,
        }
        Ok(Progress::Continues)
    }

    // Sends the errors that stand before an attribute: one of its first character, and one of the
    // attribute before it, which ends here.
    fn finish_previous_attribute(
        &mut self,
        tag: &mut CurrentTag<A>,
        c: char,
        expected: State,
    ) -> Result<(), TokenizerError>
        ensures emits { Emits S.means S.faults result self.old self.new
            (where_true (is_odd_at_name c) (error_in self.old.exact_errors expected c) ++ duplicate_error
            (open_tag tag.old)) }
        ensures finished { OnOk result (open_tag tag.new ≡ with_last_attribute (open_tag tag.old)) }
    {
        self.emit_unexpected_where(is_odd_at_name(c), c, expected)?;
        self.finish_attribute(tag)
    }

    // Starts an attribute whose name begins with the character.
    fn create_attribute(
        &mut self,
        at: &mut Opened<A>,
        c: char,
        expected: State,
    ) -> Result<(), TokenizerError>
        ensures emits { Emits S.means S.faults result self.old self.new
            (where_true (is_odd_at_name c) (error_in self.old.exact_errors expected c) ++ duplicate_error
            (open_tag at.old.tag)) }
        ensures created { OnOk result
            (open_tag at.new.tag ≡ with_last_name (with_last_attribute (open_tag at.old.tag)) (c ∷ [])) }
        ensures state { at.new.state ≡ State.AttributeName }
        ensures last { last_name_of at.new ≡ last_name_of at.old }
    {
        at.state = State::AttributeName;
        self.finish_previous_attribute(&mut at.tag, c, expected)?;
        push_name(&mut at.tag.attr_name, c)?;
        Ok(())
    }

    /// The standard's "Self-closing start tag state".
    pub fn self_closing_start_tag_state(&mut self, at: &mut Opened<A>, c: char) -> Step
        ensures { Reads S.means S.faults result self.old self.new
            (part_step self.old.exact_errors AfterSolidus (open_tag at.old.tag) c) at.old at.new }
    {
        if c == '>' {
            return self.end_tag(at, true);
        }
        self.read_before_attribute(at, c, State::SelfClosingStartTag)
    }

    /// Sends the error of a character that was not expected, and reconsumes it in the standard's
    /// "Before attribute name state".
    pub fn read_before_attribute(&mut self, at: &mut Opened<A>, c: char, expected: State) -> Step
        ensures { Reads S.means S.faults result self.old self.new
            (told_first (error_in self.old.exact_errors expected c ∷ [])
            (part_step self.old.exact_errors BeforeAttribute (open_tag at.old.tag) c)) at.old at.new }
    {
        self.emit_unexpected(c, expected)?;
        self.before_attribute_name_state(at, c)
    }
}
