//! One character, in the state that is open.
#![tactic(auto, unfolding(html5reading::specs::Machine::step_at, html5reading::specs::Machine::tag_step, html5reading::specs::Machine::raw_place_step, html5partial::specs::Steps::tokens_of, html5partial::specs::Steps::afterwards, html5ever_interface::specs::Sink::stepped))]

ghost use Rattle.html5reading.specs.Machine.{step_at};
ghost use Rattle.std.specs.Prelude.{◌≡◌, false};
ghost use Rattle.html5reading.specs.Start.{is_undecided_open};
ghost use Rattle.html5partial.specs.CurrentTag.{opened_of};
ghost use Rattle.html5states.specs.Telling.{Reads};

use crate::teller::Teller;
use html5ever_interface::interface::sink::TokenSink;
use html5ever_interface::interface::token::Token;
use html5ever_interface::states::AttrValueKind::Unquoted;
use html5ever_interface::states::State;
use html5partial::doctypes::is_doctype_state;
use html5partial::opened::{Opened, Step};
use std::alloc::Allocator;

impl<S: TokenSink<Token<A>>, A: Allocator + Copy> Teller<'_, S, A> {
    /// Reads one character, and sends what it brings. It stands apart, so that what each piece goes through stays small.
    #[inline(never)]
    pub fn step(&mut self, at: &mut Opened<A>, c: char) -> Step
        requires { is_undecided_open (opened_of at.old) ≡ false }
        ensures { Reads S.means S.faults result self.old self.new
            (step_at self.old.exact_errors (opened_of at.old) c) at.old at.new }
    {
        match at.state {
            State::Data => self.data_state(at, c),
            State::Plaintext => self.plaintext_state(at, c),
            State::TagOpen => self.tag_open_state(at, c),
            State::EndTagOpen => self.end_tag_open_state(at, c),
            State::TagName => self.tag_name_state(at, c),
            State::BeforeAttributeName => self.before_attribute_name_state(at, c),
            State::AttributeName => self.attribute_name_state(at, c),
            State::AfterAttributeName => self.after_attribute_name_state(at, c),
            State::BeforeAttributeValue => self.before_attribute_value_state(at, c),
            State::AttributeValue(Unquoted) => self.attribute_value_unquoted_state(at, c),
            State::AttributeValue(kind) => self.attribute_value_quoted_state(at, kind, c),
            State::AfterAttributeValueQuoted => self.after_attribute_value_quoted_state(at, c),
            State::SelfClosingStartTag => self.self_closing_start_tag_state(at, c),
            State::RawData(kind) => self.raw_data_state(at, kind, c),
            State::RawLessThanSign(kind) => self.raw_less_than_sign_state(at, kind, c),
            State::RawEndTagOpen(kind) => self.raw_end_tag_open_state(at, kind, c),
            State::RawEndTagName(kind) => self.raw_end_tag_name_state(at, kind, c),
            State::ScriptDataEscapeStart(kind) => self.script_data_escape_start_state(at, kind, c),
            State::ScriptDataEscapeStartDash => self.script_data_escape_start_dash_state(at, c),
            State::ScriptDataEscapedDash(kind) => self.script_data_escaped_dash_state(at, kind, c),
            State::ScriptDataEscapedDashDash(kind) => self.script_data_escaped_dash_dash_state(
                at, kind, c,
            ),
            State::ScriptDataDoubleEscapeEnd => self.script_data_double_escape_end_state(at, c),
            State::BogusComment => self.bogus_comment_state(at, c),
            State::ProcessingInstruction => self.processing_instruction_state(at, c),
            State::CdataSection => self.cdata_section_state(at, c),
            state if is_doctype_state(state) => self.step_in_doctype(at, c),
            State::MarkupDeclarationOpen => unreachable!(),
            _ => self.comment_state(at, c),
        }
    }
}
