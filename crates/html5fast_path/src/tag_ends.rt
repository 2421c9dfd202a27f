//! The `>` of a tag that has no error.
ghost use Rattle.std.specs.Prelude.{◌≡◌, Bool, [], true, false, IfOk, IfSome};
ghost use Rattle.html5reading.specs.Characters.{greater_than};
ghost use Rattle.html5reading.specs.Machine.{closing_step, step_at};
ghost use Rattle.html5reading.specs.Start.Mode.{Data};
ghost use Rattle.html5reading.specs.Start.Open.{Between};
ghost use Rattle.html5reading.specs.Tag.{end_tag_errors, told_tag, with_last_attribute};
ghost use Rattle.html5partial.specs.CurrentTag.{open_tag, opened_of, last_name_of};
ghost use Rattle.html5fast_path.specs.Quiet.{EndsQuietly};

use html5ever_interface::interface::token::TagKind;
use html5ever_interface::states::State;
use html5partial::current_tag::CurrentTag;
use html5partial::opened::Opened;
use std::alloc::{AllocError, Allocator};

// Where a `>` ends the open tag, and has no error of its place: whether the tag closes itself.
#[tactic(auto, unfolding(html5reading::specs::Machine::step_at, html5reading::specs::Machine::tag_step, html5reading::specs::Machine::tag_name_step, html5reading::specs::Machine::part_step, html5reading::specs::Machine::attribute_name_step, html5reading::specs::Tag::in_tag_name, html5reading::specs::Tag::in_attribute_name, html5reading::specs::Tag::place_error, html5reading::specs::Characters::is_white_space))]
#[inline(always)]
fn self_closing_at<A: Allocator>(at: &Opened<A>) -> Option<bool>
    ensures { IfSome result (λ self_closing. (exact : Bool) → step_at exact (opened_of at.now) greater_than
        ≡ closing_step [] (open_tag at.now.tag) self_closing) }
{
    match at.state {
        State::TagName => Some(false),
        State::AfterAttributeValueQuoted => Some(false),
        State::BeforeAttributeName => Some(false),
        State::AttributeName => Some(false),
        State::SelfClosingStartTag => Some(true),
        _ => None,
    }
}

// Whether the tag has none of the errors of an end tag.
#[inline(always)]
fn is_faultless<A: Allocator>(tag: &CurrentTag<A>, self_closing: bool) -> bool
    ensures { result ≡ true → end_tag_errors (with_last_attribute (open_tag tag.now)) self_closing ≡ [] }
{
    let TagKind::EndTag = tag.indexed.kind() else {
        return true;
    };
    if self_closing || tag.indexed.has_attributes() {
        return false;
    }
    tag.attr_name.is_empty()
}

/// Ends the open tag at its `>`, where the sink is sent no error before the tag. Answers whether it
/// ended; else nothing changes.
#[inline(always)]
pub fn end_tag<A: Allocator + Copy>(at: &mut Opened<A>, alloc: A) -> Result<bool, AllocError>
    ensures ends { IfOk result (λ ended. ended ≡ true
        → EndsQuietly (opened_of at.old) (told_tag (open_tag at.new.tag) at.new.tag.indexed.self_closing)) }
    ensures ended { IfOk result (λ ended. ended ≡ true → opened_of at.new ≡ Between Data) }
    ensures unchanged { IfOk result (λ ended. ended ≡ false → at.new ≡ at.old) }
    ensures last { last_name_of at.new ≡ last_name_of at.old }
{
    let Some(self_closing) = self_closing_at(at) else {
        return Ok(false);
    };
    if !is_faultless(&at.tag, self_closing) {
        return Ok(false);
    }
    if !at.tag.keep_attribute(alloc)? {
        return Ok(false);
    }
    at.state = State::Data;
    at.tag.indexed.set_self_closing(self_closing);
    Ok(true)
}
