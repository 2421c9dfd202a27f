//! One character that tells nothing.
#![tactic(auto, unfolding(html5reading::proofs::OnSteps::text_steps, html5reading::proofs::OnSteps::tag_steps, html5reading::proofs::OnSteps::value_steps, html5reading::specs::Machine::tag_step, html5reading::specs::Characters::is_white_space, html5reading::specs::Characters::is_letter))]

ghost use Rattle.std.specs.Prelude.{◌≡◌, ◌≤◌, true, false, IfOk, IfSome};
ghost use Rattle.html5reading.specs.Start.{held_len};
ghost use Rattle.html5partial.specs.CurrentTag.{opened_of, last_name_of};
ghost use Rattle.html5fast_path.specs.Quiet.{BeginsValue, BeginsWithCharacter, IsOrdinary, IsQuiet, ReadsFront};

use html5ever_interface::states::{AttrValueKind, State};
use html5partial::comments::ends_in_mark;
use html5partial::current_tag::push_value;
use html5partial::opened::Opened;
use std::alloc::{AllocError, Allocator};

/// The character with which a text begins, if it is ASCII.
#[inline(always)]
pub fn first_ascii(text: &str) -> Option<char>
    ensures { IfSome result (λ c. BeginsWithCharacter text.now c) }
{
    let Some(first) = text.as_bytes().first() else {
        return None;
    };
    if !first.is_ascii() {
        return None;
    }
    Some(char::from(*first))
}

/// Reads a character that only leads from one place of a tag to the next. Answers whether it is one;
/// else nothing changes.
#[inline(always)]
pub fn read_sign<A: Allocator>(at: &mut Opened<A>, c: char) -> bool
    ensures quiet { result ≡ true → IsQuiet (opened_of at.old) (opened_of at.new) c }
    ensures unchanged { result ≡ false → at.new ≡ at.old }
    ensures last { last_name_of at.new ≡ last_name_of at.old }
    ensures held { held_len (opened_of at.new) ≤ held_len (opened_of at.old) }
{
    let next = match (at.state, c) {
        (State::Data, '<') => State::TagOpen,
        (State::TagOpen, '/') => State::EndTagOpen,
        (State::TagName, ' ') => State::BeforeAttributeName,
        (State::TagName, '/') => State::SelfClosingStartTag,
        (State::AttributeName, '=') => State::BeforeAttributeValue,
        (State::AttributeName, ' ') => State::AfterAttributeName,
        (State::BeforeAttributeValue, '"') => State::AttributeValue(AttrValueKind::DoubleQuoted),
        (State::BeforeAttributeValue, '\'') => State::AttributeValue(AttrValueKind::SingleQuoted),
        (State::AttributeValue(AttrValueKind::DoubleQuoted), '"') => {
            State::AfterAttributeValueQuoted
        }
        (State::AttributeValue(AttrValueKind::SingleQuoted), '\'') => {
            State::AfterAttributeValueQuoted
        }
        (State::AttributeValue(AttrValueKind::Unquoted), ' ') => State::BeforeAttributeName,
        (State::AfterAttributeValueQuoted, ' ') => State::BeforeAttributeName,
        (State::AfterAttributeValueQuoted, '/') => State::SelfClosingStartTag,
        (State::BeforeAttributeName, ' ') => State::BeforeAttributeName,
        (State::BeforeAttributeName, '/') => State::SelfClosingStartTag,
        _ => return false,
    };
    at.state = next;
    true
}

// Whether a text begins with `="`.
#[inline(always)]
fn begins_value(text: &str) -> bool
    ensures { result ≡ true → BeginsValue text.now }
{
    let Some('=') = first_ascii(text) else {
        return false;
    };
    matches!(first_ascii(&text[1..]), Some('"'))
}

/// Reads `="` after an attribute's name, which opens a value. Answers how many bytes it takes.
#[inline(always)]
pub fn open_value<A: Allocator>(at: &mut Opened<A>, text: &str) -> usize
    ensures reads { ReadsFront text.now result (opened_of at.old) (opened_of at.new) }
    ensures last { last_name_of at.new ≡ last_name_of at.old }
    ensures held { held_len (opened_of at.new) ≤ held_len (opened_of at.old) }
{
    let State::AttributeName = at.state else {
        return 0;
    };
    if !begins_value(text) {
        return 0;
    }
    at.state = State::AttributeValue(AttrValueKind::DoubleQuoted);
    2
}

// Whether a character is no `>`, no NUL and no part of a line break.
#[inline(always)]
fn is_ordinary(c: char) -> bool
    ensures { result ≡ true → IsOrdinary c }
{
    !matches!(c, '>' | '\0' | '\n' | '\r')
}

/// Reads a character of a comment, where it tells nothing. Answers whether it is one; else nothing
/// changes.
#[inline(always)]
pub fn read_in_comment<A: Allocator>(at: &mut Opened<A>, c: char) -> Result<bool, AllocError>
    ensures quiet { IfOk result (λ read. read ≡ true → IsQuiet (opened_of at.old) (opened_of at.new) c) }
    ensures unchanged { IfOk result (λ read. read ≡ false → at.new ≡ at.old) }
    ensures last { last_name_of at.new ≡ last_name_of at.old }
    ensures held { held_len (opened_of at.new) ≤ held_len (opened_of at.old) }
{
    let State::Comment = at.state else {
        return Ok(false);
    };
    if !is_ordinary(c) || ends_in_mark(&at.comment) {
        return Ok(false);
    }
    push_value(&mut at.comment, c)?;
    Ok(true)
}
