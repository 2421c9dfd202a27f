//! Which tokens can be written.
ghost use Rattle.std.specs.Prelude.{◌≡◌, ◌+◌, ◌<◌, ◌^◌, length, map, option_map, string_bytes};
ghost use Rattle.std.specs.Option.{option_or};
ghost use Rattle.html5ever_interface.specs.Token.{doctype_of, tag_of, told_by};
ghost use Rattle.html5serialize.specs.Doctypes.{is_identifier_or_none};
ghost use Rattle.html5serialize.specs.Refusals.{attribute_refusal, attributes_refusal, doctype_refusal, named_refusal, comment_refusal, instruction_refusal, refusal_of, repeat_from, tag_refusal};
ghost use Rattle.html5serialize.specs.Tags.{differs_from, is_unqualified};
ghost use Rattle.html5serialize.specs.declared.error.SerializeError.TheVariants.{Repeated};
ghost use Rattle.markup5ever.specs.Names.{attribute_of, qualified_name_of};

use crate::error::SerializeError;
use crate::names::{
    has_markup_characters, is_attribute_name, is_comment_text, is_doctype_name, is_identifier,
    is_tag_name, null_in,
};
use html5ever_interface::interface::token::{Doctype, Tag, Token};
use markup5ever::interface::{Attribute, QualName};
use std::alloc::Allocator;

// Whether a name has no prefix and no namespace.
fn is_unqualified<A: Allocator>(name: &QualName<A>) -> bool
    ensures { result ≡ is_unqualified (qualified_name_of name.now) }
{
    name.prefix.is_none() && name.ns.0.is_empty()
}

// Whether two attributes have different names.
fn are_different<A: Allocator>(attribute: &Attribute<A>, other: &Attribute<A>) -> bool
    ensures { result ≡ differs_from (attribute_of attribute.now) (attribute_of other.now) }
{
    attribute.name.local.0.as_str() != other.name.local.0.as_str()
}

// The first of later attributes that has the name of this one, where they are counted from `index`.
fn repeat_from<A: Allocator>(
    attribute: &Attribute<A>,
    index: usize,
    later: &[Attribute<A>],
) -> Option<usize>
    requires { index + length later.now < 2 ^ 64 }
    ensures { result ≡ repeat_from (attribute_of attribute.now) index (map attribute_of later.now) }
{
    for (k, other) in later.iter().enumerate() {
        if !are_different(attribute, other) {
            return Some(index + k);
        }
    }
    None
}

// What is wrong with an attribute by itself.
#[tactic(auto, unfolding(crate::specs::Refusals::attribute_refusal))]
fn attribute_refusal<A: Allocator>(index: usize, attribute: &Attribute<A>) -> Option<SerializeError>
    ensures { result ≡ attribute_refusal index (attribute_of attribute.now) }
{
    if !is_unqualified(&attribute.name) {
        return Some(SerializeError::QualifiedName { attribute: index });
    }
    if !is_attribute_name(&attribute.name.local.0) {
        return Some(SerializeError::AttributeName { attribute: index });
    }
    match null_in(&attribute.value) {
        Some(at) => Some(SerializeError::NullInValue {
            attribute: index,
            at,
        }),
        None => None,
    }
}

// The first of later attributes that repeats the name of this one.
fn repeat_refusal<A: Allocator>(
    index: usize,
    attribute: &Attribute<A>,
    later: &[Attribute<A>],
) -> Option<SerializeError>
    requires { index + 1 + length later.now < 2 ^ 64 }
    ensures { result ≡ option_map Repeated
        (repeat_from (attribute_of attribute.now) (index + 1) (map attribute_of later.now)) }
{
    match repeat_from(attribute, index + 1, later) {
        Some(attribute) => Some(SerializeError::Repeated { attribute }),
        None => None,
    }
}

// What is wrong with an attribute before later ones.
fn refusal_before<A: Allocator>(
    index: usize,
    attribute: &Attribute<A>,
    later: &[Attribute<A>],
) -> Option<SerializeError>
    requires { index + 1 + length later.now < 2 ^ 64 }
    ensures { result ≡ option_or (attribute_refusal index (attribute_of attribute.now))
        (option_map Repeated (repeat_from (attribute_of attribute.now) (index + 1) (map attribute_of later.now))) }
{
    match attribute_refusal(index, attribute) {
        Some(error) => Some(error),
        None => repeat_refusal(index, attribute, later),
    }
}

// What is wrong with the attributes of a tag.
fn attributes_refusal<A: Allocator>(attributes: &[Attribute<A>]) -> Option<SerializeError>
    ensures { result ≡ attributes_refusal 0 (map attribute_of attributes.now) }
{
    for (index, attribute) in attributes.iter().enumerate() {
        match refusal_before(index, attribute, &attributes[index + 1..]) {
            Some(error) => return Some(error),
            None => {}
        }
    }
    None
}

// What is wrong with a tag.
#[tactic(auto, unfolding(crate::specs::Refusals::tag_refusal))]
fn tag_refusal<A: Allocator>(tag: &Tag<A>) -> Option<SerializeError>
    ensures { result ≡ tag_refusal (tag_of tag.now) }
{
    if is_tag_name(&tag.name.0) {
        attributes_refusal(&tag.attrs)
    } else {
        Some(SerializeError::TagName)
    }
}

// Whether a doctype can have this identifier, or none.
fn is_identifier_or_none<A: Allocator>(identifier: &Option<String<A>>) -> bool
    ensures { result ≡ is_identifier_or_none (option_map string_bytes identifier.now) }
{
    match identifier {
        Some(identifier) => is_identifier(identifier),
        None => true,
    }
}

// What is wrong with a doctype of this name.
#[tactic(auto, unfolding(crate::specs::Refusals::named_refusal))]
fn named_refusal<A: Allocator>(doctype: &Doctype<A>, name: &str) -> Option<SerializeError>
    ensures { result ≡ named_refusal (doctype_of doctype.now) name.now }
{
    if !is_doctype_name(name) {
        return Some(SerializeError::DoctypeName);
    }
    if !is_identifier_or_none(&doctype.public_id) {
        return Some(SerializeError::PublicIdentifier);
    }
    if !is_identifier_or_none(&doctype.system_id) {
        return Some(SerializeError::SystemIdentifier);
    }
    None
}

// What is wrong with a doctype.
#[tactic(auto, unfolding(crate::specs::Refusals::doctype_refusal))]
fn doctype_refusal<A: Allocator>(doctype: &Doctype<A>) -> Option<SerializeError>
    ensures { result ≡ doctype_refusal (doctype_of doctype.now) (doctype_of doctype.now).name }
{
    let Some(name) = &doctype.name else {
        if doctype.force_quirks && doctype.public_id.is_none() && doctype.system_id.is_none() {
            return None;
        }
        return Some(SerializeError::NamelessDoctype);
    };
    named_refusal(doctype, name)
}

// What is wrong with the text of a comment.
fn comment_refusal(text: &str) -> Option<SerializeError>
    ensures { result ≡ comment_refusal text.now }
{
    if is_comment_text(text) {
        None
    } else {
        Some(SerializeError::CommentText)
    }
}

// What is wrong with the content of a processing instruction.
fn instruction_refusal(content: &str) -> Option<SerializeError>
    ensures { result ≡ instruction_refusal content.now }
{
    if has_markup_characters(content) {
        None
    } else {
        Some(SerializeError::InstructionContent)
    }
}

/// Why the token can't be written, if it can't: of several reasons the first in the order of the text.
/// An error and the end can be written, and nothing is written of them.
#[tactic(auto, unfolding(crate::specs::Refusals::refusal_of))]
pub fn token_refusal<A: Allocator>(token: &Token<A>) -> Option<SerializeError>
    ensures { result ≡ refusal_of (told_by token.now) }
{
    match token {
        Token::CharacterTokens(text) => match null_in(text) {
            Some(at) => Some(SerializeError::NullInText { at }),
            None => None,
        },
        Token::TagToken(tag) => tag_refusal(tag),
        Token::CommentToken(text) => comment_refusal(text),
        Token::ProcessingInstructionToken(content) => instruction_refusal(content),
        Token::DoctypeToken(doctype) => doctype_refusal(doctype),
        _ => None,
    }
}
