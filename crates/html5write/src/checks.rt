//! Which pieces can be written.
ghost use Rattle.std.specs.Prelude.{◌≡◌, true, ◌+◌, ◌<◌, ◌^◌, encode_utf8_all, length, map, not, option_map};
ghost use Rattle.std.specs.List.{list_all};
ghost use Rattle.std.specs.Option.{option_or};
ghost use Rattle.std.specs.Str.{chars, bytes_eq};
ghost use Rattle.html5write.specs.SmallWords.{IsNameOfBoth, is_small_letter};
ghost use Rattle.html5write.specs.Pieces.{is_attribute_character, is_attribute_name, is_comment_character, is_comment_text, is_name_character, is_tag_name, has_lone_dashes, can_begin_comment};
ghost use Rattle.html5write.specs.Pieces.Piece.{StartTagPiece};
ghost use Rattle.html5write.specs.Refusals.{attribute_refusal, attributes_refusal, null_from, refusal_of, repeat_from};
ghost use Rattle.html5write.specs.Writing.{attribute_of, piece_of};
ghost use Rattle.html5write.specs.declared.error.WriteError.TheVariants.{Repeated};

use crate::error::WriteError;
use crate::piece::{Attribute, Piece};
use crate::runs::first_null;

// Whether a character can stand in the name of a tag.
#[tactic(auto, unfolding(crate::specs::Pieces::is_name_character, html5reading::specs::Characters::is_white_space))]
fn is_name_character(c: char) -> bool
    ensures { result ≡ is_name_character c }
{
    !matches!(
        c,
        '\t' | '\n' | '\x0C' | ' ' | '/' | '>' | '\0' | '\r' | 'A'..='Z'
    )
}

// Whether a character can stand in the name of an attribute.
#[tactic(auto, unfolding(crate::specs::Pieces::is_attribute_character))]
fn is_attribute_character(c: char) -> bool
    ensures { result ≡ is_attribute_character c }
{
    is_name_character(c) && !matches!(c, '"' | '\'' | '<' | '=')
}

// Whether each character of a text can stand in the name of a tag.
fn has_name_characters(text: &str) -> bool
    ensures { result ≡ list_all is_name_character (chars text.now) }
{
    text.chars().all(is_name_character)
}

// Whether each character of a text can stand in the name of an attribute.
fn has_attribute_characters(text: &str) -> bool
    ensures { result ≡ list_all is_attribute_character (chars text.now) }
{
    text.chars().all(is_attribute_character)
}

// Whether a byte is a small ASCII letter.
#[inline(always)]
fn is_small_letter(byte: u8) -> bool
    ensures { result ≡ is_small_letter byte }
{
    byte.is_ascii_lowercase()
}

// Whether each byte of a text is one.
#[inline(always)]
fn has_small_letters(text: &str) -> bool
    ensures { result ≡ list_all is_small_letter text.now }
{
    text.bytes().all(is_small_letter)
}

// Whether a text has small letters alone, as most names have: then it is the name of a tag, and of an attribute.
#[inline(always)]
fn is_small_word(text: &str) -> bool
    ensures { result ≡ true → IsNameOfBoth text.now }
{
    !text.is_empty() && has_small_letters(text)
}

// Whether a text can be the name of a tag, character by character.
fn is_any_tag_name(name: &str) -> bool
    ensures { result ≡ is_tag_name (chars name.now) }
{
    let mut characters = name.chars();
    match characters.next() {
        Some(first) => first.is_ascii_lowercase() && has_name_characters(characters.as_str()),
        None => false,
    }
}

/// Whether a text can be the name of a tag: another would not be read as itself.
pub fn is_tag_name(name: &str) -> bool
    ensures { result ≡ is_tag_name (chars name.now) }
{
    is_small_word(name) || is_any_tag_name(name)
}

// Whether a text can be the name of an attribute, character by character.
fn is_any_attribute_name(name: &str) -> bool
    ensures { result ≡ is_attribute_name (chars name.now) }
{
    let mut characters = name.chars();
    match characters.next() {
        Some(first) => {
            is_attribute_character(first) && has_attribute_characters(characters.as_str())
        }
        None => false,
    }
}

/// Whether a text can be the name of an attribute: another would not be read as itself.
pub fn is_attribute_name(name: &str) -> bool
    ensures { result ≡ is_attribute_name (chars name.now) }
{
    is_small_word(name) || is_any_attribute_name(name)
}

// The byte at which the first NUL of a text stands.
fn null_in(text: &str) -> Option<usize>
    ensures { result ≡ null_from 0 (chars text.now) }
{
    let at = first_null(text.as_bytes());
    if at < text.len() { Some(at) } else { None }
}

// Whether the text of a comment can begin so.
fn can_begin_comment(text: &str) -> bool
    ensures { result ≡ can_begin_comment (chars text.now) }
{
    match text.chars().next() {
        Some(first) => first != '>' && first != '-',
        None => true,
    }
}

// Whether no two dashes stand together, and none at the end.
fn has_lone_dashes(text: &str) -> bool
    ensures { result ≡ has_lone_dashes (chars text.now) }
{
    let mut after_dash = false;
    for c in text.chars() {
        if after_dash && c == '-' {
            return false;
        }
        after_dash = c == '-';
    }
    !after_dash
}

// Whether a character can stand in a comment.
fn is_comment_character(c: char) -> bool
    ensures { result ≡ is_comment_character c }
{
    !matches!(c, '\0' | '\r')
}

// Whether each character of a text can stand in a comment.
fn has_comment_characters(text: &str) -> bool
    ensures { result ≡ list_all is_comment_character (chars text.now) }
{
    text.chars().all(is_comment_character)
}

// Whether a text can be that of a comment.
fn is_comment_text(text: &str) -> bool
    ensures { result ≡ is_comment_text (chars text.now) }
{
    has_comment_characters(text) && can_begin_comment(text) && has_lone_dashes(text)
}

// Whether two names are sent as different ones.
fn are_different(name: &str, other: &str) -> bool
    ensures { result ≡ not (bytes_eq (encode_utf8_all (chars name.now)) (encode_utf8_all (chars other.now))) }
{
    name != other
}

// The first of later attributes that has the name of this one, where they are counted from `index`.
fn repeat_from(attribute: &Attribute<'_>, index: usize, later: &[Attribute<'_>]) -> Option<usize>
    requires { index + length later.now < 2 ^ 64 }
    ensures { result ≡ repeat_from (attribute_of attribute.now) index (map attribute_of later.now) }
{
    for (k, other) in later.iter().enumerate() {
        if !are_different(attribute.name, other.name) {
            return Some(index + k);
        }
    }
    None
}

// What is wrong with an attribute by itself.
fn attribute_refusal(index: usize, attribute: &Attribute<'_>) -> Option<WriteError>
    ensures { result ≡ attribute_refusal index (attribute_of attribute.now) }
{
    if !is_attribute_name(attribute.name) {
        return Some(WriteError::AttributeName { attribute: index });
    }
    match null_in(attribute.value) {
        Some(at) => Some(WriteError::NullInValue {
            attribute: index,
            at,
        }),
        None => None,
    }
}

// The first of later attributes that repeats the name of this one.
fn repeat_refusal(
    index: usize,
    attribute: &Attribute<'_>,
    later: &[Attribute<'_>],
) -> Option<WriteError>
    requires { index + 1 + length later.now < 2 ^ 64 }
    ensures { result ≡ option_map Repeated
        (repeat_from (attribute_of attribute.now) (index + 1) (map attribute_of later.now)) }
{
    match repeat_from(attribute, index + 1, later) {
        Some(attribute) => Some(WriteError::Repeated { attribute }),
        None => None,
    }
}

// What is wrong with an attribute before later ones.
fn refusal_before(
    index: usize,
    attribute: &Attribute<'_>,
    later: &[Attribute<'_>],
) -> Option<WriteError>
    requires { index + 1 + length later.now < 2 ^ 64 }
    ensures { result ≡ option_or (attribute_refusal index (attribute_of attribute.now))
        (option_map Repeated (repeat_from (attribute_of attribute.now) (index + 1) (map attribute_of later.now))) }
{
    match attribute_refusal(index, attribute) {
        Some(error) => Some(error),
        None => repeat_refusal(index, attribute, later),
    }
}

// What is wrong with the attributes of a tag.
fn attributes_refusal(attributes: &[Attribute<'_>]) -> Option<WriteError>
    ensures { result ≡ attributes_refusal 0 (map attribute_of attributes.now) }
{
    for (index, attribute) in attributes.iter().enumerate() {
        match refusal_before(index, attribute, &attributes[index + 1..]) {
            Some(error) => return Some(error),
            None => {}
        }
    }
    None
}

// What is wrong with a start tag.
#[inline(always)]
#[tactic(auto, unfolding(crate::specs::Refusals::refusal_of))]
fn start_tag_refusal(name: &str, attributes: &[Attribute<'_>]) -> Option<WriteError>
    ensures { result ≡ refusal_of (StartTagPiece (chars name.now) (map attribute_of attributes.now)) }
{
    if is_tag_name(name) {
        attributes_refusal(attributes)
    } else {
        Some(WriteError::TagName)
    }
}

/// Why the piece can't be written, if it can't: of several reasons the first in the order of the text.
#[inline(always)]
#[tactic(auto, unfolding(crate::specs::Refusals::refusal_of))]
pub fn refusal_of(piece: &Piece<'_>) -> Option<WriteError>
    ensures { result ≡ refusal_of (piece_of piece.now) }
{
    match piece {
        Piece::Text(text) => match null_in(text) {
            Some(at) => Some(WriteError::NullInText { at }),
            None => None,
        },
        Piece::StartTag { name, attributes } => start_tag_refusal(name, attributes),
        Piece::EndTag(name) => {
            if is_tag_name(name) {
                None
            } else {
                Some(WriteError::TagName)
            }
        }
        Piece::Comment(text) => {
            if is_comment_text(text) {
                None
            } else {
                Some(WriteError::CommentText)
            }
        }
    }
}
