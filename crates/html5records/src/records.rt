//! Writing records.
ghost use Rattle.std.specs.Prelude.{◌≡◌, ◌+◌, ◌++◌, false, ◌∷◌, [], length, map, option_map, is_some, string_bytes, OnOk, OnErr};
ghost use Rattle.std.specs.List.{flat_map};
ghost use Rattle.html5records.specs.Records.{number, counted, flag, attribute_record, attribute_records, optional, tag_flags, tag_code, doctype_flags, doctype_parts, heading, record_of};
ghost use Rattle.markup5ever.specs.Lists.{BeginsWith};
ghost use Rattle.html5records.specs.Recording.{text_closing, added_by_text, added_by, open_after};
ghost use Rattle.html5ever_interface.specs.Token.{Told, told_by, tag_of, doctype_of, is_text, is_tag};
ghost use Rattle.html5ever_interface.specs.Token.Told.{Text};
ghost use Rattle.markup5ever.specs.Names.{attribute_of};

use crate::kinds;
use html5ever_interface::interface::token::{Doctype, Tag, TagKind, Token};
use markup5ever::interface::Attribute;
use std::alloc::{AllocError, Allocator};

/// Appends a number.
#[tactic(auto, unfolding(crate::specs::Records::number))]
pub fn push_number<A: Allocator>(written: &mut Vec<u8, A>, value: u64) -> Result<(), AllocError>
    ensures ok { OnOk result (written.new.items ≡ written.old.items ++ number value) }
    ensures err { OnErr result (BeginsWith written.new.items written.old.items) }
{
    written.extend_from_slice(&value.to_le_bytes())
}

// Appends bytes that are many, or for which there may be no room yet. It stands apart, so that what most names go through
// stays small.
#[inline(never)]
fn push_long<A: Allocator>(written: &mut Vec<u8, A>, bytes: &[u8]) -> Result<(), AllocError>
    ensures ok { OnOk result (written.new.items ≡ written.old.items ++ bytes.now) }
    ensures err { OnErr result (BeginsWith written.new.items written.old.items) }
{
    written.extend_from_slice(bytes)
}

// Appends this many bytes. Where the compiler knows how many, it stores them.
#[inline(always)]
fn push_short<A: Allocator>(
    written: &mut Vec<u8, A>,
    bytes: &[u8],
    len: usize,
) -> Result<(), AllocError>
    requires { length bytes.now ≡ len }
    ensures ok { OnOk result (written.new.items ≡ written.old.items ++ bytes.now) }
    ensures err { OnErr result (BeginsWith written.new.items written.old.items) }
{
    if written.capacity() - written.len() < len {
        return push_long(written, bytes);
    }
    written.extend_from_slice(&bytes[..len])
}

// Appends bytes. Up to eight, as most names have, are stored at once, without a call that copies bytes.
#[inline(never)]
fn push_bytes<A: Allocator>(written: &mut Vec<u8, A>, bytes: &[u8]) -> Result<(), AllocError>
    ensures ok { OnOk result (written.new.items ≡ written.old.items ++ bytes.now) }
    ensures err { OnErr result (BeginsWith written.new.items written.old.items) }
{
    match bytes.len() {
        1 => push_short(written, bytes, 1),
        2 => push_short(written, bytes, 2),
        3 => push_short(written, bytes, 3),
        4 => push_short(written, bytes, 4),
        5 => push_short(written, bytes, 5),
        6 => push_short(written, bytes, 6),
        7 => push_short(written, bytes, 7),
        8 => push_short(written, bytes, 8),
        _ => push_long(written, bytes),
    }
}

// Appends a text with its length.
#[tactic(auto, unfolding(crate::specs::Records::counted))]
fn push_counted<A: Allocator>(written: &mut Vec<u8, A>, text: &[u8]) -> Result<(), AllocError>
    ensures ok { OnOk result (written.new.items ≡ written.old.items ++ counted text.now) }
    ensures err { OnErr result (BeginsWith written.new.items written.old.items) }
{
    push_number(written, text.len() as u64)?;
    push_bytes(written, text)
}

#[tactic(auto, unfolding(crate::specs::Records::attribute_record))]
fn push_attribute<A: Allocator>(
    written: &mut Vec<u8, A>,
    attribute: &Attribute<A>,
) -> Result<(), AllocError>
    ensures ok { OnOk result
        (written.new.items ≡ written.old.items ++ attribute_record (attribute_of attribute.now)) }
    ensures err { OnErr result (BeginsWith written.new.items written.old.items) }
{
    push_counted(written, attribute.name.local.0.as_bytes())?;
    push_counted(written, attribute.value.as_bytes())
}

// The flag, if it is set.
fn flag_where(is_set: bool, weight: u8) -> u8
    ensures { result ≡ flag is_set weight }
{
    if is_set { weight } else { 0 }
}

// Appends the kind of a record and its line.
#[tactic(auto, unfolding(crate::specs::Records::heading))]
fn push_heading<A: Allocator>(
    written: &mut Vec<u8, A>,
    kind: u8,
    line: u64,
) -> Result<(), AllocError>
    ensures ok { OnOk result (written.new.items ≡ written.old.items ++ heading kind line) }
    ensures err { OnErr result (BeginsWith written.new.items written.old.items) }
{
    written.push(kind)?;
    push_number(written, line)
}

// Appends attributes, one after the other.
fn push_each_attribute<A: Allocator>(
    written: &mut Vec<u8, A>,
    attributes: &[Attribute<A>],
) -> Result<(), AllocError>
    ensures ok { OnOk result
        (written.new.items ≡ written.old.items
        ++ flat_map attribute_record (map attribute_of attributes.now)) }
    ensures err { OnErr result (BeginsWith written.new.items written.old.items) }
{
    for attribute in attributes {
        push_attribute(written, attribute)?;
    }
    Ok(())
}

// Appends attributes with their number.
#[tactic(auto, unfolding(crate::specs::Records::attribute_records))]
fn push_attributes<A: Allocator>(
    written: &mut Vec<u8, A>,
    attributes: &[Attribute<A>],
) -> Result<(), AllocError>
    ensures ok { OnOk result
        (written.new.items ≡ written.old.items ++ attribute_records (map attribute_of attributes.now)) }
    ensures err { OnErr result (BeginsWith written.new.items written.old.items) }
{
    push_number(written, attributes.len() as u64)?;
    push_each_attribute(written, attributes)
}

// The flags of a tag.
fn tag_flags<A: Allocator>(tag: &Tag<A>) -> u8
    ensures { result ≡ tag_flags (tag_of tag.now) }
{
    flag_where(tag.self_closing, kinds::SELF_CLOSING)
        + flag_where(tag.had_duplicate_attributes, kinds::DUPLICATE_ATTRIBUTES)
}

// The kind of a tag's record.
fn tag_kind(kind: TagKind) -> u8
    ensures { result ≡ tag_code kind }
{
    match kind {
        TagKind::StartTag => kinds::START_TAG,
        TagKind::EndTag => kinds::END_TAG,
    }
}

// What the record of a tag begins with: its kind, its line, its flags, and the length of its name.
#[tactic(auto, unfolding(crate::specs::Records::heading, crate::specs::Records::number))]
fn tag_beginning(kind: u8, line: u64, flags: u8, name_len: u64) -> [u8; 18]
    ensures { result ≡ heading kind line ++ flags ∷ number name_len }
{
    let line = line.to_le_bytes();
    let len = name_len.to_le_bytes();
    [
        kind, line[0], line[1], line[2], line[3], line[4], line[5], line[6], line[7], flags,
        len[0], len[1], len[2], len[3], len[4], len[5], len[6], len[7],
    ]
}

// Appends the record of a tag. It is inlined wherever it is called, since a page has more tags than other tokens.
#[inline(always)]
fn push_tag_record<A: Allocator>(
    written: &mut Vec<u8, A>,
    tag: &Tag<A>,
    line: u64,
) -> Result<(), AllocError>
    ensures ok { OnOk result
        (written.new.items ≡ written.old.items ++ record_of (Told.Tag (tag_of tag.now)) line) }
    ensures err { OnErr result (BeginsWith written.new.items written.old.items) }
{
    let name = tag.name.0.as_bytes();
    let len = name.len() as u64;
    let beginning = tag_beginning(tag_kind(tag.kind), line, tag_flags(tag), len);
    written.extend_from_slice(&beginning)?;
    push_bytes(written, name)?;
    push_attributes(written, &tag.attrs)
}

// The flags of a DOCTYPE.
fn doctype_flags<A: Allocator>(doctype: &Doctype<A>) -> u8
    ensures { result ≡ doctype_flags (doctype_of doctype.now) }
{
    flag_where(doctype.name.is_some(), kinds::HAS_NAME)
        + flag_where(doctype.public_id.is_some(), kinds::HAS_PUBLIC_ID)
        + flag_where(doctype.system_id.is_some(), kinds::HAS_SYSTEM_ID)
        + flag_where(doctype.force_quirks, kinds::FORCE_QUIRKS)
}

// Appends a text that may be missing.
#[tactic(auto, unfolding(crate::specs::Records::optional))]
fn push_optional<A: Allocator>(
    written: &mut Vec<u8, A>,
    text: &Option<String<A>>,
) -> Result<(), AllocError>
    ensures ok { OnOk result
        (written.new.items ≡ written.old.items ++ optional (option_map string_bytes text.now)) }
    ensures err { OnErr result (BeginsWith written.new.items written.old.items) }
{
    match text {
        None => Ok(()),
        Some(text) => push_counted(written, text.as_bytes()),
    }
}

// Appends what comes after the line of a DOCTYPE.
#[tactic(auto, unfolding(crate::specs::Records::doctype_parts))]
fn push_doctype_parts<A: Allocator>(
    written: &mut Vec<u8, A>,
    doctype: &Doctype<A>,
) -> Result<(), AllocError>
    ensures ok { OnOk result
        (written.new.items ≡ written.old.items ++ doctype_parts (doctype_of doctype.now)) }
    ensures err { OnErr result (BeginsWith written.new.items written.old.items) }
{
    written.push(doctype_flags(doctype))?;
    push_optional(written, &doctype.name)?;
    push_optional(written, &doctype.public_id)?;
    push_optional(written, &doctype.system_id)
}

// Appends the record of a DOCTYPE.
fn push_doctype<A: Allocator>(
    written: &mut Vec<u8, A>,
    kind: u8,
    line: u64,
    doctype: &Doctype<A>,
) -> Result<(), AllocError>
    ensures ok { OnOk result
        (written.new.items ≡ written.old.items ++ (heading kind line ++ doctype_parts (doctype_of doctype.now))) }
    ensures err { OnErr result (BeginsWith written.new.items written.old.items) }
{
    push_heading(written, kind, line)?;
    push_doctype_parts(written, doctype)
}

// Appends the record of a token that has a text alone.
fn push_headed<A: Allocator>(
    written: &mut Vec<u8, A>,
    kind: u8,
    line: u64,
    text: &[u8],
) -> Result<(), AllocError>
    ensures ok { OnOk result
        (written.new.items ≡ written.old.items ++ (heading kind line ++ counted text.now)) }
    ensures err { OnErr result (BeginsWith written.new.items written.old.items) }
{
    push_heading(written, kind, line)?;
    push_counted(written, text)
}

// Appends the record of a token that is neither a text nor a tag.
#[tactic(auto, unfolding(crate::specs::Records::record_of, crate::specs::Records::heading_of, crate::specs::Records::parts))]
fn push_other_record<A: Allocator>(
    written: &mut Vec<u8, A>,
    token: &Token<A>,
    line: u64,
) -> Result<(), AllocError>
    requires no_text { is_text (told_by token.now) ≡ false }
    requires no_tag { is_tag (told_by token.now) ≡ false }
    ensures ok { OnOk result
        (written.new.items ≡ written.old.items ++ record_of (told_by token.now) line) }
    ensures err { OnErr result (BeginsWith written.new.items written.old.items) }
{
    match token {
        Token::TagToken(_) => unreachable!(),
        Token::DoctypeToken(doctype) => push_doctype(written, kinds::DOCTYPE, line, doctype),
        Token::CommentToken(text) => push_headed(written, kinds::COMMENT, line, text.as_bytes()),
        Token::ProcessingInstructionToken(content) => {
            let kind = kinds::PROCESSING_INSTRUCTION;
            push_headed(written, kind, line, content.as_bytes())
        }
        Token::CharacterTokens(_) => unreachable!(),
        Token::NullCharacterToken => push_heading(written, kinds::NULL_CHARACTER, line),
        Token::EOFToken => push_heading(written, kinds::END, line),
        Token::ParseError(message) => {
            push_headed(written, kinds::PARSE_ERROR, line, message.as_bytes())
        }
    }
}

/// Appends the record of a token other than a text.
pub fn push_record<A: Allocator>(
    written: &mut Vec<u8, A>,
    token: &Token<A>,
    line: u64,
) -> Result<(), AllocError>
    requires { is_text (told_by token.now) ≡ false }
    ensures ok { OnOk result
        (written.new.items ≡ written.old.items ++ record_of (told_by token.now) line) }
    ensures err { OnErr result (BeginsWith written.new.items written.old.items) }
{
    match token {
        Token::TagToken(tag) => push_tag_record(written, tag, line),
        _ => push_other_record(written, token, line),
    }
}

/// Appends a text, or a piece of it. An empty one opens no record.
#[tactic(auto, unfolding(crate::specs::Recording::added_by_text))]
pub fn push_text<A: Allocator>(
    written: &mut Vec<u8, A>,
    in_text: bool,
    text: &[u8],
) -> Result<(), AllocError>
    ensures ok { OnOk result (written.new.items ≡ written.old.items ++ added_by_text in_text text.now) }
    ensures err { OnErr result (BeginsWith written.new.items written.old.items) }
{
    if text.is_empty() {
        return Ok(());
    }
    if !in_text {
        written.push(kinds::TEXT)?;
    }
    push_bytes(written, text)
}

// Ends an open text.
fn push_text_end<A: Allocator>(written: &mut Vec<u8, A>, in_text: bool) -> Result<(), AllocError>
    ensures ok { OnOk result (written.new.items ≡ written.old.items ++ text_closing in_text) }
    ensures err { OnErr result (BeginsWith written.new.items written.old.items) }
{
    if in_text {
        written.push(kinds::TEXT_END)?;
    }
    Ok(())
}

// Ends an open text, and appends the record of a tag.
#[tactic(auto, unfolding(crate::specs::Recording::added_by))]
fn push_tag<A: Allocator>(
    written: &mut Vec<u8, A>,
    in_text: bool,
    tag: &Tag<A>,
    line: u64,
) -> Result<(), AllocError>
    ensures ok { OnOk result
        (written.new.items ≡ written.old.items ++ added_by in_text (Told.Tag (tag_of tag.now)) line) }
    ensures err { OnErr result (BeginsWith written.new.items written.old.items) }
{
    push_text_end(written, in_text)?;
    push_tag_record(written, tag, line)
}

// Ends an open text, and appends the record of a token that is neither a text nor a tag.
#[tactic(auto, unfolding(crate::specs::Recording::added_by))]
fn push_other<A: Allocator>(
    written: &mut Vec<u8, A>,
    in_text: bool,
    token: &Token<A>,
    line: u64,
) -> Result<(), AllocError>
    requires no_text { is_text (told_by token.now) ≡ false }
    requires no_tag { is_tag (told_by token.now) ≡ false }
    ensures ok { OnOk result
        (written.new.items ≡ written.old.items ++ added_by in_text (told_by token.now) line) }
    ensures err { OnErr result (BeginsWith written.new.items written.old.items) }
{
    push_text_end(written, in_text)?;
    push_other_record(written, token, line)
}

/// Appends what a token adds, where `in_text` says whether a text is open.
#[tactic(auto, unfolding(crate::specs::Recording::added_by))]
pub fn push_token<A: Allocator>(
    written: &mut Vec<u8, A>,
    in_text: bool,
    token: &Token<A>,
    line: u64,
) -> Result<(), AllocError>
    ensures ok { OnOk result
        (written.new.items ≡ written.old.items ++ added_by in_text (told_by token.now) line) }
    ensures err { OnErr result (BeginsWith written.new.items written.old.items) }
{
    match token {
        Token::TagToken(tag) => push_tag(written, in_text, tag, line),
        Token::CharacterTokens(text) => push_text(written, in_text, text.as_bytes()),
        _ => push_other(written, in_text, token, line),
    }
}

/// Whether a text is open after a text.
#[tactic(auto, unfolding(crate::specs::Recording::open_after))]
pub fn is_open_after_text(in_text: bool, text: &[u8]) -> bool
    ensures { result ≡ open_after in_text (Text text.now) }
{
    in_text || !text.is_empty()
}

/// Whether a text is open after a token.
#[tactic(auto, unfolding(crate::specs::Recording::open_after))]
pub fn is_open_after<A: Allocator>(in_text: bool, token: &Token<A>) -> bool
    ensures { result ≡ open_after in_text (told_by token.now) }
{
    match token {
        Token::CharacterTokens(text) => is_open_after_text(in_text, text.as_bytes()),
        _ => false,
    }
}
