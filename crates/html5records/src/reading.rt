//! Reading records back.
ghost use Rattle.std.specs.Prelude.{◌≡◌, ◌==◌, ℕ, ◌<◌, List, ◌++◌, Some, All, length, position, option_map, option_to_list, IfSome};
ghost use Rattle.html5ever_interface.specs.Sink.{Message};
ghost use Rattle.html5ever_interface.specs.Token.{told_by};
ghost use Rattle.html5records.specs.Reading.{read_number, split_off, read_counted, read_text, read_text_record, read_other_record, read_attribute, attributes_in, after_attributes, read_flags, has_flag, read_tag, read_optional, read_doctype, text_token, read_text_token, read_parts, read_record, IsWhole, IsToldWhole, HasPlainNames};
ghost use Rattle.html5records.specs.ReadRecords.{attribute_in, attributes_of, told_in, message_in};
ghost use Rattle.html5records.specs.Records.{text_end, record_of, records_of};

use crate::kinds;
use html5ever_interface::interface::token::{TagKind, Token};
use std::alloc::Allocator;

/// Records tell which tokens they are of, on which lines: the records of other tokens are other bytes. No text has the byte
/// that ends texts, other parts are shorter than 2^64 bytes, and the names of attributes have no prefix and no namespace.
pub fn records_tell_tokens()
    ensures { (M N : List Message) → All IsWhole M → All IsWhole N
        → records_of M ≡ records_of N → M ≡ N }
{}

/// The records of tokens tell them whole: all texts of a token are UTF-8 in memory. Only a prefix or a namespace of an
/// attribute would be left out.
pub fn tokens_are_told_whole<A: Allocator>(_token: &Token<A>)
    ensures { HasPlainNames (told_by _token.now) → IsToldWhole (told_by _token.now) }
{}

/// An attribute in a record. Its name is the local one.
#[derive(Clone, Copy, Debug, PartialEq, Eq)]
pub struct AttributeRecord<'a> {
    pub name: &'a [u8],
    pub value: &'a [u8],
}

/// The attributes in a record, which are read one after the other.
#[derive(Clone, Copy, Debug, PartialEq, Eq)]
pub struct Attributes<'a> {
    /// How many are left.
    pub count: u64,
    /// The bytes that begin with those.
    pub bytes: &'a [u8],
}

/// A tag in a record.
#[derive(Clone, Copy, Debug, PartialEq, Eq)]
pub struct TagRecord<'a> {
    pub kind: TagKind,
    pub name: &'a [u8],
    pub self_closing: bool,
    pub attributes: Attributes<'a>,
    pub had_duplicate_attributes: bool,
}

/// A DOCTYPE in a record. What it lacks is `None`.
#[derive(Clone, Copy, Debug, PartialEq, Eq)]
pub struct DoctypeRecord<'a> {
    pub name: Option<&'a [u8]>,
    pub public_id: Option<&'a [u8]>,
    pub system_id: Option<&'a [u8]>,
    pub force_quirks: bool,
}

/// A token in a record. Texts are the bytes of their UTF-8, where they stand in what was read.
#[derive(Clone, Copy, Debug, PartialEq, Eq)]
pub enum TokenRecord<'a> {
    Doctype(DoctypeRecord<'a>),
    Tag(TagRecord<'a>),
    Comment(&'a [u8]),
    ProcessingInstruction(&'a [u8]),
    Text(&'a [u8]),
    NullCharacter,
    ParseError(&'a [u8]),
    End,
}

/// A record: a token, and the line that was sent with it. The line of a text is 0.
#[derive(Clone, Copy, Debug, PartialEq, Eq)]
pub struct Record<'a> {
    pub line: u64,
    pub token: TokenRecord<'a>,
}

// A number, and the bytes after it.
#[tactic(auto, unfolding(crate::specs::Reading::read_number))]
fn read_number(bytes: &[u8]) -> Option<(u64, &[u8])>
    ensures { option_map (λ read. (read.0, read.1.now)) result ≡ read_number bytes.now }
{
    let (number, rest) = bytes.split_first_chunk::<8>()?;
    Some((u64::from_le_bytes(*number), rest))
}

// This many bytes, and those after them.
#[tactic(auto, unfolding(crate::specs::Reading::split_off))]
fn split_off(count: u64, bytes: &[u8]) -> Option<(&[u8], &[u8])>
    ensures { option_map (λ read. (read.0.now, read.1.now)) result ≡ split_off count bytes.now }
{
    if count > bytes.len() as u64 {
        return None;
    }
    Some(bytes.split_at(count as usize))
}

// A text, and the bytes after it.
#[tactic(auto, unfolding(crate::specs::Reading::read_counted))]
fn read_counted(bytes: &[u8]) -> Option<(&[u8], &[u8])>
    ensures { option_map (λ read. (read.0.now, read.1.now)) result ≡ read_counted bytes.now }
{
    let (count, rest) = read_number(bytes)?;
    split_off(count, rest)
}

// An attribute, and the bytes after it.
#[tactic(auto, unfolding(crate::specs::Reading::read_attribute))]
fn read_attribute(bytes: &[u8]) -> Option<(AttributeRecord<'_>, &[u8])>
    ensures { option_map (λ read. (attribute_in read.0, read.1.now)) result
        ≡ read_attribute bytes.now }
{
    let (name, rest) = read_counted(bytes)?;
    let (value, rest) = read_counted(rest)?;
    Some((AttributeRecord { name, value }, rest))
}

// The bytes after this many attributes.
fn after_attributes(count: u64, bytes: &[u8]) -> Option<&[u8]>
    ensures { option_map (λ rest. rest.now) result ≡ after_attributes count bytes.now }
{
    let mut rest = bytes;
    for _ in 0..count {
        (_, rest) = read_attribute(rest)?;
    }
    Some(rest)
}

// A byte of flags, which is below the limit.
#[tactic(auto, unfolding(crate::specs::Reading::read_flags))]
fn read_flags(limit: u8, bytes: &[u8]) -> Option<(u8, &[u8])>
    ensures { option_map (λ read. (read.0, read.1.now)) result ≡ read_flags limit bytes.now }
{
    match bytes {
        [flags, rest @ ..] if *flags < limit => Some((*flags, rest)),
        _ => None,
    }
}

// Whether the flag of this weight is set.
fn has_flag(flags: u8, weight: u8) -> bool
    requires { 0 < weight }
    ensures { result ≡ has_flag flags weight }
{
    flags / weight % 2 == 1
}

// The parts of a tag.
#[tactic(auto, unfolding(crate::specs::Reading::read_tag))]
fn read_tag(kind: TagKind, bytes: &[u8]) -> Option<(TokenRecord<'_>, &[u8])>
    ensures { option_map (λ read. (told_in read.0, read.1.now)) result ≡ read_tag kind bytes.now }
{
    let (flags, rest) = read_flags(4, bytes)?;
    let (name, rest) = read_counted(rest)?;
    let (count, bytes) = read_number(rest)?;
    let rest = after_attributes(count, bytes)?;
    let tag = TagRecord {
        kind,
        name,
        self_closing: has_flag(flags, kinds::SELF_CLOSING),
        attributes: Attributes { count, bytes },
        had_duplicate_attributes: has_flag(flags, kinds::DUPLICATE_ATTRIBUTES),
    };
    Some((TokenRecord::Tag(tag), rest))
}

// A text, if there is one, and the bytes after it.
#[tactic(auto, unfolding(crate::specs::Reading::read_optional))]
fn read_optional(is_there: bool, bytes: &[u8]) -> Option<(Option<&[u8]>, &[u8])>
    ensures { option_map (λ read. (option_map (λ text. text.now) read.0, read.1.now)) result
        ≡ read_optional is_there bytes.now }
{
    if !is_there {
        return Some((None, bytes));
    }
    let (text, rest) = read_counted(bytes)?;
    Some((Some(text), rest))
}

// The parts of a DOCTYPE.
#[tactic(auto, unfolding(crate::specs::Reading::read_doctype))]
fn read_doctype(bytes: &[u8]) -> Option<(TokenRecord<'_>, &[u8])>
    ensures { option_map (λ read. (told_in read.0, read.1.now)) result ≡ read_doctype bytes.now }
{
    let (flags, rest) = read_flags(16, bytes)?;
    let (name, rest) = read_optional(has_flag(flags, kinds::HAS_NAME), rest)?;
    let (public_id, rest) = read_optional(has_flag(flags, kinds::HAS_PUBLIC_ID), rest)?;
    let (system_id, rest) = read_optional(has_flag(flags, kinds::HAS_SYSTEM_ID), rest)?;
    let doctype = DoctypeRecord {
        name,
        public_id,
        system_id,
        force_quirks: has_flag(flags, kinds::FORCE_QUIRKS),
    };
    Some((TokenRecord::Doctype(doctype), rest))
}

// The token of this kind that has this text and no more.
#[tactic(auto, unfolding(crate::specs::Reading::text_token))]
fn text_token(kind: u8, text: &[u8]) -> Option<TokenRecord<'_>>
    ensures { option_map told_in result ≡ text_token kind text.now }
{
    match kind {
        kinds::COMMENT => Some(TokenRecord::Comment(text)),
        kinds::PROCESSING_INSTRUCTION => Some(TokenRecord::ProcessingInstruction(text)),
        kinds::PARSE_ERROR => Some(TokenRecord::ParseError(text)),
        _ => None,
    }
}

// A token that has a text and no more.
#[tactic(auto, unfolding(crate::specs::Reading::read_text_token))]
fn read_text_token(kind: u8, bytes: &[u8]) -> Option<(TokenRecord<'_>, &[u8])>
    ensures { option_map (λ read. (told_in read.0, read.1.now)) result
        ≡ read_text_token kind bytes.now }
{
    let (text, rest) = read_counted(bytes)?;
    let token = text_token(kind, text)?;
    Some((token, rest))
}

// The parts of a token of this kind.
#[tactic(auto, unfolding(crate::specs::Reading::read_parts))]
fn read_parts(kind: u8, bytes: &[u8]) -> Option<(TokenRecord<'_>, &[u8])>
    ensures { option_map (λ read. (told_in read.0, read.1.now)) result ≡ read_parts kind bytes.now }
{
    match kind {
        kinds::START_TAG => read_tag(TagKind::StartTag, bytes),
        kinds::END_TAG => read_tag(TagKind::EndTag, bytes),
        kinds::DOCTYPE => read_doctype(bytes),
        kinds::NULL_CHARACTER => Some((TokenRecord::NullCharacter, bytes)),
        kinds::END => Some((TokenRecord::End, bytes)),
        _ => read_text_token(kind, bytes),
    }
}

// The place of the byte that ends a text.
fn text_end_in(bytes: &[u8]) -> Option<usize>
    ensures place { result ≡ position (λ b. b == text_end) bytes.now }
    ensures within { IfSome result (λ end. end < length bytes.now) }
{
    bytes.iter().position(|b| *b == kinds::TEXT_END)
}

// A text without a length, and the bytes after its end.
#[tactic(auto, unfolding(crate::specs::Reading::read_text))]
fn read_text(bytes: &[u8]) -> Option<(&[u8], &[u8])>
    ensures { option_map (λ read. (read.0.now, read.1.now)) result ≡ read_text bytes.now }
{
    let end = text_end_in(bytes)?;
    Some((&bytes[..end], &bytes[end + 1..]))
}

// A text's record, after its kind.
#[tactic(auto, unfolding(crate::specs::Reading::read_text_record))]
fn read_text_record(bytes: &[u8]) -> Option<(Record<'_>, &[u8])>
    ensures { option_map (λ read. (message_in read.0, read.1.now)) result
        ≡ read_text_record bytes.now }
{
    let (text, rest) = read_text(bytes)?;
    let record = Record {
        line: 0,
        token: TokenRecord::Text(text),
    };
    Some((record, rest))
}

// The record of another token, after its kind.
#[tactic(auto, unfolding(crate::specs::Reading::read_other_record))]
fn read_other_record(kind: u8, bytes: &[u8]) -> Option<(Record<'_>, &[u8])>
    ensures { option_map (λ read. (message_in read.0, read.1.now)) result
        ≡ read_other_record kind bytes.now }
{
    let (line, rest) = read_number(bytes)?;
    let (token, rest) = read_parts(kind, rest)?;
    Some((Record { line, token }, rest))
}

// A record, and the bytes after it.
#[tactic(auto, unfolding(crate::specs::Reading::read_record))]
fn read_message(bytes: &[u8]) -> Option<(Record<'_>, &[u8])>
    ensures { option_map (λ read. (message_in read.0, read.1.now)) result ≡ read_record bytes.now }
{
    match bytes {
        [kinds::TEXT, rest @ ..] => read_text_record(rest),
        [kind, rest @ ..] => read_other_record(*kind, rest),
        [] => None,
    }
}

/// The record at the front of the bytes, and the bytes after it. It is `None` where they begin with no whole record, as
/// at their end, or where a record is cut. Texts stand where they are: nothing is copied.
pub fn read_record(bytes: &[u8]) -> Option<(Record<'_>, &[u8])>
    ensures back { (m : Message) (rest : List ℕ) → IsWhole m
        → bytes.now ≡ record_of m.token m.line ++ rest
        → option_map {U = Message × List ℕ} (λ read. (message_in read.0, read.1.now)) result
        ≡ Some (m, rest) }
    ensures only { IfSome result
        (λ read. bytes.now ≡ record_of (told_in read.0.token) read.0.line ++ read.1.now) }
    ensures shorter { IfSome result (λ read. length read.1.now < length bytes.now) }
{
    read_message(bytes)
}

// The attributes in order, each as a record tells it.
impl<'a> Iterator for Attributes<'a> {
    ghost use Rattle.std.specs.Iterator.{YieldsFirstBy, item_count};
    ghost use Rattle.html5records.specs.ReadRecords.{attribute_in, attributes_of};

    type Item = AttributeRecord<'a>;

    ghost next_gives = { YieldsFirstBy attribute_in attributes_of };

    ghost remaining = { item_count attributes_of };

    #[tactic(auto, unfolding(crate::specs::Reading::attributes_in))]
    fn next(&mut self) -> Option<AttributeRecord<'a>> {
        let count = self.count.checked_sub(1)?;
        let (attribute, rest) = read_attribute(self.bytes)?;
        self.count = count;
        self.bytes = rest;
        Some(attribute)
    }
}
