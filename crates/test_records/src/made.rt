//! Tokens, and the bytes of their records, written by hand.
use html5ever_interface::interface::message::ErrorMessage;
use html5ever_interface::interface::token::{Doctype, Tag, TagKind, Token};
use markup5ever::interface::{Attribute, LocalName, Namespace, QualName};
use std::alloc::{AllocError, Allocator};

/// An attribute in no namespace.
fn attribute_of<A: Allocator + Copy>(
    alloc: A,
    name: &str,
    value: &str,
) -> Result<Attribute<A>, AllocError> {
    let ns = Namespace(String::new(alloc));
    let local = LocalName(String::from_str(alloc, name)?);
    let value = String::from_str(alloc, value)?;
    Ok(Attribute {
        name: QualName::new(None, ns, local),
        value,
    })
}

// A start tag with two attributes and both flags.
fn full_tag<A: Allocator + Copy>(alloc: A) -> Result<Token<A>, AllocError> {
    let name = LocalName(String::from_str(alloc, "img")?);
    let mut attrs = Vec::new(alloc);
    attrs.push(attribute_of(alloc, "src", "a.png")?)?;
    attrs.push(attribute_of(alloc, "alt", "")?)?;
    Ok(Token::TagToken(Tag {
        kind: TagKind::StartTag,
        name,
        self_closing: true,
        attrs,
        had_duplicate_attributes: true,
    }))
}

/// A tag with no more than its name.
pub fn bare_tag<A: Allocator + Copy>(
    alloc: A,
    kind: TagKind,
    name: &str,
) -> Result<Token<A>, AllocError> {
    let name = LocalName(String::from_str(alloc, name)?);
    Ok(Token::TagToken(Tag {
        kind,
        name,
        self_closing: false,
        attrs: Vec::new(alloc),
        had_duplicate_attributes: false,
    }))
}

// A DOCTYPE with a name and a system identifier, in quirks mode.
fn doctype_of<A: Allocator + Copy>(alloc: A) -> Result<Token<A>, AllocError> {
    let name = String::from_str(alloc, "html")?;
    let system_id = String::from_str(alloc, "s")?;
    let mut doctype = Doctype::default();
    doctype.name = Some(name);
    doctype.system_id = Some(system_id);
    doctype.force_quirks = true;
    Ok(Token::DoctypeToken(doctype))
}

/// How many tokens `token_at` makes.
pub const TOKENS: usize = 11;

/// One token of each kind, and some more.
pub fn token_at<A: Allocator + Copy>(alloc: A, index: usize) -> Result<Token<A>, AllocError> {
    match index {
        0 => doctype_of(alloc),
        1 => full_tag(alloc),
        2 => bare_tag(alloc, TagKind::EndTag, "p"),
        3 => Ok(Token::CharacterTokens(String::from_str(alloc, "x\u{e9}")?)),
        4 => Ok(Token::CharacterTokens(String::from_str(alloc, "")?)),
        5 => Ok(Token::CommentToken(String::from_str(alloc, "c")?)),
        6 => Ok(Token::ProcessingInstructionToken(String::from_str(alloc, "pi?")?)),
        7 => Ok(Token::NullCharacterToken),
        8 => Ok(Token::ParseError(ErrorMessage::Named(String::from_str(alloc, "bad")?))),
        9 => Ok(Token::DoctypeToken(Doctype::default())),
        _ => Ok(Token::EOFToken),
    }
}

/// The records of those tokens, where the line of the first is 1 and each later line is one more. An empty text has none.
pub const RECORDS: [&[u8]; TOKENS] = [
    b"\x06\x01\0\0\0\0\0\0\0\x0d\x04\0\0\0\0\0\0\0html\x01\0\0\0\0\0\0\0s",
    b"\x01\x02\0\0\0\0\0\0\0\x03\x03\0\0\0\0\0\0\0img\x02\0\0\0\0\0\0\0\x03\0\0\0\0\0\0\0src\x05\0\0\0\0\0\0\0a.png\x03\0\0\0\0\0\0\0alt\0\0\0\0\0\0\0\0",
    b"\x02\x03\0\0\0\0\0\0\0\0\x01\0\0\0\0\0\0\0p\0\0\0\0\0\0\0\0",
    b"\x03x\xc3\xa9\xff",
    b"",
    b"\x04\x06\0\0\0\0\0\0\0\x01\0\0\0\0\0\0\0c",
    b"\x05\x07\0\0\0\0\0\0\0\x03\0\0\0\0\0\0\0pi?",
    b"\x07\x08\0\0\0\0\0\0\0",
    b"\x08\x09\0\0\0\0\0\0\0\x03\0\0\0\0\0\0\0bad",
    b"\x06\x0a\0\0\0\0\0\0\0\0",
    b"\x09\x0b\0\0\0\0\0\0\0",
];
