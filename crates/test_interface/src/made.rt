//! Tokens, and a sink that is sent one.
use html5ever_interface::interface::message::ErrorMessage;
use html5ever_interface::interface::sink::TokenSink;
use html5ever_interface::interface::token::{Doctype, Tag, TagKind, Token, TokenSinkResult};
use markup5ever::interface::{Attribute, LocalName, Namespace, Prefix, QualName};
use std::alloc::{AllocError, Allocator};

/// Whether the sink took a token, and answered to keep on.
pub fn told<A: Allocator + Copy, S: TokenSink<Token<A>>>(
    sink: &mut S,
    token: Token<A>,
    line: u64,
) -> bool {
    matches!(
        sink.process_token(token, line),
        Ok(TokenSinkResult::Continue)
    )
}

/// A text.
pub fn text_of<A: Allocator>(alloc: A, text: &str) -> Result<Token<A>, AllocError> {
    Ok(Token::CharacterTokens(String::from_str(alloc, text)?))
}

/// An attribute in no namespace.
pub fn attribute_of<A: Allocator + Copy>(
    alloc: A,
    prefix: Option<&str>,
    name: &str,
    value: &str,
) -> Result<Attribute<A>, AllocError> {
    let prefix = match prefix {
        Some(prefix) => Some(Prefix(String::from_str(alloc, prefix)?)),
        None => None,
    };
    let ns = Namespace(String::new(alloc));
    let local = LocalName(String::from_str(alloc, name)?);
    let value = String::from_str(alloc, value)?;
    Ok(Attribute {
        name: QualName::new(prefix, ns, local),
        value,
    })
}

/// A tag with no more than its name.
pub fn bare_tag<A: Allocator + Copy>(
    alloc: A,
    kind: TagKind,
    name: &str,
) -> Result<Tag<A>, AllocError> {
    let name = LocalName(String::from_str(alloc, name)?);
    Ok(Tag {
        kind,
        name,
        self_closing: false,
        attrs: Vec::new(alloc),
        had_duplicate_attributes: false,
    })
}

/// The token of a tag with no more than its name.
pub fn tag_of<A: Allocator + Copy>(
    alloc: A,
    kind: TagKind,
    name: &str,
) -> Result<Token<A>, AllocError> {
    Ok(Token::TagToken(bare_tag(alloc, kind, name)?))
}

/// A token of that kind, with that text: a name, a value, a message or a public identifier.
pub fn token_of<A: Allocator + Copy>(
    alloc: A,
    kind: &str,
    text: &str,
) -> Result<Token<A>, AllocError> {
    match kind {
        "text" => text_of(alloc, text),
        "error" => Ok(Token::ParseError(ErrorMessage::Named(String::from_str(alloc, text)?))),
        "comment" => Ok(Token::CommentToken(String::from_str(alloc, text)?)),
        "pi" => Ok(Token::ProcessingInstructionToken(String::from_str(alloc, text)?)),
        "start" => tag_of(alloc, TagKind::StartTag, text),
        "end tag" => tag_of(alloc, TagKind::EndTag, text),
        "meta" => meta_of(alloc, text),
        "doctype" => doctype_of(alloc, text),
        "null" => Ok(Token::NullCharacterToken),
        _ => Ok(Token::EOFToken),
    }
}

/// Tokens of these kinds, with these texts.
pub fn tokens_of<A: Allocator + Copy>(
    alloc: A,
    listed: &[(&str, &str)],
) -> Result<Vec<Token<A>, A>, AllocError> {
    let mut tokens = Vec::new(alloc);
    for (kind, text) in listed {
        let token = token_of(alloc, kind, text)?;
        tokens.push(token)?;
    }
    Ok(tokens)
}

// A DOCTYPE with no more than a public identifier.
fn doctype_of<A: Allocator>(alloc: A, id: &str) -> Result<Token<A>, AllocError> {
    let id = String::from_str(alloc, id)?;
    let mut doctype = Doctype::default();
    doctype.public_id = Some(id);
    Ok(Token::DoctypeToken(doctype))
}

// A start tag that names the encoding.
fn meta_of<A: Allocator + Copy>(alloc: A, encoding: &str) -> Result<Token<A>, AllocError> {
    let charset = attribute_of(alloc, None, "charset", encoding)?;
    let mut tag = bare_tag(alloc, TagKind::StartTag, "meta")?;
    tag.attrs.push(charset)?;
    Ok(Token::TagToken(tag))
}

/// What the sink answers to the foreign question.
pub fn says_foreign<A: Allocator, S: TokenSink<Token<A>>>(sink: &S) -> bool {
    sink.adjusted_current_node_present_but_not_in_html_namespace()
}
