//! Entries of a collector, written as lines.
use html5ever_interface::interface::token::{Doctype, Tag, TagKind, Token};
use markup5ever::interface::Attribute;
use std::alloc::{AllocError, Allocator, Global};

// Appends a character, a control or a quote by its escape.
fn push_escaped(alloc: Global, out: &mut String, c: char) -> Result<(), AllocError> {
    match c {
        '\\' => out.push_str("\\\\"),
        '"' => out.push_str("\\\""),
        '\n' => out.push_str("\\n"),
        '\0'..='\x1f' | '\x7f' => {
            let code = c as u32;
            let digits = format!(in alloc; "{code:x}")?;
            out.push_str("\\u{")?;
            out.push_str(&digits)?;
            out.push('}')
        }
        _ => out.push(c),
    }
}

// Appends a text in quotes.
fn push_quoted(alloc: Global, out: &mut String, text: &str) -> Result<(), AllocError> {
    out.push('"')?;
    for c in text.chars() {
        push_escaped(alloc, out, c)?;
    }
    out.push('"')
}

// Appends a word and the number of a line.
fn push_head(alloc: Global, out: &mut String, word: &str, line: u64) -> Result<(), AllocError> {
    let head = format!(in alloc; "{word} {line}")?;
    out.push_str(&head)
}

// Appends a word, the number of a line, and a text in quotes.
fn push_message(
    alloc: Global,
    out: &mut String,
    word: &str,
    line: u64,
    text: &str,
) -> Result<(), AllocError> {
    push_head(alloc, out, word, line)?;
    out.push(' ')?;
    push_quoted(alloc, out, text)
}

// Appends an attribute after a space.
fn push_attribute<A: Allocator>(
    alloc: Global,
    out: &mut String,
    attribute: &Attribute<A>,
) -> Result<(), AllocError> {
    out.push(' ')?;
    push_quoted(alloc, out, attribute.name.local.0.as_str())?;
    out.push('=')?;
    push_quoted(alloc, out, attribute.value.as_str())
}

// Appends a tag.
fn push_tag<A: Allocator>(
    alloc: Global,
    out: &mut String,
    tag: &Tag<A>,
    line: u64,
) -> Result<(), AllocError> {
    let word = match tag.kind {
        TagKind::StartTag => "start",
        TagKind::EndTag => "end",
    };
    push_message(alloc, out, word, line, tag.name.0.as_str())?;
    for attribute in &tag.attrs {
        push_attribute(alloc, out, attribute)?;
    }
    if tag.self_closing {
        out.push_str(" self-closing")?;
    }
    if tag.had_duplicate_attributes {
        out.push_str(" duplicates")?;
    }
    Ok(())
}

// Appends a part of a DOCTYPE after a space, or a dash if it has none.
fn push_part<A: Allocator>(
    alloc: Global,
    out: &mut String,
    part: &Option<String<A>>,
) -> Result<(), AllocError> {
    out.push(' ')?;
    match part {
        Some(text) => push_quoted(alloc, out, text.as_str()),
        None => out.push('-'),
    }
}

// Appends a DOCTYPE.
fn push_doctype<A: Allocator>(
    alloc: Global,
    out: &mut String,
    doctype: &Doctype<A>,
    line: u64,
) -> Result<(), AllocError> {
    push_head(alloc, out, "doctype", line)?;
    push_part(alloc, out, &doctype.name)?;
    push_part(alloc, out, &doctype.public_id)?;
    push_part(alloc, out, &doctype.system_id)?;
    if doctype.force_quirks {
        out.push_str(" quirks")?;
    }
    Ok(())
}

// Appends a token.
fn push_token<A: Allocator>(
    alloc: Global,
    out: &mut String,
    token: &Token<A>,
    line: u64,
) -> Result<(), AllocError> {
    match token {
        Token::DoctypeToken(doctype) => push_doctype(alloc, out, doctype, line),
        Token::TagToken(tag) => push_tag(alloc, out, tag, line),
        Token::CommentToken(text) => push_message(alloc, out, "comment", line, text.as_str()),
        Token::ProcessingInstructionToken(content) => {
            push_message(alloc, out, "pi", line, content.as_str())
        }
        Token::CharacterTokens(text) => {
            out.push_str("text ")?;
            push_quoted(alloc, out, text.as_str())
        }
        Token::NullCharacterToken => push_head(alloc, out, "null", line),
        Token::EOFToken => push_head(alloc, out, "eof", line),
        Token::ParseError(text) => push_message(alloc, out, "error", line, text.as_str()),
    }
}

/// Appends the entries, a line each.
pub fn push_lines<A: Allocator>(
    alloc: Global,
    out: &mut String,
    entries: &[(Token<A>, u64)],
) -> Result<(), AllocError> {
    for (token, line) in entries {
        push_token(alloc, out, token, *line)?;
        out.push('\n')?;
    }
    Ok(())
}
