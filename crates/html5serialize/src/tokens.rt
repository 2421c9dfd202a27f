//! Tokens as they are written.
ghost use Rattle.std.specs.Prelude.{◌≡◌, ◌++◌, chars, encode_utf8_all, string_bytes, OnOk};
ghost use Rattle.html5ever_interface.specs.Token.{told_by};
ghost use Rattle.html5serialize.specs.Tokens.{comment_text, instruction_text, token_text};

use crate::doctypes::push_doctype;
use crate::escaping::push_text;
use crate::tags::push_tag;
use html5ever_interface::interface::token::Token;
use std::alloc::{AllocError, Allocator};

// Appends a comment.
fn push_comment<A: Allocator>(out: &mut String<A>, text: &str) -> Result<(), AllocError>
    ensures { OnOk result (string_bytes out.new
        ≡ string_bytes out.old ++ encode_utf8_all (comment_text (chars text.now))) }
{
    out.push_str("<!--")?;
    out.push_str(text)?;
    out.push_str("-->")?;
    Ok(())
}

// Appends a processing instruction.
fn push_instruction<A: Allocator>(out: &mut String<A>, content: &str) -> Result<(), AllocError>
    ensures { OnOk result (string_bytes out.new
        ≡ string_bytes out.old ++ encode_utf8_all (instruction_text (chars content.now))) }
{
    out.push_str("<?")?;
    out.push_str(content)?;
    out.push_str(">")?;
    Ok(())
}

/// Appends a token, whether it can be written or not, as it is to be read in Data. Nothing is written of an
/// error and of the end. On Err a part of it may stand there.
#[tactic(auto, unfolding(crate::specs::Tokens::token_text))]
pub fn push_token<A: Allocator>(out: &mut String<A>, token: &Token<A>) -> Result<(), AllocError>
    ensures { OnOk result (string_bytes out.new
        ≡ string_bytes out.old ++ encode_utf8_all (token_text (told_by token.now))) }
{
    match token {
        Token::CharacterTokens(text) => push_text(out, text),
        Token::NullCharacterToken => out.push_str("\0"),
        Token::TagToken(tag) => push_tag(out, tag),
        Token::CommentToken(text) => push_comment(out, text),
        Token::ProcessingInstructionToken(content) => push_instruction(out, content),
        Token::DoctypeToken(doctype) => push_doctype(out, doctype),
        Token::EOFToken | Token::ParseError(_) => Ok(()),
    }
}
