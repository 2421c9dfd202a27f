//! What each token adds to an output.
ghost use Rattle.std.specs.Prelude.{◌≡◌, [], ◌++◌, string_bytes, OnOk, OnErr, decimal, codes};
ghost use Rattle.token_printer.specs.Output.{text_closing, added_by_text, added_by, open_after};
ghost use Rattle.markup5ever.specs.Lists.{BeginsWith};
ghost use Rattle.token_printer.specs.Printed.{quoted_bytes, kind_word, line_with_number, line_with_text, tag_line, pause_line, doctype_line};
ghost use Rattle.html5sinks.specs.Pausing.{pausing_reply};
ghost use Rattle.html5ever_interface.specs.Token.{told_by, tag_of, doctype_of, reply_of};
ghost use Rattle.html5ever_interface.specs.Token.Told.{Text};

use crate::printed::{
    push_attributes, push_mark, push_option, push_pause, push_quoted_bytes, push_tag_end,
};
use html5ever_interface::interface::token::{Doctype, Tag, TagKind, Token, TokenSinkResult};
use itoa::{Buffer, write_digits};
use std::alloc::{AllocError, Allocator};

/// Appends a text. An empty one opens no line.
#[inline(always)]
#[tactic(auto, unfolding(crate::specs::Output::added_by_text))]
pub fn push_text<A: Allocator>(
    output: &mut Vec<u8, A>,
    in_text: bool,
    text: &[u8],
) -> Result<(), AllocError>
    ensures ok { OnOk result (output.new.items ≡ output.old.items ++ added_by_text in_text text.now) }
    ensures err { OnErr result (BeginsWith output.new.items output.old.items) }
{
    if text.is_empty() {
        return Ok(());
    }
    if !in_text {
        output.extend_from_slice(b"text \"")?;
    }
    push_quoted_bytes(output, text)
}

// Closes an open text, and begins a line with its word. `closing_word` is the word after the end of a text.
#[inline(always)]
fn push_word<A: Allocator>(
    output: &mut Vec<u8, A>,
    in_text: bool,
    word: &str,
    closing_word: &str,
) -> Result<(), AllocError>
    requires { closing_word.now ≡ codes "\"\n" ++ word.now }
    ensures ok { OnOk result (output.new.items ≡ output.old.items ++ (text_closing in_text ++ word.now)) }
    ensures err { OnErr result (BeginsWith output.new.items output.old.items) }
{
    if in_text {
        return output.extend_from_slice(closing_word.as_bytes());
    }
    output.extend_from_slice(word.as_bytes())
}

// Begins the line of a tag.
#[inline(always)]
fn push_kind<A: Allocator>(
    output: &mut Vec<u8, A>,
    in_text: bool,
    kind: TagKind,
) -> Result<(), AllocError>
    ensures ok { OnOk result (output.new.items ≡ output.old.items ++ (text_closing in_text ++ kind_word kind)) }
    ensures err { OnErr result (BeginsWith output.new.items output.old.items) }
{
    match kind {
        TagKind::StartTag => push_word(output, in_text, "start ", "\"\nstart "),
        TagKind::EndTag => push_word(output, in_text, "end ", "\"\nend "),
    }
}

// Appends the number of a line.
fn push_number<A: Allocator>(output: &mut Vec<u8, A>, line: u64) -> Result<(), AllocError>
    ensures ok { OnOk result (output.new.items ≡ output.old.items ++ decimal line) }
    ensures err { OnErr result (BeginsWith output.new.items output.old.items) }
{
    let mut number = Buffer::new();
    output.extend_from_slice(number.format(line).as_bytes())
}

// The most digits that the number of a line has.
const MOST_DIGITS: usize = 20;

// Appends the number of a line, and the end of that line.
fn push_number_and_end<A: Allocator>(output: &mut Vec<u8, A>, line: u64) -> Result<(), AllocError>
    ensures ok { OnOk result (output.new.items ≡ output.old.items ++ (decimal line ++ codes "\n")) }
    ensures err { OnErr result (BeginsWith output.new.items output.old.items) }
{
    let mut bytes = *b"                    \n";
    let start = write_digits(line, &mut bytes, MOST_DIGITS);
    output.extend_from_slice(&bytes[start..])
}

// Appends the number of a line, and opens a quote.
#[inline(always)]
fn push_number_and_quote<A: Allocator>(output: &mut Vec<u8, A>, line: u64) -> Result<(), AllocError>
    ensures ok { OnOk result (output.new.items ≡ output.old.items ++ (decimal line ++ codes " \"")) }
    ensures err { OnErr result (BeginsWith output.new.items output.old.items) }
{
    let mut bytes = *b"                     \"";
    let start = write_digits(line, &mut bytes, MOST_DIGITS);
    output.extend_from_slice(&bytes[start..])
}

// Appends the number of a line and a text, whose quote stays open.
#[inline(always)]
fn push_open_text<A: Allocator>(
    output: &mut Vec<u8, A>,
    line: u64,
    text: &[u8],
) -> Result<(), AllocError>
    ensures ok { OnOk result
        (output.new.items ≡ output.old.items ++ (decimal line ++ (codes " \"" ++ quoted_bytes text.now))) }
    ensures err { OnErr result (BeginsWith output.new.items output.old.items) }
{
    push_number_and_quote(output, line)?;
    push_quoted_bytes(output, text)
}

// Appends the number of a line, a text in quotes and the end of that line.
fn push_text_and_end<A: Allocator>(
    output: &mut Vec<u8, A>,
    line: u64,
    text: &[u8],
) -> Result<(), AllocError>
    ensures ok { OnOk result
        (output.new.items ≡ output.old.items
        ++ (decimal line ++ (codes " \"" ++ quoted_bytes text.now) ++ codes "\"\n")) }
    ensures err { OnErr result (BeginsWith output.new.items output.old.items) }
{
    push_open_text(output, line, text)?;
    output.extend_from_slice(b"\"\n")
}

// Appends a line with nothing after its number.
#[inline(always)]
#[tactic(auto, unfolding(crate::specs::Printed::line_with_number))]
fn push_line_with_number<A: Allocator>(
    output: &mut Vec<u8, A>,
    in_text: bool,
    word: &str,
    closing_word: &str,
    line: u64,
) -> Result<(), AllocError>
    requires { closing_word.now ≡ codes "\"\n" ++ word.now }
    ensures ok { OnOk result
        (output.new.items ≡ output.old.items
        ++ (text_closing in_text ++ line_with_number word.now line)) }
    ensures err { OnErr result (BeginsWith output.new.items output.old.items) }
{
    push_word(output, in_text, word, closing_word)?;
    push_number_and_end(output, line)
}

// Appends a line that has a text and no more.
#[inline(always)]
#[tactic(auto, unfolding(crate::specs::Printed::line_with_text))]
fn push_line_with_text<A: Allocator>(
    output: &mut Vec<u8, A>,
    in_text: bool,
    word: &str,
    closing_word: &str,
    line: u64,
    text: &[u8],
) -> Result<(), AllocError>
    requires { closing_word.now ≡ codes "\"\n" ++ word.now }
    ensures ok { OnOk result
        (output.new.items ≡ output.old.items
        ++ (text_closing in_text ++ line_with_text word.now line text.now)) }
    ensures err { OnErr result (BeginsWith output.new.items output.old.items) }
{
    push_word(output, in_text, word, closing_word)?;
    push_text_and_end(output, line, text)
}

// Appends the line of a tag.
fn push_tag<A: Allocator>(
    output: &mut Vec<u8, A>,
    in_text: bool,
    tag: &Tag<A>,
    line: u64,
) -> Result<(), AllocError>
    ensures ok { OnOk result
        (output.new.items ≡ output.old.items ++ (text_closing in_text ++ tag_line (tag_of tag.now) line)) }
    ensures err { OnErr result (BeginsWith output.new.items output.old.items) }
{
    push_kind(output, in_text, tag.kind)?;
    push_open_text(output, line, tag.name.0.as_bytes())?;
    push_attributes(output, &tag.attrs)?;
    push_tag_end(output, tag)
}

// Appends the line of a tag, and the pause line.
fn push_tag_and_pause<A: Allocator + Copy>(
    output: &mut Vec<u8, A>,
    in_text: bool,
    tag: &Tag<A>,
    line: u64,
    reply: &TokenSinkResult<(), String<A>>,
) -> Result<(), AllocError>
    ensures ok { OnOk result
        (output.new.items ≡ output.old.items ++ (text_closing in_text
        ++ (tag_line (tag_of tag.now) line ++ pause_line (reply_of string_bytes reply.now)))) }
    ensures err { OnErr result (BeginsWith output.new.items output.old.items) }
{
    push_tag(output, in_text, tag, line)?;
    push_pause(output, reply)
}

// Appends the line of a DOCTYPE.
#[tactic(auto, unfolding(crate::specs::Printed::doctype_line))]
fn push_doctype<A: Allocator + Copy>(
    output: &mut Vec<u8, A>,
    in_text: bool,
    doctype: &Doctype<A>,
    line: u64,
) -> Result<(), AllocError>
    ensures ok { OnOk result
        (output.new.items ≡ output.old.items
        ++ (text_closing in_text ++ doctype_line (doctype_of doctype.now) line)) }
    ensures err { OnErr result (BeginsWith output.new.items output.old.items) }
{
    push_word(output, in_text, "doctype ", "\"\ndoctype ")?;
    push_number(output, line)?;
    push_option(output, &doctype.name)?;
    push_option(output, &doctype.public_id)?;
    push_option(output, &doctype.system_id)?;
    push_mark(output, doctype.force_quirks, " quirks")?;
    output.extend_from_slice(b"\n")
}

/// Appends what a token adds to an output, where `reply` is what is replied to it.
#[inline(always)]
#[tactic(auto, unfolding(crate::specs::Output::added_by, crate::specs::Printed::printed_line))]
pub fn push_token<A: Allocator + Copy>(
    output: &mut Vec<u8, A>,
    in_text: bool,
    token: &Token<A>,
    line: u64,
    reply: &TokenSinkResult<(), String<A>>,
) -> Result<(), AllocError>
    requires { reply_of string_bytes reply.now ≡ pausing_reply (told_by token.now) }
    ensures ok { OnOk result
        (output.new.items ≡ output.old.items ++ added_by in_text (told_by token.now) line) }
    ensures err { OnErr result (BeginsWith output.new.items output.old.items) }
{
    match token {
        Token::DoctypeToken(doctype) => push_doctype(output, in_text, doctype, line),
        Token::TagToken(tag) => push_tag_and_pause(output, in_text, tag, line, reply),
        Token::CommentToken(text) => {
            let closing_word = "\"\ncomment ";
            push_line_with_text(
                output,
                in_text,
                "comment ",
                closing_word,
                line,
                text.as_bytes(),
            )
        }
        Token::ProcessingInstructionToken(content) => {
            push_line_with_text(output, in_text, "pi ", "\"\npi ", line, content.as_bytes())
        }
        Token::CharacterTokens(text) => push_text(output, in_text, text.as_bytes()),
        Token::NullCharacterToken => {
            push_line_with_number(output, in_text, "null ", "\"\nnull ", line)
        }
        Token::EOFToken => push_line_with_number(output, in_text, "eof ", "\"\neof ", line),
        Token::ParseError(message) => {
            push_line_with_text(
                output,
                in_text,
                "error ",
                "\"\nerror ",
                line,
                message.as_bytes(),
            )
        }
    }
}

/// Whether a text is open after a text.
#[inline(always)]
#[tactic(auto, unfolding(crate::specs::Output::open_after))]
pub fn is_open_after_text(in_text: bool, text: &[u8]) -> bool
    ensures { result ≡ open_after in_text (Text text.now) }
{
    in_text || !text.is_empty()
}

/// Whether a text is open after a token.
#[inline(always)]
#[tactic(auto, unfolding(crate::specs::Output::open_after))]
pub fn is_open_after<A: Allocator>(in_text: bool, token: &Token<A>) -> bool
    ensures { result ≡ open_after in_text (told_by token.now) }
{
    match token {
        Token::CharacterTokens(text) => is_open_after_text(in_text, text.as_bytes()),
        _ => false,
    }
}
