//! Serialized raw text: the content of `script`, `style`, `textarea` and others.
ghost use Rattle.std.specs.Prelude.{◌≡◌, ◌++◌, chars, encode_utf8_all, string_bytes, OnOk};
ghost use Rattle.std.specs.List.{list_all};
ghost use Rattle.html5grammar.specs.Comment.{occurs};
ghost use Rattle.html5reading.specs.Characters.{is_between};
ghost use Rattle.html5reading.specs.Lawful.{has_no_null};
ghost use Rattle.html5reading.specs.RawText.{ends_name};
ghost use Rattle.html5serialize.specs.RawRefusals.{mark_refusal, plain_refusal, raw_refusal, text_refusal};
ghost use Rattle.html5serialize.specs.RawTexts.{begins_end, begins_name, has_end, has_start, is_raw_name, raw_text};

use crate::error::RawTextError;
use crate::escaping::push_text;
use crate::names::{has_comment_characters, occurs};
use html5ever_interface::states::RawKind;
use std::alloc::{AllocError, Allocator};

// Whether it is a small ASCII letter.
fn is_small_letter(c: u8) -> bool
    ensures { result ≡ is_between 0x0061 0x007A c }
{
    c.is_ascii_lowercase()
}

// Whether each byte of a text is.
fn has_small_letters(text: &[u8]) -> bool
    ensures { result ≡ list_all (is_between 0x0061 0x007A) text.now }
{
    text.iter().all(|c| is_small_letter(*c))
}

// Whether a name is one of an element with raw text.
#[tactic(auto, unfolding(crate::specs::RawTexts::is_raw_name))]
fn is_raw_name(name: &[u8]) -> bool
    ensures { result ≡ is_raw_name name.now }
{
    !name.is_empty() && has_small_letters(name)
}

// Whether a character ends a name.
#[tactic(auto, unfolding(html5reading::specs::RawText::ends_name, html5reading::specs::Characters::is_white_space))]
fn ends_name(c: u8) -> bool
    ensures { result ≡ ends_name c }
{
    matches!(c, b'\t' | b'\n' | b'\x0C' | b' ' | b'/' | b'>')
}

// Whether the text begins with the name, in any case, and with a character that ends it.
fn begins_name(name: &[u8], text: &[u8]) -> bool
    ensures { result ≡ begins_name name.now text.now }
{
    for at in 0..name.len() {
        if at >= text.len() {
            return false;
        }
        if text[at].to_ascii_lowercase() != name[at] {
            return false;
        }
    }
    text.len() > name.len() && ends_name(text[name.len()])
}

// Whether the text begins as the end tag of that name does.
fn begins_end(name: &[u8], text: &[u8]) -> bool
    ensures { result ≡ begins_end name.now text.now }
{
    text.starts_with(b"</") && begins_name(name, &text[2..])
}

// Whether such an end tag begins anywhere in the text.
fn has_end(name: &[u8], text: &[u8]) -> bool
    ensures { result ≡ has_end name.now text.now }
{
    for at in 0..text.len() {
        if begins_end(name, &text[at..]) {
            return true;
        }
    }
    false
}

// Whether a `<` with that name after it begins anywhere in the text.
fn has_start(name: &[u8], text: &[u8]) -> bool
    ensures { result ≡ has_start name.now text.now }
{
    for at in 0..text.len() {
        if text[at] == b'<' && begins_name(name, &text[at + 1..]) {
            return true;
        }
    }
    false
}

// What is wrong with a text that is written as it is.
#[tactic(auto, unfolding(crate::specs::RawRefusals::plain_refusal))]
fn plain_refusal(name: &[u8], text: &[u8]) -> Option<RawTextError>
    ensures { result ≡ plain_refusal name.now text.now }
{
    if !has_comment_characters(text) {
        return Some(RawTextError::Character);
    }
    if has_end(name, text) {
        return Some(RawTextError::EndTag);
    }
    None
}

// Whether a script has what may hide its end tag.
#[tactic(auto, unfolding(crate::specs::RawRefusals::mark_refusal))]
fn mark_refusal(text: &[u8]) -> Option<RawTextError>
    ensures { result ≡ mark_refusal text.now }
{
    if occurs(b"<!--", text) && has_start(b"script", text) {
        Some(RawTextError::Mark)
    } else {
        None
    }
}

// Whether a text has no NUL.
#[tactic(auto, unfolding(html5reading::specs::Lawful::has_no_null))]
fn has_no_null(text: &[u8]) -> bool
    ensures { result ≡ has_no_null text.now }
{
    text.iter().all(|c| *c != 0)
}

// What is wrong with the text.
#[tactic(auto, unfolding(crate::specs::RawRefusals::text_refusal))]
fn text_refusal(kind: RawKind, name: &[u8], text: &[u8]) -> Option<RawTextError>
    ensures { result ≡ text_refusal kind name.now text.now }
{
    match kind {
        RawKind::Rcdata => {
            if has_no_null(text) {
                None
            } else {
                Some(RawTextError::Character)
            }
        }
        RawKind::Rawtext => plain_refusal(name, text),
        RawKind::ScriptData => match plain_refusal(name, text) {
            Some(error) => Some(error),
            None => mark_refusal(text),
        },
        RawKind::ScriptDataEscaped(_) => Some(RawTextError::Escaped),
    }
}

/// Why the text can't be written as raw text of this kind, in an element of this name, if it can't: of
/// several reasons the first as they stand in `RawTextError`.
#[tactic(auto, unfolding(crate::specs::RawRefusals::raw_refusal))]
pub fn raw_text_refusal(kind: RawKind, name: &str, text: &str) -> Option<RawTextError>
    ensures { result ≡ raw_refusal kind name.now text.now }
{
    if is_raw_name(name.as_bytes()) {
        text_refusal(kind, name.as_bytes(), text.as_bytes())
    } else {
        Some(RawTextError::Name)
    }
}

// Appends a text as it is.
pub fn push_as_it_is<A: Allocator>(out: &mut String<A>, text: &str) -> Result<(), AllocError>
    ensures { OnOk result (string_bytes out.new ≡ string_bytes out.old ++ encode_utf8_all (chars text.now)) }
{
    out.push_str(text)?;
    Ok(())
}

/// Appends a text as raw text of this kind, whether it can be written or not, without the end tag. In RCDATA
/// it is escaped, and else it stands as it is. On Err a part of it may stand there.
pub fn push_raw_text<A: Allocator>(
    out: &mut String<A>,
    kind: RawKind,
    text: &str,
) -> Result<(), AllocError>
    ensures { OnOk result (string_bytes out.new
        ≡ string_bytes out.old ++ encode_utf8_all (raw_text kind text.now)) }
{
    match kind {
        RawKind::Rcdata => push_text(out, text),
        RawKind::Rawtext | RawKind::ScriptData | RawKind::ScriptDataEscaped(_) => {
            push_as_it_is(out, text)
        }
    }
}
