//! Characters of texts and values as they are written.
ghost use Rattle.std.specs.Prelude.{◌≡◌, ◌++◌, chars, encode_utf8_all, option_map, string_bytes, OnOk};
ghost use Rattle.html5serialize.specs.Escapes.{escaped_by, escaped_text_by, named_reference_of, reference_by, value_by, value_text_by};
ghost use Rattle.html5write.specs.Escaped.{escaped_text, reference_of};

use std::alloc::{AllocError, Allocator};

/// How the characters of texts and values are escaped that can't stand for themselves.
#[derive(Clone, Copy, Debug, PartialEq, Eq)]
pub enum Escapes {
    /// By their numbers, for which a reader needs no table.
    Numbers,
    /// `&amp;`, `&nbsp;`, `&lt;` and `&gt;` by their names, and in values `&quot;`, as the standard writes them, and
    /// CR and U+FEFF by their numbers. In texts `"` stands as it is. A reader's table must have these names.
    Names,
}

// The reference by number that is written for a character that can't stand for itself.
#[tactic(auto, unfolding(html5write::specs::Escaped::reference_of))]
fn reference_of(c: char) -> Option<&'static str>
    ensures { option_map (λ reference. reference.now) result ≡ reference_of c }
{
    match c {
        '&' => Some("&#38;"),
        '<' => Some("&#60;"),
        '>' => Some("&#62;"),
        '"' => Some("&#34;"),
        '\r' => Some("&#13;"),
        '\u{FEFF}' => Some("&#65279;"),
        _ => None,
    }
}

// The same, by name if it has one.
#[tactic(auto, unfolding(crate::specs::Escapes::named_reference_of))]
fn named_reference_of(c: char) -> Option<&'static str>
    ensures { option_map (λ reference. reference.now) result ≡ named_reference_of c }
{
    match c {
        '&' => Some("&amp;"),
        '\u{A0}' => Some("&nbsp;"),
        '<' => Some("&lt;"),
        '>' => Some("&gt;"),
        '"' => None,
        _ => reference_of(c),
    }
}

fn reference_by(escapes: Escapes, c: char) -> Option<&'static str>
    ensures { option_map (λ reference. reference.now) result ≡ reference_by escapes c }
{
    match escapes {
        Escapes::Numbers => reference_of(c),
        Escapes::Names => named_reference_of(c),
    }
}

// Appends a character, or the reference that stands for it.
fn push_character<A: Allocator>(
    out: &mut String<A>,
    escapes: Escapes,
    c: char,
) -> Result<(), AllocError>
    ensures { OnOk result (string_bytes out.new ≡ string_bytes out.old ++ encode_utf8_all (escaped_by escapes c)) }
{
    match reference_by(escapes, c) {
        Some(reference) => out.push_str(reference)?,
        None => out.push(c)?,
    }
    Ok(())
}

// Appends a text, with references for the characters that can't stand for themselves.
pub fn push_text_by<A: Allocator>(
    out: &mut String<A>,
    escapes: Escapes,
    text: &str,
) -> Result<(), AllocError>
    ensures { OnOk result (string_bytes out.new
        ≡ string_bytes out.old ++ encode_utf8_all (escaped_text_by escapes (chars text.now))) }
{
    for c in text.chars() {
        push_character(out, escapes, c)?;
    }
    Ok(())
}

// The same by number.
pub fn push_text<A: Allocator>(out: &mut String<A>, text: &str) -> Result<(), AllocError>
    ensures { OnOk result (string_bytes out.new
        ≡ string_bytes out.old ++ encode_utf8_all (escaped_text (chars text.now))) }
{
    push_text_by(out, Escapes::Numbers, text)
}

// Appends a character of a value, or the reference that stands for it.
#[tactic(auto, unfolding(crate::specs::Escapes::named_value))]
fn push_value_character<A: Allocator>(
    out: &mut String<A>,
    escapes: Escapes,
    c: char,
) -> Result<(), AllocError>
    ensures { OnOk result (string_bytes out.new ≡ string_bytes out.old ++ encode_utf8_all (value_by escapes c)) }
{
    match escapes {
        Escapes::Numbers => push_character(out, escapes, c),
        Escapes::Names if c == '"' => out.push_str("&quot;"),
        Escapes::Names => push_character(out, escapes, c),
    }
}

// Appends a value, with references for the characters that can't stand for themselves.
pub fn push_value_by<A: Allocator>(
    out: &mut String<A>,
    escapes: Escapes,
    value: &str,
) -> Result<(), AllocError>
    ensures { OnOk result (string_bytes out.new
        ≡ string_bytes out.old ++ encode_utf8_all (value_text_by escapes (chars value.now))) }
{
    for c in value.chars() {
        push_value_character(out, escapes, c)?;
    }
    Ok(())
}
