//! Pieces as they are written.
ghost use Rattle.std.specs.Prelude.{◌≡◌, ◌++◌, encode_utf8_all, flat_map, map, option_map, string_bytes, take, OnErr, OnOk};
ghost use Rattle.std.specs.Str.{chars};
ghost use Rattle.std.specs.String.Boundary.{IsSplitPoint};
ghost use Rattle.markup5ever.specs.Lists.{BeginsWith};
ghost use Rattle.html5write.specs.Escaped.{escaped, escaped_text, reference_of};
ghost use Rattle.html5write.specs.Pieces.{attribute_text, piece_text};
ghost use Rattle.html5write.specs.Pieces.Piece.{CommentPiece, EndTagPiece, StartTagPiece};
ghost use Rattle.html5write.specs.Writing.{attribute_of, piece_of};

use crate::piece::{Attribute, Piece};
use crate::runs::{is_plain, plain_prefix_len};
use markup5ever::text::push_text;
use std::alloc::{AllocError, Allocator};

// The reference that is written for a character that can't stand for itself.
#[tactic(auto, unfolding(crate::specs::Escaped::reference_of))]
fn reference_of(c: char) -> Option<&'static str>
    ensures { option_map (λ reference. reference.now) result ≡ reference_of c }
{
    match c {
        '&' => Some("&#38;"),
        '<' => Some("&#60;"),
        '>' => Some("&#62;"),
        '"' => Some("&#34;"),
        '\r' => Some("&#13;"),
        '\u{FEFF}' => Some("&#65279;"),
        _ => None,
    }
}

// Appends a character, or the reference that stands for it.
fn push_character<A: Allocator>(out: &mut String<A>, c: char) -> Result<(), AllocError>
    ensures ok { OnOk result (string_bytes out.new ≡ string_bytes out.old ++ encode_utf8_all (escaped c)) }
    ensures err { OnErr result (BeginsWith (string_bytes out.new) (string_bytes out.old)) }
{
    match reference_of(c) {
        Some(reference) => push_text(out, reference)?,
        None => out.push(c)?,
    }
    Ok(())
}

// Appends a text, with references for the characters that can't stand for themselves: the text between them goes at
// once.
#[inline(never)]
fn push_escaped<A: Allocator>(out: &mut String<A>, text: &str) -> Result<(), AllocError>
    ensures ok { OnOk result (string_bytes out.new
        ≡ string_bytes out.old ++ encode_utf8_all (escaped_text (chars text.now))) }
    ensures err { OnErr result (BeginsWith (string_bytes out.new) (string_bytes out.old)) }
{
    let mut rest = text;
    loop {
        let plain = plain_prefix_len(rest);
        push_text(out, &rest[..plain])?;
        let mut characters = rest[plain..].chars();
        let Some(c) = characters.next() else {
            return Ok(());
        };
        push_character(out, c)?;
        rest = characters.as_str();
    }
}

// Appends the value of an attribute, at once where it stands for itself.
#[inline(always)]
fn push_value<A: Allocator>(out: &mut String<A>, value: &str) -> Result<(), AllocError>
    ensures ok { OnOk result (string_bytes out.new
        ≡ string_bytes out.old ++ encode_utf8_all (escaped_text (chars value.now))) }
    ensures err { OnErr result (BeginsWith (string_bytes out.new) (string_bytes out.old)) }
{
    if is_plain(value) {
        return push_text(out, value);
    }
    push_escaped(out, value)
}

// Appends an attribute.
fn push_attribute<A: Allocator>(
    out: &mut String<A>,
    name: &str,
    value: &str,
) -> Result<(), AllocError>
    ensures ok { OnOk result (string_bytes out.new ≡ string_bytes out.old
        ++ encode_utf8_all (attribute_text (record { name = chars name.now; value = chars value.now }))) }
    ensures err { OnErr result (BeginsWith (string_bytes out.new) (string_bytes out.old)) }
{
    out.push(' ')?;
    push_text(out, name)?;
    out.push('=')?;
    out.push('"')?;
    push_value(out, value)?;
    out.push('"')?;
    Ok(())
}

// Appends attributes.
fn push_attributes<A: Allocator>(
    out: &mut String<A>,
    attributes: &[Attribute<'_>],
) -> Result<(), AllocError>
    ensures ok { OnOk result (string_bytes out.new ≡ string_bytes out.old
        ++ encode_utf8_all (flat_map attribute_text (map attribute_of attributes.now))) }
    ensures err { OnErr result (BeginsWith (string_bytes out.new) (string_bytes out.old)) }
{
    for attribute in attributes {
        push_attribute(out, attribute.name, attribute.value)?;
    }
    Ok(())
}

// Appends a start tag.
#[inline(never)]
fn push_start_tag<A: Allocator>(
    out: &mut String<A>,
    name: &str,
    attributes: &[Attribute<'_>],
) -> Result<(), AllocError>
    ensures ok { OnOk result (string_bytes out.new ≡ string_bytes out.old
        ++ encode_utf8_all (piece_text (StartTagPiece (chars name.now) (map attribute_of attributes.now)))) }
    ensures err { OnErr result (BeginsWith (string_bytes out.new) (string_bytes out.old)) }
{
    out.push('<')?;
    push_text(out, name)?;
    push_attributes(out, attributes)?;
    out.push('>')?;
    Ok(())
}

// Appends an end tag.
#[inline(never)]
fn push_end_tag<A: Allocator>(out: &mut String<A>, name: &str) -> Result<(), AllocError>
    ensures ok { OnOk result (string_bytes out.new
        ≡ string_bytes out.old ++ encode_utf8_all (piece_text (EndTagPiece (chars name.now)))) }
    ensures err { OnErr result (BeginsWith (string_bytes out.new) (string_bytes out.old)) }
{
    out.push('<')?;
    out.push('/')?;
    push_text(out, name)?;
    out.push('>')?;
    Ok(())
}

// Appends a comment.
#[inline(never)]
fn push_comment<A: Allocator>(out: &mut String<A>, text: &str) -> Result<(), AllocError>
    ensures ok { OnOk result (string_bytes out.new
        ≡ string_bytes out.old ++ encode_utf8_all (piece_text (CommentPiece (chars text.now)))) }
    ensures err { OnErr result (BeginsWith (string_bytes out.new) (string_bytes out.old)) }
{
    out.push_str("<!--")?;
    out.push_str(text)?;
    out.push_str("-->")?;
    Ok(())
}

/// Appends a piece, whether it can be written or not. Where memory is refused, a part may be left.
#[inline(always)]
pub fn push_piece<A: Allocator>(out: &mut String<A>, piece: &Piece<'_>) -> Result<(), AllocError>
    ensures ok { OnOk result (string_bytes out.new
        ≡ string_bytes out.old ++ encode_utf8_all (piece_text (piece_of piece.now))) }
    ensures err { OnErr result (BeginsWith (string_bytes out.new) (string_bytes out.old)) }
{
    match piece {
        Piece::Text(text) => push_escaped(out, text),
        Piece::StartTag { name, attributes } => push_start_tag(out, name, attributes),
        Piece::EndTag(name) => push_end_tag(out, name),
        Piece::Comment(text) => push_comment(out, text),
    }
}

/// Takes back the part that a refused call left of what it was to append: the text has its length before again.
#[inline(always)]
pub fn whole_or_nothing<A: Allocator>(
    out: &mut String<A>,
    len: usize,
    appended: Result<(), AllocError>,
) -> Result<(), AllocError>
    requires { OnErr appended (IsSplitPoint (string_bytes out.old) len) }
    ensures same { result ≡ appended }
    ensures ok { OnOk result (string_bytes out.new ≡ string_bytes out.old) }
    ensures err { OnErr result (string_bytes out.new ≡ take len (string_bytes out.old)) }
{
    if appended.is_err() {
        out.truncate(len);
    }
    appended
}
