//! What is written of a run of text and of a tag.
ghost use Rattle.std.specs.Prelude.{◌≡◌, ◌++◌, OnOk, chars, encode_utf8_all};
ghost use Rattle.html5ever_interface.specs.Token.{tag_of};
ghost use Rattle.html5write.specs.Pieces.{can_write};
ghost use Rattle.html5write.specs.Writing.{piece_of};
ghost use Rattle.html5rewrite.specs.Plain.{is_before_markup, where_plain, written_of_run, written_of_tag};
ghost use Rattle.html5rewrite.specs.Rewriter.{reads_markup_after};

use crate::attributes::plain_attributes;
use crate::rewriter::reads_markup_after;
use html5ever_interface::interface::token::{Tag, TagKind};
use html5write::laws::refusals;
use html5write::{Piece, WriteError, Writer, refusal_of};
use std::alloc::Allocator;

/// Whether a piece can be written.
pub fn can_write(piece: &Piece<'_>) -> bool
    ensures { result ≡ can_write (piece_of piece.now) }
{
    refusals();
    refusal_of(piece).is_none()
}

// Whether the text after a start tag of this name is read as markup, by the characters of the name.
fn reads_markup_after_text(name: &str) -> bool
    ensures { result ≡ reads_markup_after (encode_utf8_all (chars name.now)) }
{
    reads_markup_after(name)
}

// Whether markup is read after a piece.
fn is_before_markup(piece: &Piece<'_>) -> bool
    ensures { result ≡ is_before_markup (piece_of piece.now) }
{
    match piece {
        Piece::StartTag { name, .. } => reads_markup_after_text(name),
        _ => true,
    }
}

// Writes a piece, if it can be written and markup is read after it.
fn write_plain<A: Allocator + Copy>(
    page: &mut Writer<A>,
    piece: &Piece<'_>,
) -> Result<(), WriteError>
    ensures { OnOk result (page.new ≡ page.old ++ where_plain (piece_of piece.now)) }
{
    if !is_before_markup(piece) || !can_write(piece) {
        return Ok(());
    }
    page.write(piece)
}

/// Writes a run of text, if there is one.
#[tactic(auto, unfolding(crate::specs::Plain::written_of_run))]
pub fn write_run<A: Allocator + Copy>(page: &mut Writer<A>, run: &str) -> Result<(), WriteError>
    ensures { OnOk result (page.new ≡ page.old ++ written_of_run run.now) }
{
    if run.is_empty() {
        return Ok(());
    }
    write_plain(page, &Piece::Text(run))
}

/// Writes a tag.
#[tactic(auto, unfolding(crate::specs::Plain::written_of_tag))]
pub fn write_tag<A: Allocator + Copy>(
    alloc: A,
    page: &mut Writer<A>,
    tag: &Tag<A>,
) -> Result<(), WriteError>
    ensures { OnOk result (page.new ≡ page.old ++ written_of_tag (tag_of tag.now)) }
{
    let name = tag.name.0.as_str();
    let attributes = plain_attributes(alloc, &tag.attrs)?;
    match tag.kind {
        TagKind::StartTag => write_plain(
            page,
            &Piece::StartTag {
                name,
                attributes: &attributes,
            },
        ),
        TagKind::EndTag => write_plain(page, &Piece::EndTag(name)),
    }
}
