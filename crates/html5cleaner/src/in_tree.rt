//! Output of kept pieces that are made to fit.
ghost use Rattle.std.specs.Prelude.{◌≡◌, ◌++◌, chars, false, map, OnOk};
ghost use Rattle.html5ever_interface.specs.Token.{tag_of, told_by};
ghost use Rattle.html5nested.specs.PageItems.{items_of, items_of_piece};
ghost use Rattle.html5write.specs.Pieces.Piece.{EndTagPiece, StartTagPiece, TextPiece};
ghost use Rattle.html5write.specs.Writing.{attribute_of, piece_of};
ghost use Rattle.html5cleaner.specs.Balance.{is_end, open_by, written_by};
ghost use Rattle.html5cleaner.specs.Clean.{attribute_chars, kept_attributes, kept_of_run, kept_of_tag, kept_where};
ghost use Rattle.html5cleaner.specs.Fits.{IsFit};
ghost use Rattle.html5cleaner.specs.declared.fitting.Fit.TheVariants.{Opens};
ghost use Rattle.html5cleaner.specs.Kept.{AddsAll, AddsLast, Settles, piece_where};
ghost use Rattle.html5cleaner.specs.Shape.Shape.{Tree};

use crate::attributes::kept_attributes;
use crate::fitting::{Fit, fit_of};
use crate::kept::{is_end, kept_run, kept_tag, write_kept};
use crate::opened::{Opened, Pending};
use html5ever_interface::interface::token::{Tag, Token};
use html5nested::{Item, close_all, write_fitted};
use html5policy::Policy;
use html5tree::names::ElementName;
use html5tree::nesting::Nesting;
use html5write::laws::bytes;
use html5write::{Attribute, Piece, Writable, WriteError, Writer};
use std::alloc::Allocator;

fn write_text<A: Allocator + Copy>(
    alloc: A,
    page: &mut Writer<A>,
    nesting: &mut Nesting<A>,
    text: &str,
) -> Result<(), WriteError>
    ensures { OnOk result (AddsAll page.old page.new nesting.old nesting.new (items_of_piece (TextPiece (chars text.now)))) }
{
    write_fitted(alloc, page, nesting, &Item::Text(text))
}

fn write_start_tag<A: Allocator + Copy>(
    alloc: A,
    page: &mut Writer<A>,
    nesting: &mut Nesting<A>,
    name: &str,
    attributes: &[Attribute<'_>],
) -> Result<(), WriteError>
    ensures { OnOk result (AddsAll page.old page.new nesting.old nesting.new
        (items_of_piece (StartTagPiece (chars name.now) (map attribute_of attributes.now)))) }
{
    bytes(&Piece::StartTag { name, attributes });
    write_fitted(alloc, page, nesting, &Item::StartTag { name, attributes })
}

fn write_end_tag<A: Allocator + Copy>(
    alloc: A,
    page: &mut Writer<A>,
    nesting: &mut Nesting<A>,
    name: &str,
) -> Result<(), WriteError>
    ensures { OnOk result (AddsAll page.old page.new nesting.old nesting.new (items_of_piece (EndTagPiece (chars name.now)))) }
{
    write_fitted(alloc, page, nesting, &Item::EndTag(name))
}

// Writes a piece so that it fits. A comment has no items.
fn write_piece<A: Allocator + Copy>(
    alloc: A,
    page: &mut Writer<A>,
    nesting: &mut Nesting<A>,
    piece: Piece<'_>,
) -> Result<(), WriteError>
    ensures { OnOk result (AddsAll page.old page.new nesting.old nesting.new (items_of_piece (piece_of piece.entry))) }
{
    match piece {
        Piece::Text(text) => write_text(alloc, page, nesting, text),
        Piece::StartTag { name, attributes } => {
            write_start_tag(alloc, page, nesting, name, attributes)
        }
        Piece::EndTag(name) => write_end_tag(alloc, page, nesting, name),
        Piece::Comment(_) => Ok(()),
    }
}

// Writes a piece so that it fits, if there is one.
fn write_where<A: Allocator + Copy>(
    alloc: A,
    page: &mut Writer<A>,
    nesting: &mut Nesting<A>,
    piece: &Option<Writable<'_>>,
) -> Result<(), WriteError>
    ensures { OnOk result (AddsAll page.old page.new nesting.old nesting.new (items_of (piece_where piece.now))) }
{
    match piece {
        Some(piece) => write_piece(alloc, page, nesting, piece.piece()),
        None => Ok(()),
    }
}

// Writes a run of text and a tag so that they fit, and closes the open elements if the page ends after them.
fn write_step<A: Allocator + Copy>(
    alloc: A,
    page: &mut Writer<A>,
    nesting: &mut Nesting<A>,
    run: &Option<Writable<'_>>,
    tag: &Option<Writable<'_>>,
    ends: bool,
) -> Result<(), WriteError>
    ensures { OnOk result (AddsLast page.old page.new nesting.old nesting.new ends
        (items_of (piece_where run.now ++ piece_where tag.now))) }
{
    let _ready = nesting.depth();
    write_where(alloc, page, nesting, run)?;
    write_where(alloc, page, nesting, tag)?;
    if ends {
        return close_all(page, nesting);
    }
    Ok(())
}

// The same on a page: all of it or nothing.
fn write_in_tree<A: Allocator + Copy>(
    alloc: A,
    opened: &mut Opened<A>,
    page: &mut Writer<A>,
    run: &Option<Writable<'_>>,
    tag: &Option<Writable<'_>>,
    ends: bool,
) -> Result<Pending, WriteError>
    ensures { Settles (Tree opened.old.tree.limit) result page.old page.new opened.old opened.new
        (written_by (Tree opened.old.tree.limit) ends opened.old.tree.opened (piece_where run.now ++ piece_where tag.now))
        (open_by (Tree opened.old.tree.limit) ends opened.old.tree.opened (piece_where run.now ++ piece_where tag.now)) }
{
    opened.next.copy_from(&opened.tree)?;
    let mut part = Writer::new(alloc);
    write_step(alloc, &mut part, &mut opened.next, run, tag, ends)?;
    page.append(&part)?;
    Ok(Pending::Tree)
}

// Opens an element of the tree, and writes a run of text and its start tag, which fit: all of it or nothing.
fn write_opening<A: Allocator + Copy>(
    opened: &mut Opened<A>,
    page: &mut Writer<A>,
    run: &Option<Writable<'_>>,
    tag: &Option<Writable<'_>>,
    name: ElementName,
) -> Result<Pending, WriteError>
    requires { IsFit (Opens name) opened.old.tree (piece_where run.now ++ piece_where tag.now) }
    ensures { Settles (Tree opened.old.tree.limit) result page.old page.new opened.old opened.new
        (written_by (Tree opened.old.tree.limit) false opened.old.tree.opened (piece_where run.now ++ piece_where tag.now))
        (open_by (Tree opened.old.tree.limit) false opened.old.tree.opened (piece_where run.now ++ piece_where tag.now)) }
{
    opened.tree.open(name)?;
    match write_kept(page, run, tag) {
        Ok(()) => Ok(Pending::Opened),
        Err(error) => {
            opened.tree.close_one();
            Err(error)
        }
    }
}

// Writes a run of text and a tag within a page, all of it or nothing: as they are where both fit, as most do, and
// else made to fit.
fn write_within<A: Allocator + Copy>(
    alloc: A,
    limit: usize,
    opened: &mut Opened<A>,
    page: &mut Writer<A>,
    run: &Option<Writable<'_>>,
    tag: &Option<Writable<'_>>,
) -> Result<Pending, WriteError>
    requires { limit ≡ opened.old.tree.limit }
    ensures { Settles (Tree opened.old.tree.limit) result page.old page.new opened.old opened.new
        (written_by (Tree opened.old.tree.limit) false opened.old.tree.opened (piece_where run.now ++ piece_where tag.now))
        (open_by (Tree opened.old.tree.limit) false opened.old.tree.opened (piece_where run.now ++ piece_where tag.now)) }
{
    match fit_of(&opened.tree, limit, run, tag) {
        Fit::Unfit => write_in_tree(alloc, opened, page, run, tag, false),
        Fit::Stays => {
            write_kept(page, run, tag)?;
            Ok(Pending::Nothing)
        }
        Fit::Closes => {
            write_kept(page, run, tag)?;
            Ok(Pending::Closes)
        }
        Fit::Opens(name) => write_opening(opened, page, run, tag, name),
    }
}

// Writes the kept part of a run of text and the tag after it so that it fits, all of it or nothing, where these of the
// tag's attributes are kept.
fn keep_tag_with<A: Allocator + Copy>(
    alloc: A,
    policy: &Policy<A>,
    opened: &mut Opened<A>,
    page: &mut Writer<A>,
    run: &str,
    tag: &Tag<A>,
    attributes: &[Attribute<'_>],
) -> Result<Pending, WriteError>
    requires limit { opened.old.tree.limit ≡ policy.now.depth }
    requires kept { map attribute_of attributes.now ≡ kept_attributes policy.now (chars (tag_of tag.now).name)
        (map attribute_chars (tag_of tag.now).attributes) }
    ensures { Settles (Tree opened.old.tree.limit) result page.old page.new opened.old opened.new
        (written_by (Tree opened.old.tree.limit) false opened.old.tree.opened (kept_of_run run.now ++ kept_of_tag policy.now (tag_of tag.now)))
        (open_by (Tree opened.old.tree.limit) false opened.old.tree.opened (kept_of_run run.now ++ kept_of_tag policy.now (tag_of tag.now))) }
{
    let run = kept_run(run);
    let tag = kept_tag(policy, tag, attributes);
    write_within(alloc, policy.depth(), opened, page, &run, &tag)
}

// Writes the kept part of a run of text and the tag after it so that it fits, all of it or nothing. Most tags have no
// attribute.
fn keep_tag<A: Allocator + Copy>(
    alloc: A,
    policy: &Policy<A>,
    opened: &mut Opened<A>,
    page: &mut Writer<A>,
    run: &str,
    tag: &Tag<A>,
) -> Result<Pending, WriteError>
    requires { opened.old.tree.limit ≡ policy.now.depth }
    ensures { Settles (Tree opened.old.tree.limit) result page.old page.new opened.old opened.new
        (written_by (Tree opened.old.tree.limit) false opened.old.tree.opened (kept_of_run run.now ++ kept_of_tag policy.now (tag_of tag.now)))
        (open_by (Tree opened.old.tree.limit) false opened.old.tree.opened (kept_of_run run.now ++ kept_of_tag policy.now (tag_of tag.now))) }
{
    if tag.attrs.is_empty() {
        return keep_tag_with(alloc, policy, opened, page, run, tag, &[]);
    }
    let attributes = kept_attributes(alloc, policy, &tag.name.0, &tag.attrs)?;
    keep_tag_with(alloc, policy, opened, page, run, tag, &attributes)
}

/// Writes the kept part of a run of text and the token after it so that it fits, all of it or nothing, when this many
/// elements hide their content.
pub fn keep_in_tree<A: Allocator + Copy>(
    alloc: A,
    policy: &Policy<A>,
    depth: u64,
    opened: &mut Opened<A>,
    page: &mut Writer<A>,
    run: &str,
    token: &Token<A>,
) -> Result<Pending, WriteError>
    requires { opened.old.tree.limit ≡ policy.now.depth }
    ensures { Settles (Tree opened.old.tree.limit) result page.old page.new opened.old opened.new
        (written_by (Tree opened.old.tree.limit) (is_end (told_by token.now)) opened.old.tree.opened (kept_where policy.now depth run.now (told_by token.now)))
        (open_by (Tree opened.old.tree.limit) (is_end (told_by token.now)) opened.old.tree.opened (kept_where policy.now depth run.now (told_by token.now))) }
{
    if is_end(token) {
        let shown = if depth == 0 { run } else { "" };
        let run = kept_run(shown);
        return write_in_tree(alloc, opened, page, &run, &None, true);
    }
    if depth != 0 {
        return write_within(alloc, policy.depth(), opened, page, &None, &None);
    }
    match token {
        Token::TagToken(tag) => keep_tag(alloc, policy, opened, page, run, tag),
        _ => {
            let run = kept_run(run);
            write_within(alloc, policy.depth(), opened, page, &run, &None)
        }
    }
}
