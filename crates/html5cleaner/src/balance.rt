//! Output of kept pieces in which each end tag closes the innermost open element.
ghost use Rattle.std.specs.Prelude.{◌≡◌, ◌++◌, ◌∷◌, [], OnErr, OnOk, IfOk, chars, encode_utf8_all, take};
ghost use Rattle.html5write.specs.Writing.{piece_of};
ghost use Rattle.html5cleaner.specs.Balance.{all_balanced, all_open_after, end_tags};
ghost use Rattle.html5cleaner.specs.Clean.{kept_of_run};
ghost use Rattle.html5elements.specs.Elements.{is_void};
ghost use Rattle.html5cleaner.specs.Kept.{Keeps, piece_where};
ghost use Rattle.html5cleaner.specs.Open.{names_of};

use crate::kept::{kept_run, write_kept};
use crate::open_elements::OpenElements;
use html5elements::is_void;
use html5write::{Piece, Writable, WriteError, Writer};
use std::alloc::Allocator;

/// How a step on the open elements ends: closing the innermost `undo` of them takes it back, closing
/// the innermost `close` completes it.
#[derive(Clone, Copy, Debug, PartialEq, Eq)]
pub struct Change {
    pub undo: usize,
    pub close: usize,
}

/// No step is left.
pub const NO_CHANGE: Change = Change { undo: 0, close: 0 };

// Whether an element of this name has no end tag, by its characters.
fn is_void_name(name: &str) -> bool
    ensures { result ≡ is_void (encode_utf8_all (chars name.now)) }
{
    is_void(name)
}

// Writes the end tags of this many of these names, the last first.
fn write_end_tags<A: Allocator + Copy>(
    page: &mut Writer<A>,
    names: &[String<A>],
    count: usize,
) -> Result<(), WriteError>
    ensures { OnOk result (page.new ≡ page.old ++ end_tags (take count (names_of names.now))) }
{
    let mut left = names;
    let mut wanted = count;
    while wanted > 0 {
        let Some((name, outer)) = left.split_last() else {
            return Ok(());
        };
        page.end_tag(name.as_str())?;
        left = outer;
        wanted -= 1;
    }
    Ok(())
}

/// Writes the kept part of a run of text, and after it the end tags of this many of the open
/// elements: all of it or nothing.
pub fn write_closed<A: Allocator + Copy>(
    alloc: A,
    opened: &OpenElements<A>,
    page: &mut Writer<A>,
    run: &str,
    count: usize,
) -> Result<(), WriteError>
    ensures written { OnOk result (page.new ≡ page.old ++ (kept_of_run run.now ++ end_tags (take count opened.now))) }
    ensures unchanged { OnErr result (page.new ≡ page.old) }
{
    if count == 0 {
        return write_kept(page, &kept_run(run), &None);
    }
    let mut part = Writer::new(alloc);
    write_kept(&mut part, &kept_run(run), &None)?;
    write_end_tags(&mut part, opened.names(), count)?;
    page.append(&part)
}

// Writes the kept part of a run of text, and a start tag of this name, which opens an element: all of
// it or nothing.
fn write_opened<A: Allocator + Copy>(
    opened: &mut OpenElements<A>,
    page: &mut Writer<A>,
    run: &str,
    tag: Writable<'_>,
    name: &str,
) -> Result<(), WriteError>
    ensures written { OnOk result (page.new ≡ page.old ++ (kept_of_run run.now ++ piece_of tag.entry ∷ [])) }
    ensures opened { OnOk result (opened.new ≡ chars name.now ∷ opened.old) }
    ensures unchanged { OnErr result (page.new ≡ page.old) }
    ensures unopened { OnErr result (opened.new ≡ opened.old) }
{
    opened.push(name)?;
    match write_kept(page, &kept_run(run), &Some(tag)) {
        Ok(()) => Ok(()),
        Err(error) => {
            opened.close(1);
            Err(error)
        }
    }
}

/// Writes the kept part of a run of text, and a piece after it, when no element is opened or closed.
pub fn write_plain<A: Allocator + Copy>(
    page: &mut Writer<A>,
    run: &str,
    tag: Option<Writable<'_>>,
) -> Result<Change, WriteError>
    ensures written { OnOk result (page.new ≡ page.old ++ (kept_of_run run.now ++ piece_where tag.entry)) }
    ensures unchanged { OnErr result (page.new ≡ page.old) }
    ensures change { IfOk result (λ change. (change.undo ≡ 0) × (change.close ≡ 0)) }
{
    write_kept(page, &kept_run(run), &tag)?;
    Ok(NO_CHANGE)
}

// Writes the kept part of a run of text and a tag after it, balanced: all of it or nothing.
fn write_piece<A: Allocator + Copy>(
    alloc: A,
    opened: &mut OpenElements<A>,
    page: &mut Writer<A>,
    run: &str,
    tag: Writable<'_>,
) -> Result<Change, WriteError>
    ensures { Keeps result page.old page.new opened.old opened.new
        (all_balanced opened.old (kept_of_run run.now ++ piece_of tag.entry ∷ []))
        (all_open_after opened.old (kept_of_run run.now ++ piece_of tag.entry ∷ [])) }
{
    match tag.piece() {
        Piece::StartTag {
            name,
            attributes: _,
        } => {
            if is_void_name(name) {
                return write_plain(page, run, Some(tag));
            }
            write_opened(opened, page, run, tag, name)?;
            Ok(Change { undo: 1, close: 0 })
        }
        Piece::EndTag(name) => {
            let close = opened.closed_by(name);
            write_closed(alloc, opened, page, run, close)?;
            Ok(Change { undo: 0, close })
        }
        Piece::Text(_) => write_plain(page, run, Some(tag)),
        Piece::Comment(_) => write_plain(page, run, Some(tag)),
    }
}

/// Writes the kept part of a run of text and of the tag after it, balanced: all of it or nothing.
pub fn write_balanced<A: Allocator + Copy>(
    alloc: A,
    opened: &mut OpenElements<A>,
    page: &mut Writer<A>,
    run: &str,
    tag: Option<Writable<'_>>,
) -> Result<Change, WriteError>
    ensures { Keeps result page.old page.new opened.old opened.new
        (all_balanced opened.old (kept_of_run run.now ++ piece_where tag.entry))
        (all_open_after opened.old (kept_of_run run.now ++ piece_where tag.entry)) }
{
    match tag {
        None => write_plain(page, run, None),
        Some(tag) => write_piece(alloc, opened, page, run, tag),
    }
}
