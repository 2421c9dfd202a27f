//! Whether a run of text and a tag fit in the tree of a page as they are.
ghost use Rattle.std.specs.Prelude.{◌≡◌, List, [], ◌∷◌, ◌++◌, chars, true};
ghost use Rattle.html5write.specs.Pieces.{NameAndValue};
ghost use Rattle.html5write.specs.Pieces.Piece.{EndTagPiece, StartTagPiece, TextPiece};
ghost use Rattle.html5cleaner.specs.Fits.{ComesFirst, IsFit};
ghost use Rattle.html5cleaner.specs.Kept.{piece_where};

use html5tree::names::ElementName;
use html5tree::nesting::Nesting;
use html5write::{Piece, Writable};
use std::alloc::Allocator;

/// What pieces that fit do with the open elements.
#[derive(Clone, Copy, Debug, PartialEq, Eq)]
pub enum Fit {
    /// Not all of them fit.
    Unfit,
    /// They open no element and close none.
    Stays,
    /// They open an element of this name.
    Opens(ElementName),
    /// They close the innermost element.
    Closes,
}

// Whether a text fits. It opens no element and closes none.
fn text_fits<A: Allocator>(nesting: &Nesting<A>, text: &str) -> bool
    ensures { result ≡ true → ComesFirst nesting.now (TextPiece (chars text.now) ∷ []) }
{
    let _open = nesting.depth();
    nesting.text_fits(text)
}

// Whether a run of text fits, if there is one.
fn run_fits<A: Allocator>(nesting: &Nesting<A>, run: &Option<Writable<'_>>) -> bool
    ensures { result ≡ true → ComesFirst nesting.now (piece_where run.now) }
{
    let Some(run) = run else {
        return true;
    };
    match run.piece() {
        Piece::Text(text) => text_fits(nesting, text),
        _ => false,
    }
}

// Whether a start tag of this name fits, where at most this many elements may be open.
fn fit_of_start_tag<A: Allocator>(nesting: &Nesting<A>, limit: usize, name: &str) -> Fit
    requires { limit ≡ nesting.now.limit }
    ensures { (attributes : List NameAndValue)
        → IsFit result nesting.now (StartTagPiece (chars name.now) attributes ∷ []) }
{
    let Some(element) = ElementName::find(name) else {
        return Fit::Unfit;
    };
    if !nesting.start_fits(element) {
        return Fit::Unfit;
    }
    let open = nesting.depth();
    if element.kind().is_void() {
        return Fit::Stays;
    }
    if open < limit {
        Fit::Opens(element)
    } else {
        Fit::Unfit
    }
}

// Whether an end tag of this name fits.
fn fit_of_end_tag<A: Allocator>(nesting: &Nesting<A>, name: &str) -> Fit
    ensures { IsFit result nesting.now (EndTagPiece (chars name.now) ∷ []) }
{
    let Some(element) = ElementName::find(name) else {
        return Fit::Unfit;
    };
    if !nesting.end_fits(element) {
        return Fit::Unfit;
    }
    let _open = nesting.depth();
    Fit::Closes
}

// Whether a tag fits, if there is one.
fn fit_of_tag<A: Allocator>(nesting: &Nesting<A>, limit: usize, tag: &Option<Writable<'_>>) -> Fit
    requires { limit ≡ nesting.now.limit }
    ensures { IsFit result nesting.now (piece_where tag.now) }
{
    let Some(tag) = tag else {
        return Fit::Stays;
    };
    match tag.piece() {
        Piece::StartTag {
            name,
            attributes: _,
        } => fit_of_start_tag(nesting, limit, name),
        Piece::EndTag(name) => fit_of_end_tag(nesting, name),
        _ => Fit::Unfit,
    }
}

/// Whether a run of text and the tag after it fit, where at most this many elements may be open.
pub fn fit_of<A: Allocator>(
    nesting: &Nesting<A>,
    limit: usize,
    run: &Option<Writable<'_>>,
    tag: &Option<Writable<'_>>,
) -> Fit
    requires { limit ≡ nesting.now.limit }
    ensures { IsFit result nesting.now (piece_where run.now ++ piece_where tag.now) }
{
    if run_fits(nesting, run) {
        fit_of_tag(nesting, limit, tag)
    } else {
        Fit::Unfit
    }
}
