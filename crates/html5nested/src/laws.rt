//! What is built of a page that is written is the nesting of its pieces.
ghost use Rattle.std.specs.Prelude.{◌≡◌, ℕ, Bool, List, [], false, true};
ghost use Rattle.html5reading.specs.Reading.{all_messages};
ghost use Rattle.html5reading.specs.Start.{Input, Start, Rules};
ghost use Rattle.html5sinks.specs.Replies.{FollowsStandard};
ghost use Rattle.html5tree.specs.Construction.{parsed, tree_in, tree_of};
ghost use Rattle.html5tree.specs.Fitting.{all_fit, each_fits};
ghost use Rattle.html5tree.specs.Hosts.{IsBack, IsHost, put_at};
ghost use Rattle.html5tree.specs.Items.{Item, balanced, keeps_newlines, read_items, whole_texts};
ghost use Rattle.html5tree.specs.Normal.{normal, stays_within};
ghost use Rattle.html5tree.specs.Page.{names};
ghost use Rattle.html5tree.specs.Parser.{Parser};
ghost use Rattle.html5tree.specs.Tree.{Path, nesting, whole};
ghost use Rattle.html5write.specs.Pieces as pieces;
ghost use Rattle.html5write.specs.Pieces.{pieces_text};
ghost use Rattle.html5write.specs.Told.{IsOpen, IsReadBack, KeepsOn, pieces_messages, proper};
ghost use Rattle.markup5ever.specs.NamedReferences.{IsTable};
ghost use Rattle.html5nested.specs.NestedPages.{IsFinished};
ghost use Rattle.html5nested.specs.PageItems.{has_no_comment, items_of, items_told};

use html5ever_interface::interface::sink::TokenSink;
use html5ever_interface::interface::token::Token;
use html5tree::laws::{normal_items, tree_of_fitting, tree_of_fitting_in_host};
use html5write::Writer;
use html5write::laws::whole_text;
use std::alloc::Allocator;

/// A page of pieces, read by itself with any table by any sink that keeps on after their tags. Its messages have the
/// items of the pieces, where adjacent texts are one (`items`). If they all fit, and no piece is a comment, the tree
/// that is built of the messages is their nesting (`tree`).
pub fn tree_of_written_page<S: TokenSink<Token<A>>, A: Allocator>()
    ensures items { (rules : Rules) (K : Start) (s : S.State) (pieces : List pieces.Piece)
        → IsReadBack {S = S.State} rules K S.means.reply pieces
        → whole_texts (items_told (proper (all_messages S.means rules K s (pieces_text pieces))))
        ≡ whole_texts (items_of pieces) }
    ensures tree { (rules : Rules) (K : Start) (s : S.State) (pieces : List pieces.Piece)
        → IsReadBack {S = S.State} rules K S.means.reply pieces
        → has_no_comment pieces ≡ true → all_fit [] (items_of pieces) ≡ true
        → tree_of (items_told (proper (all_messages S.means rules K s (pieces_text pieces))))
        ≡ nesting (read_items false (items_of pieces)) }
{
    whole_text::<S, A>();
    tree_of_fitting();
}

/// The same of a part of a page, wherever it is put in Data (`html5write::laws::all_pieces` says what it tells there),
/// and whatever is open there. In a host (`IsHost`) its items are built in place, if they fit above the open elements
/// and close all that they open, and nothing else. They are built as they are read, where a newline straight after the
/// start tag of a `pre` is ignored (`as_read`), or as they stand if there is none (`in_place`). Its open elements,
/// insertion mode, form element pointer and foster parenting are afterwards what they were (`back`).
pub fn tree_of_written_part()
    ensures items { (exact : Bool) (input : Input) (pieces : List pieces.Piece)
        → whole_texts (items_told (proper (pieces_messages exact input pieces))) ≡ whole_texts (items_of pieces) }
    ensures in_place { (exact : Bool) (input : Input) (pieces : List pieces.Piece) (fresh : Bool) (p : Parser) (path : Path)
        → IsHost p path → has_no_comment pieces ≡ true
        → each_fits (names p.page.opened) (items_of pieces) ≡ true → balanced 0 (items_of pieces) ≡ true
        → keeps_newlines fresh (items_of pieces) ≡ true
        → tree_in (parsed fresh p (items_told (proper (pieces_messages exact input pieces))))
        ≡ whole (put_at path (nesting (items_of pieces))) }
    ensures as_read { (exact : Bool) (input : Input) (pieces : List pieces.Piece) (fresh : Bool) (p : Parser) (path : Path)
        → IsHost p path → each_fits (names p.page.opened) (items_of pieces) ≡ true → balanced 0 (items_of pieces) ≡ true
        → tree_in (parsed fresh p (items_told (proper (pieces_messages exact input pieces))))
        ≡ whole (put_at path (nesting (read_items fresh (items_of pieces)))) }
    ensures back { (exact : Bool) (input : Input) (pieces : List pieces.Piece) (fresh : Bool) (p : Parser) (path : Path)
        → IsHost p path → each_fits (names p.page.opened) (items_of pieces) ≡ true → balanced 0 (items_of pieces) ≡ true
        → IsBack p (parsed fresh p (items_told (proper (pieces_messages exact input pieces)))) }
{
    tree_of_fitting_in_host();
}

/// A sink that follows the standard keeps on after all tags of pieces that fit: none of the 94 elements has raw text.
pub fn fitting_pieces_are_markup<S: TokenSink<Token<A>>, A: Allocator>()
    ensures { (pieces : List pieces.Piece) → all_fit [] (items_of pieces) ≡ true
        → FollowsStandard {S = S.State} S.means.reply → KeepsOn {S = S.State} S.means.reply pieces }
{}

/// The page of a nested writer at its end (`IsFinished`, which `NestedWriter::finish` gives). All of it fits, with no
/// more elements open than the limit. The tree that is built of its messages is the nesting of the normaliser's output
/// for the items that were handed in.
pub fn tree_of_nested_page<S: TokenSink<Token<A>>, A: Allocator>()
    ensures fits { (limit : ℕ) (pieces : List pieces.Piece) (items : List Item) → IsFinished limit pieces items
        → all_fit [] (items_of pieces) ≡ true }
    ensures within { (limit : ℕ) (pieces : List pieces.Piece) (items : List Item) → IsFinished limit pieces items
        → stays_within limit [] (items_of pieces) ≡ true }
    ensures tree { (rules : Rules) (K : Start) (s : S.State) (limit : ℕ) (pieces : List pieces.Piece) (items : List Item)
        → IsReadBack {S = S.State} rules K S.means.reply pieces → IsFinished limit pieces items
        → tree_of (items_told (proper (all_messages S.means rules K s (pieces_text pieces))))
        ≡ nesting (read_items false (normal limit items)) }
{
    tree_of_written_page::<S, A>();
    normal_items();
}

/// The same of the page of a writer, wherever it is read in Data with no CR directly before, by any table and a
/// sink that follows the standard.
pub fn tree_of_finished_page<S: TokenSink<Token<A>>, A: Allocator + Copy>(writer: &Writer<A>)
    ensures { (rules : Rules) (K : Start) (s : S.State) (limit : ℕ) (items : List Item) → IsTable rules.references → IsOpen K
        → FollowsStandard {S = S.State} S.means.reply → IsFinished limit writer.now items
        → tree_of (items_told (proper (all_messages S.means rules K s (pieces_text writer.now))))
        ≡ nesting (read_items false (normal limit items)) }
{
    let _written = writer.as_str();
    fitting_pieces_are_markup::<S, A>();
    tree_of_nested_page::<S, A>();
}
