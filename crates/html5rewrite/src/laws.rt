//! How a rewritten page is read.
ghost use Rattle.std.specs.Prelude.{◌≡◌, List, [], ◌∷◌, ◌++◌, true};
ghost use Rattle.std.specs.List.{list_all};
ghost use Rattle.html5ever_interface.specs.Sink.{Message};
ghost use Rattle.html5ever_interface.specs.Token.Told.{End};
ghost use Rattle.html5reading.specs.Reading.{all_messages};
ghost use Rattle.html5reading.specs.Start.{Start, Rules};
ghost use Rattle.html5grammar.specs.Anywhere.{TellsByItself};
ghost use Rattle.html5write.specs.Pieces.{Piece, pieces_text};
ghost use Rattle.html5write.specs.Told.{KeepsOn, pieces_messages, pieces_tokens, proper, start_after_pieces};
ghost use Rattle.html5rewrite.specs.Plain.{IsReadBackPlain, is_plain};
ghost use Rattle.html5sinks.specs.Replies.{FollowsStandard};
ghost use Rattle.html5rewrite.specs.Rewriter.{Rewriter};
ghost use Rattle.html5rewrite.specs.Writing.{pieces_of};

use html5ever_interface::interface::sink::TokenSink;
use html5ever_interface::interface::token::Token;
use html5write::laws::{all_pieces, whole_text};
use std::alloc::Allocator;

/// A page of plain pieces is read, except for errors, as exactly these pieces and the end. The table may be
/// any, and the sink any that keeps on after their tags, at once or after a pause.
pub fn rewritten_page<S: TokenSink<Token<A>>, A: Allocator>()
    ensures { (rules : Rules) (K : Start) (s : S.State) (pieces : List Piece)
        → IsReadBackPlain {S = S.State} rules K S.means.reply pieces
        → proper (all_messages S.means rules K s (pieces_text pieces)) ≡ pieces_tokens pieces ++ End ∷ [] }
{
    whole_text::<S, A>();
}

/// Wherever it is put in a page, in Data and with no CR directly before it, such a page tells its pieces. It
/// leaves nothing open: the text after it is read as it would be without it.
pub fn rewritten_part<S: TokenSink<Token<A>>, A: Allocator>()
    ensures { (rules : Rules) (K : Start) (s : S.State) (pieces : List Piece)
        → IsReadBackPlain {S = S.State} rules K S.means.reply pieces
        → TellsByItself S.means rules K s (pieces_text pieces) (pieces_messages rules.exact K.input pieces)
        (start_after_pieces K pieces) }
{
    all_pieces::<S, A>();
}

/// A sink that follows the standard keeps on after all tags of plain pieces.
pub fn plain_pieces_are_markup<S: TokenSink<Token<A>>, A: Allocator>()
    ensures { (pieces : List Piece) → list_all is_plain pieces ≡ true
        → FollowsStandard {S = S.State} S.means.reply → KeepsOn {S = S.State} S.means.reply pieces }
{}

/// The pieces that any rewriter keeps of any messages, as those of a page or of a prefix of it, are
/// plain.
pub fn written_pieces_are_plain()
    ensures { (rewriter : Rewriter) (M : List Message) → list_all is_plain (pieces_of rewriter M) ≡ true }
{}
