//! What is written is read again as what it was written for.
ghost use Rattle.std.specs.Prelude.{◌≡◌, ℕ, List, [], ◌∷◌, ◌++◌, encode_utf8_all, false, true};
ghost use Rattle.std.specs.List.{list_all};
ghost use Rattle.std.specs.Option.{is_none};
ghost use Rattle.html5ever_interface.specs.Sink.{on_line};
ghost use Rattle.html5ever_interface.specs.Token.Told.{End};
ghost use Rattle.html5reading.specs.NormalisedText.{normalised, line_after};
ghost use Rattle.html5reading.specs.Reading.{all_messages};
ghost use Rattle.html5reading.specs.Start.{Start, Rules};
ghost use Rattle.html5reading.specs.Start.Mode.{Data};
ghost use Rattle.html5reading.specs.Start.Open.{Between};
ghost use Rattle.html5grammar.specs.Anywhere.{TellsByItself, start_beyond};
ghost use Rattle.html5grammar.specs.Spelled.{spelled_messages};
ghost use Rattle.markup5ever.specs.NamedReferences.{IsTable};
ghost use Rattle.html5write.specs.Escaped.{escaped_text};
ghost use Rattle.html5write.specs.Pieces as pieces;
ghost use Rattle.html5write.specs.Pieces.{NameAndValue, piece_text, pieces_text, can_write, has_no_null};
ghost use Rattle.html5write.specs.Pieces.Piece.{StartTagPiece, EndTagPiece, CommentPiece};
ghost use Rattle.html5write.specs.Refusals.{refusal_of};
ghost use Rattle.html5write.specs.Told.{IsOpen, IsPieceReadBack, IsReadBack, KeepsOn, pieces_messages, pieces_tokens, piece_tokens, is_without_return, proper, spell_comment, spell_end_tag, spell_start_tag, start_after_pieces, text_messages, tokens_of};
ghost use Rattle.html5write.specs.Writing.{piece_of, tokens_said};

use crate::piece::Piece;
use crate::utf8::{are_texts, is_text};
use crate::writer::Writer;
use html5ever_interface::interface::sink::TokenSink;
use html5ever_interface::interface::token::Token;
use std::alloc::Allocator;

/// A written text, wherever it stands in Data, tells that text, however the text after it goes on.
/// No table is needed.
pub fn text<S: TokenSink<Token<A>>, A: Allocator>()
    ensures { (rules : Rules) (K : Start) (s : S.State) (text : List ℕ) → IsOpen K → has_no_null text ≡ true
        → TellsByItself S.means rules K s (escaped_text text) (text_messages rules.exact K.input text)
        (start_beyond K (escaped_text text) (Between Data) K.last_start_tag) }
{}

/// A written start tag tells that tag at its `>`: its name, and its attributes in order, each
/// with its value.
pub fn start_tag<S: TokenSink<Token<A>>, A: Allocator>()
    ensures { (rules : Rules) (K : Start) (s : S.State) (name : List ℕ) (attributes : List NameAndValue)
        → IsPieceReadBack {S = S.State} rules K S.means.reply (StartTagPiece name attributes)
        → TellsByItself S.means rules K s (piece_text (StartTagPiece name attributes))
        (spelled_messages rules.exact K.input [] (spell_start_tag rules.exact name attributes))
        (start_beyond K (piece_text (StartTagPiece name attributes)) (Between Data) (encode_utf8_all name)) }
{}

/// A written end tag tells that tag at its `>`.
pub fn end_tag<S: TokenSink<Token<A>>, A: Allocator>()
    ensures { (rules : Rules) (K : Start) (s : S.State) (name : List ℕ)
        → IsPieceReadBack {S = S.State} rules K S.means.reply (EndTagPiece name)
        → TellsByItself S.means rules K s (piece_text (EndTagPiece name))
        (spelled_messages rules.exact K.input [] (spell_end_tag name))
        (start_beyond K (piece_text (EndTagPiece name)) (Between Data) K.last_start_tag) }
{}

/// A written comment tells its text at its last character. No table is needed.
pub fn comment<S: TokenSink<Token<A>>, A: Allocator>()
    ensures { (rules : Rules) (K : Start) (s : S.State) (text : List ℕ) → IsOpen K
        → can_write (CommentPiece text) ≡ true
        → TellsByItself S.means rules K s (piece_text (CommentPiece text))
        (spelled_messages rules.exact K.input [] (spell_comment text))
        (start_beyond K (piece_text (CommentPiece text)) (Between Data) K.last_start_tag) }
{}

/// A page that is written piece by piece, wherever it is put in Data, tells its pieces. It leaves nothing
/// open, so the text after it is read as it would be without it.
pub fn all_pieces<S: TokenSink<Token<A>>, A: Allocator>()
    ensures { (rules : Rules) (K : Start) (s : S.State) (pieces : List pieces.Piece)
        → IsReadBack {S = S.State} rules K S.means.reply pieces
        → TellsByItself S.means rules K s (pieces_text pieces) (pieces_messages rules.exact K.input pieces)
        (start_after_pieces K pieces) }
{}

/// A page that is written piece by piece and read by itself tells its pieces and the end. Except for
/// errors these are exactly their tokens: a tag or a comment for each such piece, and each character of
/// a text. Where errors are not exact, and no CR stands in its texts and values, there are no errors.
pub fn whole_text<S: TokenSink<Token<A>>, A: Allocator>()
    ensures messages { (rules : Rules) (K : Start) (s : S.State) (pieces : List pieces.Piece)
        → IsReadBack {S = S.State} rules K S.means.reply pieces
        → all_messages S.means rules K s (pieces_text pieces)
        ≡ pieces_messages rules.exact K.input pieces
        ++ on_line (line_after K.input (normalised K.input (pieces_text pieces))) (End ∷ []) }
    ensures tokens { (rules : Rules) (K : Start) (s : S.State) (pieces : List pieces.Piece)
        → IsReadBack {S = S.State} rules K S.means.reply pieces
        → proper (all_messages S.means rules K s (pieces_text pieces)) ≡ pieces_tokens pieces ++ End ∷ [] }
    ensures silent { (rules : Rules) (K : Start) (s : S.State) (pieces : List pieces.Piece)
        → IsReadBack {S = S.State} rules K S.means.reply pieces
        → rules.exact ≡ false → list_all is_without_return pieces ≡ true
        → tokens_of (all_messages S.means rules K s (pieces_text pieces)) ≡ pieces_tokens pieces ++ End ∷ [] }
{}

/// The page of a writer is such a page: it is read, except for errors, as exactly the pieces that were
/// written and the end.
pub fn read_back<S: TokenSink<Token<A>>, A: Allocator + Copy>(writer: &Writer<A>)
    ensures { (rules : Rules) (K : Start) (s : S.State) → IsTable rules.references → IsOpen K
        → KeepsOn {S = S.State} S.means.reply writer.now
        → proper (all_messages S.means rules K s (pieces_text writer.now)) ≡ pieces_tokens writer.now ++ End ∷ [] }
{
    let _written = writer.as_str();
}

/// A piece is refused for some reason exactly if it can't be written.
pub fn refusals()
    ensures { (piece : pieces.Piece) → is_none (refusal_of piece) ≡ can_write piece }
{}

/// The tokens of a piece have the very bytes of its names, values and texts. It does nothing at run time.
pub fn bytes(piece: &Piece<'_>)
    ensures { piece_tokens (piece_of piece.now) ≡ tokens_said piece.now }
{
    match piece {
        Piece::Text(_) => {}
        Piece::StartTag { name, attributes } => {
            is_text(name);
            are_texts(attributes);
        }
        Piece::EndTag(name) => is_text(name),
        Piece::Comment(text) => is_text(text),
    }
}
