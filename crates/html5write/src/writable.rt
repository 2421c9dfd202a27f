//! Pieces that were looked at.
ghost use Rattle.std.specs.Prelude.{◌≡◌, ◌++◌, Err, IfOk, None, Ok, OnErr, OnOk, Some, encode_utf8_all, string_bytes, true};
ghost use Rattle.markup5ever.specs.Lists.{BeginsWith};
ghost use Rattle.html5write.specs.Looked.{IsPlainPiece};
ghost use Rattle.html5write.specs.Pieces.{piece_text};
ghost use Rattle.html5write.specs.Refusals.{refusal_of};
ghost use Rattle.html5write.specs.Writing.{piece_of};
ghost use Rattle.html5write.specs.declared.error.WriteError.{WriteError};

use crate::appending::push_piece;
use crate::checks::refusal_of;
use crate::error::WriteError;
use crate::piece::Piece;
use crate::runs::is_plain;
use markup5ever::text::{push_long, push_text};
use std::alloc::{AllocError, Allocator};
use std::marker::Model;

// Texts of this many bytes are appended without a call that copies bytes.
const SHORT: usize = 8;

/// A piece that was looked at, and can be written. Contracts see the piece.
#[derive(Drop)]
pub struct Writable<'a> {
    piece: Piece<'a>,
    // Whether it was seen to be a text that is written as it is.
    is_plain: bool,
}

impl<'a> Model for Writable<'a> {
    ghost use Rattle.html5write.specs.declared.piece.Piece.{Piece};
    ghost use Rattle.html5write.specs.Looked.{IsLookedAt};

    ghost Value = { Piece };

    ghost view = { λ w. w.piece };

    ghost invariant = { λ w. IsLookedAt w.piece w.is_plain };
}

// Whether the piece is seen to be a text that is written as it is.
#[inline(always)]
fn is_plain_piece(piece: &Piece<'_>) -> bool
    ensures { result ≡ true → IsPlainPiece piece.now }
{
    match piece {
        Piece::Text(text) => is_plain(text),
        Piece::StartTag {
            name: _,
            attributes: _,
        } => false,
        Piece::EndTag(_) => false,
        Piece::Comment(_) => false,
    }
}

impl<'a> Writable<'a> {
    /// Looks at a piece: it is writable if nothing speaks against writing it.
    #[inline(always)]
    pub fn new(piece: Piece<'a>) -> Result<Writable<'a>, WriteError>
        ensures same { IfOk result (λ writable. writable ≡ piece.entry) }
        ensures writable { refusal_of (piece_of piece.entry) ≡ None → result ≡ Ok piece.entry }
        ensures refused { (error : WriteError) → refusal_of (piece_of piece.entry) ≡ Some error → result ≡ Err error }
    {
        let is_plain = is_plain_piece(&piece);
        if is_plain {
            return Ok(Writable { piece, is_plain });
        }
        match refusal_of(&piece) {
            Some(error) => Err(error),
            None => Ok(Writable { piece, is_plain }),
        }
    }

    /// The piece.
    #[inline(always)]
    pub fn piece(&self) -> Piece<'a>
        ensures same { result ≡ self.now }
        ensures writable { refusal_of (piece_of result) ≡ None }
    {
        self.piece
    }

    /// Appends the piece to a text. Where memory is refused, a part may be left.
    pub(crate) fn push_to<A: Allocator>(&self, out: &mut String<A>) -> Result<(), AllocError>
        ensures ok { OnOk result (string_bytes out.new
            ≡ string_bytes out.old ++ encode_utf8_all (piece_text (piece_of self.now))) }
        ensures err { OnErr result (BeginsWith (string_bytes out.new) (string_bytes out.old)) }
    {
        if self.is_plain {
            match self.piece {
                Piece::Text(text) if text.len() <= SHORT => return push_text(out, text),
                Piece::Text(text) => return push_long(out, text),
                _ => {}
            }
        }
        push_piece(out, &self.piece)
    }
}
