//! The pieces that were written, which contracts alone see.
ghost use Rattle.std.specs.Prelude.{◌≡◌, [], ◌∷◌, ◌++◌};
ghost use Rattle.html5write.specs.Writing.{piece_of};

use crate::piece::Piece;
use ghost_counts::{Follows, Noted, note};
use std::marker::Model;

/// Pieces that contracts alone see. It has none at run time.
#[derive(Drop)]
pub struct Trail {
    noted: Noted<Pieces>,
}

impl Model for Trail {
    ghost use Rattle.html5write.specs.Pieces.{Trailed};

    ghost Value = { Trailed };

    ghost view = { λ trail. record { pieces = trail.noted.value } };
}

// Stands for the pieces that a trail can have.
struct Pieces {}

impl Model for Pieces {
    ghost use Rattle.std.specs.Prelude.{List, []};
    ghost use Rattle.html5write.specs.Pieces as pieces;

    ghost Value = { List pieces.Piece };

    ghost view = { λ _. [] };
}

impl Follows<(), ()> for Pieces {
    ghost follows = { λ _ _. [] };
}

impl Follows<Trail, Trail> for Pieces {
    ghost follows = { λ before more. before.pieces ++ more.pieces };
}

impl<'a> Follows<Trail, Piece<'a>> for Pieces {
    ghost follows = { λ before piece. before.pieces ++ piece_of piece ∷ [] };
}

impl Trail {
    /// A trail of no pieces.
    pub fn new() -> Trail
        ensures { result.pieces ≡ [] }
    {
        Trail {
            noted: note(&(), &()),
        }
    }

    /// Adds the pieces of another trail, which is not read.
    pub fn add_all(&mut self, other: &Trail)
        ensures { self.new.pieces ≡ self.old.pieces ++ other.now.pieces }
    {
        self.noted = note(self, other);
    }

    /// Adds the piece, which is not read.
    pub fn add(&mut self, piece: &Piece<'_>)
        ensures { self.new.pieces ≡ self.old.pieces ++ piece_of piece.now ∷ [] }
    {
        self.noted = note(self, piece);
    }
}
