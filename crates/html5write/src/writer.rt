//! A writer of pages.
ghost use Rattle.std.specs.Prelude.{◌≡◌, ◌++◌, ◌∷◌, [], List, IfOk, IsOkUnless, OnErr, OnOk, chars, encode_utf8_all, map, string_bytes, true};
ghost use Rattle.std.specs.List.{list_all};
ghost use Rattle.markup5ever.specs.Lists.{BeginsWith};
ghost use Rattle.html5write.specs.Pieces as pieces;
ghost use Rattle.html5write.specs.Pieces.{can_write, pieces_text, piece_text};
ghost use Rattle.html5write.specs.Pieces.Piece.{CommentPiece, EndTagPiece, StartTagPiece, TextPiece};
ghost use Rattle.html5write.specs.Writing.{IsTextOf, Writes, WritesBoth, attribute_of, piece_of};
ghost use Rattle.html5write.specs.declared.error.WriteError.TheVariants.{Memory};

use crate::appending::whole_or_nothing;
use crate::error::WriteError;
use crate::piece::{Attribute, Piece};
use crate::trail::Trail;
use crate::writable::Writable;
use std::alloc::{AllocError, Allocator, Global};
use std::marker::Model;

// Appends two pieces. Where memory is refused, a part may be left.
fn push_both<A: Allocator>(
    out: &mut String<A>,
    first: &Writable<'_>,
    second: &Writable<'_>,
) -> Result<(), AllocError>
    ensures ok { OnOk result (string_bytes out.new ≡ string_bytes out.old
        ++ (encode_utf8_all (piece_text (piece_of first.now)) ++ encode_utf8_all (piece_text (piece_of second.now)))) }
    ensures err { OnErr result (BeginsWith (string_bytes out.new) (string_bytes out.old)) }
{
    first.push_to(out)?;
    second.push_to(out)
}

/// A page that is written piece by piece. Contracts see the pieces that it has, in order: all of them can
/// be written, and so `laws::all_pieces` and `laws::whole_text` say how the page is read.
#[derive(Drop)]
pub struct Writer<A: Allocator = Global> {
    written: String<A>,
    trail: Trail,
}

impl<A: Allocator> Model for Writer<A> {
    ghost Value = { List pieces.Piece };

    ghost view = { λ w. w.trail.pieces };

    ghost invariant = { λ w. IsTextOf (string_bytes w.written) w.trail.pieces };
}

impl<A: Allocator + Copy> Writer<A> {
    /// A writer of a page on which nothing stands yet.
    pub fn new(alloc: A) -> Writer<A>
        ensures { result ≡ [] }
    {
        Writer {
            written: String::new(alloc),
            trail: Trail::new(),
        }
    }

    /// Writes a piece after the others. If it is refused, nothing is written.
    pub fn write(&mut self, piece: &Piece<'_>) -> Result<(), WriteError>
        ensures { Writes result self.old self.new (piece_of piece.now) }
    {
        let piece = Writable::new(*piece)?;
        self.put(&piece)
    }

    /// Writes a piece that was looked at after the others.
    pub fn put(&mut self, piece: &Writable<'_>) -> Result<(), WriteError>
        ensures written { OnOk result (self.new ≡ self.old ++ piece_of piece.now ∷ []) }
        ensures unchanged { OnErr result (self.new ≡ self.old) }
        ensures memory { IsOkUnless result Memory }
    {
        let len = self.written.len();
        let appended = piece.push_to(&mut self.written);
        whole_or_nothing(&mut self.written, len, appended)?;
        self.trail.add(&piece.piece());
        Ok(())
    }

    /// Writes two pieces after the others, one after the other. Where one is refused, neither is written.
    pub fn write_both(&mut self, first: &Piece<'_>, second: &Piece<'_>) -> Result<(), WriteError>
        ensures { WritesBoth result self.old self.new (piece_of first.now) (piece_of second.now) }
    {
        let first = Writable::new(*first)?;
        let second = Writable::new(*second)?;
        self.put_both(&first, &second)
    }

    /// Writes two pieces that were looked at after the others, one after the other: both, or none where memory
    /// is refused.
    pub fn put_both(
        &mut self,
        first: &Writable<'_>,
        second: &Writable<'_>,
    ) -> Result<(), WriteError>
        ensures written { OnOk result
            (self.new ≡ (self.old ++ piece_of first.now ∷ []) ++ piece_of second.now ∷ []) }
        ensures unchanged { OnErr result (self.new ≡ self.old) }
        ensures memory { IsOkUnless result Memory }
    {
        let len = self.written.len();
        let appended = push_both(&mut self.written, first, second);
        whole_or_nothing(&mut self.written, len, appended)?;
        self.trail.add(&first.piece());
        self.trail.add(&second.piece());
        Ok(())
    }

    /// Writes the pieces of another page after the others: all of them, or none where memory is refused.
    pub fn append(&mut self, other: &Writer<A>) -> Result<(), WriteError>
        ensures written { OnOk result (self.new ≡ self.old ++ other.now) }
        ensures unchanged { OnErr result (self.new ≡ self.old) }
        ensures memory { IsOkUnless result Memory }
    {
        self.written.push_str(other.written.as_str())?;
        self.trail.add_all(&other.trail);
        Ok(())
    }

    /// Takes all pieces away. Their memory stays, for those that are written next.
    pub fn clear(&mut self)
        ensures { self.new ≡ [] }
    {
        self.written.clear();
        self.trail = Trail::new();
    }

    /// Writes a text, as it is to be read.
    pub fn text(&mut self, text: &str) -> Result<(), WriteError>
        ensures { Writes result self.old self.new (TextPiece (chars text.now)) }
    {
        self.write(&Piece::Text(text))
    }

    /// Writes a start tag with these attributes, whose values are as they are to be read.
    pub fn start_tag(&mut self, name: &str, attributes: &[Attribute<'_>]) -> Result<(), WriteError>
        ensures { Writes result self.old self.new
            (StartTagPiece (chars name.now) (map attribute_of attributes.now)) }
    {
        self.write(&Piece::StartTag { name, attributes })
    }

    /// Writes an end tag.
    pub fn end_tag(&mut self, name: &str) -> Result<(), WriteError>
        ensures { Writes result self.old self.new (EndTagPiece (chars name.now)) }
    {
        self.write(&Piece::EndTag(name))
    }

    /// Writes a comment.
    pub fn comment(&mut self, text: &str) -> Result<(), WriteError>
        ensures { Writes result self.old self.new (CommentPiece (chars text.now)) }
    {
        self.write(&Piece::Comment(text))
    }

    /// The page as it stands.
    pub fn as_str(&self) -> &str
        ensures written { chars result.now ≡ pieces_text self.now }
        ensures can { list_all can_write self.now ≡ true }
    {
        self.written.as_str()
    }

    /// The page.
    pub fn into_string(self) -> String<A>
        ensures written { chars (string_bytes result) ≡ pieces_text self }
        ensures can { list_all can_write self ≡ true }
    {
        self.written
    }
}
