//! The lines and the columns of many places of a text.
ghost use Rattle.std.specs.Prelude.{◌≡◌, ◌+◌, ◌^◌, ◌<◌, ◌≤◌, ◌==◌, ◌∷◌, ◌++◌, [], true, IfNone, IfSome, length, take};
ghost use Rattle.std.specs.Char.{len_utf8};
ghost use Rattle.std.specs.List.{list_all};
ghost use Rattle.std.specs.Str.{chars};
ghost use Rattle.html5places.specs.Cursor.{cursor_at, cursor_by, is_plain, onward, position_before};
ghost use Rattle.html5places.specs.Positions.{walked};
ghost use Rattle.html5reading.specs.Characters.{carriage_return};

use crate::positions::Position;
use std::marker::Model;

// The first character of a text, and the text after it.
fn split_first(text: &str) -> Option<(char, &str)>
    ensures some { IfSome result (λ split. chars text.now ≡ split.0 ∷ chars split.1.now) }
    ensures none { IfNone result (chars text.now ≡ []) }
{
    let mut rest = text.chars();
    match rest.next() {
        Some(c) => Some((c, rest.as_str())),
        None => None,
    }
}

// Whether a byte is a character of ASCII that ends no line.
fn is_plain(byte: u8) -> bool
    ensures { result ≡ is_plain byte }
{
    byte < 0x80 && byte != b'\n' && byte != b'\r'
}

// How many such bytes these begin with, of this many at most.
fn plain_len(bytes: &[u8], limit: usize) -> usize
    ensures within { result ≤ length bytes.now }
    ensures limit { result ≤ limit }
    ensures plain { list_all is_plain (take result bytes.now) ≡ true }
{
    let len = limit.min(bytes.len());
    for i in 0..len {
        if !is_plain(bytes[i]) {
            return i;
        }
    }
    len
}

// The text after this many such bytes.
fn after_plain(text: &str, len: usize) -> &str
    requires within { len ≤ length text.now }
    requires plain { list_all is_plain (take len text.now) ≡ true }
    ensures { chars text.now ≡ take len text.now ++ chars result.now }
{
    &text[len..]
}

// Where a walk through a text stands.
#[derive(Clone, Copy)]
struct Cursor<'t> {
    rest: &'t str,
    place: usize,
    position: Position,
    after_cr: bool,
}

impl<'t> Cursor<'t> {
    // Before the first character.
    fn new(text: &'t str) -> Cursor<'t>
        ensures { cursor_by result ≡ cursor_at 0 (chars text.now) }
    {
        Cursor {
            rest: text,
            place: 0,
            position: Position::FIRST,
            after_cr: false,
        }
    }

    // After a character.
    fn past(self, c: char, rest: &'t str) -> Cursor<'t>
        requires { self.place + len_utf8 c < 2 ^ 64 }
        ensures { cursor_by result ≡ record {
          rest = chars rest.now;
          place = self.entry.place + len_utf8 c;
          position = walked self.entry.position self.entry.after_cr c;
          after_cr = c == carriage_return;
        } }
    {
        Cursor {
            rest,
            place: self.place + c.len_utf8(),
            position: self.position.walked(self.after_cr, c),
            after_cr: c == '\r',
        }
    }

    // After the plain bytes that come next, up to a place at most.
    fn past_plain(self, to: usize) -> Cursor<'t>
        ensures same { onward to (cursor_by result) ≡ onward to (cursor_by self.entry) }
        ensures shorter { length (chars result.rest.now) ≤ length (chars self.entry.rest.now) }
    {
        let len = plain_len(self.rest.as_bytes(), to.saturating_sub(self.place));
        if len == 0 {
            return self;
        }
        Cursor {
            rest: after_plain(self.rest, len),
            place: self.place + len,
            position: self.position.along(len),
            after_cr: false,
        }
    }

    // After the characters that end at a place or before it.
    fn onward(self, to: usize) -> Cursor<'t>
        ensures { cursor_by result ≡ onward to (cursor_by self.entry) }
    {
        let mut cursor = self.past_plain(to);
        while let Some((c, rest)) = split_first(cursor.rest) {
            if c.len_utf8() > to.saturating_sub(cursor.place) {
                return cursor;
            }
            cursor = cursor.past(c, rest).past_plain(to);
        }
        cursor
    }
}

/// The lines and the columns of the places of a text. Places in ascending order are found in one pass over it. Contracts see
/// the text's characters.
#[derive(Drop)]
pub struct Positions<'t> {
    text: &'t str,
    // The place of the last query.
    asked: usize,
    cursor: Cursor<'t>,
}

impl<'t> Model for Positions<'t> {
    ghost use Rattle.std.specs.Prelude.{◌≡◌, ℕ, List};
    ghost use Rattle.std.specs.Str.{chars};
    ghost use Rattle.html5places.specs.Cursor.{cursor_at, cursor_by};

    ghost Value = { List ℕ };

    ghost view = { λ p. chars p.text.now };

    ghost invariant = { λ p. cursor_by p.cursor ≡ cursor_at p.asked (chars p.text.now) };
}

impl<'t> Positions<'t> {
    /// Those of a text.
    pub fn new(text: &'t str) -> Positions<'t>
        ensures { result ≡ chars text.now }
    {
        Positions {
            text,
            asked: 0,
            cursor: Cursor::new(text),
        }
    }

    // The cursor from which to walk to a place.
    fn cursor_before(&self, place: usize) -> Cursor<'t>
        ensures { onward place (cursor_by result) ≡ cursor_at place self.now }
    {
        if place < self.asked {
            Cursor::new(self.text)
        } else {
            self.cursor
        }
    }

    /// The line and the columns of a place, which is a number of bytes. Within a character they are those of the
    /// character, and past the text's end those of the end.
    pub fn at(&mut self, place: usize) -> Position
        ensures position { result ≡ position_before place self.old }
        ensures text { self.new ≡ self.old }
    {
        self.cursor = self.cursor_before(place).onward(place);
        self.asked = place;
        self.cursor.position
    }
}
