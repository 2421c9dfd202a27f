//! Lines and columns.
ghost use Rattle.std.specs.Prelude.{◌≡◌, ◌↔◌, ◌≤◌, IfSome, IsSome, IsUtf8, length, take};
ghost use Rattle.std.specs.Str.{chars};
ghost use Rattle.html5places.specs.Positions.{along, past_character, position_after, walked};

/// A place in a text as editors count: lines and columns, each from 1.
#[derive(Clone, Copy, Debug, PartialEq, Eq)]
pub struct Position {
    pub line: usize,
    /// By characters.
    pub column: usize,
    /// By UTF-16 code units.
    pub utf16_column: usize,
}

impl Position {
    // The first place of a text.
    pub(crate) const FIRST: Position = Position {
        line: 1,
        column: 1,
        utf16_column: 1,
    };

    // The place after a character, where LF ends a line.
    fn past(self, c: char) -> Position
        ensures { result ≡ past_character self c }
    {
        if c == '\n' {
            return Position {
                line: self.line.saturating_add(1),
                column: 1,
                utf16_column: 1,
            };
        }
        Position {
            line: self.line,
            column: self.column.saturating_add(1),
            utf16_column: self.utf16_column.saturating_add(c.len_utf16()),
        }
    }

    // The place after this many characters of ASCII that end no line.
    pub(crate) fn along(self, count: usize) -> Position
        ensures { result ≡ along self count }
    {
        Position {
            line: self.line,
            column: self.column.saturating_add(count),
            utf16_column: self.utf16_column.saturating_add(count),
        }
    }

    // The place after a character, where each CR LF, and each other CR, is a line break as LF is.
    pub(crate) fn walked(self, after_cr: bool, c: char) -> Position
        ensures { result ≡ walked self after_cr c }
    {
        if after_cr && c == '\n' {
            return self;
        }
        self.past(if c == '\r' { '\n' } else { c })
    }
}

// The place after a text.
fn position_after(text: &str) -> Position
    ensures { result ≡ position_after (chars text.now) }
{
    let mut position = Position::FIRST;
    let mut after_cr = false;
    for c in text.chars() {
        position = position.walked(after_cr, c);
        after_cr = c == '\r';
    }
    position
}

/// The line and the columns of a place in a text, which is a number of bytes. LF, CR, and CR LF as one, end a line. `None`
/// where the place is within a character or past the text's end.
pub fn position_at(text: &str, place: usize) -> Option<Position>
    ensures position { IfSome result (λ position. position ≡ position_after (chars (take place text.now))) }
    ensures found { IsSome result ↔ ((place ≤ length text.now) × IsUtf8 (take place text.now)) }
{
    if place > text.len() {
        return None;
    }
    match std::str::from_utf8(&text.as_bytes()[..place]) {
        Ok(before) => Some(position_after(before)),
        Err(_) => None,
    }
}
