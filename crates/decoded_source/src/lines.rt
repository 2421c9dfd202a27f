//! The lines of a text.
ghost use Rattle.std.specs.Prelude.{◌≡◌, ◌≤◌, length};
ghost use Rattle.decoded_source.specs.Lines.{ends_in_cr, ends_line, line_ends};

/// How many lines end in bytes, and whether the text after them follows a CR.
#[derive(Clone, Copy, Debug, PartialEq, Eq)]
pub struct LineEnds {
    pub count: usize,
    pub after_cr: bool,
}

// Whether a line ends at a byte, which stands after a CR or not.
fn ends_line(after_cr: bool, byte: u8) -> bool
    ensures { result ≡ ends_line after_cr byte }
{
    byte == b'\r' || (byte == b'\n' && !after_cr)
}

/// The ends of lines in bytes that stand after a CR or not. A line ends at LF, at CR, or at both where LF follows CR.
pub fn line_ends(after_cr: bool, bytes: &[u8]) -> LineEnds
    ensures count { result.count ≡ line_ends after_cr bytes.now }
    ensures after_cr { result.after_cr ≡ ends_in_cr after_cr bytes.now }
    ensures bound { result.count ≤ length bytes.now }
{
    let mut after_cr = after_cr;
    let mut count = 0;
    for byte in bytes {
        if ends_line(after_cr, *byte) {
            count += 1;
        }
        after_cr = *byte == b'\r';
    }
    LineEnds { count, after_cr }
}
