//! How far bytes were decoded.
ghost use Rattle.std.specs.Prelude.{◌≡◌, ◌+◌, ◌-◌, ◌^◌, IfSome, IsNone, false, min};
ghost use Rattle.decoded_source.specs.Lines.{ends_in_cr, line_ends};

use crate::lines::line_ends;

/// How many bytes were decoded, how many of them the whole characters take, how many lines end in their text, and
/// whether that ends in CR. A number past `u64::MAX` counts as `u64::MAX`.
#[derive(Clone, Copy, Debug, PartialEq, Eq)]
pub struct Place {
    pub decoded: u64,
    pub whole: u64,
    pub line_ends: u64,
    pub after_cr: bool,
}

impl Place {
    /// Nothing was decoded.
    pub fn start() -> Place
        ensures { result ≡ record { decoded = 0; whole = 0; line_ends = 0; after_cr = false } }
    {
        Place {
            decoded: 0,
            whole: 0,
            line_ends: 0,
            after_cr: false,
        }
    }

    /// The same after a piece, of which this many bytes were decoded to this text, and after that many of them the
    /// last whole character ends, if one ends in it.
    pub fn after(self, len: usize, whole: Option<usize>, text: &[u8]) -> Place
        ensures decoded { result.decoded ≡ min (self.decoded + len) (2 ^ 64 - 1) }
        ensures whole { IfSome whole (λ whole. result.whole ≡ min (self.decoded + whole) (2 ^ 64 - 1)) }
        ensures none { IsNone whole → result.whole ≡ self.whole }
        ensures line { result.line_ends ≡ min (self.line_ends + line_ends self.after_cr text.now) (2 ^ 64 - 1) }
        ensures after_cr { result.after_cr ≡ ends_in_cr self.after_cr text.now }
    {
        let whole = match whole {
            Some(whole) => self.decoded.saturating_add(whole as u64),
            None => self.whole,
        };
        let ends = line_ends(self.after_cr, text);
        Place {
            decoded: self.decoded.saturating_add(len as u64),
            whole,
            line_ends: self.line_ends.saturating_add(ends.count as u64),
            after_cr: ends.after_cr,
        }
    }
}
