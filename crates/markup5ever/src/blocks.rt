//! Searches for the first byte of a kind, 16 bytes a step.
ghost use Rattle.std.specs.Prelude.{ℕ, ◌≡◌, ◌+◌, ◌<◌, ◌≤◌, ◌==◌, if◌then◌else◌, length, slice_index};
ghost use Rattle.std.specs.Int.{w64, trailing_zeros};
ghost use Rattle.markup5ever.specs.Blocks.{NoneWithin, IsFirstFrom};

/// How many bytes are looked at in one step.
pub const BLOCK: usize = 16;

/// The place of the lowest bit that is set, or 16.
#[inline(always)]
pub fn lowest_bit(mask: u64) -> usize
    ensures { result ≡ (if mask == 0 then BLOCK else trailing_zeros w64 mask) }
{
    if mask == 0 {
        BLOCK
    } else {
        mask.trailing_zeros() as usize
    }
}

/// A kind of bytes that is searched for.
pub trait Sought {
    /// The byte is of the kind.
    ghost is_sought: { Self → ℕ → Type 0 };

    /// How many of the 16 bytes from this place on come before the first of the kind.
    fn first_in_block(&self, bytes: &[u8], at: usize) -> usize
        requires { at + BLOCK ≤ length bytes.now }
        ensures within { result ≤ BLOCK }
        ensures none_before { NoneWithin (is_sought self.now) bytes.now at (at + result) }
        ensures stops { result < BLOCK → is_sought self.now (slice_index bytes.now (at + result)) };

    /// The place of the first byte of the kind from this one on, or the end. Fewer than 16 bytes are left.
    fn first_in_rest(&self, bytes: &[u8], from: usize) -> usize
        requires { from ≤ length bytes.now }
        ensures { IsFirstFrom (is_sought self.now) bytes.now from result };
}

/// The place of the first byte of the kind from this one on, or the end.
#[inline(always)]
pub fn first_from<S: Sought>(sought: &S, bytes: &[u8], from: usize) -> usize
    requires { from ≤ length bytes.now }
    ensures { IsFirstFrom (S.is_sought sought.now) bytes.now from result }
{
    let mut at = from;
    while BLOCK <= bytes.len() - at {
        let step = sought.first_in_block(bytes, at);
        if step < BLOCK {
            return at + step;
        }
        // A constant, so that no block waits for the one before it.
        at += BLOCK;
    }
    sought.first_in_rest(bytes, at)
}
