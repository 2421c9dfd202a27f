//! Searches for what can't be written as it is, many bytes a step.
ghost use Rattle.std.specs.Prelude.{◌≡◌, ◌+◌, ◌≤◌, true, false, length};
ghost use Rattle.markup5ever.specs.Blocks.{IsFirstFrom};
ghost use Rattle.html5write.specs.Runs.{BeginsPlain, IsNull, IsPlainText, IsStop, NoStopWithin, is_stop};

use markup5ever::blocks::{BLOCK, Sought, first_from, lowest_bit};
use std::simd::prelude::*;

// How many bytes are looked at in one step if there are fewer than a block.
const HALF: usize = 8;

// Whether a byte is NUL, or may begin a character that is written as a reference.
#[inline(always)]
#[tactic(auto, unfolding(crate::specs::Runs::is_stop))]
fn is_stop(byte: u8) -> bool
    ensures { result ≡ is_stop byte }
{
    (byte == 0)
        | (byte == b'\r')
        | (byte == b'"')
        | (byte == b'&')
        | (byte == b'<')
        | (byte == b'>')
        | (byte == 0xEF)
}

// Whether one of the next half of a block is a stop. It looks at each byte, so that the compiler makes it one step over
// all.
#[inline(always)]
fn has_stop(bytes: &[u8], from: usize) -> bool
    requires { from + HALF ≤ length bytes.now }
    ensures { result ≡ false → NoStopWithin bytes.now from (from + HALF) }
{
    let mut found = false;
    for k in 0..HALF {
        found |= is_stop(bytes[from + k]);
    }
    found
}

// Whether it is seen in one step or two that none of the bytes that are left is a stop: in the last block, or in both
// halves of one.
#[inline(always)]
fn has_plain_end(bytes: &[u8], from: usize) -> bool
    requires { from ≤ length bytes.now }
    ensures { result ≡ true → NoStopWithin bytes.now from (length bytes.now) }
{
    let len = bytes.len();
    if BLOCK <= len {
        let last = len - BLOCK;
        return last <= from && Stops {}.first_in_block(bytes, last) == BLOCK;
    }
    HALF <= len && !has_stop(bytes, 0) && !has_stop(bytes, len - HALF)
}

// NUL, and the bytes that may begin a character which is written as a reference.
struct Stops {}

impl Sought for Stops {
    ghost is_sought = { λ _. IsStop };

    #[inline(always)]
    fn first_in_block(&self, bytes: &[u8], at: usize) -> usize {
        let block = u8x16::from_slice(&bytes[at..]);
        let controls = block.simd_eq(u8x16::splat(0)) | block.simd_eq(u8x16::splat(b'\r'));
        let marks = block.simd_eq(u8x16::splat(b'"')) | block.simd_eq(u8x16::splat(b'&'));
        let signs = block.simd_eq(u8x16::splat(b'<')) | block.simd_eq(u8x16::splat(b'>'));
        let others = signs | block.simd_eq(u8x16::splat(0xEF));
        lowest_bit(((controls | marks) | others).to_bitmask())
    }

    #[inline(always)]
    fn first_in_rest(&self, bytes: &[u8], from: usize) -> usize {
        if has_plain_end(bytes, from) {
            return bytes.len();
        }
        for at in from..bytes.len() {
            if is_stop(bytes[at]) {
                return at;
            }
        }
        bytes.len()
    }
}

/// How many bytes the characters take with which the text begins, up to the first that is NUL or may be written as a
/// reference.
#[inline(always)]
pub fn plain_prefix_len(text: &str) -> usize
    ensures { BeginsPlain text.now result }
{
    first_from(&Stops {}, text.as_bytes(), 0)
}

/// Whether it is seen in one search that a text can be written, and is written as it is.
#[inline(always)]
pub fn is_plain(text: &str) -> bool
    ensures { result ≡ true → IsPlainText text.now }
{
    first_from(&Stops {}, text.as_bytes(), 0) == text.len()
}

/// The place of the first NUL, or the end.
#[inline(always)]
pub fn first_null(bytes: &[u8]) -> usize
    ensures { IsFirstFrom IsNull bytes.now 0 result }
{
    let mut at = first_from(&Stops {}, bytes, 0);
    while at < bytes.len() && bytes[at] != 0 {
        at = first_from(&Stops {}, bytes, at + 1);
    }
    at
}
