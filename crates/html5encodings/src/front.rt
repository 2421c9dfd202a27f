//! Text at the front of bytes.
ghost use Rattle.std.specs.Prelude.{◌≡◌, ◌↔◌, ℕ, ◌+◌, ◌<◌, ◌≤◌, ◌==◌, IsAscii, IsTrue, IsUtf8, length, slice_index, take, true, if◌then◌else◌};
ghost use Rattle.std.specs.Int.{trailing_zeros, w64};
ghost use Rattle.std.specs.List.{list_all};
ghost use Rattle.html5encodings.specs.Iso2022Jp.{is_plain};

use simdutf8::compat;
use std::simd::prelude::*;

// How many bytes are looked at in one step.
const BLOCK: usize = 16;

// How many bytes at the front are ASCII.
pub(crate) fn ascii_len(bytes: &[u8]) -> usize
    ensures within { result ≤ length bytes.now }
    ensures ascii { IsAscii (take result bytes.now) }
    ensures longest { result < length bytes.now → 0x80 ≤ slice_index bytes.now result }
{
    let mut at = 0;
    while bytes.len() - at >= BLOCK {
        let count = ascii_in_block(bytes, at);
        if count < BLOCK {
            return at + count;
        }
        at += BLOCK;
    }
    while at < bytes.len() && bytes[at] < 0x80 {
        at += 1;
    }
    at
}

// How many bytes of a block are ASCII, before the first that is not.
#[inline(always)]
fn ascii_in_block(bytes: &[u8], at: usize) -> usize
    requires { at + 16 ≤ length bytes.now }
    ensures within { result ≤ 16 }
    ensures ascii { (k : ℕ) → k < result → slice_index bytes.now (at + k) < 0x80 }
    ensures longest { result < 16 → 0x80 ≤ slice_index bytes.now (at + result) }
{
    let high = u8x16::from_slice(&bytes[at..]).simd_ge(u8x16::splat(0x80));
    first_set(high.to_bitmask())
}

// The place of the lowest bit that is set, or the length of a block.
#[inline(always)]
fn first_set(mask: u64) -> usize
    ensures { result ≡ (if mask == 0 then 16 else trailing_zeros w64 mask) }
{
    if mask == 0 {
        BLOCK
    } else {
        mask.trailing_zeros() as usize
    }
}

// Whether more than one byte of ASCII stands there.
pub(crate) fn begins_ascii(bytes: &[u8], at: usize) -> bool
    requires { at < length bytes.now }
    ensures { IsTrue result ↔ ((at + 1 < length bytes.now) × (slice_index bytes.now at < 0x80) × (slice_index bytes.now (at + 1) < 0x80)) }
{
    bytes[at] < 0x80 && at + 1 < bytes.len() && bytes[at + 1] < 0x80
}

// How many bytes at the front are ASCII that neither shifts nor escapes, as ISO-2022-JP has it.
pub(crate) fn plain_len(bytes: &[u8]) -> usize
    ensures within { result ≤ length bytes.now }
    ensures plain { list_all is_plain (take result bytes.now) ≡ true }
{
    for (i, byte) in bytes.iter().enumerate() {
        if !is_plain(*byte) {
            return i;
        }
    }
    bytes.len()
}

fn is_plain(byte: u8) -> bool
    ensures { result ≡ is_plain byte }
{
    byte < 0x80 && !(byte == 0x0E || byte == 0x0F || byte == 0x1B)
}

// How many bytes at the front are UTF-8.
pub(crate) fn text_len(bytes: &[u8]) -> usize
    ensures within { result ≤ length bytes.now }
    ensures text { IsUtf8 (take result bytes.now) }
{
    match compat::from_utf8(bytes) {
        Ok(text) => text.len(),
        Err(error) => error.valid_up_to(),
    }
}
