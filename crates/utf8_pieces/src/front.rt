//! How much of some bytes is text.
ghost use Rattle.std.specs.Prelude.{◌≡◌, ◌+◌, ◌<◌, ◌≤◌, ◌++◌, length, take, min, IfOk, IfErr, IsUtf8, string_bytes};
ghost use Rattle.std.specs.Str.{IsValidUpTo};
ghost use Rattle.utf8_pieces.specs.Pieces.{IsNeverUtf8, IsTextThenCut, place_after};

use simdutf8::compat::from_utf8;
use std::alloc::{AllocError, Allocator};

// How many bytes at the front are text, where those after them may begin a character. Else the place
// where the first byte stands that belongs to no character.
pub(crate) fn text_len(bytes: &[u8]) -> Result<usize, usize>
    ensures text { IfOk result (IsTextThenCut bytes.now) }
    ensures valid { IfErr result (IsValidUpTo bytes.now) }
    ensures refused { IfErr result (λ _. IsNeverUtf8 bytes.now) }
{
    match from_utf8(bytes) {
        Ok(text) => Ok(text.len()),
        Err(error) => match error.error_len() {
            None => Ok(error.valid_up_to()),
            Some(_) => Err(error.valid_up_to()),
        },
    }
}

// How many bytes at the front are text, of bytes that are all text or have a fault after that.
pub(crate) fn whole_len(bytes: &[u8]) -> usize
    ensures within { result ≤ length bytes.now }
    ensures text { IsUtf8 (take result bytes.now) }
    ensures longest { result < length bytes.now → IsValidUpTo bytes.now result }
{
    match from_utf8(bytes) {
        Ok(text) => text.len(),
        Err(error) => error.valid_up_to(),
    }
}

// How many of some bytes stand after `held` in the first four of both.
pub(crate) fn joined_len(held: usize, bytes: &[u8]) -> usize
    requires { held ≤ 3 }
    ensures { result ≡ min 4 (held + length bytes.now) }
{
    if bytes.len() < 4 - held {
        held + bytes.len()
    } else {
        4
    }
}

// The first four bytes of two slices, one after the other, of which `len` are those.
pub(crate) fn joined(held: &[u8], bytes: &[u8], len: usize) -> [u8; 4]
    requires short { length held.now ≤ 3 }
    requires known { len ≡ min 4 (length held.now + length bytes.now) }
    ensures { take len result ≡ take 4 (held.now ++ bytes.now) }
{
    let mut front = [0; 4];
    front[..held.len()].copy_from_slice(held);
    front[held.len()..len].copy_from_slice(&bytes[..len - held.len()]);
    front
}

// The bytes, and zeros after them.
pub(crate) fn padded(bytes: &[u8]) -> [u8; 3]
    requires { length bytes.now ≤ 3 }
    ensures { take (length bytes.now) result ≡ bytes.now }
{
    let mut front = [0; 3];
    front[..bytes.len()].copy_from_slice(bytes);
    front
}

// Two texts, one after the other.
pub(crate) fn text_of<A: Allocator>(
    alloc: A,
    first: &str,
    second: &str,
) -> Result<String<A>, AllocError>
    ensures { IfOk result (λ text. string_bytes text ≡ first.now ++ second.now) }
{
    let mut text = String::with_capacity(alloc, first.len() + second.len())?;
    text.push_str(first)?;
    text.push_str(second)?;
    Ok(text)
}

// The place this many bytes after another.
pub(crate) fn place_after(place: u64, count: usize) -> u64
    ensures { result ≡ place_after place count }
{
    place.saturating_add(count as u64)
}
