//! Texts that grow.
ghost use Rattle.std.specs.Prelude.{◌≡◌, [], ◌++◌, IsOk, is_ok, if◌then◌else◌, length, string_bytes};

use std::alloc::{AllocError, Allocator};

// By how many bytes at least a text grows where one is appended. So most names and values that come byte by byte ask for
// memory once.
const ROOM: usize = 24;

// Appends to a text that is full. It stands apart, so that what most bytes go through stays small.
#[cold]
#[inline(never)]
fn push_with_room<A: Allocator>(text: &mut String<A>, more: &str) -> Result<(), AllocError>
    ensures { string_bytes text.new
        ≡ (if is_ok result then string_bytes text.old ++ more.now else string_bytes text.old) }
{
    text.reserve(ROOM)?;
    text.push_str(more)
}

// Appends a text of this many bytes. Where the compiler knows how many, it stores them.
#[inline(always)]
fn push_short<A: Allocator>(text: &mut String<A>, more: &str, len: usize) -> Result<(), AllocError>
    requires { length more.now ≡ len }
    ensures { string_bytes text.new
        ≡ (if is_ok result then string_bytes text.old ++ more.now else string_bytes text.old) }
{
    if text.capacity() - text.len() < len {
        return push_with_room(text, more);
    }
    text.push_str(&more[..len])
}

// Appends a text of a few bytes. It stands apart too: eight copies of what appends would keep the compiler from putting
// that, and what calls this, where they are called.
#[inline(never)]
fn push_few<A: Allocator>(text: &mut String<A>, more: &str) -> Result<(), AllocError>
    ensures { string_bytes text.new
        ≡ (if is_ok result then string_bytes text.old ++ more.now else string_bytes text.old) }
{
    match more.len() {
        2 => push_short(text, more, 2),
        3 => push_short(text, more, 3),
        4 => push_short(text, more, 4),
        5 => push_short(text, more, 5),
        6 => push_short(text, more, 6),
        7 => push_short(text, more, 7),
        8 => push_short(text, more, 8),
        _ => push_long(text, more),
    }
}

/// Appends a text that may be long, by a call that copies bytes. It stands apart, so that short texts don't save registers
/// for it.
#[inline(never)]
pub fn push_long<A: Allocator>(text: &mut String<A>, more: &str) -> Result<(), AllocError>
    ensures bytes { string_bytes text.new
        ≡ (if is_ok result then string_bytes text.old ++ more.now else string_bytes text.old) }
    ensures empty { more.now ≡ [] → IsOk result }
{
    text.push_str(more)
}

/// Appends a text to another. Up to eight bytes are stored at once, without a call that copies bytes.
#[inline(always)]
pub fn push_text<A: Allocator>(text: &mut String<A>, more: &str) -> Result<(), AllocError>
    ensures bytes { string_bytes text.new
        ≡ (if is_ok result then string_bytes text.old ++ more.now else string_bytes text.old) }
    ensures empty { more.now ≡ [] → IsOk result }
{
    match more.len() {
        1 => push_short(text, more, 1),
        2..=8 => push_few(text, more),
        _ => push_long(text, more),
    }
}
