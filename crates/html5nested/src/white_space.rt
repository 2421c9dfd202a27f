//! White space of texts.
ghost use Rattle.std.specs.Prelude.{◌≡◌, filter, IfOk, string_bytes};
ghost use Rattle.html5tree.specs.Fitting.{is_space};
ghost use Rattle.html5tree.specs.Tables.{after_space, leading_space};

use std::alloc::{AllocError, Allocator};

fn is_space(byte: u8) -> bool
    ensures { result ≡ is_space byte }
{
    matches!(byte, b'\t' | b'\n' | b'\x0c' | b'\r' | b' ')
}

/// The white space of a text.
pub fn all_space<A: Allocator>(alloc: A, text: &str) -> Result<String<A>, AllocError>
    ensures { IfOk result (λ space. string_bytes space ≡ filter is_space text.now) }
{
    let mut space = String::new(alloc);
    let mut left = text.as_bytes();
    while let Some((byte, rest)) = left.split_first() {
        if is_space(*byte) {
            space.push(char::from(*byte))?;
        }
        left = rest;
    }
    Ok(space)
}

/// The white space at the front of a text.
pub fn leading_space<A: Allocator>(alloc: A, text: &str) -> Result<String<A>, AllocError>
    ensures { IfOk result (λ space. string_bytes space ≡ leading_space text.now) }
{
    let mut space = String::new(alloc);
    let mut left = text.as_bytes();
    while let Some((byte, rest)) = left.split_first() {
        if !is_space(*byte) {
            return Ok(space);
        }
        space.push(char::from(*byte))?;
        left = rest;
    }
    Ok(space)
}

/// The text after that.
pub fn after_space(text: &str) -> &str
    ensures { result.now ≡ after_space text.now }
{
    text.trim_ascii_start()
}
