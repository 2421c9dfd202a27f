//! What the decoders share.
ghost use Rattle.std.specs.Prelude.{◌≡◌, OnOk, encode_utf8_all};
ghost use Rattle.html5encodings.specs.Steps.{Adds, code_point_or_error, code_point_or_restored, error_if};

use std::alloc::{AllocError, Allocator};

// Appends a character, or U+FFFD if there is none.
pub(crate) fn append_or_error<A: Allocator>(
    character: Option<char>,
    text: &mut String<A>,
) -> Result<(), AllocError>
    ensures { OnOk result (Adds text.old text.new (code_point_or_error character)) }
{
    match character {
        Some(character) => text.push(character),
        None => text.push('\u{FFFD}'),
    }
}

// Appends the character that a byte ends. If there is none, it appends U+FFFD, and the byte if it is
// ASCII.
pub(crate) fn append_or_restored<A: Allocator>(
    character: Option<char>,
    byte: u8,
    text: &mut String<A>,
) -> Result<(), AllocError>
    ensures { OnOk result (Adds text.old text.new (code_point_or_restored character byte)) }
{
    match character {
        Some(character) => text.push(character),
        None => {
            text.push('\u{FFFD}')?;
            if byte < 0x80 {
                text.push(byte as char)?;
            }
            Ok(())
        }
    }
}

// U+FFFD, where something was begun.
pub(crate) fn error_if(begun: bool) -> &'static str
    ensures { result.now ≡ encode_utf8_all (error_if begun) }
{
    if begun { "\u{FFFD}" } else { "" }
}
