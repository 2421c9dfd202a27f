//! The replacement decoder and x-user-defined.
ghost use Rattle.std.specs.Prelude.{◌≡◌, ◌+◌, ◌-◌, ◌≤◌, OnOk};
ghost use Rattle.html5encodings.specs.Miscellaneous.{replaced, user_defined};
ghost use Rattle.html5encodings.specs.Steps.{Adds};

use std::alloc::{AllocError, Allocator};

// Appends U+FFFD, unless that was done before.
pub(crate) fn append_replaced<A: Allocator>(
    returned: bool,
    text: &mut String<A>,
) -> Result<(), AllocError>
    ensures { OnOk result (Adds text.old text.new (replaced returned)) }
{
    if returned {
        Ok(())
    } else {
        text.push('\u{FFFD}')
    }
}

// Appends the character of a byte in x-user-defined.
pub(crate) fn append_user_defined<A: Allocator>(
    byte: u8,
    text: &mut String<A>,
) -> Result<(), AllocError>
    ensures { OnOk result (Adds text.old text.new (user_defined byte)) }
{
    if byte < 0x80 {
        text.push(byte as char)
    } else {
        text.push(private_use(byte))
    }
}

// The character for private use that stands for a byte.
fn private_use(byte: u8) -> char
    requires { 0x80 ≤ byte }
    ensures { result ≡ 0xF780 + (byte - 0x80) }
{
    unsafe { char::from_u32_unchecked(0xF780 + (byte as u32 - 0x80)) }
}
