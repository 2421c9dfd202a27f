//! The version.
ghost use Rattle.std.specs.Prelude.{◌≡◌, IfOk, string_bytes};
ghost use Rattle.html5programs.specs.Version.{version_line};

use std::alloc::{AllocError, Allocator};

const VERSION: &str = "0.20.0";

/// The line that tells a program's name and its version.
pub fn version_line<A: Allocator + Copy>(alloc: A, name: &str) -> Result<String<A>, AllocError>
    ensures { IfOk result (λ line. string_bytes line ≡ version_line name.now) }
{
    let mut line = String::from_str(alloc, name)?;
    line.push(' ')?;
    line.push_str(VERSION)?;
    line.push('\n')?;
    Ok(line)
}
