//! The words that a process was given.
ghost use Rattle.std.specs.Prelude.{◌≡◌, ◌⊎◌, IfErr};

use crate::fault::Fault;
use std::env;
use std::io::ErrorKind;
use std::rt::Env;

/// The words after the program's name. Words that are no text are `NotUtf8`.
pub fn given_words<R: Env + Alloc>(rt: &R) -> Result<Vec<String<R::A>, R::A>, Fault>
    ensures { IfErr result (λ fault. (fault ≡ Fault.NotUtf8) ⊎ (fault ≡ Fault.Memory)) }
{
    let arguments = match env::args(rt) {
        Ok(arguments) => arguments,
        Err(error) if error.kind() == ErrorKind::OutOfMemory => return Err(Fault::Memory),
        Err(_) => return Err(Fault::NotUtf8),
    };
    match arguments.skip(1).collect(rt.alloc()) {
        Ok(words) => Ok(words),
        Err(_) => Err(Fault::Memory),
    }
}
