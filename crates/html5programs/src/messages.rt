//! What a program says on standard error.
ghost use Rattle.std.specs.Prelude.{◌≡◌, IfOk, IfSome};
ghost use Rattle.html5programs.specs.Messages.{SaysLine, message};

use devices::{Target, write_all};
use std::alloc::{AllocError, Global};
use std::fmt::Display;
use std::marker::Model;

/// Says on standard error what went wrong, a line each, in the program's name.
#[derive(Drop)]
pub struct Messages<'p, E> {
    alloc: Global,
    program: &'p str,
    target: E,
}

impl<'p, E> Model for Messages<'p, E> {
    ghost use Rattle.html5programs.specs.Messages.{Saying};

    ghost Value = { Saying E };

    ghost view = { λ m. record { program = m.program.now; target = m.target } };
}

impl<'p, E: Target> Messages<'p, E> {
    pub fn new(alloc: Global, program: &'p str, target: E) -> Messages<'p, E>
        ensures { result ≡ record { program = program.now; target = target } }
    {
        Messages {
            alloc,
            program,
            target,
        }
    }

    /// Says it, as far as that can be said: a line of the program's name, what, and why.
    pub fn say<D: Display + Drop>(&mut self, what: &str, why: D)
        ensures line { IfSome (D.output why) (λ why.
            SaysLine E.contents self.old.target self.new.target (message self.old.program what.now why)) }
        ensures program { self.new.program ≡ self.old.program }
    {
        let Ok(line) = line_of(self.alloc, self.program, what, why) else {
            return;
        };
        let _ = write_all(&mut self.target, line.as_slice());
    }
}

// The line of a message.
fn line_of<D: Display + Drop>(
    alloc: Global,
    program: &str,
    what: &str,
    why: D,
) -> Result<Vec<u8>, AllocError>
    ensures { IfOk result (λ line. IfSome (D.output why) (λ why. line.items ≡ message program.now what.now why)) }
{
    let why = String::format(alloc, why)?;
    line_with(alloc, program, what, why.as_str())
}

// The line of a message whose reason is a text.
fn line_with(alloc: Global, program: &str, what: &str, why: &str) -> Result<Vec<u8>, AllocError>
    ensures { IfOk result (λ line. line.items ≡ message program.now what.now why.now) }
{
    let mut line = Vec::new(alloc);
    line.extend_from_slice(program.as_bytes())?;
    line.extend_from_slice(b": ")?;
    line.extend_from_slice(what.as_bytes())?;
    line.extend_from_slice(b": ")?;
    line.extend_from_slice(why.as_bytes())?;
    line.extend_from_slice(b"\n")?;
    Ok(line)
}
