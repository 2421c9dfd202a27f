//! What a program is.
use crate::words::Choice;

/// The name of a program, how it is used, the options that it knows, and its own settings as a text, which
/// it prints where it knows `--print-policy`.
#[derive(Clone, Copy, Debug, PartialEq, Eq)]
pub struct Program<'p> {
    pub name: &'p str,
    pub help: &'p str,
    pub choices: &'p [Choice<'p>],
    pub settings: &'p str,
}
