//! The commands of the program `firnuubal`: what each reads and prints, by the words after its name.
#![tactic(auto)]

mod command;
mod format;
mod help;
mod running;

pub use crate::command::{Command, command_of, program_of};
pub use crate::format::Format;
pub use crate::help::HELP;
pub use crate::running::{command_by_words, run, run_by_words};
