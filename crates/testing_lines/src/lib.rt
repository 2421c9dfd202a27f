//! What programs share that run worked cases or scripts: how these are written, and running each.
#![tactic(auto)]

mod cases;
mod escapes;
mod refusals;
mod stop;

pub use crate::cases::{Case, Told, cases_of, check_cases};
pub use crate::escapes::push_meant;
pub use crate::refusals::{Play, Played, Wanted, sweep};
pub use crate::stop::{Stop, compare, compare_answer, compare_flag};
use std::alloc::{AllocError, Global};

/// Why what is written can't be read or run.
#[derive(Clone, Copy, Debug, PartialEq, Eq)]
pub enum CaseError {
    /// A line that has no meaning where it stands.
    BadLine,
    /// Memory ran out.
    Memory,
}

impl From<AllocError> for CaseError {
    fn from(_refused: AllocError) -> CaseError {
        CaseError::Memory
    }
}

/// Appends a line.
pub fn push_line(lines: &mut String, line: &str) -> Result<(), CaseError> {
    lines.push_str(line)?;
    lines.push('\n')?;
    Ok(())
}

/// Appends a word.
pub fn push_word(alloc: Global, words: &mut Vec<String>, word: &str) -> Result<(), CaseError> {
    match words.push(String::from_str(alloc, word)?) {
        Ok(()) => Ok(()),
        Err(_) => Err(CaseError::Memory),
    }
}

/// A number in decimal digits.
pub fn number_of(digits: &str) -> Result<u64, CaseError> {
    digits.parse::<u64>().map_err(|_| CaseError::BadLine)
}
