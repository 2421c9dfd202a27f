//! Runs the worked cases of its input: each whole, in pieces of each length, and cut in two at each place.
//! By the word `sweep` it reads each prefix of their inputs, too, with each short text after it.
#![tactic(auto)]

mod case;
mod check;
mod clones;
mod cuttings;
mod pieces;
mod so_far;
mod sweep;

use crate::case::WorkedCase;
use crate::sweep::sweep;
use devices::{ReadSource, WriteTarget, given_words, read_to_end, write_all};
use std::alloc::Global;
use std::process::ExitCode;
use testing_lines::{CaseError, Told, check_cases, push_line};

// Whether the words ask for the sweep.
fn asks_for_sweep(words: &[String]) -> bool {
    match words.first() {
        Some(word) => word.as_str() == "sweep",
        None => false,
    }
}

// Runs the cases of a text, and reads their prefixes, where the words ask for it.
fn run_all(alloc: Global, words: &[String], text: &str) -> Result<Told, CaseError> {
    let mut told = check_cases::<WorkedCase>(alloc, text, "cases")?;
    if !asks_for_sweep(words) {
        return Ok(told);
    }
    let swept = sweep(alloc, text)?;
    told.lines.push_str(&swept.lines)?;
    let last = format!(in alloc; "{} runs, {} texts failed", swept.runs, swept.failed)?;
    push_line(&mut told.lines, &last)?;
    told.failed = told.failed.wrapping_add(swept.failed);
    Ok(told)
}

fn main(rt: HostRuntime) -> ExitCode {
    let Ok(words) = given_words(&rt) else {
        return ExitCode::from(2);
    };
    let Ok(bytes) = read_to_end(rt.alloc(), &mut ReadSource::new(rt.stdin())) else {
        return ExitCode::from(2);
    };
    let Ok(text) = String::from_utf8(bytes) else {
        return ExitCode::from(2);
    };
    let Ok(told) = run_all(rt.alloc(), &words, &text) else {
        return ExitCode::from(2);
    };
    let written = write_all(&mut WriteTarget::new(rt.stdout()), told.lines.as_bytes());
    if written.is_err() || told.failed != 0 {
        return ExitCode::from(1);
    }
    ExitCode::SUCCESS
}
