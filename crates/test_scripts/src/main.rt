//! Plays the scripts of its input. Each is calls of a tokenizer, or of a queue and a table of named
//! references, and what they must answer and tell.
#![tactic(auto)]

mod check;
mod queue;
mod script;
mod tokenizer;

use crate::script::Script;
use devices::{ReadSource, WriteTarget, read_to_end, write_all};
use std::process::ExitCode;
use testing_lines::check_cases;

fn main(rt: HostRuntime) -> ExitCode {
    let Ok(bytes) = read_to_end(rt.alloc(), &mut ReadSource::new(rt.stdin())) else {
        return ExitCode::from(2);
    };
    let Ok(text) = String::from_utf8(bytes) else {
        return ExitCode::from(2);
    };
    let Ok(told) = check_cases::<Script>(rt.alloc(), &text, "scripts") else {
        return ExitCode::from(2);
    };
    let written = write_all(&mut WriteTarget::new(rt.stdout()), told.lines.as_bytes());
    if written.is_err() || told.failed != 0 {
        return ExitCode::from(1);
    }
    ExitCode::SUCCESS
}
