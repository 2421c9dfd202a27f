//! A tokenizer's program.
#![tactic(auto)]

use devices::{ReadSource, WriteTarget};
use html5cli::run::{given_words, report, run};
use std::process::ExitCode;

fn main(rt: HostRuntime) -> ExitCode {
    let mut errors = WriteTarget::new(rt.stderr());
    let status = match given_words(&rt) {
        Ok(words) => run(
            rt.alloc(),
            words,
            &mut ReadSource::new(rt.stdin()),
            &mut WriteTarget::new(rt.stdout()),
            &mut errors,
        ),
        Err(ending) => report(&mut errors, ending),
    };
    ExitCode::from(status)
}
