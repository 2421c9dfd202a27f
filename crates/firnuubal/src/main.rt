//! Prints the tokens, the links or the text of HTML pages, or the pages cleaned.
#![tactic(auto)]

use html5commands::run;
use std::process::ExitCode;

fn main(rt: HostRuntime) -> ExitCode {
    let (_, status) = run(&rt, rt.stdin(), rt.stdout(), rt.stderr());
    ExitCode::from(status)
}
