//! Writes the page of standard input back, by its tokens. The word `--scripting` makes it a page that is read with
//! scripting, and `--names` escapes characters by name. tools/compare written compares the readings of both.
#![tactic(auto)]

mod writing;

use crate::writing::Writing;
use devices::{ReadSource, given_words};
use html5entities::standard_references;
use html5ever_interface::options::TokenizerOpts;
use html5serialize::{Escapes, PageOptions};
use html5stream::read_source;
use std::process::ExitCode;

// How the page is written, if the program knows the words.
fn options_of(words: &[String]) -> Option<PageOptions> {
    let mut options = PageOptions::default();
    for word in words {
        match word.as_str() {
            "--scripting" => options.scripting = true,
            "--names" => options.escapes = Escapes::Names,
            _ => return None,
        }
    }
    Some(options)
}

fn main(rt: HostRuntime) -> ExitCode {
    let Ok(words) = given_words(&rt) else {
        return ExitCode::FAILURE;
    };
    let Some(options) = options_of(&words) else {
        return ExitCode::FAILURE;
    };
    let Ok(references) = standard_references(rt.alloc()) else {
        return ExitCode::FAILURE;
    };
    let mut source = ReadSource::new(rt.stdin());
    let (writing, read) = read_source(
        rt.alloc(),
        &mut source,
        Writing::new(rt.alloc(), options),
        TokenizerOpts::default(),
        &references,
    );
    if let Err(error) = read {
        let _ = eprint!(rt; "{error}\n");
        return ExitCode::FAILURE;
    }
    match print!(rt; "{}", writing.out) {
        Ok(()) => ExitCode::SUCCESS,
        Err(_) => ExitCode::FAILURE,
    }
}
