//! Counts the tokens of standard input as they are sent to a sink that does nothing else, to time the tokenizer alone.
//! bench/readers.py times it beside what reads records.
#![tactic(auto)]

mod counts;

use crate::counts::Counts;
use devices::ReadSource;
use html5entities::standard_references;
use html5ever_interface::options::TokenizerOpts;
use html5stream::read_source;
use std::process::ExitCode;

fn main(rt: HostRuntime) -> ExitCode {
    let Ok(references) = standard_references(rt.alloc()) else {
        return ExitCode::FAILURE;
    };
    let mut source = ReadSource::new(rt.stdin());
    let (counts, read) = read_source(
        rt.alloc(),
        &mut source,
        Counts::default(),
        TokenizerOpts::default(),
        &references,
    );
    if let Err(error) = read {
        let _ = eprint!(rt; "{error}\n");
        return ExitCode::FAILURE;
    }
    let _ = print!(rt;
        "tags {}, attributes {} of {} bytes, ",
        counts.tags, counts.attributes, counts.attribute_bytes
    );
    let _ = print!(rt; "texts {} of {} bytes, ", counts.texts, counts.text_bytes);
    let _ = print!(rt; "comments {}, errors {}\n", counts.comments, counts.errors);
    ExitCode::SUCCESS
}
