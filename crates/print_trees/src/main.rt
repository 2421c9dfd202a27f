//! Prints the tree of the page of standard input, as the public tests of tree construction write trees. The page is
//! parsed whole, or by `--piece N` in pieces of N bytes. The word `--scripting` enables scripting, `--depth N` limits
//! the open elements, and `--formatting N` the formatting elements. tools/compare compares the lines with a model's.
#![tactic(auto)]

mod parsing;
mod words;

use crate::parsing::document_of;
use crate::words::{Settings, settings_of};
use devices::{
    Fault, ReadSource, Source, Target, WriteTarget, given_words, read_to_end, write_all,
};
use std::alloc::Global;
use std::process::ExitCode;
use tree_lines::tree::push_tree;

// Prints the tree of a source's page.
fn print_tree<R: Source, W: Target>(
    alloc: Global,
    reader: &mut R,
    writer: &mut W,
    settings: Settings,
) -> Result<(), Fault> {
    let bytes = read_to_end(alloc, reader)?;
    let Ok(text) = String::from_utf8(bytes) else {
        return Err(Fault::NotUtf8);
    };
    let arena = document_of(alloc, settings, &text)?;
    let mut lines = Vec::new(alloc);
    push_tree(&mut lines, alloc, &arena, arena.document())?;
    write_all(writer, lines.as_slice())
}

fn main(rt: HostRuntime) -> ExitCode {
    let Ok(words) = given_words(&rt) else {
        return ExitCode::FAILURE;
    };
    let Some(settings) = settings_of(&words) else {
        let _ = eprint!(rt;
            "usage: print_trees [--scripting] [--depth N] [--formatting N] [--piece N]\n"
        );
        return ExitCode::from(2);
    };
    let mut reader = ReadSource::new(rt.stdin());
    let mut writer = WriteTarget::new(rt.stdout());
    match print_tree(rt.alloc(), &mut reader, &mut writer, settings) {
        Ok(()) => ExitCode::SUCCESS,
        Err(fault) => {
            let _ = eprint!(rt; "{fault}\n");
            ExitCode::FAILURE
        }
    }
}
