//! Counts the links of standard input: a small program over `read_tags`.
#![tactic(auto)]

use devices::ReadSource;
use html5entities::standard_references;
use html5ever_interface::interface::token::{SinkFault, Tag};
use html5sinks::tags::{TagHandler, is_start_of};
use html5stream::read_tags;
use std::alloc::Allocator;
use std::process::ExitCode;

/// How many links were found.
#[derive(Drop)]
struct Links {
    count: u64,
}

impl<A: Allocator> TagHandler<Tag<A>> for Links {
    ghost use Rattle.std.specs.Prelude.{ℕ, ◌+◌, codes, if◌then◌else◌};
    ghost use Rattle.html5sinks.specs.Tags.{is_start_of};

    ghost State = { ℕ };

    ghost state = { λ links. links.count };

    ghost step = { λ count tag line. if is_start_of tag (codes "a") then count + 1 else count };

    fn take_tag(&mut self, tag: Tag<A>, _line_number: u64) -> Result<(), SinkFault> {
        if is_start_of(&tag, "a") {
            self.count = self.count.checked_add(1).ok_or(SinkFault)?;
        }
        Ok(())
    }
}

fn main(rt: HostRuntime) -> ExitCode {
    let Ok(references) = standard_references(rt.alloc()) else {
        return ExitCode::FAILURE;
    };
    let links = Links { count: 0 };
    let mut source = ReadSource::new(rt.stdin());
    let (links, read) = read_tags(rt.alloc(), &mut source, links, &references);
    if let Err(error) = read {
        let _ = eprint!(rt; "{error}\n");
        return ExitCode::FAILURE;
    }
    let _ = print!(rt; "{}\n", links.count);
    ExitCode::SUCCESS
}
