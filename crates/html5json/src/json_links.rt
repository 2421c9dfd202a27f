//! The links of a page as lines of JSON.
ghost use Rattle.std.specs.Prelude.{◌≡◌};

use crate::lines::link_line;
use devices::{Printer, Source, Target};
use html5ever_interface::interface::token::{SinkFault, Tag};
use html5extract::bases::Bases;
use html5extract::link_settings::LinkSettings;
use html5extract::links::link_of;
use html5programs::{Filter, Front};
use html5sinks::tags::TagHandler;
use html5stream::{StreamError, read_tags};
use markup5ever::data::NamedReferences;
use std::alloc::{AllocError, Allocator, Global};

/// Prints the links of the tags that it takes, an object of JSON a line. It has the number of the line
/// on which the tag ends, and where the link leads, or the unresolved link.
#[derive(Drop)]
pub struct JsonLinks<W, A: Allocator = Global> {
    pub alloc: A,
    pub printer: Printer<W, A>,
    pub bases: Bases,
    pub front: Front,
}

impl<W: Target, A: Allocator + Copy> TagHandler<Tag<A>> for JsonLinks<W, A> {
    ghost use Rattle.html5extract.specs.LinkReading.{LinkReading, link_reading};
    ghost use Rattle.html5json.specs.Lines.{json_links_step};

    ghost State = { LinkReading };

    ghost state = { λ l. link_reading l.bases l.front l.printer.printed };

    ghost step = { json_links_step };

    fn take_tag(&mut self, tag: Tag<A>, line_number: u64) -> Result<(), SinkFault> {
        let Some(link) = link_of(&tag) else {
            return match self.bases.take_tag(&tag) {
                Ok(()) => Ok(()),
                Err(AllocError) => Err(SinkFault),
            };
        };
        let Ok(line) = link_line(
            self.alloc,
            line_number,
            &self.bases,
            &self.front,
            link.as_str(),
        ) else {
            return Err(SinkFault);
        };
        match self.printer.print(&line) {
            Ok(()) => Ok(()),
            Err(_) => Err(SinkFault),
        }
    }
}

impl<W: Target + Drop> Filter<W> for JsonLinks<W> {
    ghost use Rattle.html5ever_interface.specs.Sink.{Message};
    ghost use Rattle.html5extract.specs.LinkReading.{LinkReading, link_reading, links_started};
    ghost use Rattle.html5json.specs.Makings.{json_links_made};

    type Settings = LinkSettings;

    ghost State = { LinkReading };

    ghost Part = { Message };

    ghost state = { λ l. link_reading l.bases l.front l.printer.printed };

    ghost means = { json_links_made };

    fn new(alloc: Global, printer: Printer<W>, settings: LinkSettings) -> JsonLinks<W>
        ensures { link_reading result.bases result.front result.printer.printed ≡ links_started settings printer.printed }
    {
        JsonLinks {
            alloc,
            printer,
            bases: settings.bases,
            front: Front::new(alloc, settings.shows_names),
        }
    }

    fn name_file(&mut self, alloc: Global, file: &str) -> Result<(), StreamError> {
        self.front.name_file(alloc, file)
    }

    fn read_page<R: Source>(
        self,
        alloc: Global,
        source: &mut R,
        references: &NamedReferences,
    ) -> (JsonLinks<W>, Result<(), StreamError>) {
        let links = JsonLinks {
            alloc: self.alloc,
            printer: self.printer,
            bases: self.bases.at_page(),
            front: self.front,
        };
        read_tags(alloc, source, links, references)
    }

    fn has_found(&self) -> bool {
        false
    }

    fn finish(self, _alloc: Global) -> (Printer<W>, Result<(), StreamError>)
        ensures { result.0.printed ≡ self.printer.printed }
    {
        (self.printer, Ok(()))
    }
}
