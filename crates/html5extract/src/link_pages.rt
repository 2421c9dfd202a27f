//! Pages whose links are printed as they arrive.
ghost use Rattle.std.specs.Prelude.{◌≡◌, ◌≢◌, ℕ, ◌+◌, ◌-◌, ◌^◌, Err, OnOk, OnErr};
ghost use Rattle.html5stream.specs.Pages.{ReadsPage, ReadsPageItems, StopsPage, passage_of, TagsItems, tags_page, tags_handed, tags_after};
ghost use Rattle.html5stream.specs.Streams.{GivesNoText, GivesNoFault, GivesAtLeast, failed_reads};
ghost use Rattle.html5extract.specs.LinkReading.{link_reading, links_begun, links_step};

use crate::link_settings::LinkSettings;
use crate::links::Links;
use devices::{Printer, Source, Target};
use html5programs::{Filter, Front};
use html5stream::{StreamError, read_tags};
use markup5ever::data::NamedReferences;
use std::alloc::{Allocator, Global};

/// Reads a page, and prints its links as it arrives, in their order. Each is printed as where it leads
/// from the page's URL, or from the base that the tags before it name.
pub fn read_links<R: Source, W: Target, A: Allocator + Copy>(
    alloc: A,
    source: &mut R,
    links: Links<W, A>,
    references: &NamedReferences<A>,
) -> (Links<W, A>, Result<(), StreamError>)
    ensures finishes { OnOk result.1 (ReadsPage (tags_after links_step references.now)
        (passage_of R.remaining source.old source.new (links_begun (link_reading links.bases links.front links.printer.printed))
        (link_reading result.0.bases result.0.front result.0.printer.printed))) }
    ensures items { OnOk result.1 (ReadsPageItems (TagsItems links_step references.now) (tags_handed links_step)
        (passage_of R.remaining source.old source.new (links_begun (link_reading links.bases links.front links.printer.printed))
        (link_reading result.0.bases result.0.front result.0.printer.printed))) }
    ensures beginning { OnErr result.1 (StopsPage (tags_page links_step references.now) (tags_handed links_step)
        (passage_of R.remaining source.old source.new (links_begun (link_reading links.bases links.front links.printer.printed))
        (link_reading result.0.bases result.0.front result.0.printer.printed))) }
    ensures not_utf8 { (place : ℕ) → result.1 ≡ Err (StreamError.NotUtf8 place)
        → GivesNoText place (R.remaining source.old) (R.remaining source.new) }
    ensures no_fault { ((place : ℕ) → result.1 ≢ Err (StreamError.NotUtf8 place))
        → GivesNoFault (R.remaining source.old) (R.remaining source.new) }
    ensures too_long { result.1 ≡ Err StreamError.TooLong
        → GivesAtLeast (2 ^ 64 - 1) (R.remaining source.old) (R.remaining source.new) }
    ensures read { R.failures source.new ≡ R.failures source.old + failed_reads result.1 }
{
    read_tags(alloc, source, links.at_page(), references)
}

impl<W: Target + Drop> Filter<W> for Links<W> {
    ghost use Rattle.html5ever_interface.specs.Sink.{Message};
    ghost use Rattle.html5extract.specs.LinkReading.{LinkReading, link_reading, links_started};
    ghost use Rattle.html5extract.specs.Makings.{links_made};

    type Settings = LinkSettings;

    ghost State = { LinkReading };

    ghost Part = { Message };

    ghost state = { λ l. link_reading l.bases l.front l.printer.printed };

    ghost means = { links_made };

    fn new(alloc: Global, printer: Printer<W>, settings: LinkSettings) -> Links<W>
        ensures { link_reading result.bases result.front result.printer.printed ≡ links_started settings printer.printed }
    {
        Links {
            alloc,
            printer,
            bases: settings.bases,
            front: Front::new(alloc, settings.shows_names),
        }
    }

    fn name_file(&mut self, alloc: Global, file: &str) -> Result<(), StreamError> {
        self.front.name_file(alloc, file)
    }

    fn read_page<R: Source>(
        self,
        alloc: Global,
        source: &mut R,
        references: &NamedReferences,
    ) -> (Links<W>, Result<(), StreamError>) {
        read_links(alloc, source, self, references)
    }

    fn has_found(&self) -> bool {
        false
    }

    fn finish(self, _alloc: Global) -> (Printer<W>, Result<(), StreamError>)
        ensures { result.0.printed ≡ self.printer.printed }
    {
        (self.printer, Ok(()))
    }
}
