//! Pages whose text is printed as it arrives.
ghost use Rattle.std.specs.Prelude.{◌≡◌, ◌≢◌, ℕ, ◌+◌, ◌-◌, ◌^◌, Err, OnOk, OnErr};
ghost use Rattle.html5stream.specs.Pages.{ReadsPage, ReadsPageItems, StopsPage, passage_of, RunsItems, runs_page, runs_handed, runs_after};
ghost use Rattle.html5stream.specs.Streams.{GivesNoText, GivesNoFault, GivesAtLeast, failed_reads};
ghost use Rattle.html5extract.specs.PageText.{at_start, reading_of, text_step};

use crate::page_text::PageText;
use devices::{Printer, Source, Target};
use html5programs::Filter;
use html5stream::{StreamError, read_tokens};
use markup5ever::data::NamedReferences;
use std::alloc::{Allocator, Global};

/// Reads a page, and prints its text as it arrives, without scripts and styles.
pub fn read_text<R: Source, W: Target, A: Allocator + Copy>(
    alloc: A,
    source: &mut R,
    text: PageText<W, A>,
    references: &NamedReferences<A>,
) -> (PageText<W, A>, Result<(), StreamError>)
    ensures finishes { OnOk result.1 (ReadsPage (runs_after text_step references.now)
        (passage_of R.remaining source.old source.new (at_start text.printer.printed) (reading_of result.0))) }
    ensures items { OnOk result.1 (ReadsPageItems (RunsItems text_step references.now) (runs_handed text_step)
        (passage_of R.remaining source.old source.new (at_start text.printer.printed) (reading_of result.0))) }
    ensures beginning { OnErr result.1 (StopsPage (runs_page text_step references.now) (runs_handed text_step)
        (passage_of R.remaining source.old source.new (at_start text.printer.printed) (reading_of result.0))) }
    ensures not_utf8 { (place : ℕ) → result.1 ≡ Err (StreamError.NotUtf8 place)
        → GivesNoText place (R.remaining source.old) (R.remaining source.new) }
    ensures no_fault { ((place : ℕ) → result.1 ≢ Err (StreamError.NotUtf8 place))
        → GivesNoFault (R.remaining source.old) (R.remaining source.new) }
    ensures too_long { result.1 ≡ Err StreamError.TooLong
        → GivesAtLeast (2 ^ 64 - 1) (R.remaining source.old) (R.remaining source.new) }
    ensures read { R.failures source.new ≡ R.failures source.old + failed_reads result.1 }
{
    read_tokens(alloc, source, text.at_start(), references)
}

impl<W: Target + Drop> Filter<W> for PageText<W> {
    ghost use Rattle.html5ever_interface.specs.Sink.{Message};
    ghost use Rattle.html5extract.specs.Makings.{text_made};
    ghost use Rattle.html5extract.specs.PageText.{Reading, reading_of};

    type Settings = ();

    ghost State = { Reading };

    ghost Part = { Message };

    ghost state = { reading_of };

    ghost means = { text_made };

    fn new(alloc: Global, printer: Printer<W>, _settings: ()) -> PageText<W>
        ensures { reading_of result ≡ at_start printer.printed }
    {
        PageText::new(printer)
    }

    fn name_file(&mut self, _alloc: Global, _file: &str) -> Result<(), StreamError> {
        Ok(())
    }

    fn read_page<R: Source>(
        self,
        alloc: Global,
        source: &mut R,
        references: &NamedReferences,
    ) -> (PageText<W>, Result<(), StreamError>) {
        read_text(alloc, source, self, references)
    }

    fn has_found(&self) -> bool {
        false
    }

    fn finish(self, _alloc: Global) -> (Printer<W>, Result<(), StreamError>)
        ensures { result.0.printed ≡ self.printer.printed }
    {
        (self.into_inner(), Ok(()))
    }
}
