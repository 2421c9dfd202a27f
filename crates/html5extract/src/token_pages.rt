//! Pages whose tokens are printed as they arrive.
ghost use Rattle.std.specs.Prelude.{◌≡◌, ◌≢◌, ℕ, ◌+◌, ◌-◌, ◌^◌, false, Err, OnOk, OnErr};
ghost use Rattle.html5extract.specs.TokenLines.{lines_of, tokens_page, tokens_printed};
ghost use Rattle.html5stream.specs.Pages.{ReadsPage, StopsPage, passage_of};
ghost use Rattle.html5stream.specs.Streams.{GivesNoText, GivesNoFault, GivesAtLeast, failed_reads};

use crate::token_lines::TokenLines;
use crate::token_settings::TokenSettings;
use devices::{Printer, Source, Target};
use html5ever_interface::options::TokenizerOpts;
use html5programs::{Filter, Front};
use html5stream::{StreamError, read_source};
use markup5ever::data::NamedReferences;
use std::alloc::{Allocator, Global};

/// Reads a page, and prints its tokens as it arrives, a line each, with errors and pauses.
pub fn read_lines<R: Source, W: Target, A: Allocator + Copy>(
    alloc: A,
    source: &mut R,
    lines: TokenLines<W, A>,
    references: &NamedReferences<A>,
) -> (TokenLines<W, A>, Result<(), StreamError>)
    ensures finishes { OnOk result.1 (ReadsPage (λ s bytes. tokens_printed s (tokens_page references.now s bytes))
        (passage_of R.remaining source.old source.new (lines_of lines) (lines_of result.0))) }
    ensures beginning { OnErr result.1 (StopsPage (tokens_page references.now) tokens_printed
        (passage_of R.remaining source.old source.new (lines_of lines) (lines_of result.0))) }
    ensures not_utf8 { (place : ℕ) → result.1 ≡ Err (StreamError.NotUtf8 place)
        → GivesNoText place (R.remaining source.old) (R.remaining source.new) }
    ensures no_fault { ((place : ℕ) → result.1 ≢ Err (StreamError.NotUtf8 place))
        → GivesNoFault (R.remaining source.old) (R.remaining source.new) }
    ensures too_long { result.1 ≡ Err StreamError.TooLong
        → GivesAtLeast (2 ^ 64 - 1) (R.remaining source.old) (R.remaining source.new) }
    ensures read { R.failures source.new ≡ R.failures source.old + failed_reads result.1 }
{
    let opts = TokenizerOpts::default();
    read_source(alloc, source, lines, opts, references)
}

impl<W: Target + Drop> Filter<W> for TokenLines<W> {
    ghost use Rattle.html5ever_interface.specs.Sink.{Message};
    ghost use Rattle.html5extract.specs.Makings.{tokens_made};
    ghost use Rattle.html5extract.specs.TokenLines.{TokenReading, lines_of};
    ghost use Rattle.html5programs.specs.Fronts.{front_at_start};

    type Settings = TokenSettings;

    ghost State = { TokenReading };

    ghost Part = { Message };

    ghost state = { lines_of };

    ghost means = { tokens_made };

    fn new(alloc: Global, printer: Printer<W>, settings: TokenSettings) -> TokenLines<W>
        ensures { lines_of result
            ≡ record { lines = printer.printed; in_text = false; front = front_at_start settings.shows_names } }
    {
        TokenLines::new(alloc, printer, Front::new(alloc, settings.shows_names))
    }

    fn name_file(&mut self, alloc: Global, file: &str) -> Result<(), StreamError> {
        TokenLines::name_file(self, alloc, file)
    }

    fn read_page<R: Source>(
        self,
        alloc: Global,
        source: &mut R,
        references: &NamedReferences,
    ) -> (TokenLines<W>, Result<(), StreamError>) {
        read_lines(alloc, source, self, references)
    }

    fn has_found(&self) -> bool {
        false
    }

    fn finish(self, _alloc: Global) -> (Printer<W>, Result<(), StreamError>)
        ensures { result.0.printed ≡ self.printer.printed }
    {
        (self.into_inner(), Ok(()))
    }
}
