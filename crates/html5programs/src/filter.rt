//! What a program makes of pages.
use crate::settings::Settings;
use devices::{Printer, Source, Target};
use html5stream::StreamError;
use markup5ever::data::NamedReferences;
use std::alloc::Global;

/// What a program makes of the pages that it reads: what it prints.
pub trait Filter<W: Target + Drop>: Drop {
    ghost use Rattle.std.specs.Prelude.{◌≡◌, ℕ, ◌+◌, List, OnOk, OnErr};
    ghost use Rattle.html5programs.specs.Filtering.{Making};
    ghost use Rattle.html5stream.specs.Pages.{ReadsPage, StopsPage, passage_of};
    ghost use Rattle.html5stream.specs.Streams.{failed_reads};

    /// What it goes by.
    type Settings: Settings;

    // The abstract state of a filter, what it reads pages into, and what it makes of settings and pages.
    ghost State: { Type 0 };

    ghost Part: { Type 0 };

    ghost state: { Self → State };

    ghost means: { Making Self.Settings Part State };

    /// A filter that has read nothing, and prints to this printer.
    fn new(alloc: Global, printer: Printer<W>, settings: Self::Settings) -> Self
        ensures { state result ≡ means.started settings printer.printed };

    /// Takes note of the name of the file that is read next.
    fn name_file(&mut self, alloc: Global, file: &str) -> Result<(), StreamError>
        ensures named { OnOk result (state self.new ≡ means.named file.now (state self.old)) }
        ensures err { OnErr result (state self.new ≡ state self.old) };

    /// Reads a page, and prints what it makes of it as it arrives: of the whole page, or after an error
    /// of a prefix of it.
    fn read_page<R: Source>(
        self,
        alloc: Global,
        source: &mut R,
        references: &NamedReferences,
    ) -> (Self, Result<(), StreamError>)
        ensures finishes { OnOk result.1 (ReadsPage (λ s bytes. means.handed s (means.page references.now s bytes))
            (passage_of R.remaining source.old source.new (means.begun (state self)) (state result.0))) }
        ensures beginning { OnErr result.1 (StopsPage (means.page references.now) means.handed
            (passage_of R.remaining source.old source.new (means.begun (state self)) (state result.0))) }
        ensures read { R.failures source.new ≡ R.failures source.old + failed_reads result.1 };

    /// Whether it found something that the status of the run tells, as faults of pages.
    fn has_found(&self) -> bool
        ensures { result ≡ means.found (state self.now) };

    /// Ends what it prints, and gives the printer back.
    fn finish(self, alloc: Global) -> (Printer<W>, Result<(), StreamError>)
        ensures { OnOk result.1 (result.0.printed ≡ means.printed (state self)) };
}
