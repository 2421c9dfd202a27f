//! Pages that are cleaned and printed as they arrive.
ghost use Rattle.std.specs.Prelude.{◌≡◌, ◌≢◌, ℕ, ◌+◌, ◌-◌, ◌^◌, List, Err, OnOk, OnErr, false, true};
ghost use Rattle.html5stream.specs.Pages.{ReadsPage, ReadsPageItems, StopsPage, passage_of, runs_page, runs_handed, runs_after};
ghost use Rattle.html5stream.specs.Streams.{GivesNoText, GivesNoFault, GivesAtLeast, failed_reads};
ghost use Rattle.html5ever_interface.specs.Sink.{Message};
ghost use Rattle.std.specs.List.{list_all};
ghost use Rattle.html5policy.specs.Policy.{PolicyOf};
ghost use Rattle.html5policy.specs.Rules.{IsSound};
ghost use Rattle.html5cleaner.specs.Allowed.{is_clean};
ghost use Rattle.html5cleaner.specs.Clean.{at_start, clean_step};
ghost use Rattle.html5cleaner.specs.Cleaning.{page_start, cleaning_of, cleaning_step, PageItems, page_messages, printed_of, standing_of};

use crate::clean_printer::CleanPrinter;
use crate::settings::PolicySettings;
use devices::{Printer, Source, Target};
use html5programs::Filter;
use html5stream::{StreamError, read_tokens};
use markup5ever::data::NamedReferences;
use std::alloc::{Allocator, Global};

/// The pieces that are kept of any messages, as those of a page or of a prefix of it, are clean, where a policy with
/// the rule `tree` is sound, as each that is made is. So `laws::cleaned_page` says how the output for a page is read.
pub fn prints_clean_pieces()
    ensures { (policy : PolicyOf) (M : List Message) → (policy.tree ≡ true → IsSound policy)
        → list_all (is_clean policy) (runs_handed clean_step (at_start policy) M).pieces ≡ true }
{}

// Reads a page, and prints its kept part, in the words of the handler.
fn read_printed<R: Source, W: Target, A: Allocator + Copy>(
    alloc: A,
    source: &mut R,
    cleaner: CleanPrinter<W, A>,
    references: &NamedReferences<A>,
) -> (CleanPrinter<W, A>, Result<(), StreamError>)
    ensures finishes { OnOk result.1 (ReadsPage (runs_after cleaning_step references.now)
        (passage_of R.remaining source.old source.new (page_start (standing_of cleaner)) (cleaning_of result.0))) }
    ensures beginning { OnErr result.1 (StopsPage (runs_page cleaning_step references.now) (runs_handed cleaning_step)
        (passage_of R.remaining source.old source.new (page_start (standing_of cleaner)) (cleaning_of result.0))) }
    ensures not_utf8 { (place : ℕ) → result.1 ≡ Err (StreamError.NotUtf8 place)
        → GivesNoText place (R.remaining source.old) (R.remaining source.new) }
    ensures no_fault { ((place : ℕ) → result.1 ≢ Err (StreamError.NotUtf8 place))
        → GivesNoFault (R.remaining source.old) (R.remaining source.new) }
    ensures too_long { result.1 ≡ Err StreamError.TooLong
        → GivesAtLeast (2 ^ 64 - 1) (R.remaining source.old) (R.remaining source.new) }
    ensures read { R.failures source.new ≡ R.failures source.old + failed_reads result.1 }
{
    read_tokens(alloc, source, cleaner.at_start(), references)
}

/// Reads a page, and prints its kept part as it arrives, after the earlier output.
pub fn print_cleaned<R: Source, W: Target, A: Allocator + Copy>(
    alloc: A,
    source: &mut R,
    cleaner: CleanPrinter<W, A>,
    references: &NamedReferences<A>,
) -> (CleanPrinter<W, A>, Result<(), StreamError>)
    ensures finishes { OnOk result.1 (ReadsPage (λ s bytes. printed_of s (page_messages references.now s bytes))
        (passage_of R.remaining source.old source.new (standing_of cleaner) (standing_of result.0))) }
    ensures items { OnOk result.1 (ReadsPageItems (PageItems references.now) printed_of
        (passage_of R.remaining source.old source.new (standing_of cleaner) (standing_of result.0))) }
    ensures beginning { OnErr result.1 (StopsPage (page_messages references.now) printed_of
        (passage_of R.remaining source.old source.new (standing_of cleaner) (standing_of result.0))) }
    ensures not_utf8 { (place : ℕ) → result.1 ≡ Err (StreamError.NotUtf8 place)
        → GivesNoText place (R.remaining source.old) (R.remaining source.new) }
    ensures no_fault { ((place : ℕ) → result.1 ≢ Err (StreamError.NotUtf8 place))
        → GivesNoFault (R.remaining source.old) (R.remaining source.new) }
    ensures too_long { result.1 ≡ Err StreamError.TooLong
        → GivesAtLeast (2 ^ 64 - 1) (R.remaining source.old) (R.remaining source.new) }
    ensures read { R.failures source.new ≡ R.failures source.old + failed_reads result.1 }
{
    references.table_laws();
    let (cleaner, read) = read_printed(alloc, source, cleaner, references);
    // A match in place of `?`: split for the proof.
    match read {
        Ok(()) => (cleaner, Ok(())),
        Err(error) => (cleaner, Err(error)),
    }
}

impl<W: Target + Drop> Filter<W> for CleanPrinter<W> {
    ghost use Rattle.html5cleaner.specs.Cleaning.{Standing, page_messages, printed_of, standing_of};

    type Settings = PolicySettings;

    ghost State = { Standing };

    ghost Part = { Message };

    ghost state = { standing_of };

    ghost means = { record {
      started = λ settings printed. record { policy = settings.policy; printed = printed };
      named = λ file s. s;
      begun = λ s. s;
      page = page_messages;
      handed = printed_of;
      printed = λ s. s.printed;
      found = λ s. false;
    } };

    fn new(alloc: Global, printer: Printer<W>, settings: PolicySettings) -> CleanPrinter<W>
        ensures { standing_of result ≡ record { policy = settings.policy; printed = printer.printed } }
    {
        CleanPrinter::new(alloc, printer, settings.policy)
    }

    fn name_file(&mut self, _alloc: Global, _file: &str) -> Result<(), StreamError> {
        Ok(())
    }

    fn read_page<R: Source>(
        self,
        alloc: Global,
        source: &mut R,
        references: &NamedReferences,
    ) -> (CleanPrinter<W>, Result<(), StreamError>) {
        print_cleaned(alloc, source, self, references)
    }

    fn has_found(&self) -> bool {
        false
    }

    fn finish(self, _alloc: Global) -> (Printer<W>, Result<(), StreamError>)
        ensures { result.0.printed ≡ self.printer.printed }
    {
        (self.into_inner(), Ok(()))
    }
}
