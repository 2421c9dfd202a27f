//! Pages that are cleaned as they arrive.
ghost use Rattle.std.specs.Prelude.{◌≡◌, ◌≢◌, ℕ, ◌+◌, ◌-◌, ◌^◌, Err, IfOk, OnOk, OnErr, true};
ghost use Rattle.std.specs.List.{list_all};
ghost use Rattle.html5stream.specs.Pages.{ReadsPage, ReadsPageItems, StopsPage, passage_of, RunsItems, runs_page, runs_handed, runs_after};
ghost use Rattle.html5stream.specs.Streams.{GivesNoText, GivesNoFault, GivesAtLeast, failed_reads};
ghost use Rattle.html5cleaner.specs.Allowed.{is_clean};
ghost use Rattle.html5cleaner.specs.Clean.{at_start, clean_step};

use crate::cleaner::Cleaner;
use devices::{ReadSource, Source};
use html5policy::Policy;
use html5stream::{StreamError, read_tokens};
use html5write::Writer;
use markup5ever::data::NamedReferences;
use std::alloc::Allocator;

/// Reads a page as it arrives, and keeps of it what a policy allows: of the whole page, or after an error of a
/// prefix of it. `Cleaner::into_page` gives what was kept.
pub fn clean_page<'p, R: Source, A: Allocator + Copy>(
    alloc: A,
    source: &mut R,
    references: &NamedReferences<A>,
    policy: &'p Policy<A>,
) -> (Cleaner<'p, A>, Result<(), StreamError>)
    ensures finishes { OnOk result.1 (ReadsPage (runs_after clean_step references.now)
        (passage_of R.remaining source.old source.new (at_start policy.now) result.0)) }
    ensures items { OnOk result.1 (ReadsPageItems (RunsItems clean_step references.now) (runs_handed clean_step)
        (passage_of R.remaining source.old source.new (at_start policy.now) result.0)) }
    ensures beginning { OnErr result.1 (StopsPage (runs_page clean_step references.now) (runs_handed clean_step)
        (passage_of R.remaining source.old source.new (at_start policy.now) result.0)) }
    ensures not_utf8 { (place : ℕ) → result.1 ≡ Err (StreamError.NotUtf8 place)
        → GivesNoText place (R.remaining source.old) (R.remaining source.new) }
    ensures no_fault { ((place : ℕ) → result.1 ≢ Err (StreamError.NotUtf8 place))
        → GivesNoFault (R.remaining source.old) (R.remaining source.new) }
    ensures too_long { result.1 ≡ Err StreamError.TooLong
        → GivesAtLeast (2 ^ 64 - 1) (R.remaining source.old) (R.remaining source.new) }
    ensures read { R.failures source.new ≡ R.failures source.old + failed_reads result.1 }
{
    read_tokens(alloc, source, Cleaner::new(alloc, policy), references)
}

/// What a policy keeps of a text.
pub fn clean_text<A: Allocator + Copy>(
    alloc: A,
    text: &str,
    references: &NamedReferences<A>,
    policy: &Policy<A>,
) -> Result<Writer<A>, StreamError>
    ensures kept { IfOk result (λ page. page
        ≡ (runs_after clean_step references.now (at_start policy.now) text.now).pieces) }
    ensures clean { IfOk result (λ page. list_all (is_clean policy.now) page ≡ true) }
{
    policy.soundness();
    let mut source = ReadSource::new(text.as_bytes());
    let (cleaner, read) = clean_page(alloc, &mut source, references, policy);
    // A match in place of `?`: split for the proof.
    match read {
        Ok(()) => Ok(cleaner.into_page()),
        Err(error) => Err(error),
    }
}
