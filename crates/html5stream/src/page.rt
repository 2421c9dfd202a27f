//! Pages, which one call reads from a source for a handler.
ghost use Rattle.std.specs.Prelude.{◌≡◌, ◌≢◌, ℕ, ◌+◌, ◌-◌, ◌^◌, Err, OnOk, OnErr};
ghost use Rattle.html5stream.specs.Pages.{ReadsPage, ReadsPageItems, StopsPage, passage_of, TagsItems, RunsItems, tags_page, tags_handed, tags_after, runs_page, runs_handed, runs_after};
ghost use Rattle.html5stream.specs.Streams.{GivesNoText, GivesNoFault, GivesAtLeast, failed_reads};

use crate::error::StreamError;
use crate::source::read_source;
use devices::Source;
use html5ever_interface::interface::token::{Tag, Token};
use html5ever_interface::options::TokenizerOpts;
use html5sinks::tags::{TagHandler, TagsOnly};
use html5sinks::text_runs::{TextRuns, TokenHandler};
use markup5ever::data::NamedReferences;
use std::alloc::Allocator;

/// Reads a page as it arrives, and hands each tag to the handler, which comes back. The content of
/// scripts, styles and their like is read as the standard reads it.
pub fn read_tags<R: Source, H: TagHandler<Tag<A>>, A: Allocator + Copy>(
    alloc: A,
    source: &mut R,
    handler: H,
    references: &NamedReferences<A>,
) -> (H, Result<(), StreamError>)
    ensures finishes { OnOk result.1 (ReadsPage (tags_after H.step references.now)
        (passage_of R.remaining source.old source.new (H.state handler) (H.state result.0))) }
    ensures items { OnOk result.1 (ReadsPageItems (TagsItems H.step references.now) (tags_handed H.step)
        (passage_of R.remaining source.old source.new (H.state handler) (H.state result.0))) }
    ensures beginning { OnErr result.1 (StopsPage (tags_page H.step references.now) (tags_handed H.step)
        (passage_of R.remaining source.old source.new (H.state handler) (H.state result.0))) }
    ensures not_utf8 { (place : ℕ) → result.1 ≡ Err (StreamError.NotUtf8 place)
        → GivesNoText place (R.remaining source.old) (R.remaining source.new) }
    ensures no_fault { ((place : ℕ) → result.1 ≢ Err (StreamError.NotUtf8 place))
        → GivesNoFault (R.remaining source.old) (R.remaining source.new) }
    ensures too_long { result.1 ≡ Err StreamError.TooLong
        → GivesAtLeast (2 ^ 64 - 1) (R.remaining source.old) (R.remaining source.new) }
    ensures read { R.failures source.new ≡ R.failures source.old + failed_reads result.1 }
{
    references.table_laws();
    let tags = TagsOnly::new(handler);
    let opts = TokenizerOpts::default();
    let (told, read) = read_source(alloc, source, tags, opts, references);
    (told.into_inner(), read)
}

/// Reads a page as it arrives, and hands each whole run of text to the handler with the token after it;
/// the handler comes back.
pub fn read_tokens<R: Source, H: TokenHandler<Token<A>>, A: Allocator + Copy>(
    alloc: A,
    source: &mut R,
    handler: H,
    references: &NamedReferences<A>,
) -> (H, Result<(), StreamError>)
    ensures finishes { OnOk result.1 (ReadsPage (runs_after H.step references.now)
        (passage_of R.remaining source.old source.new (H.state handler) (H.state result.0))) }
    ensures items { OnOk result.1 (ReadsPageItems (RunsItems H.step references.now) (runs_handed H.step)
        (passage_of R.remaining source.old source.new (H.state handler) (H.state result.0))) }
    ensures beginning { OnErr result.1 (StopsPage (runs_page H.step references.now) (runs_handed H.step)
        (passage_of R.remaining source.old source.new (H.state handler) (H.state result.0))) }
    ensures not_utf8 { (place : ℕ) → result.1 ≡ Err (StreamError.NotUtf8 place)
        → GivesNoText place (R.remaining source.old) (R.remaining source.new) }
    ensures no_fault { ((place : ℕ) → result.1 ≢ Err (StreamError.NotUtf8 place))
        → GivesNoFault (R.remaining source.old) (R.remaining source.new) }
    ensures too_long { result.1 ≡ Err StreamError.TooLong
        → GivesAtLeast (2 ^ 64 - 1) (R.remaining source.old) (R.remaining source.new) }
    ensures read { R.failures source.new ≡ R.failures source.old + failed_reads result.1 }
{
    references.table_laws();
    let runs = TextRuns::new(alloc, handler);
    let opts = TokenizerOpts::default();
    let (joined, read) = read_source(alloc, source, runs, opts, references);
    (joined.into_inner(), read)
}
