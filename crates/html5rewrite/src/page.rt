//! Pages that are rewritten.
ghost use Rattle.std.specs.Prelude.{◌≡◌, ◌≢◌, ℕ, ◌+◌, ◌-◌, ◌^◌, [], Err, IfOk, OnOk, OnErr, string_bytes};
ghost use Rattle.html5stream.specs.Pages.{ReadsPage, ReadsPageItems, StopsPage, passage_of, runs_page, runs_handed, runs_after};
ghost use Rattle.html5stream.specs.Streams.{GivesNoText, GivesNoFault, GivesAtLeast, failed_reads};
ghost use Rattle.html5rewrite.specs.Writing.{PageItems, page_bytes, page_messages, pieces_of, start_of_writing, writing_of, writing_step, written_of};

use crate::output::Output;
use crate::rewriter::TagRewriter;
use crate::rewriting::Rewriting;
use devices::{ReadSource, Source};
use html5ever_interface::interface::token::Tag;
use html5stream::{StreamError, read_tokens};
use markup5ever::data::NamedReferences;
use std::alloc::Allocator;

// Reads a page, and writes it as the rewriter says, in the words of the handler.
fn read_rewritten<R: Source, H: TagRewriter<Tag<A>>, O: Output, A: Allocator + Copy>(
    alloc: A,
    source: &mut R,
    rewriter: H,
    output: O,
    references: &NamedReferences<A>,
) -> (Rewriting<H, O, A>, Result<(), StreamError>)
    ensures finishes { OnOk result.1 (ReadsPage (runs_after writing_step references.now)
        (passage_of R.remaining source.old source.new
        (start_of_writing (H.means rewriter) (O.bytes output)) (writing_of H.means O.bytes result.0))) }
    ensures beginning { OnErr result.1 (StopsPage (runs_page writing_step references.now) (runs_handed writing_step)
        (passage_of R.remaining source.old source.new
        (start_of_writing (H.means rewriter) (O.bytes output)) (writing_of H.means O.bytes result.0))) }
    ensures not_utf8 { (place : ℕ) → result.1 ≡ Err (StreamError.NotUtf8 place)
        → GivesNoText place (R.remaining source.old) (R.remaining source.new) }
    ensures no_fault { ((place : ℕ) → result.1 ≢ Err (StreamError.NotUtf8 place))
        → GivesNoFault (R.remaining source.old) (R.remaining source.new) }
    ensures too_long { result.1 ≡ Err StreamError.TooLong
        → GivesAtLeast (2 ^ 64 - 1) (R.remaining source.old) (R.remaining source.new) }
    ensures read { R.failures source.new ≡ R.failures source.old + failed_reads result.1 }
{
    let handler = Rewriting::new(alloc, rewriter, output);
    read_tokens(alloc, source, handler, references)
}

/// Reads a page as it arrives, and writes it as the rewriter says, after the earlier output. It
/// writes the whole page, or after an error a prefix of it.
pub fn rewrite_page<R: Source, H: TagRewriter<Tag<A>>, O: Output, A: Allocator + Copy>(
    alloc: A,
    source: &mut R,
    rewriter: H,
    output: O,
    references: &NamedReferences<A>,
) -> (O, Result<(), StreamError>)
    ensures finishes { OnOk result.1 (ReadsPage (λ before bytes. written_of (H.means rewriter) before
        (page_messages (H.means rewriter) references.now before bytes))
        (passage_of R.remaining source.old source.new (O.bytes output) (O.bytes result.0))) }
    ensures items { OnOk result.1 (ReadsPageItems (PageItems (H.means rewriter) references.now) (written_of (H.means rewriter))
        (passage_of R.remaining source.old source.new (O.bytes output) (O.bytes result.0))) }
    ensures beginning { OnErr result.1 (StopsPage (page_messages (H.means rewriter) references.now)
        (written_of (H.means rewriter))
        (passage_of R.remaining source.old source.new (O.bytes output) (O.bytes result.0))) }
    ensures not_utf8 { (place : ℕ) → result.1 ≡ Err (StreamError.NotUtf8 place)
        → GivesNoText place (R.remaining source.old) (R.remaining source.new) }
    ensures no_fault { ((place : ℕ) → result.1 ≢ Err (StreamError.NotUtf8 place))
        → GivesNoFault (R.remaining source.old) (R.remaining source.new) }
    ensures too_long { result.1 ≡ Err StreamError.TooLong
        → GivesAtLeast (2 ^ 64 - 1) (R.remaining source.old) (R.remaining source.new) }
    ensures read { R.failures source.new ≡ R.failures source.old + failed_reads result.1 }
{
    references.table_laws();
    let (handler, read) = read_rewritten(alloc, source, rewriter, output, references);
    match read {
        Ok(()) => (handler.into_output(), Ok(())),
        Err(error) => (handler.into_output(), Err(error)),
    }
}

/// A text, rewritten.
pub fn rewrite_text<H: TagRewriter<Tag<A>>, A: Allocator + Copy>(
    alloc: A,
    text: &str,
    rewriter: H,
    references: &NamedReferences<A>,
) -> Result<String<A>, StreamError>
    ensures { IfOk result (λ page. string_bytes page ≡ page_bytes (pieces_of (H.means rewriter)
        (page_messages (H.means rewriter) references.now [] text.now))) }
{
    let mut source = ReadSource::new(text.as_bytes());
    let (page, read) = rewrite_page(alloc, &mut source, rewriter, String::new(alloc), references);
    // A match in place of `?`: split for the proof.
    match read {
        Ok(()) => Ok(page),
        Err(error) => Err(error),
    }
}
