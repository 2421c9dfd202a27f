//! Pages that are amended.
ghost use Rattle.std.specs.Prelude.{◌≡◌, ◌+◌, ◌++◌, [], IfOk, OnErr, OnOk, string_bytes};
ghost use Rattle.std.specs.List.{concat};
ghost use Rattle.html5amend.specs.Amending.{amending};
ghost use Rattle.html5splice.specs.Pages.{page_parts};
ghost use Rattle.html5stream.specs.Pages.{ReadsPage, StopsPage, passage_of};
ghost use Rattle.html5stream.specs.Streams.{failed_reads};

use crate::amender::Amender;
use crate::amending::Amending;
use crate::element::Element;
use crate::other::Other;
use devices::{ReadSource, Source};
use html5rewrite::Output;
use html5splice::splice_page;
use html5stream::StreamError;
use markup5ever::data::NamedReferences;
use std::alloc::Allocator;

/// Reads a page as it arrives, and writes it as the handler amends it, after the earlier output. It writes the
/// whole page, or after an error a prefix of it. What is not amended is written as it came, to the byte.
///
/// It holds what came since the last token, and the elements that wait for their end tag.
pub fn amend_page<R: Source, M: Amender<Element<A>, Other<A>>, O: Output, A: Allocator + Copy>(
    alloc: A,
    source: &mut R,
    amender: M,
    output: O,
    references: &NamedReferences<A>,
) -> (O, Result<(), StreamError>)
    ensures finishes { OnOk result.1 (ReadsPage (λ before bytes. before ++ concat (page_parts (amending (M.means amender)) references.now [] bytes))
        (passage_of R.remaining source.old source.new (O.bytes output) (O.bytes result.0))) }
    ensures beginning { OnErr result.1 (StopsPage (λ before bytes. page_parts (amending (M.means amender)) references.now [] bytes)
        (λ before written. before ++ concat written)
        (passage_of R.remaining source.old source.new (O.bytes output) (O.bytes result.0))) }
    ensures read { R.failures source.new ≡ R.failures source.old + failed_reads result.1 }
{
    let amending = Amending::new(alloc, amender);
    splice_page(alloc, source, amending, output, references)
}

/// A text as the handler amends it.
pub fn amend_text<M: Amender<Element<A>, Other<A>>, A: Allocator + Copy>(
    alloc: A,
    text: &str,
    amender: M,
    references: &NamedReferences<A>,
) -> Result<String<A>, StreamError>
    ensures { IfOk result (λ page. string_bytes page ≡ concat (page_parts (amending (M.means amender)) references.now [] text.now)) }
{
    let mut source = ReadSource::new(text.as_bytes());
    let (page, read) = amend_page(alloc, &mut source, amender, String::new(alloc), references);
    // A match in place of `?`: split for the proof.
    match read {
        Ok(()) => Ok(page),
        Err(error) => Err(error),
    }
}
