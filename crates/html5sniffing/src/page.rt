//! Pages in any encoding, which one call reads from a source of bytes for a handler.
ghost use Rattle.std.specs.Prelude.{OnOk, OnErr};
ghost use Rattle.html5stream.specs.Pages.{ReadsPage, ReadsPageItems, StopsPage, TagsItems, RunsItems, tags_page, tags_handed, tags_after, runs_page, runs_handed, runs_after};
ghost use Rattle.html5sniffing.specs.PageEncoding.{text_of_page};
ghost use Rattle.html5sniffing.specs.Pages.{text_passage};

use crate::lent::Lent;
use crate::opening::open_page;
use devices::Source;
use html5encodings::Encoding;
use html5ever_interface::interface::token::{Tag, Token};
use html5sinks::tags::TagHandler;
use html5sinks::text_runs::TokenHandler;
use html5stream::{StreamError, read_tags, read_tokens};
use markup5ever::data::NamedReferences;
use std::alloc::Allocator;

/// Reads a page in any encoding, as `read_tags` reads a text. The encoding is determined by the first bytes, as
/// `sniff` does, and bytes that are invalid in it are read as U+FFFD. The handler is called once.
pub fn read_tags_of_bytes<R: Source, H: TagHandler<Tag<A>>, A: Allocator + Copy>(
    alloc: A,
    source: &mut R,
    handler: H,
    references: &NamedReferences<A>,
    said: Option<Encoding>,
    fallback: Option<Encoding>,
) -> (H, Result<(), StreamError>)
    ensures finishes { OnOk result.1 (ReadsPage (tags_after H.step references.now)
        (text_passage (text_of_page references.now said fallback) (R.remaining source.old)
        (H.state handler) (H.state result.0))) }
    ensures items { OnOk result.1 (ReadsPageItems (TagsItems H.step references.now) (tags_handed H.step)
        (text_passage (text_of_page references.now said fallback) (R.remaining source.old)
        (H.state handler) (H.state result.0))) }
    ensures beginning { OnErr result.1 (StopsPage (tags_page H.step references.now) (tags_handed H.step)
        (text_passage (text_of_page references.now said fallback) (R.remaining source.old)
        (H.state handler) (H.state result.0))) }
{
    let opening = match open_page(alloc, source, references, said, fallback) {
        Ok(opening) => opening,
        Err(error) => return (handler, Err(error)),
    };
    let mut text = opening.text(alloc, Lent { source });
    read_tags(alloc, &mut text, handler, references)
}

/// Reads a page in any encoding, as `read_tokens` reads a text. The encoding is determined by the first bytes, as
/// `sniff` does, and bytes that are invalid in it are read as U+FFFD. The handler is called once.
pub fn read_tokens_of_bytes<R: Source, H: TokenHandler<Token<A>>, A: Allocator + Copy>(
    alloc: A,
    source: &mut R,
    handler: H,
    references: &NamedReferences<A>,
    said: Option<Encoding>,
    fallback: Option<Encoding>,
) -> (H, Result<(), StreamError>)
    ensures finishes { OnOk result.1 (ReadsPage (runs_after H.step references.now)
        (text_passage (text_of_page references.now said fallback) (R.remaining source.old)
        (H.state handler) (H.state result.0))) }
    ensures items { OnOk result.1 (ReadsPageItems (RunsItems H.step references.now) (runs_handed H.step)
        (text_passage (text_of_page references.now said fallback) (R.remaining source.old)
        (H.state handler) (H.state result.0))) }
    ensures beginning { OnErr result.1 (StopsPage (runs_page H.step references.now) (runs_handed H.step)
        (text_passage (text_of_page references.now said fallback) (R.remaining source.old)
        (H.state handler) (H.state result.0))) }
{
    let opening = match open_page(alloc, source, references, said, fallback) {
        Ok(opening) => opening,
        Err(error) => return (handler, Err(error)),
    };
    let mut text = opening.text(alloc, Lent { source });
    read_tokens(alloc, &mut text, handler, references)
}
