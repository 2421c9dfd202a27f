//! Pages in any encoding.
ghost use Rattle.std.specs.Prelude.{◌≡◌, IfOk, IsOk, OnErr, OnOk, option_map};
ghost use Rattle.html5programs.specs.Encodings.{IsEncodingAsked, IsUnknownLabel, decoding_of};
ghost use Rattle.html5programs.specs.Filtering.{ReadsText};

use crate::filter::Filter;
use crate::input::Input;
use crate::progress::Meter;
use decoded_source::DecodedSource;
use devices::{Source, Target};
use html5encodings::Encoding;
use html5sniffing::{Fronted, Lent, open_page};
use html5stream::StreamError;
use markup5ever::data::NamedReferences;
use std::alloc::Global;
use std::io::{ErrorKind, Read};
use thiserror::Error;

/// A label names no encoding.
#[derive(Clone, Copy, Debug, PartialEq, Eq, Error)]
#[error("no such encoding: labels are those of the Encoding Standard, such as utf-8, windows-1252 or shift_jis")]
pub struct UnknownLabel;

/// Why a page was not read to its end.
#[derive(Clone, Copy, Debug, PartialEq, Eq)]
pub enum PageError {
    Stream(StreamError),
    /// The bytes from this place on, which is on this line, are invalid in this encoding.
    Bytes {
        encoding: Encoding,
        place: u64,
        line: u64,
    },
}

/// How the bytes of pages are decoded.
#[derive(Clone, Copy, Debug, PartialEq, Eq)]
pub enum PageDecoding {
    /// As UTF-8, and invalid bytes are refused.
    Utf8Alone,
    /// By this encoding, or one that a byte order mark names, and bytes that are invalid in it are refused.
    Fatal(Encoding),
    /// By the encoding that each page is in, where this one is declared for them.
    ByPage(Option<Encoding>),
}

/// The encoding that a label names, or none if no label is given.
pub fn encoding_asked(label: Option<&str>) -> Result<Option<Encoding>, UnknownLabel>
    ensures known { IfOk result (IsEncodingAsked (option_map (λ label. label.now) label.entry)) }
    ensures unknown { OnErr result (IsUnknownLabel (option_map (λ label. label.now) label.entry)) }
{
    let Some(label) = label else {
        return Ok(None);
    };
    match Encoding::for_label(label) {
        Some(encoding) => Ok(Some(encoding)),
        None => Err(UnknownLabel),
    }
}

/// How pages are decoded with this declared encoding, where bytes that are invalid in it may be replaced or not.
pub fn decoding_of(is_fatal: bool, said: Option<Encoding>) -> PageDecoding
    ensures { result ≡ decoding_of is_fatal said }
{
    match said {
        None if is_fatal => PageDecoding::Utf8Alone,
        Some(encoding) if is_fatal => PageDecoding::Fatal(encoding),
        _ => PageDecoding::ByPage(said),
    }
}

// The same answer in words of pages, where a text was read that is in this encoding.
fn read_of_text<S: Source>(
    read: Result<(), StreamError>,
    text: &DecodedSource<S>,
    encoding: Encoding,
) -> Result<(), PageError>
    ensures { OnOk result (IsOk read) }
{
    let Err(error) = read else {
        return Ok(());
    };
    let fault = match text.fault() {
        Some(fault) if error == StreamError::Read => fault.kind(),
        _ => return Err(PageError::Stream(error)),
    };
    match fault {
        ErrorKind::OutOfMemory => Err(PageError::Stream(StreamError::Memory)),
        ErrorKind::InvalidData => Err(PageError::Bytes {
            encoding,
            place: text.place(),
            line: text.line(),
        }),
        _ => Err(PageError::Stream(error)),
    }
}

// Reads a page by a filter, in the encoding that it is in. Bytes that are invalid in it are read as U+FFFD.
fn read_by_page<F: Filter<W>, W: Target + Drop, S: Source>(
    alloc: Global,
    filter: F,
    references: &NamedReferences,
    said: Option<Encoding>,
    source: &mut S,
) -> (F, Result<(), PageError>)
    ensures { OnOk result.1 (ReadsText F.means references.now (PageDecoding.ByPage said)
        (S.remaining source.old) (S.remaining source.new) (F.state filter) (F.state result.0)) }
{
    let opening = match open_page(alloc, source, references, said, None) {
        Ok(opening) => opening,
        Err(error) => return (filter, Err(PageError::Stream(error))),
    };
    let encoding = opening.encoding;
    let mut text = opening.text(alloc, Lent { source });
    let (filter, read) = filter.read_page(alloc, &mut text, references);
    (filter, read_of_text(read, &text, encoding))
}

// Reads a page by a filter, in this encoding or in that which its byte order mark names, up to bytes that are invalid
// in it.
fn read_fatally<F: Filter<W>, W: Target + Drop, S: Source>(
    alloc: Global,
    filter: F,
    references: &NamedReferences,
    said: Encoding,
    source: &mut S,
) -> (F, Result<(), PageError>)
    ensures { OnOk result.1 (ReadsText F.means references.now (PageDecoding.Fatal said)
        (S.remaining source.old) (S.remaining source.new) (F.state filter) (F.state result.0)) }
{
    let opening = match open_page(alloc, source, references, Some(said), None) {
        Ok(opening) => opening,
        Err(error) => return (filter, Err(PageError::Stream(error))),
    };
    let encoding = opening.encoding;
    let fronted = Fronted::new(opening.front, opening.is_ended, Lent { source });
    let mut text = DecodedSource::fatal(alloc, fronted, encoding);
    let (filter, read) = filter.read_page(alloc, &mut text, references);
    (filter, read_of_text(read, &text, encoding))
}

// The same answer in words of pages, where the bytes of an input were read as UTF-8.
fn read_of_utf8<R, M: Meter>(
    read: Result<(), StreamError>,
    input: &Input<R, M>,
) -> Result<(), PageError>
    ensures { OnOk result (IsOk read) }
{
    match read {
        Ok(()) => Ok(()),
        Err(StreamError::NotUtf8 { valid_up_to }) => Err(PageError::Bytes {
            encoding: Encoding::Utf8,
            place: valid_up_to,
            line: input.line_at(valid_up_to),
        }),
        Err(error) => Err(PageError::Stream(error)),
    }
}

// Reads a page by a filter, as UTF-8.
fn read_utf8<F: Filter<W>, W: Target + Drop, R: Read, M: Meter>(
    alloc: Global,
    filter: F,
    references: &NamedReferences,
    input: &mut Input<R, M>,
) -> (F, Result<(), PageError>)
    ensures text { OnOk result.1 (ReadsText F.means references.now PageDecoding.Utf8Alone
        (R.remaining input.old.inner) (R.remaining input.new.inner) (F.state filter) (F.state result.0)) }
    ensures read { OnOk result.1 (input.new.failures ≡ input.old.failures) }
{
    input.begin_lines();
    let (filter, read) = filter.read_page(alloc, input, references);
    (filter, read_of_utf8(read, input))
}

/// Reads a page by a filter.
pub fn read_page<F: Filter<W>, W: Target + Drop, R: Read, M: Meter>(
    alloc: Global,
    filter: F,
    references: &NamedReferences,
    decoding: PageDecoding,
    input: &mut Input<R, M>,
) -> (F, Result<(), PageError>)
    ensures text { OnOk result.1 (ReadsText F.means references.now decoding
        (R.remaining input.old.inner) (R.remaining input.new.inner) (F.state filter) (F.state result.0)) }
    ensures read { OnOk result.1 (decoding ≡ PageDecoding.Utf8Alone → input.new.failures ≡ input.old.failures) }
{
    match decoding {
        PageDecoding::Utf8Alone => read_utf8(alloc, filter, references, input),
        PageDecoding::Fatal(said) => read_fatally(alloc, filter, references, said, input),
        PageDecoding::ByPage(said) => read_by_page(alloc, filter, references, said, input),
    }
}
