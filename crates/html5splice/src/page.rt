//! Pages that are spliced.
ghost use Rattle.std.specs.Prelude.{◌≡◌, ◌≢◌, ℕ, ◌+◌, ◌<◌, ◌≤◌, ◌++◌, [], false, length, take, Err, IfErr, IfOk, OnErr, OnOk, string_bytes};
ghost use Rattle.std.specs.Io.KnownBytes.{Consumes, IsAtEnd};
ghost use Rattle.std.specs.List.{concat};
ghost use Rattle.std.specs.Str.{chars};
ghost use Rattle.html5splice.specs.Pages.{page_parts};
ghost use Rattle.html5splice.specs.Splicing.{EndsSplicing, SplicesBytes, SplicesOn, SplicesSource, SplicesWhole, StopsBytes, StopsSource, StopsSplicing, splicing_of};
ghost use Rattle.html5stream.specs.Pages.{ReadsPage, StopsPage, passage_of};
ghost use Rattle.html5stream.specs.Streams.{failed_reads};

use crate::splicer::Splicer;
use crate::splicing::Splicing;
use devices::{ReadSource, Source};
use html5ever_interface::interface::token::Token;
use html5ever_interface::options::TokenizerOpts;
use html5places::{PlaceError, PlaceReader};
use html5rewrite::Output;
use html5stream::StreamError;
use markup5ever::data::NamedReferences;
use std::alloc::Allocator;
use utf8_pieces::Decoder;

/// How many bytes are read at once.
const CHUNK: usize = 4096;

// The error that a refused call of a reader means.
fn error_of(error: PlaceError) -> StreamError
    requires { error ≢ PlaceError.Failed }
    ensures { failed_reads {T = Unit {0}} (Err result) ≡ 0 }
{
    match error {
        PlaceError::Memory => StreamError::Memory,
        PlaceError::Handler => StreamError::Sink,
        PlaceError::TooLong => StreamError::TooLong,
        PlaceError::Failed => unreachable!(),
    }
}

// Reads a text on, and splices it.
fn splice_on<H: Splicer<Token<A>, A>, O: Output, A: Allocator + Copy>(
    reader: &mut PlaceReader<'_, A>,
    splicing: &mut Splicing<H, O, A>,
    text: &str,
) -> Result<(), StreamError>
    requires { reader.old.over ≡ false }
    ensures splices { OnOk result (SplicesOn H.splices reader.old.reading reader.new.reading
        (splicing_of H.state O.bytes splicing.old) (splicing_of H.state O.bytes splicing.new) (chars text.now)) }
    ensures stops { OnErr result (StopsSplicing H.splices reader.old.reading
        (splicing_of H.state O.bytes splicing.old) (chars text.now) (O.bytes splicing.new.output)) }
    ensures rules { OnOk result (reader.new.reading.rules ≡ reader.old.reading.rules) }
    ensures going_on { OnOk result (reader.new.over ≡ false) }
    ensures read { failed_reads result ≡ 0 }
{
    let Ok(()) = splicing.push(text) else {
        return Err(StreamError::Memory);
    };
    match reader.read(text, splicing) {
        Ok(()) => Ok(()),
        Err(error) => Err(error_of(error)),
    }
}

// Reads the end.
fn splice_end<H: Splicer<Token<A>, A>, O: Output, A: Allocator + Copy>(
    reader: &mut PlaceReader<'_, A>,
    splicing: &mut Splicing<H, O, A>,
) -> Result<(), StreamError>
    requires { reader.old.over ≡ false }
    ensures ends { OnOk result (EndsSplicing H.splices reader.old.reading
        (splicing_of H.state O.bytes splicing.old) (O.bytes splicing.new.output)) }
    ensures stops { OnErr result (StopsSplicing H.splices reader.old.reading
        (splicing_of H.state O.bytes splicing.old) [] (O.bytes splicing.new.output)) }
    ensures read { failed_reads result ≡ 0 }
{
    match reader.end(splicing) {
        Ok(()) => Ok(()),
        Err(error) => Err(error_of(error)),
    }
}

// One read through the buffer.
fn read_bytes<R: Source>(source: &mut R, buffer: &mut [u8]) -> Result<usize, StreamError>
    requires { 0 < length buffer.old }
    ensures within { IfOk result (λ n. n ≤ length buffer.new) }
    ensures given { IfOk result (λ n. Consumes (R.remaining source.old) (R.remaining source.new) (take n buffer.new)) }
    ensures end { IfOk result (λ n. n ≡ 0 → IsAtEnd (R.remaining source.new)) }
    ensures err { IfErr result (λ error. error ≡ StreamError.Read) }
    ensures nothing { OnErr result (Consumes (R.remaining source.old) (R.remaining source.new) []) }
    ensures read { R.failures source.new ≡ R.failures source.old + failed_reads result }
{
    match source.read(buffer) {
        Ok(n) => Ok(n),
        Err(_) => Err(StreamError::Read),
    }
}

// Takes a piece: splices the text that it completes.
fn splice_bytes<H: Splicer<Token<A>, A>, O: Output, A: Allocator + Copy>(
    alloc: A,
    bytes: &[u8],
    decoder: &mut Decoder,
    reader: &mut PlaceReader<'_, A>,
    splicing: &mut Splicing<H, O, A>,
) -> Result<(), StreamError>
    requires { reader.old.over ≡ false }
    ensures splices { OnOk result (SplicesBytes H.splices decoder.old decoder.new reader.old reader.new
        (splicing_of H.state O.bytes splicing.old) (splicing_of H.state O.bytes splicing.new) bytes.now) }
    ensures stops { OnErr result (StopsBytes H.splices decoder.old reader.old.reading
        (splicing_of H.state O.bytes splicing.old) bytes.now (O.bytes splicing.new.output)) }
    ensures read { failed_reads result ≡ 0 }
{
    let text = match decoder.decode(alloc, bytes) {
        Ok(text) => text,
        Err(error) => return Err(StreamError::from(error)),
    };
    // A match in place of the call: split for the proof.
    match splice_on(reader, splicing, &text) {
        Ok(()) => Ok(()),
        Err(error) => Err(error),
    }
}

// Splices all that a source gives, up to its end.
fn splice_source<R: Source, H: Splicer<Token<A>, A>, O: Output, A: Allocator + Copy>(
    alloc: A,
    source: &mut R,
    reader: &mut PlaceReader<'_, A>,
    splicing: &mut Splicing<H, O, A>,
) -> Result<(), StreamError>
    requires { reader.old.over ≡ false }
    ensures splices { OnOk result (SplicesSource H.splices (R.remaining source.old) (R.remaining source.new)
        reader.old.reading reader.new.reading
        (splicing_of H.state O.bytes splicing.old) (splicing_of H.state O.bytes splicing.new)) }
    ensures stops { OnErr result (StopsSource H.splices (R.remaining source.old) (R.remaining source.new)
        reader.old.reading (splicing_of H.state O.bytes splicing.old) (O.bytes splicing.new.output)) }
    ensures going_on { OnOk result (reader.new.over ≡ false) }
    ensures read { R.failures source.new ≡ R.failures source.old + failed_reads result }
{
    let mut buffer = [0; CHUNK];
    let mut decoder = Decoder::new();
    // A loop is proved to end, so this one counts its reads.
    for _reads in 0..u64::MAX {
        let n = read_bytes(source, &mut buffer)?;
        if n == 0 {
            decoder.finish()?;
            return Ok(());
        }
        splice_bytes(alloc, &buffer[..n], &mut decoder, reader, splicing)?;
    }
    Err(StreamError::TooLong)
}

// Splices all that a source gives, and its end.
fn splice_whole<R: Source, H: Splicer<Token<A>, A>, O: Output, A: Allocator + Copy>(
    alloc: A,
    source: &mut R,
    reader: &mut PlaceReader<'_, A>,
    splicing: &mut Splicing<H, O, A>,
) -> Result<(), StreamError>
    requires { reader.old.over ≡ false }
    ensures splices { OnOk result (SplicesWhole H.splices (R.remaining source.old) (R.remaining source.new)
        reader.old.reading (splicing_of H.state O.bytes splicing.old) (O.bytes splicing.new.output)) }
    ensures stops { OnErr result (StopsSource H.splices (R.remaining source.old) (R.remaining source.new)
        reader.old.reading (splicing_of H.state O.bytes splicing.old) (O.bytes splicing.new.output)) }
    ensures read { R.failures source.new ≡ R.failures source.old + failed_reads result }
{
    // Matches in place of `?`: split for the proof.
    match splice_source(alloc, source, reader, splicing) {
        Ok(()) => match splice_end(reader, splicing) {
            Ok(()) => Ok(()),
            Err(error) => Err(error),
        },
        Err(error) => Err(error),
    }
}

/// Reads a page as it arrives, and writes it with what the splicer replaces, after the earlier output. It writes
/// the whole page, or after an error a prefix of it. What is not replaced is written as it came, to the byte.
///
/// It holds what came since the last token, so the memory that it takes is that of the longest run and token.
pub fn splice_page<R: Source, H: Splicer<Token<A>, A>, O: Output, A: Allocator + Copy>(
    alloc: A,
    source: &mut R,
    splicer: H,
    output: O,
    references: &NamedReferences<A>,
) -> (O, Result<(), StreamError>)
    ensures finishes { OnOk result.1 (ReadsPage (λ before bytes. before ++ concat (page_parts H.splices references.now (H.state splicer) bytes))
        (passage_of R.remaining source.old source.new (O.bytes output) (O.bytes result.0))) }
    ensures beginning { OnErr result.1 (StopsPage (λ before bytes. page_parts H.splices references.now (H.state splicer) bytes)
        (λ before written. before ++ concat written)
        (passage_of R.remaining source.old source.new (O.bytes output) (O.bytes result.0))) }
    ensures read { R.failures source.new ≡ R.failures source.old + failed_reads result.1 }
{
    let mut splicing = Splicing::new(alloc, splicer, output);
    let mut reader = PlaceReader::new(alloc, references, TokenizerOpts::default());
    // A match in place of the call: split for the proof.
    match splice_whole(alloc, source, &mut reader, &mut splicing) {
        Ok(()) => (splicing.into_output(), Ok(())),
        Err(error) => (splicing.into_output(), Err(error)),
    }
}

/// A text with what the splicer replaces.
pub fn splice_text<H: Splicer<Token<A>, A>, A: Allocator + Copy>(
    alloc: A,
    text: &str,
    splicer: H,
    references: &NamedReferences<A>,
) -> Result<String<A>, StreamError>
    ensures { IfOk result (λ page. string_bytes page ≡ concat (page_parts H.splices references.now (H.state splicer) text.now)) }
{
    let mut source = ReadSource::new(text.as_bytes());
    let (page, read) = splice_page(alloc, &mut source, splicer, String::new(alloc), references);
    // A match in place of `?`: split for the proof.
    match read {
        Ok(()) => Ok(page),
        Err(error) => Err(error),
    }
}
