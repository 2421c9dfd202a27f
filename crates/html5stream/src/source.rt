//! A source, read to its end piece by piece.
ghost use Rattle.std.specs.Prelude.{◌≡◌, ◌≢◌, ℕ, ◌+◌, ◌-◌, ◌^◌, ◌<◌, ◌≤◌, [], take, length, false, Err, IfOk, IfErr, OnOk, OnErr, string_bytes};
ghost use Rattle.std.specs.Io.KnownBytes.{Consumes, IsAtEnd};
ghost use Rattle.std.specs.Str.{chars};
ghost use Rattle.html5ever_interface.specs.Options.{options_of};
ghost use Rattle.html5states.specs.Telling.{faults_of};
ghost use Rattle.html5feed.specs.Starting.{CanStart};
ghost use Rattle.html5ever.specs.Tokenizer.{ReadsOn, Finishes};
ghost use Rattle.html5stream.specs.Errors.{stream_error};
ghost use Rattle.html5stream.specs.Streams.{ReadsSource, ReadsSourceItems, StopsSource, TellsGiven, GivesNoText, GivesNoFault, GivesAtLeast, failed_read, failed_reads, sink_fault, sink_faults};
ghost use Rattle.html5stream.specs.Taking.{TakesBytes, TakesText, FinishesText, StopsTelling, StopsAtEnd, StopsBytes, StopsText};

use crate::error::StreamError;
use devices::Source;
use html5ever::tokenizer::steps::feed_until_done;
use html5ever::tokenizer::{Tokenizer, TokenizerError};
use html5ever_interface::interface::sink::TokenSink;
use html5ever_interface::interface::token::Token;
use html5ever_interface::options::TokenizerOpts;
use markup5ever::buffer_queue::BufferQueue;
use markup5ever::data::NamedReferences;
use std::alloc::Allocator;
use utf8_pieces::Decoder;

/// How many bytes are read at once.
const CHUNK: usize = 4096;

// The error that a refused call of the tokenizer means.
fn error_of(error: TokenizerError) -> StreamError
    requires { error ≢ TokenizerError.Failed }
    ensures error { result ≡ stream_error error }
    ensures text_error { (place : ℕ) → result ≢ StreamError.NotUtf8 place }
    ensures short { result ≢ StreamError.TooLong }
    ensures read { failed_read result ≡ 0 }
    ensures faults { sink_fault result ≡ faults_of {T = Unit {0}} (Err error) }
{
    match error {
        TokenizerError::Memory => StreamError::Memory,
        TokenizerError::Sink => StreamError::Sink,
        TokenizerError::Failed => unreachable!(),
    }
}

// One read through the buffer.
fn read_bytes<R: Source>(source: &mut R, buffer: &mut [u8]) -> Result<usize, StreamError>
    requires { 0 < length buffer.old }
    ensures within { IfOk result (λ n. n ≤ length buffer.new) }
    ensures given { IfOk result (λ n. Consumes (R.remaining source.old) (R.remaining source.new) (take n buffer.new)) }
    ensures end { IfOk result (λ n. n ≡ 0 → IsAtEnd (R.remaining source.new)) }
    ensures err { IfErr result (λ error. error ≡ StreamError.Read) }
    ensures nothing { OnErr result (Consumes (R.remaining source.old) (R.remaining source.new) []) }
    ensures read { R.failures source.new ≡ R.failures source.old + failed_reads result }
    ensures faults { sink_faults result ≡ 0 }
{
    match source.read(buffer) {
        Ok(n) => Ok(n),
        Err(_) => Err(StreamError::Read),
    }
}

// Hands in a text when the queue is empty.
fn hand_in<A: Allocator>(queue: &mut BufferQueue<A>, text: String<A>) -> Result<(), StreamError>
    requires { queue.old.text ≡ [] }
    ensures ok { OnOk result (queue.new.text ≡ chars (string_bytes text)) }
    ensures err { IfErr result (λ error. error ≡ StreamError.Memory) }
{
    match queue.push_back(text) {
        Ok(()) => Ok(()),
        Err(_) => Err(StreamError::Memory),
    }
}

// Feeds the tokenizer a text, past its pauses.
fn feed_text<S: TokenSink<Token<A>>, A: Allocator + Copy>(
    tokenizer: &mut Tokenizer<'_, S, A>,
    queue: &mut BufferQueue<A>,
    text: String<A>,
) -> Result<(), StreamError>
    requires waiting { queue.old.text ≡ [] }
    requires going_on { tokenizer.old.ended ≡ false }
    requires not_failed { tokenizer.old.failed ≡ false }
    ensures reads { OnOk result (ReadsOn S.means tokenizer.old tokenizer.new (chars (string_bytes text))) }
    ensures taken { OnOk result (queue.new.text ≡ []) }
    ensures stops { IfErr result (λ error.
        StopsTelling S.means error tokenizer.old (chars (string_bytes text)) (S.means.state tokenizer.new.sink)) }
    ensures text_error { IfErr result (λ error. (place : ℕ) → error ≢ StreamError.NotUtf8 place) }
    ensures short { result ≢ Err StreamError.TooLong }
    ensures read { failed_reads result ≡ 0 }
    ensures faults { S.faults tokenizer.new.sink ≡ S.faults tokenizer.old.sink + sink_faults result }
    ensures rules { tokenizer.new.rules ≡ tokenizer.old.rules }
    ensures going_on { tokenizer.new.ended ≡ false }
    ensures not_failed { OnOk result (tokenizer.new.failed ≡ false) }
{
    hand_in(queue, text)?;
    match feed_until_done(tokenizer, queue) {
        Ok(()) => Ok(()),
        Err(error) => Err(error_of(error)),
    }
}

// Takes a piece: feeds the text that it completes.
fn take_bytes<S: TokenSink<Token<A>>, A: Allocator + Copy>(
    alloc: A,
    bytes: &[u8],
    decoder: &mut Decoder,
    tokenizer: &mut Tokenizer<'_, S, A>,
    queue: &mut BufferQueue<A>,
) -> Result<(), StreamError>
    requires waiting { queue.old.text ≡ [] }
    requires going_on { tokenizer.old.ended ≡ false }
    requires not_failed { tokenizer.old.failed ≡ false }
    ensures takes { OnOk result
        (TakesBytes S.means decoder.old decoder.new tokenizer.old tokenizer.new bytes.now) }
    ensures taken { OnOk result (queue.new.text ≡ []) }
    ensures stops { IfErr result (λ error.
        StopsBytes S.means error decoder.old tokenizer.old bytes.now (S.means.state tokenizer.new.sink)) }
    ensures short { result ≢ Err StreamError.TooLong }
    ensures read { failed_reads result ≡ 0 }
    ensures faults { S.faults tokenizer.new.sink ≡ S.faults tokenizer.old.sink + sink_faults result }
{
    let text = decoder.decode(alloc, bytes)?;
    feed_text(tokenizer, queue, text)?;
    Ok(())
}

// Feeds the tokenizer all that the source gives, up to its end.
fn read_text<R: Source, S: TokenSink<Token<A>>, A: Allocator + Copy>(
    alloc: A,
    source: &mut R,
    tokenizer: &mut Tokenizer<'_, S, A>,
) -> Result<(), StreamError>
    requires going_on { tokenizer.old.ended ≡ false }
    requires not_failed { tokenizer.old.failed ≡ false }
    ensures takes { OnOk result
        (TakesText S.means (R.remaining source.old) (R.remaining source.new) tokenizer.old tokenizer.new) }
    ensures stops { IfErr result (λ error. StopsText S.means error
        (R.remaining source.old) (R.remaining source.new) tokenizer.old (S.means.state tokenizer.new.sink)) }
    ensures too_long { result ≡ Err StreamError.TooLong
        → GivesAtLeast (2 ^ 64 - 1) (R.remaining source.old) (R.remaining source.new) }
    ensures read { R.failures source.new ≡ R.failures source.old + failed_reads result }
    ensures faults { S.faults tokenizer.new.sink ≡ S.faults tokenizer.old.sink + sink_faults result }
    ensures going_on { OnOk result (tokenizer.new.ended ≡ false) }
    ensures not_failed { OnOk result (tokenizer.new.failed ≡ false) }
{
    let mut buffer = [0; CHUNK];
    let mut decoder = Decoder::new();
    let mut queue = BufferQueue::new(alloc);
    // A loop is proved to end, so this one counts its reads.
    for _reads in 0..u64::MAX {
        let n = read_bytes(source, &mut buffer)?;
        if n == 0 {
            decoder.finish()?;
            return Ok(());
        }
        take_bytes(alloc, &buffer[..n], &mut decoder, tokenizer, &mut queue)?;
    }
    Err(StreamError::TooLong)
}

// Sends the end of the input, and has the sink finish.
fn emit_end<S: TokenSink<Token<A>>, A: Allocator + Copy>(
    tokenizer: &mut Tokenizer<'_, S, A>,
) -> Result<(), StreamError>
    requires going_on { tokenizer.old.ended ≡ false }
    requires not_failed { tokenizer.old.failed ≡ false }
    ensures finishes { OnOk result (Finishes S.means tokenizer.old (S.means.state tokenizer.new.sink)) }
    ensures stops { IfErr result (λ error.
        StopsAtEnd S.means error tokenizer.old (S.means.state tokenizer.new.sink)) }
    ensures text_error { IfErr result (λ error. (place : ℕ) → error ≢ StreamError.NotUtf8 place) }
    ensures short { result ≢ Err StreamError.TooLong }
    ensures read { failed_reads result ≡ 0 }
    ensures faults { S.faults tokenizer.new.sink ≡ S.faults tokenizer.old.sink + sink_faults result }
{
    match tokenizer.end() {
        Ok(()) => Ok(()),
        Err(error) => Err(error_of(error)),
    }
}

// Feeds the tokenizer all that the source gives, and sends the end.
fn read_all<R: Source, S: TokenSink<Token<A>>, A: Allocator + Copy>(
    alloc: A,
    source: &mut R,
    tokenizer: &mut Tokenizer<'_, S, A>,
) -> Result<(), StreamError>
    requires going_on { tokenizer.old.ended ≡ false }
    requires not_failed { tokenizer.old.failed ≡ false }
    ensures finishes { OnOk result (FinishesText S.means
        (R.remaining source.old) (R.remaining source.new) tokenizer.old (S.means.state tokenizer.new.sink)) }
    ensures stops { IfErr result (λ error. StopsText S.means error
        (R.remaining source.old) (R.remaining source.new) tokenizer.old (S.means.state tokenizer.new.sink)) }
    ensures too_long { result ≡ Err StreamError.TooLong
        → GivesAtLeast (2 ^ 64 - 1) (R.remaining source.old) (R.remaining source.new) }
    ensures read { R.failures source.new ≡ R.failures source.old + failed_reads result }
    ensures faults { S.faults tokenizer.new.sink ≡ S.faults tokenizer.old.sink + sink_faults result }
{
    read_text(alloc, source, tokenizer)?;
    emit_end(tokenizer)
}

/// Reads a source to its end, 4,096 bytes at a time, from the start of a stream, and hands the sink back.
/// The sink was sent all that the source's text tells, and finished. After an error it received a prefix
/// of what the text so far tells. No read is tried again after it failed.
pub fn read_source<R: Source, S: TokenSink<Token<A>>, A: Allocator + Copy>(
    alloc: A,
    source: &mut R,
    sink: S,
    opts: TokenizerOpts<A>,
    references: &NamedReferences<A>,
) -> (S, Result<(), StreamError>)
    requires { CanStart opts.initial_state }

    // What an `Ok` says: the source is at its end, and the sink was sent the whole reading of its text.
    ensures finishes { OnOk result.1 (ReadsSource S.means (options_of opts) references.now (S.means.state sink)
        (R.remaining source.old) (R.remaining source.new) (S.means.state result.0)) }
    ensures items { OnOk result.1 (ReadsSourceItems S.means (options_of opts) references.now (S.means.state sink)
        (R.remaining source.old) (R.remaining source.new) (S.means.state result.0)) }

    // When each error comes, and what it leaves.
    ensures decided { result.1 ≡ Err StreamError.Read → TellsGiven S.means (options_of opts) references.now
        (S.means.state sink) (R.remaining source.old) (R.remaining source.new) (S.means.state result.0) }
    ensures not_utf8 { (place : ℕ) → result.1 ≡ Err (StreamError.NotUtf8 place)
        → GivesNoText place (R.remaining source.old) (R.remaining source.new) }
    ensures no_fault { ((place : ℕ) → result.1 ≢ Err (StreamError.NotUtf8 place))
        → GivesNoFault (R.remaining source.old) (R.remaining source.new) }
    ensures too_long { result.1 ≡ Err StreamError.TooLong
        → GivesAtLeast (2 ^ 64 - 1) (R.remaining source.old) (R.remaining source.new) }
    ensures beginning { IfErr result.1 (λ error. StopsSource S.means error (options_of opts) references.now
        (S.means.state sink) (R.remaining source.old) (R.remaining source.new) (S.means.state result.0)) }
    ensures read { R.failures source.new ≡ R.failures source.old + failed_reads result.1 }
    ensures faults { S.faults result.0 ≡ S.faults sink + sink_faults result.1 }
{
    references.table_laws();
    let mut tokenizer = Tokenizer::new(alloc, sink, opts, references);
    let result = read_all(alloc, source, &mut tokenizer);
    (tokenizer.into_sink(), result)
}
