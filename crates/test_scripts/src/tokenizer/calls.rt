//! Calls of a tokenizer, which answer by words. Each tests at run time what the call requires, and none
//! says what was sent: the proof of a play holds nothing of the grammar.
ghost use Rattle.std.specs.Prelude.{◌≡◌, false, IfOk};
ghost use Rattle.html5feed.specs.Starting.{CanStart};

use html5cli::settings::{Settings, options_of};
use html5ever::TokenizerError;
use html5ever::tokenizer::pieces::feed_pieces;
use html5ever::tokenizer::steps::feed_until_done;
use html5ever::tokenizer::{Tokenizer, TokenizerResult};
use html5ever_interface::interface::sink::TokenSink;
use html5ever_interface::interface::token::Token;
use html5ever_interface::options::TokenizerOpts;
use html5ever_interface::states::State;
use markup5ever::buffer_queue::BufferQueue;
use markup5ever::data::NamedReferences;
use std::alloc::{AllocError, Allocator, Global};
use testing_lines::Stop;
use testing_sinks::shown::{Numbered, Shown};

// The state, where a stream can start in it.
fn starting(state: Option<State>) -> Option<State>
    ensures { CanStart result }
{
    match state {
        Some(state) if state.is_text() => Some(state),
        _ => None,
    }
}

/// The options that the settings say.
pub fn options<A: Allocator>(
    alloc: A,
    settings: &Settings<'_>,
) -> Result<TokenizerOpts<A>, AllocError>
    ensures starts { IfOk result (λ opts. CanStart opts.initial_state) }
{
    let mut opts = options_of(alloc, settings)?;
    opts.initial_state = starting(settings.initial_state);
    Ok(opts)
}

/// A tokenizer at the start of a stream.
pub fn begin<'t, S: TokenSink<Token<A>> + Drop, A: Allocator + Copy>(
    alloc: A,
    sink: S,
    settings: &Settings<'_>,
    references: &'t NamedReferences<A>,
) -> Result<Tokenizer<'t, S, A>, AllocError> {
    let opts = options(alloc, settings)?;
    Ok(Tokenizer::new(alloc, sink, opts, references))
}

/// The word of an error.
pub fn word_of(error: TokenizerError) -> &'static str {
    match error {
        TokenizerError::Memory => "memory",
        TokenizerError::Sink => "sink",
        TokenizerError::Failed => "failed",
    }
}

/// Whether the word is that of an error.
pub fn is_error(word: &str) -> bool {
    matches!(word, "memory" | "sink" | "failed")
}

/// The word of what a call answers that has nothing to hand out.
pub fn word_of_result(answer: &Result<(), TokenizerError>) -> &'static str {
    match answer {
        Ok(()) => "ok",
        Err(error) => word_of(*error),
    }
}

// What a feed answers, as words.
fn words_of<H: Numbered + Drop, A: Allocator>(
    ample: Global,
    fed: Result<TokenizerResult<H, String<A>>, TokenizerError>,
) -> Result<String, AllocError> {
    match fed {
        Ok(TokenizerResult::Done) => String::from_str(ample, "done"),
        Ok(TokenizerResult::Script(handle)) => format!(in ample; "script {}", handle.number()),
        Ok(TokenizerResult::EncodingIndicator(name)) => format!(in ample; "encoding {name}"),
        Err(error) => String::from_str(ample, word_of(error)),
    }
}

// Feeds a tokenizer the queued text, with nothing said of it.
fn fed<S: TokenSink<Token<A>> + Drop, A: Allocator + Copy>(
    tokenizer: &mut Tokenizer<'_, S, A>,
    queue: &mut BufferQueue<A>,
) -> Result<TokenizerResult<S::Handle, String<A>>, TokenizerError>
    requires going_on { tokenizer.old.ended ≡ false }
{
    tokenizer.feed(queue)
}

/// Feeds a tokenizer the queued text.
pub fn feed<S: TokenSink<Token<A>> + Drop, A: Allocator + Copy>(
    ample: Global,
    tokenizer: &mut Tokenizer<'_, S, A>,
    queue: &mut BufferQueue<A>,
) -> Result<String, Stop>
where
    S::Handle: Numbered,
{
    if tokenizer.is_ended() {
        return Err(Stop::BadStep);
    }
    Ok(words_of(ample, fed(tokenizer, queue))?)
}

/// Feeds a tokenizer until it is done.
pub fn feed_on<S: TokenSink<Token<A>> + Drop, A: Allocator + Copy>(
    tokenizer: &mut Tokenizer<'_, S, A>,
    queue: &mut BufferQueue<A>,
) -> Result<&'static str, Stop> {
    if tokenizer.is_ended() {
        return Err(Stop::BadStep);
    }
    Ok(word_of_result(&feed_until_done(tokenizer, queue)))
}

/// Feeds a tokenizer pieces, one after another, each until it is done.
pub fn feed_parts<S: TokenSink<Token<A>> + Drop, A: Allocator + Copy>(
    tokenizer: &mut Tokenizer<'_, S, A>,
    queue: &mut BufferQueue<A>,
    pieces: Vec<String<A>, A>,
) -> Result<&'static str, Stop> {
    if tokenizer.is_ended() {
        return Err(Stop::BadStep);
    }
    Ok(word_of_result(&feed_pieces(tokenizer, queue, pieces)))
}

/// Sends a tokenizer the end of the input.
pub fn end<S: TokenSink<Token<A>> + Drop, A: Allocator + Copy>(
    tokenizer: &mut Tokenizer<'_, S, A>,
) -> Result<&'static str, Stop> {
    if tokenizer.is_ended() {
        return Err(Stop::BadStep);
    }
    Ok(word_of_result(&tokenizer.end()))
}

// Sends a tokenizer the end of the input, and takes its sink, with nothing said of it.
fn finished<S: TokenSink<Token<A>> + Drop, A: Allocator + Copy>(
    tokenizer: Tokenizer<'_, S, A>,
) -> (S, Result<(), TokenizerError>)
    requires going_on { tokenizer.ended ≡ false }
{
    tokenizer.finish()
}

/// Sends a tokenizer the end of the input. Answers, too, what its sink then shows.
pub fn finish<S: TokenSink<Token<A>> + Shown, A: Allocator + Copy>(
    ample: Global,
    tokenizer: Tokenizer<'_, S, A>,
) -> Result<(&'static str, String), Stop> {
    if tokenizer.is_ended() {
        return Err(Stop::BadStep);
    }
    let (sink, answer) = finished(tokenizer);
    let mut shown = String::new(ample);
    sink.show(ample, &mut shown)?;
    Ok((word_of_result(&answer), shown))
}

/// Has a tokenizer read plain text from here on.
pub fn set_plain<S: TokenSink<Token<A>> + Drop, A: Allocator + Copy>(
    tokenizer: &mut Tokenizer<'_, S, A>,
) -> Result<(), Stop> {
    if !tokenizer.nothing_pending() {
        return Err(Stop::BadStep);
    }
    tokenizer.set_plaintext_state();
    Ok(())
}
