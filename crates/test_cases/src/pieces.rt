//! The pieces of an input, fed one after another to a tokenizer, and what must be sent after each.
ghost use Rattle.html5feed.specs.Starting.{CanStart};

use crate::so_far::SoFar;
use html5ever::TokenizerError;
use html5ever::tokenizer::Tokenizer;
use html5ever::tokenizer::steps::feed_until_done;
use html5ever_interface::interface::sink::TokenSink;
use html5ever_interface::interface::token::Token;
use html5ever_interface::options::TokenizerOpts;
use markup5ever::buffer_queue::BufferQueue;
use markup5ever::data::NamedReferences;
use std::alloc::{AllocError, Global};
use testing_lines::CaseError;

/// How an input is cut.
#[derive(Clone, Copy, Debug, PartialEq, Eq)]
pub enum Cutting {
    /// In two, after this many characters.
    Afterwards(usize),
    /// Into its characters.
    Characters,
}

// The text up to this many characters, and the rest.
fn halves_of(alloc: Global, text: &str, count: usize) -> Result<Vec<String>, AllocError> {
    let mut first = String::new(alloc);
    let mut second = String::new(alloc);
    for (place, c) in text.chars().enumerate() {
        if place < count {
            first.push(c)?;
        } else {
            second.push(c)?;
        }
    }
    let mut pieces = Vec::new(alloc);
    pieces.push(first)?;
    pieces.push(second)?;
    Ok(pieces)
}

// The characters of a text, each as a text of its own.
fn characters_of(alloc: Global, text: &str) -> Result<Vec<String>, AllocError> {
    let mut pieces = Vec::new(alloc);
    for c in text.chars() {
        let mut piece = String::new(alloc);
        piece.push(c)?;
        pieces.push(piece)?;
    }
    Ok(pieces)
}

/// The pieces of a text that is cut so.
pub fn pieces_of(alloc: Global, text: &str, cutting: Cutting) -> Result<Vec<String>, AllocError> {
    match cutting {
        Cutting::Afterwards(count) => halves_of(alloc, text, count),
        Cutting::Characters => characters_of(alloc, text),
    }
}

/// What must be sent in all: after the end, or after an input that may go on.
#[derive(Drop)]
pub struct Due {
    /// The lines. Where the input may go on, a text at their end is open.
    pub lines: String,
    /// Whether nothing is pending after the input, where this may go on.
    pub clean: Option<bool>,
}

impl Due {
    // Whether lines so far are a prefix of those that are due: whole ones, and a text that is open.
    fn begins_with(&self, so_far: &str) -> bool {
        let (_, open) = so_far.rsplit_once('\n').unwrap_or(("", so_far));
        self.lines.starts_with(so_far) && (open.is_empty() || open.starts_with("text \""))
    }
}

// The answer of a call to a tokenizer as one about a case: its sinks fail only when out of memory.
fn answered(answer: Result<(), TokenizerError>) -> Result<(), CaseError> {
    match answer {
        Ok(()) => Ok(()),
        Err(_) => Err(CaseError::Memory),
    }
}

// Feeds a tokenizer a piece.
fn feed_piece<S: TokenSink<Token> + SoFar>(
    tokenizer: &mut Tokenizer<'_, S>,
    queue: &mut BufferQueue,
    piece: String,
) -> Result<(), CaseError> {
    if queue.push_back(piece).is_err() {
        return Err(CaseError::Memory);
    }
    if tokenizer.is_ended() {
        return Err(CaseError::BadLine);
    }
    answered(feed_until_done(tokenizer, queue))
}

// Feeds the pieces. Answers whether after each a prefix of what is due was sent.
fn feed_all<S: TokenSink<Token> + SoFar>(
    alloc: Global,
    tokenizer: &mut Tokenizer<'_, S>,
    pieces: Vec<String>,
    due: &Due,
) -> Result<bool, CaseError> {
    let mut queue = BufferQueue::new(alloc);
    for piece in pieces {
        feed_piece(tokenizer, &mut queue, piece)?;
        let so_far = tokenizer.sink.so_far(alloc)?;
        if !due.begins_with(&so_far) {
            return Ok(false);
        }
    }
    Ok(true)
}

// Sends a tokenizer the end of the input.
fn end<S: TokenSink<Token> + SoFar>(tokenizer: &mut Tokenizer<'_, S>) -> Result<(), CaseError> {
    if tokenizer.is_ended() {
        return Err(CaseError::BadLine);
    }
    answered(tokenizer.end())
}

// Whether all that is due was sent, and no more.
fn is_told<S: TokenSink<Token> + SoFar>(
    alloc: Global,
    tokenizer: &Tokenizer<'_, S>,
    due: &Due,
) -> Result<bool, CaseError> {
    let so_far = tokenizer.sink.so_far(alloc)?;
    let nothing_open = tokenizer.nothing_pending();
    Ok(so_far == due.lines && nothing_open == due.clean.unwrap_or(false))
}

/// Feeds a new tokenizer the pieces one after another, and ends it. Answers whether its sink was sent
/// after each piece a prefix of what is due, and all of it in the end; and the sink.
pub fn feed_pieces<S: TokenSink<Token> + SoFar>(
    alloc: Global,
    sink: S,
    opts: TokenizerOpts,
    references: &NamedReferences,
    pieces: Vec<String>,
    due: &Due,
) -> Result<(bool, S), CaseError>
    requires start { CanStart opts.initial_state }
{
    let mut tokenizer = Tokenizer::new(alloc, sink, opts, references);
    let begins = feed_all(alloc, &mut tokenizer, pieces, due)?;
    let at_done = due.clean.is_none() || is_told(alloc, &tokenizer, due)?;
    end(&mut tokenizer)?;
    let at_end = due.clean.is_some() || is_told(alloc, &tokenizer, due)?;
    Ok((begins && at_done && at_end, tokenizer.into_sink()))
}
