//! What a caller of the tokenizer writes, as crates/html5ever/CALLING.md shows it.
#![tactic(auto)]

use html5ever::TokenizerError;
use html5ever::tokenizer::collect::Collector;
use html5ever::tokenizer::{
    BufferQueue, NamedReferences, TableError, Token, TokenSink, Tokenizer, TokenizerOpts,
    TokenizerResult, feed_until_done, read_whole,
};
use std::alloc::Allocator;

const NAMES: [(&str, char); 3] = [("amp", '&'), ("amp;", '&'), ("lt;", '<')];

/// A table of a few names.
pub fn few_names<A: Allocator + Copy>(alloc: A) -> Result<NamedReferences<A>, TableError> {
    let mut entries = Vec::new(alloc);
    for (name, c) in NAMES {
        let entry = (String::from_str(alloc, name)?, c, None); // or a second character
        if entries.push(entry).is_err() {
            return Err(TableError::Memory);
        }
    }
    NamedReferences::check(alloc, entries) // or the first fault, and where it is
}

/// The tokens of a text.
pub fn tokens_of_text<A: Allocator + Copy>(
    alloc: A,
    references: &NamedReferences<A>,
    text: String<A>,
) -> Result<Collector<A>, TokenizerError> {
    let sink = Collector::new(alloc, false); // or any lawful sink
    let (sink, read) = read_whole(alloc, sink, TokenizerOpts::default(), references, text);
    read?; // or why it stopped; then the sink was sent a beginning
    Ok(sink)
}

/// What a text tells that arrives in two pieces.
pub fn tokens_of<A: Allocator + Copy>(
    alloc: A,
    references: &NamedReferences<A>,
    first: String<A>,
    second: String<A>,
) -> Result<Collector<A>, TokenizerError> {
    let sink = Collector::new(alloc, false); // or any lawful sink
    let mut tokenizer = Tokenizer::new(alloc, sink, TokenizerOpts::default(), references);
    let mut queue = BufferQueue::new(alloc);
    if queue.push_back(first).is_err() {
        return Err(TokenizerError::Memory); // a refused text comes back
    }
    feed_until_done(&mut tokenizer, &mut queue)?; // told: exactly what the text so far decides
    if queue.push_back(second).is_err() {
        return Err(TokenizerError::Memory);
    }
    feed_until_done(&mut tokenizer, &mut queue)?;
    tokenizer.end()?; // and now the whole reading, and that it ended
    Ok(tokenizer.into_sink())
}

/// Reads a text. Where it pauses first, and that is to run a script, what the script wrote is put in.
pub fn read_with_script<S: TokenSink<Token<A>> + Drop, A: Allocator + Copy>(
    alloc: A,
    sink: S,
    references: &NamedReferences<A>,
    text: String<A>,
    written: String<A>,
) -> Result<S, TokenizerError> {
    let mut tokenizer = Tokenizer::new(alloc, sink, TokenizerOpts::default(), references);
    let mut queue = BufferQueue::new(alloc);
    if queue.push_back(text).is_err() {
        return Err(TokenizerError::Memory);
    }
    if let TokenizerResult::Script(_) = tokenizer.feed(&mut queue)? {
        if queue.push_front(written).is_err() {
            return Err(TokenizerError::Memory); // in front of the text after the tag's `>`
        }
    }
    feed_until_done(&mut tokenizer, &mut queue)?; // past all further pauses
    tokenizer.end()?;
    Ok(tokenizer.into_sink())
}
