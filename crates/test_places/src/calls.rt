//! Calls of a reader, which one function plays: each function that holds a reader is dear to check.
use crate::placed::Cuts;
use html5entities::standard_references;
use html5ever::tokenizer::{NamedReferences, TokenizerOpts};
use html5ever_interface::interface::token::Token;
use html5ever_interface::states::{RawKind, State};
use html5places::{PlaceError, PlaceReader, PlacedHandler};
use std::alloc::{Allocator, Global};
use std::process::Abort;

// A call, with what it must answer.
#[derive(Clone, Copy)]
pub enum Call<'t> {
    Read(&'t str, Result<(), PlaceError>),
    // Reads the text up to its next token, with that. Answers what is left of it then.
    ReadToToken(&'t str, Result<&'t str, PlaceError>),
    End(Result<(), PlaceError>),
    // Goes on in a RAWTEXT element, where a state can be set.
    SetRawtext,
    Place(usize),
    NothingOpen(bool),
    IsOver(bool),
}

// What is left of a text of which so much was read.
fn left_of(text: &str, read: Result<usize, PlaceError>) -> Result<&str, PlaceError> {
    match read {
        Ok(count) => Ok(text.get(count..).unwrap_or("none")),
        Err(error) => Err(error),
    }
}

// Whether a reader answers a call as it must.
fn is_answered<A: Allocator + Copy, H: PlacedHandler<Token<A>>>(
    reader: &mut PlaceReader<'_, A>,
    handler: &mut H,
    call: &Call<'_>,
) -> bool {
    match call {
        Call::Read(text, wanted) => reader.read(text, handler) == *wanted,
        Call::ReadToToken(text, wanted) => {
            left_of(text, reader.read_to_token(text, handler)) == *wanted
        }
        Call::End(wanted) => reader.end(handler) == *wanted,
        Call::SetRawtext => {
            if reader.nothing_open() {
                reader.set_state(State::RawData(RawKind::Rawtext));
                return true;
            }
            false
        }
        Call::Place(wanted) => reader.place() == *wanted,
        Call::NothingOpen(wanted) => reader.nothing_open() == *wanted,
        Call::IsOver(wanted) => reader.is_over() == *wanted,
    }
}

// Calls a new reader. Answers which call it answers otherwise, if one.
pub fn failing_call<A: Allocator + Copy, H: PlacedHandler<Token<A>>>(
    alloc: A,
    references: &NamedReferences<A>,
    handler: &mut H,
    calls: &[Call<'_>],
) -> Option<usize> {
    let mut reader = PlaceReader::new(alloc, references, TokenizerOpts::default());
    for (at, call) in calls.iter().enumerate() {
        if !is_answered(&mut reader, handler, call) {
            return Some(at);
        }
    }
    None
}

// That a new reader answers calls as it must, and the text at the places of the tokens then.
pub fn check_calls(rt: &impl Abort, alloc: Global, source: &str, calls: &[Call<'_>], wanted: &str) {
    let references = standard_references(alloc).expect(rt, "memory");
    let mut handler = Cuts::new(alloc, source);
    let failing = failing_call(alloc, &references, &mut handler, calls);
    assert_eq!(rt; failing, None, "of {source:?}");
    assert_eq!(rt; handler.kept.as_str(), wanted, "of {source:?}");
}
