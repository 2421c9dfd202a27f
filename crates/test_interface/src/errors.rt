//! The displayed texts of errors that no program prints: what the tokenizer, streams, sessions and the
//! writer answer.
use devices::Fault;
use html5ever::TokenizerError;
use html5ever_interface::interface::token::{SinkFault, TextFault};
use html5session::SessionError;
use html5stream::StreamError;
use html5write::WriteError;
use std::alloc::Global;
use std::fmt::Display;
use std::process::Abort;
use std::test::Fail;
use utf8_pieces::DecodeError;

// Compares the texts of errors.
fn check_texts<E: Display>(
    rt: &impl Abort,
    alloc: Global,
    errors: &[(E, &str)],
) -> Result<(), Fail> {
    for (error, text) in errors {
        let found = format!(in alloc; "{error}")?;
        assert_eq!(rt; found.as_str(), *text);
    }
    Ok(())
}

const NO_TOKEN: &str = "the sink could not take a token";

const NO_UTF8: &str = "invalid UTF-8 at byte 7";

// Rows that name a constant are constants of their own.
const TOKENIZER: [(TokenizerError, &str); 3] = [
    (TokenizerError::Memory, "out of memory"),
    (TokenizerError::Sink, NO_TOKEN),
    (TokenizerError::Failed, "an earlier call failed"),
];

const SINK: [(SinkFault, &str); 1] = [(SinkFault, NO_TOKEN)];

const DECODER: [(DecodeError, &str); 2] = [
    (DecodeError::NotUtf8 { valid_up_to: 7 }, NO_UTF8),
    (DecodeError::Memory, "out of memory"),
];

const STREAM: [(StreamError, &str); 3] = [
    (StreamError::Read, "a read failed"),
    (StreamError::Sink, NO_TOKEN),
    (StreamError::TooLong, "too many reads"),
];

const SESSION: [(SessionError, &str); 6] = [
    (SessionError::Memory, "out of memory"),
    (SessionError::NotUtf8 { valid_up_to: 7 }, NO_UTF8),
    (SessionError::Cut, "the bytes end inside a character"),
    (SessionError::Waiting, "text after a pause was not fed yet"),
    (SessionError::ItemOpen, "a tag or other item is incomplete"),
    (SessionError::Over, "the session has ended"),
];

#[test]
fn of_the_tokenizer(rt: HostRuntime) -> Result<(), Fail> {
    check_texts(&rt, rt.alloc(), &TOKENIZER)?;
    check_texts(&rt, rt.alloc(), &SINK)?;
    check_texts(
        &rt,
        rt.alloc(),
        &[
            (TextFault::Memory, "no memory for a copy of the text"),
            (TextFault::Sink, "the sink could not take the text"),
        ],
    )
}

#[test]
fn of_bytes_that_come_in(rt: HostRuntime) -> Result<(), Fail> {
    check_texts(
        &rt,
        rt.alloc(),
        &[
            (Fault::NotUtf8, "input is not UTF-8"),
            (Fault::Memory, "out of memory"),
            (Fault::Device, "read or write failed"),
        ],
    )?;
    check_texts(&rt, rt.alloc(), &DECODER)?;
    check_texts(&rt, rt.alloc(), &STREAM)?;
    check_texts(&rt, rt.alloc(), &SESSION)
}

#[test]
fn of_what_is_written(rt: HostRuntime) -> Result<(), Fail> {
    check_texts(
        &rt,
        rt.alloc(),
        &[
            (
                WriteError::NullInText { at: 3 },
                "a NUL at byte 3 of the text",
            ),
            (WriteError::TagName, "invalid tag name"),
            (
                WriteError::AttributeName { attribute: 2 },
                "attribute 2 has an invalid name",
            ),
            (
                WriteError::NullInValue {
                    attribute: 1,
                    at: 4,
                },
                "a NUL at byte 4 of the value of attribute 1",
            ),
            (
                WriteError::Repeated { attribute: 5 },
                "attribute 5 repeats a name",
            ),
            (WriteError::CommentText, "a comment can't contain this text"),
            (WriteError::Memory, "out of memory"),
        ],
    )
}
