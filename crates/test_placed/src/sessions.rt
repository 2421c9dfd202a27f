//! Pages that arrive in pieces of several sizes.
ghost use Rattle.std.specs.Prelude.{◌<◌};

use html5entities::standard_references;
use html5ever::tokenizer::TokenizerOpts;
use html5placed::PlacedSession;
use html5session::SessionError;
use std::alloc::{AllocError, Global};

// A number, in eight bytes.
fn push_number(bytes: &mut Vec<u8>, number: u64) -> Result<(), AllocError> {
    bytes.extend_from_slice(&number.to_le_bytes())
}

// The record of places.
fn push_places(bytes: &mut Vec<u8>, text: u64, begin: u64, end: u64) -> Result<(), AllocError> {
    bytes.push(10)?;
    push_number(bytes, text)?;
    push_number(bytes, begin)?;
    push_number(bytes, end)
}

// The record of a tag `p` on line 1.
fn push_tag(bytes: &mut Vec<u8>, kind: u8) -> Result<(), AllocError> {
    bytes.push(kind)?;
    push_number(bytes, 1)?;
    bytes.push(0)?;
    push_number(bytes, 1)?;
    bytes.push(b'p')?;
    push_number(bytes, 0)
}

// A page of which each kind of place differs: the run `é&amp;` is 7 bytes, and tells 3.
const PAGE: &str = "a<p>é&amp;</p>";

// The records of that page.
fn records_by_hand(alloc: Global) -> Result<Vec<u8>, AllocError> {
    let mut bytes = Vec::new(alloc);
    push_places(&mut bytes, 0, 1, 4)?;
    bytes.extend_from_slice(b"\x03a\xff")?;
    push_tag(&mut bytes, 1)?;
    push_places(&mut bytes, 4, 11, 15)?;
    bytes.extend_from_slice(b"\x03\xc3\xa9&\xff")?;
    push_tag(&mut bytes, 2)?;
    push_places(&mut bytes, 15, 15, 15)?;
    bytes.push(9)?;
    push_number(&mut bytes, 1)?;
    Ok(bytes)
}

// Takes all that waits, three bytes at a time.
fn take_all(session: &mut PlacedSession<Global>, taken: &mut Vec<u8>) -> Result<(), AllocError> {
    let mut out = [0; 3];
    for _ in 0..1000 {
        let count = session.take(&mut out);
        if count == 0 {
            return Ok(());
        }
        taken.extend_from_slice(&out[..count])?;
    }
    Ok(())
}

// The records of a page that arrives in pieces of this size.
fn records_of(alloc: Global, page: &[u8], size: usize) -> Result<Vec<u8>, SessionError>
    requires { 0 < size }
{
    let Ok(references) = standard_references(alloc) else {
        return Err(SessionError::Memory);
    };
    let mut session = PlacedSession::new(alloc, references, TokenizerOpts::default());
    let mut taken = Vec::new(alloc);
    for piece in page.chunks(size) {
        let (next, fed) = session.feed(piece);
        session = next;
        fed?;
        if take_all(&mut session, &mut taken).is_err() {
            return Err(SessionError::Memory);
        }
    }
    let (next, ended) = session.end();
    session = next;
    ended?;
    if take_all(&mut session, &mut taken).is_err() {
        return Err(SessionError::Memory);
    }
    Ok(taken)
}

#[test]
fn tokens_have_their_places_however_the_page_is_cut(rt: HostRuntime) {
    let alloc = rt.alloc();
    let expected = records_by_hand(alloc).expect(&rt, "memory");
    for size in [1, 2, 3, 7, 4096] {
        let records = records_of(alloc, PAGE.as_bytes(), size).expect(&rt, "a page");
        assert_eq!(rt; records, expected);
    }
}

#[test]
fn bytes_that_are_no_utf_8_are_said_and_the_page_goes_on(rt: HostRuntime) {
    let alloc = rt.alloc();
    let references = standard_references(alloc).expect(&rt, "memory");
    let session = PlacedSession::new(alloc, references, TokenizerOpts::default());
    let (session, fed) = session.feed(b"ab\xffc");
    assert_eq!(rt; fed, Err(SessionError::NotUtf8 { valid_up_to: 2 }));
    assert_eq!(rt; session.error_at(), Some(2));
    assert!(rt; !session.is_over());
    let (session, fed) = session.feed(b"<p>\xc3");
    assert_eq!(rt; fed, Ok(()));
    let (session, ended) = session.end();
    assert_eq!(rt; ended, Err(SessionError::Cut));
    let (session, fed) = session.feed(b"\xa9");
    assert_eq!(rt; fed, Ok(()));
    let (session, ended) = session.end();
    assert_eq!(rt; ended, Ok(()));
    assert!(rt; session.is_over());
    let (_, fed) = session.feed(b"");
    assert_eq!(rt; fed, Err(SessionError::Over));
}

#[test]
fn what_was_read_since_the_last_token_counts(rt: HostRuntime) {
    let alloc = rt.alloc();
    let references = standard_references(alloc).expect(&rt, "memory");
    let mut session = PlacedSession::new(alloc, references, TokenizerOpts::default());
    session.set_limit(10);
    assert!(rt; session.has_room(10));
    assert!(rt; !session.has_room(11));
    let (session, fed) = session.feed(b"text");
    assert_eq!(rt; fed, Ok(()));
    assert!(rt; session.has_room(6));
    assert!(rt; !session.has_room(7));
}
