//! Sources of bytes in an encoding, read as text.
use decoded_source::DecodedSource;
use devices::{Fault, ReadSource, Source, read_to_end};
use html5encodings::Encoding;
use std::alloc::{Allocator, Global};
use std::io::ErrorKind;
use std::process::Abort;
use testing_alloc::Refusing;
use testing_devices::{FailingSource, PieceSource};

// The source of text of a source whose encoding a label names.
fn text_source<S: Source, A: Allocator + Copy>(
    rt: &impl Abort,
    alloc: A,
    label: &str,
    source: S,
) -> DecodedSource<S, A> {
    let Some(encoding) = Encoding::for_label(label) else {
        panic!(rt; "no encoding {label}");
    };
    DecodedSource::new(alloc, source, encoding)
}

// Reads a text whose bytes come in pieces of one size, up to five bytes. At its end each read gives nothing.
fn check_pieces(rt: &impl Abort, alloc: Global, label: &str, bytes: &[u8], wanted: &str) {
    for size in 1..=5 {
        let mut source = text_source(rt, alloc, label, PieceSource::new(bytes, size));
        let text = read_to_end(alloc, &mut source);
        match text {
            Ok(text) => assert_eq!(rt; text.as_slice(), wanted.as_bytes(), "{label} {size}"),
            Err(_) => panic!(rt; "{label} was not read"),
        }
        assert!(rt; source.read(&mut [0; 4]).is_ok_and(|count| count == 0));
    }
}

#[test]
fn texts_of_sources(rt: HostRuntime) {
    for &(label, bytes, wanted) in &[
        ("windows-1252", b"caf\xe9".as_slice(), "caf\u{e9}"),
        ("shift_jis", b"a\x93\xfa\x96\x7bb", "a\u{65e5}\u{672c}b"),
        ("shift_jis", b"a\x93", "a\u{fffd}"),
        ("utf-8", b"\xe2\x82\xac\xe2\x82", "\u{20ac}\u{fffd}"),
        ("utf-16le", b"\x3d\xd8\x00\xdea\0", "\u{1f600}a"),
        ("iso-2022-jp", b"\x1b$B\x24\x22\x1b(Ba", "\u{3042}a"),
        ("iso-2022-jp", b"a\x1b$", "a\u{fffd}$"),
        ("replacement", b"abcdefgh", "\u{fffd}"),
        ("utf-16be", b"", ""),
        ("windows-1252", b"", ""),
    ] {
        check_pieces(&rt, rt.alloc(), label, bytes, wanted);
    }
}

// The text of a source in the encoding that a label names.
fn text_of<S: Source + Drop>(
    alloc: Global,
    label: &str,
    source: S,
) -> Option<Result<Vec<u8>, Fault>> {
    let encoding = Encoding::for_label(label)?;
    let mut text = DecodedSource::new(alloc, source, encoding);
    Some(read_to_end(alloc, &mut text))
}

#[test]
fn a_text_of_a_source(rt: HostRuntime) {
    match text_of(rt.alloc(), " Latin1", PieceSource::new(b"caf\xe9", 1)) {
        Some(Ok(text)) => assert_eq!(rt; text.as_slice(), "caf\u{e9}".as_bytes()),
        _ => panic!(rt; "no text"),
    }
}

// Characters longer than there is room for are given by parts, the one at the end too.
#[test]
fn characters_are_given_by_parts(rt: HostRuntime) {
    let bytes = b"\xa4\xa2\xa4".as_slice();
    let mut source = text_source(&rt, rt.alloc(), "euc-jp", ReadSource::new(bytes));
    let mut one = [0; 1];
    assert!(rt; source.read(&mut []).is_ok_and(|count| count == 0));
    for wanted in "\u{3042}\u{fffd}".as_bytes() {
        assert!(rt; source.read(&mut one).is_ok_and(|count| count == 1));
        assert_eq!(rt; one[0], *wanted);
    }
    assert!(rt; source.read(&mut one).is_ok_and(|count| count == 0));
}

#[test]
fn a_source_that_fails(rt: HostRuntime) {
    let alloc = rt.alloc();
    let mut source = text_source(&rt, alloc, "windows-1252", FailingSource::new(b"\xe9a", 1));
    let mut room = [0; 4];
    assert!(rt; source.read(&mut room).is_ok_and(|count| count == 2));
    assert_eq!(rt; &room[..2], b"\xc3\xa9".as_slice());
    assert!(rt; source.read(&mut room).is_err());
    match read_to_end(alloc, &mut source) {
        Ok(_) => panic!(rt; "the source was read"),
        Err(fault) => assert_eq!(rt; fault, Fault::Device),
    }
}

// Reads once, and appends what was read. No error comes but of a refused growth.
fn read_more<S: Source>(rt: &impl Abort, source: &mut S, text: &mut Vec<u8>) {
    let mut room = [0; 16];
    match source.read(&mut room) {
        Ok(count) => text.extend_from_slice(&room[..count]).expect(rt, "memory"),
        Err(error) => assert!(rt; error.kind() == ErrorKind::OutOfMemory),
    }
}

// Each refused growth loses nothing: a read after it goes on.
#[test]
fn a_refused_read_is_tried_again(rt: HostRuntime) {
    let mut sweeps = 0u64;
    for admitted in 0..1000u64 {
        let heap = Refusing::new(rt.alloc(), admitted);
        let pieces = PieceSource::new(b"ab\xa4\xa2c", 2);
        let mut source: DecodedSource<PieceSource<'_>, &Refusing<Global>> = DecodedSource::new(
            &heap,
            pieces,
            Encoding::EucJp,
        );
        let mut text = Vec::new(rt.alloc());
        for _reads in 0..20 {
            read_more(&rt, &mut source, &mut text);
        }
        assert_eq!(rt; text.as_slice(), "ab\u{3042}c".as_bytes());
        if !heap.has_refused() {
            break;
        }
        sweeps = sweeps.wrapping_add(1);
    }
    assert!(rt; 2 <= sweeps);
}
