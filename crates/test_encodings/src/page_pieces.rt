//! Pages in any encoding whose bytes are pushed, cut anywhere.
use crate::sniffing::named;
use html5sniffing::PageDecoder;
use markup5ever::data::NamedReferences;
use std::alloc::{Allocator, Global};
use std::process::Abort;
use testing_alloc::Refusing;

// The text of a page that is pushed in pieces of this size.
fn text_pushed(rt: &impl Abort, alloc: Global, page: &[u8], size: usize, said: &str) -> String {
    let references = NamedReferences::check(alloc, Vec::new(alloc)).expect(rt, "a table");
    let mut decoder = PageDecoder::new(alloc, named(said), None);
    let mut text = String::new(alloc);
    for piece in page.chunks(size.max(1)) {
        let more = decoder.push(&references, piece).expect(rt, "memory");
        text.push_str(more.as_str()).expect(rt, "memory");
    }
    let last = decoder.finish(&references).expect(rt, "memory");
    text.push_str(last.as_str()).expect(rt, "memory");
    text
}

fn check_pieces(rt: &impl Abort, alloc: Global, page: &[u8], said: &str, wanted: &str) {
    for &size in &[1, 2, 3, 700, 1024, 5000] {
        let text = text_pushed(rt, alloc, page, size, said);
        assert_eq!(rt; text.as_str(), wanted, "{page:?}");
    }
}

#[test]
fn texts_of_pieces(rt: HostRuntime) {
    for &(page, said, wanted) in &[
        (b"".as_slice(), "", ""),
        (b"caf\xe9", "", "caf\u{e9}"),
        (b"caf\xc3\xa9", "", "caf\u{e9}"),
        (b"caf\xe9", "windows-1251", "caf\u{439}"),
        (b"\xff\xfe<\0p\0>\0\xe9\0", "koi8-r", "\u{feff}<p>\u{e9}"),
        (b"\xef\xbb\xbf\xc3", "koi8-r", "\u{feff}\u{fffd}"),
        (b"\x93\xfa<p>\x96{", "shift_jis", "\u{65e5}<p>\u{672c}"),
    ] {
        check_pieces(&rt, rt.alloc(), page, said, wanted);
    }
}

// How long the text is that a decoder gives for a piece.
fn len_pushed<A: Allocator + Copy>(
    rt: &impl Abort,
    references: &NamedReferences<A>,
    decoder: &mut PageDecoder<A>,
    piece: &[u8],
) -> usize {
    let text = decoder.push(references, piece).expect(rt, "memory");
    text.len()
}

// The name of the encoding, once it is known.
fn name_of(decoder: &PageDecoder) -> Option<&'static str> {
    Some(decoder.encoding()?.name())
}

// Pushes a page whose first bytes are these to a new decoder.
fn check_begun(
    rt: &impl Abort,
    references: &NamedReferences,
    decoder: &mut PageDecoder,
    front: &[u8],
) {
    assert!(rt; decoder.is_unbegun());
    assert_eq!(rt; len_pushed(rt, references, decoder, front), 0);
    assert!(rt; decoder.encoding().is_none());
    assert_eq!(rt; decoder.held_len(), 1022);
    assert_eq!(rt; len_pushed(rt, references, decoder, b"\xe9a"), 1025);
    assert_eq!(rt; name_of(decoder), Some("windows-1252"));
}

// The encoding is known once the first bytes are there, and a refused growth changes nothing.
#[test]
fn the_encoding_of_pieces(rt: HostRuntime) {
    let alloc = rt.alloc();
    let references = NamedReferences::check(alloc, Vec::new(alloc)).expect(&rt, "a table");
    let mut decoder = PageDecoder::new(alloc, None, None);
    let front = vec![in alloc; b'a'; 1022].expect(&rt, "memory");
    check_begun(&rt, &references, &mut decoder, &front);
    assert_eq!(rt; decoder.finish(&references).expect(&rt, "memory").len(), 0);
    assert!(rt; decoder.is_ended());
}

// Pushes a page to a new decoder, and again where a growth was refused. Answers how often one was.
fn pushed_again<A: Allocator + Copy>(
    rt: &impl Abort,
    references: &NamedReferences<A>,
    decoder: &mut PageDecoder<A>,
    page: &[u8],
) -> u64 {
    if decoder.push(references, page).is_ok() {
        return 0;
    }
    assert!(rt; decoder.is_unbegun());
    assert_eq!(rt; len_pushed(rt, references, decoder, page), 0);
    1
}

// Ends a page whose text is this, and again where a growth was refused. Answers how often one was.
fn ended_again<A: Allocator + Copy>(
    rt: &impl Abort,
    references: &NamedReferences<A>,
    decoder: &mut PageDecoder<A>,
    wanted: &str,
) -> u64 {
    if let Ok(text) = decoder.finish(references) {
        assert_eq!(rt; text.as_str(), wanted);
        return 0;
    }
    let text = decoder.finish(references).expect(rt, "memory");
    assert_eq!(rt; text.as_str(), wanted);
    1
}

// How often a growth is refused while a page is read on a heap that may refuse a request, or `None` if there was no
// memory for the table.
fn refusals<A: Allocator + Copy>(
    rt: &impl Abort,
    heap: A,
    page: &[u8],
    wanted: &str,
) -> Option<u64> {
    let references: NamedReferences<A> = NamedReferences::check(heap, Vec::new(heap)).ok()?;
    let mut decoder = PageDecoder::new(heap, None, None);
    let pushed = pushed_again(rt, &references, &mut decoder, page);
    Some(pushed.wrapping_add(ended_again(rt, &references, &mut decoder, wanted)))
}

#[test]
fn a_refused_push_is_pushed_again(rt: HostRuntime) {
    let page = b"<meta charset=gbk>\xd6\xd0";
    let wanted = "<meta charset=gbk>\u{4e2d}";
    let mut refused = 0u64;
    for admitted in 0..1000u64 {
        let heap = Refusing::new(rt.alloc(), admitted);
        let Some(count) = refusals(&rt, &heap, page, wanted) else {
            continue;
        };
        refused = refused.wrapping_add(count);
        if !heap.has_refused() {
            break;
        }
    }
    assert!(rt; 3 <= refused);
}
