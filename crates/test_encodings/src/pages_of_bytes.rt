//! Pages in any encoding, read from a source by the encoding that they are in.
use crate::sniffing::named;
use devices::Source;
use html5ever_interface::interface::token::{SinkFault, Tag, Token};
use html5sinks::tags::TagHandler;
use html5sinks::text_runs::TokenHandler;
use html5sniffing::{read_tags_of_bytes, read_tokens_of_bytes};
use html5stream::StreamError;
use markup5ever::data::NamedReferences;
use std::alloc::{Allocator, Global};
use std::process::Abort;
use testing_devices::{FailingSource, PieceSource};

// The texts of a page, one after the other.
#[derive(Drop)]
struct Texts {
    text: String,
}

impl TokenHandler<Token<Global>> for Texts {
    ghost State = { Unit {0} };

    ghost state = { λ texts. tt };

    ghost step = { λ state run token line. state };

    fn take_token(&mut self, run: &str, _token: Token, _line: u64) -> Result<(), SinkFault> {
        self.text.push_str(run)?;
        Ok(())
    }
}

// Counts tags.
#[derive(Drop)]
struct Tags {
    count: u64,
}

impl<A: Allocator> TagHandler<Tag<A>> for Tags {
    ghost State = { Unit {0} };

    ghost state = { λ tags. tt };

    ghost step = { λ state tag line. state };

    fn take_tag(&mut self, _tag: Tag<A>, _line: u64) -> Result<(), SinkFault> {
        self.count = self.count.wrapping_add(1);
        Ok(())
    }
}

fn text_read<S: Source>(
    rt: &impl Abort,
    alloc: Global,
    source: &mut S,
    said: &str,
) -> (String, Result<(), StreamError>) {
    let references = NamedReferences::check(alloc, Vec::new(alloc)).expect(rt, "a table");
    let texts = Texts {
        text: String::new(alloc),
    };
    let (texts, read) = read_tokens_of_bytes(alloc, source, texts, &references, named(said), None);
    (texts.text, read)
}

fn check_page(rt: &impl Abort, alloc: Global, page: &[u8], said: &str, wanted: &str) {
    for &size in &[1, 2, 3, 700, 1024, 5000] {
        let (text, read) = text_read(rt, alloc, &mut PieceSource::new(page, size), said);
        assert!(rt; read.is_ok());
        assert_eq!(rt; text.as_str(), wanted, "{page:?}");
    }
}

#[test]
fn texts_of_pages(rt: HostRuntime) {
    for &(page, said, wanted) in &[
        (b"".as_slice(), "", ""),
        (b"caf\xe9", "", "caf\u{e9}"),
        (b"caf\xc3\xa9", "", "caf\u{e9}"),
        (b"caf\xe9", "windows-1251", "caf\u{439}"),
        (b"<meta charset=latin1>caf\xe9", "", "caf\u{e9}"),
        (b"caf\xe9<meta charset=windows-1251>", "", "caf\u{439}"),
        (b"\xff\xfe<\0p\0>\0\xe9\0", "koi8-r", "\u{e9}"),
        (
            b"\xef\xbb\xbfcaf\xc3\xa9\xff",
            "koi8-r",
            "caf\u{e9}\u{fffd}",
        ),
        (b"\x93\xfa<p>\x96{", "shift_jis", "\u{65e5}\u{672c}"),
    ] {
        check_page(&rt, rt.alloc(), page, said, wanted);
    }
}

// A page of this many letters, a hint, and a byte.
fn long_page(rt: &impl Abort, alloc: Global, letters: usize) -> Vec<u8> {
    let mut page = vec![in alloc; b'a'; letters].expect(rt, "memory");
    page.extend_from_slice(b"<meta charset=windows-1251>\xe9")
        .expect(rt, "memory");
    page
}

// A hint after plain ASCII counts where it ends within 65,536 bytes.
#[test]
fn a_late_hint(rt: HostRuntime) {
    let alloc = rt.alloc();
    for &(letters, end) in &[(998, "a\u{439}"), (65509, "a\u{439}"), (65510, "a\u{fffd}")] {
        let page = long_page(&rt, alloc, letters);
        let (text, read) = text_read(&rt, alloc, &mut PieceSource::new(&page, 100), "");
        assert!(rt; read.is_ok());
        assert!(rt; text.as_str().ends_with(end), "{letters}");
    }
}

// A read that fails among the first bytes, or after them. No text is handed on until a byte beyond plain ASCII, here
// the last one, ends the search for a hint.
#[test]
fn a_failed_read(rt: HostRuntime) {
    let alloc = rt.alloc();
    let page = long_page(&rt, alloc, 1100);
    for &(reads, count) in &[
        (0, 0),
        (5, 0),
        (1023, 0),
        (1050, 0),
        (1127, 0),
        (1128, 1100),
    ] {
        let (text, read) = text_read(&rt, alloc, &mut FailingSource::new(&page, reads), "");
        assert!(rt; read == Err(StreamError::Read));
        assert_eq!(rt; text.len(), count, "after {reads}");
    }
}

#[test]
fn tags_of_pages(rt: HostRuntime) {
    let alloc = rt.alloc();
    let references = NamedReferences::check(alloc, Vec::new(alloc)).expect(&rt, "a table");
    let mut source = PieceSource::new(b"\xfe\xff\0<\0p\0>\0<\0b\0>", 1);
    let tags = Tags { count: 0 };
    let (tags, read) = read_tags_of_bytes(alloc, &mut source, tags, &references, None, None);
    assert!(rt; read.is_ok());
    assert_eq!(rt; tags.count, 2);
}
