//! Pages in an encoding, read from a source.
use decoded_source::DecodedSource;
use html5encodings::Encoding;
use html5ever_interface::collect::Collector;
use html5ever_interface::interface::token::Token;
use html5ever_interface::options::TokenizerOpts;
use html5stream::read_source;
use markup5ever::data::NamedReferences;
use std::alloc::Global;
use std::process::Abort;
use testing_devices::PieceSource;

// The text of a page whose bytes come in pieces of this size, and how many tokens it has.
fn text_read(
    rt: &impl Abort,
    alloc: Global,
    page: &[u8],
    size: usize,
    encoding: Encoding,
) -> (String, usize) {
    let references = NamedReferences::check(alloc, Vec::new(alloc)).expect(rt, "a table");
    let mut source = DecodedSource::new(alloc, PieceSource::new(page, size), encoding);
    let sink = Collector::new(alloc, false);
    let options = TokenizerOpts::default();
    let (sink, read) = read_source(alloc, &mut source, sink, options, &references);
    assert!(rt; read.is_ok());
    let mut text = String::new(alloc);
    for (token, _line) in sink.entries() {
        if let Token::CharacterTokens(more) = token {
            text.push_str(more.as_str()).expect(rt, "memory");
        }
    }
    (text, sink.entries().len())
}

// A page in Shift_JIS, in which the second byte of a character is `\x5c`, that of a backslash.
#[test]
fn a_page_in_shift_jis(rt: HostRuntime) {
    let page = b"<p>\x93\xfa\x95\x5c</p>\x93";
    for size in 1..=4 {
        let (text, tokens) = text_read(&rt, rt.alloc(), page, size, Encoding::ShiftJis);
        assert_eq!(rt; text.as_str(), "\u{65e5}\u{8868}\u{fffd}");
        assert_eq!(rt; tokens, 5);
    }
}
