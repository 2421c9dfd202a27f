//! Texts of bytes, cut anywhere.
use html5encodings::{Decoder, Encoding, decode_all};
use std::alloc::{AllocError, Global};
use std::process::Abort;

// A label, bytes, and their text.
const SINGLE: [(&str, &[u8], &str); 14] = [
    ("windows-1252", b"caf\xe9", "caf\u{e9}"),
    ("windows-1252", b"\x80\x81\x9f", "\u{20ac}\u{81}\u{178}"),
    ("windows-1253", b"a\xaab", "a\u{fffd}b"),
    ("windows-1255", b"\xca", "\u{5ba}"),
    ("windows-874", b"\xa1\xdb", "\u{e01}\u{fffd}"),
    ("iso-8859-8-i", b"\xe0", "\u{5d0}"),
    ("iso-8859-5", b"\xb0", "\u{410}"),
    ("koi8-r", b"\xc1", "\u{430}"),
    ("koi8-u", b"\xae", "\u{45e}"),
    ("ibm866", b"\x80", "\u{410}"),
    ("macintosh", b"\xdb", "\u{20ac}"),
    ("x-mac-cyrillic", b"\xff", "\u{20ac}"),
    ("x-user-defined", b"a\x80\xff", "a\u{f780}\u{f7ff}"),
    ("replacement", b"abc", "\u{fffd}"),
];

const UNICODE: [(&str, &[u8], &str); 22] = [
    (
        "utf-8",
        b"a\xc3\xa9\xe2\x82\xac\xf0\x9f\x98\x80z",
        "a\u{e9}\u{20ac}\u{1f600}z",
    ),
    ("utf-8", b"\xef\xbb\xbfa", "\u{feff}a"),
    ("utf-8", b"ab\xc3", "ab\u{fffd}"),
    ("utf-8", b"\xe2\x82", "\u{fffd}"),
    ("utf-8", b"\xf0\x9f\x98", "\u{fffd}"),
    ("utf-8", b"\xe2\x82A", "\u{fffd}A"),
    ("utf-8", b"\xed\xa0\x80", "\u{fffd}\u{fffd}\u{fffd}"),
    ("utf-8", b"\xc0\xaf", "\u{fffd}\u{fffd}"),
    ("utf-8", b"\xe0\x80\xaf", "\u{fffd}\u{fffd}\u{fffd}"),
    ("utf-8", b"\xf0\x80\x80", "\u{fffd}\u{fffd}\u{fffd}"),
    ("utf-8", b"\xf4\x90\x80", "\u{fffd}\u{fffd}\u{fffd}"),
    ("utf-8", b"\xf5a", "\u{fffd}a"),
    ("utf-8", b"\x80\xff", "\u{fffd}\u{fffd}"),
    ("utf-16le", b"a\0\x3d\xd8\x00\xde", "a\u{1f600}"),
    ("utf-16be", b"\0a\xd8\x3d\xde\x00", "a\u{1f600}"),
    ("utf-16le", b"\x3d\xd8a\0", "\u{fffd}a"),
    ("utf-16le", b"\x3d\xd8\x3d\xd8\x00\xde", "\u{fffd}\u{1f600}"),
    ("utf-16le", b"\x00\xdea\0", "\u{fffd}a"),
    ("utf-16le", b"a\0b", "a\u{fffd}"),
    ("utf-16be", b"\0a\xd8\x3d", "a\u{fffd}"),
    ("utf-16be", b"\xd8\x3d\xde", "\u{fffd}"),
    ("utf-16be", b"\xff\xfe", "\u{fffe}"),
];

const KOREAN_AND_CHINESE: [(&str, &[u8], &str); 32] = [
    ("euc-kr", b"\xb0\xa1\x81\x41", "\u{ac00}\u{ac02}"),
    ("euc-kr", b"a\x81", "a\u{fffd}"),
    ("euc-kr", b"\x81\x5b", "\u{fffd}["),
    ("euc-kr", b"\xc9\xa1a", "\u{fffd}a"),
    ("euc-kr", b"\x81\x20", "\u{fffd} "),
    ("euc-kr", b"\x80\xff", "\u{fffd}\u{fffd}"),
    ("big5", b"\xa4\xa4", "\u{4e2d}"),
    (
        "big5",
        b"\x88\x62\x88\x64\x88\xa3\x88\xa5",
        "\u{ca}\u{304}\u{ca}\u{30c}\u{ea}\u{304}\u{ea}\u{30c}",
    ),
    ("big5", b"\x87\x40", "\u{43f0}"),
    ("big5", b"\x81\x40", "\u{fffd}@"),
    ("big5", b"\xa4\x20", "\u{fffd} "),
    ("big5", b"\xa4\x80a", "\u{fffd}a"),
    ("big5", b"a\xa4", "a\u{fffd}"),
    ("gbk", b"\xc4\xe3\x80\xff", "\u{4f60}\u{20ac}\u{fffd}"),
    ("gbk", b"\x81\x30\x81\x30", "\u{80}"),
    ("gb18030", b"\xa8\xbc\xa6\xd9", "\u{1e3f}\u{fe10}"),
    ("gb18030", b"\x81\x30\x81\x30", "\u{80}"),
    ("gb18030", b"\x81\x35\xf4\x37", "\u{e7c7}"),
    ("gb18030", b"\x84\x31\xa4\x39", "\u{ffff}"),
    ("gb18030", b"\x84\x31\xa5\x30", "\u{fffd}"),
    ("gb18030", b"\x8f\x39\xfe\x39", "\u{fffd}"),
    ("gb18030", b"\x90\x30\x81\x30", "\u{10000}"),
    ("gb18030", b"\xe3\x32\x9a\x35", "\u{10ffff}"),
    ("gb18030", b"\xe3\x32\x9a\x36", "\u{fffd}"),
    ("gb18030", b"\xfe\x39\xfe\x39", "\u{fffd}"),
    ("gb18030", b"\x81\x30A", "\u{fffd}0A"),
    ("gb18030", b"\x81\x30\x81A", "\u{fffd}0\u{4e04}"),
    ("gb18030", b"\x81\x30\x81 ", "\u{fffd}0\u{fffd} "),
    ("gb18030", b"\x81\x20", "\u{fffd} "),
    ("gb18030", b"a\x81", "a\u{fffd}"),
    ("gb18030", b"a\x81\x30", "a\u{fffd}"),
    ("gb18030", b"a\x81\x30\x81", "a\u{fffd}"),
];

const JAPANESE: [(&str, &[u8], &str); 33] = [
    (
        "shift_jis",
        b"\x83\x65\x83\x58\x83\x67",
        "\u{30c6}\u{30b9}\u{30c8}",
    ),
    ("shift_jis", b"\xb1\x80\xa0", "\u{ff71}\u{80}\u{fffd}"),
    ("shift_jis", b"\xf0\x40\xf9\xfc", "\u{e000}\u{e757}"),
    ("shift_jis", b"\x81\x20", "\u{fffd} "),
    ("shift_jis", b"\x85\x40", "\u{fffd}@"),
    ("shift_jis", b"\x81\xfda", "\u{fffd}a"),
    ("shift_jis", b"\xfd\xfe\xff", "\u{fffd}\u{fffd}\u{fffd}"),
    ("shift_jis", b"a\x81", "a\u{fffd}"),
    ("euc-jp", b"\xa4\xa2\x8e\xb1", "\u{3042}\u{ff71}"),
    ("euc-jp", b"\x8f\xb0\xa1", "\u{4e02}"),
    ("euc-jp", b"\x8fA\x8eB\xa4C", "\u{fffd}A\u{fffd}B\u{fffd}C"),
    ("euc-jp", b"\x8f\xb0A", "\u{fffd}A"),
    ("euc-jp", b"\x8e\xe0a", "\u{fffd}a"),
    ("euc-jp", b"\x80\xa0\xff", "\u{fffd}\u{fffd}\u{fffd}"),
    ("euc-jp", b"a\xa4", "a\u{fffd}"),
    ("euc-jp", b"a\x8f\xb0", "a\u{fffd}"),
    ("iso-2022-jp", b"a\x1b$B\x24\x22\x1b(Bz", "a\u{3042}z"),
    ("iso-2022-jp", b"\x1b$@\x30\x21", "\u{4e9c}"),
    ("iso-2022-jp", b"\x1b(J\x5c\x7ea", "\u{a5}\u{203e}a"),
    ("iso-2022-jp", b"\x1b(I\x31\x7e", "\u{ff71}\u{fffd}"),
    ("iso-2022-jp", b"a\x0e\x0f\x80", "a\u{fffd}\u{fffd}\u{fffd}"),
    ("iso-2022-jp", b"\x1b(B\x1b(Bx", "\u{fffd}x"),
    ("iso-2022-jp", b"\x1b(Z", "\u{fffd}(Z"),
    ("iso-2022-jp", b"\x1bx", "\u{fffd}x"),
    ("iso-2022-jp", b"\x1b\x1b(Jx", "\u{fffd}x"),
    ("iso-2022-jp", b"\x1b$B\x24\x1b(Ba", "\u{fffd}a"),
    ("iso-2022-jp", b"\x1b$B\x7f\x24\x7f", "\u{fffd}\u{fffd}"),
    ("iso-2022-jp", b"\x1b$B\x24", "\u{fffd}"),
    ("iso-2022-jp", b"\x1b", "\u{fffd}"),
    ("iso-2022-jp", b"\x1b$", "\u{fffd}$"),
    ("iso-2022-jp", b"\x1b(J\x1b(", "\u{fffd}("),
    ("iso-2022-jp", b"\x1b$B\x1b$", "\u{fffd}\u{fffd}"),
    ("iso-2022-jp", b"\x1b(I\x1b(", "\u{fffd}\u{ff68}"),
];

// Decodes bytes, cut in two at each place.
fn check_cuts(rt: &impl Abort, alloc: Global, label: &str, bytes: &[u8], wanted: &str) {
    let Some(encoding) = Encoding::for_label(label) else {
        panic!(rt; "no encoding {label}");
    };
    for cut in 0..=bytes.len() {
        let Some((first, second)) = bytes.split_at_checked(cut) else {
            panic!(rt; "no place {cut}");
        };
        let text = decode_all(alloc, encoding, &[first, second]).expect(rt, "memory");
        assert_eq!(rt; text.as_str(), wanted, "{label} {bytes:?} cut at {cut}");
    }
}

fn check_rows(rt: &impl Abort, alloc: Global, rows: &[(&str, &[u8], &str)]) {
    for (label, bytes, wanted) in rows {
        check_cuts(rt, alloc, label, bytes, wanted);
    }
}

#[test]
fn texts_in_single_bytes(rt: HostRuntime) {
    check_rows(&rt, rt.alloc(), &SINGLE);
}

#[test]
fn texts_in_unicode(rt: HostRuntime) {
    check_rows(&rt, rt.alloc(), &UNICODE);
}

#[test]
fn texts_in_korean_and_chinese(rt: HostRuntime) {
    check_rows(&rt, rt.alloc(), &KOREAN_AND_CHINESE);
}

#[test]
fn texts_in_japanese(rt: HostRuntime) {
    check_rows(&rt, rt.alloc(), &JAPANESE);
}

// The text of two pieces in the encoding that a label names.
fn text_of(
    alloc: Global,
    label: &str,
    first: &[u8],
    second: &[u8],
) -> Result<Option<String>, AllocError> {
    let Some(encoding) = Encoding::for_label(label) else {
        return Ok(None);
    };
    let mut decoder = Decoder::new(encoding);
    let mut text = decoder.decode(alloc, first)?;
    let more = decoder.decode(alloc, second)?;
    text.push_str(more.as_str())?;
    text.push_str(decoder.finish())?;
    Ok(Some(text))
}

#[test]
fn a_text_of_two_pieces(rt: HostRuntime) {
    let text = text_of(rt.alloc(), " Big5\n", b"a\xa4", b"\xa4b\xa4").expect(&rt, "memory");
    assert!(rt; text.is_some_and(|text| text.as_str() == "a\u{4e2d}b\u{fffd}"));
}
