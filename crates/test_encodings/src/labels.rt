//! Labels, names and byte order marks.
use html5encodings::{Encoding, SingleByte};

// A label, and the name of its encoding.
const LABELS: [(&str, &str); 23] = [
    ("utf-8", "UTF-8"),
    (" UTF-8\t", "UTF-8"),
    ("\n\x0c\r Unicode-1-1-UTF-8", "UTF-8"),
    ("latin1", "windows-1252"),
    ("ASCII", "windows-1252"),
    ("iso-8859-1", "windows-1252"),
    ("iso8859-9", "windows-1254"),
    ("Logical", "ISO-8859-8-I"),
    ("visual", "ISO-8859-8"),
    ("tis-620", "windows-874"),
    ("x-mac-ukrainian", "x-mac-cyrillic"),
    ("GB2312", "GBK"),
    ("gb18030", "gb18030"),
    ("big5-hkscs", "Big5"),
    ("x-euc-jp", "EUC-JP"),
    ("csISO2022JP", "ISO-2022-JP"),
    ("\nShift-JIS\r", "Shift_JIS"),
    ("ks_c_5601-1987", "EUC-KR"),
    ("hz-gb-2312", "replacement"),
    ("utf-16", "UTF-16LE"),
    ("unicodeFFFE", "UTF-16BE"),
    ("x-user-defined", "x-user-defined"),
    ("ISO_8859-2:1987", "ISO-8859-2"),
];

// What names no encoding.
const NONE: [&str; 9] = [
    "",
    " ",
    "utf-8 x",
    "utf 8",
    "utf8\x0b",
    "\u{a0}utf-8",
    "utf-7",
    "cesu-8",
    "utf-8\0",
];

fn name_of(label: &str) -> &'static str {
    match Encoding::for_label(label) {
        Some(encoding) => encoding.name(),
        None => "",
    }
}

#[test]
fn labels_in_any_case(rt: HostRuntime) {
    for &(label, name) in &LABELS {
        assert_eq!(rt; name_of(label), name, "{label:?}");
    }
    for &label in &NONE {
        assert_eq!(rt; name_of(label), "", "{label:?}");
    }
}

// Bytes, and the mark that they begin with.
const MARKS: [(&[u8], Option<(Encoding, usize)>); 8] = [
    (b"\xef\xbb\xbf", Some((Encoding::Utf8, 3))),
    (b"\xef\xbb\xbfa", Some((Encoding::Utf8, 3))),
    (b"\xfe\xff", Some((Encoding::Utf16Be, 2))),
    (b"\xff\xfe\0\0", Some((Encoding::Utf16Le, 2))),
    (b"\xef\xbb", None),
    (b"\xff", None),
    (b"", None),
    (b"a\xef\xbb\xbf", None),
];

#[test]
fn byte_order_marks(rt: HostRuntime) {
    for &(bytes, mark) in &MARKS {
        assert!(rt; Encoding::for_bom(bytes) == mark, "{bytes:?}");
    }
}

#[test]
fn a_single_byte_encoding_has_its_name(rt: HostRuntime) {
    assert_eq!(rt; SingleByte::Iso8859_8I.name(), "ISO-8859-8-I");
    assert!(rt; Encoding::for_label("koi8-r") == Some(Encoding::SingleByte(SingleByte::Koi8R)));
}
