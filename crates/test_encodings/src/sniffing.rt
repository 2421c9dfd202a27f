//! Which encoding a page is in, by its first bytes.
use html5encodings::{Encoding, SingleByte};
use html5sniffing::sniff;
use markup5ever::data::NamedReferences;
use std::alloc::{AllocError, Allocator, Global};
use std::process::Abort;
use testing_alloc::Refusing;

// The encoding declared for a page, or its fallback.
const NONE: Option<Encoding> = None;

const KOI8_R: Option<Encoding> = Some(Encoding::SingleByte(SingleByte::Koi8R));

const WINDOWS_1251: Option<Encoding> = Some(Encoding::SingleByte(SingleByte::Windows1251));

const UTF_8: Option<Encoding> = Some(Encoding::Utf8);

const GBK: Option<Encoding> = Some(Encoding::Gbk);

const BIG5: Option<Encoding> = Some(Encoding::Big5);

const UTF_16: Option<Encoding> = Some(Encoding::Utf16Le);

// A page, its declared encoding, the fallback, and the name of its encoding.
const PAGES: [(&[u8], Option<Encoding>, Option<Encoding>, &str); 58] = [
    (b"", NONE, NONE, "UTF-8"),
    (b"plain", NONE, NONE, "UTF-8"),
    (b"caf\xc3\xa9", NONE, NONE, "UTF-8"),
    (b"caf\xe9", NONE, NONE, "windows-1252"),
    (b"caf\xe9", KOI8_R, NONE, "KOI8-R"),
    (b"caf\xe9", NONE, WINDOWS_1251, "windows-1251"),
    (b"plain", NONE, WINDOWS_1251, "windows-1251"),
    // Hints.
    (
        b"<meta charset=iso-8859-2>caf\xe9",
        NONE,
        NONE,
        "ISO-8859-2",
    ),
    (
        b"caf\xe9<meta charset=iso-8859-2>",
        NONE,
        NONE,
        "ISO-8859-2",
    ),
    (
        b"<meta charset=iso-8859-2>",
        NONE,
        WINDOWS_1251,
        "ISO-8859-2",
    ),
    (b"<meta charset=iso-8859-2>", UTF_8, NONE, "UTF-8"),
    (b"<META CHARSET='\t Shift_JIS \n'>", NONE, NONE, "Shift_JIS"),
    (
        b"<meta charset=no-such><meta charset=gbk>",
        NONE,
        NONE,
        "GBK",
    ),
    (
        b"<meta charset=koi8-r><meta charset=gbk>",
        NONE,
        NONE,
        "KOI8-R",
    ),
    (b"<meta charset=koi8-r", NONE, NONE, "UTF-8"),
    (
        b"</meta charset=koi8-r><metal charset=gbk>",
        NONE,
        NONE,
        "UTF-8",
    ),
    (b"<meta charset=utf-16>", NONE, WINDOWS_1251, "UTF-8"),
    (b"<meta charset=utf-16be>caf\xe9", NONE, NONE, "UTF-8"),
    (b"<meta charset=x-user-defined>", NONE, NONE, "windows-1252"),
    (b"<!-- <meta charset=koi8-r> --><p>", NONE, NONE, "UTF-8"),
    (
        b"<script><meta charset=koi8-r></script>",
        NONE,
        NONE,
        "UTF-8",
    ),
    (b"<title><meta charset=koi8-r></title>", NONE, NONE, "UTF-8"),
    (
        b"<title>x</title><meta charset=koi8-r>",
        NONE,
        NONE,
        "KOI8-R",
    ),
    // Hints in `content`.
    (
        b"<meta http-equiv=content-type content='text/html; charset=euc-kr'>",
        NONE,
        NONE,
        "EUC-KR",
    ),
    (
        b"<meta content='a;CharSet =\n\"big5\"x' http-equiv=Content-Type>",
        NONE,
        NONE,
        "Big5",
    ),
    (
        b"<meta http-equiv=content-type content='charset=gbk;x'>",
        NONE,
        NONE,
        "GBK",
    ),
    (
        b"<meta http-equiv=content-type content='charset charset= gbk x'>",
        NONE,
        NONE,
        "GBK",
    ),
    (
        b"<meta http-equiv=content-type content='charsetcharset=gbk'>",
        NONE,
        NONE,
        "GBK",
    ),
    (
        b"<meta http-equiv=content-type content='charset=\"gbk'>",
        NONE,
        NONE,
        "UTF-8",
    ),
    (
        b"<meta http-equiv=content-type content='charset='>",
        NONE,
        NONE,
        "UTF-8",
    ),
    (
        b"<meta http-equiv=content-type content='chars\xe9t=gbk'>",
        NONE,
        UTF_8,
        "UTF-8",
    ),
    (
        b"<meta http-equiv=content-type content='charset=\xc3\xa9'>",
        NONE,
        NONE,
        "UTF-8",
    ),
    (
        b"<meta http-equiv=refresh content='charset=gbk'>",
        NONE,
        NONE,
        "UTF-8",
    ),
    (
        b"<meta charset=no-such http-equiv=content-type content='charset=gbk'>",
        NONE,
        NONE,
        "UTF-8",
    ),
    (
        b"<meta http-equiv=content-type content='charset=gbk' charset=koi8-r>",
        NONE,
        NONE,
        "KOI8-R",
    ),
    // XML declarations.
    (
        b"<?xml version=\"1.0\" encoding=\"windows-1251\"?>",
        NONE,
        NONE,
        "windows-1251",
    ),
    (
        b"<?xml encoding \t=\n'koi8-r' ?>caf\xc3\xa9",
        NONE,
        BIG5,
        "KOI8-R",
    ),
    (b"<?xml encoding='koi8-r'?>", GBK, NONE, "GBK"),
    (b"<?xml encoding='utf-16'?>", NONE, BIG5, "UTF-8"),
    (
        b"<?xml encoding='x-user-defined'?>",
        NONE,
        NONE,
        "x-user-defined",
    ),
    (
        b"<?xml encoding='koi8-r'?><meta charset=gbk>",
        NONE,
        NONE,
        "GBK",
    ),
    (b"<?xml encoding='koi8-r'", NONE, NONE, "UTF-8"),
    (b"<?xml?><p encoding='koi8-r'>", NONE, NONE, "UTF-8"),
    (b" <?xml encoding='koi8-r'?>", NONE, NONE, "UTF-8"),
    (b"<?XML encoding='koi8-r'?>", NONE, NONE, "UTF-8"),
    (b"<?xml encoding=' koi8-r'?>", NONE, NONE, "UTF-8"),
    (b"<?xml encoding=koi8-r?>", NONE, NONE, "UTF-8"),
    (b"<?xml encoding='koi8-r\"?>", NONE, NONE, "UTF-8"),
    (
        b"<?xml encodings='gbk' encoding='koi8-r'?>",
        NONE,
        NONE,
        "UTF-8",
    ),
    (b"<?xml encoding='no-such'?>", NONE, NONE, "UTF-8"),
    (b"<\0?\0x\0m\0l\0", NONE, BIG5, "UTF-16LE"),
    (b"\0<\0?\0x\0m\0l", NONE, NONE, "UTF-16BE"),
    (b"<\0?\0x\0", KOI8_R, NONE, "KOI8-R"),
    (b"<\0?\0", NONE, NONE, "UTF-8"),
    // Byte order marks.
    (b"\xef\xbb\xbf<meta charset=koi8-r>", GBK, BIG5, "UTF-8"),
    (b"\xfe\xff\0<", GBK, NONE, "UTF-16BE"),
    (b"\xff\xfe<\0", GBK, NONE, "UTF-16LE"),
    (b"<meta charset=koi8-r>", NONE, UTF_16, "UTF-16LE"),
];

// The encoding of a label, or none of an empty one.
pub fn named(label: &str) -> Option<Encoding> {
    Encoding::for_label(label)
}

// What a page's first bytes tell of its encoding, or `None` if there was no memory for the table.
fn sniffed<A: Allocator + Copy>(
    alloc: A,
    page: &[u8],
    said: Option<Encoding>,
    fallback: Option<Encoding>,
) -> Option<Result<Encoding, AllocError>> {
    let references: NamedReferences<A> = NamedReferences::check(alloc, Vec::new(alloc)).ok()?;
    Some(sniff(alloc, &references, page, said, fallback))
}

// The name of a page's encoding.
fn name_of(
    rt: &impl Abort,
    alloc: Global,
    page: &[u8],
    said: Option<Encoding>,
    fallback: Option<Encoding>,
) -> &'static str {
    let encoding = sniffed(alloc, page, said, fallback).expect(rt, "a table");
    encoding.expect(rt, "memory").name()
}

#[test]
fn encodings_of_pages(rt: HostRuntime) {
    for &(page, said, fallback, name) in &PAGES {
        let encoding = name_of(&rt, rt.alloc(), page, said, fallback);
        assert_eq!(rt; encoding, name, "{page:?}");
    }
}

// A character that is cut by the end of the first bytes is UTF-8, and one that the page's end cuts is not.
#[test]
fn a_cut_character(rt: HostRuntime) {
    let alloc = rt.alloc();
    for &(count, name) in &[(1023, "UTF-8"), (1022, "windows-1252")] {
        let mut front = vec![in alloc; b'a'; count].expect(&rt, "memory");
        front.push(0xC3).expect(&rt, "memory");
        assert_eq!(rt; name_of(&rt, alloc, &front, None, None), name);
    }
}

#[test]
fn a_refused_growth_is_an_error(rt: HostRuntime) {
    let mut refused = 0u64;
    for admitted in 0..1000u64 {
        let heap = Refusing::new(rt.alloc(), admitted);
        match sniffed(&heap, b"<p a=b><meta charset=gbk>", None, None) {
            None => {}
            Some(Ok(encoding)) => {
                assert_eq!(rt; encoding.name(), "GBK");
                assert!(rt; !heap.has_refused());
                break;
            }
            Some(Err(_)) => refused = refused.wrapping_add(1),
        }
    }
    assert!(rt; 3 <= refused);
}
