//! Whole pages that are written token by token, with raw text and plain text, and read again.
use crate::reading::{are_same, read};
use html5entities::standard_references;
use html5ever::tokenizer::collect::Collector;
use html5ever_interface::interface::token::{Tag, TagKind, Token};
use html5ever_interface::states::RawKind;
use html5serialize::{Escapes, PageOptions, PageWriter, Place};
use markup5ever::interface::LocalName;
use std::alloc::{AllocError, Allocator, Global};
use std::process::Abort;
use testing_alloc::Refusing;

// A start tag of this name, without attributes.
fn start<A: Allocator + Copy>(alloc: A, name: &str) -> Result<Token<A>, AllocError> {
    Ok(Token::TagToken(Tag {
        kind: TagKind::StartTag,
        name: LocalName(String::from_str(alloc, name)?),
        attrs: Vec::new(alloc),
        self_closing: false,
        had_duplicate_attributes: false,
    }))
}

// What this writer of a page writes for a start tag of that name and these tokens after it.
fn written(
    rt: &impl Abort,
    alloc: Global,
    mut page: PageWriter,
    name: &str,
    place: Place,
    tokens: &Collector<Global>,
) -> String {
    let mut out = String::new(alloc);
    let tag = start(alloc, name).expect(rt, "memory");
    page.push(&mut out, &tag).expect(rt, "memory");
    assert!(rt; page.place() == place, "{name}");
    for (token, _) in tokens.entries() {
        page.push(&mut out, token).expect(rt, "memory");
    }
    out
}

// The texts of tokens, one after another.
fn texts(rt: &impl Abort, alloc: Global, tokens: &Collector<Global>) -> String {
    let mut told = String::new(alloc);
    for (token, _) in tokens.entries() {
        if let Token::CharacterTokens(run) = token {
            told.push_str(run.as_str()).expect(rt, "memory");
        }
    }
    told
}

// That a start tag of that name and this text after it are written so by this writer of a page, and that this
// is read as the same tokens.
fn check_page(
    rt: &impl Abort,
    alloc: Global,
    page: PageWriter,
    name: &str,
    place: Place,
    text: &str,
    wanted: &str,
) {
    let references = standard_references(alloc).expect(rt, "memory");
    let tokens = read(alloc, &references, place, name, text).expect(rt, "a reading");
    let out = written(rt, alloc, page, name, place, &tokens);
    assert!(rt; out.as_str() == wanted, "{text:?}: {out:?}");
    let (_, rest) = out.as_str().split_once('>').expect(rt, "a start tag");
    let again = read(alloc, &references, place, name, rest).expect(rt, "a reading");
    assert!(rt; are_same(tokens.entries(), again.entries()), "{text:?}");
    let told = texts(rt, alloc, &tokens);
    assert!(rt;
        texts(rt, alloc, &again).as_str() == told.as_str(),
        "{text:?}"
    );
}

// The same of each row: a name, a text, and what is written.
fn check_rows(
    rt: &impl Abort,
    alloc: Global,
    options: PageOptions,
    place: Place,
    rows: &[(&str, &str, &str)],
) {
    let page = PageWriter::new(options);
    for (name, text, wanted) in rows {
        check_page(rt, alloc, page, name, place, text, wanted);
    }
}

const SCRIPTING: PageOptions = PageOptions {
    scripting: true,
    escapes: Escapes::Numbers,
};

const NAMES: PageOptions = PageOptions {
    scripting: false,
    escapes: Escapes::Names,
};

#[test]
fn pages_with_rcdata(rt: HostRuntime) {
    check_rows(
        &rt,
        rt.alloc(),
        PageOptions::default(),
        Place::RawText(RawKind::Rcdata),
        &[
            (
                "title",
                "a&lt;b<i></title>c&lt;<b>",
                "<title>a&#60;b&#60;i&#62;</title>c&#60;<b>",
            ),
            (
                "textarea",
                "\na&amp;\0\u{feff}</TEXTAREA x=1 />\n&gt;",
                "<textarea>\na&#38;\u{fffd}&#65279;</textarea x=\"1\"/>\n&#62;",
            ),
            (
                "title",
                "</title</titlex&#13;</tit",
                "<title>&#60;/title&#60;/titlex&#13;&#60;/tit",
            ),
            ("title", "a</title b", "<title>a"),
        ],
    );
}

#[test]
fn pages_with_rawtext(rt: HostRuntime) {
    check_rows(
        &rt,
        rt.alloc(),
        PageOptions::default(),
        Place::RawText(RawKind::Rawtext),
        &[
            (
                "style",
                "a<b>&amp;\"</style >&amp;</b>",
                "<style>a<b>&amp;\"</style>&#38;</b>",
            ),
            (
                "noframes",
                "<!--</noframe></noframes><!--a--!>",
                "<noframes><!--</noframe></noframes><!--a-->",
            ),
            (
                "xmp",
                "\r\n\u{feff}\0</XMP\n>",
                "<xmp>\n\u{feff}\u{fffd}</xmp>",
            ),
            ("iframe", "<</iframe>", "<iframe><</iframe>"),
            ("noembed", "</noembed", "<noembed></noembed"),
            ("style", "", "<style>"),
        ],
    );
}

const SCRIPTS: [(&str, &str, &str); 8] = [
    (
        "script",
        "<!--<script></script>--></script>&lt;",
        "<script><!--<script></script>--></script>&#60;",
    ),
    (
        "script",
        "<!--<SCRIPT >\0</script x>--<!-->a</script/>b",
        "<script><!--<SCRIPT >\u{fffd}</script x>--<!-->a</script/>b",
    ),
    (
        "script",
        "<!--<script></script></script c='d'><p>",
        "<script><!--<script></script></script c=\"d\"><p>",
    ),
    (
        "script",
        "<script><!-</script><script>",
        "<script><script><!-</script><script>",
    ),
    (
        "script",
        "if (a && b < c)\u{2028}",
        "<script>if (a && b < c)\u{2028}",
    ),
    (
        "script",
        "<!--<script></script",
        "<script><!--<script></script",
    ),
    ("script", "<!--<scr</script a=\"", "<script><!--<scr"),
    ("script", "a</scri", "<script>a</scri"),
];

#[test]
fn pages_with_scripts(rt: HostRuntime) {
    check_rows(
        &rt,
        rt.alloc(),
        PageOptions::default(),
        Place::RawText(RawKind::ScriptData),
        &SCRIPTS,
    );
}

#[test]
fn pages_with_plain_text(rt: HostRuntime) {
    check_rows(
        &rt,
        rt.alloc(),
        PageOptions::default(),
        Place::PlainText,
        &[
            (
                "plaintext",
                "a</plaintext>&amp;\0<b>\r",
                "<plaintext>a</plaintext>&amp;\u{fffd}<b>\n",
            ),
            ("plaintext", "\n\u{feff}\"", "<plaintext>\n\u{feff}\""),
            ("plaintext", "", "<plaintext>"),
        ],
    );
}

#[test]
fn pages_in_data(rt: HostRuntime) {
    check_rows(
        &rt,
        rt.alloc(),
        PageOptions::default(),
        Place::Data,
        &[
            ("p", "&lt;\0</p>", "<p>&#60;\0</p>"),
            (
                "p",
                "<a b='& < > \" \u{a0} &#13;&lt;&lt;' c='\"'>",
                "<p><a b=\"&#38; &#60; &#62; &#34; \u{a0} &#13;&#60;&#60;\" c=\"&#34;\">",
            ),
            ("noscript", "<b>&", "<noscript><b>&#38;"),
            (
                "noscript",
                "<p>x</P></noscript>y",
                "<noscript><p>x</p></noscript>y",
            ),
            ("noscript", "</noscript>", "<noscript></noscript>"),
            ("noscript", "", "<noscript>"),
            ("scripts", "<b>", "<scripts><b>"),
        ],
    );
}

#[test]
fn pages_with_scripting(rt: HostRuntime) {
    check_rows(
        &rt,
        rt.alloc(),
        SCRIPTING,
        Place::RawText(RawKind::Rawtext),
        &[
            (
                "noscript",
                "<p>x</P></noscript>y&lt;<b>",
                "<noscript><p>x</P></noscript>y&#60;<b>",
            ),
            (
                "noscript",
                "&lt;</noscripts></NOSCRIPT/>",
                "<noscript>&lt;</noscripts></noscript/>",
            ),
            ("noscript", "</noscript>", "<noscript></noscript>"),
            ("noscript", "<p>&amp;", "<noscript><p>&amp;"),
            ("noscript", "", "<noscript>"),
        ],
    );
    check_rows(
        &rt,
        rt.alloc(),
        SCRIPTING,
        Place::Data,
        &[
            ("noscripts", "<b>&", "<noscripts><b>&#38;"),
            ("p", "</noscript>&", "<p></noscript>&#38;"),
        ],
    );
}

// The same texts with names: in Data and in RCDATA, and in no other raw text.
#[test]
fn pages_with_names(rt: HostRuntime) {
    let page = PageWriter::new(NAMES);
    for &(name, place, text, wanted) in &[
        (
            "p",
            Place::Data,
            "a&amp;lt;&#160;<b>\"&gt;'&#13;\u{feff}&lt;",
            "<p>a&amp;lt;&nbsp;<b>\"&gt;'&#13;&#65279;&lt;",
        ),
        (
            "title",
            Place::RawText(RawKind::Rcdata),
            "a&amp;&#160;<i>\"&#60;</title>&",
            "<title>a&amp;&nbsp;&lt;i&gt;\"&lt;</title>&amp;",
        ),
        (
            "style",
            Place::RawText(RawKind::Rawtext),
            "a<b>&amp;\u{a0}</style>\u{a0}<",
            "<style>a<b>&amp;\u{a0}</style>&nbsp;&lt;",
        ),
        (
            "p",
            Place::Data,
            "<a title='<&amp;&#160;'>&lt",
            "<p><a title=\"&lt;&amp;&nbsp;\">&lt;",
        ),
    ] {
        check_page(&rt, rt.alloc(), page, name, place, text, wanted);
    }
}

// Values with names: there `"` has one, too, and end tags have values.
#[test]
fn values_with_names(rt: HostRuntime) {
    let page = PageWriter::new(NAMES);
    for &(name, place, text, wanted) in &[
        (
            "p",
            Place::Data,
            "<a b='& < > \" \u{a0} &#13; \u{feff} \u{e9}'>",
            "<p><a b=\"&amp; &lt; &gt; &quot; &nbsp; &#13; &#65279; \u{e9}\">",
        ),
        (
            "p",
            Place::Data,
            "<a b='&amp;&lt;\"\"' c='\"' d=&gt; e=''>\"",
            "<p><a b=\"&amp;&lt;&quot;&quot;\" c=\"&quot;\" d=\"&gt;\" e=\"\">\"",
        ),
        (
            "p",
            Place::Data,
            "<a b=&amp;lt c=&ltx d=&amp;quot;>",
            "<p><a b=\"&amp;lt\" c=\"&amp;ltx\" d=\"&amp;quot;\">",
        ),
        (
            "title",
            Place::RawText(RawKind::Rcdata),
            "\"</TITLE b='<\"&'>\"",
            "<title>\"</title b=\"&lt;&quot;&amp;\">\"",
        ),
        (
            "style",
            Place::RawText(RawKind::Rawtext),
            "</style b='\u{a0}' />\u{a0}",
            "<style></style b=\"&nbsp;\"/>&nbsp;",
        ),
    ] {
        check_page(&rt, rt.alloc(), page, name, place, text, wanted);
    }
}

// A tag of this name, without attributes.
fn tag(alloc: Global, kind: TagKind, name: &str) -> Result<Token, AllocError> {
    let mut token = start(alloc, name)?;
    if let Token::TagToken(tag) = &mut token {
        tag.kind = kind;
    }
    Ok(token)
}

// An end tag opens nothing, and nothing ends plain text.
#[test]
fn places_after_tags(rt: HostRuntime) {
    let mut page = PageWriter::new(PageOptions::default());
    let mut out = String::new(rt.alloc());
    for &(kind, name, place) in &[
        (
            TagKind::StartTag,
            "script",
            Place::RawText(RawKind::ScriptData),
        ),
        (TagKind::EndTag, "script", Place::Data),
        (TagKind::EndTag, "script", Place::Data),
        (TagKind::StartTag, "plaintext", Place::PlainText),
        (TagKind::EndTag, "script", Place::PlainText),
    ] {
        let tag = tag(rt.alloc(), kind, name).expect(&rt, "memory");
        page.push(&mut out, &tag).expect(&rt, "memory");
        assert!(rt; page.place() == place, "{name}");
    }
    assert!(rt;
        out.as_str() == "<script></script></script><plaintext></script>",
        "{out:?}"
    );
}

// Whether a start tag of `script` is written with this many growths, and the place after it.
fn opens<A: Allocator + Copy>(alloc: A) -> (bool, Place) {
    let mut page = PageWriter::new(PageOptions::default());
    let mut out = String::new(alloc);
    let Ok(tag) = start(alloc, "script") else {
        return (false, page.place());
    };
    let is_written = page.push(&mut out, &tag).is_ok();
    (is_written, page.place())
}

#[test]
fn a_refused_growth_leaves_the_place(rt: HostRuntime) {
    let mut finished = false;
    for admitted in 0..100 {
        let heap = Refusing::<Global>::new(rt.alloc(), admitted);
        let (is_written, place) = opens(&heap);
        if is_written {
            assert!(rt; place == Place::RawText(RawKind::ScriptData));
            assert!(rt; admitted > 1, "{admitted}");
            finished = true;
            break;
        }
        assert!(rt; place == Place::Data);
    }
    assert!(rt; finished);
}
