//! Raw text that is written, and why some can't be.
use crate::reading::read;
use html5entities::standard_references;
use html5ever_interface::interface::token::{Tag, TagKind, Token};
use html5ever_interface::states::{RawKind, ScriptEscapeKind};
use html5serialize::{Place, RawTextError, push_element, push_raw_text, raw_text_refusal};
use markup5ever::interface::LocalName;
use std::alloc::{AllocError, Global};
use std::process::Abort;

// The kinds of raw text that can be written.
const KINDS: [RawKind; 3] = [RawKind::Rcdata, RawKind::Rawtext, RawKind::ScriptData];

// What is written for a text, with this after it.
fn written(alloc: Global, kind: RawKind, text: &str, after: &str) -> Result<String, AllocError> {
    let mut out = String::new(alloc);
    push_raw_text(&mut out, kind, text)?;
    out.push_str(after)?;
    Ok(out)
}

// Whether these are a text, an end tag of `style` and the end, except for errors, and however the text is
// cut.
fn tells(alloc: Global, tokens: &[(Token, u64)], text: &str) -> Result<bool, AllocError> {
    let mut told = String::new(alloc);
    let mut tags = 0;
    let mut ends = 0;
    for (token, _) in tokens {
        match token {
            Token::CharacterTokens(run) if tags == 0 => told.push_str(run.as_str())?,
            Token::TagToken(
                Tag {
                    kind: TagKind::EndTag,
                    name,
                    ..
                },
            ) if tags == 0 && name.0.as_str() == "style" => tags = 1,
            Token::EOFToken if tags == 1 && ends == 0 => ends = 1,
            Token::ParseError(_) => {}
            _ => return Ok(false),
        }
    }
    Ok(ends == 1 && told.as_str() == text)
}

// Whether a raw text that stands in a `style` of this kind is read again as it.
fn is_read_again(rt: &impl Abort, alloc: Global, kind: RawKind, text: &str) -> bool {
    let references = standard_references(alloc).expect(rt, "memory");
    let whole = written(alloc, kind, text, "</style>").expect(rt, "memory");
    let place = Place::RawText(kind);
    let tokens = read(alloc, &references, place, "style", whole.as_str()).expect(rt, "a reading");
    tells(alloc, tokens.entries(), text).expect(rt, "memory")
}

// A kind, a text, and what is written for it.
const WRITTEN: [(RawKind, &str, &str); 12] = [
    (
        RawKind::Rcdata,
        "a<&</style>\r",
        "a&#60;&#38;&#60;/style&#62;&#13;",
    ),
    (RawKind::Rcdata, "\u{feff}<!--\"", "&#65279;&#60;!--&#34;"),
    (RawKind::Rcdata, "", ""),
    (RawKind::Rawtext, "a<b>&amp;</i>", "a<b>&amp;</i>"),
    (
        RawKind::Rawtext,
        "<!--</stylex></style",
        "<!--</stylex></style",
    ),
    (
        RawKind::Rawtext,
        "</sty<\u{e9}\n\u{feff}",
        "</sty<\u{e9}\n\u{feff}",
    ),
    (RawKind::Rawtext, "", ""),
    (
        RawKind::ScriptData,
        "if (a<b && c>d) {}<!-",
        "if (a<b && c>d) {}<!-",
    ),
    (RawKind::ScriptData, "<script>-->", "<script>-->"),
    (
        RawKind::ScriptData,
        "<!--\na<b></b><scripts >--<!->-->c<!--->",
        "<!--\na<b></b><scripts >--<!->-->c<!--->",
    ),
    (RawKind::ScriptData, "<!-- <script", "<!-- <script"),
    (RawKind::ScriptData, "<!--</script >--", "<!--</script >--"),
];

#[test]
fn writes_raw_texts(rt: HostRuntime) {
    for &(kind, text, wanted) in &WRITTEN {
        assert!(rt; raw_text_refusal(kind, "style", text) == None, "{text:?}");
        let out = written(rt.alloc(), kind, text, "").expect(&rt, "memory");
        assert!(rt; out.as_str() == wanted, "{text:?}: {out:?}");
        assert!(rt; is_read_again(&rt, rt.alloc(), kind, text), "{text:?}");
    }
}

#[test]
fn refuses_names_of_raw_text(rt: HostRuntime) {
    for &kind in &KINDS {
        for &name in &["", "A", "styLe", "x-y", "h1", "a ", "\u{e9}"] {
            assert!(rt;
                raw_text_refusal(kind, name, "\0") == Some(RawTextError::Name),
                "{name:?}"
            );
        }
        for &name in &["a", "z", "textarea"] {
            assert!(rt; raw_text_refusal(kind, name, "") == None, "{name:?}");
        }
    }
}

// A kind, a text, and why it can't be written in a `style`.
const REFUSALS: [(RawKind, &str, Option<RawTextError>); 20] = [
    (RawKind::Rcdata, "\0", Some(RawTextError::Character)),
    (
        RawKind::Rawtext,
        "a\0</style>",
        Some(RawTextError::Character),
    ),
    (RawKind::Rawtext, "a\r", Some(RawTextError::Character)),
    (RawKind::ScriptData, "\r<!--", Some(RawTextError::Character)),
    (RawKind::Rawtext, "a</STYLE >", Some(RawTextError::EndTag)),
    (RawKind::Rawtext, "</style/", Some(RawTextError::EndTag)),
    (
        RawKind::Rawtext,
        "</sty</style\n",
        Some(RawTextError::EndTag),
    ),
    (
        RawKind::ScriptData,
        "</style\u{c}<!--",
        Some(RawTextError::EndTag),
    ),
    (RawKind::ScriptData, "<</style>", Some(RawTextError::EndTag)),
    (
        RawKind::ScriptData,
        "<<!--<<SCRIPT>",
        Some(RawTextError::Mark),
    ),
    (
        RawKind::ScriptData,
        "<script/<!--",
        Some(RawTextError::Mark),
    ),
    (RawKind::ScriptData, "<!--<scripts><script", None),
    (RawKind::ScriptData, "</script><!--", None),
    (
        RawKind::ScriptDataEscaped(ScriptEscapeKind::Escaped),
        "",
        Some(RawTextError::Escaped),
    ),
    (RawKind::Rawtext, "</style", None),
    (RawKind::Rawtext, "</style=>", None),
    (RawKind::ScriptData, "</ style>", None),
    (RawKind::ScriptData, "</styl", None),
    (RawKind::ScriptData, "</", None),
    (RawKind::Rawtext, "<!-->", None),
];

#[test]
fn refuses_raw_texts(rt: HostRuntime) {
    for &(kind, text, wanted) in &REFUSALS {
        assert!(rt; raw_text_refusal(kind, "style", text) == wanted, "{text:?}");
    }
}

// Why each kind is as it is: where the text stands all the same, it is not read again.
#[test]
fn refused_raw_texts_are_not_read_again(rt: HostRuntime) {
    for &(kind, text) in &[
        (RawKind::Rcdata, "\0"),
        (RawKind::Rawtext, "\0"),
        (RawKind::Rawtext, "\r"),
        (RawKind::Rawtext, "</STYLE >"),
        (RawKind::ScriptData, "</style/"),
        (RawKind::ScriptData, "<!--<script>"),
    ] {
        assert!(rt; raw_text_refusal(kind, "style", text) != None, "{text:?}");
        assert!(rt; !is_read_again(&rt, rt.alloc(), kind, text), "{text:?}");
    }
}

// An element of this name, without attributes.
fn element(alloc: Global, name: &str, kind: RawKind, text: &str) -> Result<String, AllocError> {
    let tag = Tag {
        kind: TagKind::StartTag,
        name: LocalName(String::from_str(alloc, name)?),
        attrs: Vec::new(alloc),
        self_closing: false,
        had_duplicate_attributes: false,
    };
    let mut out = String::new(alloc);
    push_element(&mut out, &tag, kind, text)?;
    Ok(out)
}

#[test]
fn writes_elements(rt: HostRuntime) {
    for &(name, kind, text, wanted) in &[
        ("style", RawKind::Rawtext, "a<b", "<style>a<b</style>"),
        (
            "title",
            RawKind::Rcdata,
            "a<\u{e9}",
            "<title>a&#60;\u{e9}</title>",
        ),
        ("script", RawKind::ScriptData, "", "<script></script>"),
        ("\u{e9}", RawKind::Rawtext, "", "<\u{e9}></\u{e9}>"),
    ] {
        let out = element(rt.alloc(), name, kind, text).expect(&rt, "memory");
        assert!(rt; out.as_str() == wanted, "{out:?}");
    }
}
