use html5entities::standard_references;
use html5errors::{ErrorCode, error_code};
use html5ever::tokenizer::collect::Collector;
use html5ever::tokenizer::{TokenizerOpts, read_whole};
use html5ever_interface::interface::token::{SinkFault, Token};
use html5places::{PlacedHandler, Places, read_places};
use std::alloc::{AllocError, Allocator, Global};
use std::process::Abort;

// Keeps the code of each error, with a space after it.
#[derive(Drop)]
struct Codes<A: Allocator = Global> {
    kept: String<A>,
}

fn code_of(message: &str) -> &'static str {
    match error_code(message) {
        Some(code) => code.as_str(),
        None => "none",
    }
}

impl<A: Allocator> Codes<A> {
    fn keep(&mut self, message: &str) -> Result<(), AllocError> {
        self.kept.push_str(code_of(message))?;
        self.kept.push_str(" ")
    }
}

impl<A: Allocator> PlacedHandler<Token<A>> for Codes<A> {
    ghost State = { Unit {0} };

    ghost state = { λ s. tt };

    ghost step = { λ state placed. tt };

    fn take_token(
        &mut self,
        _run: &str,
        token: Token<A>,
        _line_number: u64,
        _places: Places,
    ) -> Result<(), SinkFault> {
        match token {
            Token::ParseError(message) => match self.keep(message.as_str()) {
                Ok(()) => Ok(()),
                Err(AllocError) => Err(SinkFault),
            },
            _ => Ok(()),
        }
    }
}

// Whether these are the codes that a text tells.
fn tells(rt: &impl Abort, alloc: Global, source: &str, codes: &str) -> bool {
    let references = standard_references(alloc).expect(rt, "memory");
    let mut handler = Codes {
        kept: String::new(alloc),
    };
    let opts = TokenizerOpts::default();
    let read = read_places(alloc, &references, opts, source, &mut handler);
    read.is_ok() && handler.kept.as_str().trim_end() == codes
}

// That each text tells the codes of its row.
fn check_rows(rt: &impl Abort, alloc: Global, rows: &[(&str, &str)]) {
    for (source, codes) in rows {
        assert!(rt; tells(rt, alloc, source, codes), "of {source}");
    }
}

// The same of doctypes, whose rows say what comes after such a keyword.
fn check_doctypes(rt: &impl Abort, alloc: Global, keyword: &str, rows: &[(&str, &str)]) {
    for (rest, codes) in rows {
        let source = format!(in alloc; "<!DOCTYPE html {keyword}{rest}").expect(rt, "memory");
        assert!(rt; tells(rt, alloc, &source, codes), "of {source}");
    }
}

#[test]
fn tags_tell_codes(rt: HostRuntime) {
    let rows = &[
        ("<a b c=d e='f' g=\"h\"></a>", ""),
        ("1 < 2", "invalid-first-character-of-tag-name"),
        ("</>", "missing-end-tag-name"),
        ("</1>", "invalid-first-character-of-tag-name"),
        ("<p a=\"b\"c>", "missing-whitespace-between-attributes"),
        ("<x/y>", "unexpected-solidus-in-tag"),
        ("<a =b>", "unexpected-equals-sign-before-attribute-name"),
        ("<a b\"c>", "unexpected-character-in-attribute-name"),
        ("<a 'b>", "unexpected-character-in-attribute-name"),
        ("<a b <c>", "unexpected-character-in-attribute-name"),
        ("<a b=>", "missing-attribute-value"),
        ("<a a=1 a=2>", "duplicate-attribute"),
        ("</p x>", "end-tag-with-attributes"),
        ("</p/>", "end-tag-with-trailing-solidus"),
    ];
    check_rows(&rt, rt.alloc(), rows);
}

#[test]
fn codes_are_told_in_order(rt: HostRuntime) {
    let rows = &[
        (
            "<p a=\"b\"c\"d>",
            "missing-whitespace-between-attributes unexpected-character-in-attribute-name",
        ),
        (
            "</p x/>",
            "end-tag-with-attributes end-tag-with-trailing-solidus",
        ),
        (
            "<!DOCTYPE html PUBLIC\"x\"\"y\">",
            "missing-whitespace-after-doctype-public-keyword missing-whitespace-between-doctype-public-and-system-identifiers",
        ),
        (
            "<!DOCTYPE a b\0>",
            "invalid-character-sequence-after-doctype-name unexpected-null-character",
        ),
        ("</><a", "missing-end-tag-name eof-in-tag"),
    ];
    check_rows(&rt, rt.alloc(), rows);
}

#[test]
fn comments_tell_codes(rt: HostRuntime) {
    let rows = &[
        ("<!--a-->", ""),
        ("<!-->", "abrupt-closing-of-empty-comment"),
        ("<!--->", "abrupt-closing-of-empty-comment"),
        ("<!--a--!>", "incorrectly-closed-comment"),
        ("<!--a<!--b-->", "nested-comment"),
        ("<!x>", "incorrectly-opened-comment"),
        // The standard has a code of its own for it.
        ("<![CDATA[x]]>", "incorrectly-opened-comment"),
    ];
    check_rows(&rt, rt.alloc(), rows);
}

#[test]
fn names_of_doctypes_tell_codes(rt: HostRuntime) {
    let rows = &[
        ("<!DOCTYPE html PUBLIC \"x\" 'y'>", ""),
        ("<!DOCTYPE>", "missing-doctype-name"),
        ("<!DOCTYPEhtml>", "missing-whitespace-before-doctype-name"),
        (
            "<!DOCTYPE html x>",
            "invalid-character-sequence-after-doctype-name",
        ),
    ];
    check_rows(&rt, rt.alloc(), rows);
}

#[test]
fn public_identifiers_tell_codes(rt: HostRuntime) {
    let rows = &[
        ("\"x\">", "missing-whitespace-after-doctype-public-keyword"),
        (">", "missing-doctype-public-identifier"),
        ("  >", "missing-doctype-public-identifier"),
        ("x>", "missing-quote-before-doctype-public-identifier"),
        (" x>", "missing-quote-before-doctype-public-identifier"),
        (" \"x>", "abrupt-doctype-public-identifier"),
        (
            " 'x'\"y\">",
            "missing-whitespace-between-doctype-public-and-system-identifiers",
        ),
        (" 'x'y>", "missing-quote-before-doctype-system-identifier"),
        (" 'x' y>", "missing-quote-before-doctype-system-identifier"),
    ];
    check_doctypes(&rt, rt.alloc(), "PUBLIC", rows);
}

#[test]
fn system_identifiers_tell_codes(rt: HostRuntime) {
    let rows = &[
        ("\"x\">", "missing-whitespace-after-doctype-system-keyword"),
        (">", "missing-doctype-system-identifier"),
        (" x>", "missing-quote-before-doctype-system-identifier"),
        (" 'x>", "abrupt-doctype-system-identifier"),
        (
            " 'x'y>",
            "unexpected-character-after-doctype-system-identifier",
        ),
    ];
    check_doctypes(&rt, rt.alloc(), "SYSTEM", rows);
}

#[test]
fn ends_tell_codes(rt: HostRuntime) {
    let rows = &[
        ("a", ""),
        ("a<", "eof-before-tag-name"),
        ("</", "eof-before-tag-name"),
        ("<a", "eof-in-tag"),
        ("<a ", "eof-in-tag"),
        ("<a b='c'", "eof-in-tag"),
        ("<a b=", "eof-in-tag"),
        ("<a b='", "eof-in-tag"),
        ("<a/", "eof-in-tag"),
        ("<!--", "eof-in-comment"),
        ("<!--a--!", "eof-in-comment"),
        ("<!", "incorrectly-opened-comment"),
        ("<!DOCTYPE", "eof-in-doctype"),
        ("<!DOCTYPE a PUBLIC 'b", "eof-in-doctype"),
        (
            "<!DOCTYPE a b",
            "invalid-character-sequence-after-doctype-name",
        ),
        ("<script>a", ""),
        ("<script><!--a", "eof-in-script-html-comment-like-text"),
        (
            "<script><!--<script>-",
            "eof-in-script-html-comment-like-text",
        ),
        // The standard tells the question mark alone.
        ("<?a", "none"),
    ];
    check_rows(&rt, rt.alloc(), rows);
}

#[test]
fn references_tell_codes(rt: HostRuntime) {
    let rows = &[
        ("&amp;", ""),
        ("&ampx", "missing-semicolon-after-character-reference"),
        ("&foo;", "unknown-named-character-reference"),
        ("&#;", "absence-of-digits-in-numeric-character-reference"),
        ("&#x;", "absence-of-digits-in-numeric-character-reference"),
        ("&#", "absence-of-digits-in-numeric-character-reference"),
        ("&#65", "missing-semicolon-after-character-reference"),
        ("&#65x", "missing-semicolon-after-character-reference"),
        // The standard says why.
        ("&#0;", "none"),
    ];
    check_rows(&rt, rt.alloc(), rows);
}

#[test]
fn nulls_tell_their_code(rt: HostRuntime) {
    let sources = &[
        "a\0",
        "<a\0>",
        "<a \0>",
        "<a b\0>",
        "<a b \0>",
        "<a b=\0>",
        "<a b='\0'>",
        "<a b=\"\0\">",
        "<!--\0-->",
        "<!---\0-->",
        "<!--a-\0-->",
        "<!--a--\0-->",
        "<!--a--!\0-->",
        "</?\0>",
        "<!DOCTYPE \0>",
        "<!DOCTYPE a\0>",
        "<!DOCTYPE a PUBLIC '\0'>",
        "<!DOCTYPE a SYSTEM \"\0\">",
        "<title>\0</title>",
        "<style>\0</style>",
        "<script>\0</script>",
        "<script><!--\0--></script>",
        "<script><!--a\0--></script>",
        "<script><!--a-\0--></script>",
        // The standard tells the question mark, too.
        "<?\0>",
        "<script><!--<script>\0</script>--></script>",
        "<script><!--<script>-\0</script>--></script>",
        "<script><!--<script>--\0</script>--></script>",
        "<plaintext>\0",
    ];
    for &source in sources {
        let codes = match source {
            "</?\0>" => "invalid-first-character-of-tag-name unexpected-null-character",
            _ => "unexpected-null-character",
        };
        assert!(rt; tells(&rt, rt.alloc(), source, codes), "of {source}");
    }
}

// The code of a token where it is an error, or else the one before.
fn code_or<A: Allocator>(token: &Token<A>, before: &'static str) -> &'static str {
    match token {
        Token::ParseError(message) => code_of(message.as_str()),
        _ => before,
    }
}

// The last error of a text in foreign content.
fn last_in_foreign(rt: &impl Abort, alloc: Global, source: &str) -> &'static str {
    let references = standard_references(alloc).expect(rt, "memory");
    let text = String::from_str(alloc, source).expect(rt, "memory");
    let sink = Collector::new(alloc, true);
    let (sink, read) = read_whole(alloc, sink, TokenizerOpts::default(), &references, text);
    if read.is_err() {
        return "not read";
    }
    let mut last = "";
    for (token, _) in sink.entries() {
        last = code_or(token, last);
    }
    last
}

#[test]
fn cdata_tells_its_code(rt: HostRuntime) {
    for &(source, code) in &[
        ("<![CDATA[a]]>", ""),
        ("<![CDATA[a", "eof-in-cdata"),
        ("<![CDATA[a]", "eof-in-cdata"),
    ] {
        assert_eq!(rt;
            last_in_foreign(&rt, rt.alloc(), source),
            code,
            "of {source}"
        );
    }
}

#[test]
fn other_texts_have_no_code(rt: HostRuntime) {
    let texts = &[
        "",
        "Saw ",
        "Saw a",
        "Saw EOF in state",
        "Saw EOF in state Attribute",
        "Saw a in state TagOpen2",
        "Bad character",
        "Unexpected EOF",
    ];
    for &text in texts {
        assert!(rt; error_code(text).is_none(), "of {text}");
    }
}

#[test]
fn a_code_is_written_as_the_standard_writes_it(rt: HostRuntime) {
    let code = ErrorCode::AbruptClosingOfEmptyComment;
    let written = format!(in rt.alloc(); "{code}").expect(&rt, "memory");
    assert_eq!(rt; written.as_str(), "abrupt-closing-of-empty-comment");
}
