use html5entities::standard_references;
use html5ever::tokenizer::TokenizerOpts;
use html5ever_interface::interface::token::{SinkFault, Token};
use html5places::{PlacedHandler, Places, read_places};
use std::alloc::{AllocError, Allocator, Global};
use std::process::Abort;

// Keeps the text at each token's place, after the text in the place of the run before it.
#[derive(Drop)]
pub struct Cuts<'s, A: Allocator = Global> {
    pub source: &'s str,
    pub kept: String<A>,
}

fn mark_of<A: Allocator>(token: &Token<A>) -> &'static str {
    match token {
        Token::TagToken(_) => "tag",
        Token::CommentToken(_) => "comment",
        Token::DoctypeToken(_) => "doctype",
        Token::ProcessingInstructionToken(_) => "instruction",
        Token::ParseError(_) => "error",
        Token::NullCharacterToken => "null",
        Token::EOFToken => "end",
        Token::CharacterTokens(_) => "text",
    }
}

impl<'s, A: Allocator> Cuts<'s, A> {
    // Those of a text's tokens. None was kept yet.
    pub fn new(alloc: A, source: &'s str) -> Cuts<'s, A> {
        Cuts {
            source,
            kept: String::new(alloc),
        }
    }

    // The run's text, then the token's, each within bars.
    fn keep(&mut self, mark: &str, places: Places) -> Result<(), AllocError> {
        let run = self.source.get(places.text..places.begin);
        let token = self.source.get(places.begin..places.end);
        self.kept.push_str(run.unwrap_or("none"))?;
        self.kept.push_str("|")?;
        self.kept.push_str(token.unwrap_or("none"))?;
        self.kept.push_str("|")?;
        self.kept.push_str(mark)?;
        self.kept.push_str(";")
    }
}

impl<'s, A: Allocator> PlacedHandler<Token<A>> for Cuts<'s, A> {
    ghost State = { Unit {0} };

    ghost state = { λ s. tt };

    ghost step = { λ state placed. tt };

    fn take_token(
        &mut self,
        _run: &str,
        token: Token<A>,
        _line_number: u64,
        places: Places,
    ) -> Result<(), SinkFault> {
        match self.keep(mark_of(&token), places) {
            Ok(()) => Ok(()),
            Err(AllocError) => Err(SinkFault),
        }
    }
}

// Whether the text at the places of a text's tokens is this.
pub fn stand_so<A: Allocator + Copy>(rt: &impl Abort, alloc: A, source: &str, cuts: &str) -> bool {
    let references = standard_references(alloc).expect(rt, "memory");
    let mut handler = Cuts::new(alloc, source);
    let opts = TokenizerOpts::default();
    let read = read_places(alloc, &references, opts, source, &mut handler);
    read.is_ok() && handler.kept.as_str() == cuts
}

// That the text at the places of each text's tokens is what the row says.
fn check_rows(rt: &impl Abort, alloc: Global, rows: &[(&str, &str)]) {
    for (source, cuts) in rows {
        assert!(rt; stand_so(rt, alloc, source, cuts), "of {source}");
    }
}

#[test]
fn tokens_stand_where_they_are_written(rt: HostRuntime) {
    let rows = &[
        ("a<b>c", "a|<b>|tag;c||end;"),
        ("<a b='<c>'></a >", "|<a b='<c>'>|tag;|</a >|tag;||end;"),
        (
            "<!--x--><!doctype html>",
            "|<!--x-->|comment;|<!doctype html>|doctype;||end;",
        ),
        ("a<?b?>", "a|<?b?>|instruction;||end;"),
        ("<title><b></title>", "|<title>|tag;<b>|</title>|tag;||end;"),
        (
            "<script><!--<</script>",
            "|<script>|tag;<!--<|</script>|tag;||end;",
        ),
        (
            "\u{E9}<b\r\n>\u{1F600}",
            "\u{E9}|<b\r\n>|tag;\u{1F600}||end;",
        ),
        ("\u{FEFF}<b>", "\u{FEFF}|<b>|tag;||end;"),
    ];
    check_rows(&rt, rt.alloc(), rows);
}

#[test]
fn errors_stand_at_their_characters(rt: HostRuntime) {
    let rows = &[
        ("1 < 2<b>", "| |error;1 < 2|<b>|tag;||end;"),
        ("<<b>", "|<|error;<|<b>|tag;||end;"),
        ("a\0b", "|\0|error;a|\0|null;b||end;"),
        ("x</>y", "|>|error;x</>y||end;"),
        ("<b =c>", "|=|error;|<b =c>|tag;||end;"),
        ("<b c d=1 c>", "|>|error;|<b c d=1 c>|tag;||end;"),
    ];
    check_rows(&rt, rt.alloc(), rows);
}

#[test]
fn references_stand_in_runs(rt: HostRuntime) {
    let rows = &[
        ("&amp;<b>", "&amp;|<b>|tag;||end;"),
        ("&ampx<b>", "|x|error;&ampx|<b>|tag;||end;"),
        ("&amp<b>", "|<|error;&amp|<b>|tag;||end;"),
        ("&#x26;&foo;<b>", "|;|error;&#x26;&foo;|<b>|tag;||end;"),
    ];
    check_rows(&rt, rt.alloc(), rows);
}

#[test]
fn the_end_stands_after_the_text(rt: HostRuntime) {
    let rows = &[
        ("", "||end;"),
        ("a<p cla", "||error;a<p cla||end;"),
        ("<!--x", "||error;|<!--x|comment;||end;"),
        ("<!doctype", "||error;|<!doctype|doctype;||end;"),
        ("a<", "||error;a<||end;"),
        ("&am", "&am||end;"),
    ];
    check_rows(&rt, rt.alloc(), rows);
}
