//! Pages that arrive in pieces: cut anywhere, with a text put in, with a state that is set, and without memory.
use crate::calls::{Call, check_calls, failing_call};
use crate::placed::{Cuts, stand_so};
use html5entities::standard_references;
use html5ever::tokenizer::NamedReferences;
use html5ever_interface::interface::token::{SinkFault, Token};
use html5places::{PlaceError, PlacedHandler, Places};
use std::alloc::{Allocator, Global};
use testing_alloc::Refusing;

// The text at the places of a page's tokens, each after the run before it.
const PAGES: [(&str, &str); 20] = [
    ("a<b>c", "a|<b>|tag;c||end;"),
    (
        "\u{E9}<b\r\n>\u{1F600}&ampx<!--\u{E9}-->",
        "\u{E9}|<b\r\n>|tag;|x|error;\u{1F600}&ampx|<!--\u{E9}-->|comment;||end;",
    ),
    (
        "<script><!--<</script>&am",
        "|<script>|tag;<!--<|</script>|tag;&am||end;",
    ),
    (
        "1 < 2<b>\0",
        "| |error;1 < 2|<b>|tag;|\0|error;|\0|null;||end;",
    ),
    (
        "<!doctype html>a<p cla",
        "|<!doctype html>|doctype;||error;a<p cla||end;",
    ),
    ("\u{FEFF}<b>", "\u{FEFF}|<b>|tag;||end;"),
    (
        "&amp;<b>&lt<i>",
        "&amp;|<b>|tag;|<|error;&lt|<i>|tag;||end;",
    ),
    (
        "&#38\u{1F600}<b>",
        "|\u{1F600}|error;&#38\u{1F600}|<b>|tag;||end;",
    ),
    (
        "\r\n<b\r\nc>\r\n</b>",
        "\r\n|<b\r\nc>|tag;\r\n|</b>|tag;||end;",
    ),
    // The CR is the line break that is not a `>`.
    ("<b/\r\n>", "|\r|error;|<b/\r\n>|tag;||end;"),
    (
        "<!--a\0--><b\0 c='\0'>",
        "|\0|error;|<!--a\0-->|comment;|\0|error;|\0|error;|<b\0 c='\0'>|tag;||end;",
    ),
    ("a</>b<i>", "|>|error;a</>b|<i>|tag;||end;"),
    ("a<?pi?>b", "a|<?pi?>|instruction;b||end;"),
    (
        "<!DOCTYPE html PUBLIC \"a\" 'b'>",
        "|<!DOCTYPE html PUBLIC \"a\" 'b'>|doctype;||end;",
    ),
    // The `x` shows that no keyword comes.
    (
        "<!doctype html pux><!dox>",
        "|x|error;|<!doctype html pux>|doctype;|x|error;|<!dox>|comment;||end;",
    ),
    (
        "<title>&lt;</title>",
        "|<title>|tag;&lt;|</title>|tag;||end;",
    ),
    ("<plaintext><b>", "|<plaintext>|tag;<b>||end;"),
    ("a<!--b-", "||error;a|<!--b-|comment;||end;"),
    ("<![CDATA[x]]>", "|[|error;|<![CDATA[x]]>|comment;||end;"),
    ("<b c c>", "|>|error;|<b c c>|tag;||end;"),
];

#[test]
fn two_pieces_tell_what_the_page_does(rt: HostRuntime) {
    for &(source, wanted) in &PAGES {
        assert!(rt; stand_so(&rt, rt.alloc(), source, wanted), "of {source}");
        for at in 0..=source.len() {
            if let Some((first, second)) = source.split_at_checked(at) {
                let calls = [
                    Call::Read(first, Ok(())),
                    Call::Read(second, Ok(())),
                    Call::End(Ok(())),
                ];
                check_calls(&rt, rt.alloc(), source, &calls, wanted);
            }
        }
    }
}

#[test]
fn single_characters_tell_what_the_page_does(rt: HostRuntime) {
    for &(source, wanted) in &PAGES {
        let mut calls = Vec::new(rt.alloc());
        for (at, c) in source.char_indices() {
            let piece = source.get(at..at + c.len_utf8()).unwrap_or("none");
            calls.push(Call::Read(piece, Ok(()))).expect(&rt, "memory");
        }
        calls.push(Call::End(Ok(()))).expect(&rt, "memory");
        check_calls(&rt, rt.alloc(), source, &calls, wanted);
    }
}

#[test]
fn a_reader_stops_after_each_token(rt: HostRuntime) {
    check_calls(
        &rt,
        rt.alloc(),
        "a<b>\u{E9}</b ><!-- -->1 < 2",
        &[
            Call::ReadToToken(
                "a<b>\u{E9}</b ><!-- -->1 < 2",
                Ok("\u{E9}</b ><!-- -->1 < 2"),
            ),
            Call::Place(4),
            Call::ReadToToken("\u{E9}</b ><!-- -->1 < 2", Ok("<!-- -->1 < 2")),
            Call::Place(11),
            Call::ReadToToken("<!-- -->1 < 2", Ok("1 < 2")),
            Call::Place(19),
            // The error of `1 < 2` is no token.
            Call::ReadToToken("1 < 2", Ok("")),
            Call::Place(24),
            Call::ReadToToken("", Ok("")),
            Call::Place(24),
        ],
        "a|<b>|tag;\u{E9}|</b >|tag;|<!-- -->|comment;| |error;",
    );
}

// As `document.write` puts a text in after a script.
#[test]
fn a_text_is_put_in_after_a_script(rt: HostRuntime) {
    check_calls(
        &rt,
        rt.alloc(),
        "<script>x</script><i class=a>b</p>",
        &[
            Call::ReadToToken("<script>x</script>b</p>", Ok("x</script>b</p>")),
            Call::ReadToToken("x</script>b</p>", Ok("b</p>")),
            Call::Place(18),
            Call::Read("<i class=a>", Ok(())),
            Call::Place(29),
            Call::Read("b</p>", Ok(())),
            Call::End(Ok(())),
            Call::Place(34),
        ],
        "|<script>|tag;x|</script>|tag;|<i class=a>|tag;b|</p>|tag;||end;",
    );
}

// A text that is put in may begin what the page goes on with.
#[test]
fn a_text_that_is_put_in_may_be_cut_anywhere(rt: HostRuntime) {
    check_calls(
        &rt,
        rt.alloc(),
        "<script></script><b class=a>c",
        &[
            Call::ReadToToken("<script></script> class=a>c", Ok("</script> class=a>c")),
            Call::ReadToToken("</script> class=a>c", Ok(" class=a>c")),
            Call::Read("<b", Ok(())),
            Call::NothingOpen(false),
            Call::Read(" class=a>c", Ok(())),
            Call::End(Ok(())),
        ],
        "|<script>|tag;|</script>|tag;|<b class=a>|tag;c||end;",
    );
}

#[test]
fn a_state_is_set_after_a_start_tag(rt: HostRuntime) {
    check_calls(
        &rt,
        rt.alloc(),
        "a<x><b></y></x><b>",
        &[
            Call::ReadToToken("a<x><b></y></x><b>", Ok("<b></y></x><b>")),
            Call::NothingOpen(true),
            Call::SetRawtext,
            Call::Place(4),
            Call::Read("<b></y></x><b>", Ok(())),
            Call::End(Ok(())),
        ],
        "a|<x>|tag;<b></y>|</x>|tag;|<b>|tag;||end;",
    );
}

#[test]
fn nothing_is_read_after_the_end(rt: HostRuntime) {
    check_calls(
        &rt,
        rt.alloc(),
        "<b>",
        &[
            Call::IsOver(false),
            Call::Read("<b>", Ok(())),
            Call::End(Ok(())),
            Call::IsOver(true),
            Call::NothingOpen(false),
            Call::Read("<b>", Err(PlaceError::Failed)),
            Call::ReadToToken("<b>", Err(PlaceError::Failed)),
            Call::End(Err(PlaceError::Failed)),
        ],
        "|<b>|tag;||end;",
    );
}

const PAGE: &str =
    "a text of some length<b>&#38;<!-- a comment of some length --></b>, so that it grows<b c=d";

const WANTED: &str =
    "a text of some length|<b>|tag;&#38;|<!-- a comment of some length -->|comment;|</b>|tag;||error;, so that it grows<b c=d||end;";

#[test]
fn a_refused_growth_leaves_a_beginning(rt: HostRuntime) {
    let calls = [
        Call::Read(&PAGE[..10], Ok(())),
        Call::Read(&PAGE[10..40], Ok(())),
        Call::Read(&PAGE[40..], Ok(())),
        Call::End(Ok(())),
    ];
    let mut finished = false;
    for admitted in 0..1000 {
        let heap = Refusing::<Global>::new(rt.alloc(), admitted);
        let Ok(references) = NamedReferences::check(&heap, Vec::new(&heap)) else {
            continue;
        };
        let mut handler = Cuts::new(&heap, PAGE);
        let is_read = failing_call(&heap, &references, &mut handler, &calls).is_none();
        let kept = handler.kept.as_str();
        assert!(rt; WANTED.starts_with(kept), "after {admitted} requests");
        assert_eq!(rt; is_read, !heap.has_refused(), "after {admitted} requests");
        if is_read {
            assert_eq!(rt; kept, WANTED);
            finished = true;
            break;
        }
    }
    assert!(rt; finished);
}

// Takes this many tokens, and refuses the next one.
#[derive(Drop)]
struct Few {
    left: u64,
}

impl<A: Allocator> PlacedHandler<Token<A>> for Few {
    ghost State = { Unit {0} };

    ghost state = { λ s. tt };

    ghost step = { λ state placed. tt };

    fn take_token(
        &mut self,
        _run: &str,
        _token: Token<A>,
        _line_number: u64,
        _places: Places,
    ) -> Result<(), SinkFault> {
        if self.left == 0 {
            return Err(SinkFault);
        }
        self.left -= 1;
        Ok(())
    }
}

#[test]
fn a_handler_may_refuse_a_token(rt: HostRuntime) {
    let references = standard_references(rt.alloc()).expect(&rt, "memory");
    let calls = [
        Call::Read("a<b>c</b>d", Ok(())),
        Call::Read("<i>", Err(PlaceError::Handler)),
        Call::IsOver(true),
        Call::Read("", Err(PlaceError::Failed)),
        Call::End(Err(PlaceError::Failed)),
    ];
    let mut handler = Few { left: 2 };
    let failing = failing_call(rt.alloc(), &references, &mut handler, &calls);
    assert_eq!(rt; failing, None);
}

// Which of the calls a reader answers otherwise on a heap that refuses the request after this many, and whether
// it refused one. The handler asks for none.
fn failing_of_few(alloc: Global, admitted: u64, calls: &[Call<'_>]) -> (Option<usize>, bool) {
    let heap = Refusing::<Global>::new(alloc, admitted);
    let Ok(references) = NamedReferences::check(&heap, Vec::new(&heap)) else {
        return (None, true);
    };
    let failing = failing_call(&heap, &references, &mut Few { left: 100 }, calls);
    (failing, heap.has_refused())
}

#[test]
fn want_of_memory_is_said_as_such(rt: HostRuntime) {
    let calls = [
        Call::Read(PAGE, Err(PlaceError::Memory)),
        Call::End(Err(PlaceError::Failed)),
    ];
    let mut finished = false;
    for admitted in 0..1000 {
        let (failing, has_refused) = failing_of_few(rt.alloc(), admitted, &calls);
        if !has_refused {
            finished = true;
            break;
        }
        assert_eq!(rt; failing, None, "after {admitted} requests");
    }
    assert!(rt; finished);
    // If none is refused, the page is read.
    let (failing, _) = failing_of_few(rt.alloc(), u64::MAX, &[Call::Read(PAGE, Ok(()))]);
    assert_eq!(rt; failing, None);
}
