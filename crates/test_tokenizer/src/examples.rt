//! What crates/html5ever/CALLING.md shows of the library.
use html5examples::{few_names, read_with_script, tokens_of, tokens_of_text};
use std::alloc::Global;
use std::process::Abort;
use testing_sinks::shown::Shown;
use testing_sinks::steering::Steering;

// Compares what a sink shows.
fn expect_shown<S: Shown>(rt: &impl Abort, alloc: Global, sink: S, lines: &str) {
    let mut shown = String::new(alloc);
    sink.show(alloc, &mut shown).expect(rt, "memory");
    assert_eq!(rt; shown.as_str(), lines);
}

#[test]
fn tells_what_a_whole_text_tells(rt: HostRuntime) {
    let alloc = rt.alloc();
    let text = String::from_str(alloc, "<p class=a>1 &lt; 2").expect(&rt, "memory");
    let references = few_names(alloc).expect(&rt, "the table");
    let sink = tokens_of_text(alloc, &references, text).expect(&rt, "the tokens");
    let lines = "start 1 \"p\" \"class\"=\"a\"\ntext \"1 < 2\"\neof 1\nfinished\n";
    expect_shown(&rt, alloc, sink, lines);
}

#[test]
fn tells_what_two_pieces_tell(rt: HostRuntime) {
    let alloc = rt.alloc();
    let first = String::from_str(alloc, "<p cla").expect(&rt, "memory");
    let second = String::from_str(alloc, "ss=a>1 &lt; 2").expect(&rt, "memory");
    let references = few_names(alloc).expect(&rt, "the table");
    let sink = tokens_of(alloc, &references, first, second).expect(&rt, "the tokens");
    let lines = "start 1 \"p\" \"class\"=\"a\"\ntext \"1 < 2\"\neof 1\nfinished\n";
    expect_shown(&rt, alloc, sink, lines);
}

#[test]
fn puts_in_what_a_script_wrote(rt: HostRuntime) {
    let alloc = rt.alloc();
    let references = few_names(alloc).expect(&rt, "the table");
    let cases = [
        (
            "a<s>\r\nx<s>y",
            "text \"a\"\nstart 1 \"s\"\nstart 1 \"b\"\ntext \"\\nx\"\nstart 2 \"s\"\ntext \"y\"\neof 2\nfinished\n",
        ),
        ("a", "text \"a\"\neof 1\nfinished\n"),
    ];
    for (text, lines) in cases {
        let text = String::from_str(alloc, text).expect(&rt, "memory");
        let written = String::from_str(alloc, "<b>").expect(&rt, "memory");
        let sink = read_with_script(alloc, Steering::new(alloc), &references, text, written);
        expect_shown(&rt, alloc, sink.expect(&rt, "the tokens"), lines);
    }
}
