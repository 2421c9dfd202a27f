//! How much is read at once.
use html5ever_interface::options::TokenizerOpts;
use html5feed::position::Position;
use html5feed::rules::Rules;
use markup5ever::data::NamedReferences;
use std::alloc::Global;
use std::process::Abort;
use std::test::Fail;

// The start of a stream whose first character is read as it stands.
fn start(alloc: Global) -> Position {
    let opts = TokenizerOpts {
        exact_errors: false,
        discard_bom: false,
        initial_state: None,
        last_start_tag_name: None,
    };
    Position::new(alloc, opts)
}

// Reads texts of names, spaces and quoted values, of which no character tells anything: each is read whole,
// in one call.
fn check_quiet(rt: &impl Abort, alloc: Global, rules: &Rules<'_>) {
    let texts = [
        "<abc",
        "</abc",
        "<a b='c d' ef=\"g\" hij",
        "<img src=\"a.png\" alt='b' ismap",
    ];
    for text in texts {
        let read = start(alloc).read_quietly(alloc, rules, text);
        assert!(rt; read.is_ok_and(|bytes| bytes == text.len()), "{text}");
    }
}

#[test]
fn runs_and_tags_are_read_at_once(rt: HostRuntime) -> Result<(), Fail> {
    let references = NamedReferences::check(rt.alloc(), Vec::new(rt.alloc())).expect(
        &rt, "a table",
    );
    let rules = Rules {
        exact_errors: false,
        references: &references,
    };
    let mut letters = String::new(rt.alloc());
    for _ in 0..10_000 {
        letters.push('a')?;
    }
    assert_eq!(rt; start(rt.alloc()).run_len(&rules, &letters), 10_000);
    check_quiet(&rt, rt.alloc(), &rules);
    Ok(())
}
