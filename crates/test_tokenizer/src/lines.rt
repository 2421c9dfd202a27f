//! Lines that no test reads up to.
use html5ever_interface::collect::Collector;
use html5ever_interface::interface::token::Token;
use html5ever_interface::states::State;
use html5partial::error::TokenizerError;
use html5states::teller::Teller;
use std::alloc::Global;
use std::process::Abort;

// Tells a collector exact errors: at a character, at the end of input, and of a bad character.
fn emit_errors(sink: &mut Collector, alloc: Global, line: u64) -> Result<(), TokenizerError> {
    let mut teller = Teller {
        sink,
        alloc,
        exact_errors: true,
        line,
    };
    teller.emit_unexpected('x', State::Data)?;
    teller.emit_end_error(State::Data)?;
    teller.emit_bad_character('\u{1}')
}

// Compares the messages on a line.
fn check_line(rt: &impl Abort, alloc: Global, line: u64) {
    let mut sink = Collector::new(alloc, false);
    assert_eq!(rt;
        emit_errors(&mut sink, alloc, line),
        Ok(()),
        "on line {line}"
    );
    assert_eq!(rt; sink.entries().len(), 3, "on line {line}");
    for (token, told) in sink.entries() {
        assert!(rt; matches!(token, Token::ParseError(_)), "on line {line}");
        assert_eq!(rt; *told, line);
    }
}

#[test]
fn tells_errors_on_each_line(rt: HostRuntime) {
    for line in [
        1u64,
        1 << 16,
        (1 << 32) - 1,
        1 << 32,
        (1 << 32) + 1,
        u64::MAX,
    ] {
        check_line(&rt, rt.alloc(), line);
    }
}
