use crate::made::{says_foreign, text_of, tokens_of, told};
use html5ever_interface::interface::sink::TokenSink;
use html5ever_interface::interface::token::Token;
use std::alloc::{AllocError, Allocator, Global};
use std::process::Abort;
use testing_alloc::Refusing;
use token_printer::print_sink::PrintSink;

#[test]
fn prints_the_last_line_of_all(rt: HostRuntime) {
    let mut sink = PrintSink::new(rt.alloc(), true);
    assert!(rt; says_foreign(&sink));
    assert!(rt; told(&mut sink, Token::EOFToken, u64::MAX));
    assert!(rt; sink.end().is_ok());
    assert_eq!(rt; sink.output(), b"eof 18446744073709551615\n".as_slice());
}

// Tokens of each kind. Most are after a text, so they close it.
const TOKENS: [(&str, &str); 14] = [
    ("text", "a text with \u{1} and \" in it"),
    ("error", "an error with\nlines in it"),
    ("doctype", "a \"quoted\" place"),
    ("text", "a text"),
    ("start", "some-long-name-of-a-tag"),
    ("text", "a"),
    ("meta", "windows-1252"),
    ("end tag", "script"),
    (
        "text",
        "\u{7f}\u{7f}\u{7f}\u{7f}\u{7f}\u{7f}\u{7f}\u{7f}\u{7f}",
    ),
    ("null", ""),
    ("comment", "a comment with \u{1f} in it"),
    ("text", "b"),
    ("pi", "an \"instruction\"?"),
    ("end", ""),
];

// Whether a token was printed. The page grew then, and else it is as it was.
fn is_printed<A: Allocator + Copy>(
    rt: &impl Abort,
    ample: Global,
    sink: &mut PrintSink<A>,
    token: Token<A>,
) -> bool {
    let before = Vec::from_slice(ample, sink.output()).expect(rt, "memory");
    let printed = sink.process_token(token, 10).is_ok();
    assert_eq!(rt; before.len() < sink.output().len(), printed);
    assert!(rt; sink.output().starts_with(&before));
    printed
}

// Prints the tokens on a heap that may refuse a request. Answers how many were refused, or `None` where the tokens
// themselves could not be made.
fn refusals(rt: &impl Abort, ample: Global, heap: &Refusing<Global>) -> Option<u64> {
    let tokens = tokens_of(heap, &TOKENS).ok()?;
    let mut sink: PrintSink<&Refusing<Global>> = PrintSink::new(heap, false);
    let mut refused = 0u64;
    for token in tokens {
        if !is_printed(rt, ample, &mut sink, token) {
            refused = refused.wrapping_add(1);
            assert!(rt; heap.has_refused());
        }
    }
    Some(refused)
}

#[test]
fn a_refused_growth_leaves_no_part_of_a_line(rt: HostRuntime) {
    let mut refused = 0u64;
    for admitted in 0..1000u64 {
        let heap = Refusing::new(rt.alloc(), admitted);
        let Some(count) = refusals(&rt, rt.alloc(), &heap) else {
            continue;
        };
        refused = refused.wrapping_add(count);
        if !heap.has_refused() {
            break;
        }
    }
    assert!(rt; refused > 5);
}

// Appends the quoted form of a character.
fn push_escaped(alloc: Global, page: &mut String, c: char) -> Result<(), AllocError> {
    match c {
        '\\' => page.push_str("\\\\"),
        '"' => page.push_str("\\\""),
        '\n' => page.push_str("\\n"),
        '\0'..='\x1f' | '\x7f' => {
            let code = c as u32;
            let digits = format!(in alloc; "{code:x}")?;
            page.push_str("\\u{")?;
            page.push_str(&digits)?;
            page.push('}')
        }
        _ => page.push(c),
    }
}

// That a text is printed with the quoted form of its characters.
fn check_printed(rt: &impl Abort, alloc: Global, text: &str) {
    let mut page = String::from_str(alloc, "text \"").expect(rt, "memory");
    for c in text.chars() {
        push_escaped(alloc, &mut page, c).expect(rt, "memory");
    }
    let mut sink = PrintSink::new(alloc, false);
    let token = text_of(alloc, text).expect(rt, "memory");
    assert!(rt; told(&mut sink, token, 1));
    assert_eq!(rt; sink.output(), page.as_bytes());
}

// Each character up to 255, at each place of the first blocks of a text, with others before and after it.
#[test]
fn a_character_is_escaped_at_each_place(rt: HostRuntime) {
    for &(other, after) in &[
        ("a", "a tail of more than one block"),
        ("\u{80}é", "!\"#[\\]~"),
    ] {
        let mut before = String::new(rt.alloc());
        for _ in 0..40u8 {
            for code in 0..=255u8 {
                let mut text = before.clone().expect(&rt, "memory");
                text.push(char::from(code)).expect(&rt, "memory");
                text.push_str(after).expect(&rt, "memory");
                check_printed(&rt, rt.alloc(), &text);
            }
            before.push_str(other).expect(&rt, "memory");
        }
    }
}
