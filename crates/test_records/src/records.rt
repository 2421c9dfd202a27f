use crate::made::{RECORDS, TOKENS, bare_tag, token_at};
use html5ever_interface::interface::sink::TokenSink;
use html5ever_interface::interface::token::{TagKind, TokenSinkResult};
use html5ever_interface::states::RawKind;
use html5records::record_sink::{PausedAt, RecordOptions, RecordSink, Replies};
use std::alloc::Global;
use std::process::Abort;
use testing_alloc::Refusing;

#[test]
fn each_token_has_its_record(rt: HostRuntime) {
    let mut line = 0u64;
    for index in 0..TOKENS {
        let mut sink = RecordSink::new(rt.alloc(), RecordOptions::default());
        let token = token_at(rt.alloc(), index).expect(&rt, "memory");
        line = line.saturating_add(1);
        assert!(rt;
            sink.process_token(token, line) == Ok(TokenSinkResult::Continue),
            "{index}"
        );
        let end = token_at(rt.alloc(), TOKENS).expect(&rt, "memory");
        assert!(rt; sink.process_token(end, 99).is_ok());
        let mut expected = Vec::from_slice(rt.alloc(), RECORDS[index]).expect(&rt, "memory");
        expected
            .extend_from_slice(b"\x09\x63\0\0\0\0\0\0\0")
            .expect(&rt, "memory");
        assert_eq!(rt; sink.waiting(), expected.as_slice(), "{index}");
    }
}

#[test]
fn a_text_is_open_until_another_token(rt: HostRuntime) {
    let mut sink = RecordSink::new(rt.alloc(), RecordOptions::default());
    for (index, bytes) in [
        (3, b"\x03x\xc3\xa9".as_slice()),
        (4, b"\x03x\xc3\xa9".as_slice()),
        (3, b"\x03x\xc3\xa9x\xc3\xa9".as_slice()),
        (
            7,
            b"\x03x\xc3\xa9x\xc3\xa9\xff\x07\x05\0\0\0\0\0\0\0".as_slice(),
        ),
    ] {
        let token = token_at(rt.alloc(), index).expect(&rt, "memory");
        assert!(rt; sink.process_token(token, 5).is_ok());
        assert_eq!(rt; sink.waiting(), bytes, "{index}");
    }
}

#[test]
fn a_line_takes_eight_bytes(rt: HostRuntime) {
    let mut sink = RecordSink::new(rt.alloc(), RecordOptions::default());
    let end = token_at(rt.alloc(), TOKENS).expect(&rt, "memory");
    assert!(rt; sink.process_token(end, 0x0102_0304_0506_0708).is_ok());
    assert!(rt; sink.end().is_ok());
    assert_eq!(rt;
        sink.waiting(),
        b"\x09\x08\x07\x06\x05\x04\x03\x02\x01".as_slice()
    );
}

#[test]
fn replies_where_it_is_asked_to(rt: HostRuntime) {
    let start = TagKind::StartTag;
    let cases = [
        (Replies::None, start, "title", TokenSinkResult::Continue),
        (
            Replies::Standard,
            start,
            "title",
            TokenSinkResult::RawData(RawKind::Rcdata),
        ),
        (
            Replies::Pausing,
            start,
            "title",
            TokenSinkResult::RawData(RawKind::Rcdata),
        ),
        (
            Replies::Standard,
            TagKind::EndTag,
            "script",
            TokenSinkResult::Continue,
        ),
        (
            Replies::Pausing,
            TagKind::EndTag,
            "script",
            TokenSinkResult::Script(PausedAt::Script),
        ),
        (
            Replies::Caller,
            start,
            "title",
            TokenSinkResult::Script(PausedAt::Tag),
        ),
        (
            Replies::Caller,
            TagKind::EndTag,
            "p",
            TokenSinkResult::Script(PausedAt::Tag),
        ),
    ];
    for (replies, kind, name, reply) in cases {
        let foreign = replies == Replies::Pausing;
        let mut sink = RecordSink::new(rt.alloc(), RecordOptions { replies, foreign });
        let tag = bare_tag(rt.alloc(), kind, name).expect(&rt, "memory");
        assert!(rt; sink.process_token(tag, 1) == Ok(reply), "{name}");
        assert_eq!(rt;
            sink.adjusted_current_node_present_but_not_in_html_namespace(),
            foreign
        );
    }
}

// A caller that chooses nothing gets the content of a script as text.
#[test]
fn replies_as_the_standard_where_nothing_is_chosen(rt: HostRuntime) {
    let options = RecordOptions::default();
    assert!(rt; options.replies == Replies::Standard && !options.foreign);
    let cases = [
        ("script", TokenSinkResult::RawData(RawKind::ScriptData)),
        ("style", TokenSinkResult::RawData(RawKind::Rawtext)),
        ("plaintext", TokenSinkResult::Plaintext),
        ("p", TokenSinkResult::Continue),
    ];
    for (name, reply) in cases {
        let mut sink = RecordSink::new(rt.alloc(), RecordOptions::default());
        let tag = bare_tag(rt.alloc(), TagKind::StartTag, name).expect(&rt, "memory");
        assert!(rt; sink.process_token(tag, 1) == Ok(reply), "{name}");
    }
}

// Adds what a token adds, where a text is open or not, and answers whether one is open after it.
fn push_expected(rt: &impl Abort, expected: &mut Vec<u8>, in_text: bool, index: usize) -> bool {
    if index == 4 {
        return in_text;
    }
    if index == 3 {
        expected
            .extend_from_slice(b"\x03x\xc3\xa9")
            .expect(rt, "memory");
        return true;
    }
    if in_text {
        expected.extend_from_slice(b"\xff").expect(rt, "memory");
    }
    if index < TOKENS {
        expected
            .extend_from_slice(RECORDS[index])
            .expect(rt, "memory");
    }
    false
}

// Sends a sink on a heap that refuses one request all tokens. Answers whether it was refused.
fn tells_all_but_refused(rt: &impl Abort, alloc: Global, admitted: u64) -> bool {
    let heap = Refusing::new(alloc, admitted);
    let mut sink: RecordSink<&Refusing<Global>> = RecordSink::new(&heap, RecordOptions::default());
    let mut expected = Vec::new(alloc);
    let mut in_text = false;
    for index in 0..TOKENS {
        let Ok(token) = token_at(&heap, index) else {
            continue;
        };
        if sink
            .process_token(token, (index as u64).saturating_add(1))
            .is_ok()
        {
            in_text = push_expected(rt, &mut expected, in_text, index);
        }
        assert_eq!(rt; sink.waiting(), expected.as_slice(), "{admitted}");
    }
    heap.has_refused()
}

#[test]
fn a_refused_growth_leaves_no_part_of_what_a_token_adds(rt: HostRuntime) {
    let mut refused = 0u64;
    for admitted in 0..1000u64 {
        if !tells_all_but_refused(&rt, rt.alloc(), admitted) {
            break;
        }
        refused = refused.saturating_add(1);
    }
    assert!(rt; refused > 10 && refused < 1000);
}
