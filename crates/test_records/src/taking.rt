use crate::made::{RECORDS, TOKENS, token_at};
use html5ever_interface::interface::sink::TokenSink;
use html5records::record_sink::{RecordOptions, RecordSink};
use std::alloc::Global;
use std::process::Abort;

// All records, one after the other, this many times.
fn records(rt: &impl Abort, alloc: Global, rounds: usize) -> Vec<u8> {
    let mut all = Vec::new(alloc);
    for _ in 0..rounds {
        for record in RECORDS {
            all.extend_from_slice(record).expect(rt, "memory");
        }
    }
    all
}

// Takes the waiting bytes, in pieces of at most this many bytes, while it may.
fn take_pieces(
    rt: &impl Abort,
    sink: &mut RecordSink<Global>,
    taken: &mut Vec<u8>,
    size: usize,
    pieces: usize,
) {
    let mut piece = [0u8; 64];
    for _ in 0..pieces {
        let count = sink.take(&mut piece[..size.min(64)]);
        taken
            .extend_from_slice(&piece[..count.min(64)])
            .expect(rt, "memory");
    }
}

// Sends all tokens this many times, and takes some pieces after each token.
fn told_and_taken(
    rt: &impl Abort,
    alloc: Global,
    rounds: usize,
    size: usize,
    pieces: usize,
) -> Vec<u8> {
    let mut sink = RecordSink::new(alloc, RecordOptions::default());
    let mut taken = Vec::new(alloc);
    for _ in 0..rounds {
        for index in 0..TOKENS {
            let token = token_at(alloc, index).expect(rt, "memory");
            let line = (index as u64).saturating_add(1);
            assert!(rt; sink.process_token(token, line).is_ok());
            take_pieces(rt, &mut sink, &mut taken, size, pieces);
        }
    }
    let left = sink.waiting().len();
    taken.extend_from_slice(sink.waiting()).expect(rt, "memory");
    sink.skip(left);
    assert!(rt; sink.waiting().is_empty());
    taken
}

#[test]
fn what_is_taken_is_what_was_written(rt: HostRuntime) {
    let expected = records(&rt, rt.alloc(), 3);
    for (size, pieces) in [(0, 1), (1, 1), (1, 7), (7, 1), (7, 4), (64, 1), (64, 2)] {
        let taken = told_and_taken(&rt, rt.alloc(), 3, size, pieces);
        assert_eq!(rt; taken.as_slice(), expected.as_slice(), "{size} {pieces}");
    }
}
