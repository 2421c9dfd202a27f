//! Readers and writers that devices give back, and texts of bytes that are all at hand.
use devices::{ReadSource, WriteTarget, read_to_end, write_all};
use std::alloc::Global;
use std::process::Abort;
use testing_alloc::Refusing;
use utf8_pieces::{DecodeError, decode_all};

#[test]
fn readers_and_writers_come_back(rt: HostRuntime) {
    let input: &[u8] = b"one\xff";
    let mut source = ReadSource::new(input);
    let read = read_to_end(rt.alloc(), &mut source).expect(&rt, "the bytes");
    assert_eq!(rt; read.as_slice(), input);
    assert!(rt; source.into_inner().is_empty());
    let mut target = WriteTarget::new(Vec::new(rt.alloc()));
    assert_eq!(rt; write_all(&mut target, input), Ok(()));
    assert_eq!(rt; target.into_inner().as_slice(), input);
}

// Decodes pieces on a heap that may refuse a request. Answers whether it did.
fn is_refused(rt: &impl Abort, heap: &Refusing<Global>) -> bool {
    let pieces: &[&[u8]] = &[b"ab\xc3", b"\xa9cd\xe2", b"\x82\xac"];
    let text: Result<String<&Refusing<Global>>, DecodeError> = decode_all(heap, pieces);
    match text {
        Ok(text) => {
            assert_eq!(rt; text.as_str(), "ab\u{e9}cd\u{20ac}");
            false
        }
        Err(error) => {
            assert_eq!(rt; error, DecodeError::Memory);
            true
        }
    }
}

#[test]
fn pieces_are_a_text_unless_a_growth_is_refused(rt: HostRuntime) {
    let mut sweeps = 0u64;
    for admitted in 0..1000u64 {
        let heap = Refusing::new(rt.alloc(), admitted);
        let refused = is_refused(&rt, &heap);
        assert_eq!(rt; refused, heap.has_refused(), "after {admitted}");
        if !refused {
            break;
        }
        sweeps = sweeps.wrapping_add(1);
    }
    assert!(rt; 3 <= sweeps);
}
