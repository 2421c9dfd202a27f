//! A decoder whose growth is refused stands as before.
use html5encodings::{Decoder, Encoding};
use std::alloc::{AllocError, Global};
use std::process::Abort;
use testing_alloc::Refusing;

// A long text in EUC-JP, in two pieces that are cut within a character.
const FIRST: &[u8] = b"0123456789012345678901234567890123456789\xa4\xa2\xa4\xa4\xa4";

const SECOND: &[u8] = b"\xa6abcdefghijklmnopqrstuvwxyz";

// The text of a piece, given again where a growth was refused.
fn decoded_again(
    rt: &impl Abort,
    heap: &Refusing<Global>,
    decoder: &mut Decoder,
    piece: &[u8],
    wanted: &str,
) {
    let mut text: Result<String<&Refusing<Global>>, AllocError> = decoder.decode(heap, piece);
    if text.is_err() {
        assert!(rt; heap.has_refused());
        text = decoder.decode(heap, piece);
    }
    match text {
        Ok(text) => assert_eq!(rt; text.as_str(), wanted),
        Err(_) => panic!(rt; "refused twice"),
    }
}

#[test]
fn a_refused_piece_is_given_again(rt: HostRuntime) {
    let mut sweeps = 0u64;
    for admitted in 0..1000u64 {
        let heap = Refusing::new(rt.alloc(), admitted);
        let mut decoder = Decoder::new(Encoding::EucJp);
        decoded_again(
            &rt,
            &heap,
            &mut decoder,
            FIRST,
            "0123456789012345678901234567890123456789\u{3042}\u{3044}",
        );
        decoded_again(
            &rt,
            &heap,
            &mut decoder,
            SECOND,
            "\u{3046}abcdefghijklmnopqrstuvwxyz",
        );
        assert_eq!(rt; decoder.finish(), "");
        if !heap.has_refused() {
            break;
        }
        sweeps = sweeps.wrapping_add(1);
    }
    assert!(rt; 3 <= sweeps);
}
