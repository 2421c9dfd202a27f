//! An allocator for tests: one request is refused, and no other.
use std::alloc::{AllocError, Allocator, Global};
use std::collections::VecDeque;
use std::process::Abort;
use testing_alloc::Refusing;

// A queue of three texts, the last of which grows by one `addition` after another.
fn queue_of_texts<A: Allocator + Copy>(
    alloc: A,
    additions: &[&str],
) -> Result<VecDeque<String<A>, A>, AllocError> {
    let mut texts = VecDeque::new(alloc);
    texts.push_back(String::from_str(alloc, "first")?)?;
    texts.push_back(String::from_str(alloc, "second")?)?;
    let mut last = String::new(alloc);
    for addition in additions {
        last.push_str(addition)?;
    }
    texts.push_back(last)?;
    Ok(texts)
}

// Whether a heap refuses a request.
fn refuses(heap: &Refusing<Global>) -> bool {
    let mut bytes: Vec<u8, &Refusing<Global>> = Vec::new(heap);
    bytes.push(7).is_err()
}

#[test]
fn refuses_the_chosen_request_alone(rt: HostRuntime) {
    for admitted in 0..3u64 {
        let heap = Refusing::new(rt.alloc(), admitted);
        for request in 0..6u64 {
            assert_eq!(rt;
                heap.has_refused(),
                request > admitted,
                "before {request} of {admitted}"
            );
            assert_eq!(rt;
                refuses(&heap),
                request == admitted,
                "at {request} of {admitted}"
            );
        }
    }
}

// Appends eight bytes. Answers whether that was refused, which leaves the text as it was.
fn is_refused(
    rt: &impl Abort,
    heap: &Refusing<Global>,
    text: &mut String<&Refusing<Global>>,
) -> bool {
    let before = text.len();
    if text.push_str("eight by").is_ok() {
        return false;
    }
    assert!(rt; heap.has_refused());
    assert_eq!(rt; text.len(), before);
    true
}

#[test]
fn a_refused_growth_is_one_request(rt: HostRuntime) {
    for admitted in 1..4u64 {
        let heap = Refusing::new(rt.alloc(), admitted);
        let mut text: String<&Refusing<Global>> = String::new(&heap);
        let mut refusals = 0u64;
        for _ in 0..40 {
            if is_refused(&rt, &heap, &mut text) {
                refusals = refusals.wrapping_add(1);
            }
        }
        assert_eq!(rt; refusals, 1);
        assert_eq!(rt; text.len(), 39 * 8);
    }
}

#[test]
fn a_sweep_meets_each_request(rt: HostRuntime) {
    let additions = &[
        "a sentence of some length, ",
        "and one more, ",
        "and the last one of the three",
    ];
    let mut sweeps = 0u64;
    for admitted in 0..1000u64 {
        let heap = Refusing::new(rt.alloc(), admitted);
        let made = queue_of_texts(&heap, additions);
        assert_eq!(rt; made.is_err(), heap.has_refused(), "after {admitted}");
        drop(made);
        if !heap.has_refused() {
            break;
        }
        sweeps = sweeps.wrapping_add(1);
    }
    assert_eq!(rt; sweeps, 6);
}
