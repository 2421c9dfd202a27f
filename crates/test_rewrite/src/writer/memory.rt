//! A growth is refused, and no other.
use html5write::{Attribute, WriteError, Writer};
use std::alloc::{Allocator, Global};
use testing_alloc::Refusing;

// Writes a page of three pieces, each of which is tried once more where memory was refused. Answers how
// often it was.
fn write_page<A: Allocator + Copy>(page: &mut Writer<A>) -> Result<u64, WriteError> {
    let attributes = [Attribute {
        name: "b",
        value: "<&>",
    }];
    let mut refused = 0;
    if page.start_tag("a", &attributes) == Err(WriteError::Memory) {
        refused += 1;
        page.start_tag("a", &attributes)?;
    }
    if page.text("a text of some length, so that the page grows") == Err(WriteError::Memory) {
        refused += 1;
        page.text("a text of some length, so that the page grows")?;
    }
    if page.end_tag("a") == Err(WriteError::Memory) {
        refused += 1;
        page.end_tag("a")?;
    }
    Ok(refused)
}

#[test]
fn a_refused_growth_leaves_the_page(rt: HostRuntime) {
    let wanted = "<a b=\"&#60;&#38;&#62;\">a text of some length, so that the page grows</a>";
    let mut finished = false;
    for admitted in 0..100 {
        let heap = Refusing::<Global>::new(rt.alloc(), admitted);
        let mut page = Writer::new(&heap);
        let refused = write_page(&mut page).expect(&rt, "one refusal at most");
        assert!(rt; page.as_str() == wanted, "after {admitted} requests");
        if refused == 0 {
            finished = true;
            break;
        }
        assert!(rt; refused == 1, "after {admitted} requests");
    }
    assert!(rt; finished);
}
