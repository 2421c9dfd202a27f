//! A growth is refused, and no other.
use crate::shouting::Shouting;
use html5splice::splice_page;
use markup5ever::data::NamedReferences;
use std::alloc::Global;
use testing_alloc::Refusing;
use testing_devices::PieceSource;

const PAGE: &str =
    "<B id=a>a text of some length<i>, so that what waits grows &#60;</i><!-- c -->e";

const WANTED: &str = "<p>a text of some length<i>!</i>e";

#[test]
fn a_refused_growth_leaves_a_beginning(rt: HostRuntime) {
    let mut finished = false;
    for admitted in 0..2000 {
        let heap = Refusing::<Global>::new(rt.alloc(), admitted);
        let Ok(references) = NamedReferences::check(&heap, Vec::new(&heap)) else {
            continue;
        };
        let source = &mut PieceSource::new(PAGE.as_bytes(), 16);
        let splicer = Shouting { alloc: &heap };
        let (written, read) = splice_page(&heap, source, splicer, String::new(&heap), &references);
        assert!(rt;
            WANTED.starts_with(written.as_str()),
            "after {admitted} requests"
        );
        assert_eq!(rt;
            read.is_ok(),
            !heap.has_refused(),
            "after {admitted} requests"
        );
        if read.is_ok() {
            assert!(rt; written.as_str() == WANTED);
            finished = true;
            break;
        }
    }
    assert!(rt; finished);
}
