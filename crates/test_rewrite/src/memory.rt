//! A growth is refused, and no other.
use crate::links::AbsoluteLinks;
use html5rewrite::rewrite_page;
use markup5ever::data::NamedReferences;
use std::alloc::Global;
use testing_alloc::Refusing;
use testing_devices::PieceSource;

const PAGE: &str =
    "<p id=a>a text of some length &#60;<nav>b</nav><a href=/c target=d>e</a>, so that the page grows</p>";

const WANTED: &str =
    "<p id=\"a\">a text of some length &#60;<a href=\"https://a.example/c\">e</a>, so that the page grows</p>";

#[test]
fn a_refused_growth_leaves_a_beginning(rt: HostRuntime) {
    let mut finished = false;
    for admitted in 0..1000 {
        let heap = Refusing::<Global>::new(rt.alloc(), admitted);
        let Ok(references) = NamedReferences::check(&heap, Vec::new(&heap)) else {
            continue;
        };
        let source = &mut PieceSource::new(PAGE.as_bytes(), 16);
        let links = AbsoluteLinks {
            alloc: &heap,
            base: "https://a.example",
        };
        let (written, read) = rewrite_page(&heap, source, links, String::new(&heap), &references);
        assert!(rt;
            WANTED.starts_with(written.as_str()),
            "after {admitted} requests"
        );
        assert_eq!(rt;
            read.is_ok(),
            !heap.has_refused(),
            "after {admitted} requests"
        );
        if read.is_ok() {
            assert!(rt; written.as_str() == WANTED);
            finished = true;
            break;
        }
    }
    assert!(rt; finished);
}
