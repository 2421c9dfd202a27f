//! A growth is refused, and no other.
use crate::calls::{Call, Calls, OtherCall};
use html5amend::Content::Text;
use html5amend::amend_page;
use markup5ever::data::NamedReferences;
use std::alloc::Global;
use testing_alloc::Refusing;
use testing_devices::PieceSource;

const PAGE: &str =
    "<B id=a>1<b>2<b>3<b>4<b>5<b>6<b>7<b>8<b>9</b></b></b></b></b></b></b></b></b>0<!-- c -->";

const WANTED: &str =
    "<i id=\"a\">1<i>2<i>3<i>4<i>5<i>6<i>7<i>8<i>9</i>x</i>x</i>x</i>x</i>x</i>x</i>x</i>x</i>x0<!-- c -->y";

#[test]
fn a_refused_growth_leaves_a_beginning(rt: HostRuntime) {
    let mut finished = false;
    for admitted in 0..2000 {
        let heap = Refusing::<Global>::new(rt.alloc(), admitted);
        let Ok(references) = NamedReferences::check(&heap, Vec::new(&heap)) else {
            continue;
        };
        let source = &mut PieceSource::new(PAGE.as_bytes(), 16);
        let calls = Calls {
            name: "b",
            first: Call::Name("i"),
            second: Call::After(Text("x")),
            comments: OtherCall::After(Text("y")),
        };
        let (written, read) = amend_page(&heap, source, calls, String::new(&heap), &references);
        assert!(rt;
            WANTED.starts_with(written.as_str()),
            "after {admitted} requests"
        );
        assert_eq!(rt;
            read.is_ok(),
            !heap.has_refused(),
            "after {admitted} requests"
        );
        if read.is_ok() {
            assert!(rt; written.as_str() == WANTED);
            finished = true;
            break;
        }
    }
    assert!(rt; finished);
}
