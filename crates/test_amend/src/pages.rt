//! What is written of pages, however they are cut.
use crate::calls::{Call, Calls, OtherCall};
use html5amend::Content::Html;
use html5amend::amend_page;
use html5entities::standard_references;
use testing_devices::PieceSource;

// Pages, and what is written of them.
const ROWS: [(&str, &str); 4] = [
    ("", ""),
    ("<p>a<P>b</P >c</p>d", "<!><p>a<!><P>bX</P >cX</p>d"),
    (
        "\u{FEFF}<!DOCTYPE html>\u{1F600}<p>&am\u{E9}\0</",
        "\u{FEFF}<!DOCTYPE html>\u{1F600}<!><p>&am\u{E9}\0</",
    ),
    ("<script><p></script></p>", "<script><p></script></p>"),
];

#[test]
fn pages_are_amended_in_pieces(rt: HostRuntime) {
    let alloc = rt.alloc();
    let references = standard_references(alloc).expect(&rt, "memory");
    for (page, wanted) in ROWS {
        for size in [1, 2, 3, 4096] {
            let source = &mut PieceSource::new(page.as_bytes(), size);
            let calls = Calls {
                name: "p",
                first: Call::Before(Html("<!>")),
                second: Call::Append(Html("X")),
                comments: OtherCall::Keep,
            };
            let (written, read) = amend_page(alloc, source, calls, String::new(alloc), &references);
            assert_eq!(rt; read, Ok(()), "{page}");
            assert!(rt; written.as_str() == wanted, "{page} in pieces of {size}");
        }
    }
}
