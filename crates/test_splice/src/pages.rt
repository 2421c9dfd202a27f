//! What is written of pages, however they are cut.
use crate::shouting::Shouting;
use html5entities::standard_references;
use html5splice::splice_page;
use html5stream::StreamError;
use testing_devices::PieceSource;

// Pages, and what is written of them.
const ROWS: [(&str, &str); 8] = [
    ("", ""),
    ("a<B c>d<!-- e -->f", "a<p>df"),
    ("<i>&lt;</i><b>", "<i>!</i><p>"),
    (
        "<!DOCTYPE  html>\r\n<P x = '1'>&notin; &am",
        "<!DOCTYPE  html>\r\n<P x = '1'>&notin; &am",
    ),
    ("<script><!--<b></script><b>", "<script>!</script><p>"),
    (
        "\u{FEFF}\u{1F600}<b>\u{E9}\0</",
        "\u{FEFF}\u{1F600}<p>\u{E9}\0</",
    ),
    ("<!-- <b> --><!x><? b ?>", "<? b ?>"),
    ("<textarea>\n\n</textarea>", "<textarea>!</textarea>"),
];

#[test]
fn pages_are_spliced_in_pieces(rt: HostRuntime) {
    let alloc = rt.alloc();
    let references = standard_references(alloc).expect(&rt, "memory");
    for (page, wanted) in ROWS {
        for size in [1, 2, 3, 4096] {
            let source = &mut PieceSource::new(page.as_bytes(), size);
            let (written, read) = splice_page(
                alloc,
                source,
                Shouting { alloc },
                String::new(alloc),
                &references,
            );
            assert_eq!(rt; read, Ok(()), "{page}");
            assert!(rt; written.as_str() == wanted, "{page} in pieces of {size}");
        }
    }
}

#[test]
fn bytes_that_are_no_text_are_refused(rt: HostRuntime) {
    let alloc = rt.alloc();
    let references = standard_references(alloc).expect(&rt, "memory");
    for size in [1, 4096] {
        let source = &mut PieceSource::new(b"<b>a<i>\xff", size);
        let (written, read) = splice_page(
            alloc,
            source,
            Shouting { alloc },
            String::new(alloc),
            &references,
        );
        assert_eq!(rt; read, Err(StreamError::NotUtf8 { valid_up_to: 7 }));
        assert!(rt; "<p>a<i>".starts_with(written.as_str()));
    }
}
