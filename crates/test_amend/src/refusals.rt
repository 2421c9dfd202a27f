//! Names that no page is read with.
use crate::calls::{Call, Calls, OtherCall};
use html5amend::amend_text;
use html5entities::standard_references;
use html5stream::StreamError;

#[test]
fn names_that_are_not_read_are_refused(rt: HostRuntime) {
    let alloc = rt.alloc();
    let references = standard_references(alloc).expect(&rt, "memory");
    let rows = [
        Call::Set("a b", "c"),
        Call::Set("", "c"),
        Call::Set("A", "c"),
        Call::Name("1"),
        Call::Name("a b"),
        Call::Name(""),
    ];
    for first in rows {
        let calls = Calls {
            name: "b",
            first,
            second: Call::Nothing,
            comments: OtherCall::Keep,
        };
        let page = amend_text(alloc, "<b>", calls, &references);
        assert!(rt; page.is_err_and(|error| error == StreamError::Sink));
    }
}
