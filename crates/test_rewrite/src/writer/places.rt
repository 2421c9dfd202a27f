//! A character that is not written as it is, at each place of texts of many lengths.
use html5write::{Attribute, WriteError, Writer};
use std::alloc::{AllocError, Allocator};

// The texts are longer than two steps of a search.
const LONGEST: usize = 36;

// This many letters, a text, and this many letters.
fn between<A: Allocator + Copy>(
    alloc: A,
    before: usize,
    text: &str,
    after: usize,
) -> Result<String<A>, AllocError> {
    let mut whole = String::new(alloc);
    for _ in 0..before {
        whole.push('x')?;
    }
    whole.push_str(text)?;
    for _ in 0..after {
        whole.push('y')?;
    }
    Ok(whole)
}

// Whether a text is written so, between this many letters.
fn is_written<A: Allocator + Copy>(
    page: &mut Writer<A>,
    alloc: A,
    text: &str,
    written: &str,
    before: usize,
    after: usize,
) -> Result<bool, WriteError> {
    let wanted = between(alloc, before, written, after)?;
    page.clear();
    page.text(between(alloc, before, text, after)?.as_str())?;
    Ok(page.as_str() == wanted.as_str())
}

#[test]
fn writes_a_character_at_each_place(rt: HostRuntime) {
    let mut page = Writer::new(rt.alloc());
    for (text, written) in [
        ("&", "&#38;"),
        ("<", "&#60;"),
        (">", "&#62;"),
        ("\"", "&#34;"),
        ("\r", "&#13;"),
        ("\u{FEFF}", "&#65279;"),
        ("\u{FEFE}", "\u{FEFE}"),
        ("\u{E9}", "\u{E9}"),
        ("<\"\u{FEFF}&", "&#60;&#34;&#65279;&#38;"),
        ("", ""),
    ] {
        for before in 0..LONGEST {
            for after in 0..LONGEST {
                let right = is_written(&mut page, rt.alloc(), text, written, before, after).expect(
                    &rt, "a text",
                );
                assert!(rt; right, "{text:?} after {before} and before {after}");
            }
        }
    }
}

#[test]
fn refuses_a_null_at_each_place(rt: HostRuntime) {
    let mut page = Writer::new(rt.alloc());
    for before in 0..LONGEST {
        for after in 0..LONGEST {
            let text = between(rt.alloc(), before, "\0", after).expect(&rt, "memory");
            let refused = page.text(text.as_str());
            assert!(rt;
                refused == Err(WriteError::NullInText { at: before }),
                "after {before} and before {after}"
            );
            let value = between(rt.alloc(), before, "&\0\0", after).expect(&rt, "memory");
            let attributes = [Attribute {
                name: "a",
                value: value.as_str(),
            }];
            let refused = page.start_tag("a", &attributes);
            assert!(rt;
                refused
                    == Err(WriteError::NullInValue {
                        attribute: 0,
                        at: before + 1
                    }),
                "after {before} and before {after}"
            );
        }
    }
    assert!(rt; page.as_str() == "");
}
