//! Which names are known, what fits, and how many elements are open.
use html5tree::names::ElementName;
use html5tree::nesting::Nesting;
use html5tree::plans::Written;
use std::alloc::Global;
use std::process::Abort;

#[test]
fn finds_names(rt: HostRuntime) {
    for text in ["a", "blockquote", "h6", "tbody", "wbr"] {
        let found = ElementName::find(text);
        assert!(rt; found.is_some_and(|name| name.as_str() == text), "{text}");
    }
    for text in ["", "A", "h7", "svg", "blockquotes", "colgrou", "template"] {
        assert!(rt; ElementName::find(text).is_none(), "{text}");
    }
}

fn opened(rt: &impl Abort, alloc: Global, texts: &[&str]) -> Nesting {
    let mut nesting = Nesting::new(alloc, 511);
    for text in texts {
        let name = ElementName::find(text).expect(rt, "a name");
        let plan = nesting.start_tag(name).expect(rt, "memory");
        assert!(rt; matches!(plan.writes, Written::Itself), "{text}");
    }
    nesting
}

// Open elements, a name, and whether its start tag and its end tag fit.
const FITTING: [(&[&str], &str, bool, bool); 8] = [
    (&["p"], "div", false, false),
    (&["p"], "b", true, false),
    (&["p"], "p", false, true),
    (&["a", "table", "tbody", "tr", "td"], "a", true, false),
    (&["table"], "b", false, false),
    (&["table"], "tbody", true, false),
    (&["ul", "li"], "li", false, true),
    (&[], "br", true, false),
];

#[test]
fn says_what_fits(rt: HostRuntime) {
    for (texts, text, start, end) in FITTING {
        let nesting = opened(&rt, rt.alloc(), texts);
        let name = ElementName::find(text).expect(&rt, "a name");
        assert!(rt; nesting.start_fits(name) == start, "{text}");
        assert!(rt; nesting.end_fits(name) == end, "{text}");
    }
    let table = opened(&rt, rt.alloc(), &["table"]);
    assert!(rt; table.text_fits(" \n") && !table.text_fits(" x"));
    let paragraph = opened(&rt, rt.alloc(), &["p"]);
    assert!(rt; paragraph.text_fits(" x"));
}

#[test]
fn keeps_many_open(rt: HostRuntime) {
    let mut nesting = Nesting::new(rt.alloc(), 511);
    let name = ElementName::find("div").expect(&rt, "a name");
    for number in 0..600 {
        let plan = nesting.start_tag(name).expect(&rt, "memory");
        let is_open = matches!(plan.writes, Written::Itself);
        assert!(rt; is_open == (number < 511), "{number}");
    }
    assert_eq!(rt; nesting.depth(), 511);
}
