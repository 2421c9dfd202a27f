//! A page is cleaned by the library's calls, also with each growth refused in turn.
use html5cleaner::clean_text;
use html5policy::Policy;
use markup5ever::data::NamedReferences;
use std::alloc::{Allocator, Global};
use testing_alloc::Refusing;

const RULES: &str = "allow a href rel\nallow p title\nhide form\nrel noopener me\ntree\n";

const PAGE: &str =
    "<p title=a>a text of some length &#60;<script>b</script><a href=c rel=d>e<form>f</form><p>so that the page grows";

const WANTED: &str =
    "<p title=\"a\">a text of some length &#60;<a href=\"c\" rel=\"noopener me\">e</a></p><p>so that the page grows</p>";

// Whether the kept part is the wanted one, or nothing where a growth was refused.
fn keeps<A: Allocator + Copy>(alloc: A) -> Option<bool> {
    let references = NamedReferences::check(alloc, Vec::new(alloc)).ok()?;
    let policy = Policy::parse(alloc, RULES).ok()?;
    let page = clean_text(alloc, PAGE, &references, &policy).ok()?;
    Some(page.as_str() == WANTED)
}

#[test]
fn a_page_is_kept_unless_a_growth_is_refused(rt: HostRuntime) {
    let mut finished = false;
    for admitted in 0..1000 {
        let heap = Refusing::<Global>::new(rt.alloc(), admitted);
        match keeps(&heap) {
            Some(kept) => {
                assert!(rt; kept && !heap.has_refused(), "after {admitted} requests");
                finished = true;
                break;
            }
            None => assert!(rt; heap.has_refused(), "after {admitted} requests"),
        }
    }
    assert!(rt; finished);
}
