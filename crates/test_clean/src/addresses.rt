//! Where the addresses lead that the standard policy keeps.
use html5policy::Policy;
use std::alloc::Global;
use std::process::Abort;
use url::Url;

const BASES: [&str; 3] = ["https://h/a", "file:///x", "mailto:x"];

// Addresses that are kept, and the schemes of the URLs that they lead to from these bases: "" if there is none.
const LEADS_TO: [(&str, [&str; 3]); 15] = [
    ("", ["https", "file", ""]),
    ("x", ["https", "file", ""]),
    ("/x:y", ["https", "file", ""]),
    ("?x:y", ["https", "file", ""]),
    ("#x:y", ["https", "file", "mailto"]),
    ("//host/x", ["https", "file", ""]),
    ("./a:b", ["https", "file", ""]),
    ("http://host/", ["http", "http", "http"]),
    ("HTTPS:x", ["https", "https", "https"]),
    (" \n mailto:a@b", ["mailto", "mailto", "mailto"]),
    ("h\tt\r\ntp:x", ["http", "http", "http"]),
    ("\u{1}https:x", ["https", "https", "https"]),
    ("ht\u{0}tp:x", ["https", "file", ""]),
    ("htt p:x", ["https", "file", ""]),
    ("x\u{0}", ["https", "file", ""]),
];

// Whether an address leads from a base to a URL of this scheme, or to none where that is "".
fn leads_to(rt: &impl Abort, alloc: Global, base: &str, address: &str, scheme: &str) -> bool {
    let base = Url::parse(alloc, base).expect(rt, "a base");
    match base.join(address) {
        Ok(url) => url.scheme() == scheme,
        Err(_) => scheme.is_empty(),
    }
}

#[test]
fn kept_addresses_lead_to_safe_schemes(rt: HostRuntime) {
    let policy = Policy::standard(rt.alloc()).expect(&rt, "memory");
    for (address, schemes) in LEADS_TO {
        assert!(rt; policy.is_kept("a", "href", address), "{address}");
        for k in 0..3 {
            assert!(rt;
                leads_to(&rt, rt.alloc(), BASES[k], address, schemes[k]),
                "{address}"
            );
        }
    }
}
