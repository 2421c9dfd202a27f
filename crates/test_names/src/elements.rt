use html5names::{is_known_element, meant_element};

#[test]
fn elements_are_known(rt: HostRuntime) {
    let names =
        "a abbr article audio b blockquote body br button canvas colgroup datalist dialog div em \
        fieldset figcaption form h1 h6 head hgroup html iframe img input label link main math meta \
        nav noscript optgroup option p picture pre q rp rt ruby script search section select \
        selectedcontent slot span style sub summary sup svg table tbody td template textarea tfoot \
        th thead time title tr track u ul var video wbr";
    for name in names.split(' ') {
        assert!(rt; is_known_element(name), "{name}");
    }
}

#[test]
fn obsolete_elements_are_known(rt: HostRuntime) {
    let names =
        "acronym applet basefont bgsound big blink center dir font frame frameset image isindex \
        keygen listing marquee menuitem multicol nextid nobr noembed noframes param plaintext rb rtc \
        spacer strike tt xmp";
    for name in names.split(' ') {
        assert!(rt; is_known_element(name), "{name}");
    }
}

#[test]
fn other_elements_are_unknown(rt: HostRuntime) {
    let names = &[
        "",
        "h",
        "h0",
        "h7",
        "dvi",
        "DIV",
        "divs",
        "di",
        "spann",
        "my-tag",
        "x-a",
        "v:if",
        "text",
        "heading",
        "paragraph",
        "tag",
        "bold",
        "circle",
        "path",
        "mi",
        "class",
        "buttons",
        "nav ",
        "\u{430}side",
    ];
    for &name in names {
        assert!(rt; !is_known_element(name), "{name}");
    }
}

#[test]
fn elements_are_meant(rt: HostRuntime) {
    let rows = &[
        // two neighbours are swapped
        ("dvi", "div"),
        ("idv", "div"),
        ("spna", "span"),
        ("sapn", "span"),
        ("tabel", "table"),
        ("tbale", "table"),
        ("lable", "label"),
        ("scirpt", "script"),
        ("sectoin", "section"),
        ("hedaer", "header"),
        ("inptu", "input"),
        ("imgae", "image"),
        ("vidoe", "video"),
        ("from", "form"),
        ("nva", "nav"),
        ("etxtarea", "textarea"),
        // one is missing
        ("buton", "button"),
        ("artcle", "article"),
        ("stong", "strong"),
        ("tabl", "table"),
        ("extarea", "textarea"),
        // one is too many
        ("spann", "span"),
        ("spans", "span"),
        ("labell", "label"),
        ("inputt", "input"),
        ("xmain", "main"),
        // one is another
        ("fotter", "footer"),
        ("spam", "span"),
        ("iframa", "iframe"),
        ("deteils", "details"),
        // the first that is near
        ("mete", "meta"),
        ("heade", "head"),
    ];
    for &(name, meant) in rows {
        assert_eq!(rt; meant_element(name).unwrap_or("none"), meant, "of {name}");
    }
}

#[test]
fn no_element_is_meant(rt: HostRuntime) {
    let names = &[
        // known
        "div",
        "font",
        "main",
        "br",
        "tt",
        // too short
        "",
        "x",
        "dv",
        "h7",
        // with other characters
        "my-tag",
        "sp-an",
        "v:if",
        "spän",
        "table ",
        "tab_le",
        // short, and no swap
        "img1",
        "naav",
        "dvv",
        "olx",
        "tdd",
        "met",
        // far from all
        "butttonn",
        "paragraph",
        "bold",
        "heading",
        "foo",
        "DIV",
    ];
    for &name in names {
        assert!(rt; meant_element(name).is_none(), "{name}");
    }
}
