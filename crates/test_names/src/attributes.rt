use html5names::{is_known_attribute, meant_attribute};

#[test]
fn attributes_are_known(rt: HostRuntime) {
    let names =
        "abbr accept accept-charset alt async autofocus charset checked cite class closedby colspan \
        commandfor content crossorigin data datetime dir disabled enctype for form headers height \
        href hreflang http-equiv id imagesizes is itemprop lang list loading maxlength media name \
        nonce open placeholder poster rel rows sandbox shadowrootmode sizes slot src srcset style \
        tabindex title translate type usemap value width wrap xml:lang";
    for name in names.split(' ') {
        assert!(rt; is_known_attribute(name), "{name}");
    }
}

#[test]
fn event_handlers_are_known(rt: HostRuntime) {
    let names =
        "onabort onafterprint onbeforeunload onblur onchange onclick ondblclick ondragstart onerror \
        onfocus onhashchange oninput onkeydown onload onmouseover onmouseup onpopstate onresize \
        onscroll onsubmit ontoggle onunload onwheel onpointerdown ontouchstart onanimationend \
        ontransitionend";
    for name in names.split(' ') {
        assert!(rt; is_known_attribute(name), "{name}");
    }
}

#[test]
fn attributes_of_old_and_other_kinds_are_known(rt: HostRuntime) {
    let names =
        "align alink background bgcolor border cellpadding cellspacing char clear color compact face \
        frameborder hspace language link longdesc marginheight noshade nowrap rules scheme scrolling \
        size summary target text valign vlink vspace role property about typeof vocab xmlns part \
        popover inert fetchpriority";
    for name in names.split(' ') {
        assert!(rt; is_known_attribute(name), "{name}");
    }
}

#[test]
fn other_attributes_are_unknown(rt: HostRuntime) {
    let names = &[
        "",
        "i",
        "key",
        "ref",
        "klass",
        "classname",
        "clas",
        "HREF",
        "hrefs",
        "aria-label",
        "data-x",
        "ng-app",
        "v-if",
        "v:if",
        "@click",
        ":key",
        "[x]",
        "#id",
        "onclicked",
        "on",
        "foo",
        "viewbox",
        "http-equi",
        "div",
        "cl\u{430}ss",
    ];
    for &name in names {
        assert!(rt; !is_known_attribute(name), "{name}");
    }
}

#[test]
fn attributes_are_meant(rt: HostRuntime) {
    let rows = &[
        // two neighbours are swapped
        ("scr", "src"),
        ("rsc", "src"),
        ("calss", "class"),
        ("herf", "href"),
        ("hrfe", "href"),
        ("widht", "width"),
        ("heigth", "height"),
        ("onlcick", "onclick"),
        ("titel", "title"),
        ("atl", "alt"),
        ("nmae", "name"),
        ("tpye", "type"),
        ("vlaue", "value"),
        ("tabidnex", "tabindex"),
        ("placehodler", "placeholder"),
        ("targte", "target"),
        // one is missing
        ("clas", "class"),
        ("onclik", "onclick"),
        ("requred", "required"),
        ("disable", "disabled"),
        ("rowspn", "rowspan"),
        ("acceptcharset", "accept-charset"),
        ("httpequiv", "http-equiv"),
        // one is too many
        ("hreff", "href"),
        ("tittle", "title"),
        ("onload1", "onload"),
        // one is another
        ("colspam", "colspan"),
        ("oncleck", "onclick"),
        // the first that is near
        ("method1", "method"),
    ];
    for &(name, meant) in rows {
        assert_eq!(rt; meant_attribute(name).unwrap_or("none"), meant, "of {name}");
    }
}

#[test]
fn no_attribute_is_meant(rt: HostRuntime) {
    let names = &[
        // known
        "src",
        "class",
        "bgcolor",
        "role",
        // too short
        "",
        "x",
        "di",
        // with other characters
        "data-x",
        "aria-labl",
        "v:if",
        "@click",
        ":href",
        "[x]",
        "hrëf",
        "href=",
        "http_equiv",
        // short, and no swap
        "ref",
        "key",
        "typ",
        "srcc",
        "altt",
        "idd",
        // far from all
        "foobar",
        "classnames",
        "ngclick",
        "CLASS",
    ];
    for &name in names {
        assert!(rt; meant_attribute(name).is_none(), "{name}");
    }
}
