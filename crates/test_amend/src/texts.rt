//! Texts that are amended.
use crate::calls::{Call, Calls, OtherCall};
use crate::links::Links;
use html5amend::Content::{Html, Text};
use html5amend::amend_text;
use html5entities::standard_references;
use std::alloc::Allocator;
use std::process::Abort;

// Whether a text is amended to this.
fn is_amended<A: Allocator + Copy>(
    rt: &impl Abort,
    alloc: A,
    text: &str,
    calls: Calls<'_>,
    wanted: &str,
) -> bool {
    let references = standard_references(alloc).expect(rt, "memory");
    let page = amend_text(alloc, text, calls, &references);
    page.is_ok_and(|page| page.as_str() == wanted)
}

// Rows of a text, the name of an element, two calls of it, and what is written.
type Row = (
    &'static str,
    &'static str,
    Call<'static>,
    Call<'static>,
    &'static str,
);

// Whether each row is amended so.
fn assert_amended<A: Allocator + Copy>(rt: &impl Abort, alloc: A, rows: &[Row]) {
    for (text, name, first, second, wanted) in rows {
        let calls = Calls {
            name,
            first: *first,
            second: *second,
            comments: OtherCall::Keep,
        };
        assert!(rt; is_amended(rt, alloc, text, calls, wanted), "of {text}");
    }
}

#[test]
fn what_is_not_amended_stays(rt: HostRuntime) {
    let page =
        "<!DOCTYPE  html><P  class=x >a &amp b<br/><!-- c --><?php ?>\r\n</>\0</P ><unclosed x";
    let rows = [
        ("", "p", Call::Nothing, Call::Nothing, ""),
        (page, "p", Call::Nothing, Call::Nothing, page),
        (page, "b", Call::Remove, Call::Nothing, page),
        (page, "p", Call::Unset("id"), Call::Nothing, page),
        (
            page,
            "br",
            Call::Prepend(Text("x")),
            Call::Append(Text("x")),
            page,
        ),
    ];
    assert_amended(&rt, rt.alloc(), &rows);
}

#[test]
fn start_tags_change(rt: HostRuntime) {
    let rows = [
        (
            "<A  HREF=x>y</A >",
            "a",
            Call::Set("rel", "a\"b"),
            Call::Nothing,
            "<a href=\"x\" rel=\"a&#34;b\">y</A >",
        ),
        (
            "<a href=x id=i>y</a>",
            "a",
            Call::Set("href", "z"),
            Call::Unset("id"),
            "<a href=\"z\">y</a>",
        ),
        (
            "<b x>y</B ></b>",
            "b",
            Call::Name("strong"),
            Call::Nothing,
            "<strong x=\"\">y</strong></b>",
        ),
        ("<i>x", "i", Call::Name("em"), Call::Name("q"), "<q>x"),
        ("<br>", "br", Call::Name("hr"), Call::Nothing, "<hr>"),
    ];
    assert_amended(&rt, rt.alloc(), &rows);
}

#[test]
fn contents_are_put(rt: HostRuntime) {
    let rows = [
        (
            "a<p>b</p>c",
            "p",
            Call::Before(Text("<")),
            Call::Before(Html("<hr>")),
            "a&#60;<hr><p>b</p>c",
        ),
        (
            "a<p>b</p>c",
            "p",
            Call::After(Text("1")),
            Call::After(Html("2")),
            "a<p>b</p>21c",
        ),
        (
            "a<p>b</p>c",
            "p",
            Call::Prepend(Text("1")),
            Call::Prepend(Html("2")),
            "a<p>21b</p>c",
        ),
        (
            "a<p>b</p>c",
            "p",
            Call::Append(Text("1")),
            Call::Append(Html("2")),
            "a<p>b12</p>c",
        ),
        (
            "a<img>c",
            "img",
            Call::Before(Text("1")),
            Call::After(Html("2")),
            "a1<img>2c",
        ),
        (
            "<svg/>c",
            "svg",
            Call::Append(Text("1")),
            Call::After(Html("2")),
            "<svg/>2c",
        ),
        (
            "<title>a</title>",
            "title",
            Call::Append(Text("<")),
            Call::Prepend(Html("x")),
            "<title>xa&#60;</title>",
        ),
        (
            "<script>a</b></script>",
            "script",
            Call::Append(Html(";")),
            Call::Nothing,
            "<script>a</b>;</script>",
        ),
    ];
    assert_amended(&rt, rt.alloc(), &rows);
}

#[test]
fn elements_are_replaced(rt: HostRuntime) {
    let rows = [
        (
            "a<p>b<i>c</i></p>d",
            "p",
            Call::Inner(Text("x")),
            Call::Nothing,
            "a<p>x</p>d",
        ),
        (
            "a<p>b</p>d",
            "p",
            Call::Inner(Text("x")),
            Call::Append(Html("<y>")),
            "a<p>x<y></p>d",
        ),
        (
            "a<p>b</p>d",
            "p",
            Call::Append(Text("y")),
            Call::Inner(Text("x")),
            "a<p>x</p>d",
        ),
        (
            "a<br>b",
            "br",
            Call::Inner(Text("x")),
            Call::Nothing,
            "a<br>b",
        ),
        (
            "a<p>b<i>c</i></p>d",
            "p",
            Call::Replace(Html("<hr>")),
            Call::Nothing,
            "a<hr>d",
        ),
        (
            "a<br>b",
            "br",
            Call::Replace(Text("x")),
            Call::After(Text("y")),
            "axyb",
        ),
        (
            "a<p>b<!-- c --></p>d",
            "p",
            Call::Remove,
            Call::After(Text("x")),
            "axd",
        ),
        ("a<img>b", "img", Call::Remove, Call::Nothing, "ab"),
        (
            "a<p>b<i>c</i></p>d",
            "p",
            Call::Unwrap,
            Call::Nothing,
            "ab<i>c</i>d",
        ),
        (
            "a<p>b</p>d",
            "p",
            Call::Unwrap,
            Call::Append(Text("x")),
            "abxd",
        ),
    ];
    assert_amended(&rt, rt.alloc(), &rows);
}

#[test]
fn elements_are_nested(rt: HostRuntime) {
    let rows = [
        // Each is amended, and each end tag closes its own.
        (
            "<b>1<b>2</b>3</b>4</b>",
            "b",
            Call::Append(Text("x")),
            Call::Nothing,
            "<b>1<b>2x</b>3x</b>4</b>",
        ),
        (
            "<b>1<b>2</b>3</b>4",
            "b",
            Call::Name("i"),
            Call::Nothing,
            "<i>1<i>2</i>3</i>4",
        ),
        // What is dropped is not asked, and an end tag in it closes nothing outside.
        (
            "<p>1<p>2</p>3</p>4",
            "p",
            Call::Inner(Text("x")),
            Call::Nothing,
            "<p>x</p>4",
        ),
        (
            "<p>1</i><br><p>2</p></p>4",
            "p",
            Call::Remove,
            Call::Nothing,
            "4",
        ),
        // Other elements in it change nothing.
        (
            "<p><b><i>1</b></i></p>2",
            "p",
            Call::After(Text("x")),
            Call::Nothing,
            "<p><b><i>1</b></i></p>x2",
        ),
        // One that is not closed has no end.
        (
            "<p>1<p>2</p>3",
            "p",
            Call::Append(Text("x")),
            Call::Nothing,
            "<p>1<p>2x</p>3",
        ),
        ("a<p>1", "p", Call::Remove, Call::After(Text("x")), "a"),
        ("a<p>1", "p", Call::Unwrap, Call::Before(Text("x")), "ax1"),
    ];
    assert_amended(&rt, rt.alloc(), &rows);
}

#[test]
fn comments_are_amended(rt: HostRuntime) {
    let rows = [
        (OtherCall::Keep, "a<!--b-->c<!d>"),
        (OtherCall::Before(Text("<")), "a&#60;<!--b-->c&#60;<!d>"),
        (OtherCall::After(Html("<hr>")), "a<!--b--><hr>c<!d><hr>"),
        (OtherCall::Instead(Text("x")), "axcx"),
        (OtherCall::Drop, "ac"),
    ];
    for (comments, wanted) in rows {
        let calls = Calls {
            name: "",
            first: Call::Nothing,
            second: Call::Nothing,
            comments,
        };
        assert!(rt;
            is_amended(&rt, rt.alloc(), "a<!--b-->c<!d>", calls, wanted),
            "to {wanted}"
        );
    }
}

#[test]
fn links_are_not_followed(rt: HostRuntime) {
    let references = standard_references(rt.alloc()).expect(&rt, "memory");
    let page = amend_text(rt.alloc(), "<A  HREF=x>y</A > <b>z</b>", Links, &references);
    let wanted = "<a href=\"x\" rel=\"nofollow\">y</A > <b>z</b>";
    assert!(rt; page.is_ok_and(|page| page.as_str() == wanted));
}
