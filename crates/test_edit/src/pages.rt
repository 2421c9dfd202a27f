//! Pages that are edited.
use html5edit::{Changes, Editor};
use html5entities::standard_references;
use html5extract::bases::bases_at;
use html5programs::{Choice, words_of};
use html5splice::splice_text;
use std::alloc::Global;

const fn option(name: &'static str) -> Choice<'static> {
    Choice {
        name,
        takes_word: true,
    }
}

const NOOPENER: Choice<'static> = Choice {
    name: "--noopener",
    takes_word: false,
};

// The words of a line.
fn words_in(alloc: Global, line: &str) -> Option<Vec<String>> {
    let mut words = Vec::new(alloc);
    for word in line.split(' ') {
        words.push(String::from_str(alloc, word).ok()?).ok()?;
    }
    Some(words)
}

// A page as it is edited by these words.
fn edited(alloc: Global, line: &str, page: &str) -> Option<String> {
    let choices = [
        option("--set"),
        option("--remove"),
        option("--drop"),
        option("--absolute"),
        NOOPENER,
    ];
    let words = words_in(alloc, line)?;
    let asked = words_of(alloc, &words, &choices).ok()?;
    let changes = Changes::of_words(alloc, &asked).ok()?;
    let bases = bases_at(alloc, asked.value("--absolute")).ok()?;
    let references = standard_references(alloc).ok()?;
    let editor = Editor::new(alloc, &changes, &bases).ok()?;
    splice_text(alloc, page, editor, &references).ok()
}

// Whether a page is edited to this.
fn is_edited(alloc: Global, line: &str, page: &str, wanted: &str) -> bool {
    edited(alloc, line, page).is_some_and(|text| text.as_str() == wanted)
}

#[test]
fn attributes_are_set_and_removed(rt: HostRuntime) {
    let rows = [
        (
            "--set a.href=/x",
            "<A class=c>b</A >",
            "<a class=\"c\" href=\"/x\">b</A >",
        ),
        ("--set a.href=/x", "<a href='/x' >b", "<a href='/x' >b"),
        ("--set a.href=", "<a href=b>", "<a href=\"\">"),
        ("--set a.b=c=d", "<a>", "<a b=\"c=d\">"),
        ("--set a.b=\"<&>", "<a/>", "<a b=\"&#34;&#60;&#38;&#62;\"/>"),
        ("--set a.b=1 --set a.b=2", "<a>", "<a b=\"2\">"),
        ("--set a.b=1 --remove a.b", "<a c b>", "<a c=\"\">"),
        ("--remove a.b", "<a  c>", "<a  c>"),
        ("--remove a.b", "<a b=1 c='2' b=3>", "<a c=\"2\">"),
        (
            "--set a.b=1",
            "<script><a></script><p a></a>",
            "<script><a></script><p a></a>",
        ),
        ("--set a.b=1", "</a>", "</a>"),
    ];
    for (line, page, wanted) in rows {
        assert!(rt;
            is_edited(rt.alloc(), line, page, wanted),
            "of {line} {page}"
        );
    }
}

#[test]
fn links_that_open_windows_are_closed_to_them(rt: HostRuntime) {
    let rows = [
        ("<a target=b>", "<a target=\"b\" rel=\"noopener\">"),
        (
            "<area target rel=c>",
            "<area target=\"\" rel=\"c noopener\">",
        ),
        (
            "<form target=b rel='c noopener d'>",
            "<form target=b rel='c noopener d'>",
        ),
        (
            "<a target=b rel=noopeners>",
            "<a target=\"b\" rel=\"noopeners noopener\">",
        ),
        (
            "<a target=b rel=xnoopener>",
            "<a target=\"b\" rel=\"xnoopener noopener\">",
        ),
        ("<a rel=b><p target=c>", "<a rel=b><p target=c>"),
    ];
    for (page, wanted) in rows {
        assert!(rt;
            is_edited(rt.alloc(), "--noopener", page, wanted),
            "of {page}"
        );
    }
}

#[test]
fn elements_are_dropped(rt: HostRuntime) {
    let rows = [
        ("--drop script", "a<script>b<i></script >c", "ac"),
        ("--drop div", "<DIV><div>a</div>b</div>c</div>d", "cd"),
        ("--drop br", "a<br>b<BR/>c</br>d", "abcd"),
        ("--drop i", "a<i>b", "a"),
        ("--drop i", "<!-- <i> -->", "<!-- <i> -->"),
    ];
    for (line, page, wanted) in rows {
        assert!(rt;
            is_edited(rt.alloc(), line, page, wanted),
            "of {line} {page}"
        );
    }
}

#[test]
fn addresses_are_made_absolute(rt: HostRuntime) {
    let rows = [
        (
            "--absolute http://e.org/a/",
            "<a href=b>",
            "<a href=\"http://e.org/a/b\">",
        ),
        (
            "--absolute http://e.org/a/",
            "<img src='/c'>",
            "<img src=\"http://e.org/c\">",
        ),
        (
            "--absolute http://e.org/a/",
            "<a href=http://e.org/>",
            "<a href=http://e.org/>",
        ),
        (
            "--absolute http://e.org/a/",
            "<base href=/d/><a href=b>",
            "<base href=/d/><a href=\"http://e.org/d/b\">",
        ),
        (
            "--absolute http://e.org/",
            "<p href=b><script src></script>",
            "<p href=b><script src></script>",
        ),
    ];
    for (line, page, wanted) in rows {
        assert!(rt;
            is_edited(rt.alloc(), line, page, wanted),
            "of {line} {page}"
        );
    }
}

#[test]
fn wrong_words_are_no_changes(rt: HostRuntime) {
    let lines = [
        "--set a",
        "--set a.b",
        "--set A.b=c",
        "--set .b=c",
        "--set a.=c",
        "--remove a",
        "--drop A",
    ];
    for line in lines {
        assert!(rt; edited(rt.alloc(), line, "").is_none(), "of {line}");
    }
}
