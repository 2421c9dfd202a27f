use html5places::{Position, position_at};
use std::process::Abort;

// Whether a place is on this line, in these columns by characters and by UTF-16 code units.
fn stands_at(text: &str, place: usize, line: usize, column: usize, utf16_column: usize) -> bool {
    let position = Position {
        line,
        column,
        utf16_column,
    };
    position_at(text, place) == Some(position)
}

// That places stand so: the text, the place, its line, its column by characters and by UTF-16 code units.
fn check_rows(rt: &impl Abort, rows: &[(&str, usize, usize, usize, usize)]) {
    for (text, place, line, column, utf16_column) in rows {
        let stands = stands_at(text, *place, *line, *column, *utf16_column);
        assert!(rt; stands, "{place} of {text:?}");
    }
}

#[test]
fn each_character_is_a_column(rt: HostRuntime) {
    let rows = &[
        ("", 0, 1, 1, 1),
        ("<p>", 0, 1, 1, 1),
        ("<p>", 3, 1, 4, 4),
        ("\t<p>", 1, 1, 2, 2),
    ];
    check_rows(&rt, rows);
}

#[test]
fn a_line_ends_at_lf_cr_and_cr_lf(rt: HostRuntime) {
    let rows = &[
        ("a\nb", 1, 1, 2, 2),
        ("a\nb", 2, 2, 1, 1),
        ("a\rb", 2, 2, 1, 1),
        ("a\r\nbc", 4, 2, 2, 2),
        ("\n\r\r\n\n", 5, 5, 1, 1),
    ];
    check_rows(&rt, rows);
}

#[test]
fn a_character_beyond_the_first_plane_is_two_code_units(rt: HostRuntime) {
    let rows = &[
        ("\u{E9}b", 2, 1, 2, 2),
        ("\u{20AC}b", 3, 1, 2, 2),
        ("x\u{1F600}b", 5, 1, 3, 4),
    ];
    check_rows(&rt, rows);
}

#[test]
fn no_place_is_within_a_character_or_past_the_end(rt: HostRuntime) {
    assert!(rt; position_at("a\u{20AC}", 2) == None);
    assert!(rt; position_at("a\u{20AC}", 5) == None);
    assert!(rt; stands_at("a\u{20AC}", 4, 1, 3, 3));
}
