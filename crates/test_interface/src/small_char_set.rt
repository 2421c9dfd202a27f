use markup5ever::small_char_set::SmallCharSet;
use std::alloc::Global;
use std::process::Abort;

#[test]
fn a_run_ends_before_the_first_member(rt: HostRuntime) {
    let few = SmallCharSet::of(b"\0\n\r&<");
    let many = SmallCharSet::of(b"\0\n\r&<=>\"'/");
    let none = SmallCharSet::of(b"");
    let mut text = String::new(rt.alloc());
    for _ in 0..50u8 {
        let end = text.len();
        let mut whole = text.clone().expect(&rt, "memory");
        assert_eq!(rt; few.nonmember_prefix_len(&whole), end);
        let tail = "<and a tail that is longer than one step &";
        whole.push_str(tail).expect(&rt, "memory");
        assert_eq!(rt; few.nonmember_prefix_len(&whole), end);
        assert_eq!(rt; many.nonmember_prefix_len(&whole), end);
        assert_eq!(rt; none.nonmember_prefix_len(&whole), whole.len());
        text.push_str("aé").expect(&rt, "memory");
    }
}

// That the first member of a set ends the run that a text is, and the text after it changes nothing. The other set
// has no member.
fn check_member(
    rt: &impl Abort,
    ends: &SmallCharSet,
    none: &SmallCharSet,
    mut whole: String,
    member: &str,
    other: &str,
) {
    let end = whole.len();
    assert_eq!(rt; ends.nonmember_prefix_len(&whole), end);
    whole.push_str(member).expect(rt, "memory");
    assert_eq!(rt; ends.nonmember_prefix_len(&whole), end);
    whole.push_str(other).expect(rt, "memory");
    whole
        .push_str("?\0 and a tail of one more block")
        .expect(rt, "memory");
    assert_eq!(rt; ends.nonmember_prefix_len(&whole), end);
    assert_eq!(rt; none.nonmember_prefix_len(&whole), whole.len());
}

// The first and the last character that a set can have, after and before characters that are in none: those 64 above
// them, those with the same lowest bits, and some of two, three and four bytes.
#[test]
fn a_member_is_found_at_each_place(rt: HostRuntime) {
    let ends = SmallCharSet::of(b"\0?");
    let none = SmallCharSet::of(b"");
    for &other in &[
        "a",
        "@",
        "\u{7f}",
        "\u{80}",
        "\u{bf}",
        "é",
        "\u{800}",
        "€",
        "\u{ffff}",
        "\u{10000}",
        "😀",
    ] {
        let mut text = String::new(rt.alloc());
        for _ in 0..40u8 {
            for &member in &["\0", "?"] {
                let whole = text.clone().expect(&rt, "memory");
                check_member(&rt, &ends, &none, whole, member, other);
            }
            text.push_str(other).expect(&rt, "memory");
        }
    }
}

// Each character of one or two bytes up to 255, in texts of one to three blocks of it.
fn check_characters(rt: &impl Abort, alloc: Global, set: &SmallCharSet) {
    for code in 0..=255u8 {
        let c = char::from(code);
        let mut text = String::new(alloc);
        for _ in 0..40u8 {
            text.push(c).expect(rt, "memory");
            let run = if set.contains(c) { 0 } else { text.len() };
            assert_eq!(rt; set.nonmember_prefix_len(&text), run);
        }
    }
}

#[test]
fn a_text_of_one_character_is_a_run_or_begins_with_a_member(rt: HostRuntime) {
    check_characters(&rt, rt.alloc(), &SmallCharSet::of(b"\0?"));
    check_characters(&rt, rt.alloc(), &SmallCharSet::of(b"\0\n\r&<=>\"'/"));
    let set = SmallCharSet::of(b"\x01\x08\x09\x10\x1f !#'(7;");
    check_characters(&rt, rt.alloc(), &set);
}
