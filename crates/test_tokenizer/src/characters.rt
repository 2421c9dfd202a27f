//! Kinds of characters.
use html5partial::characters::lower_ascii_letter;

#[test]
fn lowers_ascii_letters_alone(rt: HostRuntime) {
    let cases = [
        ('a', Some('a')),
        ('A', Some('a')),
        ('z', Some('z')),
        ('Z', Some('z')),
        ('!', None),
        ('@', None),
        ('[', None),
        ('`', None),
        ('{', None),
        ('\u{a66e}', None),
    ];
    for (c, letter) in cases {
        assert_eq!(rt; lower_ascii_letter(c), letter);
    }
}
