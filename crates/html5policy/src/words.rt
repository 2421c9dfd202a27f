//! The words of a line.
ghost use Rattle.std.specs.Prelude.{◌≡◌, ◌<◌, [], ◌∷◌, MatchOption, length};
ghost use Rattle.html5policy.specs.Text.{words};

/// The first word of a line, and the text after it.
pub fn next_word(line: &str) -> Option<(&str, &str)>
    ensures { MatchOption result (words line.now ≡ [])
        (λ found. (words line.now ≡ found.0.now ∷ words found.1.now) × (length found.1.now < length line.now)) }
{
    let mut left = line;
    while let Some((word, rest)) = left.split_once([' ', '\t', '\r']) {
        if !word.is_empty() {
            return Some((word, rest));
        }
        left = rest;
    }
    if left.is_empty() {
        return None;
    }
    Some((left, ""))
}
