//! Whether a `rel` has the word `noopener`.
ghost use Rattle.std.specs.Prelude.{◌≡◌, true};
ghost use Rattle.html5edit.specs.Changes.{begins_noopener, ends_word, has_noopener};
ghost use Rattle.html5reading.specs.Characters.{is_white_space};

// Whether a byte stands between words.
#[tactic(auto, unfolding(html5reading::specs::Characters::is_white_space))]
fn is_white_space(byte: u8) -> bool
    ensures { result ≡ is_white_space byte }
{
    matches!(byte, b'\t' | b'\n' | b'\x0C' | b' ')
}

// Whether a word ends before these bytes.
fn ends_word(bytes: &[u8]) -> bool
    ensures { result ≡ ends_word bytes.now }
{
    match bytes {
        [] => true,
        [first, ..] => is_white_space(*first),
    }
}

// Whether bytes begin with the word.
#[tactic(auto, unfolding(crate::specs::Changes::begins_noopener))]
fn begins_noopener(bytes: &[u8]) -> bool
    ensures { result ≡ begins_noopener bytes.now }
{
    bytes.starts_with(b"noopener") && ends_word(&bytes[8..])
}

/// Whether the word stands among those of a `rel`.
#[tactic(auto, unfolding(crate::specs::Changes::has_noopener))]
pub fn has_noopener(rel: &[u8]) -> bool
    ensures { result ≡ has_noopener true rel.now }
{
    let mut begins = true;
    for index in 0..rel.len() {
        if begins && begins_noopener(&rel[index..]) {
            return true;
        }
        begins = is_white_space(rel[index]);
    }
    false
}
