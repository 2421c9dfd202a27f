//! How a text is cut into pieces.
ghost use Rattle.std.specs.Prelude.{◌≡◌, ◌+◌, ◌<◌, ◌≤◌, true, length, take, drop};
ghost use Rattle.std.specs.Str.{IsUtf8};

// How many bytes are looked at in one step.
const BLOCK: usize = 16;

// Whether a character begins at the byte.
#[inline(always)]
fn begins_character(byte: u8) -> bool
    ensures { result ≡ true → 128 ≤ byte → 192 ≤ byte }
{
    (byte < 0x80) | (byte >= 0xC0)
}

// How many characters begin in the 16 bytes from this place on. It looks at each of them, so that the compiler makes it
// one step over all.
#[inline(always)]
fn begun_within(bytes: &[u8], from: usize) -> usize
    requires { from + BLOCK ≤ length bytes.now }
    ensures { result ≤ BLOCK }
{
    let mut begun = 0u8;
    for k in 0..BLOCK {
        begun += u8::from(begins_character(bytes[from + k]));
    }
    usize::from(begun)
}

// The place after `count` characters that begin at this place or after it, or the end.
#[inline(always)]
fn place_after(text: &str, from: usize, count: usize) -> usize
    requires within { from ≤ length text.now }
    requires some { from ≡ 0 → 0 < count }
    ensures within { result ≤ length text.now }
    ensures boundary { IsUtf8 (take result text.now) × IsUtf8 (drop result text.now) }
    ensures some { 0 < length text.now → 0 < result }
{
    let bytes = text.as_bytes();
    let mut left = count;
    for at in from..bytes.len() {
        if begins_character(bytes[at]) {
            if left == 0 {
                return at;
            }
            left -= 1;
        }
    }
    bytes.len()
}

// How many bytes the first `count` characters take, or all if there are fewer.
fn prefix_len(text: &str, count: usize) -> usize
    requires filled { 0 < length text.now }
    requires some { 0 < count }
    ensures within { result ≤ length text.now }
    ensures boundary { IsUtf8 (take result text.now) × IsUtf8 (drop result text.now) }
    ensures some { 0 < result }
{
    let bytes = text.as_bytes();
    // The first byte begins the first character.
    let mut len = 1;
    let mut left = count - 1;
    while BLOCK <= left && BLOCK <= bytes.len() - len {
        left -= begun_within(bytes, len);
        len += BLOCK;
    }
    place_after(text, len, left)
}

// How many bytes are fed at once where the settings give no number of characters. What is read doesn't depend on it.
const PIECE: usize = 4096;

/// How many bytes the first piece of a text takes: of `cut` characters, or at 0 of bytes up to the end of a character.
pub fn piece_len(text: &str, cut: usize) -> usize
    requires { 0 < length text.now }
    ensures within { result ≤ length text.now }
    ensures boundary { IsUtf8 (take result text.now) × IsUtf8 (drop result text.now) }
    ensures some { 0 < result }
{
    if cut == 0 {
        return place_after(text, text.len().min(PIECE), 0);
    }
    prefix_len(text, cut)
}
