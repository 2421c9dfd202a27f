//! Plain ASCII, which each encoding that has ASCII reads alike.
ghost use Rattle.std.specs.Prelude.{◌≡◌, ◌≤◌, length};
ghost use Rattle.std.specs.List.{list_all, prefix_len};
ghost use Rattle.html5encodings.specs.Iso2022Jp.{is_plain};

fn is_plain(byte: u8) -> bool
    ensures { result ≡ is_plain byte }
{
    byte < 0x80 && !(byte == 0x0E || byte == 0x0F || byte == 0x1B)
}

/// Whether all bytes are plain.
pub fn are_plain(bytes: &[u8]) -> bool
    ensures { result ≡ list_all is_plain bytes.now }
{
    bytes.iter().all(|byte| is_plain(*byte))
}

/// How many bytes at the front are plain.
pub fn plain_len(mut bytes: &[u8]) -> usize
    ensures { result ≡ prefix_len is_plain bytes.entry.now }
{
    let mut count = 0;
    while let [first, rest @ ..] = bytes {
        if !is_plain(*first) {
            return count;
        }
        count += 1;
        bytes = rest;
    }
    count
}
