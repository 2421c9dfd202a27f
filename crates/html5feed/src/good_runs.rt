//! Runs that are read where errors are exact: their characters are of ASCII, and none is bad.
ghost use Rattle.std.specs.Prelude.{◌≡◌, ◌<◌, false, true, All, length, take};
ghost use Rattle.std.specs.Str.{chars};
ghost use Rattle.html5reading.specs.Characters.{is_bad_character};
ghost use Rattle.html5partial.specs.CurrentTag.{opened_of};
ghost use Rattle.html5partial.specs.Runs.{is_unquoted};
ghost use Rattle.markup5ever.specs.SmallCharSet.{BeginsOutside, IsMember};

use html5ever_interface::states::{AttrValueKind, State};
use html5partial::message::is_bad;
use html5partial::opened::Opened;
use markup5ever::small_char_set::SmallCharSet;
use std::alloc::Allocator;

/// Whether a value without quotes is open, in which odd characters are errors.
#[inline(always)]
pub fn is_unquoted<A: Allocator>(at: &Opened<A>) -> bool
    ensures { result ≡ is_unquoted (opened_of at.now) }
{
    matches!(at.state, State::AttributeValue(AttrValueKind::Unquoted))
}

// Whether a byte is a character of ASCII that is neither bad nor in the set.
#[inline(always)]
fn goes_on(ends: SmallCharSet, byte: u8) -> bool
    ensures ascii { result ≡ true → byte < 128 }
    ensures good { result ≡ true → is_bad_character byte ≡ false }
    ensures outside { result ≡ true → ¬ IsMember ends byte }
{
    let c = char::from(byte);
    byte.is_ascii() && !is_bad(c) && !ends.contains(c)
}

/// How many bytes the good characters of ASCII outside the set take with which the text begins.
pub fn good_run_len(ends: SmallCharSet, text: &str) -> usize
    ensures outside { BeginsOutside ends text.now result }
    ensures good { All (λ c. is_bad_character c ≡ false) (chars (take result text.now)) }
{
    let bytes = text.as_bytes();
    for at in 0..bytes.len() {
        if !goes_on(ends, bytes[at]) {
            return at;
        }
    }
    bytes.len()
}
