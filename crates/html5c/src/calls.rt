//! The calls of the tokenizer.
ghost use Rattle.std.specs.Prelude.{◌≡◌, None, option_map};
ghost use Rattle.html5handle.specs.Calls.{NewSays, Feeds, Inserts, PageRestarts, RepliesTo, TellsForeign, Ends, Takes, error_place, over_in};
ghost use Rattle.html5handle.specs.Encodings.{NamesEncoding, SetsEncoding, encoding_in};
ghost use Rattle.html5handle.specs.PlacedCalls.{PlacedEnds, PlacedFeeds, PlacedRestarts, PlacedTakes, placed_limited};
ghost use Rattle.html5handle.specs.Slots.{cleaner_of, limited, placed_of, policy_of, session_of, status_where_open};

use html5handle::{Handle, Options};
use std::alloc::Global;

/// Opens a handle at the start of a page, by these options and the standard's named references, after a start tag of
/// a name, if it has bytes.
#[unsafe(no_mangle)]
pub extern "C" fn html5_new(
    alloc: Global,
    h: &mut Handle,
    last_start_tag: &[u8],
    options: &Options,
) -> u32
    ensures { NewSays h.new.owned.value last_start_tag.now options.now result }
{
    html5handle::new(alloc, h, last_start_tag, options)
}

/// Begins another page in an open handle, by these options and after a start tag of a name, as `html5_new` does.
#[unsafe(no_mangle)]
pub extern "C" fn html5_restart(
    alloc: Global,
    h: &mut Handle,
    last_start_tag: &[u8],
    options: &Options,
) -> u32
    ensures restarts { placed_of h.old.owned.value ≡ None
        → PageRestarts (session_of h.old.owned.value) (session_of h.new.owned.value) last_start_tag.now options.now result }
    ensures placed { PlacedRestarts (placed_of h.old.owned.value) (placed_of h.new.owned.value)
        last_start_tag.now options.now result }
    ensures other { cleaner_of h.new.owned.value ≡ cleaner_of h.old.owned.value }
    ensures policy { policy_of h.new.owned.value ≡ policy_of h.old.owned.value }
{
    html5handle::restart(alloc, h, last_start_tag, options)
}

/// Takes a piece of the page, cut anywhere, and reads on, up to a pause.
#[unsafe(no_mangle)]
pub extern "C" fn html5_feed(alloc: Global, h: &mut Handle, bytes: &[u8]) -> u32
    ensures feeds { placed_of h.old.owned.value ≡ None
        → Feeds (session_of h.old.owned.value) (session_of h.new.owned.value) bytes.now result }
    ensures placed { PlacedFeeds (placed_of h.old.owned.value) (placed_of h.new.owned.value) bytes.now result }
    ensures other { cleaner_of h.new.owned.value ≡ cleaner_of h.old.owned.value }
    ensures policy { policy_of h.new.owned.value ≡ policy_of h.old.owned.value }
{
    html5handle::feed(alloc, h, bytes)
}

/// Puts a text in front of the waiting text.
#[unsafe(no_mangle)]
pub extern "C" fn html5_insert(alloc: Global, h: &mut Handle, text: &[u8]) -> u32
    ensures inserts { Inserts (session_of h.old.owned.value) (session_of h.new.owned.value) text.now result }
    ensures other { cleaner_of h.new.owned.value ≡ cleaner_of h.old.owned.value }
    ensures placed { placed_of h.new.owned.value ≡ placed_of h.old.owned.value }
    ensures policy { policy_of h.new.owned.value ≡ policy_of h.old.owned.value }
{
    html5handle::insert(alloc, h, text)
}

/// Reads the rest in the state that the number names, as a tree builder asks after a start tag at which it paused: 0
/// data, 1 plain text, 2 RCDATA, 3 RAWTEXT, 4 script data, 5 a CDATA section.
#[unsafe(no_mangle)]
pub extern "C" fn html5_reply(alloc: Global, h: &mut Handle, state: u32) -> u32
    ensures replies { RepliesTo (session_of h.old.owned.value) (session_of h.new.owned.value) state result }
    ensures other { cleaner_of h.new.owned.value ≡ cleaner_of h.old.owned.value }
    ensures placed { placed_of h.new.owned.value ≡ placed_of h.old.owned.value }
    ensures policy { policy_of h.new.owned.value ≡ policy_of h.old.owned.value }
{
    html5handle::reply(alloc, h, state)
}

/// Sets whether the current node is outside the HTML namespace, so that `<![CDATA[` begins a section from here on.
#[unsafe(no_mangle)]
pub extern "C" fn html5_set_foreign(alloc: Global, h: &mut Handle, foreign: bool) -> u32
    ensures sets { TellsForeign (session_of h.old.owned.value) (session_of h.new.owned.value) foreign result }
    ensures other { cleaner_of h.new.owned.value ≡ cleaner_of h.old.owned.value }
    ensures placed { placed_of h.new.owned.value ≡ placed_of h.old.owned.value }
    ensures policy { policy_of h.new.owned.value ≡ policy_of h.old.owned.value }
{
    html5handle::set_foreign(alloc, h, foreign)
}

/// Sets how many bytes a handle of either kind may hold.
#[unsafe(no_mangle)]
pub extern "C" fn html5_set_limit(alloc: Global, h: &mut Handle, limit: u64) -> u32
    ensures session { session_of h.new.owned.value ≡ option_map (limited limit) (session_of h.old.owned.value) }
    ensures cleaner { cleaner_of h.new.owned.value ≡ option_map (limited limit) (cleaner_of h.old.owned.value) }
    ensures placed { placed_of h.new.owned.value ≡ option_map (placed_limited limit) (placed_of h.old.owned.value) }
    ensures status { result ≡ status_where_open (session_of h.old.owned.value) (cleaner_of h.old.owned.value)
        (placed_of h.old.owned.value) }
    ensures policy { policy_of h.new.owned.value ≡ policy_of h.old.owned.value }
{
    html5handle::set_limit(alloc, h, limit)
}

/// Reads the page in the encoding that it is in, from the first byte on.
#[unsafe(no_mangle)]
pub extern "C" fn html5_set_encoding(alloc: Global, h: &mut Handle, label: &[u8]) -> u32
    ensures session { SetsEncoding (session_of h.old.owned.value) (session_of h.new.owned.value) label.now result }
    ensures cleaner { SetsEncoding (cleaner_of h.old.owned.value) (cleaner_of h.new.owned.value) label.now result }
    ensures placed { placed_of h.new.owned.value ≡ placed_of h.old.owned.value }
    ensures closed { session_of h.old.owned.value ≡ None → cleaner_of h.old.owned.value ≡ None → result ≡ 8 }
    ensures policy { policy_of h.new.owned.value ≡ policy_of h.old.owned.value }
{
    html5handle::set_encoding(alloc, h, label)
}

/// The name of the encoding in which a page is read by `html5_set_encoding`, once it is known: the first bytes of the
/// page tell, or its end.
#[unsafe(no_mangle)]
pub extern "C" fn html5_encoding(alloc: Global, h: &mut Handle, out: &mut [u8]) -> usize
    ensures name { NamesEncoding (encoding_in h.old.owned.value) out.old out.new result }
    ensures kept { h.new.owned.value ≡ h.old.owned.value }
{
    html5handle::encoding(alloc, h, out)
}

/// Ends the page.
#[unsafe(no_mangle)]
pub extern "C" fn html5_end(alloc: Global, h: &mut Handle) -> u32
    ensures ends { placed_of h.old.owned.value ≡ None
        → Ends (session_of h.old.owned.value) (session_of h.new.owned.value) result }
    ensures placed { PlacedEnds (placed_of h.old.owned.value) (placed_of h.new.owned.value) result }
    ensures other { cleaner_of h.new.owned.value ≡ cleaner_of h.old.owned.value }
    ensures policy { policy_of h.new.owned.value ≡ policy_of h.old.owned.value }
{
    html5handle::end(alloc, h)
}

/// Takes the next bytes of the records, as many as wait and as there is room for, and says how many: 0 if none wait.
#[unsafe(no_mangle)]
pub extern "C" fn html5_take(alloc: Global, h: &mut Handle, out: &mut [u8]) -> usize
    ensures takes { placed_of h.old.owned.value ≡ None
        → Takes (session_of h.old.owned.value) (session_of h.new.owned.value) out.old out.new result }
    ensures placed { PlacedTakes (placed_of h.old.owned.value) (placed_of h.new.owned.value) out.old out.new result }
    ensures other { cleaner_of h.new.owned.value ≡ cleaner_of h.old.owned.value }
    ensures policy { policy_of h.new.owned.value ≡ policy_of h.old.owned.value }
{
    html5handle::take(alloc, h, out)
}

/// The place of the first byte that is not UTF-8, after `NOT_UTF8` was answered, counted from the first byte that was
/// fed.
#[unsafe(no_mangle)]
pub extern "C" fn html5_error_at(alloc: Global, h: &mut Handle) -> u64
    ensures place { result ≡ error_place (session_of h.old.owned.value) (placed_of h.old.owned.value) }
    ensures kept { h.new.owned.value ≡ h.old.owned.value }
{
    html5handle::error_at(alloc, h)
}

/// Whether nothing more is read: the page has ended, or a call failed for good.
#[unsafe(no_mangle)]
pub extern "C" fn html5_is_over(alloc: Global, h: &mut Handle) -> bool
    ensures over { result ≡ over_in (session_of h.old.owned.value) (placed_of h.old.owned.value) }
    ensures kept { h.new.owned.value ≡ h.old.owned.value }
{
    html5handle::is_over(alloc, h)
}

/// Gives the handle's memory back, whatever it is of, and closes it.
#[unsafe(no_mangle)]
pub extern "C" fn html5_free(alloc: Global, h: &mut Handle)
    ensures { h.new.owned.value ≡ None }
{
    html5handle::free(alloc, h);
}
