//! The calls of the tokenizer.
ghost use Rattle.std.specs.Prelude.{◌≡◌, None, option_map};
ghost use Rattle.html5handle.specs.Calls.{NewSays, Feeds, Inserts, PageRestarts, RepliesTo, TellsForeign, Ends, Takes, error_place, over_in};
ghost use Rattle.html5handle.specs.Encodings.{NamesEncoding, SetsEncoding, encoding_in};
ghost use Rattle.html5handle.specs.PlacedCalls.{PlacedEnds, PlacedFeeds, PlacedRestarts, PlacedTakes, placed_limited};
ghost use Rattle.html5handle.specs.Slots.{cleaner_of, limited, placed_of, policy_of, session_of, status_where_open};

use crate::handle::Handle;
use crate::opening::slot_of;
use crate::options::Options;
use crate::status;
use std::alloc::Global;

/// Opens a handle at the start of a page, by these options and the standard's named references, after a
/// start tag of a name, if it has bytes. What the handle held before is freed.
pub fn new(alloc: Global, h: &mut Handle, last_start_tag: &[u8], options: &Options) -> u32
    ensures { NewSays h.new.owned.value last_start_tag.now options.now result }
{
    free(alloc, h);
    match slot_of(alloc, last_start_tag, options) {
        Ok(slot) => {
            h.put(slot);
            status::DONE
        }
        Err(error) => error.status(),
    }
}

/// Begins another page in an open handle, by these options and after a start tag of a name, as `new` does. It
/// keeps the handle's table of named references, limit and encoding, so the table is not made anew. Records that were
/// not taken are gone. A refusal changes nothing. A page with places goes on with places: options that ask for the
/// other kind are refused.
pub fn restart(alloc: Global, h: &mut Handle, last_start_tag: &[u8], options: &Options) -> u32
    ensures restarts { placed_of h.old.owned.value ≡ None
        → PageRestarts (session_of h.old.owned.value) (session_of h.new.owned.value) last_start_tag.now options.now result }
    ensures placed { PlacedRestarts (placed_of h.old.owned.value) (placed_of h.new.owned.value)
        last_start_tag.now options.now result }
    ensures other { cleaner_of h.new.owned.value ≡ cleaner_of h.old.owned.value }
    ensures policy { policy_of h.new.owned.value ≡ policy_of h.old.owned.value }
{
    let Some(mut slot) = h.take(alloc) else {
        return status::CLOSED;
    };
    let status = slot.restart(alloc, last_start_tag, options);
    h.put(slot);
    status
}

/// Takes a piece of the page, cut anywhere, and reads on, up to a pause. What is left of it is kept:
/// the next feed goes on with it, also one of no bytes. Where bytes of it are not UTF-8, those before them are taken
/// and read, and then the answer is `NOT_UTF8`. A pause comes before that: then no feed takes anything until it was
/// answered.
pub fn feed(alloc: Global, h: &mut Handle, bytes: &[u8]) -> u32
    ensures feeds { placed_of h.old.owned.value ≡ None
        → Feeds (session_of h.old.owned.value) (session_of h.new.owned.value) bytes.now result }
    ensures placed { PlacedFeeds (placed_of h.old.owned.value) (placed_of h.new.owned.value) bytes.now result }
    ensures other { cleaner_of h.new.owned.value ≡ cleaner_of h.old.owned.value }
    ensures policy { policy_of h.new.owned.value ≡ policy_of h.old.owned.value }
{
    let Some(mut slot) = h.take(alloc) else {
        return status::CLOSED;
    };
    let status = slot.feed(bytes);
    h.put(slot);
    status
}

/// Puts a text in front of the waiting text. It is read at the next feed. When nothing more is read, it answers `OVER`,
/// whatever the bytes.
pub fn insert(alloc: Global, h: &mut Handle, text: &[u8]) -> u32
    ensures inserts { Inserts (session_of h.old.owned.value) (session_of h.new.owned.value) text.now result }
    ensures other { cleaner_of h.new.owned.value ≡ cleaner_of h.old.owned.value }
    ensures placed { placed_of h.new.owned.value ≡ placed_of h.old.owned.value }
    ensures policy { policy_of h.new.owned.value ≡ policy_of h.old.owned.value }
{
    let Some(mut slot) = h.take(alloc) else {
        return status::CLOSED;
    };
    let status = slot.insert(text);
    h.put(slot);
    status
}

/// Reads the rest in the state that the number names, as a tree builder asks after a start tag at which it paused: 0
/// data, 1 plain text, 2 RCDATA, 3 RAWTEXT, 4 script data, 5 a CDATA section. When nothing more is read, it answers
/// `OVER`, whatever the number, and within a tag or another item `ITEM_OPEN`.
pub fn reply(alloc: Global, h: &mut Handle, state: u32) -> u32
    ensures replies { RepliesTo (session_of h.old.owned.value) (session_of h.new.owned.value) state result }
    ensures other { cleaner_of h.new.owned.value ≡ cleaner_of h.old.owned.value }
    ensures placed { placed_of h.new.owned.value ≡ placed_of h.old.owned.value }
    ensures policy { policy_of h.new.owned.value ≡ policy_of h.old.owned.value }
{
    let Some(mut slot) = h.take(alloc) else {
        return status::CLOSED;
    };
    let status = slot.reply(state);
    h.put(slot);
    status
}

/// Sets whether the current node is outside the HTML namespace, so that `<![CDATA[` begins a section from here on.
pub fn set_foreign(alloc: Global, h: &mut Handle, foreign: bool) -> u32
    ensures sets { TellsForeign (session_of h.old.owned.value) (session_of h.new.owned.value) foreign result }
    ensures other { cleaner_of h.new.owned.value ≡ cleaner_of h.old.owned.value }
    ensures placed { placed_of h.new.owned.value ≡ placed_of h.old.owned.value }
    ensures policy { policy_of h.new.owned.value ≡ policy_of h.old.owned.value }
{
    let Some(mut slot) = h.take(alloc) else {
        return status::CLOSED;
    };
    let status = slot.set_foreign(foreign);
    h.put(slot);
    status
}

/// Sets how many bytes a handle of either kind may hold. The bytes fed since all was read and nothing was open count,
/// and those that wait to be taken. A piece that would go past that is answered `LIMIT`, and not taken.
pub fn set_limit(alloc: Global, h: &mut Handle, limit: u64) -> u32
    ensures session { session_of h.new.owned.value ≡ option_map (limited limit) (session_of h.old.owned.value) }
    ensures cleaner { cleaner_of h.new.owned.value ≡ option_map (limited limit) (cleaner_of h.old.owned.value) }
    ensures placed { placed_of h.new.owned.value ≡ option_map (placed_limited limit) (placed_of h.old.owned.value) }
    ensures status { result ≡ status_where_open (session_of h.old.owned.value) (cleaner_of h.old.owned.value)
        (placed_of h.old.owned.value) }
    ensures policy { policy_of h.new.owned.value ≡ policy_of h.old.owned.value }
{
    let Some(mut slot) = h.take(alloc) else {
        return status::CLOSED;
    };
    let status = slot.set_limit(limit);
    h.put(slot);
    status
}

/// Reads the page in the encoding that it is in, from the first byte on. The label names the encoding that is declared
/// for it, as by a header of the transport; a label of no bytes declares none. It is determined as by a browser: by a
/// byte order mark; else by the declared one; else by a `<meta charset=..>` or an XML declaration in the first bytes.
/// Else it is UTF-8 where these are UTF-8, or windows-1252. Then no bytes are `NOT_UTF8`: those that are invalid in the
/// encoding give U+FFFD. After bytes were fed it answers `BEGUN`, and `BAD_OPTION` if no encoding has the label.
pub fn set_encoding(alloc: Global, h: &mut Handle, label: &[u8]) -> u32
    ensures session { SetsEncoding (session_of h.old.owned.value) (session_of h.new.owned.value) label.now result }
    ensures cleaner { SetsEncoding (cleaner_of h.old.owned.value) (cleaner_of h.new.owned.value) label.now result }
    ensures placed { placed_of h.new.owned.value ≡ placed_of h.old.owned.value }
    ensures closed { session_of h.old.owned.value ≡ None → cleaner_of h.old.owned.value ≡ None → result ≡ 8 }
    ensures policy { policy_of h.new.owned.value ≡ policy_of h.old.owned.value }
{
    let Some(mut slot) = h.take(alloc) else {
        return status::CLOSED;
    };
    let status = slot.set_encoding(alloc, label);
    h.put(slot);
    status
}

/// The name of the encoding in which a page is read by `set_encoding`, once it is known: the first bytes of the
/// page tell, or its end. It copies as much of the name as there is room for, and answers how many bytes that is: 0 if
/// it isn't known.
pub fn encoding(alloc: Global, h: &mut Handle, out: &mut [u8]) -> usize
    ensures name { NamesEncoding (encoding_in h.old.owned.value) out.old out.new result }
    ensures kept { h.new.owned.value ≡ h.old.owned.value }
{
    let Some(slot) = h.take(alloc) else {
        return 0;
    };
    let count = slot.name_encoding(out);
    h.put(slot);
    count
}

/// Ends the page. Where its bytes are decoded (`set_encoding`), the rest of its text is read first, up to a pause. Then
/// that is answered as by a feed, and the page has not ended: the next feed goes on, and then it is ended again.
pub fn end(alloc: Global, h: &mut Handle) -> u32
    ensures ends { placed_of h.old.owned.value ≡ None
        → Ends (session_of h.old.owned.value) (session_of h.new.owned.value) result }
    ensures placed { PlacedEnds (placed_of h.old.owned.value) (placed_of h.new.owned.value) result }
    ensures other { cleaner_of h.new.owned.value ≡ cleaner_of h.old.owned.value }
    ensures policy { policy_of h.new.owned.value ≡ policy_of h.old.owned.value }
{
    let Some(mut slot) = h.take(alloc) else {
        return status::CLOSED;
    };
    let status = slot.end();
    h.put(slot);
    status
}

/// Takes the next bytes of the records, as many as wait and as there is room for, and says how many: 0 if none wait. A
/// record may be cut in two: what is left of it comes first at the next call.
pub fn take(alloc: Global, h: &mut Handle, out: &mut [u8]) -> usize
    ensures takes { placed_of h.old.owned.value ≡ None
        → Takes (session_of h.old.owned.value) (session_of h.new.owned.value) out.old out.new result }
    ensures placed { PlacedTakes (placed_of h.old.owned.value) (placed_of h.new.owned.value) out.old out.new result }
    ensures other { cleaner_of h.new.owned.value ≡ cleaner_of h.old.owned.value }
    ensures policy { policy_of h.new.owned.value ≡ policy_of h.old.owned.value }
{
    let Some(mut slot) = h.take(alloc) else {
        return 0;
    };
    let count = slot.take(out);
    h.put(slot);
    count
}

/// The place of the first byte that is not UTF-8, after `NOT_UTF8` was answered, counted from the first byte that was
/// fed. All bytes before it were taken, and none from it on.
pub fn error_at(alloc: Global, h: &mut Handle) -> u64
    ensures place { result ≡ error_place (session_of h.old.owned.value) (placed_of h.old.owned.value) }
    ensures kept { h.new.owned.value ≡ h.old.owned.value }
{
    let Some(slot) = h.take(alloc) else {
        return 0;
    };
    let place = slot.error_at();
    h.put(slot);
    place
}

/// Whether nothing more is read: the page has ended, or a call failed for good. Then `feed`, `insert` and
/// `end` answer `OVER`. It is false where the handle is closed.
pub fn is_over(alloc: Global, h: &mut Handle) -> bool
    ensures over { result ≡ over_in (session_of h.old.owned.value) (placed_of h.old.owned.value) }
    ensures kept { h.new.owned.value ≡ h.old.owned.value }
{
    let Some(slot) = h.take(alloc) else {
        return false;
    };
    let is_over = slot.is_over();
    h.put(slot);
    is_over
}

/// Gives the handle's memory back, whatever it is of, and closes it. It may be opened again.
pub fn free(alloc: Global, h: &mut Handle)
    ensures { h.new.owned.value ≡ None }
{
    drop(h.take(alloc));
}
