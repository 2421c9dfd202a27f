//! The calls of the cleaner. `free` closes its handles too.
ghost use Rattle.std.specs.Prelude.{◌≡◌};
ghost use Rattle.html5handle.specs.CleanerCalls.{NewCleanerSays, Restarts, CleanerFeeds, CleanerEnds, CleanerTakes, cleaner_error_place, cleaner_over_in};
ghost use Rattle.html5handle.specs.Slots.{cleaner_of, placed_of, policy_of, session_of};

use crate::calls::free;
use crate::cleaner_opening::cleaner_slot_of;
use crate::handle::Handle;
use crate::status;
use std::alloc::Global;

/// Opens a handle at the start of a page, which is cleaned by the policy of a text or, if it has no bytes, by the
/// standard one. What the handle held before is freed. `place` is then where the policy has a fault: its line, or the
/// byte that is not UTF-8.
pub fn cleaner_new(alloc: Global, h: &mut Handle, policy: &[u8], place: &mut u64) -> u32
    ensures { NewCleanerSays h.new.owned.value policy.now place.new result }
{
    free(alloc, h);
    match cleaner_slot_of(alloc, policy) {
        Ok(slot) => {
            h.put(slot);
            *place = 0;
            status::DONE
        }
        Err(fault) => {
            *place = fault.place();
            fault.status()
        }
    }
}

/// Begins another page, by the same policy. Kept bytes that were not taken are gone.
pub fn cleaner_restart(alloc: Global, h: &mut Handle) -> u32
    ensures restarts { Restarts (cleaner_of h.old.owned.value) (cleaner_of h.new.owned.value) result }
    ensures other { session_of h.new.owned.value ≡ session_of h.old.owned.value }
    ensures placed { placed_of h.new.owned.value ≡ placed_of h.old.owned.value }
    ensures policy { policy_of h.new.owned.value ≡ policy_of h.old.owned.value }
{
    let Some(mut slot) = h.take(alloc) else {
        return status::CLOSED;
    };
    let status = slot.restart_cleaner();
    h.put(slot);
    status
}

/// Takes a piece of the page, cut anywhere, and reads on.
pub fn cleaner_feed(alloc: Global, h: &mut Handle, bytes: &[u8]) -> u32
    ensures feeds { CleanerFeeds (cleaner_of h.old.owned.value) (cleaner_of h.new.owned.value) bytes.now result }
    ensures other { session_of h.new.owned.value ≡ session_of h.old.owned.value }
    ensures placed { placed_of h.new.owned.value ≡ placed_of h.old.owned.value }
    ensures policy { policy_of h.new.owned.value ≡ policy_of h.old.owned.value }
{
    let Some(mut slot) = h.take(alloc) else {
        return status::CLOSED;
    };
    let status = slot.feed_cleaner(bytes);
    h.put(slot);
    status
}

/// Ends the page. The rest of its kept part can then be taken.
pub fn cleaner_end(alloc: Global, h: &mut Handle) -> u32
    ensures ends { CleanerEnds (cleaner_of h.old.owned.value) (cleaner_of h.new.owned.value) result }
    ensures other { session_of h.new.owned.value ≡ session_of h.old.owned.value }
    ensures placed { placed_of h.new.owned.value ≡ placed_of h.old.owned.value }
    ensures policy { policy_of h.new.owned.value ≡ policy_of h.old.owned.value }
{
    let Some(mut slot) = h.take(alloc) else {
        return status::CLOSED;
    };
    let status = slot.end_cleaner();
    h.put(slot);
    status
}

/// Takes the next bytes of the kept part, as many as wait and as there is room for, and says how many: 0 if none wait.
/// A character may be cut in two: what is left of it comes first at the next call.
pub fn cleaner_take(alloc: Global, h: &mut Handle, out: &mut [u8]) -> usize
    ensures takes { CleanerTakes (cleaner_of h.old.owned.value) (cleaner_of h.new.owned.value) out.old out.new result }
    ensures other { session_of h.new.owned.value ≡ session_of h.old.owned.value }
    ensures placed { placed_of h.new.owned.value ≡ placed_of h.old.owned.value }
    ensures policy { policy_of h.new.owned.value ≡ policy_of h.old.owned.value }
{
    let Some(mut slot) = h.take(alloc) else {
        return 0;
    };
    let count = slot.take_cleaned(out);
    h.put(slot);
    count
}

/// The place of the first byte that is not UTF-8, after a feed answered `NOT_UTF8`, counted from the first byte of the
/// page.
pub fn cleaner_error_at(alloc: Global, h: &mut Handle) -> u64
    ensures place { result ≡ cleaner_error_place (cleaner_of h.old.owned.value) }
    ensures kept { h.new.owned.value ≡ h.old.owned.value }
{
    let Some(slot) = h.take(alloc) else {
        return 0;
    };
    let place = slot.cleaner_error_at();
    h.put(slot);
    place
}

/// Whether nothing more is read: the page has ended, or a call failed for good. Then `cleaner_feed` and
/// `cleaner_end` answer `OVER`, and the kept bytes can still be taken. It is false where the handle is of no
/// page.
pub fn cleaner_is_over(alloc: Global, h: &mut Handle) -> bool
    ensures over { result ≡ cleaner_over_in (cleaner_of h.old.owned.value) }
    ensures kept { h.new.owned.value ≡ h.old.owned.value }
{
    let Some(slot) = h.take(alloc) else {
        return false;
    };
    let is_over = slot.is_cleaner_over();
    h.put(slot);
    is_over
}
