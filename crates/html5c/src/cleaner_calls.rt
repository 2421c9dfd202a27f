//! The calls of the cleaner. `html5_free` closes its handles too.
ghost use Rattle.std.specs.Prelude.{◌≡◌};
ghost use Rattle.html5handle.specs.CleanerCalls.{NewCleanerSays, Restarts, CleanerFeeds, CleanerEnds, CleanerTakes, cleaner_error_place, cleaner_over_in};
ghost use Rattle.html5handle.specs.Slots.{cleaner_of, placed_of, policy_of, session_of};

use html5handle::Handle;
use std::alloc::Global;

/// Opens a handle at the start of a page, which is cleaned by the policy of a text or, if it has no bytes, by the
/// standard one.
#[unsafe(no_mangle)]
pub extern "C" fn html5_cleaner_new(
    alloc: Global,
    h: &mut Handle,
    policy: &[u8],
    place: &mut u64,
) -> u32
    ensures { NewCleanerSays h.new.owned.value policy.now place.new result }
{
    html5handle::cleaner_new(alloc, h, policy, place)
}

/// Begins another page, by the same policy.
#[unsafe(no_mangle)]
pub extern "C" fn html5_cleaner_restart(alloc: Global, h: &mut Handle) -> u32
    ensures restarts { Restarts (cleaner_of h.old.owned.value) (cleaner_of h.new.owned.value) result }
    ensures other { session_of h.new.owned.value ≡ session_of h.old.owned.value }
    ensures placed { placed_of h.new.owned.value ≡ placed_of h.old.owned.value }
    ensures policy { policy_of h.new.owned.value ≡ policy_of h.old.owned.value }
{
    html5handle::cleaner_restart(alloc, h)
}

/// Takes a piece of the page, cut anywhere, and reads on.
#[unsafe(no_mangle)]
pub extern "C" fn html5_cleaner_feed(alloc: Global, h: &mut Handle, bytes: &[u8]) -> u32
    ensures feeds { CleanerFeeds (cleaner_of h.old.owned.value) (cleaner_of h.new.owned.value) bytes.now result }
    ensures other { session_of h.new.owned.value ≡ session_of h.old.owned.value }
    ensures placed { placed_of h.new.owned.value ≡ placed_of h.old.owned.value }
    ensures policy { policy_of h.new.owned.value ≡ policy_of h.old.owned.value }
{
    html5handle::cleaner_feed(alloc, h, bytes)
}

/// Ends the page.
#[unsafe(no_mangle)]
pub extern "C" fn html5_cleaner_end(alloc: Global, h: &mut Handle) -> u32
    ensures ends { CleanerEnds (cleaner_of h.old.owned.value) (cleaner_of h.new.owned.value) result }
    ensures other { session_of h.new.owned.value ≡ session_of h.old.owned.value }
    ensures placed { placed_of h.new.owned.value ≡ placed_of h.old.owned.value }
    ensures policy { policy_of h.new.owned.value ≡ policy_of h.old.owned.value }
{
    html5handle::cleaner_end(alloc, h)
}

/// Takes the next bytes of the kept part, as many as wait and as there is room for, and says how many: 0 if none
/// wait.
#[unsafe(no_mangle)]
pub extern "C" fn html5_cleaner_take(alloc: Global, h: &mut Handle, out: &mut [u8]) -> usize
    ensures takes { CleanerTakes (cleaner_of h.old.owned.value) (cleaner_of h.new.owned.value) out.old out.new result }
    ensures other { session_of h.new.owned.value ≡ session_of h.old.owned.value }
    ensures placed { placed_of h.new.owned.value ≡ placed_of h.old.owned.value }
    ensures policy { policy_of h.new.owned.value ≡ policy_of h.old.owned.value }
{
    html5handle::cleaner_take(alloc, h, out)
}

/// The place of the first byte that is not UTF-8, after a feed answered `NOT_UTF8`, counted from the first byte of
/// the page.
#[unsafe(no_mangle)]
pub extern "C" fn html5_cleaner_error_at(alloc: Global, h: &mut Handle) -> u64
    ensures place { result ≡ cleaner_error_place (cleaner_of h.old.owned.value) }
    ensures kept { h.new.owned.value ≡ h.old.owned.value }
{
    html5handle::cleaner_error_at(alloc, h)
}

/// Whether nothing more is read: the page has ended, or a call failed for good.
#[unsafe(no_mangle)]
pub extern "C" fn html5_cleaner_is_over(alloc: Global, h: &mut Handle) -> bool
    ensures over { result ≡ cleaner_over_in (cleaner_of h.old.owned.value) }
    ensures kept { h.new.owned.value ≡ h.old.owned.value }
{
    html5handle::cleaner_is_over(alloc, h)
}
