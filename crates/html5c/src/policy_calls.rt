//! The calls of a policy, to which rules are added one by one. `html5_free` closes its handles too.
ghost use Rattle.std.specs.Prelude.{◌≡◌, None};
ghost use Rattle.html5handle.specs.PolicyCalls.{AddsRule, BeginsCleaner, NewPolicySays};
ghost use Rattle.html5handle.specs.Slots.{cleaner_of, placed_of, policy_of, session_of};

use html5handle::Handle;
use std::alloc::Global;

/// Opens a handle as a policy that keeps text alone.
#[unsafe(no_mangle)]
pub extern "C" fn html5_policy_new(alloc: Global, h: &mut Handle) -> u32
    ensures { NewPolicySays h.new.owned.value result }
{
    html5handle::policy_new(alloc, h)
}

/// Adds a rule to a policy. 0: an element that is kept. 1: an attribute that is kept in an element. 2: an attribute
/// that is kept in each element. 3: a scheme of addresses. 4: an element that is dropped with its content. 5: a word
/// of `rel`. 6: `balance`. 7: `tree`. 8: `depth`, by decimal digits.
#[unsafe(no_mangle)]
pub extern "C" fn html5_policy_add(
    alloc: Global,
    h: &mut Handle,
    rule: u32,
    name: &[u8],
    attribute: &[u8],
) -> u32
    ensures adds { AddsRule (policy_of h.old.owned.value) (policy_of h.new.owned.value) rule name.now attribute.now result }
    ensures session { session_of h.new.owned.value ≡ session_of h.old.owned.value }
    ensures other { cleaner_of h.new.owned.value ≡ cleaner_of h.old.owned.value }
    ensures placed { placed_of h.new.owned.value ≡ placed_of h.old.owned.value }
{
    html5handle::policy_add(alloc, h, rule, name, attribute)
}

/// Begins a page that is cleaned by the policy of a handle, which is of that page from here on.
#[unsafe(no_mangle)]
pub extern "C" fn html5_cleaner_begin(alloc: Global, h: &mut Handle) -> u32
    ensures begins { BeginsCleaner (policy_of h.old.owned.value) (policy_of h.new.owned.value)
        (cleaner_of h.new.owned.value) result }
    ensures unchanged { policy_of h.old.owned.value ≡ None → h.new.owned.value ≡ h.old.owned.value }
{
    html5handle::cleaner_begin(alloc, h)
}
