//! The calls of a policy, to which rules are added one by one. `free` closes its handles too.
ghost use Rattle.std.specs.Prelude.{◌≡◌, None};
ghost use Rattle.html5handle.specs.PolicyCalls.{AddsRule, BeginsCleaner, NewPolicySays};
ghost use Rattle.html5handle.specs.Slots.{cleaner_of, placed_of, policy_of, session_of};

use crate::calls::free;
use crate::handle::Handle;
use crate::slot::PageSlot;
use crate::status;
use html5policy::Policy;
use std::alloc::Global;

/// Opens a handle as a policy that keeps text alone. What the handle held before is freed.
pub fn policy_new(alloc: Global, h: &mut Handle) -> u32
    ensures { NewPolicySays h.new.owned.value result }
{
    free(alloc, h);
    match Box::new(alloc, PageSlot::Policy(Policy::new(alloc))) {
        Ok(slot) => {
            h.put(slot);
            status::DONE
        }
        Err(_) => status::NO_MEMORY,
    }
}

/// Adds a rule to a policy. 0: an element that is kept. 1: an attribute that is kept in an element. 2: an attribute
/// that is kept in each element. 3: a scheme of addresses. 4: an element that is dropped with its content. 5: a word
/// of `rel`. 6: `balance`. 7: `tree`. 8: `depth`, by decimal digits. Each name is one name, whatever its characters.
pub fn policy_add(alloc: Global, h: &mut Handle, rule: u32, name: &[u8], attribute: &[u8]) -> u32
    ensures adds { AddsRule (policy_of h.old.owned.value) (policy_of h.new.owned.value) rule name.now attribute.now result }
    ensures session { session_of h.new.owned.value ≡ session_of h.old.owned.value }
    ensures other { cleaner_of h.new.owned.value ≡ cleaner_of h.old.owned.value }
    ensures placed { placed_of h.new.owned.value ≡ placed_of h.old.owned.value }
{
    let Some(mut slot) = h.take(alloc) else {
        return status::CLOSED;
    };
    let status = slot.add_rule(rule, name, attribute);
    h.put(slot);
    status
}

/// Begins a page that is cleaned by the policy of a handle, which is of that page from here on.
pub fn cleaner_begin(alloc: Global, h: &mut Handle) -> u32
    ensures begins { BeginsCleaner (policy_of h.old.owned.value) (policy_of h.new.owned.value)
        (cleaner_of h.new.owned.value) result }
    ensures unchanged { policy_of h.old.owned.value ≡ None → h.new.owned.value ≡ h.old.owned.value }
{
    let Some(mut slot) = h.take(alloc) else {
        return status::CLOSED;
    };
    let status = slot.begin_cleaner(alloc);
    h.put(slot);
    status
}
