//! Open elements that are closed and opened, in lists of their names with the innermost last.
ghost use Rattle.std.specs.Prelude.{◌≡◌, ◌+◌, ◌<◌, ◌≤◌, List, [], ◌∷◌, ◌++◌, drop, length, map, take, vec_capacity, vec_len, OnErr, OnOk};
ghost use Rattle.html5tree.specs.ElementNames.{name_of};
ghost use Rattle.html5tree.specs.Nested.{with_own};
ghost use Rattle.html5tree.specs.Normal.{moved, opened};
ghost use Rattle.html5tree.specs.Planned.{parents_said, plan_said};
ghost use Rattle.html5tree.specs.Searches.{names_open};

use crate::names::ElementName;
use crate::plans::{Parents, Plan};
use std::alloc::{AllocError, Allocator};

// A name at the end of a list that has room for it.
fn push_within<A: Allocator>(names: &mut Vec<ElementName, A>, name: ElementName)
    requires { vec_len names.old < vec_capacity names.old }
    ensures items { names.new.items ≡ names.old.items ++ name ∷ [] }
    ensures len { vec_len names.new ≡ vec_len names.old + 1 }
    ensures capacity { vec_capacity names.old ≤ vec_capacity names.new }
{
    match names.push(name) {
        Ok(()) => {}
        Err(_) => unreachable!(),
    }
}

// Closes this many elements, and notes them.
fn close<A: Allocator>(
    names: &mut Vec<ElementName, A>,
    closed: &mut Vec<ElementName, A>,
    count: usize,
)
    requires none { closed.old.items ≡ [] }
    requires room { count ≤ vec_capacity closed.old }
    ensures names { names_open names.new.items ≡ drop count (names_open names.old.items) }
    ensures closed { map name_of closed.new.items ≡ take count (names_open names.old.items) }
    ensures capacity { vec_capacity names.new ≡ vec_capacity names.old }
    ensures len { vec_len names.new ≤ vec_len names.old }
{
    for _at in 0..count {
        match names.pop() {
            Some(name) => push_within(closed, name),
            None => return,
        }
    }
}

// Opens parents, each in the one before.
fn open_parents<A: Allocator>(names: &mut Vec<ElementName, A>, parents: Parents)
    requires { vec_len names.old + 3 < vec_capacity names.old }
    ensures names { names_open names.new.items ≡ opened (parents_said parents) (names_open names.old.items) }
    ensures room { vec_len names.new < vec_capacity names.new }
{
    for at in 0..parents.len() {
        match parents.get(at) {
            Some(name) => push_within(names, name),
            None => unreachable!(),
        }
    }
}

/// Follows a plan, and opens an element then, if there is one.
pub fn follow<A: Allocator>(
    names: &mut Vec<ElementName, A>,
    closed: &mut Vec<ElementName, A>,
    plan: Plan,
    own: Option<ElementName>,
) -> Result<(), AllocError>
    ensures names { OnOk result
        (names_open names.new.items ≡ with_own own (moved (plan_said plan) (names_open names.old.items))) }
    ensures closed { OnOk result
        (map name_of closed.new.items ≡ take plan.closes (names_open names.old.items)) }
    ensures names_err { OnErr result (names.new.items ≡ names.old.items) }
    ensures closed_err { OnErr result (closed.new.items ≡ closed.old.items) }
{
    names.reserve(4)?;
    closed.reserve(plan.closes)?;
    closed.clear();
    close(names, closed, plan.closes);
    open_parents(names, plan.opens);
    if let Some(name) = own {
        push_within(names, name);
    }
    Ok(())
}
