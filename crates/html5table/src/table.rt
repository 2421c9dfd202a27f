//! The table that a list says.
ghost use Rattle.std.specs.Prelude.{◌≡◌, ◌⊎◌, IsSome, IfOk, IfErr, None, OnOk, Some};
ghost use Rattle.html5table.specs.Listed.{entries_in, listed};
ghost use Rattle.markup5ever.specs.NamedReferences.{first_fault, table_of};

use crate::list::entries_of;
use markup5ever::data::{NamedReferences, TableError};
use std::alloc::Allocator;

/// The table of a list's entries.
pub fn references_of<A: Allocator + Copy>(
    alloc: A,
    list: &str,
) -> Result<NamedReferences<A>, TableError>
    requires { IsSome (listed list.now) }
    ensures table { IfOk result (λ references. references ≡ table_of (entries_in list.now)) }
    ensures faultless { OnOk result (first_fault (entries_in list.now) ≡ None) }
    ensures fault { IfErr result (λ error. (error ≡ TableError.Memory) ⊎
        (first_fault (entries_in list.now) ≡ Some error)) }
{
    let entries = entries_of(alloc, list)?;
    NamedReferences::check(alloc, entries)
}
