//! The table of the standard's named references.
ghost use Rattle.std.specs.Prelude.{◌≡◌, IfOk};
ghost use Rattle.html5entities.specs.Standard.{standard_list};
ghost use Rattle.html5table.specs.Listed.{entries_in};
ghost use Rattle.markup5ever.specs.NamedReferences.{table_of};

use crate::list::standard_list;
use html5table::references_of;
use markup5ever::data::{NamedReferences, TableError};
use std::alloc::Allocator;

/// The table of the standard's named references. Its list has no fault, so the only error is out of memory:
/// that is tested, and not proved.
pub fn standard_references<A: Allocator + Copy>(alloc: A) -> Result<NamedReferences<A>, TableError>
    ensures { IfOk result (λ references. references ≡ table_of (entries_in standard_list)) }
{
    references_of(alloc, standard_list())
}
