//! Lists of entries.
ghost use Rattle.std.specs.Prelude.{◌≡◌, ◌++◌, [], ◌∷◌, IsSome, IfOk, IfSome, OnOk, Some};
ghost use Rattle.std.specs.Option.{is_some};
ghost use Rattle.std.specs.List.{slice_split};
ghost use Rattle.html5table.specs.Listed.{entries_said, entry_said, is_comma, listed};
ghost use Rattle.markup5ever.specs.NamedReferences.{references_of};

use crate::entry::parts_of;
use markup5ever::data::Entry;
use std::alloc::{AllocError, Allocator};

/// Whether the list is empty, or entries joined by commas, each `NAME=HEX` or `NAME=HEX+HEX`. NAME is
/// whatever stands before the first `=`, and HEX one to six hexadecimal digits of a Unicode scalar value.
pub fn has_form(list: &str) -> bool
    ensures { result ≡ is_some (listed list.now) }
{
    list.is_empty() || are_entries(list)
}

// Whether the text is entries joined by commas.
fn are_entries(list: &str) -> bool
    ensures { result ≡ is_some (entries_said (slice_split is_comma list.now)) }
{
    let mut rest = list;
    while let Some((entry, later)) = rest.split_once(',') {
        if parts_of(entry).is_none() {
            return false;
        }
        rest = later;
    }
    parts_of(rest).is_some()
}

/// The entries of a list, in their order. They may yet make no table.
pub fn entries_of<A: Allocator + Copy>(alloc: A, list: &str) -> Result<Vec<Entry<A>, A>, AllocError>
    requires { IsSome (listed list.now) }
    ensures { IfOk result (λ entries. listed list.now ≡ Some (references_of entries.items)) }
{
    let mut entries = Vec::new(alloc);
    if list.is_empty() {
        return Ok(entries);
    }
    let mut rest = list;
    while let Some((entry, later)) = rest.split_once(',') {
        push_entry(alloc, &mut entries, entry)?;
        rest = later;
    }
    push_entry(alloc, &mut entries, rest)?;
    Ok(entries)
}

// Puts what the text of an entry says after the others.
fn push_entry<A: Allocator + Copy>(
    alloc: A,
    entries: &mut Vec<Entry<A>, A>,
    text: &str,
) -> Result<(), AllocError>
    requires { IsSome (entry_said text.now) }
    ensures { OnOk result (IfSome (entry_said text.now)
        (λ entry. references_of entries.new.items ≡ references_of entries.old.items ++ entry ∷ [])) }
{
    let Some((name, first, second)) = parts_of(text) else {
        unreachable!()
    };
    entries.push((String::from_str(alloc, name)?, first, second))?;
    Ok(())
}
