//! Lists of named references that stand on lines.
ghost use Rattle.std.specs.Prelude.{◌≡◌, ◌++◌, IsSome, IfOk, IfSome, OnOk, Some};
ghost use Rattle.std.specs.Option.{is_some};
ghost use Rattle.std.specs.Str.{trim_end};
ghost use Rattle.html5programs.specs.References.{text_said};
ghost use Rattle.html5table.specs.Listed.{listed};
ghost use Rattle.markup5ever.specs.NamedReferences.{references_of};

use html5table::{entries_of, has_form};
use markup5ever::data::Entry;
use std::alloc::{AllocError, Allocator};

// Whether a line is a list. White space at its end says nothing.
fn is_list(line: &str) -> bool
    ensures { result ≡ is_some (listed (trim_end line.now)) }
{
    has_form(line.trim_end())
}

/// Whether each line of a text is a list. It wants no memory.
pub fn are_lists(text: &str) -> bool
    ensures { result ≡ is_some (text_said text.now) }
{
    let mut rest = text;
    while let Some((line, later)) = rest.split_once('\n') {
        if !is_list(line) {
            return false;
        }
        rest = later;
    }
    is_list(rest)
}

// Puts the entries of a line after the others.
fn push_line<A: Allocator + Copy>(
    alloc: A,
    entries: &mut Vec<Entry<A>, A>,
    line: &str,
) -> Result<(), AllocError>
    requires { IsSome (listed (trim_end line.now)) }
    ensures { OnOk result (IfSome (listed (trim_end line.now))
        (λ said. references_of entries.new.items ≡ references_of entries.old.items ++ said)) }
{
    let mut more = entries_of(alloc, line.trim_end())?;
    entries.append(&mut more)
}

/// The entries of a text's lines, in their order. They may yet make no table.
pub fn entries_of_lines<A: Allocator + Copy>(
    alloc: A,
    text: &str,
) -> Result<Vec<Entry<A>, A>, AllocError>
    requires { IsSome (text_said text.now) }
    ensures { IfOk result (λ entries. text_said text.now ≡ Some (references_of entries.items)) }
{
    let mut entries = Vec::new(alloc);
    let mut rest = text;
    while let Some((line, later)) = rest.split_once('\n') {
        push_line(alloc, &mut entries, line)?;
        rest = later;
    }
    push_line(alloc, &mut entries, rest)?;
    Ok(entries)
}
