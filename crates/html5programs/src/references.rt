//! The table of named references that a program goes by.
ghost use Rattle.std.specs.Prelude.{◌≡◌, ◌⊎◌, IfErr, IfOk, IsNone, Err, Some, option_map};
ghost use Rattle.html5entities.specs.Standard.{standard_list};
ghost use Rattle.html5programs.specs.References.{IsOfTable, IsOfText, IsTableAsked, entries_of_text, table_or_error, table_said, text_said};
ghost use Rattle.html5table.specs.Listed.{entries_in};
ghost use Rattle.markup5ever.specs.NamedReferences.{first_fault, table_of};
ghost use Rattle.markup5ever.specs.declared.data.TableError.{TableError};
ghost use Rattle.markup5ever.specs.declared.data.TableError.TheVariants.{Memory};

use crate::entity_lines::{are_lists, entries_of_lines};
use html5entities::standard_references;
use markup5ever::data::{NamedReferences, TableError};
use std::alloc::Allocator;
use std::fs::Files;
use std::{fs, io};
use thiserror::Error;

/// Why there is no table of named references.
#[derive(Clone, Copy, Debug, Error)]
pub enum ReferencesError {
    #[error("{0}")]
    Unreadable(io::Error),
    #[error("not a list of entities: entries are NAME=HEX or NAME=HEX+HEX, one per line or separated by commas")]
    NoList,
    #[error("the list is not a valid table: {0}")]
    Table(TableError),
}

/// The table of named references of a file, or else the standard's. What the file holds no contract
/// says: it is read whole, and its text is `table_of_text`'s.
pub fn read_references<R: Files + Alloc>(
    rt: &R,
    path: Option<&str>,
) -> Result<NamedReferences<R::A>, ReferencesError>
where
    R::A: Copy,
    ensures table { IfOk result (IsTableAsked (option_map (λ path. path.now) path.entry)) }
    ensures file { IsNone path.entry → IfErr result IsOfTable }
{
    let Some(path) = path else {
        return references_or_error(standard_references(rt.alloc()));
    };
    match fs::read_to_string(rt, path) {
        Ok(text) => table_of_text(rt.alloc(), &text),
        Err(fault) => Err(ReferencesError::Unreadable(fault)),
    }
}

/// The table that a file's text says: on each line entries that commas join, or none. White space at the end
/// of a line says nothing, so lines may end in CR LF.
pub fn table_of_text<A: Allocator + Copy>(
    alloc: A,
    text: &str,
) -> Result<NamedReferences<A>, ReferencesError>
    ensures table { IfOk result (λ references. references ≡ table_said text.now) }
    ensures no_list { (result ≡ Err ReferencesError.NoList) → IsNone (text_said text.now) }
    ensures unlisted { IsNone (text_said text.now) → result ≡ Err ReferencesError.NoList }
    ensures fault { (error : TableError) → result ≡ Err (ReferencesError.Table error)
        → (error ≡ Memory) ⊎ (first_fault (entries_of_text text.now) ≡ Some error) }
    ensures readable { IfErr result IsOfText }
{
    if !are_lists(text) {
        return Err(ReferencesError::NoList);
    }
    match entries_of_lines(alloc, text) {
        Ok(entries) => references_or_error(NamedReferences::check(alloc, entries)),
        Err(_) => Err(ReferencesError::Table(TableError::Memory)),
    }
}

// The table, or why there is none.
fn references_or_error<A: Allocator>(
    references: Result<NamedReferences<A>, TableError>,
) -> Result<NamedReferences<A>, ReferencesError>
    ensures { result ≡ table_or_error references }
{
    match references {
        Ok(references) => Ok(references),
        Err(error) => Err(ReferencesError::Table(error)),
    }
}
