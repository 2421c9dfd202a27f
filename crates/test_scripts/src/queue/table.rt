//! Calls of a table of named references, which answer by words.
use crate::queue::Entry;
use markup5ever::data::{NamedReferences, TableError, c1_replacement};
use std::alloc::{AllocError, Allocator, Global};
use testing_lines::Stop;

// The words of what stands first where a table has a fault.
fn words_of(ample: Global, error: TableError) -> Result<String, AllocError> {
    match error {
        TableError::Memory => String::from_str(ample, "memory"),
        TableError::BadName(place) => format!(in ample; "bad name {place}"),
        TableError::ZeroCharacter(place) => format!(in ample; "zero character {place}"),
        TableError::RepeatedName(place) => format!(in ample; "repeated name {place}"),
    }
}

// The entries, on a heap.
fn entries_on<A: Allocator + Copy>(
    heap: A,
    entries: &[&Entry],
) -> Result<Vec<(String<A>, char, Option<char>), A>, AllocError> {
    let mut made = Vec::new(heap);
    for entry in entries {
        let name = String::from_str(heap, &entry.name)?;
        made.push((name, entry.first, entry.second))?;
    }
    Ok(made)
}

/// Makes a table of the entries, on a heap. Answers the table, too, where they have no fault.
pub fn check<A: Allocator + Copy>(
    ample: Global,
    heap: A,
    entries: &[&Entry],
) -> Result<(String, Option<NamedReferences<A>>), Stop> {
    let entries = entries_on(heap, entries)?;
    match NamedReferences::check(heap, entries) {
        Ok(table) => Ok((String::from_str(ample, "ok")?, Some(table))),
        Err(error) => Ok((words_of(ample, error)?, None)),
    }
}

/// What a table has by that name.
pub fn get<A: Allocator>(
    ample: Global,
    table: &Option<NamedReferences<A>>,
    name: &str,
) -> Result<String, Stop> {
    let Some(table) = table else {
        return Err(Stop::BadStep);
    };
    match table.get(name) {
        Some((first, None)) => Ok(format!(in ample; "{first}")?),
        Some((first, Some(second))) => Ok(format!(in ample; "{first}{second}")?),
        None => Ok(String::from_str(ample, "none")?),
    }
}

/// Whether a name of a table begins so.
pub fn begins<A: Allocator>(
    table: &Option<NamedReferences<A>>,
    text: &str,
) -> Result<&'static str, Stop> {
    match table {
        Some(table) if table.is_prefix(text) => Ok("yes"),
        Some(_) => Ok("no"),
        None => Err(Stop::BadStep),
    }
}

/// What the number of a C1 control stands for.
pub fn control(ample: Global, number: u8) -> Result<String, Stop> {
    match c1_replacement(number) {
        Some(c) => Ok(format!(in ample; "{c}")?),
        None => Ok(String::from_str(ample, "none")?),
    }
}
