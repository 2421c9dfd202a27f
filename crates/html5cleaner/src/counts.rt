//! How many elements of each name are open.
ghost use Rattle.std.specs.Prelude.{◌≡◌, ◌+◌, ◌<◌, Some, ℕ, List, OnOk, OnErr, chars};
ghost use Rattle.std.specs.List.{position};
ghost use Rattle.html5cleaner.specs.Counts.{count_of, is_entry_of, one_where};

use crate::names::is_same;
use std::alloc::{AllocError, Allocator};

/// How many elements of this name are open.
#[derive(Drop)]
pub struct Entry<A: Allocator> {
    pub name: String<A>,
    pub count: u64,
}

// Where the first entry of this name is.
fn place_of<A: Allocator>(counts: &[Entry<A>], name: &str) -> Option<usize>
    ensures { result ≡ position (is_entry_of (chars name.now)) counts.now }
{
    counts
        .iter()
        .position(|entry| is_same(entry.name.as_str(), name))
}

/// How many of this name are open.
pub fn count_of<A: Allocator>(counts: &[Entry<A>], name: &str) -> u64
    ensures { result ≡ count_of counts.now (chars name.now) }
{
    match place_of(counts, name) {
        Some(place) => counts[place].count,
        None => 0,
    }
}

/// One more of this name is open.
pub fn raise<A: Allocator + Copy>(
    alloc: A,
    counts: &mut Vec<Entry<A>, A>,
    name: &str,
) -> Result<(), AllocError>
    ensures ok { OnOk result ((other : List ℕ) → count_of counts.new.items other
        ≡ one_where (chars name.now) other + count_of counts.old.items other) }
    ensures err { OnErr result (counts.new.items ≡ counts.old.items) }
{
    let Some(place) = place_of(counts, name) else {
        let name = String::from_str(alloc, name)?;
        counts.push(Entry { name, count: 1 })?;
        return Ok(());
    };
    let Some(entry) = counts.get_mut(place) else {
        return Err(AllocError);
    };
    match entry.count.checked_add(1) {
        Some(count) => {
            entry.count = count;
            Ok(())
        }
        None => Err(AllocError),
    }
}

/// One less of this name is open.
pub fn lower<A: Allocator>(counts: &mut Vec<Entry<A>, A>, name: &str)
    requires { 0 < count_of counts.old.items (chars name.now) }
    ensures { (other : List ℕ) → count_of counts.old.items other
        ≡ one_where (chars name.now) other + count_of counts.new.items other }
{
    let Some(place) = place_of(counts, name) else {
        return;
    };
    if let Some(entry) = counts.get_mut(place) {
        entry.count = entry.count.saturating_sub(1);
    }
}
