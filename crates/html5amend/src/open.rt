//! Elements that wait for their end tag.
ghost use Rattle.std.specs.Prelude.{◌≡◌, ◌||◌, not, None, Some, IfOk, IfSome, option_map, string_bytes, if◌then◌else◌};
ghost use Rattle.html5amend.specs.Open.{closed_found, counted_found, depth_after};
ghost use Rattle.html5amend.specs.Parts.{is_as_it_is};
ghost use Rattle.html5amend.specs.Places.{Waiting};
ghost use Rattle.html5amend.specs.Views.{found_by, open_by, part_by, with_count};
ghost use Rattle.html5ever_interface.specs.Token.{tag_of};

use crate::part::Part;
use html5elements::hidden::has_content;
use html5ever_interface::interface::token::{Tag, TagKind};
use std::alloc::{AllocError, Allocator};

// An element that waits for its end tag.
#[derive(Drop)]
pub struct Open<A: Allocator> {
    // The name of its tags in the page.
    pub name: String<A>,
    // How many elements of that name are open: itself, and those in it.
    pub depth: u64,
    // What happens to its end tag.
    pub ending: Part<A>,
    // Whether its content is dropped.
    pub drops: bool,
}

// One that waits, and how many wait within it.
#[derive(Clone, Copy)]
pub struct Found<'s, A: Allocator> {
    pub place: usize,
    pub element: &'s Open<A>,
}

// How many elements of its name are open, of one at this place.
#[derive(Clone, Copy)]
pub struct Count {
    pub place: usize,
    pub depth: u64,
}

impl<A: Allocator> Open<A> {
    // Where something is done after its start tag.
    pub fn where_it_waits(self) -> Option<Open<A>>
        ensures { option_map open_by result ≡ (if self.drops || not (is_as_it_is (part_by self.ending)) then Some (open_by self) else None) }
    {
        if self.drops || !self.ending.is_as_it_is() {
            Some(self)
        } else {
            None
        }
    }
}

// How many elements of a tag's name are open after it.
fn depth_after<A: Allocator>(tag: &Tag<A>, depth: u64) -> Option<u64>
    ensures { IfSome result (λ after. after ≡ depth_after (tag_of tag.now) depth) }
{
    match tag.kind {
        TagKind::StartTag => depth.checked_add(u64::from(has_content(tag))),
        TagKind::EndTag => Some(depth.saturating_sub(1)),
    }
}

// What a tag makes of the innermost that has its name.
pub fn count_of<A: Allocator>(
    found: &Option<Found<'_, A>>,
    tag: &Tag<A>,
) -> Result<Option<Count>, AllocError>
    ensures { IfOk result (λ count. (w : Waiting) → with_count count w
        ≡ record w { elements = counted_found (tag_of tag.now) (option_map found_by found.now) w.elements }) }
{
    let Some(found) = found else {
        return Ok(None);
    };
    match depth_after(tag, found.element.depth) {
        Some(depth) => Ok(Some(Count {
            place: found.place,
            depth,
        })),
        None => Err(AllocError),
    }
}

// What happens to an end tag that closes it.
pub fn closed_by<'s, A: Allocator>(found: &Option<Found<'s, A>>) -> Option<&'s Part<A>>
    ensures { option_map (λ part. part_by part.now) result ≡ closed_found (option_map found_by found.now) }
{
    match found {
        Some(found) if found.element.depth.saturating_sub(1) == 0 => Some(&found.element.ending),
        _ => None,
    }
}
