//! The elements that wait, the innermost first.
ghost use Rattle.std.specs.Prelude.{◌≡◌, ◌∷◌, [], None, Some, length, nat_lt, IfOk, IfSome, map, option_map, string_bytes, if◌then◌else◌};
ghost use Rattle.std.specs.VecDeque.{deque_capacity};
ghost use Rattle.html5amend.specs.Open.{counted_at, found, found_from, is_dropping};
ghost use Rattle.html5amend.specs.Places.{grown, places_for};
ghost use Rattle.html5amend.specs.Views.{found_by, open_by, with_count, with_open};

use crate::open::{Count, Found, Open};
use std::alloc::{AllocError, Allocator};
use std::collections::VecDeque;
use std::marker::Model;

// Room for more elements than before, where one more would find none.
pub type Room<A> = Option<VecDeque<Open<A>, A>>;

// Those that wait. A change is decided before it is written, and takes place after: so the room for one more is found
// before.
#[derive(Drop)]
pub struct Waiting<A: Allocator> {
    alloc: A,
    elements: VecDeque<Open<A>, A>,
    // How many there is room for.
    places: usize,
}

impl<A: Allocator> Model for Waiting<A> {
    ghost use Rattle.std.specs.Prelude.{◌≤◌, map};
    ghost use Rattle.std.specs.VecDeque.{deque_capacity};
    ghost use Rattle.html5amend.specs.Places.{Waiting as WaitingOf};
    ghost use Rattle.html5amend.specs.Views.{open_by};

    ghost Value = { WaitingOf };

    ghost view = { λ w. record { elements = map open_by w.elements.items; places = w.places } };

    ghost invariant = { λ w. w.places ≤ deque_capacity w.elements };
}

// The room that is made where this many wait.
fn grown(count: usize) -> Option<usize>
    ensures { IfSome result (λ places. places ≡ grown count) }
{
    count.checked_mul(2)?.checked_add(8)
}

impl<A: Allocator + Copy> Waiting<A> {
    // None.
    pub fn new(alloc: A) -> Waiting<A>
        ensures { result ≡ record { elements = []; places = 0 } }
    {
        Waiting {
            alloc,
            elements: VecDeque::new(alloc),
            places: 0,
        }
    }

    // Whether the content here is dropped.
    pub fn is_dropping(&self) -> bool
        ensures { result ≡ is_dropping self.now.elements }
    {
        match self.elements.front() {
            Some(element) => element.drops,
            None => false,
        }
    }

    // The innermost that has this name.
    pub fn found(&self, name: &str) -> Option<Found<'_, A>>
        ensures { option_map found_by result ≡ found name.now self.now.elements }
    {
        for place in 0..self.elements.len() {
            let element = &self.elements[place];
            if element.name.as_str() == name {
                return Some(Found { place, element });
            }
            if element.drops {
                return None;
            }
        }
        None
    }

    // Room for one more, if there is none.
    pub fn room(&self) -> Result<Room<A>, AllocError>
        ensures { IfOk result (λ room. (o : Open A) → with_open o room self.now
            ≡ record { elements = open_by o ∷ self.now.elements; places = places_for (length self.now.elements) self.now.places }) }
    {
        if self.elements.len() < self.places {
            return Ok(None);
        }
        let Some(places) = grown(self.elements.len()) else {
            return Err(AllocError);
        };
        Ok(Some(VecDeque::with_capacity(self.alloc, places)?))
    }

    // This many elements of its name are open, of one at this place.
    fn count_at(&mut self, place: usize, depth: u64)
        ensures { self.new ≡ record self.old { elements = counted_at place depth self.old.elements } }
    {
        if place < self.elements.len() {
            if depth == 0 {
                let _closed = self.elements.remove(place);
            } else {
                self.elements[place].depth = depth;
            }
        }
    }

    // The same, if there is one.
    pub fn count(&mut self, count: Option<Count>)
        ensures { self.new ≡ with_count count self.old }
    {
        if let Some(count) = count {
            self.count_at(count.place, count.depth);
        }
    }

    // One more, if there is room.
    fn push_within(&mut self, element: Open<A>)
        ensures { self.new ≡ with_open element None self.old }
    {
        if self.elements.len() < self.places {
            self.elements.push_front_reserved(element);
        }
    }

    // One more, and all of them go if there is room for more of them.
    fn push_into(&mut self, element: Open<A>, mut room: VecDeque<Open<A>, A>)
        ensures { self.new ≡ with_open element (Some room) self.old }
    {
        if self.elements.len() < room.capacity() {
            room.clear();
            self.places = room.capacity();
            let _ = room.append(&mut self.elements);
            self.elements = room;
            self.elements.push_front_reserved(element);
        }
    }

    // One more.
    pub fn push(&mut self, element: Open<A>, room: Room<A>)
        ensures { self.new ≡ with_open element room self.old }
    {
        match room {
            Some(room) => self.push_into(element, room),
            None => self.push_within(element),
        }
    }
}
