//! Where the bytes of a text come from that was read in stretches.
ghost use Rattle.std.specs.Prelude.{◌≡◌, ◌↔◌, ◌⊎◌, ◌+◌, ◌≤◌, ◌<◌, ◌^◌, ◌++◌, ◌∷◌, [], All, Err, IfErr, OnErr, OnOk};
ghost use Rattle.html5places.specs.Origins.{Fits, further, offset_of, origin_of};

use crate::error::PlaceError;
use std::alloc::{Allocator, Global};
use std::marker::Model;

/// Where a byte comes from: from the source, or from a text that was put in, as by `document.write`.
#[derive(Clone, Copy, Debug, PartialEq, Eq)]
pub enum Origin {
    /// From this byte of the source.
    Source(usize),
    /// From a byte of a text that was put in. The caller numbers these texts.
    PutIn { text: usize, at: usize },
}

impl Origin {
    // Where its byte stands in its text.
    fn offset(self) -> usize
        ensures { result ≡ offset_of self }
    {
        match self {
            Origin::Source(at) | Origin::PutIn { text: _, at } => at,
        }
    }

    // The origin of the byte that is this many bytes further on.
    fn further(self, count: usize) -> Origin
        requires { offset_of self + count < 2 ^ 64 }
        ensures { result ≡ further self count }
    {
        match self {
            Origin::Source(at) => Origin::Source(at + count),
            Origin::PutIn { text, at } => Origin::PutIn {
                text,
                at: at + count,
            },
        }
    }
}

/// This many bytes that were read, from this one on.
#[derive(Clone, Copy, Debug, PartialEq, Eq)]
pub struct Stretch {
    pub first: Origin,
    pub len: usize,
}

// Where the byte at a place of some stretches comes from.
fn origin_in(stretches: &[Stretch], place: usize) -> Option<Origin>
    requires { All Fits stretches.now }
    ensures { result ≡ origin_of stretches.now place }
{
    let mut left = place;
    for stretch in stretches {
        if left < stretch.len {
            return Some(stretch.first.further(left));
        }
        left -= stretch.len;
    }
    None
}

/// The stretches that were read, one after the other. They say where each byte of the whole text comes from, and so where
/// a token stands in the source, or in the text that was put in.
#[derive(Drop)]
pub struct Origins<A: Allocator = Global> {
    stretches: Vec<Stretch, A>,
}

impl<A: Allocator> Model for Origins<A> {
    ghost use Rattle.std.specs.Prelude.{All, List};
    ghost use Rattle.html5places.specs.declared.origins.Stretch.{Stretch};
    ghost use Rattle.html5places.specs.Origins.{Fits};

    ghost Value = { List Stretch };

    ghost view = { λ o. o.stretches.items };

    ghost invariant = { λ o. All Fits o.stretches.items };
}

impl<A: Allocator> Origins<A> {
    /// Nothing was read yet.
    pub fn new(alloc: A) -> Origins<A>
        ensures { result ≡ [] }
    {
        Origins {
            stretches: Vec::new(alloc),
        }
    }

    /// Notes that this many bytes were read, from this one on. `TooLong` says that no text has that many bytes.
    pub fn record(&mut self, first: Origin, len: usize) -> Result<(), PlaceError>
        ensures ok { OnOk result (self.new ≡ self.old ++ (record { first = first; len = len }) ∷ []) }
        ensures err { OnErr result (self.new ≡ self.old) }
        ensures too_long { (result ≡ Err PlaceError.TooLong) ↔ (2 ^ 64 ≤ offset_of first + len) }
        ensures errors { IfErr result (λ error. (error ≡ PlaceError.Memory) ⊎ (error ≡ PlaceError.TooLong)) }
    {
        if len > usize::MAX - first.offset() {
            return Err(PlaceError::TooLong);
        }
        match self.stretches.push(Stretch { first, len }) {
            Ok(()) => Ok(()),
            Err(_) => Err(PlaceError::Memory),
        }
    }

    /// Where the byte at a place of the whole text comes from. `None` if no byte was read there, as at the end.
    pub fn origin_of(&self, place: usize) -> Option<Origin>
        ensures { result ≡ origin_of self.now place }
    {
        origin_in(&self.stretches, place)
    }
}
