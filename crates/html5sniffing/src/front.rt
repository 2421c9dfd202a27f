//! The first bytes of a page.
ghost use Rattle.std.specs.Prelude.{◌≡◌, ◌++◌, ◌<◌, ◌≤◌, ◌||◌, not, nat_le, [], drop, false, true, length, take, IfOk, OnErr, OnOk};
ghost use Rattle.html5sniffing.specs.PageEncoding.{IsWhole};

use crate::page_encoding::{first_of, looks_further};
use crate::plain::are_plain;
use html5encodings::Encoding;
use markup5ever::data::NamedReferences;
use std::alloc::{AllocError, Allocator, Global};
use std::marker::Model;

/// How many bytes of a page are looked at: more only where these are plain ASCII, and nothing in them or said tells the
/// encoding.
pub const FRONT_LEN: usize = 1024;

/// How many bytes of plain ASCII are looked at then, at the most.
pub const LONG_FRONT_LEN: usize = 65536;

/// The first bytes of a page, as they come, up to as many as tell its encoding.
#[derive(Drop)]
pub struct Front<A: Allocator = Global> {
    alloc: A,
    bytes: Vec<u8, A>,
    // Whether the first `FRONT_LEN` bytes are there and tell nothing, and all is plain ASCII.
    is_long: bool,
}

impl<A: Allocator> Model for Front<A> {
    ghost use Rattle.std.specs.Prelude.{◌≡◌, ◌≤◌, true, length};
    ghost use Rattle.html5sniffing.specs.Fronts.{FrontOf};

    ghost Value = { FrontOf };

    ghost view = { λ f. record { bytes = f.bytes.items; long = f.is_long } };

    ghost invariant = { λ f. f.is_long ≡ true → 1024 ≤ length f.bytes.items };
}

impl<A: Allocator> Front<A> {
    /// The bytes.
    pub fn bytes(&self) -> &[u8]
        ensures { result.now ≡ self.now.bytes }
    {
        &self.bytes
    }
}

// The bytes from this place on.
fn rest_of(bytes: &[u8], place: usize) -> &[u8]
    requires { place ≤ length bytes.now }
    ensures { result.now ≡ drop place bytes.now }
{
    &bytes[place..]
}

// Whether no more is looked at than this many bytes, the last of which are plain or not.
fn is_past(len: usize, goes_on: bool) -> bool
    ensures { result ≡ (nat_le 65536 len || not goes_on) }
{
    len >= LONG_FRONT_LEN || !goes_on
}

impl<A: Allocator + Copy> Front<A> {
    /// No byte came.
    pub fn new(alloc: A) -> Front<A>
        ensures { result ≡ record { bytes = []; long = false } }
    {
        Front {
            alloc,
            bytes: Vec::new(alloc),
            is_long: false,
        }
    }

    // Whether the front is whole, where this many bytes were there before.
    fn is_whole_now(
        &mut self,
        references: &NamedReferences<A>,
        said: Option<Encoding>,
        fallback: Option<Encoding>,
        before: usize,
    ) -> Result<bool, AllocError>
        requires { before ≤ length self.old.bytes }
        ensures whole { IfOk result (λ whole. whole ≡ true → IsWhole references.now said fallback self.new.bytes) }
        ensures waits { IfOk result (λ whole. whole ≡ false → length self.new.bytes < 65536) }
        ensures kept { self.new.bytes ≡ self.old.bytes }
        ensures err { OnErr result (self.new ≡ self.old) }
    {
        if self.is_long {
            let goes_on = are_plain(rest_of(&self.bytes, before));
            let past = is_past(self.bytes.len(), goes_on);
            return Ok(past);
        }
        if self.bytes.len() < FRONT_LEN {
            return Ok(false);
        }
        if self.bytes.len() < LONG_FRONT_LEN && are_plain(&self.bytes) {
            let first = first_of(&self.bytes);
            self.is_long = looks_further(self.alloc, references, first, said, fallback)?;
        }
        Ok(!self.is_long)
    }

    /// Takes the next bytes of a page, and says whether those so far tell its encoding, whatever follows.
    pub fn push(
        &mut self,
        references: &NamedReferences<A>,
        said: Option<Encoding>,
        fallback: Option<Encoding>,
        bytes: &[u8],
    ) -> Result<bool, AllocError>
        ensures bytes { OnOk result (self.new.bytes ≡ self.old.bytes ++ bytes.now) }
        ensures whole { IfOk result (λ whole. whole ≡ true → IsWhole references.now said fallback self.new.bytes) }
        ensures waits { IfOk result (λ whole. whole ≡ false → length self.new.bytes < 65536) }
        ensures err { OnErr result (self.new ≡ self.old) }
    {
        let before = self.bytes.len();
        self.bytes.extend_from_slice(bytes)?;
        let whole = self.is_whole_now(references, said, fallback, before);
        if whole.is_err() {
            self.bytes.truncate(before);
        }
        whole
    }

    /// Drops all bytes but this many.
    pub fn truncate(&mut self, len: usize)
        ensures { self.new.bytes ≡ take len self.old.bytes }
    {
        self.bytes.truncate(len);
        if len < FRONT_LEN {
            self.is_long = false;
        }
    }
}
