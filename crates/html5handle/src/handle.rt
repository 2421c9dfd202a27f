//! A handle that C keeps: a boxed slot as a pointer, or nothing.
ghost use Rattle.std.specs.Prelude.{◌≡◌, Option, Some, None, IsSome, MatchOption};
ghost use Rattle.std.specs.Option.{is_some};
ghost use Rattle.html5handle.specs.declared.slot.PageSlot.{PageSlot};
ghost use Rattle.html5handle.specs.Held.{held};

mod parts;

use crate::slot::PageSlot;
use parts::Parts;
use std::alloc::Global;
use std::marker::Model;
use std::mem;

/// Where the box of a slot is, if there is one. C sees a pointer, and no more.
#[repr(C)]
#[derive(Drop)]
pub struct Owned {
    at: *mut u8,
    alloc: Global,
    pub ghost value: { Option PageSlot },
}

impl Model for Owned {
    ghost also_owns = { λ h. held h.alloc h.at h.value };
}

impl Owned {
    // Owns nothing.
    fn nothing(alloc: Global) -> Owned
        ensures { result.value ≡ None }
    {
        Owned {
            at: std::ptr::null_mut(),
            alloc,
        }
    }

    // Owns what the parts of a box own.
    fn of_parts(parts: Parts<PageSlot, Global>) -> Owned
        ensures { result.value ≡ Some parts.value }
    {
        let Parts { ptr, alloc } = parts;
        Owned {
            at: ptr as *mut u8,
            alloc,
        }
    }

    // The parts of the box that it owns.
    fn into_parts(self) -> Parts<PageSlot, Global>
        requires { IsSome self.value }
        ensures { self.value ≡ Some result.value }
    {
        let Owned { at, alloc } = self;
        Parts {
            ptr: at as *mut PageSlot,
            alloc,
        }
    }
}

// What it owns may be used on another thread, as the slot may.
unsafe impl Send for Owned {}

/// What C keeps, and hands in at each call. A handle of zeros is closed: it holds nothing.
#[repr(C)]
#[derive(Drop)]
pub struct Handle {
    owned: Owned,
    is_open: bool,
    ghost agrees: { is_some owned.value ≡ is_open },
}

impl Handle {
    /// A closed handle, as C has one by zeroing it.
    pub fn closed(alloc: Global) -> Handle
        ensures { result.owned.value ≡ None }
    {
        Handle {
            owned: Owned::nothing(alloc),
            is_open: false,
        }
    }

    /// Holds a slot. It must hold none before: that one would be lost.
    pub fn put(&mut self, held: Box<PageSlot, Global>)
        requires { self.old.owned.value ≡ None }
        ensures { self.new.owned.value ≡ Some held.value }
    {
        self.owned = Owned::of_parts(Parts::of(held));
        self.is_open = true;
    }

    /// Gives out what it holds, and is closed.
    pub fn take(&mut self, alloc: Global) -> Option<Box<PageSlot, Global>>
        ensures held { MatchOption result (self.old.owned.value ≡ None) (λ b. self.old.owned.value ≡ Some b.value) }
        ensures after { self.new.owned.value ≡ None }
    {
        if !self.is_open {
            return None;
        }
        let held = mem::replace(&mut self.owned, Owned::nothing(alloc));
        self.is_open = false;
        Some(held.into_parts().into_box())
    }
}
