//! Values that contracts alone see.
ghost use Rattle.std.specs.Prelude.{◌≡◌};
ghost use Rattle.std.specs.Borrow.{ftrue};

use std::marker::{Model, PhantomData};

/// A value of `T` that contracts alone see. It has no bytes at run time.
#[derive(Drop)]
pub struct Noted<T> {
    of: PhantomData<T>,
    pub ghost value: { T },
}

impl<T> Model for Noted<T> {
    ghost also_owns = { λ _. ftrue };
}

// It has no bytes, so it may be used on any thread.
unsafe impl<T: Send> Send for Noted<T> {}

/// A type of which a value follows from those of two others.
pub trait Follows<A, B> {
    ghost follows: { A → B → Self };
}

/// Notes what follows from two values, which are not read.
pub fn note<A, B, T: Follows<A, B>>(_first: &A, _second: &B) -> Noted<T>
    ensures { result.value ≡ T.follows _first.now _second.now }
{
    Noted { of: PhantomData }
}
