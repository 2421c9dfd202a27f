//! What a reading goes by.
use markup5ever::data::NamedReferences;
use std::alloc::{Allocator, Global};
use std::marker::Model;

/// What a reading goes by: whether errors are exact, and the table of named references.
#[derive(Drop)]
pub struct Rules<'t, A: Allocator = Global> {
    pub exact_errors: bool,
    pub references: &'t NamedReferences<A>,
}

impl<'t, A: Allocator> Model for Rules<'t, A> {
    ghost use Rattle.html5reading.specs.Start as grammar;

    ghost Value = { grammar.Rules };

    ghost view = { λ r. record { exact = r.exact_errors; references = r.references.now } };
}
