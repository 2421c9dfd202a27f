//! The elements that are open by their tags.
ghost use Rattle.std.specs.Prelude.{◌≡◌, ◌∷◌, [], IfNone, IfSome, OnOk, drop, length};
ghost use Rattle.html5check.specs.Opened.{closed_by, ended_before, holds_foreign, open_by, opened_by};

use crate::elements::{ends_before, has_optional_end};
use std::alloc::{AllocError, Global};
use std::marker::Model;

/// With how many of the innermost elements an end tag is compared. Browsers keep no more open.
const DEPTH: usize = 512;

/// An element that is open: its name, where its start tag stands, and whether its content is of another namespace.
#[derive(Clone, Copy, Debug, PartialEq, Eq)]
pub struct OpenElement<'t> {
    pub name: &'t str,
    pub begin: usize,
    pub end: usize,
    pub holds_foreign: bool,
}

/// The elements that are open. Contracts see them innermost first.
#[derive(Drop)]
pub struct OpenElements<'t> {
    // Innermost last.
    elements: Vec<OpenElement<'t>>,
}

impl<'t> Model for OpenElements<'t> {
    ghost use Rattle.std.specs.Prelude.{List};
    ghost use Rattle.html5check.specs.Opened.{Open, opened_by};

    ghost Value = { List Open };

    ghost view = { λ o. opened_by o.elements.items };
}

// How many of these the end tag of this name ends, or 0 if none of the innermost has the name.
fn closed_by(elements: &[OpenElement<'_>], name: &str) -> usize
    ensures { result ≡ closed_by (opened_by elements.now) name.now }
{
    let len = elements.len();
    for i in 0..len.min(DEPTH) {
        if elements[len - 1 - i].name == name {
            return i + 1;
        }
    }
    0
}

// How many of these a start tag of this name ends.
fn ended_before(elements: &[OpenElement<'_>], name: &str) -> usize
    ensures { result ≡ ended_before (opened_by elements.now) name.now }
{
    let len = elements.len();
    let mut count = 0;
    for i in 0..len {
        let inner = elements[len - 1 - i].name;
        if !has_optional_end(inner) {
            return count;
        }
        if ends_before(name, inner) {
            count = i + 1;
        }
    }
    count
}

impl<'t> OpenElements<'t> {
    /// None is open.
    pub fn none(alloc: Global) -> OpenElements<'t>
        ensures { result ≡ [] }
    {
        OpenElements {
            elements: Vec::new(alloc),
        }
    }

    /// How many there are.
    pub fn len(&self) -> usize
        ensures { result ≡ length self.now }
    {
        self.elements.len()
    }

    /// Whether the content of the innermost one is of another namespace.
    pub fn holds_foreign(&self) -> bool
        ensures { result ≡ holds_foreign self.now }
    {
        match self.elements.last() {
            Some(inner) => inner.holds_foreign,
            None => false,
        }
    }

    /// How many a start tag of this name ends: those whose end tags are left out, down to one that it ends itself.
    pub fn ended_before(&self, name: &str) -> usize
        ensures { result ≡ ended_before self.now name.now }
    {
        ended_before(&self.elements, name)
    }

    /// How many an end tag of this name ends: those in the innermost of its name, and that one; none if there is no
    /// such.
    pub fn closed_by(&self, name: &str) -> usize
        ensures { result ≡ closed_by self.now name.now }
    {
        closed_by(&self.elements, name)
    }

    /// Opens an element in the innermost one.
    pub fn push(&mut self, element: OpenElement<'t>) -> Result<(), AllocError>
        ensures ok { OnOk result (self.new ≡ open_by element.entry ∷ self.old) }
    {
        match self.elements.push(element) {
            Ok(()) => Ok(()),
            Err(_) => Err(AllocError),
        }
    }

    /// Takes the innermost one away, if there is one.
    pub fn pop(&mut self) -> Option<OpenElement<'t>>
        ensures some { IfSome result (λ element. self.old ≡ open_by element ∷ self.new) }
        ensures none { IfNone result (self.old ≡ []) }
        ensures still { IfNone result (self.new ≡ []) }
    {
        self.elements.pop()
    }

    /// Closes this many, or all if there are fewer.
    pub fn close(&mut self, count: usize)
        ensures { self.new ≡ drop count self.old }
    {
        self.elements
            .truncate(self.elements.len().saturating_sub(count));
    }
}
