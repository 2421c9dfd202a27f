//! What a handler makes of elements and of other tokens.
use crate::element::Element;
use crate::error::AmendError;
use crate::other::Other;
use std::alloc::Allocator;

/// What an element means.
pub trait SaysElement: Drop {
    ghost use Rattle.html5amend.specs.Elements.{ElementOf};

    ghost element: { Self → ElementOf };
}

impl<A: Allocator> SaysElement for Element<A> {
    ghost element = { λ e. e };
}

/// What another token means.
pub trait SaysOther: Drop {
    ghost use Rattle.html5amend.specs.Others.{OtherOf};

    ghost other: { Self → OtherOf };
}

impl<A: Allocator> SaysOther for Other<A> {
    ghost other = { λ o. o };
}

/// Says what happens to elements and other tokens: `impl<A: Allocator + Copy> Amender<Element<A>, Other<A>> for
/// MyAmender`. Its answer depends on the element or the token, and on the handler alone. It isn't called within an
/// element whose content is dropped.
pub trait Amender<E: SaysElement, O: SaysOther>: Drop {
    ghost use Rattle.std.specs.Prelude.{◌≡◌, OnOk};
    ghost use Rattle.html5amend.specs.Amending.{Amends};

    // What it makes of each element, and of each other token.
    ghost means: { Self → Amends };

    /// Amends an element, at its start tag. An `Err` ends the reading of the page.
    fn element(&self, element: &mut E) -> Result<(), AmendError>
        ensures { OnOk result (E.element element.new ≡ (means self.now).element (E.element element.old)) };

    /// Amends another token: a comment, a doctype, a processing instruction, a NUL in text. An `Err` ends the reading of the page.
    fn other(&self, other: &mut O) -> Result<(), AmendError>
        ensures { OnOk result (O.other other.new ≡ (means self.now).other (O.other other.old)) };
}
