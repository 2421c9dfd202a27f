//! A handler of links.
use html5amend::{AmendError, Amender, Element, Other};
use std::alloc::Allocator;

/// Links get `rel=nofollow`.
#[derive(Clone, Copy)]
pub struct Links;

impl<A: Allocator + Copy> Amender<Element<A>, Other<A>> for Links {
    ghost use Rattle.test_amend.specs.Links.{links_not_followed};

    ghost means = { λ _. links_not_followed };

    fn element(&self, element: &mut Element<A>) -> Result<(), AmendError> {
        if element.tag_name() == "a" {
            element.set_attribute("rel", "nofollow")?;
        }
        Ok(())
    }

    fn other(&self, _other: &mut Other<A>) -> Result<(), AmendError> {
        Ok(())
    }
}
