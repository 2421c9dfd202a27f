//! The name of an element: one that the rows of tree construction know, or any other.
ghost use Rattle.std.specs.Prelude.{◌≡◌, IfOk, string_bytes};
ghost use Rattle.std.specs.Str.{bytes_eq};
ghost use Rattle.tree_construction.specs.Names.{kind_of};

use crate::known::{KnownName, kind_by_name};
use markup5ever::interface::LocalName;
use std::alloc::{AllocError, Allocator, Global};
use tree_construction::kinds::Kind;

/// The name of an element.
#[derive(Drop)]
#[derive_where(Debug)]
pub enum ElementName<A: Allocator = Global> {
    /// A name that the rows know.
    Known(KnownName),
    /// Another name, as its text.
    Other(String<A>),
}

impl<A: Allocator> ElementName<A> {
    ghost use Rattle.tree_names.specs.ElementNames.{name_bytes};

    /// The name that a tag has. Nothing is allocated: a name that the rows do not know keeps its text.
    pub fn of(name: LocalName<A>) -> ElementName<A>
        ensures { name_bytes result ≡ string_bytes name.0 }
    {
        match KnownName::find(name.0.as_str()) {
            Some(known) => ElementName::Known(known),
            None => ElementName::Other(name.0),
        }
    }

    /// The name as text.
    pub fn as_str(&self) -> &str
        ensures { result.now ≡ name_bytes self.now }
    {
        match self {
            ElementName::Known(known) => known.as_str(),
            ElementName::Other(text) => text.as_str(),
        }
    }

    /// The kind of an HTML element of this name.
    pub fn kind(&self) -> Kind
        ensures { result ≡ kind_of (name_bytes self.now) }
    {
        match self {
            ElementName::Known(known) => known.kind(),
            ElementName::Other(text) => kind_by_name(text.as_str()),
        }
    }

    /// Whether it is the same name.
    pub fn is(&self, other: &ElementName<A>) -> bool
        ensures { result ≡ bytes_eq (name_bytes self.now) (name_bytes other.now) }
    {
        match (self, other) {
            (ElementName::Known(known), ElementName::Known(other)) => known.is(*other),
            _ => self.as_str() == other.as_str(),
        }
    }
}

impl<A: Allocator + Copy> ElementName<A> {
    ghost use Rattle.tree_names.specs.ElementNames.{name_bytes};

    /// An equal name, with the same allocator.
    pub fn try_clone(&self) -> Result<ElementName<A>, AllocError>
        ensures { IfOk result (λ clone. name_bytes clone ≡ name_bytes self.now) }
    {
        match self {
            ElementName::Known(known) => Ok(ElementName::Known(*known)),
            ElementName::Other(text) => Ok(ElementName::Other(text.clone()?)),
        }
    }
}
