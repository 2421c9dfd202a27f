//! The tags that rows take.
#![tactic(auto, using(crate::proofs::TagKinds::kind_of_html))]

ghost use Rattle.std.specs.Prelude.{◌≡◌};
ghost use Rattle.tree_construction.specs.Names.{kind_of, namespace_of};
ghost use Rattle.tree_construction.specs.declared.kinds.Namespace.TheVariants.{Html};
ghost use Rattle.tree_names.specs.ElementNames.{name_bytes, name_of};

use std::alloc::Allocator;
use tree_construction::kinds::Kind;
use tree_names::known::KnownName;
use tree_names::name::ElementName;

/// A start tag.
#[derive(Drop)]
pub struct StartTag<T, A: Allocator> {
    pub name: ElementName<A>,
    pub attributes: T,
    pub self_closing: bool,
}

impl<T, A: Allocator> StartTag<T, A> {
    /// The kind of an HTML element of its name.
    pub fn kind(&self) -> Kind
        ensures kind { result ≡ kind_of (name_bytes self.now.name) }
        ensures html { namespace_of result ≡ Html }
    {
        self.name.kind()
    }
}

/// The kind of an HTML element of a name that the rows know.
pub fn html_kind(name: KnownName) -> Kind
    ensures kind { result ≡ kind_of (name_of name) }
    ensures html { namespace_of result ≡ Html }
{
    name.kind()
}

/// What is done after a row.
#[derive(Clone, Copy, Debug, PartialEq, Eq)]
pub enum Step {
    /// The token is done with.
    Done,
    /// "Reprocess the token".
    Again,
    /// "Change the token's tag name to img and reprocess it".
    AsImage,
    /// The same two, with foster parenting enabled until the token is done with.
    FosteredAgain,
    FosteredAsImage,
}
