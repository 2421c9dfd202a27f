//! Names of elements and attributes, and attributes.
ghost use Rattle.std.specs.Prelude.{◌≡◌, IfOk, string_bytes};

use std::alloc::{AllocError, Allocator, Global};

/// A name without its prefix.
#[derive(Drop)]
#[derive_where(Debug, PartialEq, Eq, PartialOrd, Ord, Hash)]
pub struct LocalName<A: Allocator = Global>(pub String<A>);

/// The part of a name before its colon.
#[derive(Drop)]
#[derive_where(Debug, PartialEq, Eq, PartialOrd, Ord, Hash)]
pub struct Prefix<A: Allocator = Global>(pub String<A>);

/// The URL of a namespace. It is empty where a name has none.
#[derive(Drop)]
#[derive_where(Debug, PartialEq, Eq, PartialOrd, Ord, Hash)]
pub struct Namespace<A: Allocator = Global>(pub String<A>);

/// A name with its prefix and its namespace.
#[derive(Drop)]
#[derive_where(Debug, PartialEq, Eq, PartialOrd, Ord, Hash)]
pub struct QualName<A: Allocator = Global> {
    pub prefix: Option<Prefix<A>>,
    pub ns: Namespace<A>,
    pub local: LocalName<A>,
}

/// An attribute of a tag.
#[derive(Drop)]
#[derive_where(Debug, PartialEq, Eq, PartialOrd, Ord, Hash)]
pub struct Attribute<A: Allocator = Global> {
    /// The name. A tokenizer gives it no prefix and no namespace: in `local` ASCII letters are in
    /// lower case, and U+0000 is U+FFFD.
    pub name: QualName<A>,
    /// The value, without its quotes: line breaks are LF, and U+0000 is U+FFFD. It is empty where the
    /// attribute has none.
    pub value: String<A>,
}

impl<A: Allocator> QualName<A> {
    /// The name with these parts.
    pub fn new(prefix: Option<Prefix<A>>, ns: Namespace<A>, local: LocalName<A>) -> QualName<A>
        ensures prefix { result.prefix ≡ prefix }
        ensures ns { result.ns ≡ ns }
        ensures local { result.local ≡ local }
    {
        Self { prefix, ns, local }
    }
}

impl<A: Allocator + Copy> LocalName<A> {
    /// An equal name, with the same allocator.
    pub fn try_clone(&self) -> Result<LocalName<A>, AllocError>
        ensures { IfOk result (λ clone. string_bytes clone.0 ≡ string_bytes self.now.0) }
    {
        Ok(LocalName(self.0.clone()?))
    }
}

impl<A: Allocator + Copy> Prefix<A> {
    /// An equal prefix, with the same allocator.
    pub fn try_clone(&self) -> Result<Prefix<A>, AllocError>
        ensures { IfOk result (λ clone. string_bytes clone.0 ≡ string_bytes self.now.0) }
    {
        Ok(Prefix(self.0.clone()?))
    }
}

impl<A: Allocator + Copy> Namespace<A> {
    /// An equal namespace, with the same allocator.
    pub fn try_clone(&self) -> Result<Namespace<A>, AllocError>
        ensures { IfOk result (λ clone. string_bytes clone.0 ≡ string_bytes self.now.0) }
    {
        Ok(Namespace(self.0.clone()?))
    }
}

impl<A: Allocator + Copy> QualName<A> {
    ghost use Rattle.markup5ever.specs.Names.{qualified_name_of};

    /// An equal name, with the same allocator.
    pub fn try_clone(&self) -> Result<QualName<A>, AllocError>
        ensures { IfOk result (λ clone. qualified_name_of clone ≡ qualified_name_of self.now) }
    {
        let prefix = match &self.prefix {
            Some(prefix) => Some(prefix.try_clone()?),
            None => None,
        };
        let ns = self.ns.try_clone()?;
        let local = self.local.try_clone()?;
        Ok(QualName { prefix, ns, local })
    }
}

impl<A: Allocator + Copy> Attribute<A> {
    ghost use Rattle.markup5ever.specs.Names.{attribute_of};

    /// An equal attribute, with the same allocator.
    pub fn try_clone(&self) -> Result<Attribute<A>, AllocError>
        ensures { IfOk result (λ clone. attribute_of clone ≡ attribute_of self.now) }
    {
        let name = self.name.try_clone()?;
        let value = self.value.clone()?;
        Ok(Attribute { name, value })
    }
}
