//! The tag that is open up to its last attribute: its attributes stand in order, and are found by their names.
#![tactic(auto, unfolding(html5reading::specs::Tag::has_attribute))]

ghost use Rattle.std.specs.Prelude.{◌≡◌, ◌+◌, ◌∷◌, [], ◌++◌, true, false, flat_map, length, map, nat_eq, not, IfOk, OnErr, OnOk, string_bytes};
ghost use Rattle.std.specs.List.{AllPass};
ghost use Rattle.std.specs.Str.{chars};
ghost use Rattle.html5ever_interface.specs.Token.{Told, is_tag, reply_of, tag_of, told_by};
ghost use Rattle.html5partial.specs.IndexedTag.{AddsName, HasNames, HasNamesAnd, Indexes, tag_told};
ghost use Rattle.html5partial.specs.Runs.{stays_in_names};
ghost use Rattle.html5reading.specs.Characters.{name_bytes};
ghost use Rattle.html5reading.specs.Start.{begun};
ghost use Rattle.html5reading.specs.Tag.{attribute, has_attribute, told_tag};
ghost use Rattle.markup5ever.specs.Names.{attribute_of};

use crate::spares::Spares;
use crate::tag_parts::{
    begin, begun_tag, push_attribute, push_front_to, push_name_to, push_names_to,
};
use html5ever_interface::interface::sink::TokenSink;
use html5ever_interface::interface::token::{SinkFault, Tag, TagKind, Token, TokenSinkResult};
use markup5ever::interface::Attribute;
use std::alloc::{AllocError, Allocator, Global};
use std::collections::BTreeSet;
use std::marker::Model;
use std::mem;

/// From more attributes than this on, a name is looked up in the set of names.
const FEW: usize = 16;

/// A tag as the token that will be sent, so that it is sent from where it lies. No attribute has a prefix or a namespace.
pub struct IndexedTag<A: Allocator = Global> {
    // A tag, always.
    token: Token<A>,
    // If there are many attributes, their names.
    names: BTreeSet<String<A>, A>,
    is_indexed: bool,
}

impl<A: Allocator> Drop for IndexedTag<A> {
    fn drop(self) {
        let IndexedTag {
            token: _,
            names: _,
            is_indexed: _,
        } = self;
    }
}

impl<A: Allocator> Model for IndexedTag<A> {
    ghost use Rattle.std.specs.Prelude.{◌≡◌, true};
    ghost use Rattle.html5ever_interface.specs.Token.{TagOf, is_tag, told_by};
    ghost use Rattle.html5partial.specs.IndexedTag.{Indexes, tag_told};

    ghost Value = { TagOf };

    ghost view = { λ t. tag_told (told_by t.token) };

    ghost invariant = { λ t. (is_tag (told_by t.token) ≡ true)
        × Indexes t.is_indexed t.names (tag_told (told_by t.token)).attributes };
}

// Whether one of the attributes has the name.
fn is_among<A: Allocator>(attributes: &[Attribute<A>], name: &str) -> bool
    ensures { result ≡ has_attribute (map attribute_of attributes.now) name.now }
{
    for attribute in attributes {
        if attribute.name.local.0.as_str() == name {
            return true;
        }
    }
    false
}

// Adds a name to the set.
fn add_name<A: Allocator + Copy>(
    names: &mut BTreeSet<String<A>, A>,
    name: &String<A>,
) -> Result<(), AllocError>
    ensures { OnOk result (AddsName names.old names.new (string_bytes name.now)) }
{
    names.insert(name.clone()?)?;
    Ok(())
}

// Makes the set that of the names of the attributes.
fn index<A: Allocator + Copy>(
    names: &mut BTreeSet<String<A>, A>,
    attributes: &[Attribute<A>],
) -> Result<(), AllocError>
    ensures { OnOk result (HasNames names.new (map attribute_of attributes.now)) }
{
    names.clear();
    for attribute in attributes {
        add_name(names, &attribute.name.local.0)?;
    }
    Ok(())
}

// Makes the set that of the names of the attributes, where it is not, and adds a name.
fn index_with<A: Allocator + Copy>(
    names: &mut BTreeSet<String<A>, A>,
    is_indexed: bool,
    attributes: &[Attribute<A>],
    name: &String<A>,
) -> Result<(), AllocError>
    requires { Indexes is_indexed names.old (map attribute_of attributes.now) }
    ensures { OnOk result (HasNamesAnd names.new (map attribute_of attributes.now) (string_bytes name.now)) }
{
    if !is_indexed {
        index(names, attributes)?;
    }
    add_name(names, name)
}

// Appends an attribute, and answers whether the set is that of the names then.
fn push_and_index<A: Allocator + Copy>(
    alloc: A,
    tag: &mut Tag<A>,
    names: &mut BTreeSet<String<A>, A>,
    is_indexed: bool,
    name: String<A>,
    value: String<A>,
) -> Result<bool, AllocError>
    requires { Indexes is_indexed names.old (map attribute_of tag.old.attrs.items) }
    ensures appended { OnOk result (tag_of tag.new ≡ record (tag_of tag.old) {
      attributes = map attribute_of tag.old.attrs.items ++ attribute (string_bytes name) (string_bytes value) ∷ [];
    }) }
    ensures indexed { IfOk result (λ indexed. Indexes indexed names.new (map attribute_of tag.new.attrs.items)) }
{
    if tag.attrs.len() < FEW {
        push_attribute(alloc, tag, name, value)?;
        return Ok(false);
    }
    index_with(names, is_indexed, &tag.attrs, &name)?;
    push_attribute(alloc, tag, name, value)?;
    Ok(true)
}

// The tag that a token is.
#[inline(always)]
fn tag_in<A: Allocator>(token: &Token<A>) -> &Tag<A>
    requires { is_tag (told_by token.now) ≡ true }
    ensures { tag_of result.now ≡ tag_told (told_by token.now) }
{
    let Token::TagToken(tag) = token else {
        unreachable!()
    };
    tag
}

// Leaves a tag where a sink took the token.
#[inline(always)]
fn keep_tag<A: Allocator + Copy>(alloc: A, token: &mut Token<A>)
    ensures { is_tag (told_by token.new) ≡ true }
{
    if let Token::TagToken(_) = token {
        return;
    }
    *token = Token::TagToken(begun_tag(alloc, TagKind::StartTag));
}

impl<A: Allocator + Copy> IndexedTag<A> {
    /// A tag of which nothing was read.
    pub fn new(alloc: A, kind: TagKind) -> IndexedTag<A>
        ensures { result ≡ told_tag (begun kind) false }
    {
        IndexedTag {
            token: Token::TagToken(begun_tag(alloc, kind)),
            names: BTreeSet::new(alloc),
            is_indexed: false,
        }
    }

    /// Appends an attribute.
    pub fn push_attribute(
        &mut self,
        alloc: A,
        name: String<A>,
        value: String<A>,
    ) -> Result<(), AllocError>
        ensures { OnOk result (self.new ≡ record self.old {
          attributes = self.old.attributes ++ attribute (string_bytes name) (string_bytes value) ∷ [];
        }) }
    {
        let is_indexed = mem::replace(&mut self.is_indexed, false);
        let Token::TagToken(tag) = &mut self.token else {
            unreachable!()
        };
        self.is_indexed = push_and_index(alloc, tag, &mut self.names, is_indexed, name, value)?;
        Ok(())
    }

    /// Sends a sink the tag from where it lies. What stays here says nothing until the next tag begins.
    #[inline(always)]
    pub fn send<S: TokenSink<Token<A>>>(
        &mut self,
        alloc: A,
        sink: &mut S,
        line: u64,
    ) -> Result<TokenSinkResult<S::Handle, String<A>>, SinkFault>
        ensures steps { OnOk result (S.means.state sink.new ≡ S.means.step (S.means.state sink.old) (Told.Tag self.old) line) }
        ensures replies { IfOk result (λ reply. reply_of string_bytes reply
            ≡ S.means.reply (S.means.state sink.old) (Told.Tag self.old) line) }
        ensures fault { OnErr result
            (S.means.state sink.new ≡ S.means.faulted (S.means.state sink.old) (Told.Tag self.old) line) }
        ensures no_fault { OnOk result (S.faults sink.new ≡ S.faults sink.old) }
        ensures one_fault { OnErr result (S.faults sink.new ≡ S.faults sink.old + 1) }
    {
        self.is_indexed = false;
        let reply = sink.process_lent(&mut self.token, line);
        keep_tag(alloc, &mut self.token);
        reply
    }
}

impl<A: Allocator> IndexedTag<A> {
    /// Begins a tag of which nothing was read yet. Buffers are kept, and so is the memory of attributes that were sent.
    #[inline(always)]
    pub fn begin(&mut self, kind: TagKind, spares: &mut Spares<A>)
        ensures kind { self.new.kind ≡ kind }
        ensures name { self.new.name ≡ [] }
        ensures attributes { self.new.attributes ≡ [] }
        ensures no_duplicate { self.new.had_duplicate_attributes ≡ false }
    {
        self.is_indexed = false;
        let Token::TagToken(tag) = &mut self.token else {
            unreachable!()
        };
        begin(tag, kind, spares);
    }

    /// Whether it is a start tag or an end tag.
    #[inline(always)]
    pub fn kind(&self) -> TagKind
        ensures { result ≡ self.now.kind }
    {
        tag_in(&self.token).kind
    }

    /// The name so far.
    #[inline(always)]
    pub fn name(&self) -> &str
        ensures { result.now ≡ self.now.name }
    {
        tag_in(&self.token).name.0.as_str()
    }

    /// Whether there is an attribute.
    #[inline(always)]
    pub fn has_attributes(&self) -> bool
        ensures { result ≡ not (nat_eq (length self.now.attributes) 0) }
    {
        !tag_in(&self.token).attrs.is_empty()
    }

    /// Whether an attribute has the name.
    pub fn has_attribute(&self, name: &str) -> bool
        ensures { result ≡ has_attribute self.now.attributes name.now }
    {
        if self.is_indexed {
            return self.names.contains(name);
        }
        is_among(&tag_in(&self.token).attrs, name)
    }

    /// Sets the name.
    pub fn set_name(&mut self, name: String<A>)
        ensures { self.new ≡ record self.old { name = string_bytes name } }
    {
        let Token::TagToken(tag) = &mut self.token else {
            unreachable!()
        };
        tag.name.0 = name;
    }

    /// Appends a character to the name, a letter in lower case.
    pub fn push_name(&mut self, c: char) -> Result<(), AllocError>
        ensures { OnOk result (self.new ≡ record self.old { name = self.old.name ++ name_bytes c }) }
    {
        let Token::TagToken(tag) = &mut self.token else {
            unreachable!()
        };
        push_name_to(tag, c)
    }

    /// Appends a run to the name, its letters in lower case.
    #[inline(always)]
    pub fn push_names(&mut self, run: &str) -> Result<(), AllocError>
        ensures { OnOk result (self.new ≡ record self.old {
          name = self.old.name ++ flat_map name_bytes (chars run.now);
        }) }
    {
        let Token::TagToken(tag) = &mut self.token else {
            unreachable!()
        };
        push_names_to(tag, run)
    }

    /// Appends the front of a name, its letters in lower case. A plain one has none in upper case, and no NUL.
    #[inline(always)]
    pub fn push_front(&mut self, front: &str, is_plain: bool) -> Result<(), AllocError>
        requires { is_plain ≡ true → AllPass stays_in_names front.now }
        ensures { OnOk result (self.new ≡ record self.old {
          name = self.old.name ++ flat_map name_bytes (chars front.now);
        }) }
    {
        let Token::TagToken(tag) = &mut self.token else {
            unreachable!()
        };
        push_front_to(tag, front, is_plain)
    }

    /// Sets whether the tag closes itself, which is known at its end.
    #[inline(always)]
    pub fn set_self_closing(&mut self, self_closing: bool)
        ensures { self.new ≡ record self.old { self_closing = self_closing } }
    {
        let Token::TagToken(tag) = &mut self.token else {
            unreachable!()
        };
        tag.self_closing = self_closing;
    }

    /// Notes that an attribute was dropped, since another has its name.
    pub fn note_duplicate(&mut self)
        ensures { self.new ≡ record self.old { had_duplicate_attributes = true } }
    {
        let Token::TagToken(tag) = &mut self.token else {
            unreachable!()
        };
        tag.had_duplicate_attributes = true;
    }
}
