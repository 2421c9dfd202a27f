//! The tag that is open, and what the standard does with it.
#![tactic(auto, unfolding(html5reading::specs::Characters::name_bytes, html5reading::specs::Characters::value_bytes, html5reading::specs::Characters::shown, html5reading::specs::Characters::is_letter, html5reading::specs::Tag::with_last_attribute, html5reading::specs::Tag::duplicate_error, html5reading::specs::Tag::repeats_attribute))]

ghost use Rattle.std.specs.Prelude.{◌≡◌, ◌&&◌, ◌++◌, true, false, not, IfOk, OnOk, string_bytes};
ghost use Rattle.html5reading.specs.Characters.{name_bytes, value_bytes};
ghost use Rattle.html5reading.specs.Start.{begun};
ghost use Rattle.html5reading.specs.Tag.{has_last, repeats_attribute, with_last_attribute};
ghost use Rattle.html5partial.specs.CurrentTag.{open_tag};

use crate::characters::{name_character, shown};
use crate::indexed_tag::IndexedTag;
use crate::spares::Spares;
use html5ever_interface::interface::token::TagKind;
use std::alloc::{AllocError, Allocator, Global};
use std::mem;

/// The tag that is open. Its last attribute is still being read; without a name there is none.
#[derive(Drop)]
pub struct CurrentTag<A: Allocator = Global> {
    /// The tag up to its last attribute.
    pub indexed: IndexedTag<A>,
    pub attr_name: String<A>,
    pub attr_value: String<A>,
    /// Memory for the attributes to come.
    pub spares: Spares<A>,
}

impl<A: Allocator + Copy> CurrentTag<A> {
    /// A tag of which nothing was read.
    pub fn new(alloc: A, kind: TagKind) -> CurrentTag<A>
        ensures { open_tag result ≡ begun kind }
    {
        CurrentTag {
            indexed: IndexedTag::new(alloc, kind),
            attr_name: String::new(alloc),
            attr_value: String::new(alloc),
            spares: Spares::new(alloc),
        }
    }

    /// Begins a tag of which nothing was read yet. Buffers are kept.
    #[inline(always)]
    pub fn begin(&mut self, kind: TagKind)
        ensures { open_tag self.new ≡ begun kind }
    {
        self.indexed.begin(kind, &mut self.spares);
        self.attr_name.clear();
        self.attr_value.clear();
    }

    /// Ends the last attribute, if there is one. Where the tag already has its name, nothing changes.
    /// Answers whether it ended.
    #[inline(always)]
    pub fn keep_attribute(&mut self, alloc: A) -> Result<bool, AllocError>
        ensures kept { IfOk result (λ kept. kept
            ≡ not (has_last (open_tag self.old) && repeats_attribute (open_tag self.old))) }
        ensures finished { IfOk result (λ kept. kept ≡ true
            → open_tag self.new ≡ with_last_attribute (open_tag self.old)) }
        ensures unchanged { IfOk result (λ kept. kept ≡ false → self.new ≡ self.old) }
    {
        if self.attr_name.is_empty() {
            return Ok(true);
        }
        self.keep_named_attribute(alloc)
    }

    // Ends the last attribute, which has a name. Where the tag already has that, nothing changes.
    #[inline(never)]
    fn keep_named_attribute(&mut self, alloc: A) -> Result<bool, AllocError>
        requires { has_last (open_tag self.old) ≡ true }
        ensures kept { IfOk result (λ kept. kept ≡ not (repeats_attribute (open_tag self.old))) }
        ensures finished { IfOk result (λ kept. kept ≡ true
            → open_tag self.new ≡ with_last_attribute (open_tag self.old)) }
        ensures unchanged { IfOk result (λ kept. kept ≡ false → self.new ≡ self.old) }
    {
        if self.indexed.has_attribute(&self.attr_name) {
            return Ok(false);
        }
        let next_name = self.spares.take(alloc)?;
        let next_value = self.spares.take(alloc)?;
        let name = mem::replace(&mut self.attr_name, next_name);
        let value = mem::replace(&mut self.attr_value, next_value);
        self.indexed.push_attribute(alloc, name, value)?;
        Ok(true)
    }

    /// Ends the last attribute, if there is one. It is dropped where the tag already has its name.
    /// Answers whether it was dropped.
    pub fn end_attribute(&mut self, alloc: A) -> Result<bool, AllocError>
        ensures repeated { IfOk result (λ repeated. repeated
            ≡ (has_last (open_tag self.old) && repeats_attribute (open_tag self.old))) }
        ensures finished { OnOk result (open_tag self.new ≡ with_last_attribute (open_tag self.old)) }
    {
        if self.keep_attribute(alloc)? {
            return Ok(false);
        }
        self.indexed.note_duplicate();
        self.attr_name.clear();
        self.attr_value.clear();
        Ok(true)
    }
}

/// Appends a character to a name, a letter in lower case.
pub fn push_name<A: Allocator>(name: &mut String<A>, c: char) -> Result<(), AllocError>
    ensures { OnOk result (string_bytes name.new ≡ string_bytes name.old ++ name_bytes c) }
{
    name.push(name_character(c))
}

/// Appends a character to a value.
pub fn push_value<A: Allocator>(value: &mut String<A>, c: char) -> Result<(), AllocError>
    ensures { OnOk result (string_bytes value.new ≡ string_bytes value.old ++ value_bytes c) }
{
    value.push(shown(c))
}
