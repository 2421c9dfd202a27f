//! What is hidden: elements that are dropped with all that stands in them.
ghost use Rattle.std.specs.Prelude.{◌≡◌, ℕ, ◌+◌, ◌^◌, ◌<◌, ◌≤◌, ◌↔◌, IsTrue, string_bytes};
ghost use Rattle.html5ever_interface.specs.Token.{tag_of};
ghost use Rattle.html5elements.specs.Hidden.{depth_within, has_content, hidden_of, hidden_within, nothing_hidden};

use crate::is_empty_element;
use html5ever_interface::interface::token::{Tag, TagKind};
use std::alloc::Allocator;

/// How many elements of one name are open and hide their content. If none is, the name says nothing.
#[derive(Drop)]
pub struct Hidden<A: Allocator> {
    pub name: String<A>,
    pub depth: u64,
}

/// Whether a tag begins an element in which something can stand.
pub fn has_content<A: Allocator>(tag: &Tag<A>) -> bool
    ensures { result ≡ has_content (tag_of tag.now) }
{
    match tag.kind {
        TagKind::StartTag => !is_empty_element(&tag.name.0, tag.self_closing),
        TagKind::EndTag => false,
    }
}

impl<A: Allocator> Hidden<A> {
    /// Nothing is hidden.
    pub fn none(alloc: A) -> Hidden<A>
        ensures { hidden_of result ≡ nothing_hidden }
    {
        Hidden {
            name: String::new(alloc),
            depth: 0,
        }
    }

    /// In an element of this name.
    pub fn within(name: String<A>) -> Hidden<A>
        ensures name { string_bytes result.name ≡ string_bytes name }
        ensures depth { result.depth ≡ 1 }
    {
        Hidden { name, depth: 1 }
    }

    /// Whether no more can be counted.
    pub fn is_full(&self) -> bool
        ensures full { IsTrue result ↔ (self.now.depth + 1 ≡ 2 ^ 64) }
        ensures within { self.now.depth + 1 ≤ 2 ^ 64 }
    {
        self.depth == u64::MAX
    }

    // How many are open after a tag within.
    fn depth_within(&self, tag: &Tag<A>) -> u64
        requires { self.now.depth + 1 < 2 ^ 64 }
        ensures { result ≡ depth_within (hidden_of self.now) (tag_of tag.now) }
    {
        if tag.name.0.as_str() != self.name.as_str() {
            return self.depth;
        }
        match tag.kind {
            TagKind::StartTag => self.depth + u64::from(has_content(tag)),
            TagKind::EndTag => self.depth.saturating_sub(1),
        }
    }

    /// Passes a tag within.
    pub fn pass_within(&mut self, tag: &Tag<A>)
        requires { self.old.depth + 1 < 2 ^ 64 }
        ensures { hidden_of self.new ≡ hidden_within (hidden_of self.old) (tag_of tag.now) }
    {
        self.depth = self.depth_within(tag);
    }
}
