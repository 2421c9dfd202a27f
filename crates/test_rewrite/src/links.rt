//! A rewriter of links.
ghost use Rattle.std.specs.Prelude.{◌≡◌, ◌++◌, IfOk, OnOk, option_map, string_bytes};
ghost use Rattle.html5ever_interface.specs.Token.{tag_of};
ghost use Rattle.test_rewrite.specs.Links.{absolute, is_local};

use html5ever_interface::interface::token::Tag;
use html5rewrite::{Keep, TagRewriter, drop_attribute, set_attribute, value_of};
use std::alloc::{AllocError, Allocator, Global};

/// Puts a base in front of the links within a site, and drops `target`, fonts, images and navigation.
#[derive(Clone, Copy)]
pub struct AbsoluteLinks<'t, A: Allocator = Global> {
    pub alloc: A,
    pub base: &'t str,
}

// Whether an address is one within the site.
fn is_local(address: &str) -> bool
    ensures { result ≡ is_local address.now }
{
    address.starts_with("/") && !address.starts_with("//")
}

// An address with the base in front.
fn joined<A: Allocator + Copy>(alloc: A, base: &str, address: &str) -> Result<String<A>, AllocError>
    ensures { IfOk result (λ joined. string_bytes joined ≡ base.now ++ address.now) }
{
    let mut joined = String::from_str(alloc, base)?;
    joined.push_str(address)?;
    Ok(joined)
}

// Puts the base in front of the link of a tag, where it is one within the site.
fn make_absolute<A: Allocator + Copy>(
    alloc: A,
    base: &str,
    tag: &mut Tag<A>,
) -> Result<(), AllocError>
    ensures { OnOk result (tag_of tag.new ≡ absolute base.now (tag_of tag.old)) }
{
    let Some(href) = value_of(&tag.attrs, "href") else {
        return Ok(());
    };
    if !is_local(href) {
        return Ok(());
    }
    let href = joined(alloc, base, href)?;
    set_attribute(alloc, tag, "href", href)
}

impl<A: Allocator + Copy> TagRewriter<Tag<A>> for AbsoluteLinks<'_, A> {
    ghost use Rattle.test_rewrite.specs.Links.{kept, linked};

    ghost means = { λ r. record { keeps = kept; rewritten = linked r.base.now } };

    fn keep(&self, tag: &Tag<A>) -> Keep {
        match tag.name.0.as_str() {
            "font" => Keep::ContentOnly,
            "nav" | "img" => Keep::Nothing,
            _ => Keep::Tag,
        }
    }

    fn rewrite(&self, tag: &mut Tag<A>) -> Result<(), AllocError> {
        drop_attribute(tag, "target");
        make_absolute(self.alloc, self.base, tag)
    }
}
