//! The links of a page, and how they are printed.
ghost use Rattle.std.specs.Prelude.{◌≡◌, ◌++◌, map, option_map, string_bytes, IfOk, OnOk};
ghost use Rattle.std.specs.List.{flat_map};
ghost use Rattle.html5ever_interface.specs.Token.{tag_of};
ghost use Rattle.markup5ever.specs.Names.{attribute_of};
ghost use Rattle.html5extract.specs.Bases.{page_bases, resolved};
ghost use Rattle.html5extract.specs.Links.{value_of, link_attribute, link_of, kept, named_line_of};

use crate::bases::{Bases, shown};
use devices::{Printer, Target};
use html5ever_interface::interface::token::{SinkFault, Tag, TagKind};
use html5programs::Front;
use html5sinks::tags::TagHandler;
use itoa::Buffer;
use markup5ever::interface::Attribute;
use std::alloc::{AllocError, Allocator, Global};

// The value of the first attribute of this name.
#[tactic(auto, unfolding(crate::specs::Links::value_of))]
pub(crate) fn value_of<'t, A: Allocator>(
    attributes: &'t [Attribute<A>],
    name: &str,
) -> Option<&'t String<A>>
    ensures { option_map (λ value. string_bytes value.now) result
        ≡ value_of name.now (map attribute_of attributes.now) }
{
    for attribute in attributes {
        if attribute.name.local.0.as_str() == name {
            return Some(&attribute.value);
        }
    }
    None
}

/// The attribute that holds the link of an element of this name.
#[tactic(auto, unfolding(crate::specs::Links::link_attribute))]
pub fn link_attribute(name: &str) -> Option<&'static str>
    ensures { option_map (λ attribute. attribute.now) result ≡ link_attribute name.now }
{
    match name {
        "a" | "area" | "link" => Some("href"),
        "img" | "script" | "iframe" => Some("src"),
        _ => None,
    }
}

/// The link of a tag: `href` of `a`, `area` and `link`, `src` of `img`, `script` and `iframe`.
pub fn link_of<A: Allocator>(tag: &Tag<A>) -> Option<&String<A>>
    ensures { option_map (λ link. string_bytes link.now) result ≡ link_of (tag_of tag.now) }
{
    match tag.kind {
        TagKind::StartTag => value_of(&tag.attrs, link_attribute(&tag.name.0)?),
        TagKind::EndTag => None,
    }
}

// Appends a byte, unless it is a tab or a line break.
fn push_kept<A: Allocator>(line: &mut Vec<u8, A>, byte: u8) -> Result<(), AllocError>
    ensures { OnOk result (line.new.items ≡ line.old.items ++ kept byte) }
{
    if !matches!(byte, b'\t' | b'\n' | b'\r') {
        line.push(byte)?;
    }
    Ok(())
}

// Appends a link without its tabs and line breaks.
fn push_link<A: Allocator>(line: &mut Vec<u8, A>, link: &[u8]) -> Result<(), AllocError>
    ensures { OnOk result (line.new.items ≡ line.old.items ++ flat_map kept link.now) }
{
    for byte in link {
        push_kept(line, *byte)?;
    }
    Ok(())
}

// The line of a link, where it leads from these bases, after the name in front.
fn line_of<A: Allocator>(
    alloc: A,
    line_number: u64,
    bases: &Bases,
    front: &Front,
    link: &str,
) -> Result<Vec<u8, A>, AllocError>
    ensures { IfOk result (λ line. line.items ≡ named_line_of front.now line_number (resolved bases.now link.now)) }
{
    let url = bases.url_of(link)?;
    let mut line = Vec::new(alloc);
    front.push_to(&mut line)?;
    line.extend_from_slice(Buffer::new().format(line_number).as_bytes())?;
    line.extend_from_slice(b" ")?;
    push_link(&mut line, shown(&url, link).as_bytes())?;
    line.extend_from_slice(b"\n")?;
    Ok(line)
}

/// Prints the links of the tags that it takes, a line each. It has the name in front, if there is one, the number of
/// the line on which the tag ends, a space, and where the link leads. If no URL comes of it, that is the unresolved
/// link, without tabs and line breaks, which no URL has.
#[derive(Drop)]
pub struct Links<W, A: Allocator = Global> {
    pub alloc: A,
    pub printer: Printer<W, A>,
    pub bases: Bases,
    pub front: Front,
}

impl<W, A: Allocator> Links<W, A> {
    /// Prints to the same printer, where a page begins.
    pub fn at_page(self) -> Links<W, A>
        ensures printer { result.printer ≡ self.printer }
        ensures bases { result.bases ≡ page_bases self.bases }
        ensures front { result.front ≡ self.front }
    {
        Links {
            alloc: self.alloc,
            printer: self.printer,
            bases: self.bases.at_page(),
            front: self.front,
        }
    }
}

impl<W: Target, A: Allocator + Copy> TagHandler<Tag<A>> for Links<W, A> {
    ghost use Rattle.html5extract.specs.LinkReading.{LinkReading, link_reading, links_step};

    ghost State = { LinkReading };

    ghost state = { λ l. link_reading l.bases l.front l.printer.printed };

    ghost step = { links_step };

    fn take_tag(&mut self, tag: Tag<A>, line_number: u64) -> Result<(), SinkFault> {
        let Some(link) = link_of(&tag) else {
            return match self.bases.take_tag(&tag) {
                Ok(()) => Ok(()),
                Err(AllocError) => Err(SinkFault),
            };
        };
        let Ok(line) = line_of(
            self.alloc,
            line_number,
            &self.bases,
            &self.front,
            link.as_str(),
        ) else {
            return Err(SinkFault);
        };
        match self.printer.print(&line) {
            Ok(()) => Ok(()),
            Err(_) => Err(SinkFault),
        }
    }
}
