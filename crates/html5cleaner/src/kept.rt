//! The kept part of a run of text and of a tag.
ghost use Rattle.std.specs.Prelude.{◌≡◌, ◌++◌, chars, encode_utf8_all, map, string_bytes, OnErr, OnOk};
ghost use Rattle.html5ever_interface.specs.Token.{tag_of, told_by};
ghost use Rattle.std.specs.List.{list_any};
ghost use Rattle.markup5ever.specs.Names.{attribute_of};
ghost use Rattle.html5write.specs.Writing.{attribute_of as written_attribute, piece_of};
ghost use Rattle.html5cleaner.specs.Balance.{is_end};
ghost use Rattle.html5cleaner.specs.Clean.{allows_by_kind, attribute_chars, end_piece, has_end, is_lost_image, is_refused_source, kept_attributes, kept_of_parts, kept_of_run, kept_of_tag, where_writable};
ghost use Rattle.html5cleaner.specs.Kept.{piece_where};

use html5elements::is_void;
use html5ever_interface::interface::token::{Tag, TagKind, Token};
use html5policy::Policy;
use html5write::laws::refusals;
use html5write::{Attribute, Piece, Writable, WriteError, Writer};
use markup5ever::interface::Attribute as TagAttribute;
use std::alloc::Allocator;

/// Whether a token is the end of a page.
pub fn is_end<A: Allocator>(token: &Token<A>) -> bool
    ensures { result ≡ is_end (told_by token.now) }
{
    matches!(token, Token::EOFToken)
}

// The piece, if it can be written.
#[inline(always)]
fn where_writable(piece: Piece<'_>) -> Option<Writable<'_>>
    ensures { piece_where result ≡ where_writable (piece_of piece.entry) }
{
    refusals();
    Writable::new(piece).ok()
}

// Whether a tag of this kind and name is kept, by the characters of the name.
fn is_kept_tag<A: Allocator>(policy: &Policy<A>, kind: TagKind, name: &str) -> bool
    ensures { result ≡ allows_by_kind policy.now kind (encode_utf8_all (chars name.now)) }
{
    match kind {
        TagKind::StartTag => policy.is_allowed(name),
        TagKind::EndTag => policy.is_allowed(name) && has_end(name),
    }
}

// Whether an end tag of this name is read.
fn has_end(name: &str) -> bool
    ensures { result ≡ has_end name.now }
{
    name == "br" || !is_void(name)
}

// What is read at an end tag of this name.
fn end_piece(name: &str) -> Piece<'_>
    ensures { piece_of result ≡ end_piece (chars name.now) }
{
    if name == "br" {
        return Piece::StartTag {
            name,
            attributes: &[],
        };
    }
    Piece::EndTag(name)
}

/// The kept part of a run of text.
#[tactic(auto, unfolding(crate::specs::Clean::kept_of_run))]
pub fn kept_run(run: &str) -> Option<Writable<'_>>
    ensures { piece_where result ≡ kept_of_run run.now }
{
    if run.is_empty() {
        return None;
    }
    where_writable(Piece::Text(run))
}

// The kept part of a tag of this kind and name, where these are its attributes.
#[tactic(auto, unfolding(crate::specs::Clean::kept_of_parts))]
fn kept_of_parts<'t, A: Allocator>(
    policy: &Policy<A>,
    kind: TagKind,
    name: &'t str,
    attributes: &'t [Attribute<'t>],
) -> Option<Writable<'t>>
    ensures { piece_where result ≡ kept_of_parts policy.now kind (chars name.now) (map written_attribute attributes.now) }
{
    if !is_kept_tag(policy, kind, name) {
        return None;
    }
    match kind {
        TagKind::StartTag => where_writable(Piece::StartTag { name, attributes }),
        TagKind::EndTag => where_writable(end_piece(name)),
    }
}

// Whether an attribute is the `src` of an image, and its address is refused.
fn is_refused_source<A: Allocator>(policy: &Policy<A>, attribute: &TagAttribute<A>) -> bool
    ensures { result ≡ is_refused_source policy.now (attribute_of attribute.now) }
{
    attribute.name.local.0.as_str() == "src"
        && policy.refuses_address("img", "src", attribute.value.as_str())
}

// Whether one of these is.
fn refuses_source<A: Allocator>(policy: &Policy<A>, attributes: &[TagAttribute<A>]) -> bool
    ensures { result ≡ list_any (is_refused_source policy.now) (map attribute_of attributes.now) }
{
    for attribute in attributes {
        if is_refused_source(policy, attribute) {
            return true;
        }
    }
    false
}

// Whether it is a tag of an image whose address is refused.
fn is_lost_image<A: Allocator>(policy: &Policy<A>, tag: &Tag<A>) -> bool
    ensures { result ≡ is_lost_image policy.now (tag_of tag.now) }
{
    tag.name.0.as_str() == "img" && refuses_source(policy, &tag.attrs)
}

/// The kept part of a tag, where these of its attributes are kept.
#[tactic(auto, unfolding(crate::specs::Clean::kept_of_tag))]
pub fn kept_tag<'t, A: Allocator>(
    policy: &Policy<A>,
    tag: &'t Tag<A>,
    attributes: &'t [Attribute<'t>],
) -> Option<Writable<'t>>
    requires { map written_attribute attributes.now ≡ kept_attributes policy.now (chars (tag_of tag.now).name)
        (map attribute_chars (tag_of tag.now).attributes) }
    ensures { piece_where result ≡ kept_of_tag policy.now (tag_of tag.now) }
{
    if is_lost_image(policy, tag) {
        return None;
    }
    kept_of_parts(policy, tag.kind, &tag.name.0, attributes)
}

// Writes a piece, if there is one: all of it or nothing.
fn write_where<A: Allocator + Copy>(
    page: &mut Writer<A>,
    piece: &Option<Writable<'_>>,
) -> Result<(), WriteError>
    ensures written { OnOk result (page.new ≡ page.old ++ piece_where piece.now) }
    ensures unchanged { OnErr result (page.new ≡ page.old) }
{
    match piece {
        None => Ok(()),
        Some(piece) => page.put(piece),
    }
}

/// Writes kept pieces, all of them or none.
pub fn write_kept<A: Allocator + Copy>(
    page: &mut Writer<A>,
    run: &Option<Writable<'_>>,
    tag: &Option<Writable<'_>>,
) -> Result<(), WriteError>
    ensures written { OnOk result (page.new ≡ page.old ++ (piece_where run.now ++ piece_where tag.now)) }
    ensures unchanged { OnErr result (page.new ≡ page.old) }
{
    match run {
        None => write_where(page, tag),
        Some(run) => match tag {
            None => page.put(run),
            Some(tag) => page.put_both(run, tag),
        },
    }
}
