//! The ids of elements.
ghost use Rattle.std.specs.Prelude.{◌≡◌, [], IfOk, OnOk, map, option_map, string_bytes};
ghost use Rattle.html5check.specs.Ids.{id_in, id_of, is_id, is_taken, is_white_space, with_id};
ghost use Rattle.html5ever_interface.specs.Token.{tag_of};
ghost use Rattle.markup5ever.specs.Names.{attribute_of};

use html5ever_interface::interface::token::Tag;
use markup5ever::interface::Attribute;
use std::alloc::{AllocError, Global};
use std::collections::BTreeSet;
use std::marker::Model;

/// The ids that elements have.
#[derive(Drop)]
pub struct Ids<'t> {
    taken: BTreeSet<&'t str>,
}

impl<'t> Model for Ids<'t> {
    ghost use Rattle.std.specs.Prelude.{ℕ, List, map};

    ghost Value = { List (List ℕ) };

    ghost view = { λ i. map (λ id. id.now) i.taken.keys };
}

impl<'t> Ids<'t> {
    /// None is taken.
    pub fn none(alloc: Global) -> Ids<'t>
        ensures { result ≡ [] }
    {
        Ids {
            taken: BTreeSet::new(alloc),
        }
    }

    /// Takes an id, and says whether it was taken before.
    pub fn take(&mut self, id: &'t str) -> Result<bool, AllocError>
        ensures taken { IfOk result (λ was. was ≡ is_taken id.now self.old) }
        ensures with { OnOk result (self.new ≡ with_id id.now self.old) }
    {
        match self.taken.insert(id) {
            Ok(is_new) => Ok(!is_new),
            Err(_) => Err(AllocError),
        }
    }
}

// Whether a value may be an id: it isn't empty, and has no white space.
fn is_id(value: &str) -> bool
    ensures { result ≡ is_id value.now }
{
    !value.is_empty() && value.bytes().all(|byte| !is_white_space(byte))
}

// Whether a byte is white space.
fn is_white_space(byte: u8) -> bool
    ensures { result ≡ is_white_space byte }
{
    matches!(byte, b'\t' | b'\n' | b'\x0c' | b'\r' | b' ')
}

// The value of the attribute `id`.
#[tactic(auto, unfolding(crate::specs::Ids::id_in))]
fn id_in(attributes: &[Attribute]) -> Option<&str>
    ensures { option_map (λ id. id.now) result ≡ id_in (map attribute_of attributes.now) }
{
    for attribute in attributes {
        if attribute.name.local.0.as_str() == "id" {
            return Some(attribute.value.as_str());
        }
    }
    None
}

/// The id of a tag, if it has one that may be one.
pub fn id_of(tag: &Tag) -> Option<&str>
    ensures { option_map (λ id. id.now) result ≡ id_of (tag_of tag.now) }
{
    match id_in(&tag.attrs) {
        Some(id) if is_id(id) => Some(id),
        _ => None,
    }
}
