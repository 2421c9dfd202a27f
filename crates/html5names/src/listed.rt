//! Names among listed ones.
ghost use Rattle.std.specs.Prelude.{◌≡◌, IsTrue, option_map};
ghost use Rattle.std.specs.List.{find, list_any};
ghost use Rattle.std.specs.Str.{bytes_eq};
ghost use Rattle.html5names.specs.Listed.{is_in_order, names_of};
ghost use Rattle.html5names.specs.Slips.{is_near, is_swap_of, meant_among, nearest};

use crate::slips::{is_near, is_swap_of, may_be_slip};

/// Whether a name is listed, in a list that is in the order of its bytes.
pub fn is_listed(listed: &[&str], name: &str) -> bool
    requires { IsTrue (is_in_order (names_of listed.now)) }
    ensures { result ≡ list_any (bytes_eq name.now) (names_of listed.now) }
{
    listed.binary_search(&name).is_ok()
}

// The first listed name of which two characters are swapped.
fn first_swapped(listed: &'static [&'static str], name: &str) -> Option<&'static str>
    ensures { result ≡ find (λ meant. is_swap_of name.now meant.now) listed.now }
{
    listed.iter().copied().find(|meant| is_swap_of(name, meant))
}

// The first listed name that is near.
fn first_near(listed: &'static [&'static str], name: &str) -> Option<&'static str>
    ensures { result ≡ find (λ meant. is_near name.now meant.now) listed.now }
{
    listed.iter().copied().find(|meant| is_near(name, meant))
}

// The first of which two characters are swapped, or else the first that is near.
fn nearest(listed: &'static [&'static str], name: &str) -> Option<&'static str>
    ensures { option_map (λ meant. meant.now) result ≡ nearest (names_of listed.now) name.now }
{
    match first_swapped(listed, name) {
        Some(meant) => Some(meant),
        None => first_near(listed, name),
    }
}

/// The listed name that was meant by one that isn't listed.
#[tactic(auto, unfolding(crate::specs::Slips::meant_among))]
pub fn meant_among(listed: &'static [&'static str], name: &str) -> Option<&'static str>
    requires { IsTrue (is_in_order (names_of listed.now)) }
    ensures { option_map (λ meant. meant.now) result ≡ meant_among (names_of listed.now) name.now }
{
    if is_listed(listed, name) || !may_be_slip(name) {
        return None;
    }
    nearest(listed, name)
}
