//! Names of elements.
ghost use Rattle.std.specs.Prelude.{◌≡◌, chars};
ghost use Rattle.std.specs.Str.{bytes_eq};
ghost use Rattle.html5cleaner.specs.Open.{names_of, reach};

use std::alloc::Allocator;

/// Whether two names are the same, by their characters.
pub fn is_same(name: &str, other: &str) -> bool
    ensures { result ≡ bytes_eq (chars name.now) (chars other.now) }
{
    name == other
}

/// How many of these there are down to the innermost of this name, which stand innermost last.
#[tactic(auto, unfolding(crate::specs::Open::reach))]
pub fn reach<A: Allocator>(names: &[String<A>], name: &str) -> usize
    ensures { result ≡ reach (names_of names.now) (chars name.now) }
{
    let mut left = names;
    while let Some((inner, rest)) = left.split_last() {
        if is_same(inner.as_str(), name) {
            return names.len() - rest.len();
        }
        left = rest;
    }
    names.len()
}
