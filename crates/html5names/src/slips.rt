//! Slips of the keyboard: names of which a listed one was meant.
ghost use Rattle.std.specs.Prelude.{◌≡◌};
ghost use Rattle.std.specs.Char.{is_ascii_alphanumeric};
ghost use Rattle.std.specs.List.{list_all};
ghost use Rattle.html5names.specs.Slips.{has_one_more, differs_by_one, has_one_other, is_near, is_swap_of, is_swapped, may_be_slip, rests};

// What is left of two names after the longest prefix that they share.
#[tactic(auto, using(crate::proofs::Rests::first_ends, crate::proofs::Rests::second_ends, crate::proofs::Rests::apart))]
fn rests<'n>(name: &'n [u8], other: &'n [u8]) -> (&'n [u8], &'n [u8])
    ensures { (result.0.now, result.1.now) ≡ rests name.now other.now }
{
    match (name, other) {
        ([a, name @ ..], [b, other @ ..]) if a == b => rests(name, other),
        _ => (name, other),
    }
}

// Whether the first two characters are swapped, and the rest is the same.
fn is_swapped(rest: &[u8], other: &[u8]) -> bool
    ensures { result ≡ is_swapped rest.now other.now }
{
    match (rest, other) {
        ([a, b, rest @ ..], [c, d, other @ ..]) => a == d && b == c && rest == other,
        _ => false,
    }
}

// Whether the first has one character more, and the rest is the same.
fn has_one_more(rest: &[u8], other: &[u8]) -> bool
    ensures { result ≡ has_one_more rest.now other.now }
{
    match rest {
        [_, rest @ ..] => rest == other,
        [] => false,
    }
}

// Whether the first characters are others, and the rest is the same.
fn has_one_other(rest: &[u8], other: &[u8]) -> bool
    ensures { result ≡ has_one_other rest.now other.now }
{
    match (rest, other) {
        ([_, rest @ ..], [_, other @ ..]) => rest == other,
        _ => false,
    }
}

fn differs_by_one(rest: &[u8], other: &[u8]) -> bool
    ensures { result ≡ differs_by_one rest.now other.now }
{
    has_one_more(rest, other) || has_one_more(other, rest) || has_one_other(rest, other)
}

/// Whether two neighbouring characters of a name are swapped.
#[tactic(auto, unfolding(crate::specs::Slips::is_swap_of))]
pub fn is_swap_of(name: &str, meant: &str) -> bool
    ensures { result ≡ is_swap_of name.now meant.now }
{
    let (rest, other) = rests(name.as_bytes(), meant.as_bytes());
    is_swapped(rest, other)
}

/// Whether one character of a name is too many, one is missing, or one is another.
#[tactic(auto, unfolding(crate::specs::Slips::is_near))]
pub fn is_near(name: &str, meant: &str) -> bool
    ensures { result ≡ is_near name.now meant.now }
{
    if name.len() < 4 || meant.len() < 4 {
        return false;
    }
    let (rest, other) = rests(name.as_bytes(), meant.as_bytes());
    differs_by_one(rest, other)
}

fn is_alphanumeric(name: &[u8]) -> bool
    ensures { result ≡ list_all is_ascii_alphanumeric name.now }
{
    name.iter().all(|byte| byte.is_ascii_alphanumeric())
}

/// Whether a name may be a slip: it has three letters or digits at least, and nothing else.
#[tactic(auto, unfolding(crate::specs::Slips::may_be_slip))]
pub fn may_be_slip(name: &str) -> bool
    ensures { result ≡ may_be_slip name.now }
{
    name.len() >= 3 && is_alphanumeric(name.as_bytes())
}
