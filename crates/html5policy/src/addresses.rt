//! Which addresses are kept.
ghost use Rattle.std.specs.Prelude.{◌≡◌, ◌++◌, codes, map, string_bytes};
ghost use Rattle.html5policy.specs.Addresses.{has_scheme, has_scheme_of, is_passed_over, is_relative, is_safe_address};

use std::alloc::Allocator;

// Whether a byte is passed over where a scheme is looked for.
fn is_passed_over(byte: u8) -> bool
    ensures { result ≡ is_passed_over byte }
{
    byte < 0x21
}

// Whether an address begins with a scheme, which is in small letters, and a colon.
#[tactic(auto, unfolding(crate::specs::Addresses::has_scheme))]
fn has_scheme(address: &[u8], scheme: &[u8]) -> bool
    ensures { result ≡ has_scheme address.now (scheme.now ++ codes ":") }
{
    let mut left = scheme;
    for byte in address {
        if is_passed_over(*byte) {
            continue;
        }
        let Some((letter, others)) = left.split_first() else {
            return *byte == b':';
        };
        if byte.to_ascii_lowercase() != *letter {
            return false;
        }
        left = others;
    }
    false
}

// Whether an address has one of these schemes.
#[tactic(auto, unfolding(crate::specs::Addresses::has_scheme_of))]
fn has_scheme_of<A: Allocator>(schemes: &[String<A>], address: &[u8]) -> bool
    ensures { result ≡ has_scheme_of (map string_bytes schemes.now) address.now }
{
    for scheme in schemes {
        if has_scheme(address, scheme.as_bytes()) {
            return true;
        }
    }
    false
}

// Whether no colon stands before the first `/`, `?` or `#`.
#[tactic(auto, unfolding(crate::specs::Addresses::is_relative))]
fn is_relative(address: &[u8]) -> bool
    ensures { result ≡ is_relative address.now }
{
    for byte in address {
        if *byte == b':' {
            return false;
        }
        if *byte == b'/' || *byte == b'?' || *byte == b'#' {
            return true;
        }
    }
    true
}

/// Whether an address is relative, or has one of these schemes, in any case. White space and controls in
/// front of the scheme or in it are passed over. An address such as `//host` is relative.
#[tactic(auto, unfolding(crate::specs::Addresses::is_safe_address))]
pub fn is_safe_address<A: Allocator>(schemes: &[String<A>], address: &[u8]) -> bool
    ensures { result ≡ is_safe_address (map string_bytes schemes.now) address.now }
{
    is_relative(address) || has_scheme_of(schemes, address)
}
