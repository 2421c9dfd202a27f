//! The names of attributes as they are shown, and their order.
ghost use Rattle.std.specs.Prelude.{◌≡◌, ◌<◌, length, get_or};
ghost use Rattle.markup5ever.specs.Names.{attribute_of};
ghost use Rattle.tree_lines.specs.Lines.{comes_before, shown_name};

use markup5ever::interface::Attribute;
use std::alloc::Allocator;

// How many bytes the name of an attribute has.
fn shown_len<A: Allocator>(attribute: &Attribute<A>) -> usize
    ensures { result ≡ length (shown_name (attribute_of attribute.now)) }
{
    let local = attribute.name.local.0.len();
    match &attribute.name.prefix {
        Some(prefix) => prefix.0.len() + 1 + local,
        None => local,
    }
}

// A byte of the name of an attribute.
fn shown_byte<A: Allocator>(attribute: &Attribute<A>, at: usize) -> u8
    requires { at < length (shown_name (attribute_of attribute.now)) }
    ensures { result ≡ get_or (shown_name (attribute_of attribute.now)) at 0 }
{
    let local = attribute.name.local.0.as_bytes();
    match &attribute.name.prefix {
        Some(prefix) => {
            let prefix = prefix.0.as_bytes();
            if at < prefix.len() {
                prefix[at]
            } else if at == prefix.len() {
                b' '
            } else {
                local[at - prefix.len() - 1]
            }
        }
        None => local[at],
    }
}

/// Whether the name of an attribute comes before that of another.
pub fn comes_before<A: Allocator>(attribute: &Attribute<A>, other: &Attribute<A>) -> bool
    ensures { result
        ≡ comes_before (shown_name (attribute_of attribute.now)) (shown_name (attribute_of other.now)) }
{
    let (len, other_len) = (shown_len(attribute), shown_len(other));
    for at in 0..len.min(other_len) {
        let (byte, other_byte) = (shown_byte(attribute, at), shown_byte(other, at));
        if byte != other_byte {
            return byte < other_byte;
        }
    }
    len < other_len
}
