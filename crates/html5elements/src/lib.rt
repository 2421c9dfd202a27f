//! Elements by their names: what the standard says of them, and those that are dropped with all that
//! stands in them.
#![tactic(auto)]

pub mod hidden;

ghost use Rattle.std.specs.Prelude.{◌≡◌};
ghost use Rattle.html5elements.specs.Elements.{is_empty_element, is_foreign, is_void};

/// Whether an element of this name is void: its start tag is all of it, and it has no end tag. These are
/// the elements of the standard's "Serializing HTML fragments" that are written without one.
#[tactic(auto, unfolding(crate::specs::Elements::is_void))]
pub fn is_void(name: &str) -> bool
    ensures { result ≡ is_void name.now }
{
    // Most names have another length.
    match name.len() {
        2 => matches!(name, "br" | "hr"),
        3 => matches!(name, "col" | "img" | "wbr"),
        4 => matches!(name, "area" | "base" | "link" | "meta"),
        5 => matches!(name, "embed" | "frame" | "input" | "param" | "track"),
        6 => matches!(name, "keygen" | "source"),
        7 => name == "bgsound",
        8 => name == "basefont",
        _ => false,
    }
}

/// Whether an element of this name is of another namespace, so that a `/` before the `>` of its start
/// tag ends it.
#[tactic(auto, unfolding(crate::specs::Elements::is_foreign))]
pub fn is_foreign(name: &str) -> bool
    ensures { result ≡ is_foreign name.now }
{
    matches!(name, "svg" | "math")
}

/// Whether nothing stands in an element of this name, whose start tag may end in `/`.
pub fn is_empty_element(name: &str, self_closing: bool) -> bool
    ensures { result ≡ is_empty_element name.now self_closing }
{
    is_void(name) || (self_closing && is_foreign(name))
}
