//! What a page is made of.
use html5write::Attribute;

/// A tag or a text, as it is to be read.
#[derive(Clone, Copy, Debug, PartialEq, Eq)]
pub enum Item<'a> {
    StartTag {
        name: &'a str,
        attributes: &'a [Attribute<'a>],
    },
    /// An end tag of this name.
    EndTag(&'a str),
    /// Text between tags.
    Text(&'a str),
}
