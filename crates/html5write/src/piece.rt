//! What a page is written of.

/// An attribute of a start tag, as it is to be read: its name, and its value without references.
#[derive(Clone, Copy, Debug, PartialEq, Eq)]
pub struct Attribute<'a> {
    pub name: &'a str,
    pub value: &'a str,
}

/// A piece of a page, as it is to be read.
#[derive(Clone, Copy, Debug, PartialEq, Eq)]
pub enum Piece<'a> {
    /// Text between tags.
    Text(&'a str),
    StartTag {
        name: &'a str,
        attributes: &'a [Attribute<'a>],
    },
    /// An end tag of this name.
    EndTag(&'a str),
    /// A comment with this text.
    Comment(&'a str),
}
