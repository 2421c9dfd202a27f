//! Parse errors of tree construction.

/// A parse error. The standard names one of them by a code (`TrailingSolidus`); the others have no code
/// there.
#[derive(Clone, Copy, Debug, PartialEq, Eq)]
pub enum Mistake {
    /// "non-void-html-element-start-tag-with-trailing-solidus".
    TrailingSolidus,
    /// The document has no doctype.
    MissingDoctype,
    /// The doctype is not one that the standard allows.
    BadDoctype,
    /// The insertion mode does not expect the token.
    UnexpectedToken,
    /// An element ends while others in it are open.
    UnclosedElements,
    /// A formatting element ends that is not open.
    FormattingNotOpen,
    /// A formatting element ends that is not in scope.
    FormattingNotInScope,
    /// The text ends within an element that only its end tag ends.
    UnclosedAtEnd,
}
