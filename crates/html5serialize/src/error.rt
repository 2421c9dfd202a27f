//! Why a token can't be written.
use thiserror::Error;

/// Why a token can't be written: no reading of a page gives such a one. Attributes are counted from 0, and
/// so are bytes.
#[derive(Clone, Copy, Debug, PartialEq, Eq, Error)]
pub enum SerializeError {
    /// A NUL stands in a text, at this byte of it. It is a token of its own.
    #[error("a NUL at byte {at} of the text")]
    NullInText { at: usize },
    /// The name of a tag doesn't begin with a small ASCII letter, or a character stands in it that would
    /// end it or come back as another.
    #[error("invalid tag name")]
    TagName,
    /// The name of this attribute has a prefix or a namespace.
    #[error("attribute {attribute} has a prefix or a namespace")]
    QualifiedName { attribute: usize },
    /// The name of this attribute is empty, or a character stands in it that would end it or come back as
    /// another.
    #[error("attribute {attribute} has an invalid name")]
    AttributeName { attribute: usize },
    /// A NUL stands in the value of this attribute, at this byte of it.
    #[error("a NUL at byte {at} of the value of attribute {attribute}")]
    NullInValue { attribute: usize, at: usize },
    /// This attribute has the name of an earlier one, so a reading would drop it.
    #[error("attribute {attribute} repeats a name")]
    Repeated { attribute: usize },
    /// The text of a comment begins with `>` or `->`, or has `-->`, `--!>`, a NUL or a CR in it.
    #[error("a comment can't contain this text")]
    CommentText,
    /// The content of a processing instruction has `>`, a NUL or a CR in it.
    #[error("a processing instruction can't contain this text")]
    InstructionContent,
    /// A doctype without a name has an identifier, or no quirks.
    #[error("a doctype without a name can't be written like this")]
    NamelessDoctype,
    /// The name of a doctype is empty, or a character stands in it that would end it or come back as
    /// another.
    #[error("invalid doctype name")]
    DoctypeName,
    /// The public identifier of a doctype has both kinds of quotes, or `>`, a NUL or a CR in it.
    #[error("invalid public identifier")]
    PublicIdentifier,
    /// The system identifier of a doctype has both kinds of quotes, or `>`, a NUL or a CR in it.
    #[error("invalid system identifier")]
    SystemIdentifier,
}

/// Why raw text can't be written.
#[derive(Clone, Copy, Debug, PartialEq, Eq, Error)]
pub enum RawTextError {
    /// The name of the element is not of small ASCII letters alone, so no end tag of it ends raw text.
    #[error("invalid name for a raw text element")]
    Name,
    /// A NUL stands in the text, or a CR where it would be read as a line feed: not in RCDATA.
    #[error("raw text can't contain this character")]
    Character,
    /// The end tag of the element begins in the text.
    #[error("an end tag in the text")]
    EndTag,
    /// `<!--` stands in a script, and `<script` with a character that ends the name: they may hide the end tag.
    #[error("a script within a comment of a script")]
    Mark,
    /// The text would stand within escaped script data.
    #[error("escaped script data")]
    Escaped,
}
