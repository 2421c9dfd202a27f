//! The codes of parse errors.
ghost use Rattle.std.specs.Prelude.{◌≡◌, Some};
ghost use Rattle.html5errors.specs.CodeNames.{code_name};

use std::fmt;
use std::fmt::{Display, Formatter, Write};

/// A parse error by the standard's code. Of the standard's codes those are here that an error of the tokenizer can have.
#[derive(Clone, Copy, Debug, PartialEq, Eq)]
pub enum ErrorCode {
    AbruptClosingOfEmptyComment,
    AbruptDoctypePublicIdentifier,
    AbruptDoctypeSystemIdentifier,
    AbsenceOfDigitsInNumericCharacterReference,
    DuplicateAttribute,
    EndTagWithAttributes,
    EndTagWithTrailingSolidus,
    EofBeforeTagName,
    EofInCdata,
    EofInComment,
    EofInDoctype,
    EofInScriptHtmlCommentLikeText,
    EofInTag,
    IncorrectlyClosedComment,
    IncorrectlyOpenedComment,
    InvalidCharacterSequenceAfterDoctypeName,
    InvalidFirstCharacterOfTagName,
    MissingAttributeValue,
    MissingDoctypeName,
    MissingDoctypePublicIdentifier,
    MissingDoctypeSystemIdentifier,
    MissingEndTagName,
    MissingQuoteBeforeDoctypePublicIdentifier,
    MissingQuoteBeforeDoctypeSystemIdentifier,
    MissingSemicolonAfterCharacterReference,
    MissingWhitespaceAfterDoctypePublicKeyword,
    MissingWhitespaceAfterDoctypeSystemKeyword,
    MissingWhitespaceBeforeDoctypeName,
    MissingWhitespaceBetweenAttributes,
    MissingWhitespaceBetweenDoctypePublicAndSystemIdentifiers,
    NestedComment,
    UnexpectedCharacterAfterDoctypeSystemIdentifier,
    UnexpectedCharacterInAttributeName,
    UnexpectedCharacterInUnquotedAttributeValue,
    UnexpectedEqualsSignBeforeAttributeName,
    UnexpectedNullCharacter,
    UnexpectedSolidusInTag,
    UnknownNamedCharacterReference,
}

impl ErrorCode {
    /// The code as the standard writes it.
    pub fn as_str(self) -> &'static str
        ensures { result.now ≡ code_name self }
    {
        match self {
            ErrorCode::AbruptClosingOfEmptyComment => "abrupt-closing-of-empty-comment",
            ErrorCode::AbruptDoctypePublicIdentifier => "abrupt-doctype-public-identifier",
            ErrorCode::AbruptDoctypeSystemIdentifier => "abrupt-doctype-system-identifier",
            ErrorCode::AbsenceOfDigitsInNumericCharacterReference =>
                "absence-of-digits-in-numeric-character-reference",
            ErrorCode::DuplicateAttribute => "duplicate-attribute",
            ErrorCode::EndTagWithAttributes => "end-tag-with-attributes",
            ErrorCode::EndTagWithTrailingSolidus => "end-tag-with-trailing-solidus",
            ErrorCode::EofBeforeTagName => "eof-before-tag-name",
            ErrorCode::EofInCdata => "eof-in-cdata",
            ErrorCode::EofInComment => "eof-in-comment",
            ErrorCode::EofInDoctype => "eof-in-doctype",
            ErrorCode::EofInScriptHtmlCommentLikeText => "eof-in-script-html-comment-like-text",
            ErrorCode::EofInTag => "eof-in-tag",
            ErrorCode::IncorrectlyClosedComment => "incorrectly-closed-comment",
            ErrorCode::IncorrectlyOpenedComment => "incorrectly-opened-comment",
            ErrorCode::InvalidCharacterSequenceAfterDoctypeName =>
                "invalid-character-sequence-after-doctype-name",
            ErrorCode::InvalidFirstCharacterOfTagName => "invalid-first-character-of-tag-name",
            ErrorCode::MissingAttributeValue => "missing-attribute-value",
            ErrorCode::MissingDoctypeName => "missing-doctype-name",
            ErrorCode::MissingDoctypePublicIdentifier => "missing-doctype-public-identifier",
            ErrorCode::MissingDoctypeSystemIdentifier => "missing-doctype-system-identifier",
            ErrorCode::MissingEndTagName => "missing-end-tag-name",
            ErrorCode::MissingQuoteBeforeDoctypePublicIdentifier =>
                "missing-quote-before-doctype-public-identifier",
            ErrorCode::MissingQuoteBeforeDoctypeSystemIdentifier =>
                "missing-quote-before-doctype-system-identifier",
            ErrorCode::MissingSemicolonAfterCharacterReference =>
                "missing-semicolon-after-character-reference",
            ErrorCode::MissingWhitespaceAfterDoctypePublicKeyword =>
                "missing-whitespace-after-doctype-public-keyword",
            ErrorCode::MissingWhitespaceAfterDoctypeSystemKeyword =>
                "missing-whitespace-after-doctype-system-keyword",
            ErrorCode::MissingWhitespaceBeforeDoctypeName =>
                "missing-whitespace-before-doctype-name",
            ErrorCode::MissingWhitespaceBetweenAttributes =>
                "missing-whitespace-between-attributes",
            ErrorCode::MissingWhitespaceBetweenDoctypePublicAndSystemIdentifiers =>
                "missing-whitespace-between-doctype-public-and-system-identifiers",
            ErrorCode::NestedComment => "nested-comment",
            ErrorCode::UnexpectedCharacterAfterDoctypeSystemIdentifier =>
                "unexpected-character-after-doctype-system-identifier",
            ErrorCode::UnexpectedCharacterInAttributeName =>
                "unexpected-character-in-attribute-name",
            ErrorCode::UnexpectedCharacterInUnquotedAttributeValue =>
                "unexpected-character-in-unquoted-attribute-value",
            ErrorCode::UnexpectedEqualsSignBeforeAttributeName =>
                "unexpected-equals-sign-before-attribute-name",
            ErrorCode::UnexpectedNullCharacter => "unexpected-null-character",
            ErrorCode::UnexpectedSolidusInTag => "unexpected-solidus-in-tag",
            ErrorCode::UnknownNamedCharacterReference => "unknown-named-character-reference",
        }
    }
}

impl Display for ErrorCode {
    ghost output = { λ code. Some (code_name code) };

    fn fmt<W: Write>(&self, f: &mut Formatter<W>) -> fmt::Result {
        f.write_str(self.as_str())
    }
}
