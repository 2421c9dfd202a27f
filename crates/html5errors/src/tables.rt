//! The standard's codes, by states.
ghost use Rattle.std.specs.Prelude.{◌≡◌};
ghost use Rattle.html5errors.specs.Codes.{attribute_name_code, code_by_end, code_by_quote, code_in, doctype_code_in, end_code_in, end_or_null_code, is_in_comment, is_in_doctype, is_in_tag, is_quote, markup_end_code_in, null_code, public_code, system_code, unquoted_code};

use crate::codes::ErrorCode;
use html5ever_interface::states::{AttrValueKind, DoctypeIdKind, RawKind, State};

fn is_quote(c: char) -> bool
    ensures { result ≡ is_quote c }
{
    c == '"' || c == '\''
}

// When only a NUL is an error.
fn null_code(c: char) -> Option<ErrorCode>
    ensures { result ≡ null_code c }
{
    match c {
        '\0' => Some(ErrorCode::UnexpectedNullCharacter),
        _ => None,
    }
}

// The standard's "Attribute name state".
fn attribute_name_code(c: char) -> Option<ErrorCode>
    ensures { result ≡ attribute_name_code c }
{
    match c {
        '"' | '\'' | '<' => Some(ErrorCode::UnexpectedCharacterInAttributeName),
        _ => null_code(c),
    }
}

// The standard's "Before attribute name state".
fn first_in_name_code(c: char) -> Option<ErrorCode>
    ensures { result ≡ code_in State.BeforeAttributeName c }
{
    match c {
        '=' => Some(ErrorCode::UnexpectedEqualsSignBeforeAttributeName),
        _ => attribute_name_code(c),
    }
}

// The standard's "Before attribute value state".
fn missing_value_code(c: char) -> Option<ErrorCode>
    ensures { result ≡ code_in State.BeforeAttributeValue c }
{
    match c {
        '=' => Some(ErrorCode::MissingAttributeValue),
        _ => None,
    }
}

// The standard's "Attribute value (unquoted) state".
fn unquoted_code(c: char) -> Option<ErrorCode>
    ensures { result ≡ unquoted_code c }
{
    match c {
        '"' | '\'' | '<' | '=' | '`' => {
            Some(ErrorCode::UnexpectedCharacterInUnquotedAttributeValue)
        }
        _ => null_code(c),
    }
}

// The one code at a `>`, the other at any other character.
fn code_by_end(at_end: ErrorCode, other: ErrorCode, c: char) -> Option<ErrorCode>
    ensures { result ≡ code_by_end at_end other c }
{
    match c {
        '>' => Some(at_end),
        _ => Some(other),
    }
}

// The code at a `>`, when nothing else but a NUL is an error.
fn end_or_null_code(at_end: ErrorCode, c: char) -> Option<ErrorCode>
    ensures { result ≡ end_or_null_code at_end c }
{
    match c {
        '>' => Some(at_end),
        _ => null_code(c),
    }
}

// The one code at a quote, the other at any other character.
fn code_by_quote(at_quote: ErrorCode, other: ErrorCode, c: char) -> Option<ErrorCode>
    ensures { result ≡ code_by_quote at_quote other c }
{
    if is_quote(c) {
        Some(at_quote)
    } else {
        Some(other)
    }
}

// The standard's "Before DOCTYPE public identifier state", when no quote follows.
fn public_code(c: char) -> Option<ErrorCode>
    ensures { result ≡ public_code c }
{
    code_by_end(
        ErrorCode::MissingDoctypePublicIdentifier,
        ErrorCode::MissingQuoteBeforeDoctypePublicIdentifier,
        c,
    )
}

// The standard's "Before DOCTYPE system identifier state", when no quote follows.
fn system_code(c: char) -> Option<ErrorCode>
    ensures { result ≡ system_code c }
{
    code_by_end(
        ErrorCode::MissingDoctypeSystemIdentifier,
        ErrorCode::MissingQuoteBeforeDoctypeSystemIdentifier,
        c,
    )
}

// The standard's "After DOCTYPE public keyword state" and "After DOCTYPE system keyword state".
fn after_keyword_code(kind: DoctypeIdKind, c: char) -> Option<ErrorCode>
    ensures { result ≡ doctype_code_in (State.AfterDoctypeKeyword kind) c }
{
    match kind {
        DoctypeIdKind::Public if is_quote(c) => {
            Some(ErrorCode::MissingWhitespaceAfterDoctypePublicKeyword)
        }
        DoctypeIdKind::Public => public_code(c),
        DoctypeIdKind::System if is_quote(c) => {
            Some(ErrorCode::MissingWhitespaceAfterDoctypeSystemKeyword)
        }
        DoctypeIdKind::System => system_code(c),
    }
}

// The standard's "DOCTYPE public identifier (double-quoted) state" and the like.
fn in_identifier_code(kind: DoctypeIdKind, c: char) -> Option<ErrorCode>
    ensures { result ≡ doctype_code_in (State.DoctypeIdentifierDoubleQuoted kind) c }
{
    match kind {
        DoctypeIdKind::Public => end_or_null_code(ErrorCode::AbruptDoctypePublicIdentifier, c),
        DoctypeIdKind::System => end_or_null_code(ErrorCode::AbruptDoctypeSystemIdentifier, c),
    }
}

// The standard's "After DOCTYPE public identifier state" and "After DOCTYPE system identifier state".
fn after_identifier_code(kind: DoctypeIdKind, c: char) -> Option<ErrorCode>
    ensures { result ≡ doctype_code_in (State.AfterDoctypeIdentifier kind) c }
{
    match kind {
        DoctypeIdKind::Public => code_by_quote(
            ErrorCode::MissingWhitespaceBetweenDoctypePublicAndSystemIdentifiers,
            ErrorCode::MissingQuoteBeforeDoctypeSystemIdentifier,
            c,
        ),
        DoctypeIdKind::System => Some(ErrorCode::UnexpectedCharacterAfterDoctypeSystemIdentifier),
    }
}

// The standard's "DOCTYPE state" to "Bogus DOCTYPE state", and all states where only a NUL is an error.
fn doctype_code_in(state: State, c: char) -> Option<ErrorCode>
    ensures { result ≡ doctype_code_in state c }
{
    match state {
        State::Doctype => Some(ErrorCode::MissingWhitespaceBeforeDoctypeName),
        State::BeforeDoctypeName => end_or_null_code(ErrorCode::MissingDoctypeName, c),
        State::AfterDoctypeName => Some(ErrorCode::InvalidCharacterSequenceAfterDoctypeName),
        State::AfterDoctypeKeyword(kind) => after_keyword_code(kind, c),
        State::BeforeDoctypeIdentifier(DoctypeIdKind::Public) => public_code(c),
        State::BeforeDoctypeIdentifier(DoctypeIdKind::System) => system_code(c),
        State::DoctypeIdentifierDoubleQuoted(kind) => in_identifier_code(kind, c),
        State::DoctypeIdentifierSingleQuoted(kind) => in_identifier_code(kind, c),
        State::AfterDoctypeIdentifier(kind) => after_identifier_code(kind, c),
        State::BetweenDoctypePublicAndSystemIdentifiers => {
            Some(ErrorCode::MissingQuoteBeforeDoctypeSystemIdentifier)
        }
        _ => null_code(c),
    }
}

/// The code of a character that a state doesn't expect.
pub fn code_in(state: State, c: char) -> Option<ErrorCode>
    ensures { result ≡ code_in state c }
{
    match state {
        State::TagOpen => Some(ErrorCode::InvalidFirstCharacterOfTagName),
        State::EndTagOpen => code_by_end(
            ErrorCode::MissingEndTagName,
            ErrorCode::InvalidFirstCharacterOfTagName,
            c,
        ),
        State::BeforeAttributeName => first_in_name_code(c),
        State::AttributeName | State::AfterAttributeName => attribute_name_code(c),
        State::BeforeAttributeValue => missing_value_code(c),
        State::AttributeValue(AttrValueKind::Unquoted) => unquoted_code(c),
        State::AfterAttributeValueQuoted => Some(ErrorCode::MissingWhitespaceBetweenAttributes),
        State::SelfClosingStartTag => Some(ErrorCode::UnexpectedSolidusInTag),
        State::MarkupDeclarationOpen => Some(ErrorCode::IncorrectlyOpenedComment),
        State::CommentStart | State::CommentStartDash => {
            end_or_null_code(ErrorCode::AbruptClosingOfEmptyComment, c)
        }
        State::CommentLessThanSignBangDashDash => Some(ErrorCode::NestedComment),
        State::CommentEndBang => end_or_null_code(ErrorCode::IncorrectlyClosedComment, c),
        _ => doctype_code_in(state, c),
    }
}

// The standard's "Tag name state" to "Self-closing start tag state".
fn is_in_tag(state: State) -> bool
    ensures { result ≡ is_in_tag state }
{
    matches!(
        state,
        State::TagName
            | State::BeforeAttributeName
            | State::AttributeName
            | State::AfterAttributeName
            | State::BeforeAttributeValue
            | State::AttributeValue(_)
            | State::AfterAttributeValueQuoted
            | State::SelfClosingStartTag
    )
}

// The standard's "Comment start state" to "Comment end bang state".
fn is_in_comment(state: State) -> bool
    ensures { result ≡ is_in_comment state }
{
    matches!(
        state,
        State::CommentStart
            | State::CommentStartDash
            | State::Comment
            | State::CommentLessThanSign
            | State::CommentLessThanSignBang
            | State::CommentLessThanSignBangDash
            | State::CommentLessThanSignBangDashDash
            | State::CommentEndDash
            | State::CommentEnd
            | State::CommentEndBang
    )
}

// The standard's "DOCTYPE state" to "Between DOCTYPE public and system identifiers state".
fn is_in_doctype(state: State) -> bool
    ensures { result ≡ is_in_doctype state }
{
    matches!(
        state,
        State::Doctype
            | State::BeforeDoctypeName
            | State::DoctypeName
            | State::AfterDoctypeName
            | State::AfterDoctypeKeyword(_)
            | State::BeforeDoctypeIdentifier(_)
            | State::DoctypeIdentifierDoubleQuoted(_)
            | State::DoctypeIdentifierSingleQuoted(_)
            | State::AfterDoctypeIdentifier(_)
            | State::BetweenDoctypePublicAndSystemIdentifiers
    )
}

// The code of the end of what has many states.
fn markup_end_code_in(state: State) -> Option<ErrorCode>
    ensures { result ≡ markup_end_code_in state }
{
    if is_in_tag(state) {
        Some(ErrorCode::EofInTag)
    } else if is_in_comment(state) {
        Some(ErrorCode::EofInComment)
    } else if is_in_doctype(state) {
        Some(ErrorCode::EofInDoctype)
    } else {
        None
    }
}

/// The code of the end of input in a state.
pub fn end_code_in(state: State) -> Option<ErrorCode>
    ensures { result ≡ end_code_in state }
{
    match state {
        State::TagOpen | State::EndTagOpen => Some(ErrorCode::EofBeforeTagName),
        State::MarkupDeclarationOpen => Some(ErrorCode::IncorrectlyOpenedComment),
        State::RawData(RawKind::ScriptDataEscaped(_))
        | State::ScriptDataEscapedDash(_)
        | State::ScriptDataEscapedDashDash(_) => Some(ErrorCode::EofInScriptHtmlCommentLikeText),
        State::CdataSection | State::CdataSectionBracket | State::CdataSectionEnd => {
            Some(ErrorCode::EofInCdata)
        }
        _ => markup_end_code_in(state),
    }
}
