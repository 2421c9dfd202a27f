//! States by their names.
ghost use Rattle.std.specs.Prelude.{◌≡◌};
ghost use Rattle.html5errors.specs.StateNames.{comment_state_named, doctype_state_named, escaped_state_named, raw_end_state_named, raw_text_state_named, state_named, tag_state_named, text_state_named};

use html5ever_interface::states::{AttrValueKind, DoctypeIdKind, RawKind, ScriptEscapeKind, State};

// "Data state", "PLAINTEXT state", "CDATA section state" and those after it, and processing instructions.
#[tactic(auto, unfolding(crate::specs::StateNames::text_state_named))]
fn text_state_named(name: &str) -> Option<State>
    ensures { result ≡ text_state_named name.now }
{
    match name {
        "Data" => Some(State::Data),
        "Plaintext" => Some(State::Plaintext),
        "CdataSection" => Some(State::CdataSection),
        "CdataSectionBracket" => Some(State::CdataSectionBracket),
        "CdataSectionEnd" => Some(State::CdataSectionEnd),
        "ProcessingInstruction" => Some(State::ProcessingInstruction),
        _ => None,
    }
}

// "RCDATA state", "RAWTEXT state", "Script data state", and the less-than sign states of these.
#[tactic(auto, unfolding(crate::specs::StateNames::raw_text_state_named))]
fn raw_text_state_named(name: &str) -> Option<State>
    ensures { result ≡ raw_text_state_named name.now }
{
    match name {
        "RawData(Rcdata)" => Some(State::RawData(RawKind::Rcdata)),
        "RawData(Rawtext)" => Some(State::RawData(RawKind::Rawtext)),
        "RawData(ScriptData)" => Some(State::RawData(RawKind::ScriptData)),
        "RawData(ScriptDataEscaped(Escaped))" => Some(State::RawData(RawKind::ScriptDataEscaped(
            ScriptEscapeKind::Escaped,
        ))),
        "RawData(ScriptDataEscaped(DoubleEscaped))" => Some(State::RawData(
            RawKind::ScriptDataEscaped(ScriptEscapeKind::DoubleEscaped),
        )),
        "RawLessThanSign(Rcdata)" => Some(State::RawLessThanSign(RawKind::Rcdata)),
        "RawLessThanSign(Rawtext)" => Some(State::RawLessThanSign(RawKind::Rawtext)),
        "RawLessThanSign(ScriptData)" => Some(State::RawLessThanSign(RawKind::ScriptData)),
        "RawLessThanSign(ScriptDataEscaped(Escaped))" => Some(State::RawLessThanSign(
            RawKind::ScriptDataEscaped(ScriptEscapeKind::Escaped),
        )),
        "RawLessThanSign(ScriptDataEscaped(DoubleEscaped))" => Some(State::RawLessThanSign(
            RawKind::ScriptDataEscaped(ScriptEscapeKind::DoubleEscaped),
        )),
        _ => None,
    }
}

// "RCDATA end tag open state", "RCDATA end tag name state", and those of other raw text.
#[tactic(auto, unfolding(crate::specs::StateNames::raw_end_state_named))]
fn raw_end_state_named(name: &str) -> Option<State>
    ensures { result ≡ raw_end_state_named name.now }
{
    match name {
        "RawEndTagOpen(Rcdata)" => Some(State::RawEndTagOpen(RawKind::Rcdata)),
        "RawEndTagOpen(Rawtext)" => Some(State::RawEndTagOpen(RawKind::Rawtext)),
        "RawEndTagOpen(ScriptData)" => Some(State::RawEndTagOpen(RawKind::ScriptData)),
        "RawEndTagOpen(ScriptDataEscaped(Escaped))" => Some(State::RawEndTagOpen(
            RawKind::ScriptDataEscaped(ScriptEscapeKind::Escaped),
        )),
        "RawEndTagOpen(ScriptDataEscaped(DoubleEscaped))" => Some(State::RawEndTagOpen(
            RawKind::ScriptDataEscaped(ScriptEscapeKind::DoubleEscaped),
        )),
        "RawEndTagName(Rcdata)" => Some(State::RawEndTagName(RawKind::Rcdata)),
        "RawEndTagName(Rawtext)" => Some(State::RawEndTagName(RawKind::Rawtext)),
        "RawEndTagName(ScriptData)" => Some(State::RawEndTagName(RawKind::ScriptData)),
        "RawEndTagName(ScriptDataEscaped(Escaped))" => Some(State::RawEndTagName(
            RawKind::ScriptDataEscaped(ScriptEscapeKind::Escaped),
        )),
        "RawEndTagName(ScriptDataEscaped(DoubleEscaped))" => Some(State::RawEndTagName(
            RawKind::ScriptDataEscaped(ScriptEscapeKind::DoubleEscaped),
        )),
        _ => None,
    }
}

// "Script data escape start state" to "Script data double escape end state".
#[tactic(auto, unfolding(crate::specs::StateNames::escaped_state_named))]
fn escaped_state_named(name: &str) -> Option<State>
    ensures { result ≡ escaped_state_named name.now }
{
    match name {
        "ScriptDataEscapeStart(Escaped)" => Some(State::ScriptDataEscapeStart(
            ScriptEscapeKind::Escaped,
        )),
        "ScriptDataEscapeStart(DoubleEscaped)" => Some(State::ScriptDataEscapeStart(
            ScriptEscapeKind::DoubleEscaped,
        )),
        "ScriptDataEscapeStartDash" => Some(State::ScriptDataEscapeStartDash),
        "ScriptDataEscapedDash(Escaped)" => Some(State::ScriptDataEscapedDash(
            ScriptEscapeKind::Escaped,
        )),
        "ScriptDataEscapedDash(DoubleEscaped)" => Some(State::ScriptDataEscapedDash(
            ScriptEscapeKind::DoubleEscaped,
        )),
        "ScriptDataEscapedDashDash(Escaped)" => Some(State::ScriptDataEscapedDashDash(
            ScriptEscapeKind::Escaped,
        )),
        "ScriptDataEscapedDashDash(DoubleEscaped)" => Some(State::ScriptDataEscapedDashDash(
            ScriptEscapeKind::DoubleEscaped,
        )),
        "ScriptDataDoubleEscapeEnd" => Some(State::ScriptDataDoubleEscapeEnd),
        _ => None,
    }
}

// "Tag open state" to "Self-closing start tag state".
#[tactic(auto, unfolding(crate::specs::StateNames::tag_state_named))]
fn tag_state_named(name: &str) -> Option<State>
    ensures { result ≡ tag_state_named name.now }
{
    match name {
        "TagOpen" => Some(State::TagOpen),
        "EndTagOpen" => Some(State::EndTagOpen),
        "TagName" => Some(State::TagName),
        "BeforeAttributeName" => Some(State::BeforeAttributeName),
        "AttributeName" => Some(State::AttributeName),
        "AfterAttributeName" => Some(State::AfterAttributeName),
        "BeforeAttributeValue" => Some(State::BeforeAttributeValue),
        "AttributeValue(Unquoted)" => Some(State::AttributeValue(AttrValueKind::Unquoted)),
        "AttributeValue(SingleQuoted)" => Some(State::AttributeValue(AttrValueKind::SingleQuoted)),
        "AttributeValue(DoubleQuoted)" => Some(State::AttributeValue(AttrValueKind::DoubleQuoted)),
        "AfterAttributeValueQuoted" => Some(State::AfterAttributeValueQuoted),
        "SelfClosingStartTag" => Some(State::SelfClosingStartTag),
        _ => None,
    }
}

// "Bogus comment state" to "Comment end bang state".
#[tactic(auto, unfolding(crate::specs::StateNames::comment_state_named))]
fn comment_state_named(name: &str) -> Option<State>
    ensures { result ≡ comment_state_named name.now }
{
    match name {
        "BogusComment" => Some(State::BogusComment),
        "MarkupDeclarationOpen" => Some(State::MarkupDeclarationOpen),
        "CommentStart" => Some(State::CommentStart),
        "CommentStartDash" => Some(State::CommentStartDash),
        "Comment" => Some(State::Comment),
        "CommentLessThanSign" => Some(State::CommentLessThanSign),
        "CommentLessThanSignBang" => Some(State::CommentLessThanSignBang),
        "CommentLessThanSignBangDash" => Some(State::CommentLessThanSignBangDash),
        "CommentLessThanSignBangDashDash" => Some(State::CommentLessThanSignBangDashDash),
        "CommentEndDash" => Some(State::CommentEndDash),
        "CommentEnd" => Some(State::CommentEnd),
        "CommentEndBang" => Some(State::CommentEndBang),
        _ => None,
    }
}

// "DOCTYPE state" to "Bogus DOCTYPE state".
#[tactic(auto, unfolding(crate::specs::StateNames::doctype_state_named))]
fn doctype_state_named(name: &str) -> Option<State>
    ensures { result ≡ doctype_state_named name.now }
{
    match name {
        "Doctype" => Some(State::Doctype),
        "BeforeDoctypeName" => Some(State::BeforeDoctypeName),
        "DoctypeName" => Some(State::DoctypeName),
        "AfterDoctypeName" => Some(State::AfterDoctypeName),
        "AfterDoctypeKeyword(Public)" => Some(State::AfterDoctypeKeyword(DoctypeIdKind::Public)),
        "AfterDoctypeKeyword(System)" => Some(State::AfterDoctypeKeyword(DoctypeIdKind::System)),
        "BeforeDoctypeIdentifier(Public)" => Some(State::BeforeDoctypeIdentifier(
            DoctypeIdKind::Public,
        )),
        "BeforeDoctypeIdentifier(System)" => Some(State::BeforeDoctypeIdentifier(
            DoctypeIdKind::System,
        )),
        "DoctypeIdentifierDoubleQuoted(Public)" => Some(State::DoctypeIdentifierDoubleQuoted(
            DoctypeIdKind::Public,
        )),
        "DoctypeIdentifierDoubleQuoted(System)" => Some(State::DoctypeIdentifierDoubleQuoted(
            DoctypeIdKind::System,
        )),
        "DoctypeIdentifierSingleQuoted(Public)" => Some(State::DoctypeIdentifierSingleQuoted(
            DoctypeIdKind::Public,
        )),
        "DoctypeIdentifierSingleQuoted(System)" => Some(State::DoctypeIdentifierSingleQuoted(
            DoctypeIdKind::System,
        )),
        "AfterDoctypeIdentifier(Public)" => Some(State::AfterDoctypeIdentifier(
            DoctypeIdKind::Public,
        )),
        "AfterDoctypeIdentifier(System)" => Some(State::AfterDoctypeIdentifier(
            DoctypeIdKind::System,
        )),
        "BetweenDoctypePublicAndSystemIdentifiers" => Some(
            State::BetweenDoctypePublicAndSystemIdentifiers,
        ),
        "BogusDoctype" => Some(State::BogusDoctype),
        _ => None,
    }
}

/// The state of that name.
pub fn state_named(name: &str) -> Option<State>
    ensures { result ≡ state_named name.now }
{
    text_state_named(name)
        .or(raw_text_state_named(name))
        .or(raw_end_state_named(name))
        .or(escaped_state_named(name))
        .or(tag_state_named(name))
        .or(comment_state_named(name))
        .or(doctype_state_named(name))
}
