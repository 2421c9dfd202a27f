//! The states of the tokenizer, after the standard's, and one for processing instructions.
ghost use Rattle.std.specs.Prelude.{◌≡◌};

/// How far a script in a comment is escaped.
#[derive(Clone, Copy, Debug, PartialEq, Eq, PartialOrd, Ord, Hash)]
pub enum ScriptEscapeKind {
    Escaped,
    DoubleEscaped,
}

/// Which of the two identifiers of a DOCTYPE is read.
#[derive(Clone, Copy, Debug, PartialEq, Eq, PartialOrd, Ord, Hash)]
pub enum DoctypeIdKind {
    Public,
    System,
}

/// The kind of text in which only an end tag of the last start tag's name is markup.
#[derive(Clone, Copy, Debug, PartialEq, Eq, PartialOrd, Ord, Hash)]
pub enum RawKind {
    Rcdata,
    Rawtext,
    ScriptData,
    ScriptDataEscaped(ScriptEscapeKind),
}

/// How the value of an attribute is quoted.
#[derive(Clone, Copy, Debug, PartialEq, Eq, PartialOrd, Ord, Hash)]
pub enum AttrValueKind {
    Unquoted,
    SingleQuoted,
    DoubleQuoted,
}

/// A state of the tokenizer.
#[derive(Clone, Copy, Debug, PartialEq, Eq, PartialOrd, Ord, Hash)]
pub enum State {
    Data,
    Plaintext,
    TagOpen,
    EndTagOpen,
    TagName,
    RawData(RawKind),
    RawLessThanSign(RawKind),
    RawEndTagOpen(RawKind),
    RawEndTagName(RawKind),
    ScriptDataEscapeStart(ScriptEscapeKind),
    ScriptDataEscapeStartDash,
    ScriptDataEscapedDash(ScriptEscapeKind),
    ScriptDataEscapedDashDash(ScriptEscapeKind),
    ScriptDataDoubleEscapeEnd,
    BeforeAttributeName,
    AttributeName,
    AfterAttributeName,
    BeforeAttributeValue,
    AttributeValue(AttrValueKind),
    AfterAttributeValueQuoted,
    SelfClosingStartTag,
    BogusComment,
    MarkupDeclarationOpen,
    CommentStart,
    CommentStartDash,
    Comment,
    CommentLessThanSign,
    CommentLessThanSignBang,
    CommentLessThanSignBangDash,
    CommentLessThanSignBangDashDash,
    CommentEndDash,
    CommentEnd,
    CommentEndBang,
    Doctype,
    BeforeDoctypeName,
    DoctypeName,
    AfterDoctypeName,
    AfterDoctypeKeyword(DoctypeIdKind),
    BeforeDoctypeIdentifier(DoctypeIdKind),
    DoctypeIdentifierDoubleQuoted(DoctypeIdKind),
    DoctypeIdentifierSingleQuoted(DoctypeIdKind),
    AfterDoctypeIdentifier(DoctypeIdKind),
    BetweenDoctypePublicAndSystemIdentifiers,
    BogusDoctype,
    CdataSection,
    CdataSectionBracket,
    CdataSectionEnd,
    ProcessingInstruction,
}

impl State {
    ghost use Rattle.html5ever_interface.specs.States.{state_name, is_text_state};

    /// Whether the tokenizer may start in the state: it reads text there, of any kind.
    pub fn is_text(&self) -> bool
        ensures { result ≡ is_text_state self.now }
    {
        matches!(
            self,
            State::Data | State::Plaintext | State::RawData(_) | State::CdataSection
        )
    }

    /// The state's name, with the names of what it holds in parentheses.
    pub fn name(&self) -> &'static str
        ensures { result.now ≡ state_name self.now }
    {
        match self {
            State::Data => "Data",
            State::Plaintext => "Plaintext",
            State::TagOpen => "TagOpen",
            State::EndTagOpen => "EndTagOpen",
            State::TagName => "TagName",
            State::RawData(kind) => match kind {
                RawKind::Rcdata => "RawData(Rcdata)",
                RawKind::Rawtext => "RawData(Rawtext)",
                RawKind::ScriptData => "RawData(ScriptData)",
                RawKind::ScriptDataEscaped(ScriptEscapeKind::Escaped) =>
                    "RawData(ScriptDataEscaped(Escaped))",
                RawKind::ScriptDataEscaped(ScriptEscapeKind::DoubleEscaped) =>
                    "RawData(ScriptDataEscaped(DoubleEscaped))",
            },
            State::RawLessThanSign(kind) => match kind {
                RawKind::Rcdata => "RawLessThanSign(Rcdata)",
                RawKind::Rawtext => "RawLessThanSign(Rawtext)",
                RawKind::ScriptData => "RawLessThanSign(ScriptData)",
                RawKind::ScriptDataEscaped(ScriptEscapeKind::Escaped) =>
                    "RawLessThanSign(ScriptDataEscaped(Escaped))",
                RawKind::ScriptDataEscaped(ScriptEscapeKind::DoubleEscaped) =>
                    "RawLessThanSign(ScriptDataEscaped(DoubleEscaped))",
            },
            State::RawEndTagOpen(kind) => match kind {
                RawKind::Rcdata => "RawEndTagOpen(Rcdata)",
                RawKind::Rawtext => "RawEndTagOpen(Rawtext)",
                RawKind::ScriptData => "RawEndTagOpen(ScriptData)",
                RawKind::ScriptDataEscaped(ScriptEscapeKind::Escaped) =>
                    "RawEndTagOpen(ScriptDataEscaped(Escaped))",
                RawKind::ScriptDataEscaped(ScriptEscapeKind::DoubleEscaped) =>
                    "RawEndTagOpen(ScriptDataEscaped(DoubleEscaped))",
            },
            State::RawEndTagName(kind) => match kind {
                RawKind::Rcdata => "RawEndTagName(Rcdata)",
                RawKind::Rawtext => "RawEndTagName(Rawtext)",
                RawKind::ScriptData => "RawEndTagName(ScriptData)",
                RawKind::ScriptDataEscaped(ScriptEscapeKind::Escaped) =>
                    "RawEndTagName(ScriptDataEscaped(Escaped))",
                RawKind::ScriptDataEscaped(ScriptEscapeKind::DoubleEscaped) =>
                    "RawEndTagName(ScriptDataEscaped(DoubleEscaped))",
            },
            State::ScriptDataEscapeStart(kind) => match kind {
                ScriptEscapeKind::Escaped => "ScriptDataEscapeStart(Escaped)",
                ScriptEscapeKind::DoubleEscaped => "ScriptDataEscapeStart(DoubleEscaped)",
            },
            State::ScriptDataEscapeStartDash => "ScriptDataEscapeStartDash",
            State::ScriptDataEscapedDash(kind) => match kind {
                ScriptEscapeKind::Escaped => "ScriptDataEscapedDash(Escaped)",
                ScriptEscapeKind::DoubleEscaped => "ScriptDataEscapedDash(DoubleEscaped)",
            },
            State::ScriptDataEscapedDashDash(kind) => match kind {
                ScriptEscapeKind::Escaped => "ScriptDataEscapedDashDash(Escaped)",
                ScriptEscapeKind::DoubleEscaped => "ScriptDataEscapedDashDash(DoubleEscaped)",
            },
            State::ScriptDataDoubleEscapeEnd => "ScriptDataDoubleEscapeEnd",
            State::BeforeAttributeName => "BeforeAttributeName",
            State::AttributeName => "AttributeName",
            State::AfterAttributeName => "AfterAttributeName",
            State::BeforeAttributeValue => "BeforeAttributeValue",
            State::AttributeValue(kind) => match kind {
                AttrValueKind::Unquoted => "AttributeValue(Unquoted)",
                AttrValueKind::SingleQuoted => "AttributeValue(SingleQuoted)",
                AttrValueKind::DoubleQuoted => "AttributeValue(DoubleQuoted)",
            },
            State::AfterAttributeValueQuoted => "AfterAttributeValueQuoted",
            State::SelfClosingStartTag => "SelfClosingStartTag",
            State::BogusComment => "BogusComment",
            State::MarkupDeclarationOpen => "MarkupDeclarationOpen",
            State::CommentStart => "CommentStart",
            State::CommentStartDash => "CommentStartDash",
            State::Comment => "Comment",
            State::CommentLessThanSign => "CommentLessThanSign",
            State::CommentLessThanSignBang => "CommentLessThanSignBang",
            State::CommentLessThanSignBangDash => "CommentLessThanSignBangDash",
            State::CommentLessThanSignBangDashDash => "CommentLessThanSignBangDashDash",
            State::CommentEndDash => "CommentEndDash",
            State::CommentEnd => "CommentEnd",
            State::CommentEndBang => "CommentEndBang",
            State::Doctype => "Doctype",
            State::BeforeDoctypeName => "BeforeDoctypeName",
            State::DoctypeName => "DoctypeName",
            State::AfterDoctypeName => "AfterDoctypeName",
            State::AfterDoctypeKeyword(kind) => match kind {
                DoctypeIdKind::Public => "AfterDoctypeKeyword(Public)",
                DoctypeIdKind::System => "AfterDoctypeKeyword(System)",
            },
            State::BeforeDoctypeIdentifier(kind) => match kind {
                DoctypeIdKind::Public => "BeforeDoctypeIdentifier(Public)",
                DoctypeIdKind::System => "BeforeDoctypeIdentifier(System)",
            },
            State::DoctypeIdentifierDoubleQuoted(kind) => match kind {
                DoctypeIdKind::Public => "DoctypeIdentifierDoubleQuoted(Public)",
                DoctypeIdKind::System => "DoctypeIdentifierDoubleQuoted(System)",
            },
            State::DoctypeIdentifierSingleQuoted(kind) => match kind {
                DoctypeIdKind::Public => "DoctypeIdentifierSingleQuoted(Public)",
                DoctypeIdKind::System => "DoctypeIdentifierSingleQuoted(System)",
            },
            State::AfterDoctypeIdentifier(kind) => match kind {
                DoctypeIdKind::Public => "AfterDoctypeIdentifier(Public)",
                DoctypeIdKind::System => "AfterDoctypeIdentifier(System)",
            },
            State::BetweenDoctypePublicAndSystemIdentifiers =>
                "BetweenDoctypePublicAndSystemIdentifiers",
            State::BogusDoctype => "BogusDoctype",
            State::CdataSection => "CdataSection",
            State::CdataSectionBracket => "CdataSectionBracket",
            State::CdataSectionEnd => "CdataSectionEnd",
            State::ProcessingInstruction => "ProcessingInstruction",
        }
    }
}
