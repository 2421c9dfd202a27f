//! The states: the standard's, and that of processing instructions, with their variants.
pub use html5ever_interface::states::AttrValueKind::{DoubleQuoted, SingleQuoted, Unquoted};
pub use html5ever_interface::states::DoctypeIdKind::{Public, System};
pub use html5ever_interface::states::RawKind::{Rawtext, Rcdata, ScriptData, ScriptDataEscaped};
pub use html5ever_interface::states::ScriptEscapeKind::{DoubleEscaped, Escaped};
pub use html5ever_interface::states::State::{
    AfterAttributeName, AfterAttributeValueQuoted, AfterDoctypeIdentifier, AfterDoctypeKeyword,
    AfterDoctypeName, AttributeName, AttributeValue, BeforeAttributeName, BeforeAttributeValue,
    BeforeDoctypeIdentifier, BeforeDoctypeName, BetweenDoctypePublicAndSystemIdentifiers,
    BogusComment, BogusDoctype, CdataSection, CdataSectionBracket, CdataSectionEnd, Comment,
    CommentEnd, CommentEndBang, CommentEndDash, CommentLessThanSign, CommentLessThanSignBang,
    CommentLessThanSignBangDash, CommentLessThanSignBangDashDash, CommentStart, CommentStartDash,
    Data, Doctype, DoctypeIdentifierDoubleQuoted, DoctypeIdentifierSingleQuoted, DoctypeName,
    EndTagOpen, MarkupDeclarationOpen, Plaintext, ProcessingInstruction, RawData, RawEndTagName,
    RawEndTagOpen, RawLessThanSign, ScriptDataDoubleEscapeEnd, ScriptDataEscapeStart,
    ScriptDataEscapeStartDash, ScriptDataEscapedDash, ScriptDataEscapedDashDash,
    SelfClosingStartTag, TagName, TagOpen,
};
pub use html5ever_interface::states::{
    AttrValueKind, DoctypeIdKind, RawKind, ScriptEscapeKind, State,
};
