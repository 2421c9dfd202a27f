use html5ever_interface::states::{AttrValueKind, DoctypeIdKind, RawKind, ScriptEscapeKind, State};

#[test]
fn states_have_their_names(rt: HostRuntime) {
    let names = &[
        (State::Data, "Data"),
        (State::RawData(RawKind::Rcdata), "RawData(Rcdata)"),
        (
            State::RawData(RawKind::ScriptDataEscaped(ScriptEscapeKind::Escaped)),
            "RawData(ScriptDataEscaped(Escaped))",
        ),
        (
            State::RawEndTagName(RawKind::ScriptDataEscaped(ScriptEscapeKind::DoubleEscaped)),
            "RawEndTagName(ScriptDataEscaped(DoubleEscaped))",
        ),
        (
            State::RawLessThanSign(RawKind::ScriptData),
            "RawLessThanSign(ScriptData)",
        ),
        (
            State::ScriptDataEscapeStart(ScriptEscapeKind::DoubleEscaped),
            "ScriptDataEscapeStart(DoubleEscaped)",
        ),
        (
            State::ScriptDataEscapedDashDash(ScriptEscapeKind::Escaped),
            "ScriptDataEscapedDashDash(Escaped)",
        ),
        (
            State::AttributeValue(AttrValueKind::SingleQuoted),
            "AttributeValue(SingleQuoted)",
        ),
        (State::CommentEndBang, "CommentEndBang"),
        (
            State::AfterDoctypeKeyword(DoctypeIdKind::Public),
            "AfterDoctypeKeyword(Public)",
        ),
        (
            State::DoctypeIdentifierDoubleQuoted(DoctypeIdKind::System),
            "DoctypeIdentifierDoubleQuoted(System)",
        ),
        (State::CdataSectionEnd, "CdataSectionEnd"),
        (State::ProcessingInstruction, "ProcessingInstruction"),
    ];
    for &(state, name) in names {
        assert_eq!(rt; state.name(), name);
    }
}

#[test]
fn four_kinds_of_states_read_text(rt: HostRuntime) {
    for &state in &[
        State::Data,
        State::Plaintext,
        State::RawData(RawKind::Rawtext),
        State::RawData(RawKind::ScriptDataEscaped(ScriptEscapeKind::Escaped)),
        State::CdataSection,
    ] {
        assert!(rt; state.is_text(), "{}", state.name());
    }
    for &state in &[
        State::TagOpen,
        State::RawLessThanSign(RawKind::ScriptDataEscaped(ScriptEscapeKind::Escaped)),
        State::ScriptDataEscapedDash(ScriptEscapeKind::Escaped),
        State::CdataSectionBracket,
    ] {
        assert!(rt; !state.is_text(), "{}", state.name());
    }
}

#[test]
fn states_are_ordered_as_declared(rt: HostRuntime) {
    assert!(rt; State::Data < State::CdataSectionEnd);
    assert!(rt; State::CdataSectionEnd < State::ProcessingInstruction);
    assert!(rt; State::RawData(RawKind::ScriptData) < State::RawLessThanSign(RawKind::Rcdata));
    assert!(rt;
        State::AttributeValue(AttrValueKind::Unquoted)
            < State::AttributeValue(AttrValueKind::DoubleQuoted)
    );
}
