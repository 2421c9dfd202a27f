//! Which tokens can't be written, and why.
use html5ever_interface::interface::token::{Doctype, Tag, TagKind, Token};
use html5serialize::{SerializeError, token_refusal};
use markup5ever::interface::{Attribute, LocalName, Namespace, Prefix, QualName};
use std::alloc::{AllocError, Allocator, Global};
use std::process::Abort;

fn text<A: Allocator + Copy>(alloc: A, text: &str) -> Result<String<A>, AllocError> {
    String::from_str(alloc, text)
}

// An attribute with this prefix, or none.
fn attribute(
    alloc: Global,
    prefix: Option<&str>,
    name: &str,
    value: &str,
) -> Result<Attribute, AllocError> {
    let prefix = match prefix {
        Some(prefix) => Some(Prefix(text(alloc, prefix)?)),
        None => None,
    };
    let local = LocalName(text(alloc, name)?);
    let name = QualName::new(prefix, Namespace(String::new(alloc)), local);
    Ok(Attribute {
        name,
        value: text(alloc, value)?,
    })
}

// A start tag of this name with two attributes, of which the first is `x`.
fn tag(alloc: Global, name: &str, second: Attribute) -> Result<Token, AllocError> {
    let mut attrs = Vec::new(alloc);
    attrs.push(attribute(alloc, None, "x", "")?)?;
    attrs.push(second)?;
    Ok(Token::TagToken(Tag {
        kind: TagKind::StartTag,
        name: LocalName(text(alloc, name)?),
        attrs,
        self_closing: false,
        had_duplicate_attributes: false,
    }))
}

// A start tag of this name with an attribute of this name and value.
fn tag_with(
    alloc: Global,
    name: &str,
    attribute_name: &str,
    value: &str,
) -> Result<Token, AllocError> {
    tag(alloc, name, attribute(alloc, None, attribute_name, value)?)
}

// Why a start tag of this name with an attribute of this name and value, after one called `x`, can't be written.
fn tag_refusal(
    rt: &impl Abort,
    alloc: Global,
    name: &str,
    attribute_name: &str,
    value: &str,
) -> Option<SerializeError> {
    let token = tag_with(alloc, name, attribute_name, value).expect(rt, "memory");
    token_refusal(&token)
}

// A text, or none.
fn optional(alloc: Global, of: Option<&str>) -> Result<Option<String>, AllocError> {
    match of {
        Some(of) => Ok(Some(text(alloc, of)?)),
        None => Ok(None),
    }
}

fn doctype(
    alloc: Global,
    name: Option<&str>,
    public: Option<&str>,
    system: Option<&str>,
    force_quirks: bool,
) -> Result<Token, AllocError> {
    Ok(Token::DoctypeToken(Doctype {
        name: optional(alloc, name)?,
        public_id: optional(alloc, public)?,
        system_id: optional(alloc, system)?,
        force_quirks,
    }))
}

#[test]
fn refuses_texts(rt: HostRuntime) {
    let token = Token::CharacterTokens(text(rt.alloc(), "\u{e9}\0\0").expect(&rt, "memory"));
    assert!(rt; token_refusal(&token) == Some(SerializeError::NullInText { at: 2 }));
    let null: Token = Token::NullCharacterToken;
    assert!(rt; token_refusal(&null) == None);
}

#[test]
fn refuses_tags(rt: HostRuntime) {
    for &name in &[
        "", "A", "1", "a b", "a/", "a>", "aB", "a\0", "a\r", "\u{e9}",
    ] {
        let refusal = tag_refusal(&rt, rt.alloc(), name, "y", "");
        assert!(rt; refusal == Some(SerializeError::TagName), "{name:?}");
    }
    let wanted = Some(SerializeError::AttributeName { attribute: 1 });
    for &name in &["", "A", "a b", "a/", "a>", "a=", "==", "a\0", "a\r", "\t"] {
        let refusal = tag_refusal(&rt, rt.alloc(), "a", name, "");
        assert!(rt; refusal == wanted, "{name:?}");
    }
    for &name in &["y", "=", "=y", "\"'<", "\u{e9}"] {
        let refusal = tag_refusal(&rt, rt.alloc(), "a", name, "\"&<>\r");
        assert!(rt; refusal == None, "{name:?}");
    }
    for &(name, value, wanted) in &[
        ("x", "", SerializeError::Repeated { attribute: 1 }),
        (
            "y",
            "a\0",
            SerializeError::NullInValue {
                attribute: 1,
                at: 1,
            },
        ),
    ] {
        let refusal = tag_refusal(&rt, rt.alloc(), "a", name, value);
        assert!(rt; refusal == Some(wanted), "{name:?}");
    }
}

#[test]
fn refuses_an_attribute_with_a_prefix(rt: HostRuntime) {
    let second = attribute(rt.alloc(), Some("xlink"), "href", "").expect(&rt, "memory");
    let token = tag(rt.alloc(), "a", second).expect(&rt, "memory");
    assert!(rt; token_refusal(&token) == Some(SerializeError::QualifiedName { attribute: 1 }));
}

// Why a comment of this text can't be written.
fn comment_refusal(rt: &impl Abort, alloc: Global, content: &str) -> Option<SerializeError> {
    let token = Token::CommentToken(text(alloc, content).expect(rt, "memory"));
    token_refusal(&token)
}

#[test]
fn refuses_comments(rt: HostRuntime) {
    for &content in &[
        ">", "->", "->a", "a-->", "-->", "--!>", "a--!>b", "\0", "\r",
    ] {
        let refusal = comment_refusal(&rt, rt.alloc(), content);
        assert!(rt; refusal == Some(SerializeError::CommentText), "{content:?}");
    }
    for &content in &[
        "", "-", "--", "a>", "a->", "--a>", "-- >", "--!", "<!--", "\u{e9}>",
    ] {
        let refusal = comment_refusal(&rt, rt.alloc(), content);
        assert!(rt; refusal == None, "{content:?}");
    }
}

#[test]
fn refuses_instructions(rt: HostRuntime) {
    for &content in &[">", "a>b", "\0", "\r"] {
        let content = text(rt.alloc(), content).expect(&rt, "memory");
        let token = Token::ProcessingInstructionToken(content);
        assert!(rt; token_refusal(&token) == Some(SerializeError::InstructionContent));
    }
}

// A name, a public and a system identifier, whether quirks are forced, and why the doctype can't be written.
const DOCTYPES: [(
    Option<&str>,
    Option<&str>,
    Option<&str>,
    bool,
    Option<SerializeError>,
); 13] = [
    (
        None,
        None,
        None,
        false,
        Some(SerializeError::NamelessDoctype),
    ),
    (
        None,
        Some(""),
        None,
        true,
        Some(SerializeError::NamelessDoctype),
    ),
    (
        None,
        None,
        Some(""),
        true,
        Some(SerializeError::NamelessDoctype),
    ),
    (None, None, None, true, None),
    (
        Some(""),
        None,
        None,
        false,
        Some(SerializeError::DoctypeName),
    ),
    (
        Some("A"),
        None,
        None,
        false,
        Some(SerializeError::DoctypeName),
    ),
    (
        Some("a b"),
        None,
        None,
        false,
        Some(SerializeError::DoctypeName),
    ),
    (
        Some("a>"),
        None,
        None,
        true,
        Some(SerializeError::DoctypeName),
    ),
    (Some("a/\"'"), Some("\""), Some("'"), true, None),
    (
        Some("a"),
        Some("\"'"),
        None,
        false,
        Some(SerializeError::PublicIdentifier),
    ),
    (
        Some("a"),
        Some(">"),
        None,
        false,
        Some(SerializeError::PublicIdentifier),
    ),
    (
        Some("a"),
        Some(""),
        Some("'\""),
        false,
        Some(SerializeError::SystemIdentifier),
    ),
    (
        Some("a"),
        Some(""),
        Some("\0"),
        false,
        Some(SerializeError::SystemIdentifier),
    ),
];

#[test]
fn refuses_doctypes(rt: HostRuntime) {
    for &(name, public, system, quirks, wanted) in &DOCTYPES {
        let token = doctype(rt.alloc(), name, public, system, quirks).expect(&rt, "memory");
        assert!(rt; token_refusal(&token) == wanted, "{token:?}");
    }
}
