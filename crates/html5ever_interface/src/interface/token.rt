//! The tokens, and what is replied to them.
ghost use Rattle.std.specs.Prelude.{◌≡◌, ◌↔◌, map, count_by, IfOk, IsPermutation, IsTrue};
ghost use Rattle.markup5ever.specs.Names.{attribute_of};
ghost use Rattle.html5ever_interface.specs.Token.{TagOf, IsEquivalent};

use crate::interface::message::ErrorMessage;
use crate::states::RawKind;
use markup5ever::interface::{Attribute, LocalName};
use std::alloc::{AllocError, Allocator, Global};
use thiserror::Error;

/// Which of the two kinds a tag is of.
#[derive(Clone, Copy, Debug, PartialEq, Eq, Hash)]
pub enum TagKind {
    /// As `<p>`.
    StartTag,
    /// As `</p>`.
    EndTag,
}

/// A start tag or an end tag.
#[derive(Drop)]
#[derive_where(Debug, PartialEq, Eq)]
pub struct Tag<A: Allocator = Global> {
    /// A start tag or an end tag.
    pub kind: TagKind,
    /// The name, never empty: ASCII letters in lower case, U+0000 as U+FFFD.
    pub name: LocalName<A>,
    /// The attributes in the order of the text, no two of one name. An end tag keeps its own, too.
    pub attrs: Vec<Attribute<A>, A>,
    /// Whether `/` stands directly before the tag's `>`.
    pub self_closing: bool,
    /// Whether an attribute was left out, since one of its name stood before it.
    pub had_duplicate_attributes: bool,
}

/// A DOCTYPE. What it lacks is `None`.
#[derive(Drop)]
#[derive_where(Debug, PartialEq, Eq)]
pub struct Doctype<A: Allocator = Global> {
    /// The name, such as `html`.
    pub name: Option<String<A>>,
    /// The public identifier, without its quotes.
    pub public_id: Option<String<A>>,
    /// The system identifier, without its quotes.
    pub system_id: Option<String<A>>,
    /// Whether the document is in quirks mode, whatever the rest says.
    pub force_quirks: bool,
}

/// What a tokenizer sends its sink.
#[derive(Drop)]
#[derive_where(Debug, PartialEq, Eq)]
pub enum Token<A: Allocator = Global> {
    /// A DOCTYPE, at its `>` or at the end of input.
    DoctypeToken(Doctype<A>),
    /// A tag, at its `>`. One that has none is not sent.
    TagToken(Tag<A>),
    /// A comment's text, without `<!--` and `-->`, or that of a bogus comment.
    CommentToken(String<A>),
    /// The content of a processing instruction, as `<?x>`: the text between `<?` and `>`.
    ProcessingInstructionToken(String<A>),
    /// Text, never empty: line breaks are LF. A run of text may come in any number of these.
    CharacterTokens(String<A>),
    /// U+0000 in text. In plain text it is U+FFFD, as text.
    NullCharacterToken,
    /// The end of the input: once, and last.
    EOFToken,
    /// The message of an error, at the character that shows it. Reading goes on.
    ParseError(ErrorMessage<A>),
}

/// What a sink replies to a token. Only a tag gets another reply than `Continue`.
#[derive(Debug, PartialEq, Eq, Drop)]
pub enum TokenSinkResult<Handle, Text> {
    /// Read on.
    Continue,
    /// Pause, to run a script: `feed` answers the handle.
    Script(Handle),
    /// Read all that follows as plain text.
    Plaintext,
    /// Read raw text, up to the end tag of this tag's name.
    RawData(RawKind),
    /// Pause, since the tag names an encoding: `feed` answers its name.
    EncodingIndicator(Text),
}

/// How a tokenizer goes on. No public call answers it.
#[derive(Debug, PartialEq, Eq, Drop)]
pub enum ProcessResult<Handle, Text> {
    Continue,
    Suspend,
    Script(Handle),
    EncodingIndicator(Text),
}

/// A sink's word that it could not take a token. It keeps the reason itself.
#[derive(Clone, Copy, Debug, PartialEq, Eq, Error)]
#[error("the sink could not take a token")]
pub struct SinkFault;

impl From<AllocError> for SinkFault {
    fn from(_error: AllocError) -> SinkFault {
        SinkFault
    }
}

/// Why a sink did not take a text.
#[derive(Clone, Copy, Debug, PartialEq, Eq, Error)]
pub enum TextFault {
    /// There was no memory for a copy of it, and the sink was sent nothing.
    #[error("no memory for a copy of the text")]
    Memory,
    /// The sink could not take it.
    #[error("the sink could not take the text")]
    Sink,
}

impl From<AllocError> for TextFault {
    ghost use Rattle.std.specs.Prelude.{◌≡◌};
    ghost use Rattle.html5ever_interface.specs.declared.interface.token.TextFault.TheVariants.{Memory};

    ghost from_gives = { λ _ fault. fault ≡ Memory };

    fn from(_error: AllocError) -> TextFault {
        TextFault::Memory
    }
}

impl From<SinkFault> for TextFault {
    ghost use Rattle.std.specs.Prelude.{◌≡◌};
    ghost use Rattle.html5ever_interface.specs.declared.interface.token.TextFault.TheVariants.{Sink};

    ghost from_gives = { λ _ fault. fault ≡ Sink };

    fn from(_fault: SinkFault) -> TextFault {
        TextFault::Sink
    }
}

impl<A: Allocator> Default for Doctype<A> {
    ghost use Rattle.std.specs.Prelude.{◌≡◌};
    ghost use Rattle.html5ever_interface.specs.Token.{doctype_of, empty_doctype};

    ghost is_default = { λ doctype. doctype_of doctype ≡ empty_doctype };

    fn default() -> Self {
        Doctype {
            name: None,
            public_id: None,
            system_id: None,
            force_quirks: false,
        }
    }
}

impl<A: Allocator + Copy> Doctype<A> {
    ghost use Rattle.html5ever_interface.specs.Token.{doctype_of};

    /// An equal DOCTYPE, with the same allocator.
    pub fn try_clone(&self) -> Result<Doctype<A>, AllocError>
        ensures { IfOk result (λ clone. doctype_of clone ≡ doctype_of self.now) }
    {
        let name = self.name.clone()?;
        let public_id = self.public_id.clone()?;
        let system_id = self.system_id.clone()?;
        Ok(Doctype {
            name,
            public_id,
            system_id,
            force_quirks: self.force_quirks,
        })
    }
}

impl<A: Allocator + Copy> Tag<A> {
    ghost use Rattle.html5ever_interface.specs.Token.{tag_of};

    /// An equal tag, with the same allocator.
    pub fn try_clone(&self) -> Result<Tag<A>, AllocError>
        ensures { IfOk result (λ clone. tag_of clone ≡ tag_of self.now) }
    {
        let name = self.name.try_clone()?;
        let attrs = clone_attributes(&self.attrs)?;
        Ok(Tag {
            kind: self.kind,
            name,
            self_closing: self.self_closing,
            attrs,
            had_duplicate_attributes: self.had_duplicate_attributes,
        })
    }
}

impl<A: Allocator> Tag<A> {
    ghost use Rattle.html5ever_interface.specs.Token.{tag_of};

    /// Whether the tags have one kind, one name and the same attributes, each as often, in any
    /// order. The two flags are neglected. Nothing is allocated, and the time grows with the square
    /// of the number of attributes.
    pub fn equiv_modulo_attr_order(&self, other: &Tag<A>) -> bool
        ensures { IsTrue result ↔ IsEquivalent (tag_of self.now) (tag_of other.now) }
    {
        self.kind == other.kind
            && self.name == other.name
            && is_permutation(&self.attrs, &other.attrs)
    }
}

// Whether both have the same attributes, each as often, in any order.
fn is_permutation<A: Allocator>(attrs: &[Attribute<A>], others: &[Attribute<A>]) -> bool
    ensures { IsTrue result
        ↔ IsPermutation (map attribute_of attrs.now) (map attribute_of others.now) }
{
    if attrs.len() != others.len() {
        return false;
    }
    for attribute in attrs {
        if count_of(attrs, attribute) != count_of(others, attribute) {
            return false;
        }
    }
    true
}

// How many attributes equal this one.
fn count_of<A: Allocator>(attrs: &[Attribute<A>], attribute: &Attribute<A>) -> usize
    ensures { result
        ≡ count_by (λ other. ⟦<Attribute<A> as PartialEq>⟧.eq other attribute.now) attrs.now }
{
    attrs.iter().filter(|other| **other == *attribute).count()
}

/// To be equal, except for the order of attributes and the flags, is an equivalence of tags.
pub fn equivalence_of_tags()
    ensures reflexive { (tag : TagOf) → IsEquivalent tag tag }
    ensures symmetric { (tag other : TagOf) → IsEquivalent tag other → IsEquivalent other tag }
    ensures transitive { (tag other third : TagOf) → IsEquivalent tag other
        → IsEquivalent other third → IsEquivalent tag third }
{}

// Attributes equal to these, with the same allocator.
fn clone_attributes<A: Allocator + Copy>(
    attrs: &Vec<Attribute<A>, A>,
) -> Result<Vec<Attribute<A>, A>, AllocError>
    ensures { IfOk result
        (λ clones. map attribute_of clones.items ≡ map attribute_of attrs.now.items) }
{
    let mut clones = Vec::new(*attrs.allocator());
    for attribute in attrs {
        clones.push(attribute.try_clone()?)?;
    }
    Ok(clones)
}

impl<A: Allocator + Copy> Token<A> {
    ghost use Rattle.html5ever_interface.specs.Token.{told_by};

    /// An equal token, with the same allocator.
    pub fn try_clone(&self) -> Result<Token<A>, AllocError>
        ensures { IfOk result (λ clone. told_by clone ≡ told_by self.now) }
    {
        match self {
            Token::DoctypeToken(doctype) => Ok(Token::DoctypeToken(doctype.try_clone()?)),
            Token::TagToken(tag) => Ok(Token::TagToken(tag.try_clone()?)),
            Token::CommentToken(text) => Ok(Token::CommentToken(text.clone()?)),
            Token::ProcessingInstructionToken(text) => {
                Ok(Token::ProcessingInstructionToken(text.clone()?))
            }
            Token::CharacterTokens(text) => Ok(Token::CharacterTokens(text.clone()?)),
            Token::NullCharacterToken => Ok(Token::NullCharacterToken),
            Token::EOFToken => Ok(Token::EOFToken),
            Token::ParseError(message) => Ok(Token::ParseError(message.try_clone()?)),
        }
    }
}
