//! The DOCTYPE that is open: its name, its identifiers and their quotes.
#![tactic(auto, unfolding(html5reading::specs::Characters::name_bytes, html5reading::specs::Characters::value_bytes))]

ghost use Rattle.std.specs.Prelude.{◌≡◌, Some, ◌++◌, ◌∷◌, [], OnOk, encode_utf8, option_map, string_bytes};
ghost use Rattle.html5ever_interface.specs.Token.{doctype_of};
ghost use Rattle.html5reading.specs.Doctype.{quote_mark, identifier_state, with_first_of_name, with_doctype_name, with_begun_identifier, with_identifier};
ghost use Rattle.html5partial.specs.CurrentTag.{is_doctype_state};
ghost use Rattle.html5partial.specs.Doctypes.{begun_text, quotes_of};

use crate::characters::{name_character, shown};
use html5ever_interface::interface::token::Doctype;
use html5ever_interface::states::{DoctypeIdKind, State};
use std::alloc::{AllocError, Allocator};

/// The quotes of an identifier.
#[derive(Clone, Copy, Debug, PartialEq, Eq)]
pub enum Quotes {
    Double,
    Single,
}

impl Quotes {
    /// The character.
    pub fn mark(self) -> char
        ensures { result ≡ quote_mark (quotes_of self) }
    {
        match self {
            Quotes::Double => '"',
            Quotes::Single => '\'',
        }
    }

    /// The state within an identifier.
    pub fn state(self, kind: DoctypeIdKind) -> State
        ensures { result ≡ identifier_state (quotes_of self) kind }
    {
        match self {
            Quotes::Double => State::DoctypeIdentifierDoubleQuoted(kind),
            Quotes::Single => State::DoctypeIdentifierSingleQuoted(kind),
        }
    }
}

/// Appends a character to a text, or begins one with it if there is none.
pub fn option_push<A: Allocator>(
    alloc: A,
    text: &mut Option<String<A>>,
    c: char,
) -> Result<(), AllocError>
    ensures { OnOk result (option_map string_bytes text.new
        ≡ Some (begun_text (option_map string_bytes text.old) ++ encode_utf8 c)) }
{
    if let Some(text) = text {
        return text.push(c);
    }
    let mut begun = String::new(alloc);
    begun.push(c)?;
    *text = Some(begun);
    Ok(())
}

// Appends a character to a text that was begun.
fn push_begun<A: Allocator>(text: &mut Option<String<A>>, c: char) -> Result<(), AllocError>
    ensures { OnOk result (option_map string_bytes text.new
        ≡ option_map (λ begun. begun ++ encode_utf8 c) (option_map string_bytes text.old)) }
{
    match text {
        Some(text) => text.push(c),
        None => Ok(()),
    }
}

/// Begins the name at its first character.
pub fn begin_name<A: Allocator>(
    alloc: A,
    doctype: &mut Doctype<A>,
    c: char,
) -> Result<(), AllocError>
    ensures { OnOk result (doctype_of doctype.new ≡ with_first_of_name (doctype_of doctype.old) c) }
{
    doctype.name = None;
    option_push(alloc, &mut doctype.name, name_character(c))
}

/// Appends a character to the name, a letter in lower case.
pub fn push_doctype_name<A: Allocator>(doctype: &mut Doctype<A>, c: char) -> Result<(), AllocError>
    ensures { OnOk result
        (doctype_of doctype.new ≡ with_doctype_name (doctype_of doctype.old) (c ∷ [])) }
{
    push_begun(&mut doctype.name, name_character(c))
}

/// Begins an identifier, which is empty.
pub fn begin_identifier<A: Allocator>(alloc: A, doctype: &mut Doctype<A>, kind: DoctypeIdKind)
    ensures { doctype_of doctype.new ≡ with_begun_identifier kind (doctype_of doctype.old) }
{
    let begun = Some(String::new(alloc));
    match kind {
        DoctypeIdKind::Public => doctype.public_id = begun,
        DoctypeIdKind::System => doctype.system_id = begun,
    }
}

/// Appends a character to an identifier.
pub fn push_identifier<A: Allocator>(
    doctype: &mut Doctype<A>,
    kind: DoctypeIdKind,
    c: char,
) -> Result<(), AllocError>
    ensures { OnOk result
        (doctype_of doctype.new ≡ with_identifier kind (doctype_of doctype.old) (c ∷ [])) }
{
    match kind {
        DoctypeIdKind::Public => push_begun(&mut doctype.public_id, shown(c)),
        DoctypeIdKind::System => push_begun(&mut doctype.system_id, shown(c)),
    }
}

/// Whether a DOCTYPE is open in the state.
pub fn is_doctype_state(state: State) -> bool
    ensures { result ≡ is_doctype_state state }
{
    match state {
        State::Doctype | State::BeforeDoctypeName | State::DoctypeName => true,
        State::AfterDoctypeName | State::BetweenDoctypePublicAndSystemIdentifiers => true,
        State::AfterDoctypeKeyword(_) | State::BeforeDoctypeIdentifier(_) => true,
        State::DoctypeIdentifierDoubleQuoted(_) => true,
        State::DoctypeIdentifierSingleQuoted(_) | State::AfterDoctypeIdentifier(_) => true,
        State::BogusDoctype => true,
        _ => false,
    }
}
