//! The standard's "After DOCTYPE name state": the keyword of an identifier, or else what is skipped.
#![tactic(auto, unfolding(html5reading::specs::Machine::doctype_keyword_step, html5reading::specs::Doctype::begins_doctype_keyword, html5reading::specs::Doctype::keyword_error))]

ghost use Rattle.std.specs.Prelude.{◌≡◌, ◌≢◌, Bool, ◌∷◌, [], ◌||◌, nat_eq, ◌<◌, ◌≤◌, ◌+◌, OnOk, Ok, true, false, string_bytes};
ghost use Rattle.std.specs.List.{starts_with};
ghost use Rattle.html5ever_interface.specs.Token.{doctype_of};
ghost use Rattle.html5reading.specs.Machine.{doctype_keyword_step, skipped_step};
ghost use Rattle.html5reading.specs.Characters.{lower_case};
ghost use Rattle.html5reading.specs.Doctype.{begins_doctype_keyword, keyword_error, with_quirks};
ghost use Rattle.html5reading.specs.Reading.Here.{Tells};
ghost use Rattle.html5reading.specs.Start.{held_len};
ghost use Rattle.html5partial.specs.CurrentTag.{opened_of, last_name_of};
ghost use Rattle.html5partial.specs.Doctypes.{keyword_in};

use crate::opened::Opened;
use html5ever_interface::states::{DoctypeIdKind, State};
use std::alloc::{AllocError, Allocator};

/// Whether the character begins a keyword.
pub fn begins_doctype_keyword(c: char) -> bool
    ensures keyword { result ≡ begins_doctype_keyword (c ∷ []) }
    ensures ascii { result ≡ true → c < 128 }
{
    matches!(c, 'P' | 'p' | 'S' | 's')
}

// Whether the bytes begin the word of six small letters, in any case.
fn begins_word(word: &[u8; 6], held: &[u8]) -> bool
    requires { lower_case word.now ≡ word.now }
    ensures { result ≡ starts_with nat_eq word.now (lower_case held.now) }
{
    held.len() <= 6 && word[..held.len()].eq_ignore_ascii_case(held)
}

// Whether the bytes begin a keyword.
fn begins_any(held: &[u8]) -> bool
    ensures { result ≡ begins_doctype_keyword held.now }
{
    begins_word(b"public", held) || begins_word(b"system", held)
}

// The keyword, where the text is one, in any case.
fn keyword_of(held: &str) -> Option<DoctypeIdKind>
    ensures { result ≡ keyword_in held.now }
{
    if held.eq_ignore_ascii_case("public") {
        return Some(DoctypeIdKind::Public);
    }
    if held.eq_ignore_ascii_case("system") {
        return Some(DoctypeIdKind::System);
    }
    None
}

/// Holds a character after those that begin a keyword, and answers whether it belongs to one. A
/// character with which no keyword goes on is still to be read.
pub fn hold_doctype_keyword<A: Allocator>(at: &mut Opened<A>, c: char) -> Result<bool, AllocError>
    requires state { at.old.state ≡ State.AfterDoctypeName }
    requires held { string_bytes at.old.comment ≢ [] }
    ensures taken { result ≡ Ok true → (exact : Bool) → doctype_keyword_step exact (string_bytes at.old.comment)
        (doctype_of at.old.doctype) c
        ≡ record { settled = []; here = Tells [] (opened_of at.new) } }
    ensures decided { result ≡ Ok false → (exact : Bool) → doctype_keyword_step exact (string_bytes at.old.comment)
        (doctype_of at.old.doctype) c
        ≡ record {
          settled = keyword_error exact (string_bytes at.old.comment);
          here = skipped_step exact []
              (with_quirks (doctype_of at.old.doctype)) c;
        } }
    ensures kept { result ≡ Ok false → opened_of at.new ≡ opened_of at.old }
    ensures last { last_name_of at.new ≡ last_name_of at.old }
    ensures held { held_len (opened_of at.new) ≤ held_len (opened_of at.old) + 1 }
{
    if !c.is_ascii() {
        return Ok(false);
    }
    at.comment.push(c)?;
    if let Some(kind) = keyword_of(&at.comment) {
        at.state = State::AfterDoctypeKeyword(kind);
        return Ok(true);
    }
    if begins_any(at.comment.as_bytes()) {
        return Ok(true);
    }
    at.comment.pop();
    Ok(false)
}
