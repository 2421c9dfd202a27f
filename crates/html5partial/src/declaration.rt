//! The standard's "Markup declaration open state": the text after `<!`. That is the keyword of a
//! comment, of a doctype or, in foreign content, of a CDATA section. Else it is a bogus comment.
#![tactic(auto, unfolding(html5reading::specs::Machine::declaration_step, html5reading::specs::Machine::declaration_answer_step, html5reading::specs::Comment::begins_keyword, html5reading::specs::Comment::begins_cdata))]

ghost use Rattle.std.specs.Prelude.{◌≡◌, Bool, [], ◌∷◌, ◌++◌, codes, nat_eq, ◌≤◌, ◌+◌, OnOk, Ok, true, false, if◌then◌else◌, string_bytes};
ghost use Rattle.std.specs.List.{starts_with};
ghost use Rattle.std.specs.Str.{bytes_eq};
ghost use Rattle.html5reading.specs.Machine.{declaration_step, bogus_comment_step};
ghost use Rattle.html5reading.specs.Characters.{lower_case};
ghost use Rattle.html5reading.specs.Comment.{begins_keyword, begins_cdata, cdata_keyword, declaration_error};
ghost use Rattle.html5reading.specs.Reading.Here.{Tells};
ghost use Rattle.html5reading.specs.Start.{held_len};
ghost use Rattle.html5reading.specs.Start.Mode.{Cdata};
ghost use Rattle.html5reading.specs.Start.Open.{Between, InDeclaration};
ghost use Rattle.html5partial.specs.CurrentTag.{opened_of, last_name_of};

use crate::opened::Opened;
use html5ever_interface::interface::token::Doctype;
use html5ever_interface::states::State;
use std::alloc::{AllocError, Allocator};

// Whether the bytes begin the keyword of a doctype, in any case.
fn begins_doctype(held: &[u8]) -> bool
    ensures { result ≡ starts_with nat_eq (codes "doctype") (lower_case held.now) }
{
    held.len() <= 7 && b"doctype"[..held.len()].eq_ignore_ascii_case(held)
}

// Whether the bytes begin a keyword.
fn begins_keyword(held: &[u8]) -> bool
    ensures { result ≡ begins_keyword held.now }
{
    b"--".starts_with(held) || begins_doctype(held)
}

// Whether the bytes begin the keyword of a CDATA section.
fn begins_cdata(held: &[u8]) -> bool
    ensures { result ≡ begins_cdata held.now }
{
    b"[CDATA[".starts_with(held)
}

/// Whether a character after `<!` belongs to the keyword of a CDATA section. It is one only in foreign
/// content, so the sink decides what the character brings.
pub fn depends_on_sink<A: Allocator>(at: &Opened<A>, c: char) -> bool
    ensures { result ≡ begins_cdata (string_bytes at.now.comment ++ c ∷ []) }
{
    let held = at.comment.as_bytes();
    match b"[CDATA[".get(held.len()) {
        Some(next) => c == char::from(*next) && begins_cdata(held),
        None => false,
    }
}

// Begins a CDATA section, where the keyword is whole.
fn open_cdata<A: Allocator>(at: &mut Opened<A>)
    requires { at.old.state ≡ State.MarkupDeclarationOpen }
    ensures opened { opened_of at.new
        ≡ (if bytes_eq (string_bytes at.old.comment) cdata_keyword then Between Cdata else InDeclaration
        (string_bytes at.old.comment)) }
    ensures last { last_name_of at.new ≡ last_name_of at.old }
{
    if at.comment.as_str() == "[CDATA[" {
        at.state = State::CdataSection;
        at.comment.clear();
    }
}

/// Holds a character after `<!`, and answers whether it belongs to a keyword. A whole keyword begins
/// what it stands for. That of a CDATA section counts only where the content is foreign. A character
/// that belongs to no keyword is still to be read.
pub fn hold_declaration<A: Allocator>(
    at: &mut Opened<A>,
    c: char,
    foreign: bool,
) -> Result<bool, AllocError>
    requires { at.old.state ≡ State.MarkupDeclarationOpen }
    ensures taken { result ≡ Ok true → (exact : Bool) → declaration_step exact foreign (string_bytes at.old.comment) c
        ≡ record { settled = []; here = Tells [] (opened_of at.new) } }
    ensures decided { result ≡ Ok false → (exact : Bool) → declaration_step exact foreign
        (string_bytes at.old.comment) c
        ≡ record {
          settled = declaration_error exact (string_bytes at.old.comment);
          here = bogus_comment_step exact
              (string_bytes at.old.comment) [] c;
        } }
    ensures kept { result ≡ Ok false → opened_of at.new ≡ opened_of at.old }
    ensures last { last_name_of at.new ≡ last_name_of at.old }
    ensures held { held_len (opened_of at.new) ≤ held_len (opened_of at.old) + 1 }
{
    if !c.is_ascii() {
        return Ok(false);
    }
    at.comment.push(c)?;
    if at.comment.as_str() == "--" {
        at.state = State::Comment;
        at.comment.clear();
        return Ok(true);
    }
    if at.comment.eq_ignore_ascii_case("doctype") {
        at.state = State::Doctype;
        at.doctype = Doctype::default();
        return Ok(true);
    }
    if begins_keyword(at.comment.as_bytes()) {
        return Ok(true);
    }
    if foreign && begins_cdata(at.comment.as_bytes()) {
        open_cdata(at);
        return Ok(true);
    }
    at.comment.pop();
    Ok(false)
}
