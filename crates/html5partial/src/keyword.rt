//! What may begin a keyword: that after `<!`, or one after the name of a DOCTYPE.
#![tactic(auto)]

ghost use Rattle.std.specs.Prelude.{◌≡◌, ◌≤◌, ◌+◌, Ok, true, false, string_bytes};
ghost use Rattle.html5reading.specs.Start.{held_len};
ghost use Rattle.html5partial.specs.CurrentTag.{opened_of, last_name_of};
ghost use Rattle.html5partial.specs.Undecided.{EndsKeyword, GoesOn, holds_keyword_in, is_keyword_open};

use crate::declaration::hold_declaration;
use crate::doctype_keyword::hold_doctype_keyword;
use crate::opened::Opened;
use html5ever_interface::states::State;
use std::alloc::{AllocError, Allocator};

/// Whether a keyword is not decided: after `<!`, or after the name of a DOCTYPE.
#[inline(always)]
pub fn holds_keyword<A: Allocator>(opened: &Opened<A>) -> bool
    ensures { result ≡ holds_keyword_in opened.now.state (string_bytes opened.now.comment) }
{
    match opened.state {
        State::MarkupDeclarationOpen => true,
        State::AfterDoctypeName => !opened.comment.is_empty(),
        _ => false,
    }
}

/// Holds a character after those that may begin a keyword, and answers whether it belongs to one.
/// Else the character is still to be read. `foreign` says whether `[CDATA[` is a keyword here.
pub fn hold_keyword<A: Allocator>(
    opened: &mut Opened<A>,
    c: char,
    foreign: bool,
) -> Result<bool, AllocError>
    requires { is_keyword_open (opened_of opened.old) ≡ true }
    ensures taken { result ≡ Ok true → GoesOn foreign (opened_of opened.old) c (opened_of opened.new) }
    ensures decided { result ≡ Ok false → EndsKeyword foreign (opened_of opened.old) c }
    ensures kept { result ≡ Ok false → opened_of opened.new ≡ opened_of opened.old }
    ensures last { last_name_of opened.new ≡ last_name_of opened.old }
    ensures held { held_len (opened_of opened.new) ≤ held_len (opened_of opened.old) + 1 }
{
    match opened.state {
        State::MarkupDeclarationOpen => hold_declaration(opened, c, foreign),
        _ => hold_doctype_keyword(opened, c),
    }
}
