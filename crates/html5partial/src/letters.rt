//! The standard's temporary buffer: letters that raw text holds. After `</` they may be the name of an
//! end tag. After the `<` and `</` of escaped script data they may switch to double-escaped and back.
#![tactic(auto, unfolding(html5reading::specs::RawText::switched, html5reading::specs::RawText::ends_raw_text))]

ghost use Rattle.std.specs.Prelude.{◌≡◌, ◌∷◌, [], ◌++◌, OnOk, IfOk, IfSome, is_some, string_bytes};
ghost use Rattle.std.specs.Str.{chars};
ghost use Rattle.html5reading.specs.RawText.{lower, other_escape, switched, ends_raw_text};
ghost use Rattle.html5partial.specs.CurrentTag.{last_name_of};

use crate::characters::ends_name;
use crate::opened::Opened;
use crate::runs::push_names;
use html5ever_interface::states::ScriptEscapeKind;
use std::alloc::{AllocError, Allocator};

/// Appends a letter.
pub fn push_letter<A: Allocator>(letters: &mut String<A>, c: char) -> Result<(), AllocError>
    ensures { OnOk result (chars (string_bytes letters.new) ≡ chars (string_bytes letters.old) ++ c ∷ []) }
{
    letters.push(c)
}

/// Holds no letters.
pub fn clear_letters<A: Allocator>(letters: &mut String<A>)
    ensures { chars (string_bytes letters.new) ≡ [] }
{
    letters.clear();
}

// The letters in lower case.
fn lower<A: Allocator>(alloc: A, letters: &str) -> Result<String<A>, AllocError>
    ensures { IfOk result (λ name. string_bytes name ≡ lower (chars letters.now)) }
{
    let mut name = String::new(alloc);
    push_names(&mut name, letters)?;
    Ok(name)
}

// The script data after letters: `script` switches.
fn other_escape(kind: ScriptEscapeKind) -> ScriptEscapeKind
    ensures { result ≡ other_escape kind }
{
    match kind {
        ScriptEscapeKind::Escaped => ScriptEscapeKind::DoubleEscaped,
        ScriptEscapeKind::DoubleEscaped => ScriptEscapeKind::Escaped,
    }
}

/// The kind of script data after letters and the end of their name.
pub fn switched<A: Allocator>(
    alloc: A,
    kind: ScriptEscapeKind,
    letters: &str,
) -> Result<ScriptEscapeKind, AllocError>
    ensures { IfOk result (λ later. later ≡ switched kind (chars letters.now)) }
{
    let name = lower(alloc, letters)?;
    if name.as_str() == "script" {
        return Ok(other_escape(kind));
    }
    Ok(kind)
}

/// The name of the standard's "appropriate end tag token", in lower case, where the letters after `</`
/// are that name and the character ends it.
pub fn end_tag_name<A: Allocator>(
    alloc: A,
    at: &Opened<A>,
    c: char,
) -> Result<Option<String<A>>, AllocError>
    ensures ends { IfOk result (λ name.
        is_some name ≡ ends_raw_text (last_name_of at.now) (chars (string_bytes at.now.letters)) c) }
    ensures name { IfOk result (λ name. IfSome name (λ name.
        string_bytes name ≡ lower (chars (string_bytes at.now.letters)))) }
{
    if at.last_start_tag.is_empty() || !ends_name(c) {
        return Ok(None);
    }
    let name = lower(alloc, &at.letters)?;
    if name.as_str() == at.last_start_tag.as_str() {
        return Ok(Some(name));
    }
    Ok(None)
}
