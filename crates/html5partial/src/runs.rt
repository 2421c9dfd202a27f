//! Runs: characters that are read at once. For each state that reads runs, which
//! characters end one, and where a run within a tag goes. A run between tags is sent as one text, and
//! goes on over line feeds.
ghost use Rattle.std.specs.Prelude.{◌≡◌, ℕ, [], false, ◌↔◌, ◌++◌, true, Contains, OnOk, IfSome, is_some, string_bytes, flat_map};
ghost use Rattle.std.specs.Str.{chars};
ghost use Rattle.html5reading.specs.Cdata.{open_cdata};
ghost use Rattle.html5reading.specs.Characters.{name_bytes};
ghost use Rattle.html5reading.specs.Start.{nothing_open, held_len};
ghost use Rattle.html5reading.specs.Start.{begun, raw_of};
ghost use Rattle.html5reading.specs.Start.Mode.{RawText};
ghost use Rattle.html5reading.specs.Start.Open.{Between, InComment, InTag};
ghost use Rattle.html5reading.specs.Start.Place.{InName, InAttributeName};
ghost use Rattle.html5ever_interface.specs.declared.interface.token.TagKind.TheVariants.{StartTag};
ghost use Rattle.html5partial.specs.CurrentTag.{opened_of, last_name_of};
ghost use Rattle.html5partial.specs.Runs.{IsRunAt, other_value_ends, other_run_ends, run_ends, stays_in_names, opened_after_run};
ghost use Rattle.std.specs.List.{AllPass, list_all};
ghost use Rattle.markup5ever.specs.SmallCharSet.{IsMember};

use crate::comments::{ends_in, is_comment_state};
use crate::current_tag::push_name;
use crate::opened::Opened;
use html5ever_interface::states::{AttrValueKind, RawKind, State};
use markup5ever::small_char_set::SmallCharSet;
use markup5ever::text::push_text;
use std::alloc::{AllocError, Allocator};

/// The characters that end a run in a tag's name.
#[inline(always)]
pub fn tag_name_ends() -> SmallCharSet
    ensures { IfSome (other_run_ends (InTag InName (begun StartTag))) (λ others.
        (c : ℕ) → IsMember result c ↔ Contains (run_ends others) c) }
{
    SmallCharSet::of(b"\0\r\n\t\x0C />")
}

/// The characters that end a run in an attribute's name.
#[inline(always)]
pub fn attribute_name_ends() -> SmallCharSet
    ensures { IfSome (other_run_ends (InTag InAttributeName (begun StartTag))) (λ others.
        (c : ℕ) → IsMember result c ↔ Contains (run_ends others) c) }
{
    SmallCharSet::of(b"\0\r\n\t\x0C />=\"'<")
}

// The characters that end a run in a value.
#[inline(always)]
fn value_ends(kind: AttrValueKind) -> SmallCharSet
    ensures { (c : ℕ) → IsMember result c ↔ Contains (run_ends (other_value_ends kind)) c }
{
    match kind {
        AttrValueKind::DoubleQuoted => SmallCharSet::of(b"\0\r\n\"&"),
        AttrValueKind::SingleQuoted => SmallCharSet::of(b"\0\r\n'&"),
        AttrValueKind::Unquoted => SmallCharSet::of(b"\0\r\n\t\x0C &>"),
    }
}

// The characters that end a run in raw text.
#[inline(always)]
fn raw_ends(kind: RawKind) -> SmallCharSet
    ensures { IfSome (other_run_ends (Between (RawText (raw_of kind) []))) (λ others.
        (c : ℕ) → IsMember result c ↔ Contains (run_ends others) c) }
{
    match kind {
        RawKind::Rcdata => SmallCharSet::of(b"\0\r<&"),
        RawKind::Rawtext | RawKind::ScriptData => SmallCharSet::of(b"\0\r<"),
        RawKind::ScriptDataEscaped(_) => SmallCharSet::of(b"\0\r-<"),
    }
}

// The characters that end a run in a CDATA section, where text of it is held.
#[inline(always)]
fn section_ends(text: &str) -> Option<SmallCharSet>
    ensures has_runs { is_some result ≡ is_some (other_run_ends (open_cdata (chars text.now))) }
    ensures ends { IfSome result (λ set. IfSome (other_run_ends (open_cdata (chars text.now))) (λ others.
        (c : ℕ) → IsMember set c ↔ Contains (run_ends others) c)) }
{
    if text.is_empty() {
        return None;
    }
    Some(SmallCharSet::of(b"\0\r\n>"))
}

// The characters that end a run in a comment, unless its text so far ends in a dash.
#[inline(always)]
fn comment_ends(text: &str) -> Option<SmallCharSet>
    ensures has_runs { is_some result ≡ is_some (other_run_ends (InComment text.now)) }
    ensures ends { IfSome result (λ set. IfSome (other_run_ends (InComment text.now)) (λ others.
        (c : ℕ) → IsMember set c ↔ Contains (run_ends others) c)) }
{
    if ends_in(text, b"-") {
        return None;
    }
    Some(SmallCharSet::of(b"\0\r\n->"))
}

/// The characters that end a run, where the state reads runs.
#[inline(always)]
pub fn run_ends<A: Allocator>(at: &Opened<A>) -> Option<SmallCharSet>
    ensures has_runs { is_some result ≡ is_some (other_run_ends (opened_of at.now)) }
    ensures ends { IfSome result (λ set. IfSome (other_run_ends (opened_of at.now)) (λ others.
        (c : ℕ) → IsMember set c ↔ Contains (run_ends others) c)) }
{
    match at.state {
        State::Data => Some(SmallCharSet::of(b"\0\r<&")),
        State::Plaintext => Some(SmallCharSet::of(b"\0\r")),
        State::TagName => Some(tag_name_ends()),
        State::AttributeName => Some(attribute_name_ends()),
        State::AttributeValue(kind) => Some(value_ends(kind)),
        State::RawData(kind) => Some(raw_ends(kind)),
        State::BogusComment => Some(SmallCharSet::of(b"\0\r\n>")),
        State::ProcessingInstruction => Some(SmallCharSet::of(b"\0\r\n>")),
        State::CdataSection => section_ends(&at.comment),
        state if is_comment_state(state) => comment_ends(&at.comment),
        _ => None,
    }
}

// Whether a byte stands in a name as it is.
#[inline(always)]
fn stays_in_names(byte: u8) -> bool
    ensures { result ≡ stays_in_names byte }
{
    byte != 0 && (byte < b'A' || byte > b'Z')
}

// Whether each byte of a run stands in a name as it is.
#[inline(always)]
fn is_plain_name(run: &[u8]) -> bool
    ensures { result ≡ list_all stays_in_names run.now }
{
    run.iter().all(|byte| stays_in_names(*byte))
}

// Appends a run to a name, its letters in lower case, character by character.
#[inline(never)]
fn push_letters<A: Allocator>(name: &mut String<A>, run: &str) -> Result<(), AllocError>
    ensures { OnOk result (string_bytes name.new
        ≡ string_bytes name.old ++ flat_map name_bytes (chars run.now)) }
{
    for c in run.chars() {
        push_name(name, c)?;
    }
    Ok(())
}

/// Appends a run to a name, its letters in lower case.
#[inline(always)]
pub fn push_names<A: Allocator>(name: &mut String<A>, run: &str) -> Result<(), AllocError>
    ensures { OnOk result (string_bytes name.new
        ≡ string_bytes name.old ++ flat_map name_bytes (chars run.now)) }
{
    if !is_plain_name(run.as_bytes()) {
        return push_letters(name, run);
    }
    push_text(name, run)?;
    Ok(())
}

/// Appends the front of a name.
#[inline(always)]
pub fn push_front<A: Allocator>(
    name: &mut String<A>,
    front: &str,
    is_plain: bool,
) -> Result<(), AllocError>
    requires { is_plain ≡ true → AllPass stays_in_names front.now }
    ensures { OnOk result (string_bytes name.new
        ≡ string_bytes name.old ++ flat_map name_bytes (chars front.now)) }
{
    if !is_plain {
        return push_names(name, front);
    }
    push_text(name, front)?;
    Ok(())
}

/// Appends a run to the open name or value, or to the text of a comment, an instruction or a section.
#[inline(always)]
pub fn push_run<A: Allocator>(at: &mut Opened<A>, run: &str) -> Result<(), AllocError>
    requires is_run { IsRunAt (opened_of at.old) (chars run.now) }
    requires within { nothing_open (opened_of at.old) ≡ false }
    ensures run { OnOk result
        (opened_of at.new ≡ opened_after_run (opened_of at.old) (chars run.now)) }
    ensures last { last_name_of at.new ≡ last_name_of at.old }
    ensures held { held_len (opened_of at.new) ≡ 0 }
{
    match at.state {
        State::TagName => at.tag.indexed.push_names(run)?,
        State::AttributeName => push_names(&mut at.tag.attr_name, run)?,
        State::AttributeValue(_) => push_text(&mut at.tag.attr_value, run)?,
        State::BogusComment => at.comment.push_str(run)?,
        State::ProcessingInstruction => at.comment.push_str(run)?,
        State::CdataSection => at.comment.push_str(run)?,
        state if is_comment_state(state) => at.comment.push_str(run)?,
        _ => unreachable!(),
    }
    Ok(())
}
