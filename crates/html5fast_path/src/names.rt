//! Names within a tag, which are read at once from their first letter on.
#![tactic(auto, unfolding(html5reading::specs::Tag::with_last_attribute))]

ghost use Rattle.std.specs.Prelude.{◌≡◌, ◌≢◌, ◌<◌, ◌≤◌, ◌&&◌, ◌++◌, not, true, false, flat_map, string_bytes, take, IfOk, OnOk};
ghost use Rattle.std.specs.List.{AllPass};
ghost use Rattle.std.specs.Str.{chars};
ghost use Rattle.html5reading.specs.Characters.{name_bytes};
ghost use Rattle.html5reading.specs.Start.{begun, held_len};
ghost use Rattle.html5reading.specs.Start.Open.{InTag};
ghost use Rattle.html5reading.specs.Start.Place.{InName, InAttributeName, BeforeAttribute};
ghost use Rattle.html5reading.specs.Tag.{has_last, repeats_attribute, with_name, with_last_attribute, with_last_name};
ghost use Rattle.html5partial.specs.CurrentTag.{open_tag, opened_of, last_name_of};
ghost use Rattle.html5partial.specs.Runs.{stays_in_names};
ghost use Rattle.markup5ever.specs.SmallCharSet.{BeginsOutside, IsMember};
ghost use Rattle.html5fast_path.specs.Quiet.{IsNameIn, ReadsFront, opening_of};

use crate::characters::first_ascii;
use html5ever_interface::interface::token::TagKind;
use html5ever_interface::states::State;
use html5partial::characters::is_letter;
use html5partial::opened::Opened;
use html5partial::runs::{attribute_name_ends, push_front, tag_name_ends};
use markup5ever::small_char_set::SmallCharSet;
use std::alloc::{AllocError, Allocator};

// Whether a byte is a digit or a dash that is not in the set.
#[inline(always)]
fn is_other_plain(ends: SmallCharSet, byte: u8) -> bool
    ensures ascii { result ≡ true → byte < 128 }
    ensures stays { result ≡ true → stays_in_names byte ≡ true }
    ensures outside { result ≡ true → ¬ IsMember ends byte }
{
    matches!(byte, b'0'..=b'9' | b'-') && !ends.contains(char::from(byte))
}

// Whether a byte goes on with a plain name: a letter in lower case, which no set has, or a digit or a dash that is not in
// the set. Letters are looked for first, since most are.
#[inline(always)]
fn goes_on(ends: SmallCharSet, byte: u8) -> bool
    ensures ascii { result ≡ true → byte < 128 }
    ensures stays { result ≡ true → stays_in_names byte ≡ true }
    ensures outside { result ≡ true → ¬ IsMember ends byte }
{
    byte.is_ascii_lowercase() || is_other_plain(ends, byte)
}

// How many bytes of plain names a text begins with.
#[inline(always)]
fn plain_len(ends: SmallCharSet, text: &str) -> usize
    ensures outside { BeginsOutside ends text.now result }
    ensures stays { AllPass stays_in_names (take result text.now) }
{
    let bytes = text.as_bytes();
    for at in 0..bytes.len() {
        if !goes_on(ends, bytes[at]) {
            return at;
        }
    }
    bytes.len()
}

// Whether a text begins with a letter in lower case, as most names do.
#[inline(always)]
fn begins_plain(text: &str) -> bool {
    matches!(text.as_bytes().first(), Some(b'a'..=b'z'))
}

// How many bytes a text begins with that don't end a name: where only plain ones are wanted, those.
#[inline(always)]
fn front_len(ends: SmallCharSet, is_plain: bool, text: &str) -> usize
    ensures outside { BeginsOutside ends text.now result }
    ensures stays { is_plain ≡ true → AllPass stays_in_names (take result text.now) }
{
    if is_plain {
        plain_len(ends, text)
    } else {
        ends.nonmember_prefix_len(text)
    }
}

// How many bytes the front of the name takes with which a text begins. It is 0 if the text begins with no letter.
#[inline(always)]
fn name_len(ends: SmallCharSet, is_plain: bool, text: &str) -> usize
    ensures name { result ≢ 0 → IsNameIn ends text.now result }
    ensures stays { is_plain ≡ true → AllPass stays_in_names (take result text.now) }
{
    let Some(first) = first_ascii(text) else {
        return 0;
    };
    if !is_letter(first) {
        return 0;
    }
    front_len(ends, is_plain, text)
}

// Begins a tag with the front of its name.
#[inline(always)]
fn begin_tag<A: Allocator + Copy>(
    at: &mut Opened<A>,
    kind: TagKind,
    front: &str,
    is_plain: bool,
) -> Result<(), AllocError>
    requires { is_plain ≡ true → AllPass stays_in_names front.now }
    ensures begun { OnOk result (opened_of at.new ≡ InTag InName (with_name (begun kind) (chars front.now))) }
    ensures last { last_name_of at.new ≡ last_name_of at.old }
    ensures held { held_len (opened_of at.new) ≤ held_len (opened_of at.old) }
{
    at.state = State::TagName;
    at.tag.begin(kind);
    at.tag.indexed.push_front(front, is_plain)
}

// Begins an attribute with the front of its name. Where the one before it repeats a name, nothing changes.
fn begin_attribute<A: Allocator + Copy>(
    at: &mut Opened<A>,
    alloc: A,
    front: &str,
    is_plain: bool,
) -> Result<bool, AllocError>
    requires { is_plain ≡ true → AllPass stays_in_names front.now }
    ensures begins { IfOk result (λ begins. begins
        ≡ not (has_last (open_tag at.old.tag) && repeats_attribute (open_tag at.old.tag))) }
    ensures begun { IfOk result (λ begins. begins ≡ true → opened_of at.new
        ≡ InTag InAttributeName (with_last_name (with_last_attribute (open_tag at.old.tag)) (chars front.now))) }
    ensures unchanged { IfOk result (λ begins. begins ≡ false → at.new ≡ at.old) }
    ensures last { last_name_of at.new ≡ last_name_of at.old }
    ensures held { held_len (opened_of at.new) ≤ held_len (opened_of at.old) }
{
    if !at.tag.keep_attribute(alloc)? {
        return Ok(false);
    }
    at.state = State::AttributeName;
    push_front(&mut at.tag.attr_name, front, is_plain)?;
    Ok(true)
}

// Reads the front of a tag's name after its `<` or `</`. Answers how many bytes it takes.
#[inline(always)]
fn read_tag_name<A: Allocator + Copy>(
    at: &mut Opened<A>,
    kind: TagKind,
    text: &str,
) -> Result<usize, AllocError>
    requires { opened_of at.old ≡ opening_of kind }
    ensures reads { IfOk result (λ bytes. ReadsFront text.now bytes (opened_of at.old) (opened_of at.new)) }
    ensures last { last_name_of at.new ≡ last_name_of at.old }
    ensures held { held_len (opened_of at.new) ≤ held_len (opened_of at.old) }
{
    let is_plain = begins_plain(text);
    let bytes = name_len(tag_name_ends(), is_plain, text);
    if bytes == 0 {
        return Ok(0);
    }
    begin_tag(at, kind, &text[..bytes], is_plain)?;
    Ok(bytes)
}

// Reads the front of an attribute's name after white space, unless the attribute before it repeats a name.
// Answers how many bytes it takes.
#[inline(always)]
fn read_attribute_name<A: Allocator + Copy>(
    at: &mut Opened<A>,
    alloc: A,
    text: &str,
) -> Result<usize, AllocError>
    requires { opened_of at.old ≡ InTag BeforeAttribute (open_tag at.old.tag) }
    ensures reads { IfOk result (λ bytes. ReadsFront text.now bytes (opened_of at.old) (opened_of at.new)) }
    ensures last { last_name_of at.new ≡ last_name_of at.old }
    ensures held { held_len (opened_of at.new) ≤ held_len (opened_of at.old) }
{
    let is_plain = begins_plain(text);
    let bytes = name_len(attribute_name_ends(), is_plain, text);
    if bytes == 0 {
        return Ok(0);
    }
    if !begin_attribute(at, alloc, &text[..bytes], is_plain)? {
        return Ok(0);
    }
    Ok(bytes)
}

/// Reads the front of the name of a tag or of an attribute with which a text begins, where one can begin
/// there. Answers how many bytes it takes.
#[inline(always)]
pub fn read_name<A: Allocator + Copy>(
    at: &mut Opened<A>,
    alloc: A,
    text: &str,
) -> Result<usize, AllocError>
    ensures reads { IfOk result (λ bytes. ReadsFront text.now bytes (opened_of at.old) (opened_of at.new)) }
    ensures last { last_name_of at.new ≡ last_name_of at.old }
    ensures held { held_len (opened_of at.new) ≤ held_len (opened_of at.old) }
{
    match at.state {
        State::TagOpen => read_tag_name(at, TagKind::StartTag, text),
        State::EndTagOpen => read_tag_name(at, TagKind::EndTag, text),
        State::BeforeAttributeName => read_attribute_name(at, alloc, text),
        _ => Ok(0),
    }
}
