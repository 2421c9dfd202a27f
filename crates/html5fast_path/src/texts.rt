//! Texts that tell nothing.
ghost use Rattle.std.specs.Prelude.{◌≡◌, ◌≤◌, true, false, IfOk, IfErr, IfSome, length, take, drop};
ghost use Rattle.std.specs.Str.{IsUtf8, chars};
ghost use Rattle.html5reading.specs.Start.{nothing_open, held_len};
ghost use Rattle.html5partial.specs.CurrentTag.{opened_of, last_name_of};
ghost use Rattle.html5fast_path.specs.Quiet.{ReadsFront, ReadsQuietly, StopsQuietly};

use crate::characters::{first_ascii, open_value, read_in_comment, read_sign};
use crate::names::read_name;
use html5ever_interface::states::State;
use html5partial::opened::Opened;
use html5partial::runs::{push_run, run_ends};
use std::alloc::{AllocError, Allocator};

/// Memory was refused within a text.
#[derive(Clone, Copy, Debug, PartialEq, Eq)]
pub struct Refused {
    /// How many bytes of the text stand before what needed it, with the first character of that.
    pub bytes: usize,
}

// Whether a name, a value, a comment or an instruction is open, whose runs tell nothing.
#[inline(always)]
fn reads_open_runs<A: Allocator>(at: &Opened<A>) -> bool
    ensures { result ≡ true → nothing_open (opened_of at.now) ≡ false }
{
    matches!(
        at.state,
        State::TagName
            | State::AttributeName
            | State::AttributeValue(_)
            | State::Comment
            | State::BogusComment
            | State::ProcessingInstruction
    )
}

// Reads the run with which a text begins, if something is open that takes runs. Answers how many bytes
// it takes.
#[inline(always)]
fn read_run<A: Allocator>(at: &mut Opened<A>, text: &str) -> Result<usize, AllocError>
    ensures reads { IfOk result (λ bytes. ReadsFront text.now bytes (opened_of at.old) (opened_of at.new)) }
    ensures last { last_name_of at.new ≡ last_name_of at.old }
    ensures held { held_len (opened_of at.new) ≤ held_len (opened_of at.old) }
{
    if !reads_open_runs(at) {
        return Ok(0);
    }
    let Some(ends) = run_ends(at) else {
        return Ok(0);
    };
    let bytes = ends.nonmember_prefix_len(text);
    if bytes == 0 {
        return Ok(0);
    }
    push_run(at, &text[..bytes])?;
    Ok(bytes)
}

// Reads the sign with which a text begins, where it does with one. Answers how many bytes it takes.
#[inline(always)]
fn read_first_sign<A: Allocator>(at: &mut Opened<A>, text: &str) -> usize
    ensures reads { ReadsFront text.now result (opened_of at.old) (opened_of at.new) }
    ensures last { last_name_of at.new ≡ last_name_of at.old }
    ensures held { held_len (opened_of at.new) ≤ held_len (opened_of at.old) }
{
    let Some(c) = first_ascii(text) else {
        return 0;
    };
    if !read_sign(at, c) {
        return 0;
    }
    1
}

// Reads the sign with which a text begins, where it does with one, and after the `<` of an end tag its `/`,
// too. Answers how many bytes they take.
#[inline(always)]
fn read_signs<A: Allocator>(at: &mut Opened<A>, text: &str) -> usize
    ensures reads { ReadsFront text.now result (opened_of at.old) (opened_of at.new) }
    ensures last { last_name_of at.new ≡ last_name_of at.old }
    ensures held { held_len (opened_of at.new) ≤ held_len (opened_of at.old) }
{
    let sign = read_first_sign(at, text);
    let State::TagOpen = at.state else {
        return sign;
    };
    let solidus = read_first_sign(at, &text[sign..]);
    sign + solidus
}

// Reads the signs with which a text begins, as a space, `<` or `</`, and the name after them. Answers how
// many bytes they take.
#[inline(always)]
fn read_signs_and_name<A: Allocator + Copy>(
    at: &mut Opened<A>,
    alloc: A,
    text: &str,
) -> Result<usize, AllocError>
    ensures reads { IfOk result (λ bytes. ReadsFront text.now bytes (opened_of at.old) (opened_of at.new)) }
    ensures last { last_name_of at.new ≡ last_name_of at.old }
    ensures held { held_len (opened_of at.new) ≤ held_len (opened_of at.old) }
{
    let signs = read_signs(at, text);
    let name = read_name(at, alloc, &text[signs..])?;
    Ok(signs + name)
}

// Reads a run, and a sign after it. Answers how many bytes they take.
#[inline(always)]
fn read_run_and_sign<A: Allocator>(at: &mut Opened<A>, text: &str) -> Result<usize, AllocError>
    ensures reads { IfOk result (λ bytes. ReadsFront text.now bytes (opened_of at.old) (opened_of at.new)) }
    ensures last { last_name_of at.new ≡ last_name_of at.old }
    ensures held { held_len (opened_of at.new) ≤ held_len (opened_of at.old) }
{
    let run = read_run(at, text)?;
    let sign = read_first_sign(at, &text[run..]);
    Ok(run + sign)
}

// Reads `="` after an attribute's name, and the value up to its quote, or to what is no plain part of
// it. Answers how many bytes they take.
#[inline(always)]
fn read_value<A: Allocator>(at: &mut Opened<A>, text: &str) -> Result<usize, AllocError>
    ensures reads { IfOk result (λ bytes. ReadsFront text.now bytes (opened_of at.old) (opened_of at.new)) }
    ensures last { last_name_of at.new ≡ last_name_of at.old }
    ensures held { held_len (opened_of at.new) ≤ held_len (opened_of at.old) }
{
    let opening = open_value(at, text);
    if opening == 0 {
        return Ok(0);
    }
    let value = read_run_and_sign(at, &text[opening..])?;
    Ok(opening + value)
}

// Reads the character of a comment with which a text begins, where it tells nothing. Answers how many
// bytes it takes.
#[inline(always)]
fn read_comment_character<A: Allocator>(at: &mut Opened<A>, text: &str) -> Result<usize, AllocError>
    ensures reads { IfOk result (λ bytes. ReadsFront text.now bytes (opened_of at.old) (opened_of at.new)) }
    ensures last { last_name_of at.new ≡ last_name_of at.old }
    ensures held { held_len (opened_of at.new) ≤ held_len (opened_of at.old) }
{
    let Some(c) = first_ascii(text) else {
        return Ok(0);
    };
    if !read_in_comment(at, c)? {
        return Ok(0);
    }
    Ok(1)
}

// Reads the run with which a text begins, or else a character of a comment. Answers how many bytes it
// takes.
#[inline(always)]
fn read_run_or_character<A: Allocator>(at: &mut Opened<A>, text: &str) -> Result<usize, AllocError>
    ensures reads { IfOk result (λ bytes. ReadsFront text.now bytes (opened_of at.old) (opened_of at.new)) }
    ensures last { last_name_of at.new ≡ last_name_of at.old }
    ensures held { held_len (opened_of at.new) ≤ held_len (opened_of at.old) }
{
    match read_run(at, text)? {
        0 => read_comment_character(at, text),
        bytes => Ok(bytes),
    }
}

// Reads what a text begins with, where that tells nothing and is no value. Answers how many bytes it
// takes.
#[inline(always)]
fn read_but_value<A: Allocator + Copy>(
    at: &mut Opened<A>,
    alloc: A,
    text: &str,
) -> Result<usize, AllocError>
    ensures reads { IfOk result (λ bytes. ReadsFront text.now bytes (opened_of at.old) (opened_of at.new)) }
    ensures last { last_name_of at.new ≡ last_name_of at.old }
    ensures held { held_len (opened_of at.new) ≤ held_len (opened_of at.old) }
{
    match read_signs_and_name(at, alloc, text)? {
        0 => read_run_or_character(at, text),
        bytes => Ok(bytes),
    }
}

// Reads what a text begins with, where that tells nothing. Answers how many bytes it takes.
#[inline(always)]
fn read_next<A: Allocator + Copy>(
    at: &mut Opened<A>,
    alloc: A,
    text: &str,
) -> Result<usize, AllocError>
    ensures reads { IfOk result (λ bytes. ReadsFront text.now bytes (opened_of at.old) (opened_of at.new)) }
    ensures last { last_name_of at.new ≡ last_name_of at.old }
    ensures held { held_len (opened_of at.new) ≤ held_len (opened_of at.old) }
{
    match read_value(at, text)? {
        0 => read_but_value(at, alloc, text),
        bytes => Ok(bytes),
    }
}

// How many bytes the first character of a text takes.
fn first_len(text: &str) -> usize
    ensures within { result ≤ length text.now }
    ensures rest_utf8 { IsUtf8 (drop result text.now) }
    ensures one { length (chars (take result text.now)) ≤ 1 }
{
    match text.chars().next() {
        Some(c) => c.len_utf8(),
        None => 0,
    }
}

/// Reads a text, from its front, as long as its characters tell nothing. Answers how many bytes it
/// read. The next character tells something, or is left to the states. Errors must not be exact, and no
/// first character may be dropped.
pub fn read_quietly<A: Allocator + Copy>(
    at: &mut Opened<A>,
    alloc: A,
    text: &str,
) -> Result<usize, Refused>
    ensures within { IfOk result (λ bytes. bytes ≤ length text.now) }
    ensures rest_utf8 { IfOk result (λ bytes. IsUtf8 (drop bytes text.now)) }
    ensures quiet { IfOk result (λ bytes.
        ReadsQuietly (opened_of at.old) (chars (take bytes text.now)) (opened_of at.new)) }
    ensures last { last_name_of at.new ≡ last_name_of at.old }
    ensures held { held_len (opened_of at.new) ≤ held_len (opened_of at.old) }
    ensures refused_within { IfErr result (λ refused. refused.bytes ≤ length text.now) }
    ensures refused_utf8 { IfErr result (λ refused. IsUtf8 (drop refused.bytes text.now)) }
    ensures refused { IfErr result (λ refused.
        StopsQuietly (opened_of at.old) (chars (take refused.bytes text.now))) }
{
    let mut read = 0;
    // Most often a `>` ends a tag, which it emits.
    while read < text.len() && text.as_bytes()[read] != b'>' {
        let rest = &text[read..];
        match read_next(at, alloc, rest) {
            Ok(0) => return Ok(read),
            Ok(bytes) => read += bytes,
            Err(_) => {
                return Err(Refused {
                    bytes: read + first_len(rest),
                });
            }
        }
    }
    Ok(read)
}
