//! What the standard's elements ask for, by the start tag of each.
ghost use Rattle.std.specs.Prelude.{◌≡◌, string_bytes};
ghost use Rattle.html5ever_interface.specs.Token.{tag_of, told_by, reply_of};
ghost use Rattle.html5sinks.specs.Replies.{raw_text_in, reply_to_raw_text, standard_reply_to_start, standard_reply};

use html5ever_interface::interface::token::{Tag, TagKind, TokenSinkResult};
use html5ever_interface::states::RawKind;
use std::alloc::Allocator;

/// The kind of raw text that stands after a start tag of this name, if any does. In `title` and
/// `textarea` references are read. In `style`, `xmp`, `iframe`, `noembed` and `noframes` nothing is
/// markup. `script` has rules of its own.
#[tactic(auto, unfolding(crate::specs::Replies::raw_text_in))]
#[inline(always)]
pub fn raw_text_in(name: &str) -> Option<RawKind>
    ensures { result ≡ raw_text_in name.now }
{
    // Most names are shorter than each of these.
    if name.len() < 3 {
        return None;
    }
    raw_text_by_name(name)
}

// The same, of a name of any length.
#[tactic(auto, unfolding(crate::specs::Replies::raw_text_in))]
fn raw_text_by_name(name: &str) -> Option<RawKind>
    ensures { result ≡ raw_text_in name.now }
{
    match name {
        "title" | "textarea" => Some(RawKind::Rcdata),
        "style" | "xmp" | "iframe" | "noembed" | "noframes" => Some(RawKind::Rawtext),
        "script" => Some(RawKind::ScriptData),
        _ => None,
    }
}

// What is replied to a start tag after which raw text may stand.
fn reply_to_raw_text<A: Allocator>(kind: Option<RawKind>) -> TokenSinkResult<(), String<A>>
    ensures { reply_of string_bytes result ≡ reply_to_raw_text kind }
{
    match kind {
        None => TokenSinkResult::Continue,
        Some(kind) => TokenSinkResult::RawData(kind),
    }
}

/// The reply to a start tag of this name, so that the text after it is read as the standard reads
/// it. That is raw text, plain text after `plaintext`, or else markup.
#[tactic(auto, unfolding(crate::specs::Replies::standard_reply_to_start))]
pub fn standard_reply_to_start<A: Allocator>(name: &str) -> TokenSinkResult<(), String<A>>
    ensures { reply_of string_bytes result ≡ standard_reply_to_start name.now }
{
    if name == "plaintext" {
        return TokenSinkResult::Plaintext;
    }
    reply_to_raw_text(raw_text_in(name))
}

/// What is replied to a tag. It never pauses: no script is run, and no encoding is switched.
pub fn standard_reply<A: Allocator>(tag: &Tag<A>) -> TokenSinkResult<(), String<A>>
    ensures { reply_of string_bytes result ≡ standard_reply (tag_of tag.now) }
{
    match tag.kind {
        TagKind::StartTag => standard_reply_to_start(&tag.name.0),
        TagKind::EndTag => TokenSinkResult::Continue,
    }
}
