//! What a page's elements ask for, where scripting is enabled and where it is not.
ghost use Rattle.std.specs.Prelude.{◌≡◌, string_bytes};
ghost use Rattle.html5ever_interface.specs.Token.{tag_of, reply_of};
ghost use Rattle.html5serialize.specs.Scripting.{reply_by, start_reply_by};

use html5ever_interface::interface::token::{Tag, TagKind, TokenSinkResult};
use html5ever_interface::states::RawKind;
use html5sinks::replies::standard_reply_to_start;
use std::alloc::Allocator;

// What is replied to a start tag of this name.
fn start_reply_by<A: Allocator>(scripting: bool, name: &str) -> TokenSinkResult<(), String<A>>
    ensures { reply_of string_bytes result ≡ start_reply_by scripting name.now }
{
    if scripting && name == "noscript" {
        return TokenSinkResult::RawData(RawKind::Rawtext);
    }
    standard_reply_to_start(name)
}

/// The reply to a tag of a page, so that the text after it is read as the standard reads it, where
/// scripting is enabled or not. With scripting RAWTEXT stands after `noscript`. Without it, this is
/// `standard_reply` of `html5sinks`. It never pauses.
pub fn reply_by<A: Allocator>(scripting: bool, tag: &Tag<A>) -> TokenSinkResult<(), String<A>>
    ensures { reply_of string_bytes result ≡ reply_by scripting (tag_of tag.now) }
{
    match tag.kind {
        TagKind::StartTag => start_reply_by(scripting, &tag.name.0),
        TagKind::EndTag => TokenSinkResult::Continue,
    }
}
