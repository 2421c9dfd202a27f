//! What the standard's elements ask for, with the pauses for scripts and encodings.
ghost use Rattle.std.specs.Prelude.{◌≡◌, map, option_map, string_bytes, IfOk};
ghost use Rattle.html5sinks.specs.Pausing.{charset_of, reply_to_charset, reply_to_start, reply_to_end, pausing_reply};
ghost use Rattle.html5sinks.specs.Replies.{FollowsStandard};
ghost use Rattle.html5ever_interface.specs.Token.{told_by, reply_of};
ghost use Rattle.markup5ever.specs.Names.{attribute_of};

use crate::replies::standard_reply_to_start;
use html5ever_interface::interface::token::{TagKind, Token, TokenSinkResult};
use markup5ever::interface::Attribute;
use std::alloc::{AllocError, Allocator};

// The value of the first attribute named `charset`.
#[tactic(auto, unfolding(crate::specs::Pausing::charset_of))]
fn charset_of<A: Allocator>(attributes: &[Attribute<A>]) -> Option<&String<A>>
    ensures { option_map (λ charset. string_bytes charset.now) result
        ≡ charset_of (map attribute_of attributes.now) }
{
    for attribute in attributes {
        if attribute.name.local.0.as_str() == "charset" {
            return Some(&attribute.value);
        }
    }
    None
}

// What is replied to a tag that may name a character set.
fn reply_to_charset<A: Allocator + Copy>(
    charset: Option<&String<A>>,
) -> Result<TokenSinkResult<(), String<A>>, AllocError>
    ensures { IfOk result (λ reply. reply_of string_bytes reply
        ≡ reply_to_charset (option_map (λ text. string_bytes text.now) charset.entry)) }
{
    match charset {
        None => Ok(TokenSinkResult::Continue),
        Some(charset) => Ok(TokenSinkResult::EncodingIndicator(charset.clone()?)),
    }
}

// What is replied to a start tag.
#[tactic(auto, unfolding(crate::specs::Pausing::reply_to_start))]
fn reply_to_start<A: Allocator + Copy>(
    name: &str,
    attributes: &[Attribute<A>],
) -> Result<TokenSinkResult<(), String<A>>, AllocError>
    ensures { IfOk result (λ reply. reply_of string_bytes reply
        ≡ reply_to_start name.now (map attribute_of attributes.now)) }
{
    if name == "meta" {
        return reply_to_charset(charset_of(attributes));
    }
    Ok(standard_reply_to_start(name))
}

// What is replied to an end tag.
#[tactic(auto, unfolding(crate::specs::Pausing::reply_to_end))]
fn reply_to_end<A: Allocator>(name: &str) -> TokenSinkResult<(), String<A>>
    ensures { reply_of string_bytes result ≡ reply_to_end name.now }
{
    if name == "script" {
        TokenSinkResult::Script(())
    } else {
        TokenSinkResult::Continue
    }
}

/// The reply to a token. To a start tag `meta` with an attribute `charset` it is to switch the encoding,
/// and to an end tag `script` to run the script. To any other tag it is what `standard_reply` gives. The
/// first two pause the tokenizer. The only error is out of memory, for the name of the encoding.
#[inline(always)]
pub fn pausing_reply<A: Allocator + Copy>(
    token: &Token<A>,
) -> Result<TokenSinkResult<(), String<A>>, AllocError>
    ensures { IfOk result (λ reply. reply_of string_bytes reply ≡ pausing_reply (told_by token.now)) }
{
    let Token::TagToken(tag) = token else {
        return Ok(TokenSinkResult::Continue);
    };
    match tag.kind {
        TagKind::StartTag => reply_to_start(&tag.name.0, &tag.attrs),
        TagKind::EndTag => Ok(reply_to_end(&tag.name.0)),
    }
}

/// A sink that replies so follows the standard's elements: after each tag after which they ask for nothing
/// else it keeps on, at once or after a pause.
pub fn pauses_follow_the_standard()
    ensures { FollowsStandard {S = Unit {0}} (λ s told line. pausing_reply told) }
{}
