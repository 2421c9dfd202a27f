//! What a policy hides: elements that are dropped with their content.
ghost use Rattle.std.specs.Prelude.{◌≡◌, ◌+◌, ◌^◌, ◌<◌};
ghost use Rattle.html5ever_interface.specs.Token.{tag_of, told_by};
ghost use Rattle.html5elements.specs.Hidden.{hidden_after, hidden_after_tag, hidden_of};
ghost use Rattle.html5cleaner.specs.Clean.{opens};

use html5elements::hidden::{Hidden, has_content};
use html5ever_interface::interface::token::{Tag, TagKind, Token};
use html5policy::Policy;
use std::alloc::Allocator;
use std::mem;

// Whether a tag begins an element that is dropped with its content. The name of an end tag need not be looked up.
fn opens<A: Allocator>(policy: &Policy<A>, tag: &Tag<A>) -> bool
    ensures { result ≡ opens policy.now (tag_of tag.now) }
{
    match tag.kind {
        TagKind::StartTag => policy.hides(&tag.name.0) && has_content(tag),
        TagKind::EndTag => false,
    }
}

// Passes a tag.
fn pass_tag<A: Allocator>(hidden: &mut Hidden<A>, policy: &Policy<A>, tag: &mut Tag<A>)
    requires { hidden.old.depth + 1 < 2 ^ 64 }
    ensures { hidden_of hidden.new
        ≡ hidden_after_tag (opens policy.now (tag_of tag.old)) (hidden_of hidden.old) (tag_of tag.old) }
{
    if hidden.depth != 0 {
        hidden.pass_within(tag);
        return;
    }
    if opens(policy, tag) {
        mem::swap(&mut hidden.name, &mut tag.name.0);
        hidden.depth = 1;
    }
}

/// Passes a token, of which the name may be taken.
pub fn pass_token<A: Allocator>(hidden: &mut Hidden<A>, policy: &Policy<A>, token: &mut Token<A>)
    requires { hidden.old.depth + 1 < 2 ^ 64 }
    ensures { hidden_of hidden.new ≡ hidden_after (opens policy.now) (hidden_of hidden.old) (told_by token.old) }
{
    if let Token::TagToken(tag) = token {
        pass_tag(hidden, policy, tag);
    }
}
