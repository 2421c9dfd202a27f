//! A splicer of the tests.
ghost use Rattle.std.specs.Prelude.{◌≡◌, IfOk, string_bytes};
ghost use Rattle.html5ever_interface.specs.Token.{told_by};
ghost use Rattle.html5splice.specs.Edits.{edits_by};
ghost use Rattle.test_splice.specs.Shouting.{shouted, shouted_tag};

use html5ever_interface::interface::token::{SinkFault, Tag, TagKind, Token};
use html5splice::{Cut, Edit, Edits, Splicer};
use std::alloc::{AllocError, Allocator};

/// Drops comments, writes `<p>` for each `<b>`, and `!` for each run before an end tag.
#[derive(Drop)]
pub struct Shouting<A: Allocator> {
    pub alloc: A,
}

// What happens to a tag and to the run before it.
fn edit_tag<A: Allocator + Copy>(alloc: A, tag: &Tag<A>) -> Result<Edits<A>, AllocError>
    ensures { IfOk result (λ edits. edits_by edits ≡ shouted_tag tag.now.kind (string_bytes tag.now.name.0)) }
{
    match tag.kind {
        TagKind::StartTag if tag.name.0.as_str() == "b" => Ok(Edits {
            run: Edit::Keep,
            token: Edit::Replace(String::from_str(alloc, "<p>")?),
        }),
        TagKind::StartTag => Ok(Edits::none()),
        TagKind::EndTag => Ok(Edits {
            run: Edit::Replace(String::from_str(alloc, "!")?),
            token: Edit::Keep,
        }),
    }
}

// What happens to a token and to the run before it.
fn edit_token<A: Allocator + Copy>(alloc: A, token: &Token<A>) -> Result<Edits<A>, AllocError>
    ensures { IfOk result (λ edits. edits_by edits ≡ shouted (told_by token.now)) }
{
    match token {
        Token::TagToken(tag) => edit_tag(alloc, tag),
        Token::CommentToken(_) => Ok(Edits {
            run: Edit::Keep,
            token: Edit::Replace(String::new(alloc)),
        }),
        _ => Ok(Edits::none()),
    }
}

impl<A: Allocator + Copy> Splicer<Token<A>, A> for Shouting<A> {
    ghost use Rattle.test_splice.specs.Shouting.{shouting};

    type Change = ();

    ghost State = { Unit {0} };

    ghost state = { λ s. tt };

    ghost splices = { shouting };

    ghost changed = { λ s change. s };

    fn edit(&self, _cut: &Cut<'_>, token: Token<A>) -> Result<(Edits<A>, ()), SinkFault> {
        match edit_token(self.alloc, &token) {
            Ok(edits) => Ok((edits, ())),
            Err(AllocError) => Err(SinkFault),
        }
    }

    fn change(&mut self, _change: ()) {}
}
