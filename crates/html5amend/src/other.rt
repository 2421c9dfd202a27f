//! A token other than a tag, as a handler amends it.
ghost use Rattle.std.specs.Prelude.{◌≡◌, [], IfOk, OnOk};
ghost use Rattle.html5amend.specs.Contents.{content_bytes};
ghost use Rattle.html5amend.specs.Others.{other_in_page, put_after, put_before, put_instead};
ghost use Rattle.html5amend.specs.Parts.{edit_of_part};
ghost use Rattle.html5ever_interface.specs.Token.{told_by};
ghost use Rattle.html5splice.specs.Edits.{edit_by};

use crate::content::{Content, content_before, push_content};
use crate::part::Part;
use html5ever_interface::interface::token::Token;
use html5splice::Edit;
use std::alloc::{AllocError, Allocator, Global};
use std::marker::Model;

/// A comment, a doctype, a processing instruction, or a NUL in text. A handler is shown it, and says what happens to
/// it.
#[derive(Drop)]
pub struct Other<A: Allocator = Global> {
    alloc: A,
    token: Token<A>,
    part: Part<A>,
}

impl<A: Allocator> Model for Other<A> {
    ghost use Rattle.html5amend.specs.Others.{OtherOf};
    ghost use Rattle.html5amend.specs.Views.{part_by};
    ghost use Rattle.html5ever_interface.specs.Token.{told_by};

    ghost Value = { OtherOf };

    ghost view = { λ o. record { token = told_by o.token; part = part_by o.part } };
}

impl<A: Allocator + Copy> Other<A> {
    // As it stands in the page.
    pub fn in_page(alloc: A, token: Token<A>) -> Other<A>
        ensures { result ≡ other_in_page (told_by token) }
    {
        Other {
            alloc,
            token,
            part: Part::as_it_is(alloc),
        }
    }

    /// The token.
    pub fn token(&self) -> &Token<A>
        ensures { told_by result.now ≡ self.now.token }
    {
        &self.token
    }

    /// Puts a content before it, after the earlier content there.
    pub fn before(&mut self, content: Content<'_>) -> Result<(), AllocError>
        ensures { OnOk result (self.new ≡ put_before (content_bytes content.entry) self.old) }
    {
        push_content(&mut self.part.before, content)
    }

    /// Puts a content after it, before the earlier content there.
    pub fn after(&mut self, content: Content<'_>) -> Result<(), AllocError>
        ensures { OnOk result (self.new ≡ put_after (content_bytes content.entry) self.old) }
    {
        self.part.after = content_before(self.alloc, content, &self.part.after)?;
        Ok(())
    }

    /// Puts a content in its place.
    pub fn replace(&mut self, content: Content<'_>) -> Result<(), AllocError>
        ensures { OnOk result (self.new ≡ put_instead (content_bytes content.entry) self.old) }
    {
        let text = content_before(self.alloc, content, "")?;
        self.part.itself = Edit::Replace(text);
        Ok(())
    }

    /// Removes it.
    pub fn remove(&mut self)
        ensures { self.new ≡ put_instead [] self.old }
    {
        self.part.itself = Edit::Replace(String::new(self.alloc));
    }

    // What happens to it.
    pub fn edit(&self, source: &str) -> Result<Edit<A>, AllocError>
        ensures { IfOk result (λ edit. edit_by edit ≡ edit_of_part self.now.part source.now) }
    {
        self.part.edit(self.alloc, source)
    }
}
