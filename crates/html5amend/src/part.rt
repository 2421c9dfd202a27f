//! A token of a page, with what is put before it and after it.
ghost use Rattle.std.specs.Prelude.{◌≡◌, ◌++◌, IfOk, OnOk, string_bytes};
ghost use Rattle.html5amend.specs.Parts.{as_it_is, edit_of_part, is_as_it_is, is_kept, is_nothing, part_text};
ghost use Rattle.html5amend.specs.Views.{part_by};
ghost use Rattle.html5splice.specs.Edits.{edit_by, edited};

use html5splice::Edit;
use std::alloc::{AllocError, Allocator};

// A token, with what is put before it and after it.
#[derive(Drop)]
pub struct Part<A: Allocator> {
    pub before: String<A>,
    // What happens to the token.
    pub itself: Edit<A>,
    pub after: String<A>,
}

// Whether a text is empty.
fn is_nothing(text: &str) -> bool
    ensures { result ≡ is_nothing text.now }
{
    match text.as_bytes() {
        [] => true,
        _ => false,
    }
}

// Whether a token stays.
fn is_kept<A: Allocator>(edit: &Edit<A>) -> bool
    ensures { result ≡ is_kept (edit_by edit.now) }
{
    match edit {
        Edit::Keep => true,
        Edit::Replace(_) => false,
    }
}

impl<A: Allocator> Part<A> {
    // Whether the token stays, with nothing round it.
    pub fn is_as_it_is(&self) -> bool
        ensures { result ≡ is_as_it_is (part_by self.now) }
    {
        is_kept(&self.itself) && is_nothing(&self.before) && is_nothing(&self.after)
    }

    // Appends what is written in place of the token.
    fn push_itself(&self, out: &mut String<A>, source: &str) -> Result<(), AllocError>
        ensures { OnOk result (string_bytes out.new ≡ string_bytes out.old ++ edited (edit_by self.now.itself) source.now) }
    {
        match &self.itself {
            Edit::Keep => out.push_str(source),
            Edit::Replace(text) => out.push_str(text),
        }
    }

    // Appends what is written.
    fn push(&self, out: &mut String<A>, source: &str) -> Result<(), AllocError>
        ensures { OnOk result (string_bytes out.new ≡ string_bytes out.old ++ part_text (part_by self.now) source.now) }
    {
        out.push_str(&self.before)?;
        self.push_itself(out, source)?;
        out.push_str(&self.after)?;
        Ok(())
    }
}

impl<A: Allocator + Copy> Part<A> {
    // A token that stays, with nothing round it.
    pub fn as_it_is(alloc: A) -> Part<A>
        ensures { part_by result ≡ as_it_is }
    {
        Part {
            before: String::new(alloc),
            itself: Edit::Keep,
            after: String::new(alloc),
        }
    }

    // What takes the place of the token.
    pub fn edit(&self, alloc: A, source: &str) -> Result<Edit<A>, AllocError>
        ensures { IfOk result (λ edit. edit_by edit ≡ edit_of_part (part_by self.now) source.now) }
    {
        if self.is_as_it_is() {
            return Ok(Edit::Keep);
        }
        let mut text = String::new(alloc);
        self.push(&mut text, source)?;
        Ok(Edit::Replace(text))
    }
}
