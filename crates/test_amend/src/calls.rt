//! A handler of the tests.
ghost use Rattle.std.specs.Prelude.{◌≡◌, OnOk};
ghost use Rattle.html5amend.specs.Elements.{ElementOf};
ghost use Rattle.test_amend.specs.Calls.{called, called_twice, comment_called, other_called};

use html5amend::{AmendError, Amender, Content, Element, Other};
use html5ever_interface::interface::token::Token;
use std::alloc::Allocator;

/// A call of an element.
#[derive(Clone, Copy)]
pub enum Call<'c> {
    Nothing,
    Set(&'c str, &'c str),
    Unset(&'c str),
    Name(&'c str),
    Before(Content<'c>),
    After(Content<'c>),
    Prepend(Content<'c>),
    Append(Content<'c>),
    Inner(Content<'c>),
    Replace(Content<'c>),
    Remove,
    Unwrap,
}

/// A call of a comment.
#[derive(Clone, Copy)]
pub enum OtherCall<'c> {
    Keep,
    Before(Content<'c>),
    After(Content<'c>),
    Instead(Content<'c>),
    Drop,
}

/// Calls these of each element of a name, one after the other, and this of each comment.
#[derive(Clone, Copy)]
pub struct Calls<'c> {
    pub name: &'c str,
    pub first: Call<'c>,
    pub second: Call<'c>,
    pub comments: OtherCall<'c>,
}

// Calls one that puts a content somewhere.
fn put<A: Allocator + Copy>(element: &mut Element<A>, call: Call<'_>) -> Result<(), AmendError>
    ensures { OnOk result (element.new ≡ called call.entry element.old) }
{
    match call {
        Call::Before(content) => element.before(content)?,
        Call::After(content) => element.after(content)?,
        Call::Prepend(content) => element.prepend(content)?,
        Call::Append(content) => element.append(content)?,
        Call::Inner(content) => element.set_inner_content(content)?,
        Call::Replace(content) => element.replace(content)?,
        _ => return Err(AmendError::Memory),
    }
    Ok(())
}

// Calls one.
fn make_call<A: Allocator + Copy>(
    element: &mut Element<A>,
    call: Call<'_>,
) -> Result<(), AmendError>
    ensures { OnOk result (element.new ≡ called call.entry element.old) }
{
    match call {
        Call::Nothing => Ok(()),
        Call::Set(attribute, value) => element.set_attribute(attribute, value),
        Call::Unset(attribute) => {
            element.remove_attribute(attribute);
            Ok(())
        }
        Call::Name(name) => element.set_tag_name(name),
        Call::Remove => {
            element.remove();
            Ok(())
        }
        Call::Unwrap => {
            element.remove_and_keep_content();
            Ok(())
        }
        call => put(element, call),
    }
}

// Calls one of a comment.
fn make_other_call<A: Allocator + Copy>(
    other: &mut Other<A>,
    call: OtherCall<'_>,
) -> Result<(), AmendError>
    ensures { OnOk result (other.new ≡ other_called call.entry other.old) }
{
    match call {
        OtherCall::Keep => {}
        OtherCall::Before(content) => other.before(content)?,
        OtherCall::After(content) => other.after(content)?,
        OtherCall::Instead(content) => other.replace(content)?,
        OtherCall::Drop => other.remove(),
    }
    Ok(())
}

impl<'c, A: Allocator + Copy> Amender<Element<A>, Other<A>> for Calls<'c> {
    ghost use Rattle.test_amend.specs.Calls.{calling};

    ghost means = { λ c. calling c.name.now c.first c.second c.comments };

    fn element(&self, element: &mut Element<A>) -> Result<(), AmendError> {
        if element.tag_name() != self.name {
            return Ok(());
        }
        make_call(element, self.first)?;
        make_call(element, self.second)
    }

    fn other(&self, other: &mut Other<A>) -> Result<(), AmendError> {
        match other.token() {
            Token::CommentToken(_) => make_other_call(other, self.comments),
            _ => Ok(()),
        }
    }
}
