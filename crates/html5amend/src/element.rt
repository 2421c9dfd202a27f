//! An element, as a handler amends it at its start tag.
ghost use Rattle.std.specs.Prelude.{◌≡◌, ◌++◌, [], false, true, Err, IfOk, OnErr, OnOk, None, Some, option_map, string_bytes, unwrap_or, if◌then◌else◌};
ghost use Rattle.html5amend.specs.Contents.{content_bytes};
ghost use Rattle.html5amend.specs.Elements.{as_in_page, end_itself, filled_with, replaced_by, start_itself, start_part, waits, with_after, with_appended, with_before, with_content, with_name, with_prepended, with_value, without_tags, without_value};
ghost use Rattle.html5amend.specs.Open.{opened};
ghost use Rattle.html5amend.specs.Views.{open_by, part_by};
ghost use Rattle.html5ever_interface.specs.Token.{tag_of};
ghost use Rattle.html5rewrite.specs.Edits.{value_of};
ghost use Rattle.html5serialize.specs.RawTexts.{end_text};
ghost use Rattle.html5serialize.specs.Tags.{is_attribute_name};
ghost use Rattle.html5splice.specs.Edits.{edit_by};
ghost use Rattle.html5write.specs.Pieces.{is_tag_name};

use crate::content::{Content, content_before, push_content};
use crate::error::AmendError;
use crate::open::Open;
use crate::part::Part;
use html5elements::hidden::has_content;
use html5ever_interface::interface::token::Tag;
use html5rewrite::{drop_attribute, set_attribute, value_of};
use html5serialize::{is_attribute_name, is_tag_name, push_tag};
use html5splice::Edit;
use markup5ever::interface::LocalName;
use std::alloc::{AllocError, Allocator, Global};
use std::marker::Model;
use std::mem::replace;

/// An element at its start tag. A handler is shown it there, and says what happens to it.
#[derive(Drop)]
pub struct Element<A: Allocator = Global> {
    alloc: A,
    tag: Tag<A>,
    // The name that it has in the page, if it is given another.
    page_name: Option<String<A>>,
    has_content: bool,
    is_new: bool,
    drops_tags: bool,
    drops_content: bool,
    before: String<A>,
    prepended: String<A>,
    appended: String<A>,
    after: String<A>,
}

impl<A: Allocator> Model for Element<A> {
    ghost use Rattle.std.specs.Prelude.{option_map, string_bytes};
    ghost use Rattle.html5amend.specs.Elements.{ElementOf};
    ghost use Rattle.html5ever_interface.specs.Token.{tag_of};

    ghost Value = { ElementOf };

    ghost view = { λ e. record {
      tag = tag_of e.tag;
      page_name = option_map string_bytes e.page_name;
      has_content = e.has_content;
      is_new = e.is_new;
      drops_tags = e.drops_tags;
      drops_content = e.drops_content;
      before = string_bytes e.before;
      prepended = string_bytes e.prepended;
      appended = string_bytes e.appended;
      after = string_bytes e.after;
    } };
}

// What happens to an element: to its start tag, and after that if it waits for its end tag.
#[derive(Drop)]
pub struct Amended<A: Allocator> {
    pub start: Part<A>,
    pub waiting: Option<Open<A>>,
}

// The end tag of a name.
fn end_tag<A: Allocator + Copy>(alloc: A, name: &str) -> Result<String<A>, AllocError>
    ensures { IfOk result (λ text. string_bytes text ≡ end_text name.now) }
{
    let mut text = String::from_str(alloc, "</")?;
    text.push_str(name)?;
    text.push_str(">")?;
    Ok(text)
}

// The name that an element has in the page.
fn name_in_page<A: Allocator>(page_name: Option<String<A>>, tag: Tag<A>) -> String<A>
    ensures { string_bytes result ≡ unwrap_or (option_map string_bytes page_name) (tag_of tag).name }
{
    match page_name {
        Some(name) => name,
        None => tag.name.0,
    }
}

impl<A: Allocator + Copy> Element<A> {
    // As it stands in the page.
    pub fn in_page(alloc: A, tag: Tag<A>) -> Element<A>
        ensures { result ≡ as_in_page (tag_of tag) }
    {
        let has_content = has_content(&tag);
        Element {
            alloc,
            tag,
            page_name: None,
            has_content,
            is_new: false,
            drops_tags: false,
            drops_content: false,
            before: String::new(alloc),
            prepended: String::new(alloc),
            appended: String::new(alloc),
            after: String::new(alloc),
        }
    }

    /// Its name: what it was given, or what it has in the page.
    pub fn tag_name(&self) -> &str
        ensures { result.now ≡ self.now.tag.name }
    {
        &self.tag.name.0
    }

    /// The value of an attribute, if there is one.
    pub fn value(&self, attribute: &str) -> Option<&str>
        ensures { option_map (λ value. value.now) result ≡ value_of attribute.now self.now.tag.attributes }
    {
        match value_of(&self.tag.attrs, attribute) {
            Some(value) => Some(value.as_str()),
            None => None,
        }
    }

    /// Whether something can stand in it: not in a void element, as `<br>`, nor in `<svg/>`.
    pub fn has_content(&self) -> bool
        ensures { result ≡ self.now.has_content }
    {
        self.has_content
    }

    /// Gives it this attribute as its last, in place of any of that name. The name is written in small letters.
    pub fn set_attribute(&mut self, attribute: &str, value: &str) -> Result<(), AmendError>
        ensures set { OnOk result (self.new ≡ with_value attribute.now value.now self.old) }
        ensures named { OnOk result (is_attribute_name attribute.now ≡ true) }
        ensures refused { result ≡ Err AmendError.AttributeName → is_attribute_name attribute.now ≡ false }
    {
        if !is_attribute_name(attribute) {
            return Err(AmendError::AttributeName);
        }
        let value = String::from_str(self.alloc, value)?;
        set_attribute(self.alloc, &mut self.tag, attribute, value)?;
        self.is_new = true;
        Ok(())
    }

    /// Removes an attribute, if there is one.
    pub fn remove_attribute(&mut self, attribute: &str)
        ensures { self.new ≡ without_value attribute.now self.old }
    {
        if self.value(attribute).is_some() {
            drop_attribute(&mut self.tag, attribute);
            self.is_new = true;
        }
    }

    /// Gives it another name, in small letters. Its end tag gets that, too.
    pub fn set_tag_name(&mut self, name: &str) -> Result<(), AmendError>
        ensures set { OnOk result (self.new ≡ with_name name.now self.old) }
        ensures named { OnOk result (is_tag_name name.now ≡ true) }
        ensures refused { result ≡ Err AmendError.TagName → is_tag_name name.now ≡ false }
    {
        if !is_tag_name(name) {
            return Err(AmendError::TagName);
        }
        let name = LocalName(String::from_str(self.alloc, name)?);
        let before = replace(&mut self.tag.name, name);
        if self.page_name.is_none() {
            self.page_name = Some(before.0);
        }
        self.is_new = true;
        Ok(())
    }

    /// Puts a content before its start tag, after the earlier content there.
    pub fn before(&mut self, content: Content<'_>) -> Result<(), AllocError>
        ensures { OnOk result (self.new ≡ with_before (content_bytes content.entry) self.old) }
    {
        push_content(&mut self.before, content)
    }

    /// Puts a content after its end tag, before the earlier content there.
    pub fn after(&mut self, content: Content<'_>) -> Result<(), AllocError>
        ensures { OnOk result (self.new ≡ with_after (content_bytes content.entry) self.old) }
    {
        self.after = content_before(self.alloc, content, &self.after)?;
        Ok(())
    }

    /// Puts a content after its start tag, before the earlier content there. If it can't have content, nothing is put
    /// there.
    pub fn prepend(&mut self, content: Content<'_>) -> Result<(), AllocError>
        ensures { OnOk result (self.new ≡ with_prepended (content_bytes content.entry) self.old) }
    {
        if self.has_content {
            self.prepended = content_before(self.alloc, content, &self.prepended)?;
        }
        Ok(())
    }

    /// Puts a content before its end tag, after the earlier content there. If it can't have content, nothing is put
    /// there.
    pub fn append(&mut self, content: Content<'_>) -> Result<(), AllocError>
        ensures { OnOk result (self.new ≡ with_appended (content_bytes content.entry) self.old) }
    {
        if self.has_content {
            push_content(&mut self.appended, content)?;
        }
        Ok(())
    }

    // Replaces its content, and the content put there, by another.
    fn fill(&mut self, content: Content<'_>) -> Result<(), AllocError>
        ensures { OnOk result (self.new ≡ filled_with (content_bytes content.entry) self.old) }
    {
        self.prepended = content_before(self.alloc, content, "")?;
        self.appended = String::new(self.alloc);
        self.drops_content = true;
        Ok(())
    }

    /// Replaces its content, and the content put there, by another. If it can't have content, nothing changes.
    pub fn set_inner_content(&mut self, content: Content<'_>) -> Result<(), AllocError>
        ensures { OnOk result (self.new ≡ with_content (content_bytes content.entry) self.old) }
    {
        if self.has_content {
            self.fill(content)?;
        }
        Ok(())
    }

    /// Puts a content in its place, and in that of all that stands in it.
    pub fn replace(&mut self, content: Content<'_>) -> Result<(), AllocError>
        ensures { OnOk result (self.new ≡ replaced_by (content_bytes content.entry) self.old) }
    {
        self.fill(content)?;
        self.drops_tags = true;
        Ok(())
    }

    /// Removes it, with all that stands in it.
    pub fn remove(&mut self)
        ensures { self.new ≡ replaced_by [] self.old }
    {
        self.prepended = String::new(self.alloc);
        self.appended = String::new(self.alloc);
        self.drops_content = true;
        self.drops_tags = true;
    }

    /// Removes its tags, and keeps its content.
    pub fn remove_and_keep_content(&mut self)
        ensures { self.new ≡ without_tags self.old }
    {
        self.drops_tags = true;
    }

    // What happens to its start tag.
    fn start_itself(&self) -> Result<Edit<A>, AllocError>
        ensures { IfOk result (λ edit. edit_by edit ≡ start_itself self.now) }
    {
        if self.drops_tags {
            return Ok(Edit::Replace(String::new(self.alloc)));
        }
        if !self.is_new {
            return Ok(Edit::Keep);
        }
        let mut text = String::new(self.alloc);
        push_tag(&mut text, &self.tag)?;
        Ok(Edit::Replace(text))
    }

    // What happens to its end tag.
    fn end_itself(&self) -> Result<Edit<A>, AllocError>
        ensures { IfOk result (λ edit. edit_by edit ≡ end_itself self.now) }
    {
        if self.drops_tags {
            return Ok(Edit::Replace(String::new(self.alloc)));
        }
        if self.page_name.is_none() {
            return Ok(Edit::Keep);
        }
        Ok(Edit::Replace(end_tag(self.alloc, &self.tag.name.0)?))
    }

    // What happens to it: to its start tag, and after that.
    pub fn finish(self) -> Result<Amended<A>, AllocError>
        ensures start { IfOk result (λ amended. part_by amended.start ≡ start_part self) }
        ensures waiting { IfOk result (λ amended. option_map open_by amended.waiting ≡ (if waits self then Some (opened self) else None)) }
    {
        let start = self.start_itself()?;
        let end = self.end_itself()?;
        if self.has_content {
            Ok(self.with_end(start, end))
        } else {
            self.without_end(start)
        }
    }

    // Where something can stand in it.
    fn with_end(self, start: Edit<A>, end: Edit<A>) -> Amended<A>
        requires content { self.has_content ≡ true }
        requires start { edit_by start ≡ start_itself self }
        requires end { edit_by end ≡ end_itself self }
        ensures start { part_by result.start ≡ start_part self }
        ensures waiting { option_map open_by result.waiting ≡ (if waits self then Some (opened self) else None) }
    {
        let Element {
            tag,
            page_name,
            drops_content,
            before,
            prepended,
            appended,
            after,
            ..
        } = self;
        let element = Open {
            name: name_in_page(page_name, tag),
            depth: 1,
            ending: Part {
                before: appended,
                itself: end,
                after,
            },
            drops: drops_content,
        };
        Amended {
            start: Part {
                before,
                itself: start,
                after: prepended,
            },
            waiting: element.where_it_waits(),
        }
    }

    // For an element that can't have content.
    fn without_end(self, start: Edit<A>) -> Result<Amended<A>, AllocError>
        requires content { self.has_content ≡ false }
        requires start { edit_by start ≡ start_itself self }
        ensures start { IfOk result (λ amended. part_by amended.start ≡ start_part self) }
        ensures waiting { IfOk result (λ amended. amended.waiting ≡ None) }
    {
        let Element {
            before,
            mut prepended,
            after,
            ..
        } = self;
        prepended.push_str(&after)?;
        Ok(Amended {
            start: Part {
                before,
                itself: start,
                after: prepended,
            },
            waiting: None,
        })
    }
}
