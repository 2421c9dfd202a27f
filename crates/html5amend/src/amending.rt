//! A splicer that amends a page.
ghost use Rattle.std.specs.Prelude.{◌≡◌, [], None, Some, IfOk, option_map};
ghost use Rattle.html5amend.specs.Amending.{amended, amending_edits, dropped_move, dropped_tag, dropped_token, end_edit, move_of, opening_move, shown_move, shown_tag, shown_token, shown_told_move};
ghost use Rattle.html5amend.specs.Amending.Move.{Counts};
ghost use Rattle.html5amend.specs.Elements.{start_part};
ghost use Rattle.html5amend.specs.Open.{closed_by, closed_found};
ghost use Rattle.html5amend.specs.Others.{other_in_page};
ghost use Rattle.html5amend.specs.Parts.{edit_of_part};
ghost use Rattle.html5amend.specs.Places.{Waiting as WaitingOf, waiting_after};
ghost use Rattle.html5amend.specs.State.{amending_of, start_of_amending};
ghost use Rattle.html5amend.specs.Views.{found_by, waiting_with};
ghost use Rattle.html5ever_interface.specs.Token.{tag_of, told_by};
ghost use Rattle.html5splice.specs.Edits.{cut_by, edit_by, edits_by};
ghost use Rattle.html5splice.specs.Edits.EditOf.{Replace};

use crate::amender::Amender;
use crate::element::{Amended, Element};
use crate::error::AmendError;
use crate::open::{Count, Found, Open, closed_by, count_of};
use crate::other::Other;
use crate::waiting::{Room, Waiting};
use html5ever_interface::interface::token::{SinkFault, Tag, TagKind, Token};
use html5splice::{Cut, Edit, Edits, Splicer};
use std::alloc::{AllocError, Allocator};

// A handler, and the elements that wait for their end tag.
#[derive(Drop)]
pub struct Amending<M, A: Allocator> {
    alloc: A,
    amender: M,
    waiting: Waiting<A>,
}

// What a token changes of those that wait.
#[derive(Drop)]
pub enum Change<A: Allocator> {
    Count(Option<Count>),
    Open(Open<A>, Room<A>),
}

// What takes the place of a token, and what the token changes of those that wait.
#[derive(Drop)]
pub struct Said<A: Allocator> {
    pub edit: Edit<A>,
    pub change: Change<A>,
}

impl<A: Allocator> Said<A> {
    // Those that wait stay.
    fn only(edit: Edit<A>) -> Said<A>
        ensures edit { edit_by result.edit ≡ edit_by edit }
        ensures change { (w : WaitingOf) → waiting_with result.change w ≡ w }
    {
        Said {
            edit,
            change: Change::Count(None),
        }
    }
}

// What takes the place of an end tag.
fn end_edit<A: Allocator + Copy>(
    alloc: A,
    otherwise: Edit<A>,
    found: &Option<Found<'_, A>>,
    source: &str,
) -> Result<Edit<A>, AllocError>
    ensures { IfOk result (λ edit. edit_by edit ≡ end_edit (edit_by otherwise) (closed_found (option_map found_by found.now)) source.now) }
{
    match closed_by(found) {
        Some(ending) => ending.edit(alloc, source),
        None => Ok(otherwise),
    }
}

impl<M, A: Allocator + Copy> Amending<M, A> {
    // What is dropped.
    fn dropped(&self) -> Edit<A>
        ensures { edit_by result ≡ Replace [] }
    {
        Edit::Replace(String::new(self.alloc))
    }

    // Says of an end tag what takes its place, or this where it closes none that waits.
    fn end(&self, otherwise: Edit<A>, source: &str, tag: &Tag<A>) -> Result<Said<A>, AmendError>
        ensures edit { IfOk result (λ said. edit_by said.edit ≡ end_edit (edit_by otherwise) (closed_by (tag_of tag.now).name self.now.waiting.elements) source.now) }
        ensures change { IfOk result (λ said. waiting_with said.change self.now.waiting ≡ waiting_after (Counts (tag_of tag.now)) self.now.waiting) }
    {
        let found = self.waiting.found(&tag.name.0);
        Ok(Said {
            edit: end_edit(self.alloc, otherwise, &found, source)?,
            change: Change::Count(count_of(&found, tag)?),
        })
    }

    // Counts a tag that is dropped.
    fn count(&self, edit: Edit<A>, tag: &Tag<A>) -> Result<Said<A>, AmendError>
        ensures edit { IfOk result (λ said. edit_by said.edit ≡ edit_by edit) }
        ensures change { IfOk result (λ said. waiting_with said.change self.now.waiting ≡ waiting_after (Counts (tag_of tag.now)) self.now.waiting) }
    {
        let found = self.waiting.found(&tag.name.0);
        Ok(Said {
            edit,
            change: Change::Count(count_of(&found, tag)?),
        })
    }

    // Says what replaces a tag, when the content here is dropped.
    fn dropped_tag(&self, source: &str, tag: &Tag<A>) -> Result<Said<A>, AmendError>
        ensures edit { IfOk result (λ said. edit_by said.edit ≡ dropped_tag self.now.waiting.elements tag.now.kind (tag_of tag.now) source.now) }
        ensures change { IfOk result (λ said. waiting_with said.change self.now.waiting ≡ waiting_after (Counts (tag_of tag.now)) self.now.waiting) }
    {
        match tag.kind {
            TagKind::StartTag => self.count(self.dropped(), tag),
            TagKind::EndTag => self.end(self.dropped(), source, tag),
        }
    }

    // Says what replaces a token, when the content here is dropped.
    fn dropped_token(&self, source: &str, token: &Token<A>) -> Result<Said<A>, AmendError>
        ensures edit { IfOk result (λ said. edit_by said.edit ≡ dropped_token self.now.waiting.elements (told_by token.now) source.now) }
        ensures change { IfOk result (λ said. waiting_with said.change self.now.waiting ≡ waiting_after (dropped_move (told_by token.now)) self.now.waiting) }
    {
        match token {
            Token::TagToken(tag) => self.dropped_tag(source, tag),
            _ => Ok(Said::only(self.dropped())),
        }
    }
}

impl<M: Amender<Element<A>, Other<A>>, A: Allocator + Copy> Amending<M, A> {
    // At the start of a page.
    pub fn new(alloc: A, amender: M) -> Amending<M, A>
        ensures { amending_of M.means result ≡ start_of_amending (M.means amender) }
    {
        Amending {
            alloc,
            amender,
            waiting: Waiting::new(alloc),
        }
    }

    // An element that a tag begins.
    fn amended(&self, tag: Tag<A>) -> Result<Element<A>, AmendError>
        ensures { IfOk result (λ element. element ≡ amended (M.means self.now.amender) (tag_of tag)) }
    {
        let mut element = Element::in_page(self.alloc, tag);
        self.amender.element(&mut element)?;
        Ok(element)
    }

    // Says of a start tag what takes its place.
    fn start(&self, source: &str, tag: Tag<A>) -> Result<Said<A>, AmendError>
        ensures edit { IfOk result (λ said. edit_by said.edit ≡ edit_of_part (start_part (amended (M.means self.now.amender) (tag_of tag))) source.now) }
        ensures change { IfOk result (λ said. waiting_with said.change self.now.waiting
            ≡ waiting_after (opening_move (tag_of tag) (amended (M.means self.now.amender) (tag_of tag))) self.now.waiting) }
    {
        let count = count_of(&self.waiting.found(&tag.name.0), &tag)?;
        let Amended { start, waiting } = self.amended(tag)?.finish()?;
        let edit = start.edit(self.alloc, source)?;
        match waiting {
            Some(element) => Ok(Said {
                edit,
                change: Change::Open(element, self.waiting.room()?),
            }),
            None => Ok(Said {
                edit,
                change: Change::Count(count),
            }),
        }
    }

    // Says of a tag what takes its place.
    fn shown_tag(&self, source: &str, tag: Tag<A>) -> Result<Said<A>, AmendError>
        ensures edit { IfOk result (λ said. edit_by said.edit ≡ shown_tag (M.means self.now.amender) self.now.waiting.elements tag.kind (tag_of tag) source.now) }
        ensures change { IfOk result (λ said. waiting_with said.change self.now.waiting
            ≡ waiting_after (shown_move (M.means self.now.amender) tag.kind (tag_of tag)) self.now.waiting) }
    {
        match tag.kind {
            TagKind::StartTag => self.start(source, tag),
            TagKind::EndTag => self.end(Edit::Keep, source, &tag),
        }
    }

    // Says of another token what takes its place.
    fn shown_other(&self, source: &str, token: Token<A>) -> Result<Edit<A>, AmendError>
        ensures { IfOk result (λ edit. edit_by edit ≡ edit_of_part ((M.means self.now.amender).other (other_in_page (told_by token))).part source.now) }
    {
        let mut other = Other::in_page(self.alloc, token);
        self.amender.other(&mut other)?;
        Ok(other.edit(source)?)
    }

    // Says of a token what takes its place.
    fn shown_token(&self, source: &str, token: Token<A>) -> Result<Said<A>, AmendError>
        ensures edit { IfOk result (λ said. edit_by said.edit ≡ shown_token (M.means self.now.amender) self.now.waiting.elements (told_by token) source.now) }
        ensures change { IfOk result (λ said. waiting_with said.change self.now.waiting
            ≡ waiting_after (shown_told_move (M.means self.now.amender) (told_by token)) self.now.waiting) }
    {
        match token {
            Token::TagToken(tag) => self.shown_tag(source, tag),
            Token::EOFToken | Token::ParseError(_) => Ok(Said::only(Edit::Keep)),
            token => Ok(Said::only(self.shown_other(source, token)?)),
        }
    }

    // Says of a token, and of the run before it, what takes their place.
    fn said_of(&self, cut: &Cut<'_>, token: Token<A>) -> Result<(Edits<A>, Change<A>), AmendError>
        ensures edits { IfOk result (λ said. edits_by said.0 ≡ amending_edits (M.means self.now.amender) self.now.waiting.elements (cut_by cut.now (told_by token))) }
        ensures change { IfOk result (λ said. waiting_with said.1 self.now.waiting
            ≡ waiting_after (move_of (M.means self.now.amender) self.now.waiting.elements (told_by token)) self.now.waiting) }
    {
        if self.waiting.is_dropping() {
            let said = self.dropped_token(cut.source, &token)?;
            let edits = Edits {
                run: self.dropped(),
                token: said.edit,
            };
            return Ok((edits, said.change));
        }
        let said = self.shown_token(cut.source, token)?;
        let edits = Edits {
            run: Edit::Keep,
            token: said.edit,
        };
        Ok((edits, said.change))
    }
}

impl<M: Amender<Element<A>, Other<A>>, A: Allocator + Copy> Splicer<Token<A>, A>
    for Amending<M, A> {
    ghost use Rattle.html5amend.specs.Places.{Amending as AmendingOf, amending_with_room};
    ghost use Rattle.html5amend.specs.State.{amending_of};
    ghost use Rattle.html5amend.specs.Views.{amending_with};

    type Change = Change<A>;

    ghost State = { AmendingOf };

    ghost state = { amending_of M.means };

    ghost splices = { amending_with_room };

    ghost changed = { amending_with };

    fn edit(&self, cut: &Cut<'_>, token: Token<A>) -> Result<(Edits<A>, Change<A>), SinkFault> {
        match self.said_of(cut, token) {
            Ok(said) => Ok(said),
            Err(_) => Err(SinkFault),
        }
    }

    fn change(&mut self, change: Change<A>) {
        match change {
            Change::Count(count) => self.waiting.count(count),
            Change::Open(element, room) => self.waiting.push(element, room),
        }
    }
}
