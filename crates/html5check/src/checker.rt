//! What is found by the tokens of a text, one after the other.
ghost use Rattle.std.specs.Prelude.{◌≡◌, ◌++◌, ◌∷◌, [], OnOk, map};
ghost use Rattle.html5check.specs.Checking.{at_end_tag, at_html_tag, at_foreign_tag, at_id, at_start_tag, checked, left_open, nothing_checked, with_open};
ghost use Rattle.html5check.specs.Faults.{finding_by};
ghost use Rattle.html5check.specs.Seen.{seen_by};
ghost use Rattle.html5ever_interface.specs.Token.{tag_of};

use crate::elements::{has_optional_end, is_document_part, is_integration_point};
use crate::finding::{Fault, Finding};
use crate::ids::{Ids, id_of};
use crate::open_elements::{OpenElement, OpenElements};
use crate::seen::SeenToken;
use crate::token_findings::{at_token, of_error, push_start_tag};
use html5elements::{is_foreign, is_void};
use html5ever_interface::interface::token::{Tag, TagKind, Token};
use std::alloc::{AllocError, Global};
use std::marker::Model;

/// The open elements and the findings, after some tokens of a text.
#[derive(Drop)]
pub struct Checker<'t> {
    opened: OpenElements<'t>,
    ids: Ids<'t>,
    found: Vec<Finding<'t>>,
}

impl<'t> Model for Checker<'t> {
    ghost use Rattle.std.specs.Prelude.{map};
    ghost use Rattle.html5check.specs.Checking.{Checking};
    ghost use Rattle.html5check.specs.Faults.{finding_by};

    ghost Value = { Checking };

    ghost view = { λ c. record { opened = c.opened; ids = c.ids; found = map finding_by c.found.items } };
}

impl<'t> Checker<'t> {
    /// Before the first token.
    pub fn new(alloc: Global) -> Checker<'t>
        ensures { result ≡ nothing_checked }
    {
        Checker {
            opened: OpenElements::none(alloc),
            ids: Ids::none(alloc),
            found: Vec::new(alloc),
        }
    }

    /// The findings, in the order of their tokens.
    pub fn into_found(self) -> Vec<Finding<'t>>
        ensures { map finding_by result.items ≡ self.entry.found }
    {
        self.found
    }

    // Adds something that is found.
    fn push(&mut self, finding: Finding<'t>) -> Result<(), AllocError>
        ensures { OnOk result (self.new ≡ record self.old { found = self.old.found ++ finding_by finding.entry ∷ [] }) }
    {
        match self.found.push(finding) {
            Ok(()) => Ok(()),
            Err(_) => Err(AllocError),
        }
    }

    // Takes the id of a start tag.
    fn take_id(&mut self, seen: &SeenToken, tag: &'t Tag) -> Result<(), AllocError>
        ensures { OnOk result (self.new ≡ at_id self.old (seen_by seen.now) (tag_of tag.now)) }
    {
        let Some(id) = id_of(tag) else {
            return Ok(());
        };
        if self.ids.take(id)? {
            self.push(at_token(seen, Fault::DuplicateId, id))?;
        }
        Ok(())
    }

    // Opens the element of a start tag.
    fn open(
        &mut self,
        seen: &SeenToken,
        name: &'t str,
        holds_foreign: bool,
    ) -> Result<(), AllocError>
        ensures { OnOk result (self.new ≡ with_open self.old (seen_by seen.now) name.now holds_foreign) }
    {
        self.opened.push(OpenElement {
            name,
            begin: seen.begin,
            end: seen.end,
            holds_foreign,
        })
    }

    // Takes a start tag of an element of another namespace.
    fn take_foreign_tag(&mut self, seen: &SeenToken, tag: &'t Tag) -> Result<(), AllocError>
        ensures { OnOk result (self.new ≡ at_foreign_tag self.old (seen_by seen.now) (tag_of tag.now)) }
    {
        if tag.self_closing {
            return Ok(());
        }
        let name = tag.name.0.as_str();
        self.open(seen, name, !is_integration_point(name))
    }

    // Takes a start tag of an element of HTML.
    fn take_html_tag(&mut self, seen: &SeenToken, tag: &'t Tag) -> Result<(), AllocError>
        ensures { OnOk result (self.new ≡ at_html_tag self.old (seen_by seen.now) (tag_of tag.now)) }
    {
        let name = tag.name.0.as_str();
        push_start_tag(&mut self.found, seen, tag)?;
        let count = self.opened.ended_before(name);
        self.opened.close(count);
        if is_void(name) {
            return Ok(());
        }
        self.open(seen, name, false)
    }

    // Takes a start tag.
    fn take_start_tag(&mut self, seen: &SeenToken, tag: &'t Tag) -> Result<(), AllocError>
        ensures { OnOk result (self.new ≡ at_start_tag self.old (seen_by seen.now) (tag_of tag.now)) }
    {
        self.take_id(seen, tag)?;
        let name = tag.name.0.as_str();
        if is_document_part(name) {
            return Ok(());
        }
        if self.opened.holds_foreign() || is_foreign(name) {
            self.take_foreign_tag(seen, tag)
        } else {
            self.take_html_tag(seen, tag)
        }
    }

    // Takes one of the open elements away: that it is left open is found, but where its end tag may be left out.
    fn leave_one_open(&mut self) -> Result<(), AllocError>
        ensures { OnOk result (self.new ≡ left_open 1 self.old) }
    {
        let Some(inner) = self.opened.pop() else {
            return Ok(());
        };
        if !has_optional_end(inner.name) {
            self.push(Finding {
                begin: inner.begin,
                end: inner.end,
                fault: Fault::UnclosedElement,
                subject: inner.name,
                meant: None,
            })?;
        }
        Ok(())
    }

    // Takes this many of the open elements away, that are left open.
    fn leave_open(&mut self, count: usize) -> Result<(), AllocError>
        ensures { OnOk result (self.new ≡ left_open count self.old) }
    {
        for _ in 0..count {
            self.leave_one_open()?;
        }
        Ok(())
    }

    // Takes an end tag.
    fn take_end_tag(&mut self, seen: &SeenToken, name: &'t str) -> Result<(), AllocError>
        ensures { OnOk result (self.new ≡ at_end_tag self.old (seen_by seen.now) name.now) }
    {
        if is_document_part(name) {
            return Ok(());
        }
        let count = self.opened.closed_by(name);
        if count == 0 {
            let fault = if is_void(name) {
                Fault::EndTagOfVoidElement
            } else {
                Fault::EndTagWithoutStart
            };
            return self.push(at_token(seen, fault, name));
        }
        self.leave_open(count - 1)?;
        self.opened.close(1);
        Ok(())
    }

    /// Takes a token.
    pub fn take(&mut self, seen: &'t SeenToken) -> Result<(), AllocError>
        ensures { OnOk result (self.new ≡ checked self.old (seen_by seen.now)) }
    {
        match &seen.token {
            Token::ParseError(message) => self.push(of_error(seen, message)),
            Token::TagToken(tag) if tag.kind == TagKind::StartTag => self.take_start_tag(seen, tag),
            Token::TagToken(tag) => self.take_end_tag(seen, tag.name.0.as_str()),
            Token::EOFToken => {
                let count = self.opened.len();
                self.leave_open(count)
            }
            _ => Ok(()),
        }
    }
}
