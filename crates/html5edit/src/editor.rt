//! What an editor says of tokens.
ghost use Rattle.std.specs.Prelude.{◌≡◌, ◌≢◌, Bool, IfOk, encode_utf8_all, string_bytes};
ghost use Rattle.html5elements.specs.Hidden.{hidden_after, hidden_after_tag, hidden_of, hidden_within};
ghost use Rattle.html5ever_interface.specs.Token.{tag_of, told_by};
ghost use Rattle.html5extract.specs.Bases.{named_by, with_named};
ghost use Rattle.html5edit.specs.Changes.{Changed};
ghost use Rattle.html5edit.specs.Editing.{after_token, bases_after_told, edits_of, edits_of_changed, edits_of_tag, edits_shown, opens, start_of_editing, token_dropped};
ghost use Rattle.html5edit.specs.EditorChanges.{changed_with, editing_of, hidden_with};
ghost use Rattle.html5edit.specs.Rules.{changed_by};
ghost use Rattle.html5splice.specs.Edits.{edits_by};

use crate::changes::Changes;
use crate::tags::{ChangedTag, changed_tag};
use html5elements::hidden::{Hidden, has_content};
use html5ever_interface::interface::token::{SinkFault, Tag, Token};
use html5extract::bases::Bases;
use html5serialize::push_tag;
use html5splice::{Cut, Edit, Edits, Splicer};
use std::alloc::{AllocError, Global};
use url::Url;

/// Edits a page: by what is changed, and by where its links lead from.
#[derive(Drop)]
pub struct Editor<'s> {
    alloc: Global,
    changes: &'s Changes,
    bases: Bases,
    hidden: Hidden<Global>,
}

/// What a token changes in an editor: the URL that it names for links, and what is dropped after it, where that is another.
#[derive(Drop)]
pub struct EditorChange {
    pub base: Option<Url>,
    pub hidden: Option<Hidden<Global>>,
}

// The token is dropped.
fn drop_token(alloc: Global) -> Edits
    ensures { edits_by result ≡ token_dropped }
{
    Edits {
        run: Edit::Keep,
        token: Edit::Replace(String::new(alloc)),
    }
}

// A tag that is changed is written anew.
fn edits_of_changed(alloc: Global, changed: &ChangedTag) -> Result<Edits, AllocError>
    ensures { IfOk result (λ edits. edits_by edits ≡ edits_of_changed (changed_by changed.now)) }
{
    if !changed.is_changed {
        return Ok(Edits::none());
    }
    let mut text = String::new(alloc);
    push_tag(&mut text, &changed.tag)?;
    Ok(Edits {
        run: Edit::Keep,
        token: Edit::Replace(text),
    })
}

impl<'s> Editor<'s> {
    /// At the start of a page.
    pub fn new(alloc: Global, changes: &'s Changes, bases: &Bases) -> Result<Editor<'s>, AllocError>
        ensures { IfOk result (λ editor. editing_of editor ≡ start_of_editing changes.now bases.now) }
    {
        Ok(Editor {
            alloc,
            changes,
            bases: bases.for_page()?,
            hidden: Hidden::none(alloc),
        })
    }

    // What happens to a tag, when nothing is dropped.
    fn edits_of_tag(&self, tag: Tag) -> Result<Edits, AllocError>
        ensures { IfOk result (λ edits. edits_by edits ≡ edits_of_tag (editing_of self.now) (tag_of tag)) }
    {
        if self.changes.drops(&tag.name.0) {
            return Ok(drop_token(self.alloc));
        }
        let changed = changed_tag(self.alloc, self.changes, &self.bases, tag)?;
        edits_of_changed(self.alloc, &changed)
    }

    // What happens to a token, and to the run before it.
    fn edits_of(&self, token: Token) -> Result<Edits, AllocError>
        ensures { IfOk result (λ edits. edits_by edits ≡ edits_of (editing_of self.now) (told_by token)) }
    {
        if self.hidden.depth != 0 {
            return Ok(Edits {
                run: Edit::Replace(String::new(self.alloc)),
                token: Edit::Replace(String::new(self.alloc)),
            });
        }
        match token {
            Token::TagToken(tag) => self.edits_of_tag(tag),
            _ => Ok(Edits::none()),
        }
    }

    // The element that a tag begins, where that is dropped.
    fn begun_by(&self, tag: &Tag) -> Result<Option<Hidden<Global>>, AllocError>
        requires { self.now.hidden.depth ≡ 0 }
        ensures { IfOk result (λ hidden. hidden_with (hidden_of self.now.hidden) hidden
            ≡ hidden_after_tag (opens self.now.changes.now (tag_of tag.now)) (hidden_of self.now.hidden) (tag_of tag.now)) }
    {
        if !self.changes.drops(&tag.name.0) || !has_content(tag) {
            return Ok(None);
        }
        let name = String::from_str(self.alloc, &tag.name.0)?;
        Ok(Some(Hidden::within(name)))
    }

    // What is dropped after a tag within what is dropped.
    fn hidden_within(&self, tag: &Tag) -> Result<Hidden<Global>, AllocError>
        ensures { IfOk result (λ hidden. hidden_of hidden ≡ hidden_within (hidden_of self.now.hidden) (tag_of tag.now)) }
    {
        if self.hidden.is_full() {
            return Err(AllocError);
        }
        let mut hidden = Hidden {
            name: String::from_str(self.alloc, &self.hidden.name)?,
            depth: self.hidden.depth,
        };
        hidden.pass_within(tag);
        Ok(hidden)
    }

    // What is dropped after a tag, where that is another.
    fn hidden_after(&self, tag: &Tag) -> Result<Option<Hidden<Global>>, AllocError>
        ensures { IfOk result (λ hidden. hidden_with (hidden_of self.now.hidden) hidden
            ≡ hidden_after_tag (opens self.now.changes.now (tag_of tag.now)) (hidden_of self.now.hidden) (tag_of tag.now)) }
    {
        if self.hidden.depth == 0 {
            return self.begun_by(tag);
        }
        Ok(Some(self.hidden_within(tag)?))
    }

    // What a token changes.
    fn change_of(&self, token: &Token) -> Result<EditorChange, AllocError>
        ensures bases { IfOk result (λ change. with_named self.now.bases change.base ≡ bases_after_told self.now.bases (told_by token.now)) }
        ensures hidden { IfOk result (λ change. hidden_with (hidden_of self.now.hidden) change.hidden
            ≡ hidden_after (opens self.now.changes.now) (hidden_of self.now.hidden) (told_by token.now)) }
    {
        match token {
            Token::TagToken(tag) => Ok(EditorChange {
                base: self.bases.named_by(tag)?,
                hidden: self.hidden_after(tag)?,
            }),
            _ => Ok(EditorChange {
                base: None,
                hidden: None,
            }),
        }
    }

    // What happens to a token, and what it changes.
    fn said_of(&self, token: Token) -> Result<(Edits, EditorChange), AllocError>
        ensures edits { IfOk result (λ said. edits_by said.0 ≡ edits_of (editing_of self.now) (told_by token)) }
        ensures changes { IfOk result (λ said. changed_with (editing_of self.now) said.1 ≡ after_token (editing_of self.now) (told_by token)) }
    {
        let change = self.change_of(&token)?;
        let edits = self.edits_of(token)?;
        Ok((edits, change))
    }
}

impl<'s> Splicer<Token, Global> for Editor<'s> {
    ghost use Rattle.html5edit.specs.Editing.{Editing, editing};
    ghost use Rattle.html5edit.specs.EditorChanges.{changed_with, editing_of};

    type Change = EditorChange;

    ghost State = { Editing };

    ghost state = { editing_of };

    ghost splices = { editing };

    ghost changed = { changed_with };

    fn edit(&self, _cut: &Cut<'_>, token: Token) -> Result<(Edits, EditorChange), SinkFault> {
        match self.said_of(token) {
            Ok(said) => Ok(said),
            Err(AllocError) => Err(SinkFault),
        }
    }

    fn change(&mut self, change: EditorChange) {
        self.bases.found_at(change.base);
        if let Some(hidden) = change.hidden {
            self.hidden = hidden;
        }
    }
}
