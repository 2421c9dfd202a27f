//! What contracts alone see of an editor: its edits, and the sink that it began with.
use crate::attributes::TagAttributes;
use crate::handle::NodeHandle;
use crate::place::InsertionPoint;
use ghost_counts::{Follows, Noted, note};
use std::marker::{Model, PhantomData};
use tree_construction::kinds::Namespace;
use tree_construction::mistakes::Mistake;
use tree_construction::modes::QuirksMode;

/// An edit, by what a sink is given.
#[derive(Clone, Copy)]
pub enum Change<'a, H, T> {
    MakeElement(H, Namespace, &'a str, &'a T),
    MakeBareElement(H, Namespace, &'a str),
    MakeContents(H),
    MakeComment(H, &'a str),
    PutDoctype(&'a str, &'a str, &'a str),
    Put(InsertionPoint<H>, H),
    PutText(InsertionPoint<H>, &'a str),
    Remove(H),
    MoveChildren(H, H),
    AddAttributes(H, &'a T),
    SetQuirksMode(QuirksMode),
    MarkStarted(H),
    AssociateForm(H, H, InsertionPoint<H>),
    Pop(H),
    ParseError(Mistake),
}

/// A text that is put at a place.
#[derive(Clone, Copy)]
pub struct TextPut<'a, H> {
    pub place: InsertionPoint<H>,
    pub text: &'a str,
}

/// A text that is put at a place, with a parse error before each of its bytes but the first.
#[derive(Clone, Copy)]
pub struct PartedText<'a, H> {
    pub mistake: Mistake,
    pub place: InsertionPoint<H>,
    pub text: &'a str,
}

/// The edits of a document, as contracts see them. It has no bytes at run time.
#[derive(Drop)]
pub struct EditLog {
    noted: Noted<Edits>,
}

impl Model for EditLog {
    ghost use Rattle.tree_sink.specs.Edited.{Logged};

    ghost Value = { Logged };

    ghost view = { λ log. record { edits = log.noted.value } };
}

// Stands for the edits that a log can have.
struct Edits {}

impl Model for Edits {
    ghost use Rattle.std.specs.Prelude.{List, []};
    ghost use Rattle.tree_construction.specs.Page.{Edit};

    ghost Value = { List Edit };

    ghost view = { λ _. [] };
}

impl Follows<(), ()> for Edits {
    ghost use Rattle.std.specs.Prelude.{[]};

    ghost follows = { λ _ _. [] };
}

impl<'a, H: NodeHandle, T: TagAttributes> Follows<EditLog, Change<'a, H, T>> for Edits {
    ghost use Rattle.std.specs.Prelude.{◌∷◌};
    ghost use Rattle.tree_sink.specs.Changes.{edit_of};

    ghost follows = { λ log change. edit_of H.node T.said change ∷ log.edits };
}

impl<'a, H: NodeHandle> Follows<EditLog, TextPut<'a, H>> for Edits {
    ghost use Rattle.tree_sink.specs.Places.{place_of};
    ghost use Rattle.tree_sink.specs.Sinks.{text_put};

    ghost follows = { λ log put. text_put (place_of H.node put.place) put.text.now log.edits };
}

impl<'a, H: NodeHandle> Follows<EditLog, PartedText<'a, H>> for Edits {
    ghost use Rattle.tree_sink.specs.Places.{place_of};
    ghost use Rattle.tree_sink.specs.Sinks.{parted_text_put};

    ghost follows = { λ log put. parted_text_put put.mistake (place_of H.node put.place) put.text.now log.edits };
}

impl EditLog {
    ghost use Rattle.std.specs.Prelude.{◌≡◌, [], ◌∷◌};
    ghost use Rattle.tree_sink.specs.Changes.{edit_of};
    ghost use Rattle.tree_sink.specs.Places.{place_of};
    ghost use Rattle.tree_sink.specs.Sinks.{parted_text_put, text_put};

    /// A log of no edits.
    pub fn new() -> EditLog
        ensures { result.edits ≡ [] }
    {
        EditLog {
            noted: note(&(), &()),
        }
    }

    /// Notes an edit.
    pub fn note<H: NodeHandle, T: TagAttributes>(&mut self, change: &Change<'_, H, T>)
        ensures { self.new.edits ≡ edit_of H.node T.said change.now ∷ self.old.edits }
    {
        self.noted = note(self, change);
    }

    /// Notes the edits of a text with parse errors.
    pub fn note_parted_text<H: NodeHandle>(&mut self, put: &PartedText<'_, H>)
        ensures { self.new.edits ≡ parted_text_put put.now.mistake (place_of H.node put.now.place) put.now.text.now self.old.edits }
    {
        self.noted = note(self, put);
    }

    /// Notes the edits of a text.
    pub fn note_text<H: NodeHandle>(&mut self, put: &TextPut<'_, H>)
        ensures { self.new.edits ≡ text_put (place_of H.node put.now.place) put.now.text.now self.old.edits }
    {
        self.noted = note(self, put);
    }
}

/// Stands for a sink as it was at the start.
pub struct First<S> {
    of: PhantomData<S>,
}

impl<S> Model for First<S> {
    ghost use Rattle.std.specs.Prelude.{Option, None};

    ghost Value = { Option S };

    ghost view = { λ _. None };
}

impl<S> Follows<S, ()> for First<S> {
    ghost use Rattle.std.specs.Prelude.{Some};

    ghost follows = { λ sink _. Some sink };
}
