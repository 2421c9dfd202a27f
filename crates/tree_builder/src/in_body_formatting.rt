//! "In body", start tags of formatting elements. Their end tags are those of the adoption agency algorithm.
ghost use Rattle.std.specs.Prelude.{◌≡◌, OnOk};
ghost use Rattle.tree_construction.specs.Formatting.{last_named};
ghost use Rattle.tree_construction.specs.InBody.{removed_if_open, start_anchor, start_font, start_formatting, start_no_break, without_anchor, without_no_break};
ghost use Rattle.tree_names.specs.ElementNames.{name_bytes};
ghost use Rattle.tree_builder.specs.Built.{on_parser, tag_of};

use crate::builder::Builder;
use crate::tag::StartTag;
use std::alloc::Allocator;
use tree_lists::formatting::FormattingKind;
use tree_lists::wanted::{KindSet, Scope, Wanted};
use tree_names::name::ElementName;
use tree_sink::attributes::TagAttributes;
use tree_sink::error::TreeBuilderError;
use tree_sink::sink::TreeSink;

impl<S: TreeSink<T> + Drop, T: TagAttributes, A: Allocator + Copy> Builder<S, T, A> {
    /// `b`, `big`, `code`, `em`, `i`, `s`, `small`, `strike`, `strong`, `tt`, `u`.
    pub fn start_formatting(&mut self, tag: &StartTag<T, A>) -> Result<(), TreeBuilderError>
        ensures { OnOk result (self.new ≡ on_parser (start_formatting (tag_of T.said tag.now)) self.old) }
    {
        self.reconstruct()?;
        self.insert_formatting(FormattingKind::Formatting, tag)
    }

    /// `font`.
    pub fn start_font(&mut self, tag: &StartTag<T, A>) -> Result<(), TreeBuilderError>
        ensures { OnOk result (self.new ≡ on_parser (start_font (tag_of T.said tag.now)) self.old) }
    {
        self.reconstruct()?;
        self.insert_formatting(FormattingKind::Font, tag)
    }

    // Takes a node out of the stack, if it is open.
    fn remove_if_open(&mut self, handle: S::Handle) -> Result<(), TreeBuilderError>
        ensures { OnOk result (self.new ≡ on_parser (removed_if_open (S.Handle.node handle)) self.old) }
    {
        if !self.has_open(&Wanted::Node(handle)) {
            return Ok(());
        }
        self.remove_from_stack(handle)
    }

    // Ends an `a` that the list has after the last marker.
    fn end_anchor(&mut self, name: &ElementName<A>) -> Result<(), TreeBuilderError>
        ensures { OnOk result (self.new ≡ on_parser (λ p. without_anchor (name_bytes name.now) (last_named (name_bytes name.now) p.formatting) p) self.old) }
    {
        let Some(handle) = self.last_listed_node(name) else {
            return Ok(());
        };
        self.unexpected()?;
        self.adoption_agency(name)?;
        self.unlist(handle);
        self.remove_if_open(handle)
    }

    /// `a`.
    pub fn start_anchor(&mut self, tag: &StartTag<T, A>) -> Result<(), TreeBuilderError>
        ensures { OnOk result (self.new ≡ on_parser (start_anchor (tag_of T.said tag.now)) self.old) }
    {
        self.end_anchor(&tag.name)?;
        self.reconstruct()?;
        self.insert_formatting(FormattingKind::Anchor, tag)
    }

    // Ends a `nobr` that is in scope.
    fn end_no_break(&mut self, name: &ElementName<A>) -> Result<(), TreeBuilderError>
        ensures { OnOk result (self.new ≡ on_parser (without_no_break (name_bytes name.now)) self.old) }
    {
        if !self.has_in_scope(Scope::Default, &Wanted::Of(KindSet::NoBreak)) {
            return Ok(());
        }
        self.unexpected()?;
        self.adoption_agency(name)?;
        self.reconstruct()
    }

    /// `nobr`.
    pub fn start_no_break(&mut self, tag: &StartTag<T, A>) -> Result<(), TreeBuilderError>
        ensures { OnOk result (self.new ≡ on_parser (start_no_break (tag_of T.said tag.now)) self.old) }
    {
        self.reconstruct()?;
        self.end_no_break(&tag.name)?;
        self.insert_formatting(FormattingKind::NoBreak, tag)
    }
}
