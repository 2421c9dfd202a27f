//! Active formatting elements: inserted, and opened again.
ghost use Rattle.std.specs.Prelude.{◌≡◌, map, reverse, true, IfOk, OnOk};
ghost use Rattle.std.specs.List.{list_all};
ghost use Rattle.tree_builder.specs.Characters.{is_formatting_element};
ghost use Rattle.tree_construction.specs.Formatting.{insert_formatting, reconstructed, reopened_one, still_listed, to_reopen};
ghost use Rattle.tree_builder.specs.Built.{on_parser, reopened_all, tag_of};
ghost use Rattle.tree_lists.specs.Formatting.{formatting_kind, listed_of};

use crate::builder::Builder;
use crate::tag::StartTag;
use std::alloc::Allocator;
use tree_lists::formatting::{FormatEntry, Formatting, FormattingKind};
use tree_lists::stack::Stack;
use tree_sink::attributes::TagAttributes;
use tree_sink::error::TreeBuilderError;
use tree_sink::sink::TreeSink;

impl<S: TreeSink<T> + Drop, T: TagAttributes, A: Allocator + Copy> Builder<S, T, A> {
    /// "Insert an HTML element for the token, and push onto the list of active formatting elements that element".
    pub fn insert_formatting(
        &mut self,
        kind: FormattingKind,
        tag: &StartTag<T, A>,
    ) -> Result<(), TreeBuilderError>
        ensures { OnOk result (self.new ≡ on_parser (insert_formatting (formatting_kind kind) (tag_of T.said tag.now)) self.old) }
    {
        let name = tag.name.try_clone()?;
        let attributes = tag.attributes.share()?;
        let handle = self.insert_element(kind.kind(), &tag.name, &tag.attributes)?;
        let element = Formatting {
            handle,
            kind,
            name,
            attributes,
        };
        self.formatting
            .push_formatting(element, self.opts.formatting_limit)?;
        Ok(())
    }

    // Opens an element again, and puts it into the list.
    fn reopen(&mut self, element: Formatting<S::Handle, T, A>) -> Result<(), TreeBuilderError>
        ensures { OnOk result (self.new ≡ on_parser (reopened_one (listed_of S.Handle.node T.said element)) self.old) }
    {
        let handle = self.insert_element(element.kind.kind(), &element.name, &element.attributes)?;
        let entry = Formatting {
            handle,
            kind: element.kind,
            name: element.name,
            attributes: element.attributes,
        };
        self.formatting.push(FormatEntry::Active(entry))?;
        Ok(())
    }

    // Opens elements again, in their order.
    #[tactic(auto, unfolding(crate::specs::Built::reopened_all))]
    fn reopen_all(
        &mut self,
        elements: Stack<Formatting<S::Handle, T, A>, A>,
    ) -> Result<(), TreeBuilderError>
        ensures { OnOk result (self.new ≡ on_parser (reopened_all (map (listed_of S.Handle.node T.said) elements)) self.old) }
    {
        let mut left = elements;
        while let Some(element) = left.pop() {
            self.reopen(element)?;
        }
        Ok(())
    }

    // Takes the entries that are opened again out of the list.
    fn take_lost(&mut self) -> Result<Stack<Formatting<S::Handle, T, A>, A>, TreeBuilderError>
        ensures list { OnOk result (self.new ≡ on_parser (λ p. record p { formatting = still_listed p.page.opened p.formatting }) self.old) }
        ensures lost { IfOk result (λ lost. reverse (map (listed_of S.Handle.node T.said) lost)
            ≡ to_reopen self.old.parser.page.opened self.old.parser.formatting) }
        ensures kinds { OnOk result (list_all is_formatting_element (to_reopen self.old.parser.page.opened self.old.parser.formatting) ≡ true) }
    {
        let lost = self.formatting.take_lost(&self.opened, self.alloc)?;
        Ok(lost)
    }

    // Opens again what was taken out of the list: formatting elements.
    pub(crate) fn reopen_lost(&mut self) -> Result<(), TreeBuilderError>
        ensures parser { OnOk result (self.new ≡ on_parser reconstructed self.old) }
        ensures kinds { OnOk result (list_all is_formatting_element (to_reopen self.old.parser.page.opened self.old.parser.formatting) ≡ true) }
    {
        let lost = self.take_lost()?;
        self.reopen_all(lost)
    }

    /// "Reconstruct the active formatting elements".
    pub fn reconstruct(&mut self) -> Result<(), TreeBuilderError>
        ensures { OnOk result (self.new ≡ on_parser reconstructed self.old) }
    {
        self.reopen_lost()
    }
}
