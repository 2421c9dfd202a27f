//! Elements that leave the stack of open elements.
ghost use Rattle.std.specs.Prelude.{◌≡◌, OnOk};
ghost use Rattle.tree_construction.specs.Page.{current_passes};
ghost use Rattle.tree_construction.specs.Parser.{all_implied_ended, ended, ended_without_implied, expects_current, implied_ended, implied_ended_but, paragraph_closed, pop_until, pop_while, stop_parsing, without_paragraph};
ghost use Rattle.tree_builder.specs.Built.{is_popped, on_parser};
ghost use Rattle.tree_lists.specs.Opened.{open_of};
ghost use Rattle.tree_lists.specs.Wanted.{is_wanted};

use crate::builder::Builder;
use std::alloc::Allocator;
use tree_construction::mistakes::Mistake;
use tree_lists::opened::OpenElement;
use tree_lists::wanted::{KindSet, Scope, Wanted};
use tree_sink::attributes::TagAttributes;
use tree_sink::error::TreeBuilderError;
use tree_sink::handle::NodeHandle;
use tree_sink::sink::TreeSink;

/// Which elements are popped while they are the current node.
#[derive(Drop)]
pub enum PopTest<'n, H, A: Allocator> {
    /// "Generate implied end tags".
    Implied,
    /// The same, except for some elements.
    ImpliedBut(&'n Wanted<'n, H, A>),
    /// "Generate all implied end tags thoroughly".
    Thoroughly,
    /// "Clear the stack back to a table context".
    OutsideTable,
    /// "Clear the stack back to a table body context".
    OutsideTableBody,
    /// "Clear the stack back to a table row context".
    OutsideTableRow,
    /// Elements of foreign content, up to an integration point.
    Foreign,
    /// All elements.
    Any,
}

impl<H: NodeHandle, A: Allocator> PopTest<'_, H, A> {
    // Whether an element is popped.
    fn pops(&self, element: &OpenElement<H, A>) -> bool
        ensures { result ≡ is_popped H.node self.now (open_of H.node element.now) }
    {
        let kind = element.kind;
        match self {
            PopTest::Implied => kind.is_implied(),
            PopTest::ImpliedBut(but) => kind.is_implied() && !element.is(but),
            PopTest::Thoroughly => kind.is_implied_thoroughly(),
            PopTest::OutsideTable => !kind.ends_table_scope(),
            PopTest::OutsideTableBody => !kind.is_body_context(),
            PopTest::OutsideTableRow => !kind.is_row_context(),
            PopTest::Foreign => !(kind.is_math_text_point()
                || kind.is_html_point()
                || kind.is_html()),
            PopTest::Any => true,
        }
    }
}

impl<S: TreeSink<T> + Drop, T: TagAttributes, A: Allocator> Builder<S, T, A> {
    // Whether the current node is popped.
    fn current_pops(&self, test: &PopTest<'_, S::Handle, A>) -> bool
        ensures { result ≡ current_passes (is_popped S.Handle.node test.now) self.now.parser.page.opened }
    {
        match self.opened.top() {
            Some(element) => test.pops(element),
            None => false,
        }
    }

    /// Pops elements while the current node passes.
    #[tactic(auto, unfolding(tree_construction::specs::Page::popped_while_in))]
    pub fn pop_while(&mut self, test: &PopTest<'_, S::Handle, A>) -> Result<(), TreeBuilderError>
        ensures { OnOk result (self.new ≡ on_parser (pop_while (is_popped S.Handle.node test.now)) self.old) }
    {
        while self.current_pops(test) {
            self.pop()?;
        }
        Ok(())
    }

    /// "Pop elements from the stack of open elements until such an element has been popped".
    #[tactic(auto, unfolding(tree_construction::specs::Page::popped_until_in))]
    pub fn pop_until(&mut self, wanted: &Wanted<'_, S::Handle, A>) -> Result<(), TreeBuilderError>
        ensures { OnOk result (self.new ≡ on_parser (pop_until (is_wanted S.Handle.node wanted.now)) self.old) }
    {
        while self.open_len() > 0 {
            let found = self.current_is(wanted);
            self.pop()?;
            if found {
                return Ok(());
            }
        }
        Ok(())
    }

    /// "If the current node is not" such an element, "then this is a parse error".
    pub fn expect_current(
        &mut self,
        wanted: &Wanted<'_, S::Handle, A>,
    ) -> Result<(), TreeBuilderError>
        ensures { OnOk result (self.new ≡ on_parser (expects_current (is_wanted S.Handle.node wanted.now)) self.old) }
    {
        if self.current_is(wanted) {
            return Ok(());
        }
        self.mistaken(Mistake::UnclosedElements)
    }

    /// "Generate implied end tags".
    pub fn generate_implied_end_tags(&mut self) -> Result<(), TreeBuilderError>
        ensures { OnOk result (self.new ≡ on_parser implied_ended self.old) }
    {
        self.pop_while(&PopTest::Implied)
    }

    /// "Generate implied end tags", except for some elements.
    pub fn generate_implied_end_tags_but(
        &mut self,
        but: &Wanted<'_, S::Handle, A>,
    ) -> Result<(), TreeBuilderError>
        ensures { OnOk result (self.new ≡ on_parser (implied_ended_but (is_wanted S.Handle.node but.now)) self.old) }
    {
        self.pop_while(&PopTest::ImpliedBut(but))
    }

    /// "Generate all implied end tags thoroughly".
    pub fn generate_all_implied_end_tags(&mut self) -> Result<(), TreeBuilderError>
        ensures { OnOk result (self.new ≡ on_parser all_implied_ended self.old) }
    {
        self.pop_while(&PopTest::Thoroughly)
    }

    /// Generates implied end tags, and pops elements until such an element has been popped.
    pub fn end_element(&mut self, wanted: &Wanted<'_, S::Handle, A>) -> Result<(), TreeBuilderError>
        ensures { OnOk result (self.new ≡ on_parser (ended (is_wanted S.Handle.node wanted.now)) self.old) }
    {
        self.generate_implied_end_tags()?;
        self.expect_current(wanted)?;
        self.pop_until(wanted)
    }

    /// The same, where no end tags of these elements themselves are implied.
    pub fn end_element_without_implied(
        &mut self,
        wanted: &Wanted<'_, S::Handle, A>,
    ) -> Result<(), TreeBuilderError>
        ensures { OnOk result (self.new ≡ on_parser (ended_without_implied (is_wanted S.Handle.node wanted.now)) self.old) }
    {
        self.generate_implied_end_tags_but(wanted)?;
        self.expect_current(wanted)?;
        self.pop_until(wanted)
    }

    /// "Close a p element".
    pub fn close_p_element(&mut self) -> Result<(), TreeBuilderError>
        ensures { OnOk result (self.new ≡ on_parser paragraph_closed self.old) }
    {
        self.end_element_without_implied(&Wanted::Of(KindSet::Paragraph))
    }

    /// "If the stack of open elements has a p element in button scope, then close a p element".
    pub fn close_p_in_button_scope(&mut self) -> Result<(), TreeBuilderError>
        ensures { OnOk result (self.new ≡ on_parser without_paragraph self.old) }
    {
        if self.has_in_scope(Scope::Button, &Wanted::Of(KindSet::Paragraph)) {
            return self.close_p_element();
        }
        Ok(())
    }

    /// "Stop parsing".
    pub fn stop_parsing(&mut self) -> Result<(), TreeBuilderError>
        ensures { OnOk result (self.new ≡ on_parser stop_parsing self.old) }
    {
        self.pop_while(&PopTest::Any)?;
        self.stopped = true;
        Ok(())
    }
}
