//! "Reset the insertion mode appropriately", and the end of templates.
ghost use Rattle.std.specs.Prelude.{◌≡◌, ◌<◌, ◌+◌, ◌∷◌, drop, length, OnOk};
ghost use Rattle.tree_construction.specs.BeforeBody.{end_template, template_closed, without_template_mode};
ghost use Rattle.tree_construction.specs.Page.{Open};
ghost use Rattle.tree_construction.specs.Resetting.{current_template_mode, last_kind, mode_at, mode_by_head, mode_of, mode_reset};
ghost use Rattle.tree_builder.specs.Built.{mode_or, on_parser};

use crate::builder::Builder;
use std::alloc::Allocator;
use tree_construction::kinds::Kind;
use tree_construction::modes::Mode;
use tree_lists::wanted::{KindSet, Wanted};
use tree_sink::attributes::TagAttributes;
use tree_sink::error::TreeBuilderError;
use tree_sink::sink::TreeSink;

impl<S: TreeSink<T> + Drop, T: TagAttributes, A: Allocator> Builder<S, T, A> {
    // "The current template insertion mode".
    fn current_template_mode(&self) -> Mode
        ensures { result ≡ current_template_mode self.now.parser.template_modes }
    {
        if self.template_modes.len() == 0 {
            Mode::InTemplate
        } else {
            *self.template_modes.at(0)
        }
    }

    // The mode of an `html` element.
    fn mode_by_head(&self) -> Mode
        ensures { result ≡ mode_by_head self.now.parser.head }
    {
        match self.head {
            None => Mode::BeforeHead,
            Some(_) => Mode::AfterHead,
        }
    }

    // What an element says of the mode, where it says something.
    fn mode_at(&self, last: bool, kind: Kind) -> Option<Mode>
        ensures { (outer : Mode) → mode_at self.now.parser last kind outer ≡ mode_or result outer }
    {
        match kind {
            Kind::Cell if !last => Some(Mode::InCell),
            Kind::TableRow => Some(Mode::InRow),
            Kind::TableBody => Some(Mode::InTableBody),
            Kind::Caption => Some(Mode::InCaption),
            Kind::ColumnGroup => Some(Mode::InColumnGroup),
            Kind::Table => Some(Mode::InTable),
            Kind::Template => Some(self.current_template_mode()),
            Kind::Head if !last => Some(Mode::InHead),
            Kind::Body => Some(Mode::InBody),
            Kind::Frameset => Some(Mode::InFrameset),
            Kind::HtmlRoot => Some(self.mode_by_head()),
            _ => None,
        }
    }

    // The kind by which the first element on the stack is judged: that of the context element of a fragment.
    pub(crate) fn last_kind(&self, kind: Kind) -> Kind
        ensures { result ≡ last_kind self.now.parser.options.context kind }
    {
        match self.context {
            None => kind,
            Some(context) => context.kind,
        }
    }

    // What the element at a depth says of the mode, where it says something.
    fn mode_in(&self, depth: usize) -> Option<Mode>
        requires { depth < length self.now.parser.page.opened }
        ensures { mode_of self.now.parser (drop depth self.now.parser.page.opened)
            ≡ mode_or result (mode_of self.now.parser (drop (depth + 1) self.now.parser.page.opened)) }
    {
        let count = self.open_len();
        let kind = self.open_kind(depth);
        if depth + 1 == count {
            return self.mode_at(true, self.last_kind(kind));
        }
        self.mode_at(false, kind)
    }

    // The kind of the element at a depth.
    fn open_kind(&self, depth: usize) -> Kind
        requires { depth < length self.now.parser.page.opened }
        ensures { (e : Open) × ((drop depth self.now.parser.page.opened ≡ e ∷ drop (depth + 1) self.now.parser.page.opened) × (result ≡ e.kind)) }
    {
        self.opened.at(depth).kind
    }

    // The mode by the open elements.
    #[tactic(auto, unfolding(tree_construction::specs::Resetting::mode_of))]
    fn mode_by_stack(&self) -> Mode
        ensures { result ≡ mode_of self.now.parser self.now.parser.page.opened }
    {
        for depth in 0..self.open_len() {
            if let Some(mode) = self.mode_in(depth) {
                return mode;
            }
        }
        Mode::InBody
    }

    /// "Reset the insertion mode appropriately".
    pub fn reset_mode(&mut self)
        ensures { self.new ≡ on_parser mode_reset self.old }
    {
        let mode = self.mode_by_stack();
        self.set_mode(mode);
    }

    // "Pop the current template insertion mode off the stack of template insertion modes".
    #[tactic(auto, using(crate::proofs::TemplateModes::without_first))]
    pub(crate) fn pop_template_mode(&mut self)
        ensures { self.new ≡ on_parser (λ p. record p { template_modes = without_template_mode p.template_modes }) self.old }
    {
        self.template_modes.pop();
    }

    /// Closes a template.
    pub fn close_template(&mut self) -> Result<(), TreeBuilderError>
        ensures { OnOk result (self.new ≡ on_parser template_closed self.old) }
    {
        self.pop_until(&Wanted::Of(KindSet::Template))?;
        self.clear_to_marker();
        self.pop_template_mode();
        self.reset_mode();
        Ok(())
    }

    /// An end tag whose tag name is `template`.
    pub fn end_template(&mut self) -> Result<(), TreeBuilderError>
        ensures { OnOk result (self.new ≡ on_parser end_template self.old) }
    {
        if !self.has_template() {
            return self.unexpected();
        }
        self.generate_all_implied_end_tags()?;
        self.expect_current(&Wanted::Of(KindSet::Template))?;
        self.close_template()
    }
}
