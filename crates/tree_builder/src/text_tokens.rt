//! Texts: each is taken by runs of characters of one class.
ghost use Rattle.std.specs.Prelude.{◌≡◌, ◌<◌, ℕ, List, ◌∷◌, length, map, true, false, IfOk, OnOk};
ghost use Rattle.tree_construction.specs.Construction.{is_ignored_newline, run};
ghost use Rattle.tree_construction.specs.Tokens.Token.{Character};
ghost use Rattle.tree_builder.specs.Built.{on_parser};
ghost use Rattle.tree_builder.specs.Characters.{AllOf, TakesRun, acted_all, action_of, fresh, has_root, moved_on};
ghost use Rattle.tree_builder.specs.declared.characters.TextAction.TheVariants.{Reprocess};
ghost use Rattle.tree_builder.specs.declared.characters.TextAction.{TextAction as ActionOf};
ghost use Rattle.tree_construction.specs.declared.modes.Mode.TheVariants.{InTable, InColumnGroup, AfterBody};

use crate::builder::Builder;
use crate::characters::{TextAction, TextClass};
use crate::request::Request;
use crate::text_search::first_run;
use std::alloc::Allocator;
use tree_construction::modes::Mode;
use tree_sink::attributes::TagAttributes;
use tree_sink::error::TreeBuilderError;
use tree_sink::sink::TreeSink;

// How often a character is processed at most.
const ROWS: usize = 6;

impl<S: TreeSink<T> + Drop, T: TagAttributes, A: Allocator + Copy> Builder<S, T, A> {
    /// What is set before each token.
    pub(crate) fn begin_token(&mut self)
        ensures { self.new ≡ on_parser fresh self.old }
    {
        self.ignores_newline = false;
        self.request = Request::GoOn;
        self.acknowledged = false;
    }

    // Whether an element is open, or a document is parsed.
    fn has_root(&self) -> bool
        ensures { result ≡ has_root self.now.parser.options.context self.now.parser.page.opened }
    {
        self.context.is_none() || self.open_len() != 0
    }

    // "Set the pending table character tokens to an empty list", and collects them.
    fn begin_table_text(&mut self)
        ensures { self.new ≡ on_parser (moved_on InTable) self.old }
    {
        self.pending.clear();
        self.original_mode = self.mode;
        self.mode = Mode::InTableText;
    }

    // Goes to the mode in which a character is processed again.
    fn move_on(&mut self) -> Result<(), TreeBuilderError>
        ensures { OnOk result (self.new ≡ on_parser (moved_on self.old.parser.mode) self.old) }
    {
        match self.mode {
            Mode::Initial => self.leave_initial(),
            Mode::BeforeHtml => self.leave_before_html(),
            Mode::BeforeHead => self.insert_bare_head(),
            Mode::InHead => self.close_head(),
            Mode::InHeadNoscript => self.leave_noscript(),
            Mode::AfterHead => self.insert_bare_body(),
            Mode::InTable | Mode::InTableBody | Mode::InRow => {
                self.begin_table_text();
                Ok(())
            }
            Mode::InColumnGroup => self.close_column_group(),
            Mode::AfterBody | Mode::AfterAfterBody => self.leave_after_body(),
            _ => Ok(()),
        }
    }

    // One of the rows for a character: whether the run is done with, or is processed again.
    fn text_row(&mut self, class: TextClass, text: &str) -> Result<bool, TreeBuilderError>
        requires some { 0 < length text.now }
        requires all { AllOf class text.now }
        requires clean { fresh self.old.parser ≡ self.old.parser }
        ensures done { IfOk result (λ done. done ≡ true → (action : ActionOf) × ((self.new ≡ on_parser (acted_all action text.now) self.old)
            × TakesRun class action self.old.parser)) }
        ensures again { IfOk result (λ done. done ≡ false → (action_of class self.old.parser ≡ Reprocess) × (self.new ≡ on_parser (moved_on self.old.parser.mode) self.old)) }
    {
        if !self.has_root() {
            return Err(TreeBuilderError::Stopped);
        }
        let action = self.text_action(class);
        if action == TextAction::Reprocess {
            self.move_on()?;
            return Ok(false);
        }
        self.act(action, class, text)?;
        Ok(true)
    }

    /// A run of characters of one class, as `first_run` parts a text. A newline that is to be ignored is not in it. In a
    /// fragment without an open element parsing has stopped.
    pub fn take_run(&mut self, class: TextClass, text: &str) -> Result<(), TreeBuilderError>
        requires some { 0 < length text.now }
        requires all { AllOf class text.now }
        requires kept { (c : ℕ) (rest : List ℕ) → text.now ≡ c ∷ rest → is_ignored_newline self.old.parser.ignores_newline (Character c) ≡ false }
        ensures parser { OnOk result (self.new ≡ on_parser (run (map (λ c. Character c) text.now)) self.old) }
        ensures newline { OnOk result (self.new.parser.ignores_newline ≡ false) }
    {
        self.begin_token();
        for _ in 0..ROWS {
            if self.text_row(class, text)? {
                return Ok(());
            }
        }
        unreachable!()
    }

    // A text without a newline at its front that is to be ignored.
    fn ignore_newline<'t>(&mut self, text: &'t str) -> &'t str
        ensures parser { on_parser (run (map (λ c. Character c) result.now)) self.new ≡ on_parser (run (map (λ c. Character c) text.now)) self.old }
        ensures kept { (c : ℕ) (rest : List ℕ) → result.now ≡ c ∷ rest → is_ignored_newline self.new.parser.ignores_newline (Character c) ≡ false }
    {
        if !self.ignores_newline {
            return text;
        }
        let Some(rest) = text.strip_prefix('\n') else {
            return text;
        };
        self.begin_token();
        rest
    }

    /// A text: each of its characters is a token.
    pub fn take_text(&mut self, text: &str) -> Result<(), TreeBuilderError>
        ensures { OnOk result (self.new ≡ on_parser (run (map (λ c. Character c) text.now)) self.old) }
    {
        let mut rest = self.ignore_newline(text);
        while let Some(run) = first_run(rest) {
            self.take_run(run.class, run.text)?;
            rest = run.rest;
        }
        Ok(())
    }
}
