//! "In table text": the pending table character tokens.
ghost use Rattle.std.specs.Prelude.{◌≡◌, ◌<◌, [], length, string_bytes, IfOk, OnOk};
ghost use Rattle.tree_construction.specs.Parser.{Again};
ghost use Rattle.tree_construction.specs.Tables.{flushed, flushed_fostered, is_all_space, table_text_other};
ghost use Rattle.tree_construction.specs.Tokens.{Token};
ghost use Rattle.tree_builder.specs.Built.{followed, on_parser};
ghost use Rattle.tree_builder.specs.Characters.{AllOf, flushed_text, uncollected};

use crate::builder::Builder;
use crate::characters::TextClass;
use crate::tag::Step;
use crate::text_search::{first_run, run_len};
use std::alloc::Allocator;
use std::mem::replace;
use tree_construction::modes::Mode;
use tree_sink::attributes::TagAttributes;
use tree_sink::error::TreeBuilderError;
use tree_sink::sink::TreeSink;

// Whether a text has white space alone.
#[tactic(auto, using(crate::proofs::Boundaries::spaces_counted))]
fn is_all_space(text: &str) -> bool
    ensures { result ≡ is_all_space text.now }
{
    run_len(text.as_bytes(), TextClass::Space) == text.len()
}

impl<S: TreeSink<T> + Drop, T: TagAttributes, A: Allocator + Copy> Builder<S, T, A> {
    // One run of it.
    fn foster_run(&mut self, class: TextClass, text: &str) -> Result<(), TreeBuilderError>
        requires some { 0 < length text.now }
        requires all { AllOf class text.now }
        ensures { OnOk result (self.new ≡ on_parser (flushed_fostered text.now) self.old) }
    {
        self.foster_text(class, text)
    }

    // "Reprocess the character tokens in the pending table character tokens list using the rules given in the "anything
    // else" entry in the "in table" insertion mode".
    fn foster_all(&mut self, text: &str) -> Result<(), TreeBuilderError>
        ensures { OnOk result (self.new ≡ on_parser (flushed_fostered text.now) self.old) }
    {
        let mut rest = text;
        while let Some(run) = first_run(rest) {
            self.foster_run(run.class, run.text)?;
            rest = run.rest;
        }
        Ok(())
    }

    // Inserts a text that was collected.
    fn insert_collected(&mut self, text: &str) -> Result<(), TreeBuilderError>
        ensures { OnOk result (self.new ≡ on_parser (flushed_text text.now) self.old) }
    {
        if is_all_space(text) {
            return self.insert_text(text);
        }
        self.foster_all(text)
    }

    // Takes what was collected.
    fn take_pending(&mut self) -> String<A>
        ensures parser { self.new ≡ on_parser uncollected self.old }
        ensures text { string_bytes result ≡ self.old.parser.pending }
    {
        replace(&mut self.pending, String::new(self.alloc))
    }

    // Keeps the memory of what was collected.
    fn put_back(&mut self, pending: String<A>)
        ensures { self.new ≡ on_parser uncollected self.old }
    {
        self.pending = pending;
        self.pending.clear();
    }

    // "In table text": what was collected is inserted.
    fn flush_pending(&mut self) -> Result<(), TreeBuilderError>
        ensures { OnOk result (self.new ≡ on_parser (λ p. record (flushed p) { pending = [] }) self.old) }
    {
        let pending = self.take_pending();
        self.insert_collected(&pending)?;
        self.put_back(pending);
        Ok(())
    }

    // "The original insertion mode".
    fn original_mode(&self) -> Mode
        ensures { result ≡ self.now.parser.original_mode }
    {
        self.original_mode
    }

    /// "In table text": anything else.
    pub fn table_text_other(&mut self) -> Result<Step, TreeBuilderError>
        ensures parser { IfOk result (λ step. (again : Again) (token : Token)
            → followed again step self.new.parser token ≡ table_text_other again token self.old.parser) }
        ensures telling { OnOk result (self.new.telling ≡ self.old.telling) }
    {
        let mode = self.original_mode();
        self.flush_pending()?;
        self.set_mode(mode);
        Ok(Step::Again)
    }
}
