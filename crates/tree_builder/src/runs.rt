//! Runs of characters of one class, each of which is handled at once.
ghost use Rattle.std.specs.Prelude.{◌≡◌, ◌<◌, length, reverse, map, true, IfOk, OnOk};
ghost use Rattle.std.specs.List.{list_all};
ghost use Rattle.tree_construction.specs.Formatting.{to_reopen};
ghost use Rattle.tree_builder.specs.Built.{on_parser};
ghost use Rattle.tree_builder.specs.declared.characters.TextClass.TheVariants.{Null, Other, Space};
ghost use Rattle.tree_builder.specs.Characters.{AllOf, acted_all, before_fostered, is_formatting_element, is_reopening, parted_text, refused_and_replaced, refused_twice, reopens_formatting, repeated};
ghost use Rattle.tree_construction.specs.Parser.{unexpected};
ghost use Rattle.tree_builder.specs.declared.characters.TextAction.TheVariants.{Collect, Foster, Insert, InsertForeign, InsertInBody, Refuse, Replace};

use crate::builder::Builder;
use crate::characters::{TextAction, TextClass};
use std::alloc::Allocator;
use tree_construction::mistakes::Mistake;
use tree_sink::attributes::TagAttributes;
use tree_sink::error::TreeBuilderError;
use tree_sink::sink::TreeSink;

impl<S: TreeSink<T> + Drop, T: TagAttributes, A: Allocator + Copy> Builder<S, T, A> {
    // "Parse error", so many times.
    #[tactic(auto, unfolding(crate::specs::Characters::repeated))]
    fn refuse_times(&mut self, count: usize) -> Result<(), TreeBuilderError>
        ensures { OnOk result (self.new ≡ on_parser (repeated unexpected count) self.old) }
    {
        for _ in 0..count {
            self.unexpected()?;
        }
        Ok(())
    }

    // "Parse error. Ignore the token", of each byte of a text.
    fn refuse_text(&mut self, text: &str) -> Result<(), TreeBuilderError>
        ensures { OnOk result (self.new ≡ on_parser (acted_all Refuse text.now) self.old) }
    {
        self.refuse_times(text.len())
    }

    // "Insert the character", of each of a text.
    #[tactic(auto, using(crate::proofs::RunActions::inserted_all))]
    fn insert_all(&mut self, text: &str) -> Result<(), TreeBuilderError>
        ensures { OnOk result (self.new ≡ on_parser (acted_all Insert text.now) self.old) }
    {
        self.insert_text(text)
    }

    // "Append the character token to the pending table character tokens list", of each of a text.
    #[tactic(auto, using(crate::proofs::RunActions::collected_all))]
    fn collect_text(&mut self, text: &str) -> Result<(), TreeBuilderError>
        ensures { OnOk result (self.new ≡ on_parser (acted_all Collect text.now) self.old) }
    {
        self.pending.push_str(text)?;
        Ok(())
    }

    // In foreign content, "insert the token's character", of each of a text that is not empty.
    fn insert_foreign_text(&mut self, text: &str) -> Result<(), TreeBuilderError>
        requires { 0 < length text.now }
        ensures { OnOk result (self.new ≡ on_parser (acted_all InsertForeign text.now) self.old) }
    {
        self.insert_text(text)?;
        self.set_frameset_not_ok();
        Ok(())
    }

    // "Insert a U+FFFD REPLACEMENT CHARACTER character".
    fn replace_one(&mut self) -> Result<(), TreeBuilderError>
        ensures { OnOk result (self.new ≡ on_parser refused_and_replaced self.old) }
    {
        self.unexpected()?;
        let place = self.place_in(0)?;
        self.editor.put_whole_text(place, "\u{FFFD}")
    }

    // The same, so many times.
    #[tactic(auto, unfolding(crate::specs::Characters::repeated))]
    fn replace_times(&mut self, count: usize) -> Result<(), TreeBuilderError>
        ensures { OnOk result (self.new ≡ on_parser (repeated refused_and_replaced count) self.old) }
    {
        for _ in 0..count {
            self.replace_one()?;
        }
        Ok(())
    }

    // The same, for each byte of a text.
    fn replace_text(&mut self, text: &str) -> Result<(), TreeBuilderError>
        ensures { OnOk result (self.new ≡ on_parser (acted_all Replace text.now) self.old) }
    {
        self.replace_times(text.len())
    }

    // "In body": the active formatting elements are reconstructed, and white space is inserted.
    fn insert_spaces(&mut self, text: &str) -> Result<(), TreeBuilderError>
        requires some { 0 < length text.now }
        requires all { AllOf Space text.now }
        ensures parser { OnOk result (self.new ≡ on_parser (acted_all InsertInBody text.now) self.old) }
        ensures kinds { OnOk result (list_all is_formatting_element (to_reopen self.old.parser.page.opened self.old.parser.formatting) ≡ true) }
    {
        self.reopen_lost()?;
        self.insert_text(text)
    }

    // The same of other characters, which keep framesets out.
    fn insert_others(&mut self, text: &str) -> Result<(), TreeBuilderError>
        requires some { 0 < length text.now }
        requires all { AllOf Other text.now }
        ensures parser { OnOk result (self.new ≡ on_parser (acted_all InsertInBody text.now) self.old) }
        ensures kinds { OnOk result (list_all is_formatting_element (to_reopen self.old.parser.page.opened self.old.parser.formatting) ≡ true) }
    {
        self.reopen_lost()?;
        self.insert_text(text)?;
        self.set_frameset_not_ok();
        Ok(())
    }

    // U+0000 is ignored.
    fn refuse_nulls(&mut self, text: &str) -> Result<(), TreeBuilderError>
        requires { AllOf Null text.now }
        ensures { OnOk result (self.new ≡ on_parser (acted_all InsertInBody text.now) self.old) }
    {
        self.refuse_text(text)
    }

    // "In body": a run of a class.
    fn insert_text_in_body(&mut self, class: TextClass, text: &str) -> Result<(), TreeBuilderError>
        requires some { 0 < length text.now }
        requires all { AllOf class text.now }
        ensures parser { OnOk result (self.new ≡ on_parser (acted_all InsertInBody text.now) self.old) }
        ensures kinds { OnOk result (reopens_formatting class self.old.parser ≡ true) }
    {
        match class {
            TextClass::Null => self.refuse_nulls(text),
            TextClass::Space => self.insert_spaces(text),
            TextClass::Other => self.insert_others(text),
        }
    }

    // "In table", U+0000: it is a parse error twice.
    fn foster_null(&mut self) -> Result<(), TreeBuilderError>
        ensures { OnOk result (self.new ≡ on_parser refused_twice self.old) }
    {
        self.unexpected()?;
        self.unexpected()?;
        self.disable_fostering();
        Ok(())
    }

    // The same, so many times.
    #[tactic(auto, unfolding(crate::specs::Characters::repeated))]
    fn foster_null_times(&mut self, count: usize) -> Result<(), TreeBuilderError>
        ensures { OnOk result (self.new ≡ on_parser (repeated refused_twice count) self.old) }
    {
        for _ in 0..count {
            self.foster_null()?;
        }
        Ok(())
    }

    // What is reconstructed before a fostered text.
    fn reconstruct_fostered(&mut self) -> Result<(), TreeBuilderError>
        ensures parser { OnOk result (self.new ≡ on_parser before_fostered self.old) }
        ensures kinds { OnOk result (list_all is_formatting_element (to_reopen self.old.parser.page.opened self.old.parser.formatting) ≡ true) }
    {
        self.begin_fostering()?;
        self.reopen_lost()
    }

    // Puts a text with a parse error before each of its bytes but the first.
    fn insert_parted_text(&mut self, text: &str) -> Result<(), TreeBuilderError>
        ensures { OnOk result (self.new ≡ on_parser (parted_text text.now) self.old) }
    {
        let place = self.place_in(0)?;
        self.editor
            .put_parted_text(Mistake::UnexpectedToken, place, text)
    }

    // "In table": a run of U+0000.
    fn foster_nulls(&mut self, text: &str) -> Result<(), TreeBuilderError>
        requires { AllOf Null text.now }
        ensures { OnOk result (self.new ≡ on_parser (acted_all Foster text.now) self.old) }
    {
        self.foster_null_times(text.len())
    }

    // White space.
    fn foster_spaces(&mut self, text: &str) -> Result<(), TreeBuilderError>
        requires some { 0 < length text.now }
        requires all { AllOf Space text.now }
        ensures parser { OnOk result (self.new ≡ on_parser (acted_all Foster text.now) self.old) }
        ensures kinds { OnOk result (list_all is_formatting_element (to_reopen self.old.parser.page.opened self.old.parser.formatting) ≡ true) }
    {
        self.reconstruct_fostered()?;
        self.insert_parted_text(text)?;
        self.disable_fostering();
        Ok(())
    }

    // Other characters.
    fn foster_others(&mut self, text: &str) -> Result<(), TreeBuilderError>
        requires some { 0 < length text.now }
        requires all { AllOf Other text.now }
        ensures parser { OnOk result (self.new ≡ on_parser (acted_all Foster text.now) self.old) }
        ensures kinds { OnOk result (list_all is_formatting_element (to_reopen self.old.parser.page.opened self.old.parser.formatting) ≡ true) }
    {
        self.reconstruct_fostered()?;
        self.insert_parted_text(text)?;
        self.disable_fostering();
        self.set_frameset_not_ok();
        Ok(())
    }

    /// "In table", "anything else": each character is a parse error, and is inserted with foster parenting.
    pub(crate) fn foster_text(
        &mut self,
        class: TextClass,
        text: &str,
    ) -> Result<(), TreeBuilderError>
        requires some { 0 < length text.now }
        requires all { AllOf class text.now }
        ensures parser { OnOk result (self.new ≡ on_parser (acted_all Foster text.now) self.old) }
        ensures kinds { OnOk result (reopens_formatting class self.old.parser ≡ true) }
    {
        match class {
            TextClass::Null => self.foster_nulls(text),
            TextClass::Space => self.foster_spaces(text),
            TextClass::Other => self.foster_others(text),
        }
    }

    // Does with a run what a row does with each of its characters.
    pub(crate) fn act(
        &mut self,
        action: TextAction,
        class: TextClass,
        text: &str,
    ) -> Result<(), TreeBuilderError>
        requires some { 0 < length text.now }
        requires all { AllOf class text.now }
        ensures parser { OnOk result (self.new ≡ on_parser (acted_all action text.now) self.old) }
        ensures kinds { OnOk result (is_reopening action ≡ true → reopens_formatting class self.old.parser ≡ true) }
    {
        match action {
            TextAction::Ignore | TextAction::Reprocess => Ok(()),
            TextAction::Refuse => self.refuse_text(text),
            TextAction::Insert => self.insert_all(text),
            TextAction::InsertInBody => self.insert_text_in_body(class, text),
            TextAction::Collect => self.collect_text(text),
            TextAction::Foster => self.foster_text(class, text),
            TextAction::Replace => self.replace_text(text),
            TextAction::InsertForeign => self.insert_foreign_text(text),
        }
    }
}
