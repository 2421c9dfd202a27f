//! End tags, comments, doctypes and the end: each is processed until a row is done with it.
ghost use Rattle.std.specs.Prelude.{◌≡◌, IfOk, OnOk};
ghost use Rattle.html5ever_interface.specs.Token.{doctype_of};
ghost use Rattle.tree_construction.specs.Construction.{dispatched, enough, process, step};
ghost use Rattle.tree_construction.specs.Parser.{Again};
ghost use Rattle.tree_construction.specs.Tokens.Token.{Doctype as DoctypeToken, EndTag, Comment, EndOfFile};
ghost use Rattle.tree_names.specs.ElementNames.{name_bytes};
ghost use Rattle.tree_builder.specs.Built.{followed, on_parser};
ghost use Rattle.tree_builder.specs.Taking.{after_turn, other_token, unfostered_if};

use crate::builder::Builder;
use crate::tag::Step;
use html5ever_interface::interface::token::Doctype;
use std::alloc::Allocator;
use tree_names::name::ElementName;
use tree_sink::attributes::TagAttributes;
use tree_sink::error::TreeBuilderError;
use tree_sink::sink::TreeSink;

/// A token that is neither a start tag nor a character.
#[derive(Drop)]
pub enum OtherToken<'t, A: Allocator> {
    EndTag(&'t ElementName<A>),
    Comment(&'t str),
    Doctype(&'t Doctype<A>),
    EndOfFile,
}

impl<S: TreeSink<T> + Drop, T: TagAttributes, A: Allocator + Copy> Builder<S, T, A> {
    // How often a token is processed at most.
    pub(crate) fn turns(&self) -> u128
        ensures { result ≡ enough self.now.parser }
    {
        8 + self.template_modes.len() as u128
    }

    // "Disable foster parenting", if it was enabled for the token.
    pub(crate) fn stop_fostering(&mut self, fostered: bool)
        ensures { self.new ≡ on_parser (unfostered_if fostered) self.old }
    {
        if fostered {
            self.disable_fostering();
        }
    }

    // One row.
    fn dispatch_other(&mut self, token: &OtherToken<'_, A>) -> Result<Step, TreeBuilderError>
        ensures parser { IfOk result (λ step. (again : Again) → followed again step self.new.parser (other_token token.now) ≡ dispatched again (other_token token.now) self.old.parser) }
        ensures telling { OnOk result (self.new.telling ≡ self.old.telling) }
    {
        match token {
            OtherToken::EndTag(name) => self.dispatch_end(name),
            OtherToken::Comment(text) => self.dispatch_comment(text),
            OtherToken::Doctype(doctype) => self.dispatch_doctype(doctype),
            OtherToken::EndOfFile => self.end_of_file_in_mode(),
        }
    }

    // What a row leaves to do: nothing, or to process the token again, and whether foster parenting is disabled then.
    #[tactic(auto, using(crate::proofs::Processing::other_as_image))]
    fn other_turn_by(
        &mut self,
        step: Step,
        token: &OtherToken<'_, A>,
        fostered: bool,
    ) -> Option<bool>
        ensures parser { (again : Again) → after_turn again result self.new.parser (other_token token.now) ≡ unfostered_if fostered (followed again step self.old.parser (other_token token.now)) }
        ensures telling { self.new.telling ≡ self.old.telling }
    {
        match step {
            Step::Done => {
                self.stop_fostering(fostered);
                None
            }
            Step::Again | Step::AsImage => Some(fostered),
            Step::FosteredAgain | Step::FosteredAsImage => Some(true),
        }
    }

    // One row, and what it leaves to do.
    fn other_turn(
        &mut self,
        token: &OtherToken<'_, A>,
        fostered: bool,
    ) -> Result<Option<bool>, TreeBuilderError>
        ensures parser { IfOk result (λ left. (again : Again) → after_turn again left self.new.parser (other_token token.now) ≡ unfostered_if fostered (dispatched again (other_token token.now) self.old.parser)) }
        ensures telling { OnOk result (self.new.telling ≡ self.old.telling) }
    {
        let step = self.dispatch_other(token)?;
        Ok(self.other_turn_by(step, token, fostered))
    }

    // Processes the token.
    fn process_other(&mut self, token: &OtherToken<'_, A>) -> Result<(), TreeBuilderError>
        ensures { OnOk result (self.new ≡ on_parser (λ p. process (enough p) (other_token token.now) p) self.old) }
    {
        let mut fostered = false;
        for _ in 0..self.turns() {
            match self.other_turn(token, fostered)? {
                None => return Ok(()),
                Some(more) => fostered = more,
            }
        }
        self.stop_fostering(fostered);
        Ok(())
    }

    /// A token that is neither a start tag nor a character.
    pub fn take_other(&mut self, token: &OtherToken<'_, A>) -> Result<(), TreeBuilderError>
        ensures { OnOk result (self.new ≡ on_parser (step (other_token token.now)) self.old) }
    {
        self.begin_token();
        self.process_other(token)
    }

    /// An end tag.
    pub fn take_end_tag(&mut self, name: &ElementName<A>) -> Result<(), TreeBuilderError>
        ensures { OnOk result (self.new ≡ on_parser (step (EndTag (name_bytes name.now))) self.old) }
    {
        self.take_other(&OtherToken::EndTag(name))
    }

    /// A comment.
    pub fn take_comment(&mut self, text: &str) -> Result<(), TreeBuilderError>
        ensures { OnOk result (self.new ≡ on_parser (step (Comment text.now)) self.old) }
    {
        self.take_other(&OtherToken::Comment(text))
    }

    /// A doctype.
    pub fn take_doctype(&mut self, doctype: &Doctype<A>) -> Result<(), TreeBuilderError>
        ensures { OnOk result (self.new ≡ on_parser (step (DoctypeToken (doctype_of doctype.now))) self.old) }
    {
        self.take_other(&OtherToken::Doctype(doctype))
    }

    /// The end of the file.
    pub fn take_end_of_file(&mut self) -> Result<(), TreeBuilderError>
        ensures { OnOk result (self.new ≡ on_parser (step EndOfFile) self.old) }
    {
        self.take_other(&OtherToken::EndOfFile)
    }
}
