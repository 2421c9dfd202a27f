//! Start tags: each is processed until a row is done with it.
ghost use Rattle.std.specs.Prelude.{◌≡◌, ◌&&◌, not, IfOk, OnOk, if◌then◌else◌};
ghost use Rattle.tree_construction.specs.Parser.{mistaken};
ghost use Rattle.tree_construction.specs.declared.mistakes.Mistake.TheVariants.{TrailingSolidus};
ghost use Rattle.tree_construction.specs.Construction.{dispatched, enough, process, step};
ghost use Rattle.tree_construction.specs.Parser.{Again};
ghost use Rattle.tree_construction.specs.Tokens.Token.{StartTag as StartToken};
ghost use Rattle.tree_builder.specs.Built.{followed, on_parser, tag_of};
ghost use Rattle.tree_builder.specs.Taking.{after_turn, unfostered_if};

use crate::builder::Builder;
use crate::tag::{StartTag, Step};
use std::alloc::Allocator;
use tree_construction::mistakes::Mistake;
use tree_names::known::KnownName;
use tree_names::name::ElementName;
use tree_sink::attributes::TagAttributes;
use tree_sink::error::TreeBuilderError;
use tree_sink::sink::TreeSink;

impl<S: TreeSink<T> + Drop, T: TagAttributes, A: Allocator + Copy> Builder<S, T, A> {
    // What a row of a start tag leaves to do: nothing, or to process the tag again, which may have another name then.
    fn start_turn_by(
        &mut self,
        step: Step,
        tag: &mut StartTag<T, A>,
        fostered: bool,
    ) -> Option<bool>
        ensures parser { (again : Again) → after_turn again result self.new.parser (StartToken (tag_of T.said tag.new)) ≡ unfostered_if fostered (followed again step self.old.parser (StartToken (tag_of T.said tag.old))) }
        ensures telling { self.new.telling ≡ self.old.telling }
        ensures closing { tag.new.self_closing ≡ tag.old.self_closing }
    {
        match step {
            Step::Done => {
                self.stop_fostering(fostered);
                None
            }
            Step::Again => Some(fostered),
            Step::AsImage => {
                tag.name = ElementName::Known(KnownName::IMG);
                Some(fostered)
            }
            Step::FosteredAgain => Some(true),
            Step::FosteredAsImage => {
                tag.name = ElementName::Known(KnownName::IMG);
                Some(true)
            }
        }
    }

    // One row.
    fn start_turn(
        &mut self,
        tag: &mut StartTag<T, A>,
        fostered: bool,
    ) -> Result<Option<bool>, TreeBuilderError>
        ensures parser { IfOk result (λ left. (again : Again) → after_turn again left self.new.parser (StartToken (tag_of T.said tag.new)) ≡ unfostered_if fostered (dispatched again (StartToken (tag_of T.said tag.old)) self.old.parser)) }
        ensures telling { OnOk result (self.new.telling ≡ self.old.telling) }
        ensures closing { OnOk result (tag.new.self_closing ≡ tag.old.self_closing) }
    {
        let step = self.dispatch_start(tag)?;
        Ok(self.start_turn_by(step, tag, fostered))
    }

    // Processes the tag.
    fn process_start(&mut self, tag: &mut StartTag<T, A>) -> Result<(), TreeBuilderError>
        ensures parser { OnOk result (self.new ≡ on_parser (λ p. process (enough p) (StartToken (tag_of T.said tag.old)) p) self.old) }
        ensures closing { OnOk result (tag.new.self_closing ≡ tag.old.self_closing) }
    {
        let mut fostered = false;
        for _ in 0..self.turns() {
            match self.start_turn(tag, fostered)? {
                None => return Ok(()),
                Some(more) => fostered = more,
            }
        }
        self.stop_fostering(fostered);
        Ok(())
    }

    // "When a start tag token is emitted with its self-closing flag set, if the flag is not acknowledged .., that is a parse
    // error".
    fn expect_acknowledged(&mut self, self_closing: bool) -> Result<(), TreeBuilderError>
        ensures { OnOk result (self.new ≡ on_parser (λ p. if self_closing && not p.acknowledged then mistaken TrailingSolidus p else p) self.old) }
    {
        if self_closing && !self.acknowledged {
            return self.mistaken(Mistake::TrailingSolidus);
        }
        Ok(())
    }

    /// A start tag.
    pub fn take_start_tag(&mut self, tag: StartTag<T, A>) -> Result<(), TreeBuilderError>
        ensures { OnOk result (self.new ≡ on_parser (step (StartToken (tag_of T.said tag))) self.old) }
    {
        let mut tag = tag;
        let self_closing = tag.self_closing;
        self.begin_token();
        self.process_start(&mut tag)?;
        self.expect_acknowledged(self_closing)
    }
}
