//! "The rules for parsing tokens in HTML content", "after body" and "after after body": tags.
ghost use Rattle.std.specs.Prelude.{◌≡◌, IfOk, OnOk, if◌then◌else◌};
ghost use Rattle.tree_construction.specs.AfterBody.{after_body_end, after_body_start, in_body_again};
ghost use Rattle.tree_construction.specs.Parser.{Again, in_mode, is_fragment, unexpected};
ghost use Rattle.tree_construction.specs.Tokens.{Token};
ghost use Rattle.tree_construction.specs.Tokens.Token.{StartTag as StartToken, EndTag};
ghost use Rattle.tree_construction.specs.declared.modes.Mode.TheVariants.{AfterAfterBody, InBody};
ghost use Rattle.tree_names.specs.ElementNames.{name_bytes};
ghost use Rattle.tree_builder.specs.Built.{followed, on_parser, tag_of};

use crate::builder::Builder;
use crate::tag::{StartTag, Step};
use std::alloc::Allocator;
use tree_construction::kinds::Kind;
use tree_construction::modes::Mode;
use tree_names::name::ElementName;
use tree_sink::attributes::TagAttributes;
use tree_sink::error::TreeBuilderError;
use tree_sink::sink::TreeSink;

impl<S: TreeSink<T> + Drop, T: TagAttributes, A: Allocator + Copy> Builder<S, T, A> {
    // "Parse error. Switch the insertion mode to "in body"".
    pub(crate) fn leave_after_body(&mut self) -> Result<(), TreeBuilderError>
        ensures { OnOk result (self.new ≡ on_parser (λ p. in_mode InBody (unexpected p)) self.old) }
    {
        self.unexpected()?;
        self.set_mode(Mode::InBody);
        Ok(())
    }

    /// "After body" and "after after body": anything else. The token is reprocessed "in body".
    pub fn in_body_again(&mut self) -> Result<Step, TreeBuilderError>
        ensures parser { IfOk result (λ step. (again : Again) (token : Token)
            → followed again step self.new.parser token ≡ in_body_again again token self.old.parser) }
        ensures telling { OnOk result (self.new.telling ≡ self.old.telling) }
    {
        self.leave_after_body()?;
        Ok(Step::Again)
    }

    /// "After body" and "after after body": a start tag.
    pub fn after_body_start(
        &mut self,
        kind: Kind,
        tag: &StartTag<T, A>,
    ) -> Result<Step, TreeBuilderError>
        ensures parser { IfOk result (λ step. (again : Again) → followed again step self.new.parser (StartToken (tag_of T.said tag.now)) ≡ after_body_start again kind (tag_of T.said tag.now) self.old.parser) }
        ensures telling { OnOk result (self.new.telling ≡ self.old.telling) }
    {
        match kind {
            Kind::HtmlRoot => self.start_html(tag)?,
            _ => return self.in_body_again(),
        }
        Ok(Step::Done)
    }

    // The `html` element is at its end. In the fragment case the end tag is a parse error.
    fn end_root(&mut self) -> Result<(), TreeBuilderError>
        ensures { OnOk result (self.new ≡ on_parser (λ p. if is_fragment p then unexpected p else in_mode AfterAfterBody p) self.old) }
    {
        if self.context.is_some() {
            return self.unexpected();
        }
        self.set_mode(Mode::AfterAfterBody);
        Ok(())
    }

    /// "After body": an end tag.
    pub fn after_body_end(
        &mut self,
        kind: Kind,
        name: &ElementName<A>,
    ) -> Result<Step, TreeBuilderError>
        ensures parser { IfOk result (λ step. (again : Again) → followed again step self.new.parser (EndTag (name_bytes name.now)) ≡ after_body_end again kind (name_bytes name.now) self.old.parser) }
        ensures telling { OnOk result (self.new.telling ≡ self.old.telling) }
    {
        match kind {
            Kind::HtmlRoot => self.end_root()?,
            _ => return self.in_body_again(),
        }
        Ok(Step::Done)
    }
}
