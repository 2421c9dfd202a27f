//! "The rules for parsing tokens in HTML content", "in template": tags. Its end is that of "in body".
ghost use Rattle.std.specs.Prelude.{◌≡◌, ◌∷◌, IfOk, OnOk};
ghost use Rattle.tree_construction.specs.AfterBody.{template_end, template_start};
ghost use Rattle.tree_construction.specs.BeforeBody.{without_template_mode};
ghost use Rattle.tree_construction.specs.Parser.{Again};
ghost use Rattle.tree_construction.specs.Tokens.Token.{StartTag as StartToken};
ghost use Rattle.tree_builder.specs.Built.{followed, on_parser, tag_of};

use crate::builder::Builder;
use crate::tag::{StartTag, Step};
use std::alloc::Allocator;
use tree_construction::kinds::Kind;
use tree_construction::modes::Mode;
use tree_sink::attributes::TagAttributes;
use tree_sink::error::TreeBuilderError;
use tree_sink::sink::TreeSink;

impl<S: TreeSink<T> + Drop, T: TagAttributes, A: Allocator + Copy> Builder<S, T, A> {
    // "Pop the current template insertion mode off the stack of template insertion modes", push another, and switch to it.
    fn change_template_mode(&mut self, mode: Mode) -> Result<(), TreeBuilderError>
        ensures { OnOk result (self.new ≡ on_parser (λ p. record p {
          template_modes = mode ∷ without_template_mode p.template_modes;
          mode = mode;
        }) self.old) }
    {
        self.pop_template_mode();
        self.template_modes.push(mode)?;
        self.mode = mode;
        Ok(())
    }

    /// "In template": a start tag.
    pub fn template_start(
        &mut self,
        kind: Kind,
        tag: &StartTag<T, A>,
    ) -> Result<Step, TreeBuilderError>
        ensures parser { IfOk result (λ step. (again : Again) → followed again step self.new.parser (StartToken (tag_of T.said tag.now)) ≡ template_start again kind (tag_of T.said tag.now) self.old.parser) }
        ensures telling { OnOk result (self.new.telling ≡ self.old.telling) }
    {
        match kind {
            Kind::Base
            | Kind::Link
            | Kind::Meta
            | Kind::Noframes
            | Kind::Script
            | Kind::Style
            | Kind::Template
            | Kind::Title => {
                self.start_in_head(kind, tag)?;
                return Ok(Step::Done);
            }
            Kind::Caption | Kind::ColumnGroup | Kind::TableBody => self.change_template_mode(
                Mode::InTable,
            )?,
            Kind::Column => self.change_template_mode(Mode::InColumnGroup)?,
            Kind::TableRow => self.change_template_mode(Mode::InTableBody)?,
            Kind::Cell => self.change_template_mode(Mode::InRow)?,
            _ => self.change_template_mode(Mode::InBody)?,
        }
        Ok(Step::Again)
    }

    /// "In template": an end tag.
    pub fn template_end(&mut self, kind: Kind) -> Result<(), TreeBuilderError>
        ensures { OnOk result (self.new ≡ on_parser (template_end kind) self.old) }
    {
        match kind {
            Kind::Template => self.end_template(),
            _ => self.unexpected(),
        }
    }
}
