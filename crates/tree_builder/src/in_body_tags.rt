//! "The rules for parsing tokens in HTML content", "in body": start tags and end tags.
ghost use Rattle.std.specs.Prelude.{◌≡◌, IfOk, OnOk};
ghost use Rattle.tree_construction.specs.InBody.{end_in_body, start_in_body};
ghost use Rattle.tree_construction.specs.Parser.{Again};
ghost use Rattle.tree_construction.specs.Tokens.Token.{StartTag as StartToken, EndTag};
ghost use Rattle.tree_names.specs.ElementNames.{name_bytes};
ghost use Rattle.tree_builder.specs.Built.{followed, tag_of};

use crate::builder::Builder;
use crate::tag::{StartTag, Step};
use html5ever_interface::states::RawKind;
use std::alloc::Allocator;
use tree_construction::kinds::{Kind, Namespace};
use tree_lists::wanted::{KindSet, Wanted};
use tree_names::name::ElementName;
use tree_sink::attributes::TagAttributes;
use tree_sink::error::TreeBuilderError;
use tree_sink::sink::TreeSink;

impl<S: TreeSink<T> + Drop, T: TagAttributes, A: Allocator + Copy> Builder<S, T, A> {
    /// "In body": a start tag.
    pub fn start_in_body(
        &mut self,
        kind: Kind,
        tag: &StartTag<T, A>,
    ) -> Result<Step, TreeBuilderError>
        ensures parser { IfOk result (λ step. (again : Again) → followed again step self.new.parser (StartToken (tag_of T.said tag.now)) ≡ start_in_body again kind (tag_of T.said tag.now) self.old.parser) }
        ensures telling { OnOk result (self.new.telling ≡ self.old.telling) }
    {
        match kind {
            Kind::HtmlRoot => self.start_html(tag)?,
            Kind::Base
            | Kind::Link
            | Kind::Meta
            | Kind::Noframes
            | Kind::Script
            | Kind::Style
            | Kind::Template
            | Kind::Title => self.start_in_head(kind, tag)?,
            Kind::Body => self.start_body(tag)?,
            Kind::Frameset => self.start_frameset(tag)?,
            Kind::Paragraph
            | Kind::Address
            | Kind::Division
            | Kind::BreakoutBlock
            | Kind::Block
            | Kind::Dialog
            | Kind::Fieldset
            | Kind::ListBlock => self.start_block(tag)?,
            Kind::Heading => self.start_heading(tag)?,
            Kind::Preformatted => self.start_preformatted(tag)?,
            Kind::Form => self.start_form(tag)?,
            Kind::ListItem => self.start_item(KindSet::ListItem, tag)?,
            Kind::Description => self.start_item(KindSet::Description, tag)?,
            Kind::Plaintext => self.start_plaintext(tag)?,
            Kind::Button => self.start_button(tag)?,
            Kind::Anchor => self.start_anchor(tag)?,
            Kind::Formatting => self.start_formatting(tag)?,
            Kind::Font => self.start_font(tag)?,
            Kind::NoBreak => self.start_no_break(tag)?,
            Kind::Applet | Kind::Object => self.start_marked(tag)?,
            Kind::Table => self.start_table(tag)?,
            Kind::Void | Kind::LineBreak | Kind::Embed | Kind::Image => self.start_void(tag)?,
            Kind::Input => self.start_input(tag)?,
            Kind::Parameter => self.insert_void(tag)?,
            Kind::Rule => self.start_rule(tag)?,
            Kind::MisnamedImage => {
                self.unexpected()?;
                return Ok(Step::AsImage);
            }
            Kind::Textarea => self.start_textarea(tag)?,
            Kind::Xmp => self.start_xmp(tag)?,
            Kind::Iframe => self.start_iframe(tag)?,
            Kind::Noembed => self.insert_with_text(RawKind::Rawtext, tag)?,
            Kind::Noscript => self.start_noscript(tag)?,
            Kind::Select => self.start_select(tag)?,
            Kind::SelectOption => self.start_option(tag)?,
            Kind::OptionGroup => self.start_option_group(tag)?,
            Kind::RubyBase | Kind::RubyContainer => self.start_ruby_base(tag)?,
            Kind::RubyText => self.start_ruby_text(tag)?,
            Kind::MathRoot => self.start_foreign(Namespace::MathMl, tag)?,
            Kind::SvgRoot => self.start_foreign(Namespace::Svg, tag)?,
            Kind::Caption
            | Kind::Column
            | Kind::ColumnGroup
            | Kind::Frame
            | Kind::Head
            | Kind::TableBody
            | Kind::Cell
            | Kind::TableRow => self.unexpected()?,
            _ => self.any_other_start_tag(tag)?,
        }
        Ok(Step::Done)
    }

    /// "In body": an end tag.
    pub fn end_in_body(
        &mut self,
        kind: Kind,
        name: &ElementName<A>,
    ) -> Result<Step, TreeBuilderError>
        ensures parser { IfOk result (λ step. (again : Again) → followed again step self.new.parser (EndTag (name_bytes name.now)) ≡ end_in_body again kind (name_bytes name.now) self.old.parser) }
        ensures telling { OnOk result (self.new.telling ≡ self.old.telling) }
    {
        match kind {
            Kind::Template => self.end_template()?,
            Kind::Body => self.end_body()?,
            Kind::HtmlRoot => return self.end_html(),
            Kind::Address
            | Kind::Division
            | Kind::BreakoutBlock
            | Kind::Block
            | Kind::Dialog
            | Kind::Fieldset
            | Kind::ListBlock
            | Kind::Preformatted
            | Kind::Button
            | Kind::Select => self.end_block(&Wanted::Named(name))?,
            Kind::Form => self.end_form()?,
            Kind::Paragraph => self.end_paragraph()?,
            Kind::ListItem => self.end_list_item()?,
            Kind::Description => self.end_description(name)?,
            Kind::Heading => self.end_heading(name)?,
            Kind::Anchor | Kind::Formatting | Kind::Font | Kind::NoBreak => self.adoption_agency(
                name,
            )?,
            Kind::Applet | Kind::Object => self.end_marked(name)?,
            Kind::LineBreak => self.end_line_break()?,
            _ => self.any_other_end_tag(name)?,
        }
        Ok(Step::Done)
    }
}
