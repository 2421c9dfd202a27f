//! "The rules for parsing tokens in HTML content": the row of the current insertion mode, for each kind of token.
ghost use Rattle.std.specs.Prelude.{◌≡◌, IfOk, OnOk};
ghost use Rattle.html5ever_interface.specs.Token.{doctype_of};
ghost use Rattle.tree_construction.specs.Construction.{in_current_mode};
ghost use Rattle.tree_construction.specs.Parser.{Again};
ghost use Rattle.tree_construction.specs.Tokens.Token.{Doctype as DoctypeToken, StartTag as StartToken, EndTag, Comment, EndOfFile};
ghost use Rattle.tree_names.specs.ElementNames.{name_bytes};
ghost use Rattle.tree_builder.specs.Built.{followed, tag_of};

use crate::builder::Builder;
use crate::tag::{StartTag, Step};
use html5ever_interface::interface::token::Doctype;
use std::alloc::Allocator;
use tree_construction::modes::Mode;
use tree_names::name::ElementName;
use tree_sink::attributes::TagAttributes;
use tree_sink::error::TreeBuilderError;
use tree_sink::sink::TreeSink;

impl<S: TreeSink<T> + Drop, T: TagAttributes, A: Allocator + Copy> Builder<S, T, A> {
    /// A comment.
    pub(crate) fn comment_in_mode(&mut self, text: &str) -> Result<Step, TreeBuilderError>
        ensures parser { IfOk result (λ step. (again : Again) → followed again step self.new.parser (Comment text.now) ≡ in_current_mode again (Comment text.now) self.old.parser) }
        ensures telling { OnOk result (self.new.telling ≡ self.old.telling) }
    {
        match self.mode {
            Mode::Initial | Mode::BeforeHtml | Mode::AfterAfterBody | Mode::AfterAfterFrameset => {
                self.insert_comment_in_document(text)?
            }
            Mode::AfterBody => self.insert_comment_in_root(text)?,
            Mode::Text => {}
            Mode::InTableText => return self.table_text_other(),
            _ => self.insert_comment(text)?,
        }
        Ok(Step::Done)
    }

    /// A doctype.
    pub(crate) fn doctype_in_mode(&mut self, doctype: &Doctype<A>) -> Result<Step, TreeBuilderError>
        ensures parser { IfOk result (λ step. (again : Again) → followed again step self.new.parser (DoctypeToken (doctype_of doctype.now)) ≡ in_current_mode again (DoctypeToken (doctype_of doctype.now)) self.old.parser) }
        ensures telling { OnOk result (self.new.telling ≡ self.old.telling) }
    {
        match self.mode {
            Mode::Initial => self.initial_doctype(doctype)?,
            Mode::Text => {}
            Mode::InTableText => return self.table_text_other(),
            _ => self.unexpected()?,
        }
        Ok(Step::Done)
    }

    /// A start tag.
    pub(crate) fn start_in_mode(&mut self, tag: &StartTag<T, A>) -> Result<Step, TreeBuilderError>
        ensures parser { IfOk result (λ step. (again : Again) → followed again step self.new.parser (StartToken (tag_of T.said tag.now)) ≡ in_current_mode again (StartToken (tag_of T.said tag.now)) self.old.parser) }
        ensures telling { OnOk result (self.new.telling ≡ self.old.telling) }
    {
        let kind = tag.kind();
        match self.mode {
            Mode::Initial => return self.initial_other(),
            Mode::BeforeHtml => return self.before_html_start(tag),
            Mode::BeforeHead => return self.before_head_start(tag),
            Mode::InHead => return self.in_head_start(tag),
            Mode::InHeadNoscript => return self.noscript_start(tag),
            Mode::AfterHead => return self.after_head_start(tag),
            Mode::InBody => return self.start_in_body(kind, tag),
            Mode::Text => {}
            Mode::InTable => return self.table_start(kind, tag),
            Mode::InTableText => return self.table_text_other(),
            Mode::InCaption => return self.caption_start(tag),
            Mode::InColumnGroup => return self.column_group_start(kind, tag),
            Mode::InTableBody => return self.table_body_start(kind, tag),
            Mode::InRow => return self.row_start(kind, tag),
            Mode::InCell => return self.cell_start(tag),
            Mode::InTemplate => return self.template_start(kind, tag),
            Mode::AfterBody | Mode::AfterAfterBody => return self.after_body_start(kind, tag),
            Mode::InFrameset => self.frameset_start(kind, tag)?,
            Mode::AfterFrameset | Mode::AfterAfterFrameset => {
                self.after_frameset_start(kind, tag)?
            }
        }
        Ok(Step::Done)
    }

    /// An end tag.
    pub(crate) fn end_in_mode(&mut self, name: &ElementName<A>) -> Result<Step, TreeBuilderError>
        ensures parser { IfOk result (λ step. (again : Again) → followed again step self.new.parser (EndTag (name_bytes name.now)) ≡ in_current_mode again (EndTag (name_bytes name.now)) self.old.parser) }
        ensures telling { OnOk result (self.new.telling ≡ self.old.telling) }
    {
        let kind = name.kind();
        match self.mode {
            Mode::Initial => return self.initial_other(),
            Mode::BeforeHtml => return self.before_html_end(name),
            Mode::BeforeHead => return self.before_head_end(name),
            Mode::InHead => return self.in_head_end(name),
            Mode::InHeadNoscript => return self.noscript_end(name),
            Mode::AfterHead => return self.after_head_end(name),
            Mode::InBody => return self.end_in_body(kind, name),
            Mode::Text => self.text_end(kind)?,
            Mode::InTable => return self.table_end(kind, name),
            Mode::InTableText => return self.table_text_other(),
            Mode::InCaption => return self.caption_end(kind, name),
            Mode::InColumnGroup => return self.column_group_end(kind),
            Mode::InTableBody => return self.table_body_end(kind, name),
            Mode::InRow => return self.row_end(kind, name),
            Mode::InCell => return self.cell_end(kind, name),
            Mode::InTemplate => self.template_end(kind)?,
            Mode::AfterBody => return self.after_body_end(kind, name),
            Mode::AfterAfterBody => return self.in_body_again(),
            Mode::InFrameset => self.frameset_end(kind)?,
            Mode::AfterFrameset => self.after_frameset_end(kind)?,
            Mode::AfterAfterFrameset => self.unexpected()?,
        }
        Ok(Step::Done)
    }

    /// The end of the file.
    pub(crate) fn end_of_file_in_mode(&mut self) -> Result<Step, TreeBuilderError>
        ensures parser { IfOk result (λ step. (again : Again) → followed again step self.new.parser EndOfFile ≡ in_current_mode again EndOfFile self.old.parser) }
        ensures telling { OnOk result (self.new.telling ≡ self.old.telling) }
    {
        match self.mode {
            Mode::Initial => return self.initial_other(),
            Mode::BeforeHtml => return self.before_html_other(),
            Mode::BeforeHead => return self.before_head_other(),
            Mode::InHead => return self.in_head_other(),
            Mode::InHeadNoscript => return self.noscript_other(),
            Mode::AfterHead => return self.after_head_other(),
            Mode::Text => return self.text_end_of_file(),
            Mode::InTableText => return self.table_text_other(),
            Mode::InTemplate => return self.end_of_file_in_template(),
            Mode::InFrameset => self.frameset_end_of_file()?,
            Mode::AfterBody
            | Mode::AfterAfterBody
            | Mode::AfterFrameset
            | Mode::AfterAfterFrameset => { self.stop_parsing()? }
            _ => return self.end_of_file_in_body(),
        }
        Ok(Step::Done)
    }
}
