//! "The rules for parsing tokens in HTML content", "in table": tags.
ghost use Rattle.std.specs.Prelude.{◌≡◌, true, None, codes, IfOk, OnOk, if◌then◌else◌};
ghost use Rattle.tree_construction.specs.Formatting.{with_marker};
ghost use Rattle.tree_construction.specs.InBody.{is_hidden};
ghost use Rattle.tree_construction.specs.Names.{is_table, kind_of};
ghost use Rattle.tree_construction.specs.Page.{has_kind};
ghost use Rattle.tree_construction.specs.Parser.{Again, in_mode, in_table_scope, insert, insert_void, unexpected};
ghost use Rattle.tree_construction.specs.Tables.{form_in_table, is_ignored_in_table, start_form_in_table, table_end, table_other, table_start, to_table, without_table};
ghost use Rattle.tree_construction.specs.Tokens.{Token, bare_tag};
ghost use Rattle.tree_construction.specs.Tokens.Token.{StartTag as StartToken, EndTag};
ghost use Rattle.tree_construction.specs.declared.modes.Mode.TheVariants.{InCaption, InColumnGroup, InTableBody};
ghost use Rattle.tree_names.specs.ElementNames.{name_bytes};
ghost use Rattle.tree_builder.specs.Built.{followed, on_parser, tag_of, unfostered};
ghost use Rattle.tree_builder.specs.Characters.{fostering};

use crate::builder::Builder;
use crate::closing::PopTest;
use crate::in_body::is_hidden;
use crate::tag::{StartTag, Step};
use std::alloc::Allocator;
use tree_construction::kinds::Kind;
use tree_construction::modes::Mode;
use tree_lists::wanted::{KindSet, Scope, Wanted};
use tree_names::known::KnownName;
use tree_names::name::ElementName;
use tree_sink::attributes::TagAttributes;
use tree_sink::error::TreeBuilderError;
use tree_sink::sink::TreeSink;

impl<S: TreeSink<T> + Drop, T: TagAttributes, A: Allocator + Copy> Builder<S, T, A> {
    // ---- anything else, with foster parenting

    // "Enable foster parenting", after a parse error.
    pub(crate) fn begin_fostering(&mut self) -> Result<(), TreeBuilderError>
        ensures { OnOk result (self.new ≡ on_parser (λ p. fostering (unexpected p)) self.old) }
    {
        self.unexpected()?;
        self.fostering = true;
        Ok(())
    }

    // "Disable foster parenting". A token that is reprocessed first is reprocessed with it.
    pub(crate) fn end_fostering(&mut self, step: Step) -> Step
        ensures parser { (again : Again) (token : Token) → followed again result self.new.parser token ≡ unfostered (followed again step self.old.parser token) }
        ensures telling { self.new.telling ≡ self.old.telling }
    {
        match step {
            Step::Done => {
                self.disable_fostering();
                Step::Done
            }
            Step::Again | Step::FosteredAgain => Step::FosteredAgain,
            Step::AsImage | Step::FosteredAsImage => Step::FosteredAsImage,
        }
    }

    // A start tag by the rules of "in body", with foster parenting.
    fn start_fostered(&mut self, tag: &StartTag<T, A>) -> Result<Step, TreeBuilderError>
        ensures parser { IfOk result (λ step. (again : Again) → followed again step self.new.parser (StartToken (tag_of T.said tag.now)) ≡ table_other again (StartToken (tag_of T.said tag.now)) self.old.parser) }
        ensures telling { OnOk result (self.new.telling ≡ self.old.telling) }
    {
        self.begin_fostering()?;
        let step = self.start_in_body(tag.kind(), tag)?;
        Ok(self.end_fostering(step))
    }

    // An end tag by the rules of "in body", with foster parenting.
    fn end_fostered(&mut self, name: &ElementName<A>) -> Result<Step, TreeBuilderError>
        ensures parser { IfOk result (λ step. (again : Again) → followed again step self.new.parser (EndTag (name_bytes name.now)) ≡ table_other again (EndTag (name_bytes name.now)) self.old.parser) }
        ensures telling { OnOk result (self.new.telling ≡ self.old.telling) }
    {
        self.begin_fostering()?;
        let step = self.end_in_body(name.kind(), name)?;
        Ok(self.end_fostering(step))
    }

    // ---- start tags

    // "Clear the stack back to a table context".
    fn clear_to_table(&mut self) -> Result<(), TreeBuilderError>
        ensures { OnOk result (self.new ≡ on_parser to_table self.old) }
    {
        self.pop_while(&PopTest::OutsideTable)
    }

    // Pops a table, and resets the insertion mode.
    fn close_table(&mut self) -> Result<(), TreeBuilderError>
        ensures { OnOk result (self.new ≡ on_parser without_table self.old) }
    {
        self.pop_until(&Wanted::Of(KindSet::Table))?;
        self.reset_mode();
        Ok(())
    }

    // `caption`.
    fn start_caption(&mut self, tag: &StartTag<T, A>) -> Result<(), TreeBuilderError>
        ensures { OnOk result (self.new ≡ on_parser (λ p. in_mode InCaption (insert (tag_of T.said tag.now) (with_marker (to_table p)))) self.old) }
    {
        self.clear_to_table()?;
        self.push_marker()?;
        self.insert(tag)?;
        self.set_mode(Mode::InCaption);
        Ok(())
    }

    // `colgroup`.
    fn start_column_group(&mut self, tag: &StartTag<T, A>) -> Result<(), TreeBuilderError>
        ensures { OnOk result (self.new ≡ on_parser (λ p. in_mode InColumnGroup (insert (tag_of T.said tag.now) (to_table p))) self.old) }
    {
        self.clear_to_table()?;
        self.insert(tag)?;
        self.set_mode(Mode::InColumnGroup);
        Ok(())
    }

    // A `colgroup` that no tag opens.
    fn open_column_group(&mut self) -> Result<(), TreeBuilderError>
        ensures { OnOk result (self.new ≡ on_parser (λ p. in_mode InColumnGroup (insert (bare_tag (codes "colgroup")) (to_table p))) self.old) }
    {
        self.clear_to_table()?;
        self.insert_bare(KnownName::COLGROUP)?;
        self.set_mode(Mode::InColumnGroup);
        Ok(())
    }

    // `col`: reprocessed in a `colgroup`.
    fn imply_column_group(&mut self) -> Result<Step, TreeBuilderError>
        ensures parser { IfOk result (λ step. (again : Again) (token : Token)
            → followed again step self.new.parser token ≡ again (in_mode InColumnGroup (insert (bare_tag (codes "colgroup")) (to_table self.old.parser))) token) }
        ensures telling { OnOk result (self.new.telling ≡ self.old.telling) }
    {
        self.open_column_group()?;
        Ok(Step::Again)
    }

    // `tbody`, `tfoot`, `thead`.
    fn start_table_body(&mut self, tag: &StartTag<T, A>) -> Result<(), TreeBuilderError>
        ensures { OnOk result (self.new ≡ on_parser (λ p. in_mode InTableBody (insert (tag_of T.said tag.now) (to_table p))) self.old) }
    {
        self.clear_to_table()?;
        self.insert(tag)?;
        self.set_mode(Mode::InTableBody);
        Ok(())
    }

    // A `tbody` that no tag opens.
    fn open_table_body(&mut self) -> Result<(), TreeBuilderError>
        ensures { OnOk result (self.new ≡ on_parser (λ p. in_mode InTableBody (insert (bare_tag (codes "tbody")) (to_table p))) self.old) }
    {
        self.clear_to_table()?;
        self.insert_bare(KnownName::TBODY)?;
        self.set_mode(Mode::InTableBody);
        Ok(())
    }

    // `td`, `th`, `tr`: reprocessed in a `tbody`.
    fn imply_table_body(&mut self) -> Result<Step, TreeBuilderError>
        ensures parser { IfOk result (λ step. (again : Again) (token : Token)
            → followed again step self.new.parser token ≡ again (in_mode InTableBody (insert (bare_tag (codes "tbody")) (to_table self.old.parser))) token) }
        ensures telling { OnOk result (self.new.telling ≡ self.old.telling) }
    {
        self.open_table_body()?;
        Ok(Step::Again)
    }

    // `table`: it ends the table that is open.
    fn start_nested_table(&mut self) -> Result<Step, TreeBuilderError>
        ensures parser { IfOk result (λ step. (again : Again) (token : Token)
            → followed again step self.new.parser token ≡ (if in_table_scope (has_kind is_table) self.old.parser then again (without_table (unexpected self.old.parser)) token else unexpected self.old.parser)) }
        ensures telling { OnOk result (self.new.telling ≡ self.old.telling) }
    {
        if !self.has_in_scope(Scope::Table, &Wanted::Of(KindSet::Table)) {
            return self.ignore();
        }
        self.unexpected()?;
        self.close_table()?;
        Ok(Step::Again)
    }

    // A hidden `input`.
    fn insert_hidden_input(&mut self, tag: &StartTag<T, A>) -> Result<(), TreeBuilderError>
        ensures { OnOk result (self.new ≡ on_parser (λ p. insert_void (tag_of T.said tag.now) (unexpected p)) self.old) }
    {
        self.unexpected()?;
        self.insert_void(tag)
    }

    // `input`.
    fn start_input_in_table(&mut self, tag: &StartTag<T, A>) -> Result<Step, TreeBuilderError>
        ensures parser { IfOk result (λ step. (again : Again) → followed again step self.new.parser (StartToken (tag_of T.said tag.now)) ≡ (if is_hidden (tag_of T.said tag.now) then insert_void (tag_of T.said tag.now) (unexpected self.old.parser) else table_other again (StartToken (tag_of T.said tag.now)) self.old.parser)) }
        ensures telling { OnOk result (self.new.telling ≡ self.old.telling) }
    {
        if !is_hidden(&tag.attributes) {
            return self.start_fostered(tag);
        }
        self.insert_hidden_input(tag)?;
        Ok(Step::Done)
    }

    // Puts a form in that is popped at once, and notes it.
    fn insert_empty_form(&mut self, tag: &StartTag<T, A>) -> Result<(), TreeBuilderError>
        ensures { OnOk result (self.new ≡ on_parser (form_in_table None (tag_of T.said tag.now)) self.old) }
    {
        let handle = self.insert_element(
            Kind::Form,
            &ElementName::Known(KnownName::FORM),
            &tag.attributes,
        )?;
        self.form = Some(handle);
        self.pop()
    }

    // The same, where no form is noted yet.
    fn form_in_table(&mut self, tag: &StartTag<T, A>) -> Result<(), TreeBuilderError>
        ensures { OnOk result (self.new ≡ on_parser (λ p. form_in_table p.form (tag_of T.said tag.now) p) self.old) }
    {
        if self.form.is_some() {
            return Ok(());
        }
        self.insert_empty_form(tag)
    }

    // `form`.
    fn start_form_in_table(&mut self, tag: &StartTag<T, A>) -> Result<(), TreeBuilderError>
        ensures { OnOk result (self.new ≡ on_parser (start_form_in_table (tag_of T.said tag.now)) self.old) }
    {
        self.unexpected()?;
        if self.has_template() {
            return Ok(());
        }
        self.form_in_table(tag)
    }

    /// "In table": a start tag.
    pub fn table_start(
        &mut self,
        kind: Kind,
        tag: &StartTag<T, A>,
    ) -> Result<Step, TreeBuilderError>
        ensures parser { IfOk result (λ step. (again : Again) → followed again step self.new.parser (StartToken (tag_of T.said tag.now)) ≡ table_start again kind (tag_of T.said tag.now) self.old.parser) }
        ensures telling { OnOk result (self.new.telling ≡ self.old.telling) }
    {
        match kind {
            Kind::Caption => self.start_caption(tag)?,
            Kind::ColumnGroup => self.start_column_group(tag)?,
            Kind::Column => return self.imply_column_group(),
            Kind::TableBody => self.start_table_body(tag)?,
            Kind::TableRow | Kind::Cell => return self.imply_table_body(),
            Kind::Table => return self.start_nested_table(),
            Kind::Style | Kind::Script | Kind::Template => self.start_in_head(kind, tag)?,
            Kind::Input => return self.start_input_in_table(tag),
            Kind::Form => self.start_form_in_table(tag)?,
            _ => return self.start_fostered(tag),
        }
        Ok(Step::Done)
    }

    // ---- end tags

    // `</table>`.
    fn end_table(&mut self) -> Result<(), TreeBuilderError>
        ensures { OnOk result (self.new ≡ on_parser (λ p. if in_table_scope (has_kind is_table) p then without_table p else unexpected p) self.old) }
    {
        if !self.has_in_scope(Scope::Table, &Wanted::Of(KindSet::Table)) {
            return self.unexpected();
        }
        self.close_table()
    }

    // An end tag that is ignored, or anything else.
    fn other_table_end(
        &mut self,
        kind: Kind,
        name: &ElementName<A>,
    ) -> Result<Step, TreeBuilderError>
        ensures parser { IfOk result (λ step. (again : Again) → followed again step self.new.parser (EndTag (name_bytes name.now)) ≡ (if is_ignored_in_table kind then unexpected self.old.parser else table_other again (EndTag (name_bytes name.now)) self.old.parser)) }
        ensures telling { OnOk result (self.new.telling ≡ self.old.telling) }
    {
        if is_ignored_in_table(kind) {
            return self.ignore();
        }
        self.end_fostered(name)
    }

    /// "In table": an end tag.
    pub fn table_end(&mut self, kind: Kind, name: &ElementName<A>) -> Result<Step, TreeBuilderError>
        ensures parser { IfOk result (λ step. (again : Again) → followed again step self.new.parser (EndTag (name_bytes name.now)) ≡ table_end again kind (name_bytes name.now) self.old.parser) }
        ensures telling { OnOk result (self.new.telling ≡ self.old.telling) }
    {
        match kind {
            Kind::Table => self.end_table()?,
            Kind::Template => self.end_template()?,
            _ => return self.other_table_end(kind, name),
        }
        Ok(Step::Done)
    }
}

/// "`body`, `caption`, `col`, .., `tr`": whether an end tag is ignored.
pub(crate) fn is_ignored_in_table(kind: Kind) -> bool
    ensures { result ≡ is_ignored_in_table kind }
{
    matches!(
        kind,
        Kind::Body
            | Kind::Caption
            | Kind::Column
            | Kind::ColumnGroup
            | Kind::HtmlRoot
            | Kind::TableBody
            | Kind::Cell
            | Kind::TableRow
    )
}
