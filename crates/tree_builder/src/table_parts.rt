//! "The rules for parsing tokens in HTML content", "in caption", "in column group", "in table body", "in row" and "in cell": tags.
ghost use Rattle.std.specs.Prelude.{◌≡◌, ℕ, List, codes, IfOk, OnOk, if◌then◌else◌};
ghost use Rattle.tree_construction.specs.Formatting.{cleared_to_marker, with_marker};
ghost use Rattle.tree_construction.specs.InBody.{in_body};
ghost use Rattle.tree_construction.specs.Names.{is_caption, is_table_row};
ghost use Rattle.tree_construction.specs.Page.{has_kind, has_name};
ghost use Rattle.tree_construction.specs.Parser.{Again, ended, in_mode, in_table_scope, insert, pop, unexpected};
ghost use Rattle.tree_construction.specs.Tables.{caption_end, cell_closed, cell_end, column_group_end, column_group_other, column_group_start, end_around_cell, end_cell, in_caption, in_cell, is_ignored_in_table, is_part, row_end, row_end_of_body, row_start, table_body_end, table_body_start, table_start, to_body, to_row, without_any_body, without_caption, without_column_group, without_row, without_table_body};
ghost use Rattle.tree_construction.specs.Tokens.{Token, bare_tag};
ghost use Rattle.tree_construction.specs.Tokens.Token.{StartTag as StartToken, EndTag};
ghost use Rattle.tree_construction.specs.declared.modes.Mode.TheVariants.{InCell, InRow, InTable, InTableBody};
ghost use Rattle.tree_names.specs.ElementNames.{name_bytes};
ghost use Rattle.tree_builder.specs.Built.{followed, on_parser, tag_of};

use crate::builder::Builder;
use crate::closing::PopTest;
use crate::in_table::is_ignored_in_table;
use crate::tag::{StartTag, Step};
use std::alloc::Allocator;
use tree_construction::kinds::Kind;
use tree_construction::modes::Mode;
use tree_lists::wanted::{KindSet, Scope, Wanted};
use tree_names::known::KnownName;
use tree_names::name::ElementName;
use tree_sink::attributes::TagAttributes;
use tree_sink::error::TreeBuilderError;
use tree_sink::sink::TreeSink;

impl<S: TreeSink<T> + Drop, T: TagAttributes, A: Allocator + Copy> Builder<S, T, A> {
    // ---- "in caption"

    // Closes a caption.
    fn close_caption(&mut self) -> Result<(), TreeBuilderError>
        ensures { OnOk result (self.new ≡ on_parser (λ p. in_mode InTable (cleared_to_marker (ended (has_kind is_caption) p))) self.old) }
    {
        self.end_element(&Wanted::Of(KindSet::Caption))?;
        self.clear_to_marker();
        self.set_mode(Mode::InTable);
        Ok(())
    }

    // `</caption>`.
    fn end_caption(&mut self) -> Result<(), TreeBuilderError>
        ensures { OnOk result (self.new ≡ on_parser (without_caption (λ later. later)) self.old) }
    {
        if !self.has_in_scope(Scope::Table, &Wanted::Of(KindSet::Caption)) {
            return self.unexpected();
        }
        self.close_caption()
    }

    // A tag that ends a caption, and is reprocessed.
    fn end_caption_before(&mut self) -> Result<Step, TreeBuilderError>
        ensures parser { IfOk result (λ step. (again : Again) (token : Token)
            → followed again step self.new.parser token ≡ without_caption (λ later. again later token) self.old.parser) }
        ensures telling { OnOk result (self.new.telling ≡ self.old.telling) }
    {
        if !self.has_in_scope(Scope::Table, &Wanted::Of(KindSet::Caption)) {
            return self.ignore();
        }
        self.close_caption()?;
        Ok(Step::Again)
    }

    /// "In caption": a start tag.
    pub fn caption_start(&mut self, tag: &StartTag<T, A>) -> Result<Step, TreeBuilderError>
        ensures parser { IfOk result (λ step. (again : Again) → followed again step self.new.parser (StartToken (tag_of T.said tag.now)) ≡ in_caption again (StartToken (tag_of T.said tag.now)) self.old.parser) }
        ensures telling { OnOk result (self.new.telling ≡ self.old.telling) }
    {
        let kind = tag.kind();
        if is_part(kind) {
            return self.end_caption_before();
        }
        self.start_in_body(kind, tag)
    }

    // An end tag that is ignored, or by the rules of "in body".
    fn other_caption_end(
        &mut self,
        kind: Kind,
        name: &ElementName<A>,
    ) -> Result<Step, TreeBuilderError>
        ensures parser { IfOk result (λ step. (again : Again) → followed again step self.new.parser (EndTag (name_bytes name.now)) ≡ (if is_ignored_in_table kind then unexpected self.old.parser else in_body again (EndTag (name_bytes name.now)) self.old.parser)) }
        ensures telling { OnOk result (self.new.telling ≡ self.old.telling) }
    {
        if is_ignored_in_table(kind) {
            return self.ignore();
        }
        self.end_in_body(name.kind(), name)
    }

    /// "In caption": an end tag.
    pub fn caption_end(
        &mut self,
        kind: Kind,
        name: &ElementName<A>,
    ) -> Result<Step, TreeBuilderError>
        ensures parser { IfOk result (λ step. (again : Again) → followed again step self.new.parser (EndTag (name_bytes name.now)) ≡ caption_end again kind (name_bytes name.now) self.old.parser) }
        ensures telling { OnOk result (self.new.telling ≡ self.old.telling) }
    {
        match kind {
            Kind::Caption => self.end_caption()?,
            Kind::Table => return self.end_caption_before(),
            _ => return self.other_caption_end(kind, name),
        }
        Ok(Step::Done)
    }

    // ---- "in column group"

    // Closes a `colgroup`.
    pub(crate) fn close_column_group(&mut self) -> Result<(), TreeBuilderError>
        ensures { OnOk result (self.new ≡ on_parser (λ p. in_mode InTable (pop p)) self.old) }
    {
        self.pop()?;
        self.set_mode(Mode::InTable);
        Ok(())
    }

    // `</colgroup>`.
    fn end_column_group(&mut self) -> Result<(), TreeBuilderError>
        ensures { OnOk result (self.new ≡ on_parser (without_column_group (λ later. later)) self.old) }
    {
        if !self.current_is(&Wanted::Of(KindSet::ColumnGroup)) {
            return self.unexpected();
        }
        self.close_column_group()
    }

    /// "In column group": anything else.
    pub fn column_group_other(&mut self) -> Result<Step, TreeBuilderError>
        ensures parser { IfOk result (λ step. (again : Again) (token : Token)
            → followed again step self.new.parser token ≡ column_group_other again token self.old.parser) }
        ensures telling { OnOk result (self.new.telling ≡ self.old.telling) }
    {
        if !self.current_is(&Wanted::Of(KindSet::ColumnGroup)) {
            return self.ignore();
        }
        self.close_column_group()?;
        Ok(Step::Again)
    }

    /// "In column group": a start tag.
    pub fn column_group_start(
        &mut self,
        kind: Kind,
        tag: &StartTag<T, A>,
    ) -> Result<Step, TreeBuilderError>
        ensures parser { IfOk result (λ step. (again : Again) → followed again step self.new.parser (StartToken (tag_of T.said tag.now)) ≡ column_group_start again kind (tag_of T.said tag.now) self.old.parser) }
        ensures telling { OnOk result (self.new.telling ≡ self.old.telling) }
    {
        match kind {
            Kind::HtmlRoot => self.start_html(tag)?,
            Kind::Column => self.insert_void(tag)?,
            Kind::Template => self.start_in_head(kind, tag)?,
            _ => return self.column_group_other(),
        }
        Ok(Step::Done)
    }

    /// "In column group": an end tag.
    pub fn column_group_end(&mut self, kind: Kind) -> Result<Step, TreeBuilderError>
        ensures parser { IfOk result (λ step. (again : Again) (name : List ℕ)
            → followed again step self.new.parser (EndTag name) ≡ column_group_end again kind name self.old.parser) }
        ensures telling { OnOk result (self.new.telling ≡ self.old.telling) }
    {
        match kind {
            Kind::ColumnGroup => self.end_column_group()?,
            Kind::Column => self.unexpected()?,
            Kind::Template => self.end_template()?,
            _ => return self.column_group_other(),
        }
        Ok(Step::Done)
    }

    // ---- "in table body"

    // "Clear the stack back to a table body context".
    fn clear_to_table_body(&mut self) -> Result<(), TreeBuilderError>
        ensures { OnOk result (self.new ≡ on_parser to_body self.old) }
    {
        self.pop_while(&PopTest::OutsideTableBody)
    }

    // Closes a `tbody`, `tfoot` or `thead`.
    fn close_table_body(&mut self) -> Result<(), TreeBuilderError>
        ensures { OnOk result (self.new ≡ on_parser (λ p. in_mode InTable (pop (to_body p))) self.old) }
    {
        self.clear_to_table_body()?;
        self.pop()?;
        self.set_mode(Mode::InTable);
        Ok(())
    }

    // `</tbody>`, `</tfoot>`, `</thead>`.
    fn end_table_body(&mut self, name: &ElementName<A>) -> Result<(), TreeBuilderError>
        ensures { OnOk result (self.new ≡ on_parser (λ p. without_table_body (in_table_scope (has_name (name_bytes name.now)) p) (λ later. later) p) self.old) }
    {
        if !self.has_in_scope(Scope::Table, &Wanted::Named(name)) {
            return self.unexpected();
        }
        self.close_table_body()
    }

    // A tag that ends such an element, and is reprocessed.
    fn end_table_body_before(&mut self) -> Result<Step, TreeBuilderError>
        ensures parser { IfOk result (λ step. (again : Again) (token : Token)
            → followed again step self.new.parser token ≡ without_any_body (λ later. again later token) self.old.parser) }
        ensures telling { OnOk result (self.new.telling ≡ self.old.telling) }
    {
        if !self.has_in_scope(Scope::Table, &Wanted::Of(KindSet::TableBody)) {
            return self.ignore();
        }
        self.close_table_body()?;
        Ok(Step::Again)
    }

    // `tr`.
    fn start_row(&mut self, tag: &StartTag<T, A>) -> Result<(), TreeBuilderError>
        ensures { OnOk result (self.new ≡ on_parser (λ p. in_mode InRow (insert (tag_of T.said tag.now) (to_body p))) self.old) }
    {
        self.clear_to_table_body()?;
        self.insert(tag)?;
        self.set_mode(Mode::InRow);
        Ok(())
    }

    // A `tr` that no tag opens.
    fn open_row(&mut self) -> Result<(), TreeBuilderError>
        ensures { OnOk result (self.new ≡ on_parser (λ p. in_mode InRow (insert (bare_tag (codes "tr")) (to_body p))) self.old) }
    {
        self.clear_to_table_body()?;
        self.insert_bare(KnownName::TR)?;
        self.set_mode(Mode::InRow);
        Ok(())
    }

    // `td`, `th`: reprocessed in a `tr`.
    fn imply_row(&mut self) -> Result<Step, TreeBuilderError>
        ensures parser { IfOk result (λ step. (again : Again) (token : Token)
            → followed again step self.new.parser token ≡ again (in_mode InRow (insert (bare_tag (codes "tr")) (to_body (unexpected self.old.parser)))) token) }
        ensures telling { OnOk result (self.new.telling ≡ self.old.telling) }
    {
        self.unexpected()?;
        self.open_row()?;
        Ok(Step::Again)
    }

    // A part of a table, or by the rules of "in table".
    fn other_table_body_start(
        &mut self,
        kind: Kind,
        tag: &StartTag<T, A>,
    ) -> Result<Step, TreeBuilderError>
        ensures parser { IfOk result (λ step. (again : Again) → followed again step self.new.parser (StartToken (tag_of T.said tag.now)) ≡ (if is_part kind then without_any_body (λ later. again later (StartToken (tag_of T.said tag.now))) self.old.parser else table_start again kind (tag_of T.said tag.now) self.old.parser)) }
        ensures telling { OnOk result (self.new.telling ≡ self.old.telling) }
    {
        if is_part(kind) {
            return self.end_table_body_before();
        }
        self.table_start(kind, tag)
    }

    /// "In table body": a start tag.
    pub fn table_body_start(
        &mut self,
        kind: Kind,
        tag: &StartTag<T, A>,
    ) -> Result<Step, TreeBuilderError>
        ensures parser { IfOk result (λ step. (again : Again) → followed again step self.new.parser (StartToken (tag_of T.said tag.now)) ≡ table_body_start again kind (tag_of T.said tag.now) self.old.parser) }
        ensures telling { OnOk result (self.new.telling ≡ self.old.telling) }
    {
        match kind {
            Kind::TableRow => self.start_row(tag)?,
            Kind::Cell => return self.imply_row(),
            _ => return self.other_table_body_start(kind, tag),
        }
        Ok(Step::Done)
    }

    /// "In table body": an end tag.
    pub fn table_body_end(
        &mut self,
        kind: Kind,
        name: &ElementName<A>,
    ) -> Result<Step, TreeBuilderError>
        ensures parser { IfOk result (λ step. (again : Again) → followed again step self.new.parser (EndTag (name_bytes name.now)) ≡ table_body_end again kind (name_bytes name.now) self.old.parser) }
        ensures telling { OnOk result (self.new.telling ≡ self.old.telling) }
    {
        match kind {
            Kind::TableBody => self.end_table_body(name)?,
            Kind::Table => return self.end_table_body_before(),
            _ => return self.table_end(kind, name),
        }
        Ok(Step::Done)
    }

    // ---- "in row"

    // "Clear the stack back to a table row context".
    fn clear_to_table_row(&mut self) -> Result<(), TreeBuilderError>
        ensures { OnOk result (self.new ≡ on_parser to_row self.old) }
    {
        self.pop_while(&PopTest::OutsideTableRow)
    }

    // Closes a `tr`.
    fn close_row(&mut self) -> Result<(), TreeBuilderError>
        ensures { OnOk result (self.new ≡ on_parser (λ p. in_mode InTableBody (pop (to_row p))) self.old) }
    {
        self.clear_to_table_row()?;
        self.pop()?;
        self.set_mode(Mode::InTableBody);
        Ok(())
    }

    // `</tr>`.
    fn end_row(&mut self) -> Result<(), TreeBuilderError>
        ensures { OnOk result (self.new ≡ on_parser (without_row (λ later. later)) self.old) }
    {
        if !self.has_in_scope(Scope::Table, &Wanted::Of(KindSet::TableRow)) {
            return self.unexpected();
        }
        self.close_row()
    }

    // A tag that ends a `tr`, and is reprocessed.
    fn end_row_before(&mut self) -> Result<Step, TreeBuilderError>
        ensures parser { IfOk result (λ step. (again : Again) (token : Token)
            → followed again step self.new.parser token ≡ without_row (λ later. again later token) self.old.parser) }
        ensures telling { OnOk result (self.new.telling ≡ self.old.telling) }
    {
        if !self.has_in_scope(Scope::Table, &Wanted::Of(KindSet::TableRow)) {
            return self.ignore();
        }
        self.close_row()?;
        Ok(Step::Again)
    }

    // `td`, `th`.
    fn start_cell(&mut self, tag: &StartTag<T, A>) -> Result<(), TreeBuilderError>
        ensures { OnOk result (self.new ≡ on_parser (λ p. with_marker (in_mode InCell (insert (tag_of T.said tag.now) (to_row p)))) self.old) }
    {
        self.clear_to_table_row()?;
        self.insert(tag)?;
        self.set_mode(Mode::InCell);
        self.push_marker()
    }

    // A part of a table, or by the rules of "in table".
    fn other_row_start(
        &mut self,
        kind: Kind,
        tag: &StartTag<T, A>,
    ) -> Result<Step, TreeBuilderError>
        ensures parser { IfOk result (λ step. (again : Again) → followed again step self.new.parser (StartToken (tag_of T.said tag.now)) ≡ (if is_part kind then without_row (λ later. again later (StartToken (tag_of T.said tag.now))) self.old.parser else table_start again kind (tag_of T.said tag.now) self.old.parser)) }
        ensures telling { OnOk result (self.new.telling ≡ self.old.telling) }
    {
        if is_part(kind) {
            return self.end_row_before();
        }
        self.table_start(kind, tag)
    }

    /// "In row": a start tag.
    pub fn row_start(&mut self, kind: Kind, tag: &StartTag<T, A>) -> Result<Step, TreeBuilderError>
        ensures parser { IfOk result (λ step. (again : Again) → followed again step self.new.parser (StartToken (tag_of T.said tag.now)) ≡ row_start again kind (tag_of T.said tag.now) self.old.parser) }
        ensures telling { OnOk result (self.new.telling ≡ self.old.telling) }
    {
        match kind {
            Kind::Cell => self.start_cell(tag)?,
            _ => return self.other_row_start(kind, tag),
        }
        Ok(Step::Done)
    }

    // A row in table scope ends before an end tag of its body. Without one the token is ignored.
    fn end_row_in_scope(&mut self) -> Result<Step, TreeBuilderError>
        ensures parser { IfOk result (λ step. (again : Again) (token : Token)
            → followed again step self.new.parser token ≡ (if in_table_scope (has_kind is_table_row) self.old.parser then without_row (λ later. again later token) self.old.parser else self.old.parser)) }
        ensures telling { OnOk result (self.new.telling ≡ self.old.telling) }
    {
        if !self.has_in_scope(Scope::Table, &Wanted::Of(KindSet::TableRow)) {
            return Ok(Step::Done);
        }
        self.end_row_before()
    }

    // `</tbody>`, `</tfoot>`, `</thead>`.
    fn row_end_of_body(&mut self, name: &ElementName<A>) -> Result<Step, TreeBuilderError>
        ensures parser { IfOk result (λ step. (again : Again) → followed again step self.new.parser (EndTag (name_bytes name.now)) ≡ row_end_of_body again (name_bytes name.now) self.old.parser) }
        ensures telling { OnOk result (self.new.telling ≡ self.old.telling) }
    {
        if !self.has_in_scope(Scope::Table, &Wanted::Named(name)) {
            return self.ignore();
        }
        self.end_row_in_scope()
    }

    /// "In row": an end tag.
    pub fn row_end(&mut self, kind: Kind, name: &ElementName<A>) -> Result<Step, TreeBuilderError>
        ensures parser { IfOk result (λ step. (again : Again) → followed again step self.new.parser (EndTag (name_bytes name.now)) ≡ row_end again kind (name_bytes name.now) self.old.parser) }
        ensures telling { OnOk result (self.new.telling ≡ self.old.telling) }
    {
        match kind {
            Kind::TableRow => self.end_row()?,
            Kind::Table => return self.end_row_before(),
            Kind::TableBody => return self.row_end_of_body(name),
            _ => return self.table_end(kind, name),
        }
        Ok(Step::Done)
    }

    // ---- "in cell"

    // "Close the cell".
    fn close_cell(&mut self) -> Result<(), TreeBuilderError>
        ensures { OnOk result (self.new ≡ on_parser cell_closed self.old) }
    {
        self.end_element(&Wanted::Of(KindSet::Cell))?;
        self.clear_to_marker();
        self.set_mode(Mode::InRow);
        Ok(())
    }

    // A tag that ends a cell, and is reprocessed.
    fn end_cell_before(&mut self) -> Result<Step, TreeBuilderError>
        ensures parser { IfOk result (λ step. (again : Again) (token : Token)
            → followed again step self.new.parser token ≡ again (cell_closed self.old.parser) token) }
        ensures telling { OnOk result (self.new.telling ≡ self.old.telling) }
    {
        self.close_cell()?;
        Ok(Step::Again)
    }

    /// "In cell": a start tag.
    pub fn cell_start(&mut self, tag: &StartTag<T, A>) -> Result<Step, TreeBuilderError>
        ensures parser { IfOk result (λ step. (again : Again) → followed again step self.new.parser (StartToken (tag_of T.said tag.now)) ≡ in_cell again (StartToken (tag_of T.said tag.now)) self.old.parser) }
        ensures telling { OnOk result (self.new.telling ≡ self.old.telling) }
    {
        let kind = tag.kind();
        if is_part(kind) {
            return self.end_cell_before();
        }
        self.start_in_body(kind, tag)
    }

    // A cell of a name that is in table scope is closed.
    fn close_named_cell(&mut self, name: &ElementName<A>) -> Result<(), TreeBuilderError>
        ensures { OnOk result (self.new ≡ on_parser (λ p. in_mode InRow (cleared_to_marker (ended (has_name (name_bytes name.now)) p))) self.old) }
    {
        self.end_element(&Wanted::Named(name))?;
        self.clear_to_marker();
        self.set_mode(Mode::InRow);
        Ok(())
    }

    // `</td>`, `</th>`.
    fn end_cell(&mut self, name: &ElementName<A>) -> Result<(), TreeBuilderError>
        ensures { OnOk result (self.new ≡ on_parser (end_cell (name_bytes name.now)) self.old) }
    {
        if !self.has_in_scope(Scope::Table, &Wanted::Named(name)) {
            return self.unexpected();
        }
        self.close_named_cell(name)
    }

    // `</table>`, `</tbody>`, `</tfoot>`, `</thead>`, `</tr>`.
    fn end_around_cell(&mut self, name: &ElementName<A>) -> Result<Step, TreeBuilderError>
        ensures parser { IfOk result (λ step. (again : Again) → followed again step self.new.parser (EndTag (name_bytes name.now)) ≡ end_around_cell again (name_bytes name.now) self.old.parser) }
        ensures telling { OnOk result (self.new.telling ≡ self.old.telling) }
    {
        if !self.has_in_scope(Scope::Table, &Wanted::Named(name)) {
            return self.ignore();
        }
        self.end_cell_before()
    }

    /// "In cell": an end tag.
    pub fn cell_end(&mut self, kind: Kind, name: &ElementName<A>) -> Result<Step, TreeBuilderError>
        ensures parser { IfOk result (λ step. (again : Again) → followed again step self.new.parser (EndTag (name_bytes name.now)) ≡ cell_end again kind (name_bytes name.now) self.old.parser) }
        ensures telling { OnOk result (self.new.telling ≡ self.old.telling) }
    {
        match kind {
            Kind::Cell => self.end_cell(name)?,
            Kind::Body | Kind::Caption | Kind::Column | Kind::ColumnGroup | Kind::HtmlRoot =>
                self.unexpected()?,
            Kind::Table | Kind::TableBody | Kind::TableRow => return self.end_around_cell(name),
            _ => return self.end_in_body(name.kind(), name),
        }
        Ok(Step::Done)
    }
}

// Whether it is a part of tables.
fn is_part(kind: Kind) -> bool
    ensures { result ≡ is_part kind }
{
    matches!(
        kind,
        Kind::Caption
            | Kind::Column
            | Kind::ColumnGroup
            | Kind::TableBody
            | Kind::Cell
            | Kind::TableRow
    )
}
