//! The plan for an item, by the names of the open elements.
ghost use Rattle.std.specs.Prelude.{◌≡◌, ℕ, ◌+◌, ◌≤◌, suc, List, ◌++◌, [], ◌∷◌, codes, length, nat_le, if◌then◌else◌};
ghost use Rattle.std.specs.List.{list_all};
ghost use Rattle.html5tree.specs.ElementNames.{name_of};
ghost use Rattle.html5tree.specs.Fitting.{bounds_item, is_space};
ghost use Rattle.html5tree.specs.Items.{Attribute};
ghost use Rattle.html5tree.specs.Items.Item.{EndTag, StartTag, Text};
ghost use Rattle.html5tree.specs.Names.{is_void, kind_of};
ghost use Rattle.html5tree.specs.Scopes.{near};
ghost use Rattle.html5tree.specs.Normal.{bounds_end, cell_plan, cell_text_plan, count_inside, dropped, flow_closes, flow_plan, heading_closes, implied_closes, is_ended, kept, limited, lone_end_plan, moved, paragraph_closes, parents, part_plan, plan_of, start_plan, table_plan};
ghost use Rattle.html5tree.specs.Planned.{parents_said, plan_said};
ghost use Rattle.html5tree.specs.Searches.{implied_before, is_bound, is_wanted, names_open};
ghost use Rattle.html5tree.specs.declared.kinds.Kind.TheVariants.{Cell, Void};
ghost use Rattle.html5tree.specs.declared.plans.Written.TheVariants.{LineBreak};

use crate::kinds::Kind;
use crate::names::ElementName;
use crate::plans::{Parents, Plan, Written};
use crate::searches::{Bound, Wanted, count_inside, implied_run, kind_under, through};

// The implied parents of a part in an open element.
fn parents(top: Kind, part: Kind) -> Parents
    ensures { parents_said result ≡ parents top part }
{
    match (top, part) {
        (Kind::Table, Kind::Column) => Parents::Group,
        (Kind::Table, Kind::TableRow) => Parents::Body,
        (Kind::Table, Kind::Cell) => Parents::BodyRow,
        (Kind::TableBody, Kind::Cell) => Parents::Row,
        _ => Parents::Nothing,
    }
}

// Those of what is put in a cell, with the cell.
fn parents_with_cell(top: Kind) -> Parents
    ensures { parents_said result ≡ parents top Cell ++ codes "td" ∷ [] }
{
    match top {
        Kind::Table => Parents::BodyRowCell,
        Kind::TableBody => Parents::RowCell,
        _ => Parents::Cell,
    }
}

fn dropped() -> Plan
    ensures { plan_said result ≡ dropped }
{
    Plan {
        closes: 0,
        opens: Parents::Nothing,
        writes: Written::Nothing,
    }
}

fn kept(closes: usize) -> Plan
    ensures { plan_said result ≡ kept closes [] }
{
    Plan {
        closes,
        opens: Parents::Nothing,
        writes: Written::Itself,
    }
}

// A part stands in the innermost table, or in a part of it.
fn part_plan(part: Kind, opened: &[ElementName]) -> Plan
    ensures { plan_said result ≡ part_plan part (names_open opened.now) }
{
    let through = through(opened, Wanted::Context(part), Bound::Nothing);
    if through == 0 {
        return dropped();
    }
    let closes = through - 1;
    Plan {
        closes,
        opens: parents(kind_under(opened, closes), part),
        writes: Written::Itself,
    }
}

// What is no part, and comes where only parts stand, is put in a cell.
fn cell_plan(opened: &[ElementName]) -> Plan
    ensures { plan_said result ≡ cell_plan (names_open opened.now) }
{
    let closes = count_inside(opened, Wanted::Context(Kind::Cell));
    Plan {
        closes,
        opens: parents_with_cell(kind_under(opened, closes)),
        writes: Written::Itself,
    }
}

// But a table closes that table, and a form is dropped.
fn table_plan(kind: Kind, opened: &[ElementName]) -> Plan
    ensures { plan_said result ≡ table_plan kind (names_open opened.now) }
{
    match kind {
        Kind::Unknown | Kind::Form => dropped(),
        Kind::Table => kept(count_inside(opened, Wanted::Table) + 1),
        _ => cell_plan(opened),
    }
}

fn paragraph_closes(opened: &[ElementName]) -> usize
    ensures value { result ≡ paragraph_closes (names_open opened.now) }
    ensures within { result ≤ length opened.now }
{
    through(opened, Wanted::Paragraph, Bound::Button)
}

// A `li` closes the near one, and if there is none the near `p`; a `dd` and a `dt` do the same.
fn item_closes(opened: &[ElementName], wanted: Wanted) -> usize
    ensures { result ≡ (if near (is_wanted wanted) bounds_item (names_open opened.now)
        then suc (count_inside (is_wanted wanted) (names_open opened.now))
        else paragraph_closes (names_open opened.now)) }
{
    match through(opened, wanted, Bound::Item) {
        0 => paragraph_closes(opened),
        closes => closes,
    }
}

// A heading closes the near `p`, and then the heading that it would stand in.
fn heading_closes(opened: &[ElementName]) -> usize
    ensures { result ≡ heading_closes (names_open opened.now) }
{
    let closes = paragraph_closes(opened);
    match kind_under(opened, closes) {
        Kind::Heading => closes + 1,
        _ => closes,
    }
}

// Within a `ruby` those are closed whose end tag would be implied.
fn implied_closes(opened: &[ElementName], before_text: bool) -> usize
    ensures { result ≡ implied_closes (implied_before before_text) (names_open opened.now) }
{
    match through(opened, Wanted::Ruby, Bound::Marker) {
        0 => 0,
        _ => implied_run(opened, before_text),
    }
}

// How many are closed where text can stand.
fn flow_closes(kind: Kind, opened: &[ElementName]) -> usize
    ensures { result ≡ flow_closes kind (names_open opened.now) }
{
    match kind {
        Kind::Ordinary | Kind::Ruby | Kind::Formatting | Kind::Void => 0,
        Kind::Anchor => through(opened, Wanted::Anchor, Bound::Marker),
        Kind::NoBreak => through(opened, Wanted::NoBreak, Bound::Marker),
        Kind::Button => through(opened, Wanted::Button, Bound::Marker),
        Kind::Heading => heading_closes(opened),
        Kind::ListItem => item_closes(opened, Wanted::ListItem),
        Kind::Description => item_closes(opened, Wanted::Description),
        Kind::RubyBase | Kind::RubyContainer => implied_closes(opened, false),
        Kind::RubyText => implied_closes(opened, true),
        _ => paragraph_closes(opened),
    }
}

// Where text can stand.
fn flow_plan(kind: Kind, opened: &[ElementName]) -> Plan
    ensures { plan_said result ≡ flow_plan kind (names_open opened.now) }
{
    match kind {
        Kind::Unknown => dropped(),
        Kind::Form if through(opened, Wanted::Form, Bound::Nothing) > 0 => dropped(),
        _ => kept(flow_closes(kind, opened)),
    }
}

fn start_plan(kind: Kind, opened: &[ElementName]) -> Plan
    ensures { plan_said result ≡ start_plan kind (names_open opened.now) }
{
    if kind.is_part() {
        part_plan(kind, opened)
    } else if kind_under(opened, 0).holds_parts() {
        table_plan(kind, opened)
    } else {
        flow_plan(kind, opened)
    }
}

// How many elements are open after a plan, except for the item's own.
fn depth_after(opened: &[ElementName], plan: Plan) -> usize
    ensures value { result ≡ length (moved (plan_said plan) (names_open opened.now)) }
    ensures within { result ≤ length opened.now + 3 }
{
    opened.len().saturating_sub(plan.closes) + plan.opens.len()
}

// A plan, unless more elements than the limit would be open after it. The item itself opens this
// many.
fn limited(limit: usize, opened: &[ElementName], plan: Plan, own: usize) -> Plan
    requires { own ≤ 1 }
    ensures { plan_said result ≡ (if nat_le (length (moved (plan_said plan) (names_open opened.now)) + own) limit
        then plan_said plan else dropped) }
{
    if depth_after(opened, plan) + own <= limit {
        plan
    } else {
        dropped()
    }
}

// How many elements a start tag opens.
fn opened_by(kind: Kind) -> usize
    ensures { result ≡ (if is_void kind then 0 else 1) }
{
    if kind.is_void() { 0 } else { 1 }
}

/// The plan for a start tag.
pub fn plan_for_start(limit: usize, opened: &[ElementName], name: ElementName) -> Plan
    ensures { (attributes : List Attribute)
        → plan_said result ≡ plan_of limit (names_open opened.now) (StartTag (name_of name) attributes) }
{
    let kind = name.kind();
    let plan = start_plan(kind, opened);
    limited(limit, opened, plan, opened_by(kind))
}

// Which element an end tag closes.
fn ended_by(name: ElementName) -> Wanted
    ensures { is_wanted result ≡ is_ended (kind_of (name_of name)) (name_of name) }
{
    match name.kind() {
        Kind::Heading => Wanted::Heading,
        Kind::Paragraph => Wanted::Paragraph,
        _ => Wanted::Named(name),
    }
}

// What ends the search for it.
fn bound_of_end(kind: Kind) -> Bound
    ensures { is_bound result ≡ bounds_end kind }
{
    match kind {
        Kind::Paragraph => Bound::Button,
        Kind::ListItem => Bound::List,
        Kind::Ordinary | Kind::Ruby | Kind::RubyBase | Kind::RubyContainer | Kind::RubyText =>
            Bound::Special,
        Kind::Table
        | Kind::Caption
        | Kind::ColumnGroup
        | Kind::TableBody
        | Kind::TableRow
        | Kind::Cell => Bound::Table,
        _ => Bound::Marker,
    }
}

fn writing(writes: Written) -> Plan
    ensures { plan_said result ≡ record dropped { writes = writes } }
{
    Plan {
        closes: 0,
        opens: Parents::Nothing,
        writes,
    }
}

// When no `p` is near, an end tag `p` stands for an empty one, if text can stand there.
fn lone_end_plan(limit: usize, kind: Kind, opened: &[ElementName]) -> Plan
    ensures { plan_said result ≡ lone_end_plan limit kind (names_open opened.now) }
{
    match kind {
        Kind::Paragraph if !kind_under(opened, 0).holds_parts() && opened.len() < limit => {
            writing(Written::EmptyParagraph)
        }
        _ => writing(Written::Nothing),
    }
}

// A `br` in the place of its end tag.
fn break_plan(limit: usize, opened: &[ElementName]) -> Plan
    ensures { (name : List ℕ) → plan_said result ≡ limited limit (names_open opened.now) (EndTag name)
        (record (start_plan Void (names_open opened.now)) { writes = LineBreak }) }
{
    let plan = start_plan(Kind::Void, opened);
    let breaking = Plan {
        closes: plan.closes,
        opens: plan.opens,
        writes: Written::LineBreak,
    };
    limited(limit, opened, breaking, 0)
}

/// The plan for an end tag.
pub fn plan_for_end(limit: usize, opened: &[ElementName], name: ElementName) -> Plan
    ensures { plan_said result ≡ plan_of limit (names_open opened.now) (EndTag (name_of name)) }
{
    if name.is(ElementName::LINE_BREAK) {
        return break_plan(limit, opened);
    }
    let kind = name.kind();
    let closes = through(opened, ended_by(name), bound_of_end(kind));
    if closes == 0 {
        return lone_end_plan(limit, kind, opened);
    }
    Plan {
        closes,
        opens: Parents::Nothing,
        writes: Written::Nothing,
    }
}

/// Whether each character is white space.
pub fn is_white_space(text: &[u8]) -> bool
    ensures { result ≡ list_all is_space text.now }
{
    text.iter().all(|byte| matches!(*byte, b'\t' | b'\n' | b'\x0c' | b'\r' | b' '))
}

// A text that is put in a cell, or its white space alone.
fn cell_text_plan(limit: usize, opened: &[ElementName]) -> Plan
    ensures { plan_said result ≡ cell_text_plan limit (names_open opened.now) (cell_plan (names_open opened.now)) }
{
    let plan = cell_plan(opened);
    if depth_after(opened, plan) > limit {
        return writing(Written::WhiteSpace);
    }
    Plan {
        closes: plan.closes,
        opens: plan.opens,
        writes: Written::Parted,
    }
}

/// The plan for a text.
pub fn plan_for_text(limit: usize, opened: &[ElementName], text: &str) -> Plan
    ensures { plan_said result ≡ plan_of limit (names_open opened.now) (Text text.now) }
{
    if !kind_under(opened, 0).holds_parts() {
        return kept(0);
    }
    if is_white_space(text.as_bytes()) {
        return kept(0);
    }
    cell_text_plan(limit, opened)
}
