//! Whether an item fits, by the names of the open elements.
ghost use Rattle.std.specs.Prelude.{◌≡◌, not, List};
ghost use Rattle.html5tree.specs.ElementNames.{name_of};
ghost use Rattle.html5tree.specs.Fitting.{can_open, fits, fits_flow, fits_in, holds, no_paragraph, none_implied};
ghost use Rattle.html5tree.specs.Items.{Attribute};
ghost use Rattle.html5tree.specs.Items.Item.{EndTag, StartTag, Text};
ghost use Rattle.html5tree.specs.Names.{is_heading, named};
ghost use Rattle.html5tree.specs.Scopes.{kind_on_top, near, top_is, top_of_kind};
ghost use Rattle.html5tree.specs.Searches.{implied_before, is_bound, is_wanted, names_open};

use crate::kinds::Kind;
use crate::names::ElementName;
use crate::normal::is_white_space;
use crate::searches::{Bound, Wanted, is_implied, kind_under, through};

// Whether parts of a kind stand in an element.
fn holds(top: Kind, part: Kind) -> bool
    ensures { result ≡ holds top part }
{
    match top {
        Kind::Table => matches!(part, Kind::Caption | Kind::ColumnGroup | Kind::TableBody),
        Kind::ColumnGroup => matches!(part, Kind::Column),
        Kind::TableBody => matches!(part, Kind::TableRow),
        Kind::TableRow => matches!(part, Kind::Cell),
        _ => false,
    }
}

fn none_near(opened: &[ElementName], wanted: Wanted, bound: Bound) -> bool
    ensures { result ≡ not (near (is_wanted wanted) (is_bound bound) (names_open opened.now)) }
{
    through(opened, wanted, bound) == 0
}

fn no_paragraph(opened: &[ElementName]) -> bool
    ensures { result ≡ no_paragraph (names_open opened.now) }
{
    none_near(opened, Wanted::Paragraph, Bound::Button)
}

// Within a `ruby` no element is open whose end tag would be implied.
fn none_implied(opened: &[ElementName], before_text: bool) -> bool
    ensures { result ≡ none_implied (implied_before before_text) (names_open opened.now) }
{
    none_near(opened, Wanted::Ruby, Bound::Marker)
        || !is_implied(before_text, kind_under(opened, 0))
}

// Where text can stand.
fn fits_flow(kind: Kind, opened: &[ElementName]) -> bool
    ensures { result ≡ fits_flow kind (names_open opened.now) }
{
    match kind {
        Kind::Unknown => false,
        Kind::Ordinary | Kind::Ruby | Kind::Formatting | Kind::Void => true,
        Kind::Anchor => none_near(opened, Wanted::Anchor, Bound::Marker),
        Kind::NoBreak => none_near(opened, Wanted::NoBreak, Bound::Marker),
        Kind::Button => none_near(opened, Wanted::Button, Bound::Marker),
        Kind::Heading => { no_paragraph(opened) && !matches!(kind_under(opened, 0), Kind::Heading) }
        Kind::ListItem => {
            no_paragraph(opened) && none_near(opened, Wanted::ListItem, Bound::Item)
        }
        Kind::Description => {
            no_paragraph(opened) && none_near(opened, Wanted::Description, Bound::Item)
        }
        Kind::Form => no_paragraph(opened) && none_near(opened, Wanted::Form, Bound::Nothing),
        Kind::RubyBase | Kind::RubyContainer => none_implied(opened, false),
        Kind::RubyText => none_implied(opened, true),
        _ => no_paragraph(opened),
    }
}

/// Whether a start tag fits.
#[tactic(auto, unfolding(crate::specs::Fitting::fits))]
pub fn start_fits(opened: &[ElementName], name: ElementName) -> bool
    ensures { (attributes : List Attribute)
        → result ≡ fits (names_open opened.now) (StartTag (name_of name) attributes) }
{
    let top = kind_under(opened, 0);
    let kind = name.kind();
    if top.holds_parts() {
        holds(top, kind)
    } else {
        !kind.is_part() && fits_flow(kind, opened)
    }
}

/// Whether an end tag fits.
pub fn end_fits(opened: &[ElementName], name: ElementName) -> bool
    ensures { result ≡ fits (names_open opened.now) (EndTag (name_of name)) }
{
    if opened.is_empty() {
        return false;
    }
    let top = opened[opened.len() - 1];
    name.kind().can_open() && top.is(name)
}

/// Whether a text fits.
#[tactic(auto, unfolding(crate::specs::Fitting::fits))]
pub fn text_fits(opened: &[ElementName], text: &str) -> bool
    ensures { result ≡ fits (names_open opened.now) (Text text.now) }
{
    !kind_under(opened, 0).holds_parts() || is_white_space(text.as_bytes())
}
