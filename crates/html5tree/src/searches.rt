//! Searches of the open elements, from the innermost outwards.
ghost use Rattle.std.specs.Prelude.{◌≡◌, ◌≤◌, drop, length};
ghost use Rattle.html5tree.specs.Names.{kind_of};
ghost use Rattle.html5tree.specs.ElementNames.{name_of};
ghost use Rattle.html5tree.specs.Normal.{count_inside, is_context, run_of, through};
ghost use Rattle.html5tree.specs.Scopes.{kind_on_top};
ghost use Rattle.html5tree.specs.Searches.{implied_before, is_bound, is_wanted, names_open};

use crate::kinds::Kind;
use crate::names::ElementName;

/// What is searched for.
#[derive(Clone, Copy, Debug)]
pub enum Wanted {
    Anchor,
    NoBreak,
    Button,
    Paragraph,
    ListItem,
    Description,
    Heading,
    Ruby,
    Form,
    Table,
    /// What holds a part of this kind, or does so by implied parents.
    Context(Kind),
    /// An element of this name.
    Named(ElementName),
}

/// What ends a search.
#[derive(Clone, Copy, Debug)]
pub enum Bound {
    /// The outermost element.
    Nothing,
    /// A cell or a caption.
    Marker,
    /// These, or a button.
    Button,
    /// What ends the search for an open `li`, `dd` or `dt`.
    Item,
    /// A cell, a caption, an `ol` or a `ul`.
    List,
    /// A special element.
    Special,
    /// A table.
    Table,
}

// Whether an open element holds a part, or does so by implied parents.
fn is_context(part: Kind, parent: Kind) -> bool
    ensures { result ≡ is_context part parent }
{
    match (part, parent) {
        (_, Kind::Table) => true,
        (Kind::Column, Kind::ColumnGroup) => true,
        (Kind::TableRow | Kind::Cell, Kind::TableBody) => true,
        (Kind::Cell, Kind::TableRow) => true,
        _ => false,
    }
}

impl Wanted {
    fn is(self, name: ElementName) -> bool
        ensures { result ≡ is_wanted self (name_of name) }
    {
        let kind = name.kind();
        match self {
            Wanted::Anchor => matches!(kind, Kind::Anchor),
            Wanted::NoBreak => matches!(kind, Kind::NoBreak),
            Wanted::Button => matches!(kind, Kind::Button),
            Wanted::Paragraph => matches!(kind, Kind::Paragraph),
            Wanted::ListItem => matches!(kind, Kind::ListItem),
            Wanted::Description => matches!(kind, Kind::Description),
            Wanted::Heading => matches!(kind, Kind::Heading),
            Wanted::Ruby => matches!(kind, Kind::Ruby),
            Wanted::Form => matches!(kind, Kind::Form),
            Wanted::Table => matches!(kind, Kind::Table),
            Wanted::Context(part) => is_context(part, kind),
            Wanted::Named(other) => name.is(other),
        }
    }
}

impl Bound {
    fn is(self, kind: Kind) -> bool
        ensures { result ≡ is_bound self kind }
    {
        match self {
            Bound::Nothing => false,
            Bound::Marker => kind.has_marker(),
            Bound::Button => matches!(kind, Kind::Button) || kind.has_marker(),
            Bound::Item => kind.bounds_item(),
            Bound::List => matches!(kind, Kind::ListBlock) || kind.has_marker(),
            Bound::Special => kind.is_special(),
            Bound::Table => matches!(kind, Kind::Table),
        }
    }
}

/// How many of the innermost open elements are closed so that the innermost that is wanted is closed. 0 if
/// none is near. The innermost stands last.
pub fn through(opened: &[ElementName], wanted: Wanted, bound: Bound) -> usize
    ensures value { result ≡ through (is_wanted wanted) (is_bound bound) (names_open opened.now) }
    ensures within { result ≤ length opened.now }
{
    let mut at = opened.len();
    while at > 0 {
        at -= 1;
        let name = opened[at];
        if wanted.is(name) {
            return opened.len() - at;
        }
        if bound.is(name.kind()) {
            return 0;
        }
    }
    0
}

/// How many of the innermost open elements stand in the innermost that is wanted, or all.
pub fn count_inside(opened: &[ElementName], wanted: Wanted) -> usize
    ensures value { result ≡ count_inside (is_wanted wanted) (names_open opened.now) }
    ensures within { result ≤ length opened.now }
{
    match through(opened, wanted, Bound::Nothing) {
        0 => opened.len(),
        through => through - 1,
    }
}

/// Whether an end tag would be implied, before an `rp` or an `rt` or before other tags.
pub fn is_implied(before_text: bool, kind: Kind) -> bool
    ensures { result ≡ implied_before before_text kind }
{
    match kind {
        Kind::Paragraph | Kind::ListItem | Kind::Description | Kind::RubyBase | Kind::RubyText =>
            true,
        Kind::RubyContainer => !before_text,
        _ => false,
    }
}

/// How many of the innermost open elements have an end tag that would be implied.
pub fn implied_run(opened: &[ElementName], before_text: bool) -> usize
    ensures { result ≡ run_of (implied_before before_text) (names_open opened.now) }
{
    let mut at = opened.len();
    while at > 0 {
        if !is_implied(before_text, opened[at - 1].kind()) {
            return opened.len() - at;
        }
        at -= 1;
    }
    opened.len()
}

/// The kind of the innermost open element, when this many are closed.
pub fn kind_under(opened: &[ElementName], closes: usize) -> Kind
    ensures { result ≡ kind_on_top (drop closes (names_open opened.now)) }
{
    if closes < opened.len() {
        opened[opened.len() - closes - 1].kind()
    } else {
        Kind::Unknown
    }
}
