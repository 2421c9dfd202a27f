//! Kinds of elements: all that the rules of tree construction tell apart in their names.
ghost use Rattle.std.specs.Prelude.{◌≡◌};

/// A kind of element: names that all rules treat alike.
#[derive(Clone, Copy, Debug, PartialEq, Eq)]
pub enum Kind {
    /// `abbr`, `bdi`, `span` and their like: what the standard calls "any other start tag".
    Ordinary,
    /// `ruby`.
    Ruby,
    /// `a`, a formatting element.
    Anchor,
    /// `nobr`, a formatting element.
    NoBreak,
    /// The other formatting elements: `b`, `i`, `code` and their like.
    Formatting,
    /// `p`.
    Paragraph,
    /// `address` and `div`.
    Division,
    /// `search`.
    Search,
    /// `dialog`.
    Dialog,
    /// `ol` and `ul`.
    ListBlock,
    /// The other blocks: `section`, `blockquote`, `dl` and their like.
    Block,
    /// `li`.
    ListItem,
    /// `dd` and `dt`.
    Description,
    /// `h1` to `h6`.
    Heading,
    /// `pre` and `listing`.
    Preformatted,
    /// `hr`, which has no end tag.
    Rule,
    /// The other elements that have no end tag, but `col`: `br`, `img` and their like.
    Void,
    /// `rb`.
    RubyBase,
    /// `rtc`.
    RubyContainer,
    /// `rp` and `rt`.
    RubyText,
    /// `button`.
    Button,
    /// `form`.
    Form,
    /// `table`.
    Table,
    /// `caption`.
    Caption,
    /// `colgroup`.
    ColumnGroup,
    /// `col`, which has no end tag.
    Column,
    /// `tbody`, `tfoot` and `thead`.
    TableBody,
    /// `tr`.
    TableRow,
    /// `td` and `th`.
    Cell,
    /// An element of another name: no rule here speaks of it.
    Unknown,
}

impl Kind {
    ghost use Rattle.html5tree.specs.Fitting.{bounds_item, can_open, holds_parts};
    ghost use Rattle.html5tree.specs.Names.{has_marker, is_part, is_special, is_void};

    /// Whether it is in the standard's category "special".
    pub fn is_special(self) -> bool
        ensures { result ≡ is_special self }
    {
        !matches!(
            self,
            Kind::Ordinary
                | Kind::Ruby
                | Kind::Anchor
                | Kind::NoBreak
                | Kind::Formatting
                | Kind::Dialog
                | Kind::RubyBase
                | Kind::RubyContainer
                | Kind::RubyText
                | Kind::Unknown
        )
    }

    /// Whether the search for an open `li`, `dd` or `dt` ends at it.
    pub fn bounds_item(self) -> bool
        ensures { result ≡ bounds_item self }
    {
        self.is_special() && !matches!(self, Kind::Paragraph | Kind::Division | Kind::Search)
    }

    /// Whether it has no end tag, and is never open.
    pub fn is_void(self) -> bool
        ensures { result ≡ is_void self }
    {
        matches!(self, Kind::Rule | Kind::Void | Kind::Column)
    }

    /// Whether an element of it can be open.
    pub fn can_open(self) -> bool
        ensures { result ≡ can_open self }
    {
        !matches!(self, Kind::Rule | Kind::Void | Kind::Column | Kind::Unknown)
    }

    /// Whether it is a cell or a caption, which bound most searches.
    pub fn has_marker(self) -> bool
        ensures { result ≡ has_marker self }
    {
        matches!(self, Kind::Caption | Kind::Cell)
    }

    /// Whether it is a part of a table.
    pub fn is_part(self) -> bool
        ensures { result ≡ is_part self }
    {
        matches!(
            self,
            Kind::Caption
                | Kind::ColumnGroup
                | Kind::Column
                | Kind::TableBody
                | Kind::TableRow
                | Kind::Cell
        )
    }

    /// Whether only parts of tables, and white space, stand in it.
    pub fn holds_parts(self) -> bool
        ensures { result ≡ holds_parts self }
    {
        matches!(
            self,
            Kind::Table | Kind::ColumnGroup | Kind::TableBody | Kind::TableRow
        )
    }
}
