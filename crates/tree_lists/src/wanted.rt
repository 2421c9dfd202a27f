//! What is searched for among the open elements, and what ends a search.
ghost use Rattle.std.specs.Prelude.{◌≡◌};
ghost use Rattle.tree_lists.specs.Wanted.{ends, is_in};

use std::alloc::Allocator;
use tree_construction::kinds::Kind;
use tree_names::name::ElementName;

/// A set of kinds of elements.
#[derive(Clone, Copy, Debug, PartialEq, Eq)]
pub enum KindSet {
    Body,
    Button,
    Caption,
    Cell,
    ColumnGroup,
    Description,
    Form,
    Frameset,
    Heading,
    ListItem,
    NoBreak,
    OptionGroup,
    /// An `option` or an `optgroup`.
    OptionOrGroup,
    Paragraph,
    Ruby,
    RubyContainer,
    /// A `rtc` or a `ruby`.
    RubyOrContainer,
    Script,
    Select,
    SelectOption,
    SvgScript,
    Table,
    TableBody,
    TableRow,
    /// Where characters are table text.
    TableText,
    Template,
}

/// What ends the search in a scope.
#[derive(Clone, Copy, Debug, PartialEq, Eq)]
pub enum Scope {
    /// "Has an element in scope".
    Default,
    /// "Has an element in list item scope".
    ListItem,
    /// "Has an element in button scope".
    Button,
    /// "Has an element in table scope".
    Table,
}

/// What is searched for.
#[derive(Drop)]
pub enum Wanted<'n, H, A: Allocator> {
    /// An element of one of some kinds.
    Of(KindSet),
    /// An HTML element of a name.
    Named(&'n ElementName<A>),
    /// One element.
    Node(H),
}

impl KindSet {
    /// Whether a kind is in the set.
    pub fn has(self, kind: Kind) -> bool
        ensures { result ≡ is_in self kind }
    {
        match self {
            KindSet::Body => kind.is_body(),
            KindSet::Button => kind.is_button(),
            KindSet::Caption => kind.is_caption(),
            KindSet::Cell => kind.is_cell(),
            KindSet::ColumnGroup => kind.is_column_group(),
            KindSet::Description => kind.is_description(),
            KindSet::Form => kind.is_form(),
            KindSet::Frameset => kind.is_frameset(),
            KindSet::Heading => kind.is_heading(),
            KindSet::ListItem => kind.is_list_item(),
            KindSet::NoBreak => kind.is_no_break(),
            KindSet::OptionGroup => kind.is_option_group(),
            KindSet::OptionOrGroup => kind.is_select_option() || kind.is_option_group(),
            KindSet::Paragraph => kind.is_paragraph(),
            KindSet::Ruby => kind.is_ruby(),
            KindSet::RubyContainer => kind.is_ruby_container(),
            KindSet::RubyOrContainer => kind.is_ruby_container() || kind.is_ruby(),
            KindSet::Script => kind.is_script(),
            KindSet::Select => kind.is_select(),
            KindSet::SelectOption => kind.is_select_option(),
            KindSet::SvgScript => kind.is_svg_script(),
            KindSet::Table => kind.is_table(),
            KindSet::TableBody => kind.is_table_body(),
            KindSet::TableRow => kind.is_table_row(),
            KindSet::TableText => kind.takes_table_text(),
            KindSet::Template => kind.is_template(),
        }
    }
}

impl Scope {
    /// Whether an element of a kind ends the search.
    pub fn ends(self, kind: Kind) -> bool
        ensures { result ≡ ends self kind }
    {
        match self {
            Scope::Default => kind.ends_scope(),
            Scope::ListItem => kind.ends_list_scope(),
            Scope::Button => kind.ends_button_scope(),
            Scope::Table => kind.ends_table_scope(),
        }
    }
}
