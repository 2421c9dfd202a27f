//! What the normaliser does for an item: a plan.
ghost use Rattle.std.specs.Prelude.{◌≡◌, ◌≤◌, ◌==◌, length, option_map, slice_get};

use crate::names::ElementName;

/// What is written in the place of an item.
#[derive(Clone, Copy, Debug, PartialEq, Eq)]
pub enum Written {
    /// The item.
    Itself,
    /// Nothing: it is dropped, or all that it does is to close elements.
    Nothing,
    /// A text in two parts: the white space at its front before anything is closed, and the rest after
    /// that.
    Parted,
    /// The white space of a text, and no other characters.
    WhiteSpace,
    /// An empty `p`, for an end tag `p`.
    EmptyParagraph,
    /// A `br`, for an end tag `br`.
    LineBreak,
}

/// Implied parents that are opened, each in the one before.
#[derive(Clone, Copy, Debug, PartialEq, Eq)]
pub enum Parents {
    Nothing,
    /// `colgroup`.
    Group,
    /// `tbody`.
    Body,
    /// `tbody`, `tr`.
    BodyRow,
    /// `tr`.
    Row,
    /// `tbody`, `tr`, `td`.
    BodyRowCell,
    /// `tr`, `td`.
    RowCell,
    /// `td`.
    Cell,
}

/// What is done for an item: elements are closed, implied parents are opened, and something is written.
#[derive(Clone, Copy, Debug, PartialEq, Eq)]
pub struct Plan {
    /// How many of the innermost open elements are closed first.
    pub closes: usize,
    /// The implied parents that are opened then.
    pub opens: Parents,
    /// What is written in the place of the item.
    pub writes: Written,
}

impl Parents {
    ghost use Rattle.html5tree.specs.ElementNames.{name_of};
    ghost use Rattle.html5tree.specs.Planned.{parents_said};

    /// How many there are.
    pub fn len(self) -> usize
        ensures value { result ≡ length (parents_said self) }
        ensures few { result ≤ 3 }
    {
        match self {
            Parents::Nothing => 0,
            Parents::Group | Parents::Body | Parents::Row | Parents::Cell => 1,
            Parents::BodyRow | Parents::RowCell => 2,
            Parents::BodyRowCell => 3,
        }
    }

    /// Whether there are none.
    pub fn is_empty(self) -> bool
        ensures { result ≡ (length (parents_said self) == 0) }
    {
        matches!(self, Parents::Nothing)
    }

    /// The name of the outermost, of the one in it, and so on.
    pub fn get(self, at: usize) -> Option<ElementName>
        ensures { option_map name_of result ≡ slice_get (parents_said self) at }
    {
        match (self, at) {
            (Parents::Group, 0) => Some(ElementName::COLUMN_GROUP),
            (Parents::Body | Parents::BodyRow | Parents::BodyRowCell, 0) => {
                Some(ElementName::TABLE_BODY)
            }
            (Parents::Row | Parents::RowCell, 0) | (Parents::BodyRow | Parents::BodyRowCell, 1) => {
                Some(ElementName::TABLE_ROW)
            }
            (Parents::Cell, 0) | (Parents::RowCell, 1) | (Parents::BodyRowCell, 2) => {
                Some(ElementName::CELL)
            }
            _ => None,
        }
    }
}
