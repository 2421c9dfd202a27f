//! The classes of characters that rows tell apart, and what rows do with each.
ghost use Rattle.std.specs.Prelude.{◌≡◌, if◌then◌else◌};
ghost use Rattle.tree_construction.specs.Names.{is_column_group, takes_table_text};
ghost use Rattle.tree_construction.specs.Parser.{is_current};
ghost use Rattle.tree_builder.specs.Characters.{IsOf, action_of, by_null, by_space, foreign_action, html_action, takes_characters};
ghost use Rattle.tree_builder.specs.declared.characters.TextAction.TheVariants.{Foster, Refuse, Reprocess};

use crate::builder::Builder;
use std::alloc::Allocator;
use tree_construction::kinds::Kind;
use tree_construction::modes::Mode;
use tree_lists::wanted::{KindSet, Wanted};
use tree_sink::attributes::TagAttributes;
use tree_sink::sink::TreeSink;

/// The classes of characters that rows tell apart.
#[derive(Clone, Copy, Debug, PartialEq, Eq)]
pub enum TextClass {
    /// U+0000.
    Null,
    /// ASCII white space, with U+000D.
    Space,
    /// Any other character.
    Other,
}

/// What a row does with a character.
#[derive(Clone, Copy, Debug, PartialEq, Eq)]
pub enum TextAction {
    /// "Ignore the token".
    Ignore,
    /// "Parse error. Ignore the token".
    Refuse,
    /// "Insert the character".
    Insert,
    /// As "in body" has it: the active formatting elements are reconstructed first.
    InsertInBody,
    /// "Append the character token to the pending table character tokens list".
    Collect,
    /// As "in table" has it, with foster parenting.
    Foster,
    /// "Insert a U+FFFD REPLACEMENT CHARACTER character".
    Replace,
    /// As in foreign content: framesets are kept out.
    InsertForeign,
    /// "Reprocess the token", in another mode.
    Reprocess,
}

impl TextClass {
    /// The class of a byte.
    pub fn of(byte: u8) -> TextClass
        ensures { IsOf result byte }
    {
        match byte {
            0 => TextClass::Null,
            b'\t' | b'\n' | 0x0C | b'\r' | b' ' => TextClass::Space,
            _ => TextClass::Other,
        }
    }

    // One of two actions: that for white space, or that for other characters.
    fn by_space(self, spaces: TextAction, others: TextAction) -> TextAction
        ensures { result ≡ by_space self spaces others }
    {
        match self {
            TextClass::Space => spaces,
            _ => others,
        }
    }

    // One of two actions: that for U+0000, or that for other characters.
    fn by_null(self, nulls: TextAction, others: TextAction) -> TextAction
        ensures { result ≡ by_null self nulls others }
    {
        match self {
            TextClass::Null => nulls,
            _ => others,
        }
    }

    // The action in foreign content.
    fn foreign_action(self) -> TextAction
        ensures { result ≡ foreign_action self }
    {
        match self {
            TextClass::Null => TextAction::Replace,
            TextClass::Space => TextAction::Insert,
            TextClass::Other => TextAction::InsertForeign,
        }
    }
}

impl<S: TreeSink<T> + Drop, T: TagAttributes, A: Allocator + Copy> Builder<S, T, A> {
    // The action of the table modes.
    fn table_action(&self) -> TextAction
        ensures { result ≡ (if is_current takes_table_text self.now.parser then Reprocess else Foster) }
    {
        if self.current_is(&Wanted::Of(KindSet::TableText)) {
            return TextAction::Reprocess;
        }
        TextAction::Foster
    }

    // The action of characters other than white space "in column group".
    fn column_group_action(&self) -> TextAction
        ensures { result ≡ (if is_current is_column_group self.now.parser then Reprocess else Refuse) }
    {
        if self.current_is(&Wanted::Of(KindSet::ColumnGroup)) {
            return TextAction::Reprocess;
        }
        TextAction::Refuse
    }

    // The action by the rules for parsing tokens in HTML content.
    fn html_action(&self, class: TextClass) -> TextAction
        ensures { result ≡ html_action class self.now.parser.mode (is_current takes_table_text self.now.parser) (is_current is_column_group self.now.parser) }
    {
        match self.mode {
            Mode::Initial | Mode::BeforeHtml | Mode::BeforeHead => {
                class.by_space(TextAction::Ignore, TextAction::Reprocess)
            }
            Mode::InHead | Mode::InHeadNoscript | Mode::AfterHead => {
                class.by_space(TextAction::Insert, TextAction::Reprocess)
            }
            Mode::InBody | Mode::InCaption | Mode::InCell | Mode::InTemplate => {
                TextAction::InsertInBody
            }
            Mode::Text => TextAction::Insert,
            Mode::InTable | Mode::InTableBody | Mode::InRow => self.table_action(),
            Mode::InTableText => class.by_null(TextAction::Refuse, TextAction::Collect),
            Mode::InColumnGroup => class.by_space(TextAction::Insert, self.column_group_action()),
            Mode::AfterBody | Mode::AfterAfterBody => {
                class.by_space(TextAction::InsertInBody, TextAction::Reprocess)
            }
            Mode::InFrameset | Mode::AfterFrameset => {
                class.by_space(TextAction::Insert, TextAction::Refuse)
            }
            Mode::AfterAfterFrameset => {
                class.by_space(TextAction::InsertInBody, TextAction::Refuse)
            }
        }
    }

    /// What is done with a character of a class.
    pub fn text_action(&self, class: TextClass) -> TextAction
        ensures { result ≡ action_of class self.now.parser }
    {
        if takes_characters(self.adjusted_kind()) {
            return self.html_action(class);
        }
        class.foreign_action()
    }
}

// Whether characters are processed as HTML content, by the kind of the adjusted current node.
fn takes_characters(kind: Kind) -> bool
    ensures { result ≡ takes_characters kind }
{
    kind.is_html() || kind.is_math_text_point() || kind.is_html_point()
}
