//! Pages that are edited by words: attributes are set and removed, elements are dropped, and the addresses of links are
//! made absolute. The rest stays unchanged, to the byte.
#![tactic(auto)]

mod changes;
mod edit_pages;
mod editor;
mod noopener;
mod rule;
mod settings;
mod tags;

pub use crate::changes::{ChangeError, Changes};
pub use crate::edit_pages::EditPages;
pub use crate::editor::Editor;
pub use crate::rule::AttributeRule;
pub use crate::settings::{EditError, EditSettings};
