//! Pages that are amended: a handler sees each element at its start tag, and says what changes. The rest stays
//! unchanged, to the byte.
#![tactic(auto)]

mod amender;
mod amending;
mod content;
mod element;
mod error;
pub mod laws;
mod open;
mod other;
mod page;
mod part;
mod waiting;

pub use crate::amender::{Amender, SaysElement, SaysOther};
pub use crate::content::Content;
pub use crate::element::Element;
pub use crate::error::AmendError;
pub use crate::other::Other;
pub use crate::page::{amend_page, amend_text};
