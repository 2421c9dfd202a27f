//! Pages of which tokens are replaced, and the rest stays unchanged, to the byte.
#![tactic(auto)]

mod cut;
mod edit;
pub mod laws;
mod page;
mod splicer;
mod splicing;
mod window;

pub use crate::cut::Cut;
pub use crate::edit::{Edit, Edits};
pub use crate::page::{splice_page, splice_text};
pub use crate::splicer::Splicer;
pub use crate::splicing::Splicing;
