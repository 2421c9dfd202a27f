//! Pages that are rewritten: a rewriter keeps, changes or drops their tags, and text is kept.
#![tactic(auto)]

mod attributes;
mod edits;
pub mod laws;
mod output;
mod page;
mod rewriter;
mod rewriting;
mod written;

pub use crate::edits::{drop_attribute, set_attribute, value_of};
pub use crate::output::Output;
pub use crate::page::{rewrite_page, rewrite_text};
pub use crate::rewriter::{Keep, TagRewriter};
pub use crate::rewriting::Rewriting;
