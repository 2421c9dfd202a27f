//! The named character references of the standard, as a table.
#![tactic(auto)]

mod list;
mod table;

pub use crate::list::standard_list;
pub use crate::table::standard_references;
