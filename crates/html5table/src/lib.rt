//! The text form of a table of named references, as a command line gives it.
#![tactic(auto)]

mod entry;
mod list;
mod short_list;
mod table;

pub use crate::list::{entries_of, has_form};
pub use crate::short_list::profile;
pub use crate::table::references_of;
