//! Pages that are cleaned: what a policy allows is kept, and the rest is not.
#![tactic(auto)]

mod attributes;
mod balance;
mod clean_buffer;
mod clean_printer;
mod cleaner;
mod counts;
mod draft;
mod fitting;
mod hidden;
mod in_tree;
mod kept;
pub mod laws;
mod names;
mod open_elements;
mod opened;
mod page;
mod printed_page;
mod settings;

pub use crate::clean_buffer::{CleanBuffer, buffers_clean_pages};
pub use crate::clean_printer::CleanPrinter;
pub use crate::cleaner::Cleaner;
pub use crate::page::{clean_page, clean_text};
pub use crate::printed_page::{print_cleaned, prints_clean_pieces};
pub use crate::settings::{PolicySettings, SettingsError};
