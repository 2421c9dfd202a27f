//! What programs take from pages: their tokens, their links, and their text. Each is a sink or a handler
//! that prints, and a call that reads a page for it as the page arrives.
#![tactic(auto)]

pub mod bases;
pub mod link_pages;
pub mod link_settings;
pub mod links;
pub mod page_text;
pub mod text_pages;
pub mod token_lines;
pub mod token_pages;
pub mod token_settings;
