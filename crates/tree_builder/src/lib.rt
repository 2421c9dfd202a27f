//! The tree builder: takes tokens, and tells a sink how to build the document.
#![tactic(auto)]

pub mod adoption;
pub mod adoption_agency;
pub mod after_body;
pub mod after_head;
pub mod before_head;
pub mod builder;
pub mod characters;
pub mod closing;
pub mod dispatch;
pub mod foreign_content;
pub mod formatting;
pub mod fragments;
pub mod framesets;
pub mod in_body;
pub mod in_body_formatting;
pub mod in_body_page;
pub mod in_body_tags;
pub mod in_table;
pub mod in_template;
pub mod inserting;
pub mod modes;
pub mod options;
pub mod places;
pub mod request;
pub mod resetting;
pub mod runs;
pub mod start_tags;
pub mod starting;
pub mod table_parts;
pub mod table_text;
pub mod tag;
pub mod text_search;
pub mod text_tokens;
pub mod texts;
pub mod tokens;
