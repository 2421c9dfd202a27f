//! The states of the tokenizer: what a character makes of the construct that is open, and what the sink
//! is sent.
//!
//! Internal to `html5ever`, which callers use.
#![tactic(auto)]

mod attributes;
mod cdata_states;
mod comment_states;
mod doctype_states;
mod end_of_input;
mod end_tag;
mod escape_states;
mod identifier_states;
mod instruction_states;
mod keywords;
mod raw_states;
mod references;
mod step;
mod step_in_doctype;
mod tag_states;
pub mod teller;
mod text_states;
mod value_states;
