//! Constructs that are read in part, and their buffers: the state, the tag so far, the text of a comment,
//! the DOCTYPE, the letters of a keyword, the characters of a reference; and the texts of messages.
//! Nothing here knows a sink.
//!
//! Internal to `html5ever`, which callers use.
#![tactic(auto)]

pub mod cdata;
pub mod char_ref;
pub mod characters;
pub mod comments;
pub mod current_tag;
pub mod declaration;
pub mod doctype_keyword;
pub mod doctypes;
pub mod error;
pub mod found;
pub mod indexed_tag;
pub mod keyword;
pub mod letters;
pub mod message;
pub mod number;
pub mod opened;
pub mod runs;
pub mod spares;
mod tag_parts;
