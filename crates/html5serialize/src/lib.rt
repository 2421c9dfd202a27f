//! Tokens that are written back, so that they are read again as themselves.
#![tactic(auto)]

mod checks;
mod doctypes;
mod elements;
mod error;
mod escaping;
pub mod laws;
mod names;
mod page_writer;
mod raw_texts;
mod scripting;
mod scripting_sink;
mod tags;
mod tokens;

pub use crate::checks::token_refusal;
pub use crate::elements::push_element;
pub use crate::error::{RawTextError, SerializeError};
pub use crate::escaping::Escapes;
pub use crate::names::{is_attribute_name, is_tag_name};
pub use crate::page_writer::{PageOptions, PageWriter, Place, push_page};
pub use crate::raw_texts::{push_raw_text, raw_text_refusal};
pub use crate::scripting::reply_by;
pub use crate::scripting_sink::ScriptingSink;
pub use crate::tags::push_tag;
pub use crate::tokens::push_token;
