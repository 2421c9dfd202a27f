//! Reads a tokenizer's text from a source of bytes, as they arrive.
#![tactic(auto)]

mod error;
mod page;
mod source;

pub use crate::error::StreamError;
pub use crate::page::{read_tags, read_tokens};
pub use crate::source::read_source;
