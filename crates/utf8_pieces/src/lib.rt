//! Texts from bytes that arrive in pieces, cut anywhere, also within a character.
//!
//! What was given is the text of the bytes so far, except for at most three that may begin a
//! character. Bytes that are not UTF-8 are refused at their place and never replaced, and so is a
//! character that is cut at the end.
#![tactic(auto)]

mod decoder;
mod error;
mod front;

pub use crate::decoder::{Decoder, decode_all};
pub use crate::error::DecodeError;
