//! A source of bytes in an encoding, as a source of text in UTF-8: errors are replaced, or fatal.
#![tactic(auto)]

mod lines;
mod place;
mod source;
mod undecoded;
mod waiting;

pub use crate::lines::{LineEnds, line_ends};
pub use crate::source::{DecodedSource, ErrorMode};
