//! Pages that are written piece by piece, and read again as what they were written for.
#![tactic(auto)]

mod appending;
mod checks;
mod error;
pub mod laws;
mod piece;
mod runs;
mod trail;
mod utf8;
mod writable;
mod writer;

pub use crate::checks::{is_attribute_name, is_tag_name, refusal_of};
pub use crate::error::WriteError;
pub use crate::piece::{Attribute, Piece};
pub use crate::writable::Writable;
pub use crate::writer::Writer;
