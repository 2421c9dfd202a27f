//! A document as lines, as the public tests of tree construction write it.
#![tactic(auto)]

mod attributes;
mod line;
mod names;
pub mod tree;
