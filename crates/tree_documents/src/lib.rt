//! Parses documents and fragments whole: a tokenizer over a tree builder, which tells a sink how to build the tree.
#![tactic(auto)]

pub mod document;

pub use crate::document::{parse_document, parse_fragment};
