//! A tokenizer for HTML that takes its text in pieces.
#![tactic(auto)]

pub mod tokenizer;

pub use crate::tokenizer::{Tokenizer, TokenizerResult};
pub use html5partial::error::TokenizerError;
