//! What a tokenizer sends its sink, and what a sink is.
pub mod message;
pub mod sink;
pub mod token;
