//! What a tokenizer of HTML and its callers speak of: states, tokens, sinks and options.
#![tactic(auto)]

pub mod collect;
pub mod interface;
pub mod options;
pub mod states;
