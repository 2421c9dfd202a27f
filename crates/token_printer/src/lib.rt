//! A sink that prints what a tokenizer of HTML sends it.
#![tactic(auto)]

mod output;
pub mod print_sink;
mod printed;
