//! How a queue is read: a character, a run of characters, and the pauses after tags.
//!
//! Internal to `html5ever`, which callers use.
#![tactic(auto)]

mod character;
mod good_runs;
mod input;
pub mod position;
pub mod reading;
pub mod rules;
mod undecided;
