//! The program `html5tok`, except for its `main`: its words, its settings, and a run of it over any
//! devices.
#![tactic(auto)]

pub mod arguments;
mod cuts;
pub mod feeding;
mod output;
pub mod print;
pub mod run;
pub mod settings;
