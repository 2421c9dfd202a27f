//! A tree builder as the sink of a tokenizer.
#![tactic(auto)]

pub mod attributes;
pub mod handle;
pub mod readings;
pub mod sink;
pub mod taking;

pub use crate::attributes::Attributes;
pub use crate::handle::ScriptHandle;
pub use crate::readings::readings_build_trees;
pub use crate::sink::TreeBuilder;
