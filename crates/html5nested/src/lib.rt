//! Pages that are written so that the tree that a browser builds of them is the one that their tags show.
#![tactic(auto)]

mod fitted;
mod item;
pub mod laws;
mod nested_writer;
mod pieces;
mod planned;
mod white_space;

pub use crate::fitted::{close_all, write_fitted};
pub use crate::item::Item;
pub use crate::nested_writer::NestedWriter;
