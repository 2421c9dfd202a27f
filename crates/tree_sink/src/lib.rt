//! What a sink of a tree is: it makes nodes, and puts them in their places. And an editor, which tells a
//! sink the edits of a document in order.
#![tactic(auto)]

pub mod attributes;
pub mod editor;
pub mod error;
pub mod handle;
mod noted;
pub mod place;
pub mod sink;
