//! A document as an arena of nodes: a sink of a tree that keeps what it is told.
#![tactic(auto)]

pub mod arena;
mod attributes;
mod children;
pub mod laws;
mod making;
mod moves;
pub mod node;
mod numbers;
mod places;
pub mod row;
mod rows;
mod sink;
