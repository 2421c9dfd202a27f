//! A rewriter of links, and worked cases: of pages that it rewrites, and of pages that are written piece by
//! piece.
#![tactic(auto)]

mod links;
#[cfg(test)]
mod memory;
#[cfg(test)]
mod pages;
#[cfg(test)]
mod writer;

pub use crate::links::AbsoluteLinks;
