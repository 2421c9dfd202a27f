//! Bytes that are written at one end and taken at the other.
#![tactic(auto)]

pub mod front;
mod outbox;

pub use crate::outbox::Outbox;
