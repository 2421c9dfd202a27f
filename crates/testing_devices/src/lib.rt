//! Devices for tests.
#![tactic(auto)]

mod failing;
mod pieces;

pub use crate::failing::FailingSource;
pub use crate::pieces::PieceSource;
