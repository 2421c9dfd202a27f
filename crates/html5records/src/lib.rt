//! A sink that writes each token as a record of bytes, so that a program in any language can read tokens.
#![tactic(auto)]

pub mod kinds;
pub mod reading;
pub mod record_sink;
pub mod records;
