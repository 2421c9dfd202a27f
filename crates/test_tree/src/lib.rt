//! Tests of elements that fit, and of a writer that makes them fit, that no cleaned page shows.
#![tactic(auto)]

#[cfg(test)]
mod nesting;
#[cfg(test)]
mod writer;
