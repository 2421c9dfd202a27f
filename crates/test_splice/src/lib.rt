//! Tests of pages that are spliced.
#![tactic(auto)]

#[cfg(test)]
mod memory;
#[cfg(test)]
mod pages;
mod shouting;
#[cfg(test)]
mod texts;
