//! Tests of pages that are amended.
#![tactic(auto)]

mod calls;
mod links;
#[cfg(test)]
mod memory;
#[cfg(test)]
mod pages;
#[cfg(test)]
mod refusals;
#[cfg(test)]
mod texts;
