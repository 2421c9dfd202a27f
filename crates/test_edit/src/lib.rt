//! Tests of pages that are edited by words.
#![tactic(auto)]

#[cfg(test)]
mod pages;
