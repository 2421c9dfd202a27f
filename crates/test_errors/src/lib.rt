//! Worked cases of the standard's codes of errors.
#![tactic(auto)]

#[cfg(test)]
mod told;
