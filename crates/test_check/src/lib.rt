//! Worked cases of what is found in pages.
#![tactic(auto)]

#[cfg(test)]
mod found;
#[cfg(test)]
mod masks;
