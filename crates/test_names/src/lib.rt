//! Worked cases of the names of elements and attributes.
#![tactic(auto)]

#[cfg(test)]
mod attributes;
#[cfg(test)]
mod elements;
