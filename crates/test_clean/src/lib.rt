//! Tests of policies and of the cleaner that no run of the program shows.
#![tactic(auto)]

#[cfg(test)]
mod addresses;
#[cfg(test)]
mod pages;
