//! Worked cases of tokens that are written back.
#![tactic(auto)]

#[cfg(test)]
mod memory;
#[cfg(test)]
mod pages;
#[cfg(test)]
mod raw_texts;
#[cfg(test)]
mod reading;
#[cfg(test)]
mod refusals;
#[cfg(test)]
mod scripting;
#[cfg(test)]
mod written;
