//! Tests of the tokenizer's parts, and of what callers write.
#![tactic(auto)]

#[cfg(test)]
mod characters;
#[cfg(test)]
mod examples;
#[cfg(test)]
mod kept_parts;
#[cfg(test)]
mod keys;
#[cfg(test)]
mod lines;
#[cfg(test)]
mod reading;
