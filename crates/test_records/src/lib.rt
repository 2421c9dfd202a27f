//! Worked cases of the sink of records, with bytes written by hand.
#![tactic(auto)]

#[cfg(test)]
mod made;
#[cfg(test)]
mod reading;
#[cfg(test)]
mod records;
#[cfg(test)]
mod taking;
#[cfg(test)]
mod tokenized;
