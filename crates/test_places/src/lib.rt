//! Worked cases of where tokens stand.
#![tactic(auto)]

#[cfg(test)]
mod calls;
#[cfg(test)]
mod origins;
#[cfg(test)]
mod pieces;
#[cfg(test)]
mod placed;
#[cfg(test)]
mod positions;
