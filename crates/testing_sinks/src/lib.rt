//! Sinks for tests and scripts: one that faults, one that replies, one to which content is now and then
//! foreign, one that counts; and what they were sent, as lines.
#![tactic(auto)]

pub mod alternating;
pub mod counting;
pub mod faulty;
pub mod lines;
pub mod shown;
pub mod steering;
