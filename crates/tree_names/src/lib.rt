//! Names, attributes and doctypes, as the rows of tree construction compare and change them.
#![tactic(auto)]

pub mod adjusting;
pub mod attributes;
pub mod doctypes;
pub mod known;
pub mod name;
