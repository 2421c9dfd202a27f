//! The two lists of a tree builder: "the stack of open elements" and "the list of active formatting elements".
#![tactic(auto)]

pub mod formatting;
pub mod opened;
pub mod stack;
pub mod wanted;
