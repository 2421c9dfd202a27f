//! What contracts alone see: counts, bytes that were handed on, and other values that follow from two.
//! They have no bytes at run time, which is checked below.
#![tactic(auto)]

mod count;
mod log;
mod noted;

pub use crate::count::Count;
pub use crate::log::Log;
pub use crate::noted::{Follows, Noted, note};

const _: () = prove!(size_of::<Count>() == 0);

const _: () = prove!(size_of::<Log>() == 0);
