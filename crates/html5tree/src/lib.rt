//! What a browser builds of tags and texts: tree construction of the HTML standard, which tags are built as
//! they are nested, and how others are made to fit. The definitions are in specs/, and `laws` has what is
//! proved of them. In code a `nesting::Nesting` says for each tag and text what is done so that it fits.
#![tactic(auto)]

mod fitting;
pub mod kinds;
pub mod laws;
mod moves;
pub mod names;
pub mod nesting;
mod normal;
pub mod plans;
mod searches;
