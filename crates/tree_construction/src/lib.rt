//! "Tree construction" of the HTML standard, whole: what a browser builds of the tokens of a page. The
//! definitions are in specs/.
#![tactic(auto)]

pub mod kinds;
pub mod mistakes;
pub mod modes;
