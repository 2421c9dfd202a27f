//! What a policy keeps of a page, as a value: elements, attributes, schemes of addresses. A policy
//! that would let a page run anything, or be read otherwise than it was written, is refused.
#![tactic(auto)]

mod addresses;
mod error;
mod faults;
mod guesses;
mod marks;
mod names;
mod policy;
mod rule;
mod rules;
mod standard;
mod text;
mod words;

pub use crate::error::{PolicyError, RuleError};
pub use crate::names::{acts_on_page, always_hides, is_address};
pub use crate::policy::Policy;
pub use crate::rule::Rule;
pub use crate::standard::standard_text;
pub use crate::text::number_of;
