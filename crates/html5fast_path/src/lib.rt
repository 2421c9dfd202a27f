//! The fast path: characters that tell nothing, as most of a tag's are, are read without a sink and many
//! at once.
//!
//! Internal to `html5ever`, which callers use.
#![tactic(auto)]

mod characters;
mod names;
pub mod tag_ends;
pub mod texts;
