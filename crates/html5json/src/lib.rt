//! The tokens and links of pages as JSON, an object a line, printed as the pages arrive; and the findings in pages as
//! JSON, an object a line, or as a SARIF log.
#![tactic(auto)]

pub mod findings;
pub mod json_links;
pub mod json_tokens;
pub mod laws;
mod lines;
mod members;
pub mod sarif;
mod tokens;
