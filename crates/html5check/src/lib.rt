//! What is wrong in pages, and where: `firnuubal check`.
//!
//! `read_seen` reads a text into its tokens with their places, and `findings_in` finds by them what is wrong, in order
//! of places. It finds parse errors by the standard's codes, end tags without a start tag, elements that are left open,
//! repeated ids, and misspelled names. The findings are a definition (specs/Checking). `Check` is the filter that
//! prints it.
#![tactic(auto)]

mod check;
mod checker;
mod elements;
mod finding;
mod findings;
mod ids;
mod laws;
mod lines;
mod located;
mod open_elements;
mod report;
mod seen;
mod settings;
mod template;
mod token_findings;

pub use crate::check::Check;
pub use crate::finding::{Fault, Finding};
pub use crate::findings::findings_in;
pub use crate::laws::findings_stand_at_tokens;
pub use crate::lines::lines_of;
pub use crate::located::{Located, locate};
pub use crate::report::{Lines, Report};
pub use crate::seen::{SeenToken, read_seen};
pub use crate::settings::{CheckSettings, UnknownTemplate};
pub use crate::template::{Template, masked, template_named};
