//! A tokenizer that takes the bytes of a page as they arrive, with its table and its sink. It owns all that it needs,
//! so it can be kept between two calls.
#![tactic(auto)]

mod error;
mod intake;
mod laws;
mod records;
mod session;

pub use crate::error::SessionError;
pub use crate::laws::{readings_ignore_taking, records_wait_on};
pub use crate::records::RecordSession;
pub use crate::session::Session;
