//! A cleaner that takes the bytes of a page as they arrive, and whose page is taken as it comes. It owns all that it
//! needs, so it can be kept between two calls.
#![tactic(auto)]

mod session;

pub use crate::session::CleaningSession;
pub use html5session::SessionError;
