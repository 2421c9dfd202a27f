//! Tokens with their places as records of bytes, for pages whose bytes arrive in pieces.
//!
//! `PlacedRecords` writes for each token where it stands, then the run of text before it, and then the token
//! (specs/PlacedRecords). Runs and tokens are written as crate html5records writes them.
//!
//! `PlacedSession` reads a page whose bytes arrive in pieces, cut anywhere, and keeps the records until they are taken.
//! Wherever the page stands, all its whole characters were read, and the records of its tokens so far were written
//! (`StandsIn` in specs/PlacedSessions). After the end it is those of all its tokens.
#![tactic(auto)]

mod placed_records;
mod session;
mod writing;

pub use crate::placed_records::PlacedRecords;
pub use crate::session::PlacedSession;
