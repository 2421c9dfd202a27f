//! Where each token of a text stands, in bytes, beside the token.
//!
//! `read_places` reads a text and hands a `PlacedHandler` each token but the texts, with the whole run of text before
//! it, and where both stand. The token stands from `begin` up to `end`, the run from `text` up to `begin`. The
//! definition is `placed_tokens` (specs/Placed). A tag, a comment, an instruction and a doctype end at the character
//! that tells them, by the reading of the whole text. They begin at the last `<` after which markup may be open
//! (`is_after_less_than`). The places follow one another (`places_follow`).
//!
//! The characters between the places of such a token are one item of the grammar as source text, which tells the token
//! last. At the end of the text they may be an unfinished item, whose token the end tells. The places of each token are
//! in order and lie between characters of the text (`tokens_are_items`, with specs/Written).
//!
//! `PlaceReader` does the same for a text that arrives in pieces. A piece tells what its characters tell after all text
//! before it (`placed_by`), and places count on. The tokens of the pieces and of the end are those of the whole text
//! (`pieces_tell_the_text`). The tokens handed over stand between characters of the text so far
//! (`pieces_stand_in_the_text`). `read_to_token` stops after a token: there a caller may put a text in, as
//! `document.write` does, or set a state, as a tree builder asks. `Origins` says where the bytes of such a text come
//! from (`bytes_come_from_their_origins`).
//!
//! `position_at` gives the line and the columns of a place (specs/Positions), and `Positions` those of many in one
//! pass.
//!
//! The tokenizer is fed a text's characters one by one, which takes it about three times as long as by runs
//! (bench/RESULTS.md, `--cut 1`).
#![tactic(auto)]

mod error;
mod handler;
mod laws;
mod origins;
mod places;
mod places_in_order;
mod placing;
mod positions;
mod reader;
mod reading;
mod whole;

pub use crate::error::PlaceError;
pub use crate::handler::PlacedHandler;
pub use crate::laws::{
    bytes_come_from_their_origins, pieces_stand_in_the_text, pieces_tell_the_text, places_follow,
    tokens_are_items,
};
pub use crate::origins::{Origin, Origins, Stretch};
pub use crate::places::Places;
pub use crate::places_in_order::Positions;
pub use crate::positions::{Position, position_at};
pub use crate::reader::{DetachedPlaceReader, PlaceReader};
pub use crate::whole::read_places;
