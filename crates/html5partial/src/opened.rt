//! The construct that is open, and what a character brings.

use crate::current_tag::CurrentTag;
use crate::error::TokenizerError;
use html5ever_interface::interface::token::Doctype;
use html5ever_interface::states::State;
use std::alloc::{Allocator, Global};

/// The construct that is open: the state, the tag that was begun, and what else was.
pub struct Opened<A: Allocator = Global> {
    pub state: State,
    pub tag: CurrentTag<A>,
    /// The comment or processing instruction so far; or the text that is held of a CDATA section; or
    /// the characters that may begin a keyword.
    pub comment: String<A>,
    /// The DOCTYPE so far.
    pub doctype: Doctype<A>,
    /// The standard's temporary buffer: in raw text the letters after `</`, or after the `<` of escaped
    /// script data.
    pub letters: String<A>,
    /// The name whose end tag ends raw text, that of the last start tag. It is empty if there is none.
    pub last_start_tag: String<A>,
}

// By hand: a derived drop is written out, and proved, at each place where a value is dropped.
impl<A: Allocator> Drop for Opened<A> {
    fn drop(self) {
        let Opened {
            state: _,
            tag: _,
            comment: _,
            doctype: _,
            letters: _,
            last_start_tag: _,
        } = self;
    }
}

/// What a character brings, besides what it tells.
#[derive(Clone, Copy, Debug, PartialEq, Eq)]
pub enum Progress {
    /// Reading goes on in the state that is open.
    Continues,
    /// The character is an `&`: a reference begins, and stands where the state is.
    BeginsReference,
    /// The open tag ends: it is to be sent, and the sink's reply may choose another state.
    EndsTag,
}

/// What reading a character answers.
pub type Step = Result<Progress, TokenizerError>;
