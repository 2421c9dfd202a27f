//! The encoding of a page, as C sets it and reads it.
ghost use Rattle.std.specs.Prelude.{◌≡◌, None};
ghost use Rattle.html5handle.specs.Encodings.{EncodingSays, NamesEncoding, SetsEncoding, encoding_in_slot, said_by};
ghost use Rattle.html5handle.specs.Slots.{cleaner_in, placed_in, policy_in, session_in};

use crate::names::copy_name;
use crate::slot::PageSlot;
use crate::status;
use html5cleaning::CleaningSession;
use html5encodings::Encoding;
use html5session::RecordSession;
use html5sniffing::{PageDecoder, encoding_of};
use std::alloc::Global;

// What a label says of a page, if it says something: nothing, if it has no bytes, or its encoding.
fn said_by(label: &[u8]) -> Option<Option<Encoding>>
    ensures { result ≡ said_by label.now }
{
    if label.is_empty() {
        return Some(None);
    }
    match encoding_of(label) {
        Some(encoding) => Some(Some(encoding)),
        None => None,
    }
}

// Decodes the page of a session from here on.
fn set_in_session(alloc: Global, session: &mut RecordSession<Global>, label: &[u8]) -> u32
    ensures { EncodingSays session.old session.new label.now result }
{
    if session.is_over() {
        return status::OVER;
    }
    if !session.is_unbegun() {
        return status::BEGUN;
    }
    let Some(said) = said_by(label) else {
        return status::BAD_OPTION;
    };
    session.set_page_decoder(Some(PageDecoder::new(alloc, said, None)));
    status::DONE
}

// Decodes a page that is cleaned from here on.
fn set_in_cleaner(session: &mut CleaningSession<Global>, label: &[u8]) -> u32
    ensures { EncodingSays session.old session.new label.now result }
{
    if session.is_over() {
        return status::OVER;
    }
    if !session.is_unbegun() {
        return status::BEGUN;
    }
    let Some(said) = said_by(label) else {
        return status::BAD_OPTION;
    };
    session.decode_page(said);
    status::DONE
}

impl PageSlot {
    /// Decodes the page by the encoding that a label says of it.
    pub fn set_encoding(&mut self, alloc: Global, label: &[u8]) -> u32
        ensures session { SetsEncoding (session_in self.old) (session_in self.new) label.now result }
        ensures cleaner { SetsEncoding (cleaner_in self.old) (cleaner_in self.new) label.now result }
        ensures placed { placed_in self.new ≡ placed_in self.old }
        ensures closed { session_in self.old ≡ None → cleaner_in self.old ≡ None → result ≡ 8 }
        ensures policy { policy_in self.new ≡ policy_in self.old }
    {
        match self {
            PageSlot::Tokenizer(session) => set_in_session(alloc, session, label),
            PageSlot::Cleaner(session) => set_in_cleaner(session, label),
            _ => status::CLOSED,
        }
    }

    // The encoding of the page, once it is known.
    fn encoding(&self) -> Option<Encoding>
        ensures { result ≡ encoding_in_slot self.now }
    {
        match self {
            PageSlot::Tokenizer(session) => session.encoding(),
            PageSlot::Cleaner(session) => session.encoding(),
            _ => None,
        }
    }

    /// Copies the name of the encoding.
    pub fn name_encoding(&self, out: &mut [u8]) -> usize
        ensures { NamesEncoding (encoding_in_slot self.now) out.old out.new result }
    {
        match self.encoding() {
            Some(encoding) => copy_name(encoding.name().as_bytes(), out),
            None => 0,
        }
    }
}
