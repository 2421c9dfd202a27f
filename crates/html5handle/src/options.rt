//! How a page is to be read, as C says it.
ghost use Rattle.std.specs.Prelude.{◌≡◌, Some, option_map, string_bytes, IfSome, IsNone};
ghost use Rattle.html5handle.specs.Said.{state_said, replies_said, options_by, places_said};
ghost use Rattle.html5ever_interface.specs.Options.{options_of};
ghost use Rattle.html5feed.specs.Starting.{CanStart};

use html5ever::tokenizer::TokenizerOpts;
use html5ever_interface::states::{RawKind, State};
use html5records::record_sink::{RecordOptions, Replies};
use std::alloc::Global;

/// How a page is to be read. Zeros are a page from its start, with the standard's replies.
#[repr(C)]
#[derive(Clone, Copy)]
pub struct Options {
    /// The state to start in: 0 data, 1 plain text, 2 RCDATA, 3 RAWTEXT, 4 script data, 5 a CDATA
    /// section.
    pub state: u32,
    /// The replies to tags. 0: what the standard asks for. 1: nothing. 2: what the standard asks for, with pauses. 3:
    /// what the caller asks for by `reply`, with a pause after each tag.
    pub replies: u32,
    /// Report every bad character, and name no state in error messages.
    pub exact_errors: bool,
    /// Keep U+FEFF if it is the first character.
    pub keep_bom: bool,
    /// Whether the current node is outside the HTML namespace, so that `<![CDATA[` begins a section.
    pub foreign: bool,
    /// Write where each token stands. Only with the standard's replies, and where the content is not foreign.
    pub places: bool,
}

// The replies that a number names, if one does.
fn replies_of(number: u32) -> Option<Replies>
    ensures { result ≡ replies_said number }
{
    match number {
        0 => Some(Replies::Standard),
        1 => Some(Replies::None),
        2 => Some(Replies::Pausing),
        3 => Some(Replies::Caller),
        _ => None,
    }
}

// The state that a number names, if one does.
pub(crate) fn state_of(number: u32) -> Option<State>
    ensures said { result ≡ state_said number }
    ensures start { IfSome result (λ state. CanStart (Some state)) }
{
    match number {
        0 => Some(State::Data),
        1 => Some(State::Plaintext),
        2 => Some(State::RawData(RawKind::Rcdata)),
        3 => Some(State::RawData(RawKind::Rawtext)),
        4 => Some(State::RawData(RawKind::ScriptData)),
        5 => Some(State::CdataSection),
        _ => None,
    }
}

impl Options {
    /// Whether the page can be read so: with places only by the standard's replies, where the content is not foreign.
    pub fn can_be_placed(&self) -> bool
        ensures { result ≡ places_said self.now }
    {
        !self.places || (self.replies == 0 && !self.foreign)
    }

    /// What the sink answers, if the number of the replies names some.
    pub fn events(&self) -> Option<RecordOptions>
        ensures said { IfSome result (λ events. replies_said self.now.replies ≡ Some events.replies) }
        ensures foreign { IfSome result (λ events. events.foreign ≡ self.now.foreign) }
        ensures none { IsNone result → replies_said self.now.replies ≡ None }
    {
        match replies_of(self.replies) {
            Some(replies) => Some(RecordOptions {
                replies,
                foreign: self.foreign,
            }),
            None => None,
        }
    }

    /// The state to start in, if its number names one.
    pub fn start(&self) -> Option<State>
        ensures said { result ≡ state_said self.now.state }
        ensures start { IfSome result (λ state. CanStart (Some state)) }
    {
        state_of(self.state)
    }

    /// How the tokenizer reads from this state, after a last start tag, if there is one.
    pub fn opts(
        &self,
        start: State,
        last_start_tag_name: Option<String<Global>>,
    ) -> TokenizerOpts<Global>
        ensures start { result.initial_state ≡ Some start }
        ensures said { Some start ≡ state_said self.now.state
            → options_of result ≡ options_by self.now (option_map string_bytes last_start_tag_name) }
    {
        TokenizerOpts {
            exact_errors: self.exact_errors,
            discard_bom: !self.keep_bom,
            initial_state: Some(start),
            last_start_tag_name,
        }
    }
}
