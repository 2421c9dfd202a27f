//! A page at its start.
ghost use Rattle.std.specs.Prelude.{◌≡◌, ℕ, List, true, option_map, string_bytes, OnOk, IfOk, IfErr};
ghost use Rattle.std.specs.Str.{IsUtf8};
ghost use Rattle.html5handle.specs.Calls.{IsReadBy, IsNameRefused, OpenFails, PageRestartSays, Starts, StartsAs, StartsBy, open_status};
ghost use Rattle.html5handle.specs.Said.{are_named, name_said, options_said};
ghost use Rattle.html5handle.specs.PlacedCalls.{PlacedRestartSays, StartsPlaced};
ghost use Rattle.html5handle.specs.Slots.{placed_in, session_in};
ghost use Rattle.html5ever_interface.specs.Options.{options_of};
ghost use Rattle.html5feed.specs.Starting.{CanStart};
ghost use Rattle.html5session.specs.Intake.{page_again};

use crate::options::Options;
use crate::slot::PageSlot;
use crate::status;
use html5entities::standard_references;
use html5ever::tokenizer::TokenizerOpts;
use html5placed::PlacedSession;
use html5records::record_sink::RecordSink;
use html5session::{RecordSession, Session};
use std::alloc::Global;
use std::str;

/// Why no page was opened.
#[derive(Clone, Copy, Debug, PartialEq, Eq)]
pub enum OpenError {
    /// A growth was refused.
    Memory,
    /// The name of the last start tag is no UTF-8.
    NotUtf8,
    /// A number in the options names nothing.
    BadOption,
}

impl OpenError {
    /// The status that C receives.
    pub fn status(self) -> u32
        ensures { result ≡ open_status self }
    {
        match self {
            OpenError::Memory => status::NO_MEMORY,
            OpenError::NotUtf8 => status::NOT_UTF8,
            OpenError::BadOption => status::BAD_OPTION,
        }
    }
}

// The name of the last start tag, if it has bytes.
fn name_of(alloc: Global, bytes: &[u8]) -> Result<Option<String<Global>>, OpenError>
    ensures name { IfOk result (λ name. option_map string_bytes name ≡ name_said bytes.now) }
    ensures utf8 { OnOk result (IsUtf8 bytes.now) }
    ensures refused { IfErr result (λ error. IsNameRefused bytes.now error) }
{
    let Ok(name) = str::from_utf8(bytes) else {
        return Err(OpenError::NotUtf8);
    };
    if name.is_empty() {
        return Ok(None);
    }
    match String::from_str(alloc, name) {
        Ok(name) => Ok(Some(name)),
        Err(_) => Err(OpenError::Memory),
    }
}

/// How a page is read, and the sink of its tokens.
#[derive(Drop)]
pub struct Reading {
    /// How the tokenizer reads.
    pub opts: TokenizerOpts<Global>,
    /// The sink, which was sent nothing.
    pub sink: RecordSink<Global>,
}

// How a page is read by the options. They are looked at first, and then the name.
fn reading_by(alloc: Global, last_start_tag: &[u8], options: &Options) -> Result<Reading, OpenError>
    ensures read { IfOk result (λ reading. IsReadBy reading last_start_tag.now options.now) }
    ensures start { IfOk result (λ reading. CanStart reading.opts.initial_state) }
    ensures refused { IfErr result (λ error. OpenFails last_start_tag.now options.now error) }
{
    if !options.can_be_placed() {
        return Err(OpenError::BadOption);
    }
    let Some(events) = options.events() else {
        return Err(OpenError::BadOption);
    };
    let Some(start) = options.start() else {
        return Err(OpenError::BadOption);
    };
    // A match in place of `?`: split for the proof.
    let name = match name_of(alloc, last_start_tag) {
        Ok(name) => name,
        Err(error) => return Err(error),
    };
    Ok(Reading {
        opts: options.opts(start, name),
        sink: RecordSink::new(alloc, events),
    })
}

// A session at the start of a page.
fn session_at_start(
    alloc: Global,
    last_start_tag: &[u8],
    options: &Options,
) -> Result<RecordSession<Global>, OpenError>
    ensures starts { IfOk result (λ session. Starts session last_start_tag.now options.now) }
    ensures refused { IfErr result (λ error. OpenFails last_start_tag.now options.now error) }
{
    // A match in place of `?`: split for the proof.
    let Reading { opts, sink } = match reading_by(alloc, last_start_tag, options) {
        Ok(reading) => reading,
        Err(error) => return Err(error),
    };
    let Ok(references) = standard_references(alloc) else {
        return Err(OpenError::Memory);
    };
    Ok(Session::new(alloc, references, opts, sink))
}

// A session at the start of another page, by the table, the limit and the decoding of the page before it.
fn session_after(
    alloc: Global,
    session: RecordSession<Global>,
    reading: Reading,
) -> RecordSession<Global>
    requires { CanStart reading.opts.initial_state }
    ensures { (name : List ℕ) (o : Options) → IsReadBy reading name o
        → StartsBy session.references session.intake.limit (page_again session.intake) result name o }
{
    let limit = session.limit();
    let page = session.page_decoder_again();
    let (references, _) = session.into_parts();
    let Reading { opts, sink } = reading;
    let mut next = Session::new(alloc, references, opts, sink);
    next.set_limit(limit);
    next.set_page_decoder(page);
    next
}

/// Begins another page, by these options. If it is refused, the page before it stays as it was.
pub fn restart_session(
    alloc: Global,
    session: RecordSession<Global>,
    last_start_tag: &[u8],
    options: &Options,
) -> (RecordSession<Global>, u32)
    ensures { PageRestartSays session result.0 last_start_tag.now options.now result.1 }
{
    match reading_by(alloc, last_start_tag, options) {
        _ if options.places => (session, status::BAD_OPTION),
        Ok(reading) => (session_after(alloc, session, reading), status::DONE),
        Err(error) => (session, error.status()),
    }
}

// How a page with places is read. The options are looked at first, and then the name.
fn placed_opts(
    alloc: Global,
    last_start_tag: &[u8],
    options: &Options,
) -> Result<TokenizerOpts<Global>, OpenError>
    requires { options.now.places ≡ true }
    ensures start { IfOk result (λ opts. CanStart opts.initial_state) }
    ensures said { IfOk result (λ opts. options_of opts ≡ options_said options.now last_start_tag.now) }
    ensures named { OnOk result (are_named options.now ≡ true) }
    ensures utf8 { OnOk result (IsUtf8 last_start_tag.now) }
    ensures refused { IfErr result (λ error. OpenFails last_start_tag.now options.now error) }
{
    if !options.can_be_placed() {
        return Err(OpenError::BadOption);
    }
    let Some(start) = options.start() else {
        return Err(OpenError::BadOption);
    };
    // A match in place of `?`: split for the proof.
    let name = match name_of(alloc, last_start_tag) {
        Ok(name) => name,
        Err(error) => return Err(error),
    };
    Ok(options.opts(start, name))
}

// A page that is read with places at its start.
fn placed_at_start(
    alloc: Global,
    last_start_tag: &[u8],
    options: &Options,
) -> Result<PlacedSession<Global>, OpenError>
    requires { options.now.places ≡ true }
    ensures starts { IfOk result (λ session. StartsPlaced session last_start_tag.now options.now) }
    ensures refused { IfErr result (λ error. OpenFails last_start_tag.now options.now error) }
{
    let opts = match placed_opts(alloc, last_start_tag, options) {
        Ok(opts) => opts,
        Err(error) => return Err(error),
    };
    let Ok(references) = standard_references(alloc) else {
        return Err(OpenError::Memory);
    };
    Ok(PlacedSession::new(alloc, references, opts))
}

/// Begins another page that is read with places. If it is refused, the page before it stays as it was.
pub fn restart_placed(
    alloc: Global,
    session: PlacedSession<Global>,
    last_start_tag: &[u8],
    options: &Options,
) -> (PlacedSession<Global>, u32)
    ensures { PlacedRestartSays session result.0 last_start_tag.now options.now result.1 }
{
    if !options.places {
        return (session, status::BAD_OPTION);
    }
    match placed_opts(alloc, last_start_tag, options) {
        Ok(opts) => (session.restart(opts), status::DONE),
        Err(error) => (session, error.status()),
    }
}

// A page at its start, as the options say.
fn page_at_start(
    alloc: Global,
    last_start_tag: &[u8],
    options: &Options,
) -> Result<PageSlot, OpenError>
    ensures starts { IfOk result (λ slot.
        StartsAs options.now.places (session_in slot) (placed_in slot) last_start_tag.now options.now) }
    ensures refused { IfErr result (λ error. OpenFails last_start_tag.now options.now error) }
{
    if options.places {
        return match placed_at_start(alloc, last_start_tag, options) {
            Ok(session) => Ok(PageSlot::Placed(session)),
            Err(error) => Err(error),
        };
    }
    match session_at_start(alloc, last_start_tag, options) {
        Ok(session) => Ok(PageSlot::Tokenizer(session)),
        Err(error) => Err(error),
    }
}

/// A page at its start, in its box.
pub fn slot_of(
    alloc: Global,
    last_start_tag: &[u8],
    options: &Options,
) -> Result<Box<PageSlot, Global>, OpenError>
    ensures starts { IfOk result (λ slot.
        StartsAs options.now.places (session_in slot.value) (placed_in slot.value) last_start_tag.now options.now) }
    ensures refused { IfErr result (λ error. OpenFails last_start_tag.now options.now error) }
{
    // A match in place of `?`: split for the proof.
    let page = match page_at_start(alloc, last_start_tag, options) {
        Ok(page) => page,
        Err(error) => return Err(error),
    };
    match Box::new(alloc, page) {
        Ok(slot) => Ok(slot),
        Err(_) => Err(OpenError::Memory),
    }
}
