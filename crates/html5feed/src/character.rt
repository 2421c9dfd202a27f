//! One character of a stream.
#![tactic(auto, unfolding(html5partial::specs::CharRef::with_reference))]

ghost use Rattle.std.specs.Prelude.{◌≡◌, ◌≢◌, ◌≤◌, ◌+◌, ◌∷◌, [], false, IfOk, IfErr, OnOk, string_bytes};
ghost use Rattle.html5ever_interface.specs.Sink.{on_line};
ghost use Rattle.html5ever_interface.specs.Token.{Told};
ghost use Rattle.html5reading.specs.NormalisedText.{input_after};
ghost use Rattle.html5reading.specs.Reading.{messages_so_far, start_after, last_after, open_after_reply};
ghost use Rattle.html5reading.specs.Start.{is_undecided_open, held_len};
ghost use Rattle.html5reading.specs.Start.Mode.{Data};
ghost use Rattle.html5reading.specs.Start.Open.{Between};
ghost use Rattle.html5partial.specs.CurrentTag.{opened_of, last_name_of};
ghost use Rattle.html5feed.specs.Feed.{reply_in, first_pause};
ghost use Rattle.html5reading.specs.Machine.{step_at, messages_here, opened_here, last_here};
ghost use Rattle.html5partial.specs.Steps.{Leads};
ghost use Rattle.html5states.specs.Telling.{Emits, Reads, Tells, faults_of};

use crate::position::Position;
use crate::rules::Rules;
use crate::undecided::read_undecided;
use html5ever_interface::interface::sink::TokenSink;
use html5ever_interface::interface::token::{TagKind, Token, TokenSinkResult};
use html5ever_interface::states::State;
use html5fast_path::tag_ends::end_tag;
use html5partial::error::TokenizerError;
use html5partial::indexed_tag::IndexedTag;
use html5partial::opened::{Opened, Progress, Step};
use html5states::teller::Teller;
use markup5ever::text::push_text;
use markup5ever::tokenizer_result::TokenizerResult;
use std::alloc::{AllocError, Allocator};

// Reads one character in the state that is open. The `>` of a tag without an error is read at once.
#[tactic(auto, using(html5states::proofs::Tellings::tells_from_memory), unfolding(html5partial::specs::Steps::tokens_of, html5partial::specs::Steps::afterwards, html5ever_interface::specs::Sink::stepped))]
#[inline(always)]
fn step_in_state<S: TokenSink<Token<A>>, A: Allocator + Copy>(
    teller: &mut Teller<'_, S, A>,
    opened: &mut Opened<A>,
    c: char,
) -> Step
    requires { is_undecided_open (opened_of opened.old) ≡ false }
    ensures { Reads S.means S.faults result teller.old teller.new
        (step_at teller.old.exact_errors (opened_of opened.old) c) opened.old opened.new }
{
    if c != '>' {
        return teller.step(opened, c);
    }
    if end_tag(opened, teller.alloc)? {
        return Ok(Progress::EndsTag);
    }
    teller.step(opened, c)
}

// Reads one character in the state that is open. After a refusal nothing is held.
#[inline(always)]
fn step<S: TokenSink<Token<A>>, A: Allocator + Copy>(
    teller: &mut Teller<'_, S, A>,
    opened: &mut Opened<A>,
    c: char,
) -> Step
    requires { is_undecided_open (opened_of opened.old) ≡ false }
    ensures reads { Reads S.means S.faults result teller.old teller.new
        (step_at teller.old.exact_errors (opened_of opened.old) c) opened.old opened.new }
    ensures held { IfErr result (λ error. held_len (opened_of opened.new) ≡ 0) }
{
    let step = step_in_state(teller, opened, c);
    if step.is_err() {
        opened.comment.clear();
    }
    step
}

// Sets the name of the last start tag. It stands apart, so that an end tag passes without a call.
#[inline(never)]
fn set_name<A: Allocator>(last_name: &mut String<A>, name: &str) -> Result<(), AllocError>
    ensures { OnOk result (string_bytes last_name.new ≡ name.now) }
{
    last_name.clear();
    push_text(last_name, name)
}

// Keeps the name of a start tag as that of the last one.
#[tactic(auto, unfolding(html5reading::specs::Reading::last_after))]
#[inline(always)]
fn keep_tag_name<A: Allocator>(
    last_name: &mut String<A>,
    tag: &IndexedTag<A>,
) -> Result<(), AllocError>
    ensures { OnOk result (string_bytes last_name.new ≡ last_after (string_bytes last_name.old) tag.now) }
{
    match tag.kind() {
        TagKind::EndTag => Ok(()),
        TagKind::StartTag => set_name(last_name, tag.name()),
    }
}

// Sends the sink the open tag, and goes on as it replies.
#[tactic(auto, using(html5states::proofs::Tellings::tells_from_memory), unfolding(html5ever_interface::specs::Sink::stepped, crate::specs::Feed::first_pause))]
#[inline(always)]
fn emit_tag<S: TokenSink<Token<A>>, A: Allocator + Copy>(
    teller: &mut Teller<'_, S, A>,
    opened: &mut Opened<A>,
) -> Result<TokenizerResult<S::Handle, String<A>>, TokenizerError>
    requires { opened.old.state ≡ State.Data }
    ensures emits { Emits S.means S.faults result teller.old teller.new (Told.Tag opened.old.tag.indexed ∷ []) }
    ensures leads { Leads result (opened_of opened.new)
        (open_after_reply (last_after (last_name_of opened.old) opened.old.tag.indexed)
        (S.means.reply (S.means.state teller.old.sink.now) (Told.Tag opened.old.tag.indexed) teller.old.line)) }
    ensures last { OnOk result
        (last_name_of opened.new ≡ last_after (last_name_of opened.old) opened.old.tag.indexed) }
    ensures answer { IfOk result (λ answer. reply_in string_bytes answer
        ≡ first_pause S.means (S.means.state teller.old.sink.now)
        (on_line teller.old.line (Told.Tag opened.old.tag.indexed ∷ []))) }
    ensures paused { IfOk result (λ answer. answer ≢ TokenizerResult.Done → opened_of opened.new ≡ Between Data) }
    ensures held { held_len (opened_of opened.new) ≡ 0 }
{
    keep_tag_name(&mut opened.last_start_tag, &opened.tag.indexed)?;
    match teller.emit_open_tag(&mut opened.tag.indexed) {
        Ok(TokenSinkResult::Continue) => Ok(TokenizerResult::Done),
        Ok(TokenSinkResult::Plaintext) => {
            opened.state = State::Plaintext;
            Ok(TokenizerResult::Done)
        }
        Ok(TokenSinkResult::Script(handle)) => Ok(TokenizerResult::Script(handle)),
        Ok(TokenSinkResult::EncodingIndicator(text)) => Ok(TokenizerResult::EncodingIndicator(
            text,
        )),
        Ok(TokenSinkResult::RawData(kind)) => {
            opened.state = State::RawData(kind);
            Ok(TokenizerResult::Done)
        }
        Err(error) => Err(error),
    }
}

// Reads a character in the state that is open, when nothing is undecided.
#[inline(always)]
fn read_opened<S: TokenSink<Token<A>>, A: Allocator + Copy>(
    alloc: A,
    sink: &mut S,
    rules: &Rules<'_, A>,
    position: &mut Position<A>,
    c: char,
) -> Result<TokenizerResult<S::Handle, String<A>>, TokenizerError>
    requires { is_undecided_open position.old.opened ≡ false }
    ensures tells { Tells S.means.step S.means.faulted result (S.means.state sink.old)
        (messages_here S.means.step S.means.reply rules.now position.old.input.line c
        (step_at rules.now.exact position.old.opened c)) (S.means.state sink.new) }
    ensures leads { Leads result position.new.opened
        (opened_here S.means.step S.means.reply rules.now (S.means.state sink.old) position.old.input.line
        position.old.last_start_tag c (step_at rules.now.exact position.old.opened c)) }
    ensures last { OnOk result (position.new.last_start_tag
        ≡ last_here position.old.last_start_tag (step_at rules.now.exact position.old.opened c)) }
    ensures answer { IfOk result (λ answer. reply_in string_bytes answer
        ≡ first_pause S.means (S.means.state sink.old)
        (messages_here S.means.step S.means.reply rules.now position.old.input.line c
        (step_at rules.now.exact position.old.opened c))) }
    ensures paused { IfOk result (λ answer. answer ≢ TokenizerResult.Done → position.new.opened ≡ Between Data) }
    ensures input { position.new.input ≡ position.old.input }
    ensures held { held_len position.new.opened ≤ 1 }
    ensures faults { S.faults sink.new ≡ S.faults sink.old + faults_of result }
{
    let line = position.input.line();
    let mut teller = Teller {
        sink,
        alloc,
        exact_errors: rules.exact_errors,
        line,
    };
    teller.emit_bad_character(c)?;
    match step(&mut teller, &mut position.opened, c)? {
        Progress::Continues => Ok(TokenizerResult::Done),
        Progress::BeginsReference => {
            position.begin_reference();
            Ok(TokenizerResult::Done)
        }
        Progress::EndsTag => emit_tag(&mut teller, &mut position.opened),
    }
}

/// Reads one character of the stream. The answer is `Done`, except after a tag whose reply pauses.
#[inline(always)]
pub fn read_character<S: TokenSink<Token<A>>, A: Allocator + Copy>(
    alloc: A,
    sink: &mut S,
    rules: &Rules<'_, A>,
    position: &mut Position<A>,
    c: char,
) -> Result<TokenizerResult<S::Handle, String<A>>, TokenizerError>
    ensures tells { Tells S.means.step S.means.faulted result (S.means.state sink.old)
        (messages_so_far S.means rules.now position.old (S.means.state sink.old) (c ∷ [])) (S.means.state sink.new) }
    ensures leads { Leads result position.new.opened
        (start_after S.means rules.now position.old (S.means.state sink.old)
        (c ∷ [])).opened }
    ensures last { OnOk result (position.new.last_start_tag
        ≡ (start_after S.means rules.now position.old (S.means.state sink.old)
        (c ∷ [])).last_start_tag) }
    ensures answer { IfOk result (λ answer. reply_in string_bytes answer
        ≡ first_pause S.means (S.means.state sink.old)
        (messages_so_far S.means rules.now position.old (S.means.state sink.old) (c ∷ []))) }
    ensures paused { IfOk result (λ answer. answer ≢ TokenizerResult.Done → position.new.opened ≡ Between Data) }
    ensures input { position.new.input ≡ input_after position.old.input (c ∷ []) }
    ensures held { held_len position.new.opened ≤ held_len position.old.opened + 1 }
    ensures faults { S.faults sink.new ≡ S.faults sink.old + faults_of result }
{
    let before = position.input.line();
    let Some(c) = position.input.advance(c) else {
        return Ok(TokenizerResult::Done);
    };
    if read_undecided(alloc, sink, rules, position, before, c)? {
        return Ok(TokenizerResult::Done);
    }
    read_opened(alloc, sink, rules, position, c)
}
