//! Reading the queue.
ghost use Rattle.std.specs.Prelude.{◌≡◌, ◌≢◌, ◌^◌, ◌+◌, ◌<◌, ◌≤◌, [], true, IsOk, IfOk, IfErr, OnOk, length, take, drop, encode_utf8_all, string_bytes};
ghost use Rattle.std.specs.Str.{IsUtf8, chars};
ghost use Rattle.html5reading.specs.Reading.{messages_so_far, start_after};
ghost use Rattle.html5reading.specs.Start.{nothing_open, held_len};
ghost use Rattle.html5reading.specs.Start.Mode.{Data};
ghost use Rattle.html5reading.specs.Start.Open.{Between};
ghost use Rattle.html5feed.specs.Feed.{IsEndOf, reply_in, feed};
ghost use Rattle.html5feed.specs.Quiet.{TakesQuietly};
ghost use Rattle.html5feed.specs.Refused.{IsRun, RefusedAfter};
ghost use Rattle.html5feed.specs.Runs.{ReadsRun};
ghost use Rattle.html5states.specs.Telling.{Tells, IsRefusal, faults_of};

use crate::character::read_character;
use crate::position::Position;
use crate::rules::Rules;
use html5ever_interface::interface::sink::TokenSink;
use html5ever_interface::interface::token::Token;
use html5partial::error::TokenizerError;
use markup5ever::buffer_queue::BufferQueue;
use markup5ever::tokenizer_result::TokenizerResult;
use std::alloc::Allocator;

// Sends the run of text with which the queue's text begins, and that takes this many bytes. The run leaves
// the queue even after a refusal.
#[inline(always)]
fn emit_waiting_run<S: TokenSink<Token<A>>, A: Allocator + Copy>(
    alloc: A,
    sink: &mut S,
    rules: &Rules<'_, A>,
    position: &mut Position<A>,
    queue: &mut BufferQueue<A>,
    bytes: usize,
) -> Result<(), TokenizerError>
    requires nothing_open { nothing_open position.old.opened ≡ true }
    requires within { bytes ≤ length (encode_utf8_all queue.old.text) }
    requires rest_utf8 { IsUtf8 (drop bytes (encode_utf8_all queue.old.text)) }
    requires is_run { IsRun rules.now position.old (chars (take bytes (encode_utf8_all queue.old.text))) }
    requires fits { position.old.input.line < 2 ^ 64 }
    ensures reads { ReadsRun S.means rules.now result position.old position.new queue.old queue.new
        (S.means.state sink.old) (S.means.state sink.new) }
    ensures refusal { IfErr result IsRefusal }
    ensures faults { S.faults sink.new ≡ S.faults sink.old + faults_of result }
    ensures held { held_len position.new.opened ≡ held_len position.old.opened }
{
    let told = position.emit_run(alloc, sink, &queue.front_text()[..bytes]);
    queue.skip(bytes);
    told
}

// Whether a text begins with a `<` or an `&`. A run seldom begins with one, as in raw text, a comment or within quotes, and
// then it is read as a character. Of a text of one byte this is not asked: the search for a run looks at a single byte first.
#[inline(always)]
fn begins_in_markup(text: &str) -> bool {
    let bytes = text.as_bytes();
    bytes.len() > 1 && matches!(bytes[0], b'<' | b'&')
}

// Reads the run with which the queue's text begins, if it begins with one. The run leaves the queue
// even after a refusal.
#[inline(always)]
fn read_waiting_run<S: TokenSink<Token<A>>, A: Allocator + Copy>(
    alloc: A,
    sink: &mut S,
    rules: &Rules<'_, A>,
    position: &mut Position<A>,
    queue: &mut BufferQueue<A>,
) -> Result<(), TokenizerError>
    ensures reads { ReadsRun S.means rules.now result position.old position.new queue.old queue.new
        (S.means.state sink.old) (S.means.state sink.new) }
    ensures refusal { IfErr result IsRefusal }
    ensures faults { S.faults sink.new ≡ S.faults sink.old + faults_of result }
    ensures held { held_len position.new.opened + length queue.new.text
        ≤ held_len position.old.opened + length queue.old.text }
    ensures empty { queue.old.text ≡ [] → IsOk result }
{
    if begins_in_markup(queue.front_text()) {
        return Ok(());
    }
    let bytes = position.run_len(rules, queue.front_text());
    if bytes == 0 {
        return Ok(());
    }
    if position.nothing_open() {
        return emit_waiting_run(alloc, sink, rules, position, queue, bytes);
    }
    let read = position.push_run(&queue.front_text()[..bytes]);
    queue.skip(bytes);
    read
}

// Reads the characters with which the queue's text begins, as long as they tell nothing. A character
// for which memory is refused leaves the queue, too.
#[inline(always)]
fn read_waiting_quietly<A: Allocator + Copy>(
    alloc: A,
    rules: &Rules<'_, A>,
    position: &mut Position<A>,
    queue: &mut BufferQueue<A>,
) -> Result<(), TokenizerError>
    ensures reads { TakesQuietly rules.now result position.old position.new queue.old queue.new }
    ensures memory { IfErr result (λ error. error ≡ TokenizerError.Memory) }
    ensures filled { IfErr result (λ error. queue.old.text ≢ []) }
    ensures held { held_len position.new.opened + length queue.new.text
        ≤ held_len position.old.opened + length queue.old.text }
{
    let text = queue.front_text();
    if text.is_empty() {
        return Ok(());
    }
    // An `&` begins a reference, nearly always, and then it is not read here.
    if text.as_bytes()[0] == b'&' {
        return Ok(());
    }
    match position.read_quietly(alloc, rules, text) {
        Ok(0) => Ok(()),
        Ok(bytes) => {
            queue.skip(bytes);
            Ok(())
        }
        Err(refused) => {
            queue.skip(refused.bytes);
            Err(TokenizerError::Memory)
        }
    }
}

/// Reads the queued text, up to the first tag whose reply pauses.
pub fn read_queue<S: TokenSink<Token<A>>, A: Allocator + Copy>(
    alloc: A,
    sink: &mut S,
    rules: &Rules<'_, A>,
    position: &mut Position<A>,
    queue: &mut BufferQueue<A>,
) -> Result<TokenizerResult<S::Handle, String<A>>, TokenizerError>
    ensures tells { Tells S.means.step S.means.faulted result (S.means.state sink.old)
        (messages_so_far S.means rules.now position.old (S.means.state sink.old)
        (feed S.means rules.now position.old (S.means.state sink.old) [] queue.old.text).taken) (S.means.state sink.new) }
    ensures moves { OnOk result (position.new ≡ start_after S.means rules.now position.old (S.means.state sink.old)
        (feed S.means rules.now position.old (S.means.state sink.old) [] queue.old.text).taken) }
    ensures answer { IfOk result (λ answer. reply_in string_bytes answer
        ≡ (feed S.means rules.now position.old (S.means.state sink.old) [] queue.old.text).answer) }
    ensures paused { IfOk result (λ answer. answer ≢ TokenizerResult.Done → position.new.opened ≡ Between Data) }
    ensures left { OnOk result
        (queue.new.text ≡ (feed S.means rules.now position.old (S.means.state sink.old) [] queue.old.text).left) }
    ensures refusal { IfErr result IsRefusal }
    ensures refused { IfErr result (λ error. RefusedAfter S.means rules.now error
        position.old (S.means.state sink.old) [] queue.old.text queue.new.text (S.means.state sink.new)) }
    ensures end_of_queue { IsEndOf queue.new.text queue.old.text }
    ensures taken { queue.new.taken + length queue.new.text ≡ queue.old.taken + length queue.old.text }
    ensures handed_in { queue.new.handed_in ≡ queue.old.handed_in }
    ensures held { held_len position.new.opened + length queue.new.text
        ≤ held_len position.old.opened + length queue.old.text }
    ensures faults { S.faults sink.new ≡ S.faults sink.old + faults_of result }
    ensures empty { queue.old.text ≡ [] → IsOk result }
{
    loop {
        read_waiting_run(alloc, sink, rules, position, queue)?;
        if queue.is_empty() {
            return Ok(TokenizerResult::Done);
        }
        read_waiting_quietly(alloc, rules, position, queue)?;
        let Some(c) = queue.next() else {
            return Ok(TokenizerResult::Done);
        };
        match read_character(alloc, sink, rules, position, c)? {
            TokenizerResult::Done => {}
            pause => return Ok(pause),
        }
    }
}
