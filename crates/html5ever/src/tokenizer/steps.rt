//! Runs of a tokenizer: past its pauses, and by steps that put text at the back or at the front.
ghost use Rattle.std.specs.Prelude.{◌≡◌, ◌+◌, ◌↔◌, [], true, false, IsOk, OnOk, IfErr, is_err, map};
ghost use Rattle.html5ever_interface.specs.Options.{options_of};
ghost use Rattle.html5ever_interface.specs.Token.{Reply};
ghost use Rattle.html5states.specs.Telling.{faults_of};
ghost use Rattle.html5ever.specs.RunSteps.{step_of, waiting_with, text_of_steps, FinishesRun, StopsRun, RunsItems};
ghost use Rattle.html5feed.specs.Starting.{CanStart};
ghost use Rattle.html5ever.specs.Tokenizer.{finished_reading, StoppedReading, ReadsOn, ReadsItems, StopsReading};
ghost use Rattle.html5ever.specs.Tokenizer.{Feeds, StopsFeeding, TakesFront};

use crate::tokenizer::{Tokenizer, table_laws};
use html5ever_interface::interface::sink::TokenSink;
use html5ever_interface::interface::token::Token;
use html5ever_interface::options::TokenizerOpts;
use html5partial::error::TokenizerError;
use markup5ever::buffer_queue::BufferQueue;
use markup5ever::data::NamedReferences;
use markup5ever::tokenizer_result::TokenizerResult;
use std::alloc::{Allocator, Global};

/// Feeds a tokenizer until it answers `Done`, past all pauses.
#[inline(always)]
pub fn feed_until_done<S: TokenSink<Token<A>>, A: Allocator + Copy>(
    tokenizer: &mut Tokenizer<'_, S, A>,
    queue: &mut BufferQueue<A>,
) -> Result<(), TokenizerError>
    requires { tokenizer.old.ended ≡ false }

    // What an `Ok` says: all that waited was taken, and exactly what it decides was sent.
    ensures reads { OnOk result (ReadsOn S.means tokenizer.old tokenizer.new queue.old.text) }
    ensures items { OnOk result (ReadsItems S.means tokenizer.old tokenizer.new queue.old.text) }
    ensures taken { OnOk result (queue.new.text ≡ []) }

    // When each error comes, and what it leaves.
    ensures failed_before { (result ≡ Err TokenizerError.Failed) ↔ (tokenizer.old.failed ≡ true) }
    ensures stops { IfErr result (λ error.
        StopsReading S.means error tokenizer.old queue.old.text (S.means.state tokenizer.new.sink)) }
    ensures faults { S.faults tokenizer.new.sink ≡ S.faults tokenizer.old.sink + faults_of result }
    ensures failed { tokenizer.new.failed ≡ is_err result }
    ensures empty { queue.old.text ≡ [] → tokenizer.old.failed ≡ false → IsOk result }

    // What it keeps.
    ensures queue { TakesFront tokenizer.old tokenizer.new queue.old queue.new }
    ensures rules { tokenizer.new.rules ≡ tokenizer.old.rules }
    ensures going_on { tokenizer.new.ended ≡ false }
{
    table_laws(&tokenizer.rules);
    loop {
        match tokenizer.feed(queue)? {
            TokenizerResult::Done => return Ok(()),
            TokenizerResult::Script(_) | TokenizerResult::EncodingIndicator(_) => {}
        }
    }
}

/// What a run hands in before it feeds once more.
#[derive(Drop)]
pub enum Step<A: Allocator = Global> {
    /// A text after the queued text.
    Push(String<A>),
    /// A text in front of the queued text.
    Insert(String<A>),
}

// Hands in the text of a step.
fn hand_in<A: Allocator>(queue: &mut BufferQueue<A>, step: Step<A>) -> Result<(), TokenizerError>
    ensures ok { OnOk result (queue.new.text ≡ waiting_with (step_of step) queue.old.text) }
    ensures err { IfErr result (λ error. error ≡ TokenizerError.Memory) }
{
    let handed_in = match step {
        Step::Push(text) => queue.push_back(text),
        Step::Insert(text) => queue.push_front(text),
    };
    match handed_in {
        Ok(()) => Ok(()),
        Err(_) => Err(TokenizerError::Memory),
    }
}

// Feeds once, and goes on after a pause as after `Done`.
fn feed_once<S: TokenSink<Token<A>>, A: Allocator + Copy>(
    tokenizer: &mut Tokenizer<'_, S, A>,
    queue: &mut BufferQueue<A>,
) -> Result<(), TokenizerError>
    requires going_on { tokenizer.old.ended ≡ false }
    requires not_failed { tokenizer.old.failed ≡ false }
    ensures reads { OnOk result ((reply : Reply S.Handle)
        × Feeds S.means tokenizer.old tokenizer.new queue.old.text queue.new.text reply) }
    ensures stops { IfErr result (λ error. StopsFeeding S.means error tokenizer.old
        queue.old.text queue.new.text (S.means.state tokenizer.new.sink)) }
    ensures faults { S.faults tokenizer.new.sink ≡ S.faults tokenizer.old.sink + faults_of result }
    ensures queue { TakesFront tokenizer.old tokenizer.new queue.old queue.new }
    ensures rules { tokenizer.new.rules ≡ tokenizer.old.rules }
    ensures going_on { tokenizer.new.ended ≡ false }
    ensures not_failed { OnOk result (tokenizer.new.failed ≡ false) }
{
    // A match in place of `?`: split for the proof.
    match tokenizer.feed(queue) {
        Ok(_) => Ok(()),
        Err(error) => Err(error),
    }
}

// Takes the steps one after another, feeds until nothing waits, and ends.
fn take_steps<S: TokenSink<Token<A>>, A: Allocator + Copy>(
    alloc: A,
    tokenizer: &mut Tokenizer<'_, S, A>,
    steps: Vec<Step<A>, A>,
) -> Result<(), TokenizerError>
    requires going_on { tokenizer.old.ended ≡ false }
    requires not_failed { tokenizer.old.failed ≡ false }
    ensures finishes { OnOk result
        (FinishesRun S.means tokenizer.old (map step_of steps.items) (S.means.state tokenizer.new.sink)) }
    ensures stops { IfErr result (λ error.
        StopsRun S.means error tokenizer.old (map step_of steps.items) (S.means.state tokenizer.new.sink)) }
    ensures faults { S.faults tokenizer.new.sink ≡ S.faults tokenizer.old.sink + faults_of result }
{
    let mut queue = BufferQueue::new(alloc);
    for step in steps {
        hand_in(&mut queue, step)?;
        feed_once(tokenizer, &mut queue)?;
    }
    feed_until_done(tokenizer, &mut queue)?;
    tokenizer.end()
}

/// Runs a tokenizer from the start of a stream. Each step hands in its text and feeds once. After the
/// last one it feeds until nothing waits, and ends. Hands the sink back. The sink was sent all that
/// the text taken tells, and finished. After a refusal it received a prefix of that.
pub fn run_steps<S: TokenSink<Token<A>>, A: Allocator + Copy>(
    alloc: A,
    sink: S,
    opts: TokenizerOpts<A>,
    references: &NamedReferences<A>,
    steps: Vec<Step<A>, A>,
) -> (S, Result<(), TokenizerError>)
    requires { CanStart opts.initial_state }
    ensures finishes { OnOk result.1 (S.means.state result.0
        ≡ finished_reading S.means (options_of opts) references.now (S.means.state sink)
        (text_of_steps S.means (options_of opts) references.now (S.means.state sink) (map step_of steps.items))) }
    ensures items { OnOk result.1 (RunsItems S.means (options_of opts) references.now (S.means.state sink)
        (map step_of steps.items) (S.means.state result.0)) }
    ensures stops { IfErr result.1 (λ error. StoppedReading S.means (options_of opts) references.now
        error (S.means.state sink)
        (text_of_steps S.means (options_of opts) references.now (S.means.state sink) (map step_of steps.items))
        (S.means.state result.0)) }
    ensures faults { S.faults result.0 ≡ S.faults sink + faults_of result.1 }
{
    references.table_laws();
    let mut tokenizer = Tokenizer::new(alloc, sink, opts, references);
    let result = take_steps(alloc, &mut tokenizer, steps);
    (tokenizer.into_sink(), result)
}
