//! The tokenizer.
ghost use Rattle.std.specs.Prelude.{◌≡◌, ◌≢◌, ◌^◌, ◌<◌, ◌+◌, ◌↔◌, ◌&&◌, not, [], true, false, IsOk, IfOk, IfErr, OnOk, is_ok, is_err, length, string_bytes};
ghost use Rattle.html5ever_interface.specs.Options.{options_of};
ghost use Rattle.html5ever_interface.specs.Sink.{stepped, on_line};
ghost use Rattle.html5reading.specs.EndOfInput.{tokens_at_end};
ghost use Rattle.html5reading.specs.Start.{start_of, nothing_open};
ghost use Rattle.html5reading.specs.Start.Mode.{Data, Plain};
ghost use Rattle.html5reading.specs.Start.Open.{Between};
ghost use Rattle.html5feed.specs.Beginning.{is_after_less_than};
ghost use Rattle.html5feed.specs.Feed.{reply_in};
ghost use Rattle.html5states.specs.Telling.{faults_of};
ghost use Rattle.html5feed.specs.Starting.{CanStart};
ghost use Rattle.markup5ever.specs.NamedReferences.{IsTable};
ghost use Rattle.html5ever.specs.Tokenizer.{rules_of, StandsAt, Feeds, FeedsItems, FinishesItems};
ghost use Rattle.html5ever.specs.Tokenizer.{StopsFeeding, TakesFront, Finishes, StopsEnding, EndStops};

use html5feed::position::Position;
use html5feed::reading::read_queue;
use html5feed::rules::Rules;
use std::alloc::{Allocator, Global};
use std::marker::Model;

pub mod collect;
pub mod detached;
pub mod laws;
pub mod pieces;
pub mod states;
pub mod steps;
pub mod whole;

pub use crate::tokenizer::detached::DetachedTokenizer;
pub use crate::tokenizer::pieces::feed_pieces;
pub use crate::tokenizer::steps::{Step, feed_until_done, run_steps};
pub use crate::tokenizer::whole::{read_pieces, read_whole};
pub use html5ever_interface::interface::message::{ErrorMessage, FixedMessage};
pub use html5ever_interface::interface::sink::{Says, TokenSink};
pub use html5ever_interface::interface::token::TagKind::{EndTag, StartTag};
pub use html5ever_interface::interface::token::Token::{
    CharacterTokens, CommentToken, DoctypeToken, EOFToken, NullCharacterToken, ParseError,
    ProcessingInstructionToken, TagToken,
};
pub use html5ever_interface::interface::token::{
    Doctype, ProcessResult, SinkFault, Tag, TagKind, TextFault, Token, TokenSinkResult,
};
pub use html5ever_interface::options::TokenizerOpts;
pub use html5partial::error::TokenizerError;
pub use html5sinks::replies;
pub use html5sinks::tags::{ReplyingTagHandler, SaysTag, TagHandler, TagsOnly};
pub use html5sinks::text_runs::{ReplyingTokenHandler, TextRuns, TokenHandler};
pub use markup5ever::buffer_queue::SetResult::{FromSet, NotFromSet};
pub use markup5ever::buffer_queue::{BufferQueue, SetResult};
pub use markup5ever::data::{NamedReferences, TableError};
pub use markup5ever::tokenizer_result::TokenizerResult;

/// Reads a stream of text and sends its sink the tokens.
#[derive(Drop)]
pub struct Tokenizer<'t, Sink, A: Allocator = Global> {
    /// The sink that is sent the tokens.
    pub sink: Sink,
    alloc: A,
    rules: Rules<'t, A>,
    position: Position<A>,
    failed: bool,
    ended: bool,
}

impl<'t, Sink, A: Allocator> Model for Tokenizer<'t, Sink, A> {
    ghost use Rattle.std.specs.Prelude.{◌≡◌, false};
    ghost use Rattle.html5ever.specs.Tokenizer.{Tokenizing};

    ghost Value = { Tokenizing Sink };

    ghost view = { λ t. record {
      sink = t.sink;
      rules = t.rules;
      position = t.position;
      failed = t.failed;
      ended = t.ended;
    } };
}

impl<'t, Sink: TokenSink<Token<A>>, A: Allocator + Copy> Tokenizer<'t, Sink, A> {
    /// A tokenizer at the start of a stream, which reads named references by the table.
    pub fn new(
        alloc: A,
        sink: Sink,
        opts: TokenizerOpts<A>,
        references: &'t NamedReferences<A>,
    ) -> Tokenizer<'t, Sink, A>
        requires { CanStart opts.initial_state }
        ensures stands { StandsAt Sink.means result (start_of (options_of opts)) (Sink.means.state sink) [] }
        ensures rules { result.rules ≡ rules_of (options_of opts) references.now }
        ensures sink { result.sink ≡ sink }
    {
        Tokenizer {
            sink,
            alloc,
            rules: Rules {
                exact_errors: opts.exact_errors,
                references,
            },
            position: Position::new(alloc, opts),
            failed: false,
            ended: false,
        }
    }

    /// Reads the text that waits in the queue, up to the first tag after which the sink asks to
    /// pause. Then the queue holds the text after that tag's `>`. Text may be put in front of it, and
    /// the caller goes on by feeding again. After a refusal the queue holds a suffix of the text that
    /// it held, and every further call is refused.
    pub fn feed(
        &mut self,
        queue: &mut BufferQueue<A>,
    ) -> Result<TokenizerResult<Sink::Handle, String<A>>, TokenizerError>
        requires { self.old.ended ≡ false }

        // What an `Ok` says: a prefix of the queue's text was taken, and the sink was sent exactly
        // what that decides. The rest waits, and the answer is the reply that pauses.
        ensures reads { IfOk result (λ answer.
            Feeds Sink.means self.old self.new queue.old.text queue.new.text (reply_in string_bytes answer)) }
        ensures items { IfOk result (λ answer.
            FeedsItems Sink.means self.old self.new queue.old.text queue.new.text (reply_in string_bytes answer)) }

        // After a pause nothing is open: the rest is markup, unless the caller says otherwise.
        ensures paused { IfOk result (λ answer. answer ≢ TokenizerResult.Done
            → self.new.position.opened ≡ Between Data) }

        // For a loop past the pauses, which asks for no more.
        ensures done { result ≡ Ok TokenizerResult.Done → queue.new.text ≡ [] }
        ensures shorter { IfOk result (λ answer. answer ≢ TokenizerResult.Done
            → length queue.new.text < length queue.old.text) }

        // When each error comes, and what it leaves.
        ensures failed_before { (result ≡ Err TokenizerError.Failed) ↔ (self.old.failed ≡ true) }
        ensures unchanged { self.old.failed ≡ true
            → (self.new ≡ self.old) × (queue.new ≡ queue.old) }
        ensures stops { IfErr result (λ error. StopsFeeding Sink.means error self.old
            queue.old.text queue.new.text (Sink.means.state self.new.sink)) }
        ensures faults { Sink.faults self.new.sink ≡ Sink.faults self.old.sink + faults_of result }
        ensures failed { self.new.failed ≡ is_err result }
        ensures empty { queue.old.text ≡ [] → self.old.failed ≡ false → IsOk result }

        // What each feed keeps.
        ensures queue { TakesFront self.old self.new queue.old queue.new }
        ensures rules { self.new.rules ≡ self.old.rules }
        ensures going_on { self.new.ended ≡ false }
    {
        if self.failed {
            return Err(TokenizerError::Failed);
        }
        table_laws(&self.rules);
        let result = read_queue(
            self.alloc,
            &mut self.sink,
            &self.rules,
            &mut self.position,
            queue,
        );
        self.failed = result.is_err();
        result
    }

    /// Sends the end of the input, and has the sink finish. Nothing can be fed afterwards.
    pub fn end(&mut self) -> Result<(), TokenizerError>
        requires { self.old.ended ≡ false }

        // What an `Ok` says: the whole reading was sent, and the sink has finished.
        ensures finishes { OnOk result (Finishes Sink.means self.old (Sink.means.state self.new.sink)) }
        ensures items { OnOk result (FinishesItems Sink.means self.old (Sink.means.state self.new.sink)) }

        // When each error comes, and what it leaves.
        ensures failed_before { (result ≡ Err TokenizerError.Failed) ↔ (self.old.failed ≡ true) }
        ensures unchanged { self.old.failed ≡ true → self.new ≡ self.old }
        ensures stops { IfErr result (λ error. StopsEnding Sink.means error self.old (Sink.means.state self.new.sink)) }
        ensures faults { Sink.faults self.new.sink ≡ Sink.faults self.old.sink + faults_of result }
        ensures failed { self.new.failed ≡ is_err result }
        ensures ended { self.new.ended ≡ is_ok result }
    {
        if self.failed {
            return Err(TokenizerError::Failed);
        }
        table_laws(&self.rules);
        let result = emit_end(self.alloc, &mut self.sink, &self.rules, &mut self.position);
        self.failed = result.is_err();
        self.ended = result.is_ok();
        result
    }

    /// Sends the end of the input as `end` does, and gives the sink back, with what it was sent.
    pub fn finish(mut self) -> (Sink, Result<(), TokenizerError>)
        requires { self.ended ≡ false }
        ensures finishes { OnOk result.1 (Finishes Sink.means self.entry (Sink.means.state result.0)) }
        ensures items { OnOk result.1 (FinishesItems Sink.means self.entry (Sink.means.state result.0)) }
        ensures failed_before { (result.1 ≡ Err TokenizerError.Failed) ↔ (self.entry.failed ≡ true) }
        ensures unchanged { self.entry.failed ≡ true → result.0 ≡ self.entry.sink }
        ensures stops { IfErr result.1 (λ error. StopsEnding Sink.means error self.entry (Sink.means.state result.0)) }
        ensures faults { Sink.faults result.0 ≡ Sink.faults self.entry.sink + faults_of result.1 }
    {
        let result = self.end();
        (self.into_sink(), result)
    }

    /// Whether nothing is pending: no item is open, no call was refused, and the end was not sent. A
    /// CR whose LF may still follow doesn't count. Then the rest can be sent to another sink, which
    /// the caller puts in the field `sink`.
    pub fn nothing_pending(&self) -> bool
        ensures exact { result ≡ (nothing_open self.now.position.opened && not self.now.failed && not self.now.ended) }
        ensures anew { result ≡ true → (x : Sink)
            → StandsAt Sink.means (record self.now { sink = x }) self.now.position (Sink.means.state x) [] }
    {
        if self.failed || self.ended {
            return false;
        }
        self.position.nothing_open()
    }

    /// Whether the last character is a `<` that may begin a tag or other markup.
    pub fn is_after_less_than(&self) -> bool
        ensures { result ≡ is_after_less_than self.now.position.opened }
    {
        self.position.is_after_less_than()
    }

    /// Reads the rest of the stream as plain text, when nothing is pending.
    pub fn set_plaintext_state(&mut self)
        requires nothing_open { nothing_open self.old.position.opened ≡ true }
        requires not_failed { self.old.failed ≡ false }
        requires going_on { self.old.ended ≡ false }
        ensures anew { (x : Sink) → StandsAt Sink.means (record self.new { sink = x })
            (record self.old.position { opened = Between Plain }) (Sink.means.state x) [] }
        ensures sink { self.new.sink ≡ self.old.sink }
        ensures rules { self.new.rules ≡ self.old.rules }
    {
        self.position.set_plaintext();
    }

    /// Whether the end of the input was sent.
    pub fn is_ended(&self) -> bool
        ensures { result ≡ self.now.ended }
    {
        self.ended
    }

    /// Whether an earlier call was refused, so that every further one is.
    pub fn has_failed(&self) -> bool
        ensures { result ≡ self.now.failed }
    {
        self.failed
    }

    /// The sink, with what it was sent.
    pub fn into_sink(self) -> Sink
        ensures { result ≡ self.entry.sink }
    {
        self.sink
    }
}

// The laws of the table that a reading goes by.
fn table_laws<A: Allocator>(rules: &Rules<'_, A>)
    ensures { IsTable rules.now.references }
{
    let references = rules.references;
    references.table_laws();
}

// Sends the end of the input, and has the sink finish.
fn emit_end<S: TokenSink<Token<A>>, A: Allocator + Copy>(
    alloc: A,
    sink: &mut S,
    rules: &Rules<'_, A>,
    position: &mut Position<A>,
) -> Result<(), TokenizerError>
    ensures ok { OnOk result (S.means.state sink.new ≡ S.means.finish (stepped S.means.step (S.means.state sink.old)
        (on_line position.old.input.line (tokens_at_end rules.now position.old.opened)))) }
    ensures err { IfErr result (λ error. EndStops S.means error (S.means.state sink.old)
        (on_line position.old.input.line (tokens_at_end rules.now position.old.opened)) (S.means.state sink.new)) }
    ensures faults { S.faults sink.new ≡ S.faults sink.old + faults_of result }
    ensures fits { position.old.input.line < 2 ^ 64 }
{
    position.emit_end_of_input(alloc, sink, rules)?;
    match sink.end() {
        Ok(()) => Ok(()),
        Err(SinkFault) => Err(TokenizerError::Sink),
    }
}
