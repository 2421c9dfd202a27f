//! Runs, and characters that tell nothing: what is read at once from where a tokenizer stands.
#![tactic(auto, unfolding(html5partial::specs::CharRef::with_reference))]

ghost use Rattle.std.specs.Prelude.{◌≡◌, ◌≢◌, ◌^◌, ◌<◌, ◌≤◌, ◌+◌, ℕ, List, ◌∷◌, true, false, length, take, drop, All, Contains, IfOk, IfErr, IfSome, OnOk};
ghost use Rattle.html5ever_interface.specs.Sink.{Message};
ghost use Rattle.html5ever_interface.specs.Token.Told.{Text};
ghost use Rattle.html5reading.specs.Characters.{carriage_return};
ghost use Rattle.html5reading.specs.NormalisedText.{input_after};
ghost use Rattle.html5reading.specs.Start.{nothing_open, held_len};
ghost use Rattle.html5partial.specs.CharRef.{BeginsInAscii};
ghost use Rattle.html5partial.specs.Undecided.{is_reference};
ghost use Rattle.html5feed.specs.Refused.{IsRun};
ghost use Rattle.html5partial.specs.Runs.{IsRunAt, other_run_ends, run_ends, opened_after_run};
ghost use Rattle.std.specs.Str.{IsUtf8, chars};
ghost use Rattle.html5states.specs.Telling.{Tells, IsRefusal, IsToldAs, faults_of};
ghost use Rattle.html5feed.specs.Quiet.{HoldsText, IsQuietText, StopsAtCharacter};

use crate::good_runs::{good_run_len, is_unquoted};
use crate::position::Position;
use crate::rules::Rules;
use html5ever_interface::interface::sink::TokenSink;
use html5ever_interface::interface::token::Token;
use html5fast_path::texts::{Refused, read_quietly};
use html5partial::error::TokenizerError;
use html5partial::runs::{push_run, run_ends};
use html5states::teller::Teller;
use markup5ever::data::NamedReferences;
use std::alloc::{AllocError, Allocator};

impl<A: Allocator + Copy> Position<A> {
    /// How many bytes of a text can be read at once from here. They are those of a run. There are none if a first
    /// character may be dropped. Where errors are exact, the run ends before a bad character and before one that
    /// is not of ASCII, and there is none in a value without quotes.
    #[inline(always)]
    pub fn run_len(&self, rules: &Rules<'_, A>, text: &str) -> usize
        ensures within { result ≤ length text.now }
        ensures rest_utf8 { IsUtf8 (drop result text.now) }
        ensures run { result ≢ 0 → IsRun rules.now self.now (chars (take result text.now)) }
        ensures fits { result ≢ 0 → self.now.input.line < 2 ^ 64 }
        ensures found { rules.now.exact ≡ false → self.now.input.after_carriage_return ≡ false
            → self.now.input.drops_byte_order_mark ≡ false → IfSome (other_run_ends self.now.opened) (λ others.
            (c : ℕ) (rest : List ℕ) → chars text.now ≡ c ∷ rest → ¬ Contains (run_ends others) c → result ≢ 0) }
    {
        if self.in_reference || !self.input.is_past_start() {
            return 0;
        }
        let Some(ends) = run_ends(&self.opened) else {
            return 0;
        };
        if !rules.exact_errors {
            return ends.nonmember_prefix_len(text);
        }
        if is_unquoted(&self.opened) {
            return 0;
        }
        good_run_len(ends, text)
    }

    /// Sends a run of text at once, on the line that is reached after it.
    #[inline(always)]
    pub fn emit_run<S: TokenSink<Token<A>>>(
        &mut self,
        alloc: A,
        sink: &mut S,
        run: &str,
    ) -> Result<(), TokenizerError>
        requires past_line_break { self.old.input.after_carriage_return ≡ false }
        requires past_stream_start { self.old.input.drops_byte_order_mark ≡ false }
        requires no_carriage_return { All (λ c. c ≢ carriage_return) (chars run.now) }
        ensures tells { (M : List Message) → IsToldAs (Text run.now) self.new.input.line M
            → Tells S.means.step S.means.faulted result (S.means.state sink.old) M (S.means.state sink.new) }
        ensures faults { S.faults sink.new ≡ S.faults sink.old + faults_of result }
        ensures refusal { IfErr result IsRefusal }
        ensures opened { self.new.opened ≡ self.old.opened }
        ensures last { self.new.last_start_tag ≡ self.old.last_start_tag }
        ensures input { self.new.input ≡ input_after self.old.input (chars run.now) }
    {
        self.input.advance_run(run);
        let line = self.input.line();
        let mut teller = Teller {
            sink,
            alloc,
            exact_errors: false,
            line,
        };
        teller.hand_on_text(run)
    }

    /// Reads a text, from its front, as long as its characters tell nothing. Answers how many bytes it
    /// read. Where a reference is open they are held of it, also where errors are exact. Elsewhere it
    /// reads none where errors are exact. It reads none at all where a first character may be dropped.
    #[inline(always)]
    pub fn read_quietly(
        &mut self,
        alloc: A,
        rules: &Rules<'_, A>,
        text: &str,
    ) -> Result<usize, Refused>
        ensures within { IfOk result (λ bytes. bytes ≤ length text.now) }
        ensures rest_utf8 { IfOk result (λ bytes. IsUtf8 (drop bytes text.now)) }
        ensures quiet { IfOk result (λ bytes. bytes ≢ 0
            → IsQuietText rules.now self.old (chars (take bytes text.now)) self.new.opened) }
        ensures none { IfOk result (λ bytes. bytes ≡ 0 → self.new.opened ≡ self.old.opened) }
        ensures refused_within { IfErr result (λ refused. refused.bytes ≤ length text.now) }
        ensures refused_utf8 { IfErr result (λ refused. IsUtf8 (drop refused.bytes text.now)) }
        ensures refused { IfErr result (λ refused.
            StopsAtCharacter rules.now self.old (chars (take refused.bytes text.now))) }
        ensures last { self.new.last_start_tag ≡ self.old.last_start_tag }
        ensures input { self.new.input ≡ self.old.input }
        ensures held { IfOk result (λ bytes. held_len self.new.opened
            ≤ held_len self.old.opened + length (chars (take bytes text.now))) }
        ensures refused_held { IfErr result (λ refused. held_len self.new.opened ≤ held_len self.old.opened) }
    {
        if !self.input.is_past_start() {
            return Ok(0);
        }
        if self.in_reference {
            return self.hold_front(rules.references, text);
        }
        if rules.exact_errors {
            return Ok(0);
        }
        read_quietly(&mut self.opened, alloc, text)
    }

    // Holds the letters and digits with which a text begins, where a reference is open. Answers how many
    // bytes it holds.
    #[inline(always)]
    fn hold_front(&mut self, references: &NamedReferences<A>, text: &str) -> Result<usize, Refused>
        requires { is_reference self.old.opened ≡ true }
        ensures within { IfOk result (λ bytes. bytes ≤ length text.now) }
        ensures rest_utf8 { IfOk result (λ bytes. IsUtf8 (drop bytes text.now)) }
        ensures holds { IfOk result (λ bytes.
            HoldsText references.now self.old.opened (chars (take bytes text.now)) self.new.opened) }
        ensures kept { IfErr result (λ refused. self.new.opened ≡ self.old.opened) }
        ensures refused { IfErr result (λ refused. (refused.bytes ≡ 1) × BeginsInAscii text.now) }
        ensures last { self.new.last_start_tag ≡ self.old.last_start_tag }
        ensures input { self.new.input ≡ self.old.input }
    {
        match self.held.hold_front(references, text) {
            Ok(bytes) => Ok(bytes),
            Err(AllocError) => Err(Refused { bytes: 1 }),
        }
    }

    /// Appends a run to the open name, value or comment.
    #[inline(always)]
    pub fn push_run(&mut self, run: &str) -> Result<(), TokenizerError>
        requires is_run { IsRunAt self.old.opened (chars run.now) }
        requires within { nothing_open self.old.opened ≡ false }
        ensures opened { OnOk result
            (self.new.opened ≡ opened_after_run self.old.opened (chars run.now)) }
        ensures last { self.new.last_start_tag ≡ self.old.last_start_tag }
        ensures input { self.new.input ≡ self.old.input }
        ensures held { held_len self.new.opened ≤ held_len self.old.opened }
        ensures memory { IfErr result (λ error. error ≡ TokenizerError.Memory) }
    {
        Ok(push_run(&mut self.opened, run)?)
    }
}
