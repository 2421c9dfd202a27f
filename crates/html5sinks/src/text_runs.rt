//! A sink that joins texts, and what it hands them to.
ghost use Rattle.std.specs.Borrow.{sem};
ghost use Rattle.std.specs.Prelude.{◌≡◌, ◌≢◌, ◌+◌, ◌++◌, Err, false, [], string_bytes, IfOk, OnOk, OnErr};
ghost use Rattle.html5ever_interface.specs.Token.{told_by, reply_of};
ghost use Rattle.html5sinks.specs.Lending.{LendsHandler};
ghost use Rattle.html5sinks.specs.Replies.{standard_reply};
ghost use Rattle.html5sinks.specs.Runs.{joined_of, joined_step, joined_reply, reply_where_tag};

use crate::replies::standard_reply;
use ghost_counts::Count;
use html5ever_interface::interface::sink::{Says, TokenSink};
use html5ever_interface::interface::token::{SinkFault, TextFault, Token, TokenSinkResult};
use std::alloc::{AllocError, Allocator, Global};
use std::marker::Model;

/// Takes every token but text, each with the whole run of text before it, and leaves it to the standard
/// how the text after a tag is read. A handler writes a state, a step and one method:
/// `impl<A: Allocator> TokenHandler<Token<A>> for MyHandler`.
pub trait TokenHandler<T: Says> {
    ghost use Rattle.std.specs.Prelude.{◌≡◌, ℕ, List, OnOk, OnErr};
    ghost use Rattle.html5ever_interface.specs.Token.{Told};

    // The abstract state of a handler, and what a run and the token after it, handed with a line, make
    // of it.
    ghost State: { Type 0 };

    ghost state: { Self → State };

    ghost step: { State → List ℕ → Told → ℕ → State };

    /// Takes a run, empty if there was no text, with the token after it and the number of the line
    /// that the tokenizer has reached. The token is no text: the end brings the last run. A parse error
    /// does not end a run, and comes at once, with an empty one. An `Err` refuses what was handed, and
    /// the tokenizer stops: the state is then unchanged, as if nothing had been handed.
    fn take_token(&mut self, run: &str, token: T, line_number: u64) -> Result<(), SinkFault>
        ensures steps { OnOk result
            (state self.new ≡ step (state self.old) run.now (T.told token) line_number) }
        ensures fault { OnErr result (state self.new ≡ state self.old) };

    /// Takes a run and the token after it, as `take_token` does, the token from where it lies. What it leaves
    /// there is for its memory alone. By default it takes the token out, and hands both to `take_token`.
    fn take_lent(&mut self, run: &str, token: &mut T, line_number: u64) -> Result<(), SinkFault>
        ensures steps { OnOk result
            (state self.new ≡ step (state self.old) run.now (T.told token.old) line_number) }
        ensures fault { OnErr result (state self.new ≡ state self.old) }
    {
        self.take_token(run, token.take(), line_number)
    }
}

/// Takes every token but text, each with the whole run of text before it, and replies to tags. Each
/// `TokenHandler` is one, with the standard's replies: write this only to reply otherwise. A handler writes
/// `reply` too, and a `Handle` for its scripts.
pub trait ReplyingTokenHandler<T: Says> {
    ghost use Rattle.std.specs.Prelude.{◌≡◌, ℕ, List, IfOk, OnOk, OnErr};
    ghost use Rattle.html5ever_interface.specs.Token.{Told, TagOf, Reply, reply_of};
    ghost use Rattle.html5sinks.specs.Runs.{reply_where_tag};

    type Handle: Drop;

    // The abstract state of a handler, and what a run and the token after it, handed with a line, make
    // of it.
    ghost State: { Type 0 };

    ghost state: { Self → State };

    ghost step: { State → List ℕ → Told → ℕ → State };

    // What is replied to a tag after a run.
    ghost reply: { State → List ℕ → TagOf → ℕ → Reply Self.Handle };

    /// Takes a run and the token after it, as `take_token` of `TokenHandler` does, and replies: to a tag
    /// as `reply` says, and to any other token to read on.
    fn answer_token(
        &mut self,
        run: &str,
        token: T,
        line_number: u64,
    ) -> Result<TokenSinkResult<Self::Handle, T::Text>, SinkFault>
        ensures steps { OnOk result
            (state self.new ≡ step (state self.old) run.now (T.told token) line_number) }
        ensures replies { IfOk result (λ answer. reply_of T.text_bytes answer
            ≡ reply_where_tag (λ tag. reply (state self.old) run.now tag line_number) (T.told token)) }
        ensures fault { OnErr result (state self.new ≡ state self.old) };

    /// The same, with the token where it lies: what it leaves there is for its memory alone. By default it takes
    /// the token out, and hands both to `answer_token`.
    fn answer_lent(
        &mut self,
        run: &str,
        token: &mut T,
        line_number: u64,
    ) -> Result<TokenSinkResult<Self::Handle, T::Text>, SinkFault>
        ensures steps { OnOk result
            (state self.new ≡ step (state self.old) run.now (T.told token.old) line_number) }
        ensures replies { IfOk result (λ answer. reply_of T.text_bytes answer
            ≡ reply_where_tag (λ tag. reply (state self.old) run.now tag line_number) (T.told token.old)) }
        ensures fault { OnErr result (state self.new ≡ state self.old) }
    {
        self.answer_token(run, token.take(), line_number)
    }
}

/// What the standard's elements ask for, where the token is a tag.
pub fn reply_to_token<A: Allocator>(token: &Token<A>) -> TokenSinkResult<(), String<A>>
    ensures { reply_of string_bytes result ≡ reply_where_tag standard_reply (told_by token.now) }
{
    match token {
        Token::TagToken(tag) => standard_reply(tag),
        _ => TokenSinkResult::Continue,
    }
}

impl<H: TokenHandler<Token<A>>, A: Allocator> ReplyingTokenHandler<Token<A>> for H {
    ghost use Rattle.html5sinks.specs.Replies.{standard_reply};

    type Handle = ();

    ghost State = { H.State };

    ghost state = { H.state };

    ghost step = { H.step };

    ghost reply = { λ state run tag line. standard_reply tag };

    fn answer_token(
        &mut self,
        run: &str,
        token: Token<A>,
        line_number: u64,
    ) -> Result<TokenSinkResult<(), String<A>>, SinkFault> {
        let reply = reply_to_token(&token);
        // A match in place of `?`: split for the proof.
        match self.take_token(run, token, line_number) {
            Ok(()) => Ok(reply),
            Err(SinkFault) => Err(SinkFault),
        }
    }

    fn answer_lent(
        &mut self,
        run: &str,
        token: &mut Token<A>,
        line_number: u64,
    ) -> Result<TokenSinkResult<(), String<A>>, SinkFault> {
        let reply = reply_to_token(token);
        // A match in place of `?`: split for the proof.
        match self.take_lent(run, token, line_number) {
            Ok(()) => Ok(reply),
            Err(SinkFault) => Err(SinkFault),
        }
    }
}

/// Joins adjacent texts, and hands each whole run to a handler together with the token after it,
/// however the tokenizer cut it. A text that finds no memory is a fault, and the run stays as it was.
#[derive(Drop)]
pub struct TextRuns<H, A: Allocator = Global> {
    handler: H,
    run: String<A>,
    foreign: bool,
    faults: Count,
}

impl<H, A: Allocator> Model for TextRuns<H, A> {
    ghost use Rattle.std.specs.Prelude.{string_bytes};
    ghost use Rattle.html5sinks.specs.Runs.{RunSink};

    ghost Value = { RunSink H };

    ghost view = { λ s. record {
      handler = s.handler;
      run = string_bytes s.run;
      foreign = s.foreign;
      faults = s.faults.total;
    } };
}

impl<H, A: Allocator> TextRuns<H, A> {
    /// A sink that hands runs to this handler. `<![CDATA[` begins no section.
    pub fn new(alloc: A, handler: H) -> TextRuns<H, A>
        ensures handler { result.handler ≡ handler }
        ensures run { result.run ≡ [] }
        ensures foreign { result.foreign ≡ false }
        ensures faults { result.faults ≡ 0 }
    {
        TextRuns::with_foreign(alloc, handler, false)
    }

    /// A sink that hands runs to this handler. `foreign` is its answer about the current node, at each
    /// call.
    pub fn with_foreign(alloc: A, handler: H, foreign: bool) -> TextRuns<H, A>
        ensures handler { result.handler ≡ handler }
        ensures run { result.run ≡ [] }
        ensures foreign { result.foreign ≡ foreign }
        ensures faults { result.faults ≡ 0 }
    {
        TextRuns {
            handler,
            run: String::new(alloc),
            foreign,
            faults: Count::new(),
        }
    }

    /// The handler, with what it was handed so far.
    pub fn handler(&self) -> &H
        ensures { result.now ≡ self.now.handler }
    {
        &self.handler
    }

    /// The run of text that no token has ended yet.
    pub fn run(&self) -> &str
        ensures { result.now ≡ self.now.run }
    {
        self.run.as_str()
    }

    /// The handler, to change it between two calls, such as to take what it made of its runs.
    pub fn handler_mut(&mut self) -> &mut H
        ensures* writes_back { sem 𝓛 (LendsHandler H.row A.row A.Allocator self.entry result) }
        ensures value { result.now ≡ self.old.handler }
    {
        &mut self.handler
    }

    /// The handler, with what it was handed. A run that no token ended is dropped: there is none
    /// after the end of the input.
    pub fn into_inner(self) -> H
        ensures { result ≡ self.handler }
    {
        self.handler
    }
}

// Hands a run and the token after it on. The run is then empty; where the handler faults it stays.
fn hand_on<H: ReplyingTokenHandler<Token<A>>, A: Allocator>(
    handler: &mut H,
    run: &mut String<A>,
    token: &mut Token<A>,
    line: u64,
) -> Result<TokenSinkResult<H::Handle, String<A>>, SinkFault>
    ensures steps { OnOk result (H.state handler.new
        ≡ H.step (H.state handler.old) (string_bytes run.old) (told_by token.old) line) }
    ensures replies { IfOk result (λ answer. reply_of string_bytes answer
        ≡ reply_where_tag (λ tag. H.reply (H.state handler.old) (string_bytes run.old) tag line) (told_by token.old)) }
    ensures ended { OnOk result (string_bytes run.new ≡ []) }
    ensures fault { OnErr result (H.state handler.new ≡ H.state handler.old) }
    ensures kept { OnErr result (string_bytes run.new ≡ string_bytes run.old) }
{
    // A match in place of `?`: split for the proof.
    match handler.answer_lent(run.as_str(), token, line) {
        Ok(answer) => {
            run.clear();
            Ok(answer)
        }
        Err(SinkFault) => Err(SinkFault),
    }
}

// Takes a token from where it lies. Where it faults, nothing has changed.
fn take_told<H: ReplyingTokenHandler<Token<A>>, A: Allocator>(
    handler: &mut H,
    run: &mut String<A>,
    token: &mut Token<A>,
    line: u64,
) -> Result<TokenSinkResult<H::Handle, String<A>>, SinkFault>
    ensures steps { OnOk result (joined_of (H.state handler.new) (string_bytes run.new)
        ≡ joined_step H.step (joined_of (H.state handler.old) (string_bytes run.old)) (told_by token.old) line) }
    ensures replies { IfOk result (λ answer. reply_of string_bytes answer
        ≡ joined_reply H.reply (joined_of (H.state handler.old) (string_bytes run.old)) (told_by token.old) line) }
    ensures fault { OnErr result (joined_of (H.state handler.new) (string_bytes run.new)
        ≡ joined_of (H.state handler.old) (string_bytes run.old)) }
{
    match token {
        Token::CharacterTokens(text) => match run.push_str(text) {
            Ok(()) => Ok(TokenSinkResult::Continue),
            Err(AllocError) => Err(SinkFault),
        },
        Token::ParseError(_) => handler.answer_lent("", token, line),
        _ => hand_on(handler, run, token, line),
    }
}

impl<H: ReplyingTokenHandler<Token<A>>, A: Allocator> TokenSink<Token<A>> for TextRuns<H, A> {
    ghost use Rattle.std.specs.Prelude.{refl};
    ghost use Rattle.html5sinks.specs.Runs.{Running, joined_of, runs_step, runs_reply, runs_faulted};
    ghost use Rattle.html5sinks.specs.RunLaws.{runs_join, runs_empty, runs_keep_on};

    type Handle = H::Handle;

    ghost State = { Running H.State };

    ghost means = { record {
      state = λ s. record { joined = joined_of (H.state s.handler) s.run; foreign = s.foreign };
      step = runs_step H.step;
      reply = runs_reply H.reply;
      foreign = λ s. s.foreign;
      finish = λ s. s;
      faulted = runs_faulted;
      end_faulted = λ s. s;
    } };

    ghost faults = { λ s. s.faults };

    ghost joins = { runs_join H.step };

    ghost empty = { runs_empty H.step };

    ghost any_line = { λ s a line other. refl };

    ghost keeps_on = { runs_keep_on H.reply };

    fn process_token(
        &mut self,
        mut token: Token<A>,
        line_number: u64,
    ) -> Result<TokenSinkResult<H::Handle, String<A>>, SinkFault> {
        self.process_lent(&mut token, line_number)
    }

    fn process_lent(
        &mut self,
        token: &mut Token<A>,
        line_number: u64,
    ) -> Result<TokenSinkResult<H::Handle, String<A>>, SinkFault> {
        match take_told(&mut self.handler, &mut self.run, token, line_number) {
            Ok(answer) => Ok(answer),
            Err(SinkFault) => {
                self.faults.add(1);
                Err(SinkFault)
            }
        }
    }

    // Joins the text to the run from where it lies. A run that finds no memory is a fault of the sink.
    fn process_text(&mut self, _alloc: A, text: &str, _line_number: u64) -> Result<(), TextFault>
        ensures joins { OnOk result (self.new ≡ record self.old { run = self.old.run ++ text.now }) }
        ensures never_memory { result ≢ Err TextFault.Memory }
        ensures fault { OnErr result (self.new ≡ record self.old { faults = self.old.faults + 1 }) }
    {
        match self.run.push_str(text) {
            Ok(()) => Ok(()),
            Err(AllocError) => {
                self.faults.add(1);
                Err(TextFault::Sink)
            }
        }
    }

    fn end(&mut self) -> Result<(), SinkFault> {
        Ok(())
    }

    fn adjusted_current_node_present_but_not_in_html_namespace(&self) -> bool {
        self.foreign
    }
}
