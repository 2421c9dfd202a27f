//! A sink that keeps what it is sent.
ghost use Rattle.std.specs.Prelude.{◌≡◌, [], ◌∷◌, ◌++◌, map, OnOk, OnErr, string_bytes};
ghost use Rattle.html5ever_interface.specs.Collected.{message_of, with_text, with_told, none_collected};
ghost use Rattle.html5ever_interface.specs.Token.{told_by};

use crate::interface::sink::TokenSink;
use crate::interface::token::{SinkFault, Token, TokenSinkResult};
use ghost_counts::Count;
use std::alloc::{AllocError, Allocator, Global};
use std::marker::Model;

// Appends an entry.
fn push_entry<A: Allocator>(
    entries: &mut Vec<(Token<A>, u64), A>,
    token: Token<A>,
    line: u64,
) -> Result<(), AllocError>
    ensures ok { OnOk result (entries.new.items ≡ entries.old.items ++ (token, line) ∷ []) }
    ensures err { OnErr result (entries.new.items ≡ entries.old.items) }
{
    match entries.push((token, line)) {
        Ok(()) => Ok(()),
        Err(_) => Err(AllocError),
    }
}

// Appends a text: to the last entry, where that is a text.
fn push_text<A: Allocator>(
    entries: &mut Vec<(Token<A>, u64), A>,
    text: String<A>,
) -> Result<(), AllocError>
    ensures ok { OnOk result
        (map message_of entries.new.items
        ≡ with_text (map message_of entries.old.items) (string_bytes text)) }
    ensures err { OnErr result
        (map message_of entries.new.items ≡ map message_of entries.old.items) }
{
    let Some(last) = entries.len().checked_sub(1) else {
        return push_entry(entries, Token::CharacterTokens(text), 0);
    };
    match &mut entries[last].0 {
        Token::CharacterTokens(before) => before.push_str(&text),
        _ => push_entry(entries, Token::CharacterTokens(text), 0),
    }
}

// Appends a token with its line.
#[tactic(auto, unfolding(crate::specs::Collected::with_message))]
fn push_token<A: Allocator>(
    entries: &mut Vec<(Token<A>, u64), A>,
    token: Token<A>,
    line: u64,
) -> Result<(), AllocError>
    ensures ok { OnOk result
        (map message_of entries.new.items
        ≡ with_told (map message_of entries.old.items) (told_by token) line) }
    ensures err { OnErr result
        (map message_of entries.new.items ≡ map message_of entries.old.items) }
{
    match token {
        Token::CharacterTokens(text) => {
            if text.is_empty() {
                return Ok(());
            }
            push_text(entries, text)
        }
        token => push_entry(entries, token, line),
    }
}

/// Keeps the tokens that it is sent, with their lines. Adjacent texts are one entry, whose line is
/// 0, and an empty text has none. A token that could not be kept leaves nothing.
#[derive(Drop)]
pub struct Collector<A: Allocator = Global> {
    entries: Vec<(Token<A>, u64), A>,
    finished: bool,
    foreign: bool,
    faults: Count,
}

impl<A: Allocator> Model for Collector<A> {
    ghost use Rattle.std.specs.Prelude.{map};
    ghost use Rattle.html5ever_interface.specs.Collected.{Collecting, message_of};

    ghost Value = { Collecting };

    ghost view = { λ c. record {
      collected = record {
        messages = map message_of c.entries.items;
        finished = c.finished;
        foreign = c.foreign;
      };
      faults = c.faults.total;
    } };
}

impl<A: Allocator> Collector<A> {
    /// A sink that was sent nothing. `foreign` is its answer about the current node, at each call.
    pub fn new(alloc: A, foreign: bool) -> Collector<A>
        ensures collected { result.collected ≡ none_collected foreign }
        ensures faults { result.faults ≡ 0 }
    {
        Collector {
            entries: Vec::new(alloc),
            finished: false,
            foreign,
            faults: Count::new(),
        }
    }

    /// The tokens so far, with their lines.
    pub fn entries(&self) -> &[(Token<A>, u64)]
        ensures { map message_of result.now ≡ self.now.collected.messages }
    {
        self.entries.as_slice()
    }

    /// Whether the sink was sent the end, so that no token follows.
    pub fn is_finished(&self) -> bool
        ensures { result ≡ self.now.collected.finished }
    {
        self.finished
    }
}

impl<A: Allocator + Copy> TokenSink<Token<A>> for Collector<A> {
    ghost use Rattle.html5ever_interface.specs.Collected.{Collected, collected_step, collected_reply, collected_foreign, collected_faulted, collected_finish};
    ghost use Rattle.html5ever_interface.specs.CollectorLaws.{collected_joins, collected_empty, collected_any_line, collected_keeps_on};

    type Handle = ();

    ghost State = { Collected };

    ghost means = { record {
      state = λ c. c.collected;
      step = collected_step;
      reply = collected_reply;
      foreign = collected_foreign;
      finish = collected_finish;
      faulted = collected_faulted;
      end_faulted = λ c. c;
    } };

    ghost faults = { λ c. c.faults };

    ghost joins = { collected_joins };

    ghost empty = { collected_empty };

    ghost any_line = { collected_any_line };

    ghost keeps_on = { collected_keeps_on };

    fn process_token(
        &mut self,
        token: Token<A>,
        line_number: u64,
    ) -> Result<TokenSinkResult<(), String<A>>, SinkFault> {
        match push_token(&mut self.entries, token, line_number) {
            Ok(()) => Ok(TokenSinkResult::Continue),
            Err(AllocError) => {
                self.faults.add(1);
                Err(SinkFault)
            }
        }
    }

    fn end(&mut self) -> Result<(), SinkFault> {
        self.finished = true;
        Ok(())
    }

    fn adjusted_current_node_present_but_not_in_html_namespace(&self) -> bool {
        self.foreign
    }
}
