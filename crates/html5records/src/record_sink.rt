//! A sink that writes what it is sent as records of bytes.
ghost use Rattle.std.specs.Prelude.{◌≡◌, ◌≢◌, ℕ, Err, false, List, [], ◌∷◌, ◌+◌, ◌≤◌, ◌++◌, length, take, drop, min, string_bytes, IfOk, OnOk, OnErr};
ghost use Rattle.html5records.specs.Recording.{Recorded, waiting, nothing_recorded, at_script, pause_after_tag, reply_by, with_foreign, added_by, added_by_text, recorded_step, WritesOn, closed_bytes, joined, after_taking};
ghost use Rattle.html5records.specs.Records.{records_of};
ghost use Rattle.markup5ever.specs.Lists.{BeginsWith};
ghost use Rattle.html5ever_interface.specs.Sink.{Message, stepped};
ghost use Rattle.html5ever_interface.specs.Token.Told.{End, Text};
ghost use Rattle.html5ever_interface.specs.Token.{told_by, reply_of};

use crate::records::{is_open_after, is_open_after_text, push_text, push_token};
use ghost_counts::{Count, Log};
use html5ever_interface::interface::sink::TokenSink;
use html5ever_interface::interface::token::{SinkFault, TextFault, Token, TokenSinkResult};
use html5sinks::pausing::pausing_reply;
use html5sinks::replies::standard_reply;
use outbox::front::{rest_of, skip_front};
use std::alloc::{AllocError, Allocator, Global};
use std::marker::Model;

/// How a sink of records replies to tags.
#[derive(Clone, Copy, Debug, PartialEq, Eq, Default)]
pub enum Replies {
    /// To read on, whatever the tag: all that comes after it is markup.
    None,
    /// As the standard asks by the tag's element, so that the content of `script`, `style`, `title` and their like is
    /// not markup. It never pauses.
    #[default]
    Standard,
    /// As the standard asks, with pauses: after an end tag `script`, and after a start tag `meta` with an
    /// attribute `charset`.
    Pausing,
    /// The caller's: it pauses after each tag, and reads on as markup where the caller sets no other state.
    Caller,
}

/// After what it pauses.
#[derive(Clone, Copy, Debug, PartialEq, Eq)]
pub enum PausedAt {
    /// An end tag `script`, by the standard's replies with pauses.
    Script,
    /// A tag to which the caller replies.
    Tag,
}

/// What a sink of records answers to the tokenizer.
#[derive(Clone, Copy, Debug, PartialEq, Eq, Default)]
pub struct RecordOptions {
    /// The replies to tags.
    pub replies: Replies,
    /// The answer about the current node, at each call.
    pub foreign: bool,
}

// A reply by the standard, where a pause for a script says so.
fn at_script<A: Allocator>(
    reply: TokenSinkResult<(), String<A>>,
) -> TokenSinkResult<PausedAt, String<A>>
    ensures { reply_of string_bytes result ≡ at_script (reply_of string_bytes reply) }
{
    match reply {
        TokenSinkResult::Continue => TokenSinkResult::Continue,
        TokenSinkResult::Plaintext => TokenSinkResult::Plaintext,
        TokenSinkResult::RawData(kind) => TokenSinkResult::RawData(kind),
        TokenSinkResult::Script(()) => TokenSinkResult::Script(PausedAt::Script),
        TokenSinkResult::EncodingIndicator(text) => TokenSinkResult::EncodingIndicator(text),
    }
}

// The reply to a token by the standard, without pauses.
fn standard_reply_to<A: Allocator>(token: &Token<A>) -> TokenSinkResult<PausedAt, String<A>>
    ensures { reply_of string_bytes result ≡ reply_by Replies.Standard (told_by token.now) }
{
    match token {
        Token::TagToken(tag) => at_script(standard_reply(tag)),
        _ => TokenSinkResult::Continue,
    }
}

// A pause after each tag.
fn pause_after_tag<A: Allocator>(token: &Token<A>) -> TokenSinkResult<PausedAt, String<A>>
    ensures { reply_of string_bytes result ≡ pause_after_tag (told_by token.now) }
{
    match token {
        Token::TagToken(_) => TokenSinkResult::Script(PausedAt::Tag),
        _ => TokenSinkResult::Continue,
    }
}

// The reply to a token.
fn reply_to<A: Allocator + Copy>(
    replies: Replies,
    token: &Token<A>,
) -> Result<TokenSinkResult<PausedAt, String<A>>, AllocError>
    ensures { IfOk result (λ reply. reply_of string_bytes reply ≡ reply_by replies (told_by token.now)) }
{
    match replies {
        Replies::None => Ok(TokenSinkResult::Continue),
        Replies::Standard => Ok(standard_reply_to(token)),
        Replies::Pausing => Ok(at_script(pausing_reply(token)?)),
        Replies::Caller => Ok(pause_after_tag(token)),
    }
}

// Appends what a text adds, or nothing.
fn push_whole_text<A: Allocator>(
    written: &mut Vec<u8, A>,
    in_text: bool,
    text: &[u8],
) -> Result<(), AllocError>
    ensures ok { OnOk result (written.new.items ≡ written.old.items ++ added_by_text in_text text.now) }
    ensures err { OnErr result (written.new.items ≡ written.old.items) }
{
    let before = written.len();
    match push_text(written, in_text, text) {
        Ok(()) => Ok(()),
        Err(AllocError) => {
            written.truncate(before);
            Err(AllocError)
        }
    }
}

// Appends what a token adds, and then replies to it. Where one of them is refused, a part may be left.
fn push_then_reply<A: Allocator + Copy>(
    written: &mut Vec<u8, A>,
    in_text: bool,
    replies: Replies,
    token: &Token<A>,
    line: u64,
) -> Result<TokenSinkResult<PausedAt, String<A>>, AllocError>
    ensures ok { OnOk result
        (written.new.items ≡ written.old.items ++ added_by in_text (told_by token.now) line) }
    ensures replies { IfOk result
        (λ reply. reply_of string_bytes reply ≡ reply_by replies (told_by token.now)) }
    ensures err { OnErr result (BeginsWith written.new.items written.old.items) }
{
    push_token(written, in_text, token, line)?;
    reply_to(replies, token)
}

// Appends what a token adds, and replies to it, or does nothing.
fn push_and_reply<A: Allocator + Copy>(
    written: &mut Vec<u8, A>,
    in_text: bool,
    replies: Replies,
    token: &Token<A>,
    line: u64,
) -> Result<TokenSinkResult<PausedAt, String<A>>, AllocError>
    ensures ok { OnOk result
        (written.new.items ≡ written.old.items ++ added_by in_text (told_by token.now) line) }
    ensures replies { IfOk result
        (λ reply. reply_of string_bytes reply ≡ reply_by replies (told_by token.now)) }
    ensures err { OnErr result (written.new.items ≡ written.old.items) }
{
    let len = written.len();
    match push_then_reply(written, in_text, replies, token, line) {
        Ok(reply) => Ok(reply),
        Err(AllocError) => {
            written.truncate(len);
            Err(AllocError)
        }
    }
}

/// What is written for messages is their records, one after the other. Adjacent texts are one, and an empty text has none.
/// It is all there once the last text is ended, or at once where the messages end with the end of the input. What was
/// written before stays in front, and as many bytes of it are taken as before.
pub fn writes_records()
    ensures on { (r : Recorded) (M : List Message) → WritesOn r (stepped recorded_step r M) }
    ensures closed { (r : Recorded) (M : List Message) → r.in_text ≡ false
        → closed_bytes (stepped recorded_step r M) ≡ r.bytes ++ records_of (joined M) }
    ensures ended { (r : Recorded) (M N : List Message) (line : ℕ) → r.in_text ≡ false
        → M ≡ N ++ record { token = End; line = line } ∷ []
        → (stepped recorded_step r M).bytes ≡ r.bytes ++ records_of (joined M) }
{}

/// Writes what it is sent as records: a text as it comes, and any other token at once. The bytes wait in the sink until
/// they are taken. A token whose bytes find no memory, or its reply, is a fault, and leaves none of them.
#[derive(Drop)]
pub struct RecordSink<A: Allocator = Global> {
    written: Vec<u8, A>,
    // How many bytes of the page were taken.
    skipped: usize,
    in_text: bool,
    replies: Replies,
    foreign: bool,
    taken: Log,
    faults: Count,
}

impl<A: Allocator> Model for RecordSink<A> {
    ghost use Rattle.std.specs.Prelude.{◌≤◌, ◌++◌, length, drop};
    ghost use Rattle.html5records.specs.Recording.{Recording};

    ghost Value = { Recording };

    ghost view = { λ s. record {
      recorded = record {
        bytes = s.taken.bytes ++ drop s.skipped s.written.items;
        taken = length s.taken.bytes;
        in_text = s.in_text;
        replies = s.replies;
        foreign = s.foreign;
      };
      faults = s.faults.total;
    } };

    ghost invariant = { λ s. s.skipped ≤ length s.written.items };
}

impl<A: Allocator> RecordSink<A> {
    /// A sink that was sent nothing.
    pub fn new(alloc: A, options: RecordOptions) -> RecordSink<A>
        ensures { result ≡ nothing_recorded options.replies options.foreign }
    {
        RecordSink {
            written: Vec::new(alloc),
            skipped: 0,
            in_text: false,
            replies: options.replies,
            foreign: options.foreign,
            taken: Log::new(),
            faults: Count::new(),
        }
    }

    /// The bytes that were not taken yet: they go on waiting.
    pub fn waiting(&self) -> &[u8]
        ensures waiting { result.now ≡ waiting self.now.recorded }
        ensures within { self.now.recorded.taken ≤ length self.now.recorded.bytes }
    {
        rest_of(&self.written, self.skipped)
    }

    /// Sets the answer about the current node.
    pub fn set_foreign(&mut self, foreign: bool)
        ensures { self.new ≡ with_foreign self.old foreign }
    {
        self.foreign = foreign;
    }

    /// Takes this many of the waiting bytes.
    pub fn skip(&mut self, count: usize)
        requires { count ≤ length (waiting self.old.recorded) }
        ensures { self.new ≡ after_taking self.old count }
    {
        let front = rest_of(&self.written, self.skipped);
        self.taken.add(&front[..count]);
        skip_front(&mut self.written, &mut self.skipped, count);
    }

    /// Takes as many waiting bytes as there is room for, and copies them. It answers how many. A record may be cut
    /// in two: what is left of it comes first at the next call.
    pub fn take(&mut self, into: &mut [u8]) -> usize
        ensures count { result ≡ min (length into.old) (length (waiting self.old.recorded)) }
        ensures copied { into.new ≡ take result (waiting self.old.recorded) ++ drop result into.old }
        ensures taken { self.new ≡ after_taking self.old result }
    {
        let waiting = self.waiting();
        let count = into.len().min(waiting.len());
        into[..count].copy_from_slice(&waiting[..count]);
        self.skip(count);
        count
    }
}

impl<A: Allocator + Copy> TokenSink<Token<A>> for RecordSink<A> {
    ghost use Rattle.html5records.specs.Recording.{Recorded, recorded_means};
    ghost use Rattle.html5records.specs.RecordedLaws.{recorded_joins, recorded_empty, recorded_any_line, recorded_keeps_on};

    type Handle = PausedAt;

    ghost State = { Recorded };

    ghost means = { recorded_means };

    ghost faults = { λ s. s.faults };

    ghost joins = { recorded_joins };

    ghost empty = { recorded_empty };

    ghost any_line = { recorded_any_line };

    ghost keeps_on = { recorded_keeps_on };

    fn process_token(
        &mut self,
        mut token: Token<A>,
        line_number: u64,
    ) -> Result<TokenSinkResult<PausedAt, String<A>>, SinkFault> {
        self.process_lent(&mut token, line_number)
    }

    // Writes the token from where it lies.
    fn process_lent(
        &mut self,
        token: &mut Token<A>,
        line_number: u64,
    ) -> Result<TokenSinkResult<PausedAt, String<A>>, SinkFault> {
        let in_text = is_open_after(self.in_text, token);
        match push_and_reply(
            &mut self.written,
            self.in_text,
            self.replies,
            token,
            line_number,
        ) {
            Ok(reply) => {
                self.in_text = in_text;
                Ok(reply)
            }
            Err(AllocError) => {
                self.faults.add(1);
                Err(SinkFault)
            }
        }
    }

    // Writes the text from where it lies. Bytes that find no memory are a fault of the sink.
    fn process_text(&mut self, _alloc: A, text: &str, _line_number: u64) -> Result<(), TextFault>
        ensures writes { OnOk result (self.new ≡ record self.old { recorded = recorded_step self.old.recorded (Text text.now) _line_number }) }
        ensures never_memory { result ≢ Err TextFault.Memory }
        ensures fault { OnErr result (self.new ≡ record self.old { faults = self.old.faults + 1 }) }
    {
        let text = text.as_bytes();
        match push_whole_text(&mut self.written, self.in_text, text) {
            Ok(()) => {
                self.in_text = is_open_after_text(self.in_text, text);
                Ok(())
            }
            Err(AllocError) => {
                self.faults.add(1);
                Err(TextFault::Sink)
            }
        }
    }

    fn end(&mut self) -> Result<(), SinkFault> {
        Ok(())
    }

    fn adjusted_current_node_present_but_not_in_html_namespace(&self) -> bool {
        self.foreign
    }
}
