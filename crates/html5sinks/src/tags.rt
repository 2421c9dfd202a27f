//! A sink of tags alone, and what it hands them to.
ghost use Rattle.std.specs.Prelude.{◌≡◌, false, IsOk};
ghost use Rattle.html5ever_interface.specs.Token.{tag_of};
ghost use Rattle.html5sinks.specs.Tags.{is_start_of};

use crate::replies::standard_reply;
use ghost_counts::Count;
use html5ever_interface::interface::sink::TokenSink;
use html5ever_interface::interface::token::{
    SinkFault, Tag, TagKind, TextFault, Token, TokenSinkResult,
};
use std::alloc::Allocator;
use std::marker::Model;

/// What a tag means: the tag that contracts speak of, and the bytes of a text of its own.
pub trait SaysTag: Drop {
    ghost use Rattle.std.specs.Prelude.{ℕ, List};
    ghost use Rattle.html5ever_interface.specs.Token.{TagOf};

    type Text: Drop;

    ghost tag: { Self → TagOf };

    ghost text_bytes: { Self.Text → List ℕ };
}

impl<A: Allocator> SaysTag for Tag<A> {
    ghost use Rattle.std.specs.Prelude.{string_bytes};
    ghost use Rattle.html5ever_interface.specs.Token.{tag_of};

    type Text = String<A>;

    ghost tag = { tag_of };

    ghost text_bytes = { string_bytes };
}

/// Whether a tag is a start tag of this name.
pub fn is_start_of<A: Allocator>(tag: &Tag<A>, name: &str) -> bool
    ensures { result ≡ is_start_of (tag_of tag.now) name.now }
{
    tag.kind == TagKind::StartTag && tag.name.0.as_str() == name
}

/// Takes tags, in order, and leaves it to the standard how the text after each is read. A handler
/// writes a state, a step and one method: `impl<A: Allocator> TagHandler<Tag<A>> for MyHandler`.
pub trait TagHandler<T: SaysTag> {
    ghost use Rattle.std.specs.Prelude.{◌≡◌, ℕ, OnOk, OnErr};
    ghost use Rattle.html5ever_interface.specs.Token.{TagOf};

    // The abstract state of a handler, and what a tag, handed with a line, makes of it.
    ghost State: { Type 0 };

    ghost state: { Self → State };

    ghost step: { State → TagOf → ℕ → State };

    /// Takes a tag, with the number of the line on which its `>` stands. An error refuses it, and the
    /// tokenizer stops: the state is then unchanged, as if the tag had not been handed.
    fn take_tag(&mut self, tag: T, line_number: u64) -> Result<(), SinkFault>
        ensures steps { OnOk result (state self.new ≡ step (state self.old) (T.tag tag) line_number) }
        ensures fault { OnErr result (state self.new ≡ state self.old) };
}

/// Takes tags, in order, and replies to each. Each `TagHandler` is one, with the standard's replies:
/// write this only to reply otherwise. A handler writes `reply` too, and a `Handle` for its scripts.
pub trait ReplyingTagHandler<T: SaysTag> {
    ghost use Rattle.std.specs.Prelude.{◌≡◌, ℕ, IfOk, OnOk, OnErr};
    ghost use Rattle.html5ever_interface.specs.Token.{TagOf, Reply, reply_of};

    type Handle: Drop;

    // The abstract state of a handler, and what a tag, handed with a line, makes of it.
    ghost State: { Type 0 };

    ghost state: { Self → State };

    ghost step: { State → TagOf → ℕ → State };

    // What is replied to a tag.
    ghost reply: { State → TagOf → ℕ → Reply Self.Handle };

    /// Takes a tag, as `take_tag` of `TagHandler` does, and replies to it. The reply is to read on, to
    /// read raw or plain text after a start tag, or to pause for a script or an encoding.
    fn answer_tag(
        &mut self,
        tag: T,
        line_number: u64,
    ) -> Result<TokenSinkResult<Self::Handle, T::Text>, SinkFault>
        ensures steps { OnOk result (state self.new ≡ step (state self.old) (T.tag tag) line_number) }
        ensures replies { IfOk result
            (λ answer. reply_of T.text_bytes answer ≡ reply (state self.old) (T.tag tag) line_number) }
        ensures fault { OnErr result (state self.new ≡ state self.old) };
}

impl<H: TagHandler<Tag<A>>, A: Allocator> ReplyingTagHandler<Tag<A>> for H {
    ghost use Rattle.html5sinks.specs.Replies.{standard_reply};

    type Handle = ();

    ghost State = { H.State };

    ghost state = { H.state };

    ghost step = { H.step };

    ghost reply = { λ state tag line. standard_reply tag };

    fn answer_tag(
        &mut self,
        tag: Tag<A>,
        line_number: u64,
    ) -> Result<TokenSinkResult<(), String<A>>, SinkFault> {
        let reply = standard_reply(&tag);
        // A match in place of `?`: split for the proof.
        match self.take_tag(tag, line_number) {
            Ok(()) => Ok(reply),
            Err(SinkFault) => Err(SinkFault),
        }
    }
}

/// Hands tags on to a handler, and nothing else. The content of `script`, `style`, `title` and their
/// like is not markup, unless the handler replies otherwise.
#[derive(Drop)]
pub struct TagsOnly<H> {
    handler: H,
    foreign: bool,
    faults: Count,
}

impl<H> Model for TagsOnly<H> {
    ghost use Rattle.html5sinks.specs.Tags.{TagSink};

    ghost Value = { TagSink H };

    ghost view = { λ s. record {
      handler = s.handler;
      foreign = s.foreign;
      faults = s.faults.total;
    } };
}

impl<H> TagsOnly<H> {
    /// A sink that hands tags to this handler. `<![CDATA[` begins no section.
    pub fn new(handler: H) -> TagsOnly<H>
        ensures handler { result.handler ≡ handler }
        ensures foreign { result.foreign ≡ false }
        ensures faults { result.faults ≡ 0 }
    {
        TagsOnly::with_foreign(handler, false)
    }

    /// A sink that hands tags to this handler. `foreign` is its answer about the current node, at each
    /// call.
    pub fn with_foreign(handler: H, foreign: bool) -> TagsOnly<H>
        ensures handler { result.handler ≡ handler }
        ensures foreign { result.foreign ≡ foreign }
        ensures faults { result.faults ≡ 0 }
    {
        TagsOnly {
            handler,
            foreign,
            faults: Count::new(),
        }
    }

    /// The handler, with what it was handed so far.
    pub fn handler(&self) -> &H
        ensures { result.now ≡ self.now.handler }
    {
        &self.handler
    }

    /// The handler, with what it was handed.
    pub fn into_inner(self) -> H
        ensures { result ≡ self.handler }
    {
        self.handler
    }
}

impl<H: ReplyingTagHandler<Tag<A>>, A: Allocator> TokenSink<Token<A>> for TagsOnly<H> {
    ghost use Rattle.std.specs.Prelude.{refl};
    ghost use Rattle.html5sinks.specs.Tags.{Tagged, tags_step, tags_reply, tags_faulted};
    ghost use Rattle.html5sinks.specs.TagLaws.{tags_keep_on};

    type Handle = H::Handle;

    ghost State = { Tagged H.State };

    ghost means = { record {
      state = λ s. record { handler = H.state s.handler; foreign = s.foreign };
      step = tags_step H.step;
      reply = tags_reply H.reply;
      foreign = λ s. s.foreign;
      finish = λ s. s;
      faulted = tags_faulted;
      end_faulted = λ s. s;
    } };

    ghost faults = { λ s. s.faults };

    ghost joins = { λ s a b line. refl };

    ghost empty = { λ s line. refl };

    ghost any_line = { λ s a line other. refl };

    ghost keeps_on = { tags_keep_on H.reply };

    fn process_token(
        &mut self,
        token: Token<A>,
        line_number: u64,
    ) -> Result<TokenSinkResult<H::Handle, String<A>>, SinkFault> {
        let Token::TagToken(tag) = token else {
            return Ok(TokenSinkResult::Continue);
        };
        match self.handler.answer_tag(tag, line_number) {
            Ok(reply) => Ok(reply),
            Err(SinkFault) => {
                self.faults.add(1);
                Err(SinkFault)
            }
        }
    }

    // A handler of tags has no use for a text, so none is refused.
    fn process_text(&mut self, _alloc: A, _text: &str, _line_number: u64) -> Result<(), TextFault>
        ensures never_refused { IsOk result }
        ensures kept { self.new ≡ self.old }
    {
        Ok(())
    }

    fn end(&mut self) -> Result<(), SinkFault> {
        Ok(())
    }

    fn adjusted_current_node_present_but_not_in_html_namespace(&self) -> bool {
        self.foreign
    }
}
