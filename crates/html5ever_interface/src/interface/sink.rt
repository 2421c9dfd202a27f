//! What a sink of tokens is.
use crate::interface::token::{SinkFault, TextFault, Token, TokenSinkResult};
use std::alloc::{AllocError, Allocator};
use std::mem;

/// What a token means: the token that contracts speak of, and the bytes of a text of its own.
pub trait Says: Drop {
    ghost use Rattle.std.specs.Prelude.{◌≡◌, ℕ, List, IfOk};
    ghost use Rattle.html5ever_interface.specs.Token.{Told};
    ghost use Rattle.html5ever_interface.specs.Token.Told.{Text};

    type Text: Drop;

    /// What gives its texts their memory.
    type Alloc;

    ghost told: { Self → Told };

    ghost text_bytes: { Self.Text → List ℕ };

    /// The token of a text, which is copied.
    fn of_text(alloc: Self::Alloc, text: &str) -> Result<Self, AllocError>
        ensures { IfOk result (λ token. told token ≡ Text text.now) };

    /// Takes the token from where it lies. What stays there says nothing.
    fn take(&mut self) -> Self
        ensures { told result ≡ told self.old };
}

impl<A: Allocator> Says for Token<A> {
    ghost use Rattle.std.specs.Prelude.{string_bytes};
    ghost use Rattle.html5ever_interface.specs.Token.{told_by};

    type Text = String<A>;

    type Alloc = A;

    ghost told = { told_by };

    ghost text_bytes = { string_bytes };

    fn of_text(alloc: A, text: &str) -> Result<Token<A>, AllocError> {
        Ok(Token::CharacterTokens(String::from_str(alloc, text)?))
    }

    fn take(&mut self) -> Token<A> {
        mem::replace(self, Token::EOFToken)
    }
}

/// Takes the tokens of a text, in order. A sink's contract names a state that the tokens step.
pub trait TokenSink<T: Says> {
    ghost use Rattle.std.specs.Prelude.{◌≡◌, ◌≢◌, ℕ, ◌+◌, Bool, false, List, [], ◌++◌, IfOk, OnOk, OnErr};
    ghost use Rattle.html5ever_interface.specs.Sink.{Means};
    ghost use Rattle.html5ever_interface.specs.Token.{Told, reply_of, is_tag};
    ghost use Rattle.html5ever_interface.specs.Token.Told.{Text};
    ghost use Rattle.html5ever_interface.specs.Token.Reply.{KeepOn};

    type Handle: Drop;

    // The abstract state of a sink, what it makes of what it is sent, and how often it faulted.
    ghost State: { Type 0 };

    ghost means: { Means Self State Self.Handle };

    ghost faults: { Self → ℕ };

    /// Takes a token, with the number of the line that the tokenizer has reached. It counts from 1,
    /// and stays at the largest `u64`. With a text it says nothing.
    fn process_token(
        &mut self,
        token: T,
        line_number: u64,
    ) -> Result<TokenSinkResult<Self::Handle, T::Text>, SinkFault>
        ensures steps { OnOk result (means.state self.new ≡ means.step (means.state self.old)
            (T.told token) line_number) }
        ensures replies { IfOk result
            (λ answer. reply_of T.text_bytes answer ≡ means.reply (means.state self.old) (T.told token) line_number) }
        ensures fault { OnErr result
            (means.state self.new ≡ means.faulted (means.state self.old) (T.told token) line_number) }
        ensures no_fault { OnOk result (faults self.new ≡ faults self.old) }
        ensures one_fault { OnErr result (faults self.new ≡ faults self.old + 1) };

    /// Takes a text, which stays the tokenizer's, as `process_token` takes the token of it. By default it
    /// hands that on, with a copy. A sink that needs none does better to read the text where it lies.
    fn process_text(
        &mut self,
        alloc: T::Alloc,
        text: &str,
        line_number: u64,
    ) -> Result<(), TextFault>
        ensures steps { OnOk result (means.state self.new ≡ means.step (means.state self.old)
            (Text text.now) line_number) }
        ensures memory { result ≡ Err TextFault.Memory → means.state self.new ≡ means.state self.old }
        ensures fault { result ≡ Err TextFault.Sink
            → means.state self.new ≡ means.faulted (means.state self.old) (Text text.now) line_number }
        ensures no_fault { result ≢ Err TextFault.Sink → faults self.new ≡ faults self.old }
        ensures one_fault { result ≡ Err TextFault.Sink → faults self.new ≡ faults self.old + 1 }
    {
        let token = T::of_text(alloc, text)?;
        match self.process_token(token, line_number)? {
            TokenSinkResult::Continue => Ok(()),
            _ => unreachable!(),
        }
    }

    /// Takes a token, as `process_token` does, from where it lies. By default it takes it out, and hands it on to
    /// `process_token`. What it leaves there is for its memory alone: a tokenizer sends tags so, and reads the next
    /// one into the memory of a tag that stayed. So a sink that only reads tags does better to leave them.
    fn process_lent(
        &mut self,
        token: &mut T,
        line_number: u64,
    ) -> Result<TokenSinkResult<Self::Handle, T::Text>, SinkFault>
        ensures steps { OnOk result (means.state self.new ≡ means.step (means.state self.old)
            (T.told token.old) line_number) }
        ensures replies { IfOk result
            (λ answer. reply_of T.text_bytes answer ≡ means.reply (means.state self.old) (T.told token.old) line_number) }
        ensures fault { OnErr result
            (means.state self.new ≡ means.faulted (means.state self.old) (T.told token.old) line_number) }
        ensures no_fault { OnOk result (faults self.new ≡ faults self.old) }
        ensures one_fault { OnErr result (faults self.new ≡ faults self.old + 1) }
    {
        self.process_token(token.take(), line_number)
    }

    /// Takes note that no token follows.
    fn end(&mut self) -> Result<(), SinkFault>
        ensures finished { OnOk result (means.state self.new ≡ means.finish (means.state self.old)) }
        ensures fault { OnErr result (means.state self.new ≡ means.end_faulted (means.state self.old)) }
        ensures no_fault { OnOk result (faults self.new ≡ faults self.old) }
        ensures one_fault { OnErr result (faults self.new ≡ faults self.old + 1) };

    /// Whether the tree's current node is outside the HTML namespace, so that `<![CDATA[` begins a
    /// section.
    fn adjusted_current_node_present_but_not_in_html_namespace(&self) -> bool
        ensures { result ≡ means.foreign (means.state self.now) };

    // Two adjacent texts are as one, an empty text is as none, and the line of a text is neglected.
    ghost joins: { (s : State) (a b : List ℕ) (line : ℕ)
        → means.step (means.step s (Text a) line) (Text b) line ≡ means.step s (Text (a ++ b)) line };

    ghost empty: { (s : State) (line : ℕ) → means.step s (Text []) line ≡ s };

    ghost any_line: { (s : State) (a : List ℕ) (line other : ℕ)
        → means.step s (Text a) line ≡ means.step s (Text a) other };
    // Only a tag gets another reply than to keep on.
    ghost keeps_on: { (s : State) (told : Told) (line : ℕ)
        → is_tag told ≡ false → means.reply s told line ≡ KeepOn };
}
