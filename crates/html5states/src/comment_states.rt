//! The states of comments.
#![tactic(auto, using(crate::proofs::Tellings::tells_from_memory), unfolding(html5reading::proofs::OnSteps::comment_steps, html5partial::specs::Steps::tokens_of, html5partial::specs::Steps::afterwards, html5ever_interface::specs::Sink::stepped))]

ghost use Rattle.std.specs.Prelude.{◌≡◌, ◌∷◌, [], ◌++◌, string_bytes};
ghost use Rattle.html5ever_interface.specs.Token.Told.{Comment};
ghost use Rattle.html5reading.specs.Machine.{comment_step, bogus_comment_step};
ghost use Rattle.html5reading.specs.Comment.{ends_comment, comment_errors, comment_end_error, comment_content};
ghost use Rattle.html5reading.specs.Characters.{greater_than};
ghost use Rattle.html5reading.specs.ErrorText.{error_in, where_true};
ghost use Rattle.html5reading.specs.Reading.Here.{Tells};
ghost use Rattle.html5reading.specs.Start.Mode.{Data};
ghost use Rattle.html5reading.specs.Start.Open.{Between};
ghost use Rattle.html5states.specs.Telling.{Emits, Reads};

use crate::teller::Teller;
use html5ever_interface::interface::sink::TokenSink;
use html5ever_interface::interface::token::Token;
use html5ever_interface::states::State;
use html5partial::comments::{content_len, ends_comment, ends_in, is_after_mark, state_in_comment};
use html5partial::current_tag::push_value;
use html5partial::error::TokenizerError;
use html5partial::opened::{Opened, Progress, Step};
use std::alloc::Allocator;
use std::mem;

impl<S: TokenSink<Token<A>>, A: Allocator + Copy> Teller<'_, S, A> {
    /// The standard's "Comment start state" to "Comment end bang state".
    pub fn comment_state(&mut self, at: &mut Opened<A>, c: char) -> Step
        ensures { Reads S.means S.faults result self.old self.new
            (comment_step self.old.exact_errors (string_bytes at.old.comment) c) at.old at.new }
    {
        if c == '>' && ends_comment(&at.comment) {
            return self.end_comment(at);
        }
        self.emit_comment_errors(&at.comment, c)?;
        push_value(&mut at.comment, c)?;
        at.state = State::Comment;
        Ok(Progress::Continues)
    }

    // Sends what is wrong with a character of a comment: one after a mark, and NUL.
    fn emit_comment_errors(&mut self, before: &str, c: char) -> Result<(), TokenizerError>
        ensures { Emits S.means S.faults result self.old self.new
            (comment_errors self.old.exact_errors before.now c) }
    {
        let mark = is_after_mark(before, c);
        self.emit_unexpected_where(mark, c, State::CommentLessThanSignBangDashDash)?;
        let state = state_in_comment(State::Comment, before);
        self.emit_unexpected_where(c == '\0', c, state)
    }

    // Ends a comment at its `>`.
    fn end_comment(&mut self, at: &mut Opened<A>) -> Step
        ensures { Reads S.means S.faults result self.old self.new
            (Tells (comment_end_error self.old.exact_errors (string_bytes at.old.comment)
            ++ Comment (comment_content (string_bytes at.old.comment)) ∷ []) (Between Data)) at.old at.new }
    {
        let wrong = !ends_in(&at.comment, b"--");
        let state = state_in_comment(State::Comment, &at.comment);
        at.state = State::Data;
        let len = content_len(&at.comment);
        let mut text = mem::replace(&mut at.comment, String::new(self.alloc));
        text.truncate(len);
        self.emit_ended_comment(wrong, state, text)?;
        Ok(Progress::Continues)
    }

    // Sends a comment, where its end is wrong after an error that names the state.
    fn emit_ended_comment(
        &mut self,
        wrong: bool,
        state: State,
        text: String<A>,
    ) -> Result<(), TokenizerError>
        ensures { Emits S.means S.faults result self.old self.new
            (where_true wrong (error_in self.old.exact_errors state greater_than) ++ Comment (string_bytes text) ∷ []) }
    {
        self.emit_unexpected_where(wrong, '>', state)?;
        self.emit_comment(text)
    }

    /// Sends a comment.
    pub fn emit_comment(&mut self, text: String<A>) -> Result<(), TokenizerError>
        ensures { Emits S.means S.faults result self.old self.new
            (Comment (string_bytes text) ∷ []) }
    {
        self.emit(Token::CommentToken(text))
    }

    /// The standard's "Bogus comment state".
    pub fn bogus_comment_state(&mut self, at: &mut Opened<A>, c: char) -> Step
        requires { at.old.state ≡ State.BogusComment }
        ensures { Reads S.means S.faults result self.old self.new
            (bogus_comment_step self.old.exact_errors (string_bytes at.old.comment) [] c) at.old at.new }
    {
        if c == '>' {
            let text = mem::replace(&mut at.comment, String::new(self.alloc));
            at.state = State::Data;
            self.emit_comment(text)?;
            return Ok(Progress::Continues);
        }
        push_value(&mut at.comment, c)?;
        self.emit_unexpected_where(c == '\0', c, State::BogusComment)?;
        Ok(Progress::Continues)
    }

    /// Begins a bogus comment at a character after `</` that begins no name.
    pub fn create_bogus_comment(&mut self, at: &mut Opened<A>, c: char) -> Step
        ensures { Reads S.means S.faults result self.old self.new
            (bogus_comment_step self.old.exact_errors [] (error_in self.old.exact_errors State.EndTagOpen c ∷ []) c)
            at.old at.new }
    {
        self.emit_unexpected(c, State::EndTagOpen)?;
        at.state = State::BogusComment;
        at.comment.clear();
        self.bogus_comment_state(at, c)
    }
}
