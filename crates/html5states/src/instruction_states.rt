//! The state of processing instructions, which the standard doesn't have.
#![tactic(auto, using(crate::proofs::Tellings::tells_from_memory), unfolding(html5reading::specs::Machine::instruction_step, html5partial::specs::Steps::tokens_of, html5partial::specs::Steps::afterwards, html5ever_interface::specs::Sink::stepped))]

ghost use Rattle.std.specs.Prelude.{◌≡◌, ◌∷◌, [], string_bytes};
ghost use Rattle.html5ever_interface.specs.Token.Told.{Instruction, End};
ghost use Rattle.html5reading.specs.Machine.{instruction_step};
ghost use Rattle.html5reading.specs.ErrorText.{end_error_in};
ghost use Rattle.html5states.specs.Telling.{Emits, Reads};

use crate::teller::Teller;
use html5ever_interface::interface::sink::TokenSink;
use html5ever_interface::interface::token::Token;
use html5ever_interface::states::State;
use html5partial::current_tag::push_value;
use html5partial::error::TokenizerError;
use html5partial::opened::{Opened, Progress, Step};
use std::alloc::Allocator;
use std::mem;

impl<S: TokenSink<Token<A>>, A: Allocator + Copy> Teller<'_, S, A> {
    /// Reads a character of a processing instruction. The standard has its "Bogus comment state" here.
    /// The first `>` ends it, and a `?` before that belongs to it.
    pub fn processing_instruction_state(&mut self, at: &mut Opened<A>, c: char) -> Step
        requires { at.old.state ≡ State.ProcessingInstruction }
        ensures { Reads S.means S.faults result self.old self.new
            (instruction_step self.old.exact_errors (string_bytes at.old.comment) c) at.old at.new }
    {
        if c == '>' {
            let content = mem::replace(&mut at.comment, String::new(self.alloc));
            at.state = State::Data;
            self.emit_instruction(content)?;
            return Ok(Progress::Continues);
        }
        push_value(&mut at.comment, c)?;
        self.emit_unexpected_where(c == '\0', c, State::ProcessingInstruction)?;
        Ok(Progress::Continues)
    }

    // Sends a processing instruction.
    fn emit_instruction(&mut self, content: String<A>) -> Result<(), TokenizerError>
        ensures { Emits S.means S.faults result self.old self.new
            (Instruction (string_bytes content) ∷ []) }
    {
        self.emit(Token::ProcessingInstructionToken(content))
    }

    // Sends a processing instruction with that content.
    fn emit_instruction_text(&mut self, content: &str) -> Result<(), TokenizerError>
        ensures { Emits S.means S.faults result self.old self.new
            (Instruction content.now ∷ []) }
    {
        self.emit_instruction(String::from_str(self.alloc, content)?)
    }

    // Ends after a processing instruction with that content.
    fn end_after_instruction(&mut self, content: &str) -> Result<(), TokenizerError>
        ensures { Emits S.means S.faults result self.old self.new
            (Instruction content.now ∷ End ∷ []) }
    {
        self.emit_instruction_text(content)?;
        self.emit(Token::EOFToken)
    }

    /// The end of input in a processing instruction, which is sent as far as it goes.
    pub fn end_in_instruction(&mut self, content: &str) -> Result<(), TokenizerError>
        ensures { Emits S.means S.faults result self.old self.new
            (end_error_in self.old.exact_errors State.ProcessingInstruction
            ∷ Instruction content.now ∷ End ∷ []) }
    {
        self.emit_end_error(State::ProcessingInstruction)?;
        self.end_after_instruction(content)
    }
}
