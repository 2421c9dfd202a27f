//! A sink that prints what it is sent.
ghost use Rattle.std.specs.Prelude.{◌≡◌, ◌≢◌, ◌+◌, ◌++◌, Err, string_bytes, IfOk, OnOk, OnErr};
ghost use Rattle.token_printer.specs.Output.{blank_output, without_lines, added_by, output_step};
ghost use Rattle.markup5ever.specs.Lists.{BeginsWith};
ghost use Rattle.html5sinks.specs.Pausing.{pausing_reply};
ghost use Rattle.html5ever_interface.specs.Token.{told_by, reply_of};
ghost use Rattle.html5ever_interface.specs.Token.Told.{Text};

use crate::output::{is_open_after, is_open_after_text, push_text, push_token};
use ghost_counts::Count;
use html5ever_interface::interface::sink::TokenSink;
use html5ever_interface::interface::token::{SinkFault, TextFault, Token, TokenSinkResult};
use html5sinks::pausing::pausing_reply;
use std::alloc::{AllocError, Allocator, Global};
use std::marker::Model;

// Appends what a token adds to an output, and replies to it.
#[inline(always)]
fn print_and_reply<A: Allocator + Copy>(
    output: &mut Vec<u8, A>,
    in_text: bool,
    token: &Token<A>,
    line: u64,
) -> Result<TokenSinkResult<(), String<A>>, AllocError>
    ensures ok { OnOk result
        (output.new.items ≡ output.old.items ++ added_by in_text (told_by token.now) line) }
    ensures replies { IfOk result
        (λ reply. reply_of string_bytes reply ≡ pausing_reply (told_by token.now)) }
    ensures err { OnErr result (BeginsWith output.new.items output.old.items) }
{
    let reply = pausing_reply(token)?;
    push_token(output, in_text, token, line, &reply)?;
    Ok(reply)
}

/// Prints what it is sent: a line for each token, and a line for each pause. Adjacent texts share one
/// line, and an empty text has none. A token that could not be printed leaves no part of a line.
///
/// It replies to the start tag `plaintext` to read plain text, and to the start tags of eight names,
/// such as `title`, `style` and `script`, to read raw text. To a start tag `meta` with an attribute
/// `charset` it replies to switch the encoding, and to the end tag `script` to run the script.
#[derive(Drop)]
pub struct PrintSink<A: Allocator = Global> {
    output: Vec<u8, A>,
    in_text: bool,
    foreign: bool,
    faults: Count,
}

impl<A: Allocator> Model for PrintSink<A> {
    ghost use Rattle.token_printer.specs.Output.{Output, Printer};

    ghost Value = { Printer };

    ghost view = { λ s. record {
      output = record { lines = s.output.items; in_text = s.in_text; foreign = s.foreign };
      faults = s.faults.total;
    } };
}

impl<A: Allocator> PrintSink<A> {
    /// A sink that has printed nothing. `foreign` is its answer about the current node, at each call.
    pub fn new(alloc: A, foreign: bool) -> PrintSink<A>
        ensures output { result.output ≡ blank_output foreign }
        ensures faults { result.faults ≡ 0 }
    {
        PrintSink {
            output: Vec::new(alloc),
            in_text: false,
            foreign,
            faults: Count::new(),
        }
    }

    /// The bytes printed so far. A text at their end is open: its line has no closing quote yet.
    pub fn output(&self) -> &[u8]
        ensures { result.now ≡ self.now.output.lines }
    {
        self.output.as_slice()
    }

    /// Takes the bytes printed so far off the output. What is printed from here on follows them.
    pub fn clear(&mut self)
        ensures output { self.new.output ≡ without_lines self.old.output }
        ensures faults { self.new.faults ≡ self.old.faults }
    {
        self.output.clear();
    }
}

impl<A: Allocator + Copy> TokenSink<Token<A>> for PrintSink<A> {
    ghost use Rattle.std.specs.Prelude.{◌≡◌};
    ghost use Rattle.token_printer.specs.Output.{Output, output_step, output_reply, output_foreign, output_faulted};
    ghost use Rattle.token_printer.specs.OutputLaws.{output_joins, output_empty, output_any_line, output_keeps_on};

    type Handle = ();

    ghost State = { Output };

    ghost means = { record {
      state = λ s. s.output;
      step = output_step;
      reply = output_reply;
      foreign = output_foreign;
      finish = λ p. p;
      faulted = output_faulted;
      end_faulted = λ p. p;
    } };

    ghost faults = { λ s. s.faults };

    ghost joins = { output_joins };

    ghost empty = { output_empty };

    ghost any_line = { output_any_line };

    ghost keeps_on = { output_keeps_on };

    #[inline(always)]
    fn process_token(
        &mut self,
        mut token: Token<A>,
        line_number: u64,
    ) -> Result<TokenSinkResult<(), String<A>>, SinkFault> {
        self.process_lent(&mut token, line_number)
    }

    // Prints the token from where it lies.
    #[inline(always)]
    fn process_lent(
        &mut self,
        token: &mut Token<A>,
        line_number: u64,
    ) -> Result<TokenSinkResult<(), String<A>>, SinkFault> {
        let printed = self.output.len();
        match print_and_reply(&mut self.output, self.in_text, token, line_number) {
            Ok(reply) => {
                self.in_text = is_open_after(self.in_text, token);
                Ok(reply)
            }
            Err(AllocError) => {
                self.output.truncate(printed);
                self.faults.add(1);
                Err(SinkFault)
            }
        }
    }

    // Prints the text where it lies. An output that finds no memory is a fault of the sink.
    #[inline(always)]
    fn process_text(&mut self, _alloc: A, text: &str, _line_number: u64) -> Result<(), TextFault>
        ensures prints { OnOk result (self.new ≡ record self.old { output = output_step self.old.output (Text text.now) _line_number }) }
        ensures never_memory { result ≢ Err TextFault.Memory }
        ensures fault { OnErr result (self.new ≡ record self.old { faults = self.old.faults + 1 }) }
    {
        let before = self.output.len();
        let text = text.as_bytes();
        match push_text(&mut self.output, self.in_text, text) {
            Ok(()) => {
                self.in_text = is_open_after_text(self.in_text, text);
                Ok(())
            }
            Err(AllocError) => {
                self.output.truncate(before);
                self.faults.add(1);
                Err(TextFault::Sink)
            }
        }
    }

    fn end(&mut self) -> Result<(), SinkFault> {
        Ok(())
    }

    fn adjusted_current_node_present_but_not_in_html_namespace(&self) -> bool {
        self.foreign
    }
}
