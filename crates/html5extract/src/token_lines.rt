//! A sink that prints each token as it comes, a line each.
ghost use Rattle.std.specs.Prelude.{◌≡◌, ◌++◌, [], false, true, string_bytes, IfOk, OnOk, OnErr};
ghost use Rattle.html5ever_interface.specs.Token.{is_text, told_by, reply_of};
ghost use Rattle.html5ever_interface.specs.Token.Told.{Text};
ghost use Rattle.html5extract.specs.TokenLines.{byte_added, line_output, lines_added, lines_of, lines_started, token_added, token_named, tokens_closed, tokens_named};
ghost use Rattle.html5programs.specs.Fronts.{in_front};
ghost use Rattle.html5sinks.specs.Pausing.{pausing_reply};
ghost use Rattle.token_printer.specs.Output.{open_after};

use devices::{Printer, Target};
use ghost_counts::Count;
use html5ever_interface::interface::sink::TokenSink;
use html5ever_interface::interface::token::{SinkFault, Token, TokenSinkResult};
use html5programs::Front;
use html5stream::StreamError;
use std::alloc::{AllocError, Allocator, Global};
use std::marker::Model;
use token_printer::print_sink::PrintSink;

// Opens a text in a sink that has printed nothing, and prints none of it.
#[tactic(auto, unfolding(token_printer::specs::Output::output_step, token_printer::specs::Output::open_after))]
fn open_text<A: Allocator + Copy>(alloc: A, sink: &mut PrintSink<A>) -> Result<(), SinkFault>
    ensures { OnOk result (sink.new.output ≡ record sink.old.output { lines = []; in_text = true }) }
{
    match sink.process_text(alloc, "-", 1) {
        Ok(()) => {
            sink.clear();
            Ok(())
        }
        Err(_) => Err(SinkFault),
    }
}

// A sink for one token, where a text is open or none is.
fn line_sink<A: Allocator + Copy>(alloc: A, in_text: bool) -> Result<PrintSink<A>, SinkFault>
    ensures { IfOk result (λ sink. sink.output ≡ line_output in_text) }
{
    let mut sink = PrintSink::new(alloc, false);
    if in_text {
        open_text(alloc, &mut sink)?;
    }
    Ok(sink)
}

// Whether a text is open after a token.
#[tactic(auto, unfolding(token_printer::specs::Output::open_after))]
fn is_open_after<A: Allocator>(in_text: bool, token: &Token<A>) -> bool
    ensures { result ≡ open_after in_text (told_by token.now) }
{
    match token {
        Token::CharacterTokens(text) => in_text || !text.is_empty(),
        _ => false,
    }
}

// Appends a byte, after the name in front when no line has begun.
fn push_byte<A: Allocator>(
    lines: &mut Vec<u8, A>,
    front: &Front,
    begun: bool,
    byte: u8,
) -> Result<(), AllocError>
    ensures { OnOk result (lines.new.items ≡ lines.old.items ++ byte_added (in_front front.now) begun byte) }
{
    if !begun {
        front.push_to(lines)?;
    }
    lines.push(byte)?;
    Ok(())
}

// Appends lines with the name in front of each, where a line has begun or not.
#[tactic(auto, unfolding(crate::specs::TokenLines::lines_added))]
fn push_lines<A: Allocator>(
    lines: &mut Vec<u8, A>,
    front: &Front,
    begun: bool,
    bytes: &[u8],
) -> Result<(), AllocError>
    ensures { OnOk result (lines.new.items ≡ lines.old.items ++ lines_added (in_front front.now) begun bytes.now) }
{
    let mut begun = begun;
    for byte in bytes {
        push_byte(lines, front, begun, *byte)?;
        begun = *byte != b'\n';
    }
    Ok(())
}

// What was printed of a token, with the name in front of each line.
fn named_lines<A: Allocator>(
    alloc: A,
    front: &Front,
    in_text: bool,
    is_text: bool,
    printed: &[u8],
) -> Result<Vec<u8, A>, AllocError>
    ensures { IfOk result (λ lines. lines.items ≡ token_named (in_front front.now) in_text is_text printed.now) }
{
    let mut lines = Vec::new(alloc);
    if !is_text {
        push_lines(&mut lines, front, in_text, printed)?;
        return Ok(lines);
    }
    if !in_text && !printed.is_empty() {
        front.push_to(&mut lines)?;
    }
    lines.extend_from_slice(printed)?;
    Ok(lines)
}

// Prints what was printed of a token, with the name in front of each line.
#[tactic(auto, using(crate::proofs::Unnamed::unnamed))]
fn print_named<W: Target, A: Allocator + Copy>(
    alloc: A,
    front: &Front,
    in_text: bool,
    is_text: bool,
    printer: &mut Printer<W, A>,
    printed: &[u8],
) -> Result<(), SinkFault>
    ensures ok { OnOk result (printer.new.printed ≡ printer.old.printed
        ++ token_named (in_front front.now) in_text is_text printed.now) }
    ensures err { OnErr result (printer.new.printed ≡ printer.old.printed) }
{
    if !front.is_shown() {
        return print_all(printer, printed);
    }
    match named_lines(alloc, front, in_text, is_text, printed) {
        Ok(lines) => print_all(printer, &lines),
        Err(AllocError) => Err(SinkFault),
    }
}

// Prints bytes.
fn print_all<W: Target, A: Allocator>(
    printer: &mut Printer<W, A>,
    bytes: &[u8],
) -> Result<(), SinkFault>
    ensures ok { OnOk result (printer.new.printed ≡ printer.old.printed ++ bytes.now) }
    ensures err { OnErr result (printer.new.printed ≡ printer.old.printed) }
{
    match printer.print(bytes) {
        Ok(()) => Ok(()),
        Err(_) => Err(SinkFault),
    }
}

// Whether a token is a text.
fn is_text<A: Allocator>(token: &Token<A>) -> bool
    ensures { result ≡ is_text (told_by token.now) }
{
    matches!(token, Token::CharacterTokens(_))
}

// Prints a token, all of its lines or nothing, and replies to it.
#[tactic(auto, unfolding(token_printer::specs::Output::output_step, crate::specs::TokenLines::token_added))]
fn print_token<W: Target, A: Allocator + Copy>(
    alloc: A,
    front: &Front,
    in_text: bool,
    printer: &mut Printer<W, A>,
    token: Token<A>,
    line_number: u64,
) -> Result<TokenSinkResult<(), String<A>>, SinkFault>
    ensures ok { OnOk result (printer.new.printed ≡ printer.old.printed
        ++ token_added (in_front front.now) in_text (told_by token) line_number) }
    ensures replies { IfOk result (λ reply. reply_of string_bytes reply ≡ pausing_reply (told_by token)) }
    ensures err { OnErr result (printer.new.printed ≡ printer.old.printed) }
{
    let is_text = is_text(&token);
    let mut sink = line_sink(alloc, in_text)?;
    let reply = sink.process_token(token, line_number)?;
    // A match in place of `?`: split for the proof.
    match print_named(alloc, front, in_text, is_text, printer, sink.output()) {
        Ok(()) => Ok(reply),
        Err(SinkFault) => Err(SinkFault),
    }
}

/// Prints what it is sent as `PrintSink` does, but to a printer, as it comes, with a name in front of each
/// line if there is one. It replies as that does.
#[derive(Drop)]
pub struct TokenLines<W, A: Allocator = Global> {
    alloc: A,
    printer: Printer<W, A>,
    in_text: bool,
    front: Front,
    faults: Count,
}

impl<W, A: Allocator> Model for TokenLines<W, A> {
    ghost use Rattle.html5extract.specs.TokenLines.{LinePrinter};

    ghost Value = { LinePrinter W };

    ghost view = { λ t. record { printer = t.printer; in_text = t.in_text; front = t.front; faults = t.faults.total } };
}

impl<W: Target, A: Allocator> TokenLines<W, A> {
    /// Prints to this printer, when no text is open.
    pub fn new(alloc: A, printer: Printer<W, A>, front: Front) -> TokenLines<W, A>
        ensures { result ≡ lines_started printer front }
    {
        TokenLines {
            alloc,
            printer,
            in_text: false,
            front,
            faults: Count::new(),
        }
    }

    /// The printer, with its output.
    pub fn into_inner(self) -> Printer<W, A>
        ensures { result ≡ self.printer }
    {
        self.printer
    }
}

impl<W: Target> TokenLines<W> {
    /// Takes note of the name of the file that is read next. A text that the file before it left open ends.
    pub fn name_file(&mut self, alloc: Global, file: &str) -> Result<(), StreamError>
        ensures ok { OnOk result (lines_of self.new ≡ tokens_named file.now (lines_of self.old)) }
        ensures err { OnErr result (lines_of self.new ≡ lines_of self.old) }
    {
        let mut front = Front::new(alloc, self.front.is_shown());
        front.name_file(alloc, file)?;
        self.close_text()?;
        self.front = front;
        Ok(())
    }

    // Ends the line of a text that is open.
    fn close_text(&mut self) -> Result<(), StreamError>
        ensures ok { OnOk result (lines_of self.new ≡ tokens_closed (lines_of self.old)) }
        ensures err { OnErr result (lines_of self.new ≡ lines_of self.old) }
    {
        if !self.in_text {
            return Ok(());
        }
        match print_all(&mut self.printer, b"\"\n") {
            Ok(()) => {
                self.in_text = false;
                Ok(())
            }
            Err(SinkFault) => Err(StreamError::Sink),
        }
    }
}

impl<W: Target, A: Allocator + Copy> TokenSink<Token<A>> for TokenLines<W, A> {
    ghost use Rattle.html5extract.specs.TokenLines.{TokenReading, lines_of, token_lines};
    ghost use Rattle.html5extract.specs.TokenLineLaws.{tokens_join, tokens_empty, tokens_any_line, tokens_keep_on};

    type Handle = ();

    ghost State = { TokenReading };

    ghost means = { token_lines lines_of };

    ghost faults = { λ t. t.faults };

    ghost joins = { tokens_join };

    ghost empty = { tokens_empty };

    ghost any_line = { tokens_any_line };

    ghost keeps_on = { tokens_keep_on };

    #[tactic(auto, unfolding(crate::specs::TokenLines::tokens_step))]
    fn process_token(
        &mut self,
        token: Token<A>,
        line_number: u64,
    ) -> Result<TokenSinkResult<(), String<A>>, SinkFault> {
        let in_text = is_open_after(self.in_text, &token);
        match print_token(
            self.alloc,
            &self.front,
            self.in_text,
            &mut self.printer,
            token,
            line_number,
        ) {
            Ok(reply) => {
                self.in_text = in_text;
                Ok(reply)
            }
            Err(SinkFault) => {
                self.faults.add(1);
                Err(SinkFault)
            }
        }
    }

    fn end(&mut self) -> Result<(), SinkFault> {
        Ok(())
    }

    fn adjusted_current_node_present_but_not_in_html_namespace(&self) -> bool {
        false
    }
}
