//! The lines of tokens with their places.
use html5ever_interface::interface::sink::TokenSink;
use html5ever_interface::interface::token::{SinkFault, Token};
use html5places::{PlacedHandler, Places};
use std::alloc::{AllocError, Global};
use token_printer::print_sink::PrintSink;

/// The lines of the tokens so far.
#[derive(Drop)]
pub struct PlacedLines {
    alloc: Global,
    sink: PrintSink,
    lines: Vec<u8>,
}

impl PlacedLines {
    pub fn new(alloc: Global) -> PlacedLines {
        PlacedLines {
            alloc,
            sink: PrintSink::new(alloc, false),
            lines: Vec::new(alloc),
        }
    }

    pub fn as_bytes(&self) -> &[u8] {
        self.lines.as_slice()
    }

    // Adds a line of places.
    fn push_places(&mut self, places: Places) -> Result<(), AllocError> {
        let Places { text, begin, end } = places;
        let line = format!(in self.alloc; "{text} {begin} {end}\n")?;
        self.lines.extend_from_slice(line.as_bytes())
    }

    // Adds what html5tok prints of a run and the token after it.
    fn push_printed(&mut self, run: &str, token: Token, line_number: u64) -> Result<(), SinkFault> {
        match self.sink.process_text(self.alloc, run, line_number) {
            Ok(()) => {}
            Err(_) => return Err(SinkFault),
        }
        self.sink.process_token(token, line_number)?;
        match self.lines.extend_from_slice(self.sink.output()) {
            Ok(()) => {}
            Err(AllocError) => return Err(SinkFault),
        }
        self.sink.clear();
        Ok(())
    }
}

impl PlacedHandler<Token> for PlacedLines {
    ghost State = { Unit {0} };

    ghost state = { λ s. tt };

    ghost step = { λ state placed. tt };

    fn take_token(
        &mut self,
        run: &str,
        token: Token,
        line_number: u64,
        places: Places,
    ) -> Result<(), SinkFault> {
        match self.push_places(places) {
            Ok(()) => self.push_printed(run, token, line_number),
            Err(AllocError) => Err(SinkFault),
        }
    }
}
