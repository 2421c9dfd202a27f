//! The tokens of a page as lines of JSON.
ghost use Rattle.std.specs.Prelude.{◌≡◌};

use crate::lines::token_lines;
use devices::{Printer, Source, Target};
use html5ever_interface::interface::token::{SinkFault, Token};
use html5extract::token_settings::TokenSettings;
use html5programs::{Filter, Front};
use html5sinks::text_runs::TokenHandler;
use html5stream::{StreamError, read_tokens};
use markup5ever::data::NamedReferences;
use std::alloc::{Allocator, Global};

/// Prints the tokens that it takes, an object of JSON a line, with the name of their file if there is one. A run of
/// text is one object, and a parse error within it stands before it.
#[derive(Drop)]
pub struct JsonTokens<W, A: Allocator = Global> {
    pub alloc: A,
    pub printer: Printer<W, A>,
    pub front: Front,
}

impl<W: Target, A: Allocator + Copy> TokenHandler<Token<A>> for JsonTokens<W, A> {
    ghost use Rattle.html5json.specs.Lines.{JsonReading, json_reading, json_tokens_step};

    ghost State = { JsonReading };

    ghost state = { λ t. json_reading t.front t.printer.printed };

    ghost step = { json_tokens_step };

    fn take_token(
        &mut self,
        run: &str,
        token: Token<A>,
        line_number: u64,
    ) -> Result<(), SinkFault> {
        let Ok(lines) = token_lines(self.alloc, &self.front, run, &token, line_number) else {
            return Err(SinkFault);
        };
        match self.printer.print(&lines) {
            Ok(()) => Ok(()),
            Err(_) => Err(SinkFault),
        }
    }
}

impl<W: Target + Drop> Filter<W> for JsonTokens<W> {
    ghost use Rattle.html5ever_interface.specs.Sink.{Message};
    ghost use Rattle.html5json.specs.Lines.{JsonReading, json_reading};
    ghost use Rattle.html5json.specs.Makings.{json_tokens_made};
    ghost use Rattle.html5programs.specs.Fronts.{front_at_start};

    type Settings = TokenSettings;

    ghost State = { JsonReading };

    ghost Part = { Message };

    ghost state = { λ t. json_reading t.front t.printer.printed };

    ghost means = { json_tokens_made };

    fn new(alloc: Global, printer: Printer<W>, settings: TokenSettings) -> JsonTokens<W>
        ensures { json_reading result.front result.printer.printed
            ≡ json_reading (front_at_start settings.shows_names) printer.printed }
    {
        JsonTokens {
            alloc,
            printer,
            front: Front::new(alloc, settings.shows_names),
        }
    }

    fn name_file(&mut self, alloc: Global, file: &str) -> Result<(), StreamError> {
        self.front.name_file(alloc, file)
    }

    fn read_page<R: Source>(
        self,
        alloc: Global,
        source: &mut R,
        references: &NamedReferences,
    ) -> (JsonTokens<W>, Result<(), StreamError>) {
        read_tokens(alloc, source, self, references)
    }

    fn has_found(&self) -> bool {
        false
    }

    fn finish(self, _alloc: Global) -> (Printer<W>, Result<(), StreamError>)
        ensures { result.0.printed ≡ self.printer.printed }
    {
        (self.printer, Ok(()))
    }
}
