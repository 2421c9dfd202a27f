//! The filter that checks pages.
ghost use Rattle.std.specs.Prelude.{◌≡◌, ◌≤◌, ◌<◌, ◌+◌, ◌++◌, [], false, IfOk, Ok, OnErr, OnOk, length, map, string_bytes};
ghost use Rattle.html5check.specs.Located.{located_by, located_in};
ghost use Rattle.html5check.specs.Seen.{seen_by, seen_in};
ghost use Rattle.html5check.specs.Templates.{masked_by};
ghost use Rattle.html5check.specs.Making.{Checks, checks_after, checks_of};
ghost use Rattle.html5check.specs.Whole.{Grows, IsWhole, StopsWhole};
ghost use Rattle.html5stream.specs.Streams.{failed_reads};
ghost use Rattle.std.specs.Io.KnownBytes.{IsAtEnd};

use crate::findings::findings_in;
use crate::located::{Located, locate};
use crate::report::Report;
use crate::seen::{SeenToken, read_seen};
use crate::settings::CheckSettings;
use crate::template::{Template, masked};
use devices::{Printer, Source, Target};
use html5ever::tokenizer::TokenizerError;
use html5programs::Filter;
use html5stream::StreamError;
use markup5ever::data::NamedReferences;
use std::alloc::{AllocError, Global};
use std::marker::PhantomData;
use utf8_pieces::Decoder;

/// Prints what is found in pages. It reads each page whole before it checks it.
#[derive(Drop)]
pub struct Check<W, P> {
    report: PhantomData<P>,
    printer: Printer<W>,
    file: String,
    template: Option<Template>,
    has_found: bool,
}

// How many bytes are read at once.
const CHUNK: usize = 4096;

// One read, whose text goes to the end of a text. Answers how many bytes were read.
fn read_piece<R: Source>(
    alloc: Global,
    source: &mut R,
    buffer: &mut [u8],
    decoder: &mut Decoder,
    text: &mut String,
) -> Result<usize, StreamError>
    requires { 0 < length buffer.old }
    ensures grows { IfOk result (λ count. Grows (R.remaining source.old) (R.remaining source.new)
        (string_bytes text.old ++ decoder.old.held) (string_bytes text.new ++ decoder.new.held) count) }
    ensures end { IfOk result (λ count. count ≡ 0 → IsAtEnd (R.remaining source.new)) }
    ensures few { OnOk result (length decoder.new.held ≤ 3) }
    ensures stops { OnErr result (StopsWhole (R.remaining source.old) (R.remaining source.new)) }
    ensures read { R.failures source.new ≡ R.failures source.old + failed_reads result }
{
    let Ok(count) = source.read(buffer) else {
        return Err(StreamError::Read);
    };
    let piece = match decoder.decode(alloc, &buffer[..count]) {
        Ok(piece) => piece,
        Err(error) => return Err(StreamError::from(error)),
    };
    match text.push_str(&piece) {
        Ok(()) => Ok(count),
        Err(AllocError) => Err(StreamError::Memory),
    }
}

// Reads a page whole. Bytes that are not UTF-8 end it at once, so that their line is known.
fn read_whole<R: Source>(alloc: Global, source: &mut R) -> Result<String, StreamError>
    ensures whole { IfOk result (λ text. IsWhole (R.remaining source.old) (R.remaining source.new) (string_bytes text)) }
    ensures stops { OnErr result (StopsWhole (R.remaining source.old) (R.remaining source.new)) }
    ensures read { R.failures source.new ≡ R.failures source.old + failed_reads result }
{
    let mut decoder = Decoder::new();
    let mut text = String::new(alloc);
    let mut buffer = [0; CHUNK];
    loop {
        if read_piece(alloc, source, &mut buffer, &mut decoder, &mut text)? == 0 {
            break;
        }
    }
    match decoder.finish() {
        Ok(()) => Ok(text),
        Err(error) => Err(StreamError::from(error)),
    }
}

// The tokens of a text, in which the constructs of a template language are masked.
fn read_masked(
    alloc: Global,
    references: &NamedReferences,
    template: Option<Template>,
    text: &str,
) -> Result<Vec<SeenToken>, AllocError>
    ensures { IfOk result (λ tokens. map seen_by tokens.items ≡ seen_in references.now (masked_by template text.now)) }
{
    let Some(template) = template else {
        return seen_or_none(read_seen(alloc, references, text));
    };
    match String::from_utf8(masked(alloc, template, text.as_bytes())?) {
        Ok(masked) => seen_or_none(read_seen(alloc, references, &masked)),
        Err(_) => Err(AllocError),
    }
}

// The same answer, for a sink that refuses no token.
fn seen_or_none(seen: Result<Vec<SeenToken>, TokenizerError>) -> Result<Vec<SeenToken>, AllocError>
    ensures { IfOk result (λ tokens. seen ≡ Ok tokens) }
{
    match seen {
        Ok(tokens) => Ok(tokens),
        Err(_) => Err(AllocError),
    }
}

impl<W: Target, P: Report> Check<W, P> {
    // Prints the findings in a page.
    fn print_found(&mut self, alloc: Global, found: &[Located<'_>]) -> Result<(), StreamError>
        ensures ok { OnOk result (checks_of self.new ≡ checks_after P.printed (checks_of self.old) (map located_by found.now)) }
        ensures err { OnErr result (checks_of self.new ≡ checks_of self.old) }
        ensures read { failed_reads result ≡ 0 }
    {
        let Ok(bytes) = P::print(alloc, self.has_found, &self.file, found) else {
            return Err(StreamError::Memory);
        };
        match self.printer.print(&bytes) {
            Ok(()) => {
                self.has_found = self.has_found || !found.is_empty();
                Ok(())
            }
            Err(_) => Err(StreamError::Sink),
        }
    }

    // Checks a text.
    fn check_text(
        &mut self,
        alloc: Global,
        references: &NamedReferences,
        text: &str,
    ) -> Result<(), StreamError>
        ensures ok { OnOk result (checks_of self.new
            ≡ checks_after P.printed (checks_of self.old) (located_in references.now self.old.template text.now)) }
        ensures err { OnErr result (checks_of self.new ≡ checks_of self.old) }
        ensures read { failed_reads result ≡ 0 }
    {
        let Ok(tokens) = read_masked(alloc, references, self.template, text) else {
            return Err(StreamError::Memory);
        };
        let Ok(findings) = findings_in(alloc, &tokens) else {
            return Err(StreamError::Memory);
        };
        let Ok(found) = locate(alloc, text, &findings) else {
            return Err(StreamError::Memory);
        };
        self.print_found(alloc, &found)
    }
}

impl<W: Target + Drop, P: Report> Filter<W> for Check<W, P> {
    ghost use Rattle.html5check.specs.Located.{Located};
    ghost use Rattle.html5check.specs.Seen.{seen_by, seen_in};
    ghost use Rattle.html5check.specs.Templates.{masked_by};
    ghost use Rattle.html5check.specs.Making.{Checks, check_made, checks_of};

    type Settings = CheckSettings;

    ghost State = { Checks };

    ghost Part = { Located };

    ghost state = { checks_of };

    ghost means = { check_made P.printed P.ended };

    fn new(alloc: Global, printer: Printer<W>, settings: CheckSettings) -> Check<W, P>
        ensures { checks_of result
            ≡ record { printed = printer.printed; file = []; template = settings.template; found = false } }
    {
        Check {
            report: PhantomData,
            printer,
            file: String::new(alloc),
            template: settings.template,
            has_found: false,
        }
    }

    fn name_file(&mut self, alloc: Global, file: &str) -> Result<(), StreamError> {
        let Ok(file) = String::from_str(alloc, file) else {
            return Err(StreamError::Memory);
        };
        self.file = file;
        Ok(())
    }

    fn read_page<R: Source>(
        self,
        alloc: Global,
        source: &mut R,
        references: &NamedReferences,
    ) -> (Check<W, P>, Result<(), StreamError>) {
        let mut check = self;
        let text = match read_whole(alloc, source) {
            Ok(text) => text,
            Err(error) => return (check, Err(error)),
        };
        match check.check_text(alloc, references, &text) {
            Ok(()) => (check, Ok(())),
            Err(error) => (check, Err(error)),
        }
    }

    fn has_found(&self) -> bool {
        self.has_found
    }

    fn finish(self, alloc: Global) -> (Printer<W>, Result<(), StreamError>)
        ensures { OnOk result.1 (result.0.printed ≡ self.printer.printed ++ P.ended self.has_found) }
    {
        let Check {
            report: _,
            mut printer,
            file: _,
            template: _,
            has_found,
        } = self;
        let Ok(bytes) = P::end(alloc, has_found) else {
            return (printer, Err(StreamError::Memory));
        };
        match printer.print(&bytes) {
            Ok(()) => (printer, Ok(())),
            Err(_) => (printer, Err(StreamError::Sink)),
        }
    }
}
