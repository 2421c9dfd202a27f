//! Prints each token of standard input with its places. First a line of the three numbers of `Places`; then the
//! lines that html5tok prints of the run before the token, if it has text, and of the token. The words and the
//! statuses are those of html5tok, except for `--foreign`, which is not known here. Scripts compare that with what
//! others see.
#![tactic(auto)]

ghost use Rattle.html5feed.specs.Starting.{CanStart};

mod lines;

use crate::lines::PlacedLines;
use devices::{Fault, ReadSource, Source, Target, WriteTarget, read_to_end, write_all};
use html5cli::arguments::settings_of;
use html5cli::run::{Ending, given_words, report};
use html5cli::settings::{Settings, options_of};
use html5places::{PlaceError, PlaceReader};
use html5table::references_of;
use markup5ever::data::NamedReferences;
use std::alloc::Global;
use std::process::ExitCode;

// Reads a text in pieces of `cut` characters, and at 0 at once, and then its end.
fn read_pieces(
    reader: &mut PlaceReader<'_>,
    text: &str,
    cut: usize,
    lines: &mut PlacedLines,
) -> Result<(), PlaceError> {
    let mut start = 0;
    for (count, (at, _)) in text.char_indices().enumerate() {
        if count.checked_rem(cut) == Some(0) {
            reader.read(text.get(start..at).unwrap_or(""), lines)?;
            start = at;
        }
    }
    reader.read(text.get(start..).unwrap_or(""), lines)?;
    reader.end(lines)
}

// The lines of a text's tokens.
fn placed_lines(
    alloc: Global,
    text: &str,
    settings: &Settings<'_>,
    references: &NamedReferences,
) -> Result<PlacedLines, Fault>
    requires { CanStart settings.now.initial_state }
{
    let mut lines = PlacedLines::new(alloc);
    let opts = options_of(alloc, settings)?;
    let mut reader = PlaceReader::new(alloc, references, opts);
    match read_pieces(&mut reader, text, settings.cut, &mut lines) {
        Ok(()) => Ok(lines),
        Err(_) => Err(Fault::Memory),
    }
}

// Prints the tokens of a source.
fn print_tokens<R: Source, W: Target>(
    alloc: Global,
    reader: &mut R,
    writer: &mut W,
    settings: &Settings<'_>,
    references: &NamedReferences,
) -> Result<(), Fault>
    requires { CanStart settings.now.initial_state }
{
    let bytes = read_to_end(alloc, reader)?;
    let Ok(text) = String::from_utf8(bytes) else {
        return Err(Fault::NotUtf8);
    };
    let lines = placed_lines(alloc, &text, settings, references)?;
    write_all(writer, lines.as_bytes())
}

// The same by the words of the command line.
fn print_by_words<R: Source, W: Target>(
    alloc: Global,
    words: &[String],
    reader: &mut R,
    writer: &mut W,
) -> Ending {
    let Some(settings) = settings_of(words) else {
        return Ending::Usage;
    };
    if settings.foreign {
        return Ending::Usage;
    }
    let references = match references_of(alloc, settings.table) {
        Ok(references) => references,
        Err(error) => return Ending::NoTable(error),
    };
    match print_tokens(alloc, reader, writer, &settings, &references) {
        Ok(()) => Ending::Printed,
        Err(fault) => Ending::Faulted(fault),
    }
}

fn main(rt: HostRuntime) -> ExitCode {
    let mut reader = ReadSource::new(rt.stdin());
    let mut writer = WriteTarget::new(rt.stdout());
    let ending = match given_words(&rt) {
        Ok(words) => print_by_words(rt.alloc(), &words, &mut reader, &mut writer),
        Err(ending) => ending,
    };
    ExitCode::from(report(&mut WriteTarget::new(rt.stderr()), ending))
}
