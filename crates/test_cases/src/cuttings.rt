//! A case by library calls, cut in two at each place and into characters, sent to the printing sink and
//! to a collector.
ghost use Rattle.std.specs.Prelude.{IsSome};
ghost use Rattle.html5feed.specs.Starting.{CanStart};
ghost use Rattle.html5table.specs.Listed.{listed};

use crate::case::WorkedCase;
use crate::clones::check_clones;
use crate::pieces::{Cutting, Due, feed_pieces, pieces_of};
use crate::so_far::SoFar;
use html5cli::arguments::settings_of;
use html5cli::settings::{Settings, options_of};
use html5ever::tokenizer::laws::closed;
use html5ever_interface::collect::Collector;
use html5table::references_of;
use markup5ever::data::NamedReferences;
use std::alloc::Global;
use testing_lines::{CaseError, push_line};
use token_printer::print_sink::PrintSink;

// The lines of the case, with those of pauses or without them. Where the input may go on, a text at their
// end is open.
fn lines_of(alloc: Global, case: &WorkedCase, pauses: bool) -> Result<String, CaseError> {
    let mut lines = String::new(alloc);
    let mut ends_in_text = false;
    for line in case.output.lines() {
        if pauses || !line.starts_with("pause ") {
            push_line(&mut lines, line)?;
        }
        ends_in_text = line.starts_with("text ");
    }
    if case.clean.is_some() && ends_in_text {
        lines.pop();
    }
    Ok(lines)
}

// What the printing sink must be sent.
fn due_to_printer(alloc: Global, case: &WorkedCase) -> Result<Due, CaseError> {
    Ok(Due {
        lines: lines_of(alloc, case, true)?,
        clean: case.clean,
    })
}

// What a collector must be sent. Where the printing sink's replies choose how the input is read, that is
// what another collector was sent of the whole.
fn due_to_collector(alloc: Global, case: &WorkedCase, whole: &Collector) -> Result<Due, CaseError> {
    if case.steered {
        return Ok(Due {
            lines: whole.so_far(alloc)?,
            clean: None,
        });
    }
    Ok(Due {
        lines: lines_of(alloc, case, false)?,
        clean: case.clean,
    })
}

// Whether the printing sink is sent what it must be of the case, cut so.
fn is_printed(
    alloc: Global,
    case: &WorkedCase,
    settings: &Settings,
    references: &NamedReferences,
    cutting: Cutting,
) -> Result<bool, CaseError>
    requires state { CanStart settings.now.initial_state }
{
    let due = due_to_printer(alloc, case)?;
    let opts = options_of(alloc, settings)?;
    let pieces = pieces_of(alloc, &case.input, cutting)?;
    let sink = PrintSink::new(alloc, settings.foreign);
    let (is_told, _) = feed_pieces(alloc, sink, opts, references, pieces, &due)?;
    Ok(is_told)
}

// Whether a collector is sent what it must be of the case, cut so, and what one was sent of the whole.
fn is_collected(
    alloc: Global,
    case: &WorkedCase,
    settings: &Settings,
    references: &NamedReferences,
    whole: &Collector,
    cutting: Cutting,
) -> Result<bool, CaseError>
    requires state { CanStart settings.now.initial_state }
{
    let due = due_to_collector(alloc, case, whole)?;
    let opts = options_of(alloc, settings)?;
    let pieces = pieces_of(alloc, &case.input, cutting)?;
    let sink = Collector::new(alloc, settings.foreign);
    let (is_told, sink) = feed_pieces(alloc, sink, opts, references, pieces, &due)?;
    Ok(is_told && sink.is_finished() && sink.entries() == whole.entries())
}

// What a collector is sent of the whole.
fn collected(
    alloc: Global,
    case: &WorkedCase,
    settings: &Settings,
    references: &NamedReferences,
) -> Result<Collector, CaseError>
    requires state { CanStart settings.now.initial_state }
{
    let sink = Collector::new(alloc, settings.foreign);
    let opts = options_of(alloc, settings)?;
    let text = String::from_str(alloc, &case.input)?;
    match closed(alloc, sink, opts, references, text) {
        (sink, Ok(())) => Ok(sink),
        (_, Err(_)) => Err(CaseError::Memory),
    }
}

// Which sink is not sent what it must be of the case, cut so, if one is not.
fn failing_sink(
    alloc: Global,
    case: &WorkedCase,
    settings: &Settings,
    references: &NamedReferences,
    whole: &Collector,
    cutting: Cutting,
) -> Result<Option<&'static str>, CaseError>
    requires state { CanStart settings.now.initial_state }
{
    if !is_printed(alloc, case, settings, references, cutting)? {
        return Ok(Some("printing sink"));
    }
    if !is_collected(alloc, case, settings, references, whole, cutting)? {
        return Ok(Some("collector"));
    }
    Ok(None)
}

// Feeds the case to sinks, cut in each way. Answers how it fails, if it does.
fn failing_cutting_with(
    alloc: Global,
    case: &WorkedCase,
    settings: &Settings,
) -> Result<Option<String>, CaseError>
    requires state { CanStart settings.now.initial_state }
    requires table { IsSome (listed settings.now.table.now) }
{
    let Ok(references) = references_of(alloc, settings.table) else {
        return Err(CaseError::BadLine);
    };
    let whole = collected(alloc, case, settings, &references)?;
    if !check_clones(&whole)? {
        return Ok(Some(String::from_str(alloc, "a clone differs")?));
    }
    if let Some(sink) = failing_sink(
        alloc,
        case,
        settings,
        &references,
        &whole,
        Cutting::Characters,
    )? {
        return Ok(Some(format!(in alloc; "{sink} in characters")?));
    }
    for count in 0..=case.input.chars().count() {
        let cutting = Cutting::Afterwards(count);
        if let Some(sink) = failing_sink(alloc, case, settings, &references, &whole, cutting)? {
            return Ok(Some(format!(in alloc; "{sink} cut afterwards {count}")?));
        }
    }
    Ok(None)
}

/// Feeds a case, read by the words, to the printing sink and to a collector, in two pieces that are cut at
/// each place, and in single characters. Answers how it fails, if it does.
pub fn failing_cutting(
    alloc: Global,
    case: &WorkedCase,
    words: &[String],
) -> Result<Option<String>, CaseError> {
    let Some(settings) = settings_of(words) else {
        return Err(CaseError::BadLine);
    };
    failing_cutting_with(alloc, case, &settings)
}
