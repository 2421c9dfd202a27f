//! Runs a case, and says where it tells something else.
ghost use Rattle.std.specs.Prelude.{IsSome};
ghost use Rattle.html5feed.specs.Starting.{CanStart};
ghost use Rattle.html5table.specs.Listed.{listed};

use crate::case::WorkedCase;
use crate::cuttings::failing_cutting;
use devices::{ReadSource, WriteTarget};
use html5cli::arguments::settings_of;
use html5cli::feeding::feed_text;
use html5cli::run::run;
use html5cli::settings::{Settings, options_of};
use html5ever::tokenizer::Tokenizer;
use html5table::references_of;
use std::alloc::{AllocError, Global};
use testing_lines::CaseError;
use token_printer::print_sink::PrintSink;

// What a run left.
#[derive(Drop)]
struct Ran {
    status: u8,
    output: Vec<u8>,
    errors: Vec<u8>,
}

// How the program is run on a case.
#[derive(Clone, Copy, Debug, PartialEq, Eq)]
struct Way {
    // With exact errors, beside the words of the case.
    exact: bool,
    // In pieces of this many characters; 0 stands for the whole.
    cut: usize,
}

// The words of the case, and those of the way.
fn words_of(alloc: Global, case: &WorkedCase, way: Way) -> Result<Vec<String>, AllocError> {
    let mut words = case.words_of(alloc, way.exact)?;
    let cut = way.cut;
    if cut != 0 {
        words.push(String::from_str(alloc, "--cut")?)?;
        words.push(format!(in alloc; "{cut}")?)?;
    }
    Ok(words)
}

// Runs the program on the case in that way.
fn run_case(alloc: Global, case: &WorkedCase, way: Way) -> Result<Ran, AllocError> {
    let mut writer = WriteTarget::new(Vec::new(alloc));
    let mut errors = WriteTarget::new(Vec::new(alloc));
    let status = run(
        alloc,
        words_of(alloc, case, way)?,
        &mut ReadSource::new(case.input.as_bytes()),
        &mut writer,
        &mut errors,
    );
    Ok(Ran {
        status,
        output: writer.into_inner(),
        errors: errors.into_inner(),
    })
}

// Whether the program tells of the case, in that way, what it must tell.
fn is_told(alloc: Global, case: &WorkedCase, way: Way) -> Result<bool, AllocError> {
    let ran = run_case(alloc, case, way)?;
    Ok(
        ran.status == case.status
            && ran.output.as_slice() == case.output.as_bytes()
            && ran.errors.as_slice() == case.errors.as_bytes(),
    )
}

// Whether an input that may go on, cut in pieces of this many characters, tells what it must.
fn is_told_so_far(
    alloc: Global,
    case: &WorkedCase,
    settings: &Settings,
    clean: bool,
) -> Result<bool, CaseError>
    requires state { CanStart settings.now.initial_state }
    requires table { IsSome (listed settings.now.table.now) }
{
    let Ok(references) = references_of(alloc, settings.table) else {
        return Err(CaseError::BadLine);
    };
    let opts = options_of(alloc, settings)?;
    let sink = PrintSink::new(alloc, settings.foreign);
    let mut tokenizer = Tokenizer::new(alloc, sink, opts, &references);
    let input = &case.input;
    let mut writer = WriteTarget::new(Vec::new(alloc));
    if feed_text(alloc, &mut tokenizer, input, settings.cut, &mut writer).is_err() {
        return Err(CaseError::Memory);
    }
    let output = case.output.as_bytes();
    let lines = output.strip_suffix(b"\n").unwrap_or(output);
    let mut printed: Vec<u8> = writer.into_inner();
    printed.extend_from_slice(tokenizer.sink.output())?;
    let printed = printed.strip_suffix(b"\n").unwrap_or(&printed);
    Ok(printed == lines && tokenizer.nothing_pending() == clean)
}

// Whether the case tells in that way what it must.
fn passes(alloc: Global, case: &WorkedCase, way: Way) -> Result<bool, CaseError> {
    let Some(clean) = case.clean else {
        return Ok(is_told(alloc, case, way)?);
    };
    let words = words_of(alloc, case, way)?;
    let Some(settings) = settings_of(&words) else {
        return Err(CaseError::BadLine);
    };
    is_told_so_far(alloc, case, &settings, clean)
}

// The first cut at which the case does not tell what it must; 0 stands for the whole.
fn failing_cut(alloc: Global, case: &WorkedCase, exact: bool) -> Result<Option<usize>, CaseError> {
    if !passes(alloc, case, Way { exact, cut: 0 })? {
        return Ok(Some(0));
    }
    if case.status != 0 {
        return Ok(None);
    }
    for cut in 1..=case.input.chars().count() {
        if !passes(alloc, case, Way { exact, cut })? {
            return Ok(Some(cut));
        }
    }
    Ok(None)
}

// Runs a case in all ways, with exact errors or as its words say. Answers how it fails, if it does.
fn failing_way(alloc: Global, case: &WorkedCase, exact: bool) -> Result<Option<String>, CaseError> {
    if let Some(cut) = failing_cut(alloc, case, exact)? {
        return Ok(Some(format!(in alloc; "in pieces of {cut}")?));
    }
    if case.status != 0 {
        return Ok(None);
    }
    failing_cutting(alloc, case, &case.words_of(alloc, exact)?)
}

/// Runs a case. Answers where it fails, if it does.
pub fn failure_of(alloc: Global, case: &WorkedCase) -> Result<Option<String>, CaseError> {
    if let Some(way) = failing_way(alloc, case, false)? {
        return Ok(Some(format!(in alloc; "{} {:?} {way}", case.name, case.input)?));
    }
    if !case.exact_too {
        return Ok(None);
    }
    match failing_way(alloc, case, true)? {
        None => Ok(None),
        Some(way) => {
            let failure = format!(in alloc; "{} {:?} {way}, exact", case.name, case.input)?;
            Ok(Some(failure))
        }
    }
}
