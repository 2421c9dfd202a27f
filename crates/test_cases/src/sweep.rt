//! Each prefix of the inputs, with each short text after it, read by a collector at once and by its
//! characters.
ghost use Rattle.std.specs.Prelude.{IsSome};
ghost use Rattle.html5feed.specs.Starting.{CanStart};
ghost use Rattle.html5table.specs.Listed.{listed};

use crate::case::WorkedCase;
use html5cli::arguments::settings_of;
use html5cli::settings::{Settings, options_of};
use html5ever::tokenizer::steps::{Step, run_steps};
use html5ever_interface::collect::Collector;
use html5table::references_of;
use markup5ever::data::NamedReferences;
use std::alloc::{AllocError, Global};
use std::collections::BTreeSet;
use testing_lines::{CaseError, cases_of, push_line};

// The characters of the texts after a prefix, of which each has at most two.
const BEHIND: &str = "a-!</>=&;\" \0";

/// What the runs told: a line for each text for which they differ.
#[derive(Drop)]
pub struct Swept {
    pub lines: String,
    pub failed: u64,
    pub runs: u64,
    // The prefixes that were read, with the words by which they were.
    seen: BTreeSet<String>,
}

// What tells a prefix that is read by the words from all others.
fn key_of(alloc: Global, words: &[String], beginning: &str) -> Result<String, AllocError> {
    let mut key = format!(in alloc; "{}", words.len())?;
    for word in words {
        key.push('\n')?;
        key.push_str(word)?;
    }
    key.push('\n')?;
    key.push_str(beginning)?;
    Ok(key)
}

// The text as one step.
fn one_step(alloc: Global, text: &str) -> Result<Vec<Step>, AllocError> {
    let mut steps = Vec::new(alloc);
    steps.push(Step::Push(String::from_str(alloc, text)?))?;
    Ok(steps)
}

// A step for each character of the text.
fn steps_of(alloc: Global, text: &str) -> Result<Vec<Step>, AllocError> {
    let mut steps = Vec::new(alloc);
    for c in text.chars() {
        let mut piece = String::new(alloc);
        piece.push(c)?;
        steps.push(Step::Push(piece))?;
    }
    Ok(steps)
}

// What a collector is sent by the steps, if all of them succeed.
fn run(
    alloc: Global,
    settings: &Settings,
    references: &NamedReferences,
    steps: Vec<Step>,
) -> Result<Option<Collector>, AllocError>
    requires state { CanStart settings.now.initial_state }
{
    let sink = Collector::new(alloc, settings.foreign);
    let opts = options_of(alloc, settings)?;
    let (sink, ran) = run_steps(alloc, sink, opts, references, steps);
    if ran.is_err() || !sink.is_finished() {
        return Ok(None);
    }
    Ok(Some(sink))
}

// Whether both collectors have finished, and hold the same entries.
fn are_equal(whole: &Option<Collector>, single: &Option<Collector>) -> bool {
    match (whole, single) {
        (Some(whole), Some(single)) => whole.entries() == single.entries(),
        _ => false,
    }
}

impl Swept {
    // Reads a text at once, and by its characters.
    fn try_text(
        &mut self,
        alloc: Global,
        settings: &Settings,
        references: &NamedReferences,
        text: &str,
    ) -> Result<(), CaseError>
        requires state { CanStart settings.now.initial_state }
    {
        let whole = run(alloc, settings, references, one_step(alloc, text)?)?;
        let single = run(alloc, settings, references, steps_of(alloc, text)?)?;
        self.runs = self.runs.wrapping_add(2);
        if !are_equal(&whole, &single) {
            self.failed = self.failed.wrapping_add(1);
            push_line(&mut self.lines, &format!(in alloc; "failed: {text:?}")?)?;
        }
        Ok(())
    }

    // Reads a prefix with each text of at most two characters after it.
    fn try_beginning(
        &mut self,
        alloc: Global,
        settings: &Settings,
        references: &NamedReferences,
        beginning: &str,
    ) -> Result<(), CaseError>
        requires state { CanStart settings.now.initial_state }
    {
        self.try_text(alloc, settings, references, beginning)?;
        for first in BEHIND.chars() {
            let mut text = String::from_str(alloc, beginning)?;
            text.push(first)?;
            self.try_text(alloc, settings, references, &text)?;
            for second in BEHIND.chars() {
                text.push(second)?;
                self.try_text(alloc, settings, references, &text)?;
                text.pop();
            }
        }
        Ok(())
    }

    // Whether a prefix is read by the words for the first time.
    fn is_new(
        &mut self,
        alloc: Global,
        words: &[String],
        beginning: &str,
    ) -> Result<bool, CaseError> {
        let key = key_of(alloc, words, beginning)?;
        if self.seen.contains(&key) {
            return Ok(false);
        }
        match self.seen.insert(key) {
            Ok(_) => Ok(true),
            Err(_) => Err(CaseError::Memory),
        }
    }

    // Reads each prefix of a case's input that is new, the empty and the whole one too.
    fn try_input(
        &mut self,
        alloc: Global,
        settings: &Settings,
        case: &WorkedCase,
    ) -> Result<(), CaseError>
        requires state { CanStart settings.now.initial_state }
        requires table { IsSome (listed settings.now.table.now) }
    {
        let Ok(references) = references_of(alloc, settings.table) else {
            return Err(CaseError::BadLine);
        };
        let mut beginning = String::new(alloc);
        if self.is_new(alloc, &case.words, &beginning)? {
            self.try_beginning(alloc, settings, &references, &beginning)?;
        }
        for c in case.input.chars() {
            beginning.push(c)?;
            if self.is_new(alloc, &case.words, &beginning)? {
                self.try_beginning(alloc, settings, &references, &beginning)?;
            }
        }
        Ok(())
    }

    // Reads the prefixes of a case, where a collector can be sent it.
    fn try_case(&mut self, alloc: Global, case: &WorkedCase) -> Result<(), CaseError> {
        if case.status != 0 || case.steered {
            return Ok(());
        }
        let Some(settings) = settings_of(&case.words) else {
            return Err(CaseError::BadLine);
        };
        self.try_input(alloc, &settings, case)
    }
}

/// Reads the prefixes of all cases, each once.
pub fn sweep(alloc: Global, text: &str) -> Result<Swept, CaseError> {
    let mut swept = Swept {
        lines: String::new(alloc),
        failed: 0,
        runs: 0,
        seen: BTreeSet::new(alloc),
    };
    for case in &cases_of::<WorkedCase>(alloc, text)? {
        swept.try_case(alloc, case)?;
    }
    Ok(swept)
}
