//! A script of a tokenizer, as text.
mod calls;
mod play;
mod player;
mod repeated;
mod wholes;

use crate::tokenizer::repeated::{Repeated, expanded, many};
use std::alloc::Global;
use testing_lines::{CaseError, number_of, push_line, push_meant, push_word};

/// The sink of a script.
#[derive(Clone, Copy, Debug, PartialEq, Eq)]
pub enum SinkKind {
    Collect,
    Steer,
    Alternate,
    Count,
    Print,
    /// It faults after this many calls.
    FaultAfter(usize),
    FaultAtEnd,
}

/// In which cuts a script is played, beside whole pieces.
#[derive(Clone, Copy, Debug, PartialEq, Eq)]
pub enum Cuts {
    None,
    Characters,
    /// In characters, and in two at each place.
    All,
}

/// How the pieces of a play are cut.
#[derive(Clone, Copy, Debug, PartialEq, Eq)]
pub enum Cutting {
    Whole,
    Characters,
    /// Each in two, the first with this many characters.
    Two(usize),
}

/// How one call reads a whole text that comes in parts.
#[derive(Clone, Copy, Debug, PartialEq, Eq)]
pub enum Whole {
    Text,
    Pieces,
    Steps,
}

/// The item that a whole text is, or that it is items.
#[derive(Clone, Copy, Debug, PartialEq, Eq)]
pub enum Law {
    Tag,
    Reference,
    Comment,
    Instruction,
    Doctype,
    Cdata,
    Raw,
    Items,
}

/// A call that has an answer.
#[derive(Clone, Copy, Debug, PartialEq, Eq)]
pub enum Call {
    Feed,
    UntilDone,
    FedPieces,
    End,
    Finish,
    IsPending,
    Whole(Whole),
    Law(Law),
}

/// A step of a tokenizer's script.
#[derive(Drop)]
pub enum Step {
    /// A text after the queued text.
    Push(String),
    /// A text in front of the queued text.
    Insert(String),
    /// A part of a whole text, after those before it.
    Piece(String),
    /// A part of a whole text, in front of the queued text.
    Front(String),
    /// The rest is plain text.
    Plain,
    /// A fresh sink is sent the rest.
    Fresh,
    /// A call, and its answer.
    Call(Call, String),
    /// The queued text.
    Left(String),
    /// The lines that the sink shows.
    Told(String),
    /// Each further call is refused, and changes nothing.
    Refused,
}

/// A script of a tokenizer: how it is played, and its steps.
#[derive(Drop)]
pub struct TokenizerScript {
    pub words: Vec<String>,
    pub sink: SinkKind,
    /// How it is played with its pieces cut, too.
    pub cuts: Cuts,
    pub steps: Vec<Step>,
    defined: Vec<Repeated>,
}

// The law of that name.
fn law_of(words: &str) -> Option<Call> {
    let law = match words {
        "law tag" => Law::Tag,
        "law reference" => Law::Reference,
        "law comment" => Law::Comment,
        "law instruction" => Law::Instruction,
        "law doctype" => Law::Doctype,
        "law cdata" => Law::Cdata,
        "law raw" => Law::Raw,
        "law items" => Law::Items,
        _ => return None,
    };
    Some(Call::Law(law))
}

// The call of that name.
fn call_of(words: &str) -> Option<Call> {
    match words {
        "feed" => Some(Call::Feed),
        "until done" => Some(Call::UntilDone),
        "fed pieces" => Some(Call::FedPieces),
        "end" => Some(Call::End),
        "finish" => Some(Call::Finish),
        "pending" => Some(Call::IsPending),
        "whole" => Some(Call::Whole(Whole::Text)),
        "pieces" => Some(Call::Whole(Whole::Pieces)),
        "steps" => Some(Call::Whole(Whole::Steps)),
        _ => law_of(words),
    }
}

// The call and the answer that a line says, if it says one.
fn called(line: &str) -> Option<(Call, &str)> {
    let (words, answer) = line.split_once(" -> ")?;
    Some((call_of(words)?, answer))
}

// The step of a text.
fn text_step(verb: &str, text: String) -> Result<Step, CaseError> {
    match verb {
        "push" => Ok(Step::Push(text)),
        "insert" => Ok(Step::Insert(text)),
        "piece" => Ok(Step::Piece(text)),
        "front" => Ok(Step::Front(text)),
        "left" => Ok(Step::Left(text)),
        _ => Err(CaseError::BadLine),
    }
}

// The step that a line says.
fn step_of(alloc: Global, line: &str) -> Result<Step, CaseError> {
    if let Some((call, answer)) = called(line) {
        return Ok(Step::Call(call, String::from_str(alloc, answer)?));
    }
    match line {
        "plain" => return Ok(Step::Plain),
        "fresh" => return Ok(Step::Fresh),
        "refused" => return Ok(Step::Refused),
        "told" => return Ok(Step::Told(String::new(alloc))),
        _ => {}
    }
    let (verb, written) = line.split_once(' ').unwrap_or((line, ""));
    let mut text = String::new(alloc);
    push_meant(&mut text, written)?;
    text_step(verb, text)
}

// The sink that faults at that call, or at the end.
fn faulting(call: &str) -> Result<SinkKind, CaseError> {
    if call == "end" {
        return Ok(SinkKind::FaultAtEnd);
    }
    let Some(before) = number_of(call)?.checked_sub(1) else {
        return Err(CaseError::BadLine);
    };
    Ok(SinkKind::FaultAfter(before as usize))
}

// The sink of that name.
fn sink_of(words: &str) -> Result<SinkKind, CaseError> {
    match words.split_once(' ') {
        Some(("fault", call)) => faulting(call),
        Some(_) => Err(CaseError::BadLine),
        None => match words {
            "collect" => Ok(SinkKind::Collect),
            "steer" => Ok(SinkKind::Steer),
            "alternate" => Ok(SinkKind::Alternate),
            "count" => Ok(SinkKind::Count),
            "print" => Ok(SinkKind::Print),
            _ => Err(CaseError::BadLine),
        },
    }
}

impl TokenizerScript {
    /// A script of which no line was read.
    pub fn new(alloc: Global) -> TokenizerScript {
        TokenizerScript {
            words: Vec::new(alloc),
            sink: SinkKind::Collect,
            cuts: Cuts::None,
            steps: Vec::new(alloc),
            defined: Vec::new(alloc),
        }
    }

    /// Reads a line of the script: a mark, and the text after the space that follows it.
    pub fn read_line(&mut self, alloc: Global, line: &str) -> Result<(), CaseError> {
        let line = expanded(alloc, line, &self.defined)?;
        let (mark, text) = line.split_once(' ').unwrap_or((&line, ""));
        match mark {
            "$" => push_word(alloc, &mut self.words, text)?,
            ">" => return self.read_told(text),
            ">>" => return self.read_told_many(alloc, text),
            "define" => return self.define(alloc, text),
            _ => return self.read_way(alloc, &line),
        }
        Ok(())
    }

    // Reads a line that says how the script is played, or else a step.
    fn read_way(&mut self, alloc: Global, line: &str) -> Result<(), CaseError> {
        let (mark, text) = line.split_once(' ').unwrap_or((line, ""));
        match mark {
            "sink" => self.sink = sink_of(text)?,
            "cuts" => self.cuts = Cuts::All,
            "characters" => self.cuts = Cuts::Characters,
            _ => return self.read_step(alloc, line),
        }
        Ok(())
    }

    // Reads what a name stands for.
    fn define(&mut self, alloc: Global, definition: &str) -> Result<(), CaseError> {
        let repeated = Repeated::read(alloc, definition)?;
        self.defined.push(repeated).map_err(|_| CaseError::Memory)
    }

    // Reads many lines that are sent: how many, and the line.
    fn read_told_many(&mut self, alloc: Global, written: &str) -> Result<(), CaseError> {
        let added = many(alloc, written, "\n")?;
        match self.steps.last_mut() {
            Some(Step::Told(lines)) => Ok(lines.push_str(&added)?),
            _ => Err(CaseError::BadLine),
        }
    }

    // Reads a line that is sent: of the step before it.
    fn read_told(&mut self, line: &str) -> Result<(), CaseError> {
        match self.steps.last_mut() {
            Some(Step::Told(lines)) => push_line(lines, line),
            _ => Err(CaseError::BadLine),
        }
    }

    // Reads a step.
    fn read_step(&mut self, alloc: Global, line: &str) -> Result<(), CaseError> {
        let step = step_of(alloc, line)?;
        self.steps.push(step).map_err(|_| CaseError::Memory)
    }
}
