//! A script of a queue and of a table of named references, as text.
mod calls;
mod play;
mod table;

use markup5ever::buffer_queue::Case;
use std::alloc::Global;
use testing_lines::{CaseError, push_meant};

/// A call of which a script says the answer.
#[derive(Drop)]
pub enum Call {
    /// Hands a text in, after the queued text.
    Push(String),
    /// Hands a copy of a text in, after the queued text.
    Copy(String),
    /// Hands a text in, in front of the queued text.
    Insert(String),
    /// Puts a text back in front of the queued text.
    GiveBack(String),
    Next,
    Peek,
    /// The queued text.
    Waits,
    /// Takes a run, or the member of the set that stands first.
    Pop,
    /// Skips a run, and answers how many bytes it has.
    Skip,
    Eat(String, Case),
    /// Makes a table of the entries so far.
    Check,
    /// What the table has by that name.
    Get(String),
    /// Whether a name of the table begins so.
    IsPrefix(String),
    /// What the number of a C1 control stands for.
    Control(u8),
}

/// An entry of a table: a name, and one character or two.
#[derive(Drop)]
pub struct Entry {
    pub name: String,
    pub first: char,
    pub second: Option<char>,
}

/// A step of a queue's script.
#[derive(Drop)]
pub enum Step {
    Call(Call, String),
    Entry(Entry),
}

/// A script of a queue and of a table: its steps.
#[derive(Drop)]
pub struct QueueScript {
    steps: Vec<Step>,
}

// The text that is written with escapes.
fn meant(alloc: Global, written: &str) -> Result<String, CaseError> {
    let mut text = String::new(alloc);
    push_meant(&mut text, written)?;
    Ok(text)
}

// The entry: a name, a space, and one character or two.
fn entry_of(alloc: Global, written: &str) -> Result<Entry, CaseError> {
    let Some((name, characters)) = written.split_once(' ') else {
        return Err(CaseError::BadLine);
    };
    let characters = meant(alloc, characters)?;
    let mut characters = characters.chars();
    let Some(first) = characters.next() else {
        return Err(CaseError::BadLine);
    };
    Ok(Entry {
        name: meant(alloc, name)?,
        first,
        second: characters.next(),
    })
}

// The call of one word.
fn bare_call(word: &str) -> Option<Call> {
    match word {
        "next" => Some(Call::Next),
        "peek" => Some(Call::Peek),
        "waits" => Some(Call::Waits),
        "pop" => Some(Call::Pop),
        "skip" => Some(Call::Skip),
        "check" => Some(Call::Check),
        _ => None,
    }
}

// The call of a number in hexadecimal digits.
fn control_call(digits: &str) -> Result<Call, CaseError> {
    match u8::from_str_radix(digits, 16) {
        Ok(number) => Ok(Call::Control(number)),
        Err(_) => Err(CaseError::BadLine),
    }
}

// The call of a text.
fn text_call(verb: &str, text: String) -> Result<Call, CaseError> {
    match verb {
        "push" => Ok(Call::Push(text)),
        "copy" => Ok(Call::Copy(text)),
        "insert" => Ok(Call::Insert(text)),
        "give_back" => Ok(Call::GiveBack(text)),
        "eat" => Ok(Call::Eat(text, Case::Exact)),
        "eat_any_case" => Ok(Call::Eat(text, Case::IgnoreAscii)),
        "get" => Ok(Call::Get(text)),
        "begins" => Ok(Call::IsPrefix(text)),
        "control" => control_call(&text),
        _ => Err(CaseError::BadLine),
    }
}

// The call that is written so.
fn call_of(alloc: Global, words: &str) -> Result<Call, CaseError> {
    if let Some(call) = bare_call(words) {
        return Ok(call);
    }
    let (verb, written) = words.split_once(' ').unwrap_or((words, ""));
    text_call(verb, meant(alloc, written)?)
}

impl QueueScript {
    /// A script of which no line was read.
    pub fn new(alloc: Global) -> QueueScript {
        QueueScript {
            steps: Vec::new(alloc),
        }
    }

    /// Reads a line of the script: an entry of a table, or a call.
    pub fn read_line(&mut self, alloc: Global, line: &str) -> Result<(), CaseError> {
        match line.split_once(' ') {
            Some(("entry", written)) => self.push_step(Step::Entry(entry_of(alloc, written)?)),
            _ => self.read_call(alloc, line),
        }
    }

    // Reads a call and its answer.
    fn read_call(&mut self, alloc: Global, line: &str) -> Result<(), CaseError> {
        let Some((words, answer)) = line.rsplit_once(" ->") else {
            return Err(CaseError::BadLine);
        };
        let call = call_of(alloc, words)?;
        let answer = meant(alloc, answer.strip_prefix(' ').unwrap_or(answer))?;
        self.push_step(Step::Call(call, answer))
    }

    fn push_step(&mut self, step: Step) -> Result<(), CaseError> {
        self.steps.push(step).map_err(|_| CaseError::Memory)
    }
}
