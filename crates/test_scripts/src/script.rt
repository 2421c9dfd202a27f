//! A script as text: what those of a tokenizer and those of a queue have in common.
use crate::check::failure_of;
use crate::queue::QueueScript;
use crate::tokenizer::TokenizerScript;
use std::alloc::Global;
use std::mem;
use testing_lines::{Case, CaseError, Wanted, number_of};

/// What a script is of, with its steps.
#[derive(Drop)]
pub enum Body {
    Tokenizer(TokenizerScript),
    /// A queue, and a table of named references.
    Queue(QueueScript),
}

impl Body {
    // Reads a line of the body.
    fn read_line(&mut self, alloc: Global, line: &str) -> Result<(), CaseError> {
        match self {
            Body::Tokenizer(script) => script.read_line(alloc, line),
            Body::Queue(script) => script.read_line(alloc, line),
        }
    }
}

/// A script: how much memory it is played with, and its body.
#[derive(Drop)]
pub struct Script {
    name: String,
    /// How many requests for memory it may make.
    pub requests: Option<u64>,
    /// Whether it is played with each request for memory refused, too, and how many there are.
    pub refusals: Option<Wanted>,
    pub body: Body,
    /// The last line that has no meaning, if one has none.
    pub unknown: Option<String>,
    // Whether a line was read.
    is_begun: bool,
}

impl Case for Script {
    fn begin(alloc: Global) -> Script {
        Script {
            name: String::new(alloc),
            requests: None,
            refusals: None,
            body: Body::Tokenizer(TokenizerScript::new(alloc)),
            unknown: None,
            is_begun: false,
        }
    }

    fn read_line(&mut self, alloc: Global, line: &str) -> Result<(), CaseError> {
        let is_first = !mem::replace(&mut self.is_begun, true);
        if is_first && line == "queue" {
            self.body = Body::Queue(QueueScript::new(alloc));
            return Ok(());
        }
        match self.read_mark(alloc, line) {
            Err(CaseError::BadLine) => {
                self.unknown = Some(String::from_str(alloc, line)?);
                Ok(())
            }
            read => read,
        }
    }

    fn failure(&self, alloc: Global) -> Result<Option<String>, CaseError> {
        let Some(failure) = failure_of(alloc, self)? else {
            return Ok(None);
        };
        Ok(Some(format!(in alloc; "{}: {failure}", self.name)?))
    }
}

impl Script {
    // Reads a line that has a meaning: one that each script may have, or one of the body.
    fn read_mark(&mut self, alloc: Global, line: &str) -> Result<(), CaseError> {
        let (mark, text) = line.split_once(' ').unwrap_or((line, ""));
        match mark {
            "*" if self.name.is_empty() => self.name.push_str(text)?,
            "memory" => self.requests = Some(number_of(text)?),
            "refuse" => self.refusals = Some(Wanted::read(text)?),
            _ => return self.body.read_line(alloc, line),
        }
        Ok(())
    }
}
