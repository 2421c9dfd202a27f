//! A worked case as text.
use crate::check::failure_of;
use std::alloc::{AllocError, Global};
use testing_lines::{Case, CaseError, push_line, push_meant, push_word};

/// A worked case: the words of the command line and an input, and what is sent.
#[derive(Drop)]
pub struct WorkedCase {
    pub name: String,
    pub words: Vec<String>,
    pub input: String,
    pub output: String,
    pub errors: String,
    pub status: u8,
    /// Whether nothing is pending after the input, where this may go on.
    pub clean: Option<bool>,
    /// Whether exact errors have the same messages.
    pub exact_too: bool,
    /// Whether a reply of the printing sink chooses how the input is read.
    pub steered: bool,
}

impl WorkedCase {
    /// The words of the command line, and that for exact errors, where these are chosen here.
    pub fn words_of(&self, alloc: Global, exact: bool) -> Result<Vec<String>, AllocError> {
        let mut words = Vec::new(alloc);
        for word in &self.words {
            words.push(String::from_str(alloc, word)?)?;
        }
        if exact {
            words.push(String::from_str(alloc, "--exact")?)?;
        }
        Ok(words)
    }
}

// Whether nothing is pending, by its word.
fn clean_of(word: &str) -> Result<bool, CaseError> {
    match word {
        "clean" => Ok(true),
        "pending" => Ok(false),
        _ => Err(CaseError::BadLine),
    }
}

impl Case for WorkedCase {
    fn begin(alloc: Global) -> WorkedCase {
        WorkedCase {
            name: String::new(alloc),
            words: Vec::new(alloc),
            input: String::new(alloc),
            output: String::new(alloc),
            errors: String::new(alloc),
            status: 0,
            clean: None,
            exact_too: false,
            steered: false,
        }
    }

    // A mark, and the text after the space that follows it.
    fn read_line(&mut self, alloc: Global, line: &str) -> Result<(), CaseError> {
        let (mark, text) = line.split_once(' ').unwrap_or((line, ""));
        match mark {
            "*" => self.name.push_str(text)?,
            "$" => push_word(alloc, &mut self.words, text)?,
            "<" => push_meant(&mut self.input, text)?,
            ">" => push_line(&mut self.output, text)?,
            "!" => push_line(&mut self.errors, text)?,
            "=" => match text.parse::<u8>() {
                Ok(status) => self.status = status,
                Err(_) => return Err(CaseError::BadLine),
            },
            "~" => self.clean = Some(clean_of(text)?),
            "+" if text == "exact" => self.exact_too = true,
            "-" if text == "collector" => self.steered = true,
            _ => return Err(CaseError::BadLine),
        }
        Ok(())
    }

    fn failure(&self, alloc: Global) -> Result<Option<String>, CaseError> {
        failure_of(alloc, self)
    }
}
