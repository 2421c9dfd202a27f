//! Why a play stops before its script's end.
use crate::CaseError;
use std::alloc::{AllocError, Global};

/// Why a play stops.
#[derive(Debug, Drop)]
pub enum Stop {
    /// Words that the program does not know, or a table that has a fault.
    BadWords,
    /// A step that can't be taken where it stands.
    BadStep,
    /// There was no memory for what the script itself hands in.
    Memory,
    /// A call with another answer than the script says.
    Answers { expected: String, found: String },
    /// Something else than the script says, or than must be after a call.
    Differs { expected: String, found: String },
}

impl From<AllocError> for Stop {
    fn from(_refused: AllocError) -> Stop {
        Stop::Memory
    }
}

impl From<CaseError> for Stop {
    fn from(error: CaseError) -> Stop {
        match error {
            CaseError::BadLine => Stop::BadStep,
            CaseError::Memory => Stop::Memory,
        }
    }
}

impl Stop {
    /// What the stop says.
    pub fn words(&self, alloc: Global) -> Result<String, AllocError> {
        match self {
            Stop::BadWords => String::from_str(alloc, "unknown words, or a table with a fault"),
            Stop::BadStep => String::from_str(alloc, "it can't be taken there"),
            Stop::Memory => String::from_str(alloc, "no memory"),
            Stop::Answers { expected, found } => {
                format!(in alloc; "expected the answer {expected:?}, found {found:?}")
            }
            Stop::Differs { expected, found } => {
                format!(in alloc; "expected {expected:?}, found {found:?}")
            }
        }
    }
}

/// Compares the answer of a call with what the script says.
pub fn compare_answer(ample: Global, expected: &str, found: &str) -> Result<(), Stop> {
    if expected == found {
        return Ok(());
    }
    Err(Stop::Answers {
        expected: String::from_str(ample, expected)?,
        found: String::from_str(ample, found)?,
    })
}

/// Compares what was found with what the script says.
pub fn compare(ample: Global, expected: &str, found: &str) -> Result<(), Stop> {
    if expected == found {
        return Ok(());
    }
    Err(Stop::Differs {
        expected: String::from_str(ample, expected)?,
        found: String::from_str(ample, found)?,
    })
}

/// Compares an answer of yes or no with what it must be; `question` says which it is.
pub fn compare_flag(
    ample: Global,
    question: &str,
    expected: bool,
    found: bool,
) -> Result<(), Stop> {
    if expected == found {
        return Ok(());
    }
    Err(Stop::Differs {
        expected: format!(in ample; "{question} {expected}")?,
        found: format!(in ample; "{question} {found}")?,
    })
}
