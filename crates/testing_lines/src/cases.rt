//! The cases of a text, and running them.
use crate::CaseError;
use std::alloc::Global;

/// A case, of which a text has many: each ends at an empty line, and the last may end with the text.
pub trait Case: Drop {
    /// A case of which no line was read.
    fn begin(alloc: Global) -> Self;

    /// Reads a line.
    fn read_line(&mut self, alloc: Global, line: &str) -> Result<(), CaseError>;

    /// Runs the case. Answers what is wrong, with the case's name, if something is.
    fn failure(&self, alloc: Global) -> Result<Option<String>, CaseError>;
}

/// What cases tell, a line for each that failed and one for all, and how many failed.
#[derive(Drop)]
pub struct Told {
    pub lines: String,
    pub failed: u64,
}

// Puts a case after the others.
fn push_case<C: Case>(cases: &mut Vec<C>, case: C) -> Result<(), CaseError> {
    match cases.push(case) {
        Ok(()) => Ok(()),
        Err(_) => Err(CaseError::Memory),
    }
}

/// The cases of a text, in their order. A line that begins with `#` belongs to no case.
pub fn cases_of<C: Case>(alloc: Global, text: &str) -> Result<Vec<C>, CaseError> {
    let mut cases = Vec::new(alloc);
    let mut case = C::begin(alloc);
    let mut is_begun = false;
    for line in text.lines() {
        if line.starts_with('#') {
            continue;
        }
        if !line.is_empty() {
            case.read_line(alloc, line)?;
            is_begun = true;
        } else if is_begun {
            push_case(&mut cases, case)?;
            case = C::begin(alloc);
            is_begun = false;
        }
    }
    if is_begun {
        push_case(&mut cases, case)?;
    }
    Ok(cases)
}

// Runs a case, and says where it fails.
fn check_case<C: Case>(alloc: Global, case: &C, told: &mut Told) -> Result<(), CaseError> {
    if let Some(failure) = case.failure(alloc)? {
        told.lines.push_str("failed: ")?;
        told.lines.push_str(&failure)?;
        told.lines.push('\n')?;
        told.failed = told.failed.wrapping_add(1);
    }
    Ok(())
}

/// Runs the cases of a text; `kind` is the word for more than one.
pub fn check_cases<C: Case>(alloc: Global, text: &str, kind: &str) -> Result<Told, CaseError> {
    let mut told = Told {
        lines: String::new(alloc),
        failed: 0,
    };
    let cases = cases_of::<C>(alloc, text)?;
    for case in &cases {
        check_case(alloc, case, &mut told)?;
    }
    let last = format!(in alloc; "{} {kind}, {} failed\n", cases.len(), told.failed)?;
    told.lines.push_str(&last)?;
    Ok(told)
}
