//! Sinks that show, line by line, what they were sent so far.
use html5ever_interface::collect::Collector;
use html5ever_interface::interface::token::Token;
use std::alloc::Global;
use testing_lines::CaseError;
use testing_sinks::lines::push_lines;
use token_printer::print_sink::PrintSink;

/// A sink that shows what it was sent so far.
pub trait SoFar: Drop {
    /// The lines so far. A text at their end is open: its line has no closing quote yet.
    fn so_far(&self, alloc: Global) -> Result<String, CaseError>;
}

// The text of these bytes.
fn text_of(alloc: Global, bytes: &[u8]) -> Result<String, CaseError> {
    let mut page = Vec::new(alloc);
    page.extend_from_slice(bytes)?;
    match String::from_utf8(page) {
        Ok(text) => Ok(text),
        Err(_) => Err(CaseError::BadLine),
    }
}

// The lines of the entries, where a text at their end is open.
fn lines_of(alloc: Global, entries: &[(Token, u64)]) -> Result<String, CaseError> {
    let mut lines = String::new(alloc);
    push_lines(alloc, &mut lines, entries)?;
    match entries.last() {
        Some((Token::CharacterTokens(_), _)) => {
            let open = lines.strip_suffix("\"\n").unwrap_or("");
            Ok(String::from_str(alloc, open)?)
        }
        _ => Ok(lines),
    }
}

impl SoFar for PrintSink {
    fn so_far(&self, alloc: Global) -> Result<String, CaseError> {
        text_of(alloc, self.output())
    }
}

impl SoFar for Collector {
    fn so_far(&self, alloc: Global) -> Result<String, CaseError> {
        lines_of(alloc, self.entries())
    }
}
