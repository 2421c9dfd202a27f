//! What sinks show of what they were sent, and the numbers of their handles.
use crate::alternating::Alternating;
use crate::counting::Counting;
use crate::faulty::FaultySink;
use crate::lines::push_lines;
use crate::steering::Steering;
use html5ever_interface::collect::Collector;
use std::alloc::{AllocError, Allocator, Global};
use std::str::from_utf8;
use token_printer::print_sink::PrintSink;

/// A sink that shows, line by line, what it was sent.
pub trait Shown: Drop {
    /// Appends a line for each entry, and a last line `finished` after the end.
    fn show(&self, alloc: Global, out: &mut String) -> Result<(), AllocError>;
}

// Appends what a collector holds.
fn show_collector<A: Allocator>(
    sink: &Collector<A>,
    alloc: Global,
    out: &mut String,
) -> Result<(), AllocError> {
    push_lines(alloc, out, sink.entries())?;
    if sink.is_finished() {
        out.push_str("finished\n")?;
    }
    Ok(())
}

impl<A: Allocator> Shown for Collector<A> {
    fn show(&self, alloc: Global, out: &mut String) -> Result<(), AllocError> {
        show_collector(self, alloc, out)
    }
}

impl<A: Allocator> Shown for Steering<A> {
    fn show(&self, alloc: Global, out: &mut String) -> Result<(), AllocError> {
        show_collector(&self.inner, alloc, out)
    }
}

impl<A: Allocator> Shown for Alternating<A> {
    fn show(&self, alloc: Global, out: &mut String) -> Result<(), AllocError> {
        show_collector(&self.inner, alloc, out)
    }
}

// Appends the lines of a page. A text at their end gets its closing quote.
impl<A: Allocator> Shown for PrintSink<A> {
    fn show(&self, _alloc: Global, out: &mut String) -> Result<(), AllocError> {
        let lines = from_utf8(self.output()).unwrap_or("no text\n");
        out.push_str(lines)?;
        if !lines.is_empty() && !lines.ends_with('\n') {
            out.push_str("\"\n")?;
        }
        Ok(())
    }
}

impl Shown for Counting {
    fn show(&self, alloc: Global, out: &mut String) -> Result<(), AllocError> {
        let line = format!(in alloc; "counted {}\n", self.count)?;
        out.push_str(&line)
    }
}

impl Shown for FaultySink {
    fn show(&self, _alloc: Global, out: &mut String) -> Result<(), AllocError> {
        if self.took_another {
            out.push_str("another\n")?;
        }
        Ok(())
    }
}

/// The handle of a script, as a number.
pub trait Numbered {
    fn number(&self) -> u32;
}

impl Numbered for u32 {
    fn number(&self) -> u32 {
        *self
    }
}

impl Numbered for () {
    fn number(&self) -> u32 {
        0
    }
}
