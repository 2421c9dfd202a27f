//! What is found in pages as JSON, an object a line.
ghost use Rattle.std.specs.Prelude.{◌≡◌, [], ◌∷◌, ◌++◌, IfOk, Some, codes, decimal, map};
ghost use Rattle.html5check.specs.Faults.{fault_code, finding_by};
ghost use Rattle.html5check.specs.Located.{located_by};
ghost use Rattle.html5json.specs.Adding.{Adds};
ghost use Rattle.html5json.specs.Findings.{fault_members, finding_lines, json_of_finding};
ghost use Rattle.html5json.specs.Lines.{line_of};
ghost use Rattle.json.specs.Token.{key, number, string};
ghost use Rattle.json.specs.Tree.{json_tokens, members_tokens};

use crate::lines::ended;
use crate::members::{begin_of_file, end_with_option, write_number, write_text};
use html5check::{Fault, Finding, Located, Report};
use html5places::Position;
use json::Writer;
use std::alloc::{AllocError, Allocator, Global};

// Writes the line and the columns.
fn write_position<A: Allocator>(
    writer: &mut Writer<A>,
    position: Position,
) -> Result<(), AllocError>
    ensures { Adds result writer.old writer.new
        (key (codes "line") ∷ number (decimal position.line) ∷ key (codes "column") ∷ number (decimal position.column)
        ∷ key (codes "utf16_column") ∷ number (decimal position.utf16_column) ∷ []) }
{
    write_number(writer, "line", position.line as u64)?;
    write_number(writer, "column", position.column as u64)?;
    write_number(writer, "utf16_column", position.utf16_column as u64)
}

// Writes the bytes from which on and up to which it stands.
fn write_span<A: Allocator>(
    writer: &mut Writer<A>,
    begin: usize,
    end: usize,
) -> Result<(), AllocError>
    ensures { Adds result writer.old writer.new
        (key (codes "begin") ∷ number (decimal begin) ∷ key (codes "end") ∷ number (decimal end) ∷ []) }
{
    write_number(writer, "begin", begin as u64)?;
    write_number(writer, "end", end as u64)
}

// Writes a code, as a member of this name.
pub(crate) fn write_code<A: Allocator>(
    writer: &mut Writer<A>,
    name: &str,
    fault: Fault,
) -> Result<(), AllocError>
    ensures { Adds result writer.old writer.new (key name.now ∷ string (fault_code fault) ∷ []) }
{
    write_text(writer, name, fault.code())
}

// Writes what is wrong, and the end of the object.
fn write_fault<A: Allocator>(
    writer: &mut Writer<A>,
    finding: &Finding<'_>,
) -> Result<(), AllocError>
    ensures { Adds result writer.old writer.new (members_tokens (fault_members (finding_by finding.now))) }
{
    write_code(writer, "code", finding.fault)?;
    write_text(writer, "subject", finding.subject)?;
    end_with_option(writer, "meant", finding.meant)
}

// Writes something found in a file of this name.
fn write_finding<A: Allocator>(
    writer: &mut Writer<A>,
    file: &str,
    located: &Located<'_>,
) -> Result<(), AllocError>
    ensures { Adds result writer.old writer.new (json_tokens (json_of_finding file.now (located_by located.now))) }
{
    begin_of_file(writer, Some(file))?;
    write_position(writer, located.position)?;
    write_span(writer, located.finding.begin, located.finding.end)?;
    write_fault(writer, &located.finding)
}

// These lines, and that of something found.
fn with_finding<A: Allocator>(
    lines: Vec<u8, A>,
    file: &str,
    located: &Located<'_>,
) -> Result<Vec<u8, A>, AllocError>
    ensures { IfOk result (λ more. more.items ≡ lines.items ++ line_of (json_of_finding file.now (located_by located.now))) }
{
    let mut writer = Writer::new(lines);
    write_finding(&mut writer, file, located)?;
    ended(writer)
}

// The lines of what is found in a file of this name.
#[tactic(auto, unfolding(crate::specs::Findings::finding_lines))]
fn finding_lines(alloc: Global, file: &str, found: &[Located<'_>]) -> Result<Vec<u8>, AllocError>
    ensures { IfOk result (λ lines. lines.items ≡ finding_lines file.now (map located_by found.now)) }
{
    let mut lines = Vec::new(alloc);
    for located in found {
        lines = with_finding(lines, file, located)?;
    }
    Ok(lines)
}

/// For programs: an object of JSON a line. Its members are the file, the line, and the columns by characters and by
/// UTF-16 code units. Then come the bytes from which on and up to which it stands, the code, of what, and what a
/// misspelled name was meant for, or null.
#[derive(Drop)]
pub struct JsonFindings;

impl Report for JsonFindings {
    ghost use Rattle.std.specs.Prelude.{[]};
    ghost use Rattle.html5json.specs.Findings.{finding_lines};
    ghost use Rattle.html5json.specs.Laws.{no_lines};

    ghost printed = { λ found file located. finding_lines file located };

    ghost ended = { λ found. [] };

    ghost nothing = { λ found file. no_lines file };

    fn print(
        alloc: Global,
        _has_found: bool,
        file: &str,
        found: &[Located<'_>],
    ) -> Result<Vec<u8>, AllocError> {
        finding_lines(alloc, file, found)
    }

    fn end(alloc: Global, _has_found: bool) -> Result<Vec<u8>, AllocError> {
        Ok(Vec::new(alloc))
    }
}
