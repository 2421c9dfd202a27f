//! The lines of findings.
ghost use Rattle.std.specs.Prelude.{◌≡◌, ◌++◌, IfOk, OnOk, map, option_map};
ghost use Rattle.html5check.specs.Faults.{finding_by};
ghost use Rattle.html5check.specs.Lines.{finding_shown, line_of, lines_of, meant_bytes, meant_shown, place_shown, shown_bytes, subject_shown};
ghost use Rattle.html5check.specs.Located.{located_by};

use crate::finding::Finding;
use crate::located::Located;
use html5places::Position;
use itoa::Buffer;
use std::alloc::{AllocError, Global};

// Appends bytes, with `?` for control characters of ASCII.
#[tactic(auto, unfolding(crate::specs::Lines::shown_bytes))]
fn push_shown(line: &mut Vec<u8>, bytes: &[u8]) -> Result<(), AllocError>
    ensures { OnOk result (line.new.items ≡ line.old.items ++ shown_bytes bytes.now) }
{
    for byte in bytes {
        let is_control = *byte < 0x20 || *byte == 0x7f;
        line.push(if is_control { b'?' } else { *byte })?;
    }
    Ok(())
}

// Appends a colon and the subject, if there is one.
fn push_subject(line: &mut Vec<u8>, subject: &str) -> Result<(), AllocError>
    ensures { OnOk result (line.new.items ≡ line.old.items ++ subject_shown subject.now) }
{
    if !subject.is_empty() {
        line.extend_from_slice(b": ")?;
        push_shown(line, subject.as_bytes())?;
    }
    Ok(())
}

// Appends the name that another was meant for.
fn push_meant_name(line: &mut Vec<u8>, meant: &str) -> Result<(), AllocError>
    ensures { OnOk result (line.new.items ≡ line.old.items ++ meant_bytes meant.now) }
{
    line.extend_from_slice(b"; did you mean ")?;
    line.extend_from_slice(meant.as_bytes())?;
    line.extend_from_slice(b"?")?;
    Ok(())
}

// Appends what a misspelled name was meant for.
fn push_meant(line: &mut Vec<u8>, meant: Option<&str>) -> Result<(), AllocError>
    ensures { OnOk result (line.new.items ≡ line.old.items ++ meant_shown (option_map (λ meant. meant.now) meant.entry)) }
{
    match meant {
        Some(meant) => push_meant_name(line, meant),
        None => Ok(()),
    }
}

// Appends a place: the file's name, the line and the column.
fn push_place(line: &mut Vec<u8>, file: &str, position: Position) -> Result<(), AllocError>
    ensures { OnOk result (line.new.items ≡ line.old.items ++ place_shown file.now position) }
{
    line.extend_from_slice(file.as_bytes())?;
    line.extend_from_slice(b":")?;
    line.extend_from_slice(Buffer::new().format(position.line).as_bytes())?;
    line.extend_from_slice(b":")?;
    line.extend_from_slice(Buffer::new().format(position.column).as_bytes())?;
    Ok(())
}

// Appends the findings.
fn push_finding(line: &mut Vec<u8>, finding: &Finding<'_>) -> Result<(), AllocError>
    ensures { OnOk result (line.new.items ≡ line.old.items ++ finding_shown (finding_by finding.now)) }
{
    line.extend_from_slice(finding.fault.code().as_bytes())?;
    push_subject(line, finding.subject)?;
    push_meant(line, finding.meant)
}

// Appends the line of something found in a file of this name.
fn push_line(lines: &mut Vec<u8>, file: &str, located: &Located<'_>) -> Result<(), AllocError>
    ensures { OnOk result (lines.new.items ≡ lines.old.items ++ line_of file.now (located_by located.now)) }
{
    push_place(lines, file, located.position)?;
    lines.extend_from_slice(b": error: ")?;
    push_finding(lines, &located.finding)?;
    lines.extend_from_slice(b"\n")?;
    Ok(())
}

/// The lines of the findings in a file of this name: `FILE:LINE:COLUMN: error: CODE`, then a colon and what it is
/// about, and what a misspelled name was meant for. Control characters of ASCII are shown as `?`, except for those of
/// the file's name.
#[tactic(auto, unfolding(crate::specs::Lines::lines_of))]
pub fn lines_of(alloc: Global, file: &str, found: &[Located<'_>]) -> Result<Vec<u8>, AllocError>
    ensures { IfOk result (λ lines. lines.items ≡ lines_of file.now (map located_by found.now)) }
{
    let mut lines = Vec::new(alloc);
    for located in found {
        push_line(&mut lines, file, located)?;
    }
    Ok(lines)
}
