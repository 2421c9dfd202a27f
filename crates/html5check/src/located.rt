//! The lines and the columns of what is found.
ghost use Rattle.std.specs.Prelude.{◌≡◌, IfOk, map};
ghost use Rattle.html5check.specs.Faults.{finding_by};
ghost use Rattle.html5check.specs.Located.{located, located_by};

use crate::finding::Finding;
use html5places::{Position, Positions};
use std::alloc::{AllocError, Global};

/// Something found, and the line and the columns where it begins.
#[derive(Clone, Copy, Debug, PartialEq, Eq)]
pub struct Located<'t> {
    pub finding: Finding<'t>,
    pub position: Position,
}

/// What is found in a text, with its lines and columns. In order of places it takes one pass over the text.
pub fn locate<'t>(
    alloc: Global,
    text: &str,
    findings: &[Finding<'t>],
) -> Result<Vec<Located<'t>>, AllocError>
    ensures { IfOk result (λ found. map located_by found.items ≡ map (located text.now) (map finding_by findings.now)) }
{
    let mut positions = Positions::new(text);
    let mut found = Vec::new(alloc);
    for finding in findings {
        found.push(Located {
            finding: *finding,
            position: positions.at(finding.begin),
        })?;
    }
    Ok(found)
}
