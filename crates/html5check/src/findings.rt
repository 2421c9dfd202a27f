//! What is found in a text.
ghost use Rattle.std.specs.Prelude.{◌≡◌, IfOk, map};
ghost use Rattle.html5check.specs.Checking.{findings_in, found_by};
ghost use Rattle.html5check.specs.Faults.{finding_by};
ghost use Rattle.html5check.specs.Seen.{seen_by};

use crate::checker::Checker;
use crate::finding::Finding;
use crate::seen::SeenToken;
use std::alloc::{AllocError, Global};

// What is found by these tokens, in their order.
#[tactic(auto, unfolding(crate::specs::Checking::checked_all))]
fn found_by<'t>(alloc: Global, tokens: &'t [SeenToken]) -> Result<Vec<Finding<'t>>, AllocError>
    ensures { IfOk result (λ found. map finding_by found.items ≡ found_by (map seen_by tokens.now)) }
{
    let mut checker = Checker::new(alloc);
    for seen in tokens {
        checker.take(seen)?;
    }
    Ok(checker.into_found())
}

/// What is found by the tokens of a text, in order of places.
pub fn findings_in<'t>(
    alloc: Global,
    tokens: &'t [SeenToken],
) -> Result<Vec<Finding<'t>>, AllocError>
    ensures { IfOk result (λ found. map finding_by found.items ≡ findings_in (map seen_by tokens.now)) }
{
    let mut found = found_by(alloc, tokens)?;
    found.sort_by_key(|finding| finding.begin)?;
    Ok(found)
}
