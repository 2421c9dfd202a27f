//! Where what is found stands.
ghost use Rattle.std.specs.Prelude.{◌≡◌, All, List, ℕ};
ghost use Rattle.std.specs.List.{list_all};
ghost use Rattle.std.specs.Str.{chars};
ghost use Rattle.html5check.specs.Checking.{findings_in, found_by, nothing_checked};
ghost use Rattle.html5check.specs.Matching.{all_match, has_other};
ghost use Rattle.html5check.specs.Places.{StandsAtToken, StandsInText};
ghost use Rattle.html5check.specs.Seen.{Seen, seen_in};
ghost use Rattle.markup5ever.specs.NamedReferences.{NamedReference};

/// A finding stands at a token that has its fault: it begins and ends where that does. An error has its code, and an
/// end tag may be stray or of a void element. Any other fault is a start tag's; a repeated id is that of another start
/// tag before.
///
/// In a text that is read from its first byte its places are in order and lie between characters.
pub fn findings_stand_at_tokens()
    ensures tokens { (tokens : List Seen) → All (StandsAtToken tokens) (findings_in tokens) }
    ensures text { (references : List NamedReference) (text : List ℕ)
        → All (StandsInText (chars text)) (findings_in (seen_in references text)) }
{}

/// A tag without its other is found exactly where tags don't match (`all_match`). Tags don't match if an end tag ends
/// no open element. Nor do they if an element whose end tag may not be left out is still open at the end tag of one
/// around it, or at the end.
pub fn unmatched_tags_are_found()
    ensures { (tokens : List Seen) → list_all has_other (found_by tokens) ≡ all_match nothing_checked tokens }
{}
